//! Why a commit evaluates in its own step.
ghost use Rattle.std.specs.Prelude.{◌≡◌, MatchBool, length, IfOk};
ghost use Rattle.snapshot_store.specs.Named.{IsAtHead};
ghost use Rattle.commit_core.specs.Verdicts.{AreReasons};
ghost use Rattle.commit_core.specs.Work.{is_no};

use crate::commit::Reasons;
use snapshot_store::Commits;
use std::alloc::AllocError;
use store_model::{Again, Transaction};

/// Why the transaction is evaluated in its own step, after these commits: once for the answer and
/// once for the history.
pub fn find_reasons(commits: &Commits, transaction: &Transaction) -> Result<Reasons, AllocError>
    requires { IsAtHead (length commits.now.commits) transaction.now.verdict }
    ensures { IfOk result (AreReasons commits.now.commits transaction.now) }
{
    let answer = commits.again(transaction)?;
    let recorded = answer.clone()?;
    Ok(Reasons { answer, recorded })
}

/// Whether a verdict held, so that nothing has to be evaluated.
pub fn has_held(reason: &Again) -> bool
    ensures held { MatchBool result (reason.now ≡ Again.No) (Unit {0}) }
    ensures no { result ≡ is_no reason.now }
{
    match reason {
        Again::No => true,
        _ => false,
    }
}
