//! Why a commit evaluates in its own step.
ghost use Rattle.std.specs.Prelude.{◌≡◌, ◌+◌, ◌<◌, ◌^◌, IfOk, length, map};
ghost use Rattle.std.specs.List.{AllByRecursion};
ghost use Rattle.store_model.specs.Store.{again_from};
ghost use Rattle.snapshot_store.specs.Kept.{HasTerms, told};

use crate::kept::KeptCommit;
use crate::looks::LookSet;
use rdf_model::{Look, Term};
use std::alloc::{AllocError, Global};
use store_model::Again;
use term_dict::Dict;

// Why a verdict with these looks no longer holds after the commits, numbered from `first` on.
fn first_reason<'a>(
    first: u64,
    looks: &LookSet<'a>,
    commits: &[KeptCommit],
) -> Result<Again, AllocError>
    requires few { first + length commits.now < 2 ^ 64 }
    requires terms { AllByRecursion (HasTerms looks.now.names) commits.now }
    ensures { IfOk result (λ why. why ≡ again_from first looks.now.looks (map (told looks.now.names) commits.now)) }
{
    let mut commit = first;
    for kept in commits {
        if kept.staged {
            return Ok(Again::ShapesChanged(commit));
        }
        if let Some(triple) = looks.first_touched(kept.changed.as_slice())? {
            return Ok(Again::Touched(commit, triple));
        }
        commit += 1;
    }
    Ok(Again::No)
}

/// Why a verdict with these looks, in any order, no longer holds after the commits, numbered from `first` on. Where there is none
/// nothing is done with the looks.
pub(crate) fn again_among(
    alloc: Global,
    names: &Dict,
    first: u64,
    looks: &[Look<Term>],
    commits: &[KeptCommit],
) -> Result<Again, AllocError>
    requires few { first + length commits.now < 2 ^ 64 }
    requires terms { AllByRecursion (HasTerms names.now.terms) commits.now }
    ensures { IfOk result (λ why. why ≡ again_from first looks.now (map (told names.now.terms) commits.now)) }
{
    if commits.is_empty() {
        return Ok(Again::No);
    }
    let set = LookSet::new(alloc, names, looks)?;
    first_reason(first, &set, commits)
}
