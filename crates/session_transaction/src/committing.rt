//! The commit of a transaction over a core.
ghost use Rattle.std.specs.Prelude.{◌≡◌, ◌≤◌, IfOk, MatchResult};
ghost use Rattle.store_model.specs.Store.{IsCommittable, IsOpened};
ghost use Rattle.commit_core.specs.Commits.{Answers};
ghost use Rattle.commit_core.specs.Logged.{IsLoggable};
ghost use Rattle.commit_core.specs.Verdicts.{AreOfVerdict};
ghost use Rattle.commit_core.specs.Work.{CommitSteps};
ghost use Rattle.session_transaction.specs.Commits.{IsCommitted, IsNoFault};
ghost use Rattle.session_transaction.specs.Logging.{KeepsLog, StandsBeside};

use collections::Sequence;
use commit_core::{CheckedTransaction, Commit, Core};
use commit_log::Log;
use disk::Disk;
use rdf_model::Triple;
use shape_eval::Steps;
use shape_model::ResultRow;
use shapes_graph::ShapesGraph;
use std::sync::ledger::Ledger;
use std::thread::Threads;
use store_model::Again;

/// What a commit is answered.
pub enum Committed {
    /// The transaction changes nothing; it stands at this version.
    ReadOnly {
        version: u64,
    },
    /// The commit's number, the version that it made, and why it was evaluated in its turn.
    Done {
        number: u64,
        again: Again,
    },
    /// The overtaking commit, and the first triple of it that a find asked for.
    Conflict {
        commit: u64,
        triple: Triple,
    },
    /// The graph would have so many triples, more than the limit.
    FullTriples {
        count: usize,
    },
    /// The graph would have these results, under these shapes.
    Refused {
        rows: Sequence<ResultRow>,
        again: Again,
        shapes: ShapesGraph,
    },
    /// The store's log failed where the commit would have been accepted; from here on the store is
    /// stopped.
    LogFault,
    /// The version of a store that is stopped.
    Stopped {
        version: u64,
    },
}

// Written by hand, so that what owns one calls it in place of having it written out.
impl Drop for Committed {
    fn drop(self) {
        match self {
            Committed::ReadOnly { version: _ } => {}
            Committed::Done {
                number: _,
                again: _,
            } => {}
            Committed::Conflict {
                commit: _,
                triple: _,
            } => {}
            Committed::FullTriples { count: _ } => {}
            Committed::Refused {
                rows: _,
                again: _,
                shapes: _,
            } => {}
            Committed::LogFault => {}
            Committed::Stopped { version: _ } => {}
        }
    }
}

/// Commits a transaction that changes something or stages shapes, with the results of its verdict, if it has one, and counts its
/// evaluations in `steps`, which threads share out among each other. No log is written to, so that none fails. Without memory it is
/// handed back, and nothing has happened but what was counted.
pub fn commit<L: Ledger, T: Threads + Sync>(
    rt: &T,
    core: &mut Core,
    session: u32,
    checked: CheckedTransaction,
    steps: &mut Steps<L>,
) -> Result<Committed, CheckedTransaction>
    requires opened { IsOpened core.old.state session }
    requires committable { IsCommittable core.old.state checked.transaction }
    requires verdict { AreOfVerdict core.old checked.transaction.net checked.transaction.verdict checked.pairs }
    ensures answer { MatchResult result (IsCommitted core.old core.new session checked.transaction steps.old steps.new) (λ back. (back ≡ checked) × (core.new ≡ core.old) × (steps.old ≤ steps.new)) }
    ensures no_fault { IfOk result IsNoFault }
{
    match core.commit(rt, session, checked, steps) {
        Commit::Done { number, again } => Ok(Committed::Done { number, again }),
        Commit::Conflict { commit, triple } => Ok(Committed::Conflict { commit, triple }),
        Commit::FullTriples { count } => Ok(Committed::FullTriples { count }),
        Commit::Refused {
            rows,
            again,
            shapes,
        } => Ok(Committed::Refused {
            rows,
            again,
            shapes,
        }),
        Commit::LogFault => unreachable!(),
        Commit::Stopped { version } => Ok(Committed::Stopped { version }),
        Commit::Memory(checked) => Err(checked),
    }
}

// The answer of the core, whose log, where it has one, is appended to.
fn answer_beside<D: Disk, L: Ledger, T: Threads + Sync>(
    rt: &T,
    core: &mut Core,
    log: &mut Option<Log<D>>,
    session: u32,
    checked: CheckedTransaction,
    steps: &mut Steps<L>,
) -> Commit
    requires opened { IsOpened core.old.state session }
    requires committable { IsCommittable core.old.state checked.transaction }
    requires verdict { AreOfVerdict core.old checked.transaction.net checked.transaction.verdict checked.pairs }
    requires beside { StandsBeside core.old log.old }
    requires loggable { IsLoggable checked.transaction }
    ensures answer { Answers result core.old core.new session checked }
    ensures steps { CommitSteps result core.old.state checked.transaction steps.old steps.new }
    ensures log { KeepsLog D.tells D.bytes D.history D.chosen D.faults core.old core.new log.old log.new }
{
    core.recall_consistent();
    match log {
        Some(log) => core.commit_logged(rt, session, checked, log, steps),
        None => core.commit(rt, session, checked, steps),
    }
}

/// Commits a transaction as `commit` does, and appends its record to the log of the core, where it has one. Where the log fails,
/// for which its disk is to blame, the store is stopped.
pub fn commit_beside<D: Disk, L: Ledger, T: Threads + Sync>(
    rt: &T,
    core: &mut Core,
    log: &mut Option<Log<D>>,
    session: u32,
    checked: CheckedTransaction,
    steps: &mut Steps<L>,
) -> Result<Committed, CheckedTransaction>
    requires opened { IsOpened core.old.state session }
    requires committable { IsCommittable core.old.state checked.transaction }
    requires verdict { AreOfVerdict core.old checked.transaction.net checked.transaction.verdict checked.pairs }
    requires beside { StandsBeside core.old log.old }
    requires loggable { IsLoggable checked.transaction }
    ensures answer { MatchResult result (IsCommitted core.old core.new session checked.transaction steps.old steps.new) (λ back. (back ≡ checked) × (core.new ≡ core.old) × (steps.old ≤ steps.new)) }
    ensures log { KeepsLog D.tells D.bytes D.history D.chosen D.faults core.old core.new log.old log.new }
{
    match answer_beside(rt, core, log, session, checked, steps) {
        Commit::Done { number, again } => Ok(Committed::Done { number, again }),
        Commit::Conflict { commit, triple } => Ok(Committed::Conflict { commit, triple }),
        Commit::FullTriples { count } => Ok(Committed::FullTriples { count }),
        Commit::Refused {
            rows,
            again,
            shapes,
        } => Ok(Committed::Refused {
            rows,
            again,
            shapes,
        }),
        Commit::LogFault => Ok(Committed::LogFault),
        Commit::Stopped { version } => Ok(Committed::Stopped { version }),
        Commit::Memory(checked) => Err(checked),
    }
}
