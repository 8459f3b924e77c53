//! The events of a session, each a turn of its own.
ghost use Rattle.std.specs.Prelude.{◌≡◌, ◌≤◌, MatchResult};
ghost use Rattle.store_model.specs.Store.{IsCommittable};
ghost use Rattle.store_model.specs.Snapshots.{snapshot_of};
ghost use Rattle.session_model.specs.Sessions.{parts_of};
ghost use Rattle.guard_store.specs.Fronts.{At, Fails, Turn};
ghost use Rattle.commit_core.specs.Logged.{IsLoggable};
ghost use Rattle.commit_core.specs.Verdicts.{AreOfVerdictIn};
ghost use Rattle.guard_store.specs.Callers.{IsCaller};
ghost use Rattle.guard_store.specs.Answers.{NamesNot, TurnCommits, TurnCounts, event_of};

use crate::shared::Shared;
use crate::store::Store;
use commit_core::{CheckedTransaction, NamingFault, NumberHints, Snap, slip};
use disk::Disk;
use numbered_lists::TripleList;
use session_transaction::Committed;
use shape_eval::Steps;
use std::alloc::AllocError;
use std::sync::Wait;
use std::sync::ledger::Ledger;
use std::thread::Threads;
use store_model::{Action, NameKind, Reply};
use turn_lock::Pass;

impl<D: Disk> Store<D> {
    /// The newest snapshot, at which a transaction begins.
    pub(crate) fn take_begin<R: Wait>(
        &self,
        rt: &R,
        pass: Pass<Shared<D>>,
        number: u32,
    ) -> (Pass<Shared<D>>, Result<Snap, AllocError>)
        requires { IsCaller self.now number pass }
        ensures { MatchResult result.1
            (λ snap. (t : Turn self.now pass result.0 (event_of number Action.Begin (Reply.Version snap.number))) × (snap ≡ snapshot_of self.now.limits.mode t.before))
            (λ _. Fails self.now pass result.0 number) }
    {
        let Ok(slip) = slip(self.alloc) else {
            return (pass, Err(AllocError));
        };
        let (held, mut shared) = self.start(rt, pass);
        match shared.begin(number) {
            Ok(snap) => (self.finish(held, shared), Ok(snap)),
            Err(error) => {
                shared.void(number, slip);
                (self.finish(held, shared), Err(error))
            }
        }
    }

    /// The newest snapshot, against which a commit is checked beforehand.
    pub(crate) fn take_head<R: Wait>(
        &self,
        rt: &R,
        pass: Pass<Shared<D>>,
        number: u32,
    ) -> (Pass<Shared<D>>, Result<Snap, AllocError>)
        requires { IsCaller self.now number pass }
        ensures { MatchResult result.1
            (λ snap. (t : Turn self.now pass result.0 (event_of number Action.Head (Reply.Version snap.number))) × (snap ≡ snapshot_of self.now.limits.mode t.before))
            (λ _. Fails self.now pass result.0 number) }
    {
        let Ok(slip) = slip(self.alloc) else {
            return (pass, Err(AllocError));
        };
        let (held, mut shared) = self.start(rt, pass);
        match shared.head(number) {
            Ok(snap) => (self.finish(held, shared), Ok(snap)),
            Err(error) => {
                shared.void(number, slip);
                (self.finish(held, shared), Err(error))
            }
        }
    }

    /// Names the terms of the triples of a block of this kind, all or none, and gives the hints for their numbers.
    pub(crate) fn take_names<R: Wait>(
        &self,
        rt: &R,
        pass: Pass<Shared<D>>,
        number: u32,
        kind: NameKind,
        block: &TripleList,
    ) -> (Pass<Shared<D>>, Result<NumberHints, NamingFault>)
        requires { IsCaller self.now number pass }
        ensures { MatchResult result.1
            (λ _. Turn self.now pass result.0 (event_of number (Action.Name kind (parts_of block.now)) Reply.Named))
            (λ fault. NamesNot fault self.now pass result.0 number kind (parts_of block.now)) }
    {
        let Ok(slip) = slip(self.alloc) else {
            return (pass, Err(NamingFault::Memory));
        };
        let (held, mut shared) = self.start(rt, pass);
        match shared.name(number, kind, block) {
            Ok(hints) => (self.finish(held, shared), Ok(hints)),
            Err(NamingFault::Unknown { node }) => {
                (
                    self.finish(held, shared),
                    Err(NamingFault::Unknown { node }),
                )
            }
            Err(NamingFault::Full { count }) => {
                (self.finish(held, shared), Err(NamingFault::Full { count }))
            }
            Err(NamingFault::Memory) => {
                shared.void(number, slip);
                (self.finish(held, shared), Err(NamingFault::Memory))
            }
        }
    }

    /// Commits a transaction that changes something or stages shapes, with what is kept of its check, and counts its
    /// evaluations, which threads share out among each other. Without memory it is handed back.
    pub(crate) fn take_commit<L: Ledger, R: Threads + Wait + Sync>(
        &self,
        rt: &R,
        pass: Pass<Shared<D>>,
        number: u32,
        handed: CheckedTransaction,
        steps: &mut Steps<L>,
    ) -> (Pass<Shared<D>>, Result<Committed, CheckedTransaction>)
        requires caller { IsCaller self.now number pass }
        requires committable { At self.now pass.known.front (λ s. IsCommittable s handed.transaction) }
        requires loggable { IsLoggable handed.transaction }
        requires kept { AreOfVerdictIn self.now.limits self.now.start pass.known.front handed.transaction.net handed.transaction.verdict handed.pairs }
        ensures commits { MatchResult result.1
            (TurnCommits self.now pass result.0 number handed.transaction)
            (λ back. (back ≡ handed) × Fails self.now pass result.0 number) }
        ensures steps { MatchResult result.1 (TurnCounts self.now pass result.0 number handed.transaction steps.old steps.new) (λ _. steps.old ≤ steps.new) }
    {
        let Ok(slip) = slip(self.alloc) else {
            return (pass, Err(handed));
        };
        let (held, mut shared) = self.start(rt, pass);
        match shared.commit(rt, number, handed, steps) {
            Ok(committed) => (self.finish(held, shared), Ok(committed)),
            Err(handed) => {
                shared.void(number, slip);
                (self.finish(held, shared), Err(handed))
            }
        }
    }
}
