//! What turns pass on: the core, with its log.
ghost use Rattle.std.specs.Prelude.{◌≡◌, ◌≤◌, [], false, IfOk, OnErr, MatchResult};
ghost use Rattle.store_model.specs.Store.{IsCommittable, IsOpened, TakesStep};
ghost use Rattle.store_model.specs.Snapshots.{snapshot_of};
ghost use Rattle.session_model.specs.Sessions.{parts_of};
ghost use Rattle.commit_core.specs.Consistent.{IsConsistent};
ghost use Rattle.commit_core.specs.Faults.{NamesNone, OpensNone};
ghost use Rattle.commit_core.specs.Logged.{IsLoggable};
ghost use Rattle.commit_core.specs.Verdicts.{AreOfVerdict};
ghost use Rattle.session_transaction.specs.Commits.{IsCommitted};
ghost use Rattle.session_transaction.specs.Logging.{StandsBeside};
ghost use Rattle.guard_store.specs.Fronts.{void_of};
ghost use Rattle.guard_store.specs.Slots.{HasItsLog, log_origin};
ghost use Rattle.guard_store.specs.Answers.{event_of};

use commit_core::{CheckedTransaction, Core, NamingFault, NumberHints, SessionFault, Slip, Snap};
use commit_log::Log;
use disk::Disk;
use numbered_lists::TripleList;
use session_transaction::{Committed, commit_beside};
use shape_eval::Steps;
use std::alloc::AllocError;
use std::marker::Model;
use std::snapshot::Snapshot;
use std::sync::ledger::Ledger;
use std::thread::Threads;
use store_model::{Action, Event, NameKind, Reply};
use turn_lock::Entries;

/// What stays of a store while turns change it, for contracts alone. None is made.
pub struct Beginning<D: Disk> {
    core: Core,
    log: Option<Log<D>>,
}

impl<D: Disk> Model for Beginning<D> {
    ghost use Rattle.guard_store.specs.Slots.{Origin, log_origin};

    ghost Value = { Origin };

    ghost view = { λ b. record { limits = b.core.limits; start = b.core.start; log = log_origin D.bytes D.history D.chosen D.faults b.log } };
}

/// The core that turns pass on, with its log where it has one. It stands for the core's history.
pub struct Shared<D: Disk> {
    core: Core,
    log: Option<Log<D>>,
    // The log as the store began.
    first: Snapshot<Option<Log<D>>>,
}

impl<D: Disk> Model for Shared<D> {
    ghost use Rattle.guard_store.specs.Slots.{HasItsLog, SlotState, log_origin};

    ghost Value = { SlotState D };

    ghost view = { λ s. record { core = s.core; log = s.log; origin = log_origin D.bytes D.history D.chosen D.faults s.first.value } };

    ghost invariant = { λ s. HasItsLog D.tells D.bytes D.history D.chosen D.faults (log_origin D.bytes D.history D.chosen D.faults s.first.value) s.core s.log };
}

// Written by hand, so that what owns one calls it in place of having it written out.
impl<D: Disk + Drop> Drop for Shared<D> {
    fn drop(self) {
        let Shared {
            core: _,
            log: _,
            first: _,
        } = self;
    }
}

impl<D: Disk> Entries for Shared<D> {
    ghost use Rattle.std.specs.Prelude.{◌≡◌, false};
    ghost use Rattle.std.proofs.Common.{refl};
    ghost use Rattle.guard_store.specs.Fronts.{session_of};

    type Entry = Event;

    type Plain = Beginning<D>;

    ghost entries = { λ s. s.core.history };

    ghost number = { session_of };

    ghost is_zero_shared = { false };

    ghost plain = { λ s. record { limits = s.core.limits; start = s.core.start; log = s.origin } };

    ghost comes = { λ old new. new ≡ old };

    ghost comes_from_itself = { λ _ _. refl };
}

impl<D: Disk> Shared<D> {
    /// A core that has no event yet, with its log.
    pub(crate) fn new(core: Core, log: Option<Log<D>>) -> Shared<D>
        requires fresh { core.history ≡ [] }
        requires running { core.state.stopped ≡ false }
        requires beside { StandsBeside core log }
        ensures { result ≡ record { core = core; log = log; origin = log_origin D.bytes D.history D.chosen D.faults log } }
    {
        let first = Snapshot::of(&log);
        Shared { core, log, first }
    }

    /// What every core keeps.
    pub(crate) fn recall_consistent(&self)
        ensures { IsConsistent self.now.core }
    {
        self.core.recall_consistent();
    }

    /// The core and its log.
    pub(crate) fn into_parts(self) -> (Core, Option<Log<D>>)
        ensures core { result.0 ≡ self.core }
        ensures log { result.1 ≡ self.log }
        ensures its { HasItsLog D.tells D.bytes D.history D.chosen D.faults self.origin self.core self.log }
    {
        let Shared {
            core,
            log,
            first: _,
        } = self;
        (core, log)
    }

    /// Gives out the next session.
    pub(crate) fn session(&mut self) -> Result<u32, SessionFault>
        ensures step { MatchResult result
            (λ session. TakesStep self.old.core self.new.core (event_of session Action.Open (Reply.Session session)))
            (λ fault. OpensNone fault self.old.core self.new.core) }
        ensures origin { self.new.origin ≡ self.old.origin }
    {
        self.core.recall_consistent();
        self.core.session()
    }

    /// The newest snapshot, at which a transaction begins.
    pub(crate) fn begin(&mut self, session: u32) -> Result<Snap, AllocError>
        requires { IsOpened self.old.core.state session }
        ensures step { IfOk result (λ snap. TakesStep self.old.core self.new.core (event_of session Action.Begin (Reply.Version snap.number))) }
        ensures snapshot { IfOk result (λ snap. snap ≡ snapshot_of self.old.core.limits.mode self.old.core.state) }
        ensures memory { OnErr result (self.new.core ≡ self.old.core) }
        ensures origin { self.new.origin ≡ self.old.origin }
    {
        self.core.recall_consistent();
        self.core.begin(session)
    }

    /// The newest snapshot, against which a commit is checked beforehand.
    pub(crate) fn head(&mut self, session: u32) -> Result<Snap, AllocError>
        requires { IsOpened self.old.core.state session }
        ensures step { IfOk result (λ snap. TakesStep self.old.core self.new.core (event_of session Action.Head (Reply.Version snap.number))) }
        ensures snapshot { IfOk result (λ snap. snap ≡ snapshot_of self.old.core.limits.mode self.old.core.state) }
        ensures memory { OnErr result (self.new.core ≡ self.old.core) }
        ensures origin { self.new.origin ≡ self.old.origin }
    {
        self.core.recall_consistent();
        self.core.head(session)
    }

    /// Names the terms of the triples of a block, all or none, and gives the hints for their numbers.
    pub(crate) fn name(
        &mut self,
        session: u32,
        kind: NameKind,
        block: &TripleList,
    ) -> Result<NumberHints, NamingFault>
        requires { IsOpened self.old.core.state session }
        ensures step { MatchResult result
            (λ _. TakesStep self.old.core self.new.core (event_of session (Action.Name kind (parts_of block.now)) Reply.Named))
            (λ fault. NamesNone fault self.old.core self.new.core session kind (parts_of block.now)) }
        ensures origin { self.new.origin ≡ self.old.origin }
    {
        self.core.recall_consistent();
        self.core.name_list(session, kind, block)
    }

    /// Records a turn for which memory ran out.
    pub(crate) fn void(&mut self, session: u32, slip: Slip)
        requires { session ≤ self.old.core.state.opened }
        ensures step { TakesStep self.old.core self.new.core (void_of session) }
        ensures origin { self.new.origin ≡ self.old.origin }
    {
        self.core.recall_consistent();
        self.core.void(session, slip);
    }

    /// Commits a transaction to the core, and to its log where it has one. Threads share out its evaluations among each other.
    pub(crate) fn commit<L: Ledger, T: Threads + Sync>(
        &mut self,
        rt: &T,
        session: u32,
        checked: CheckedTransaction,
        steps: &mut Steps<L>,
    ) -> Result<Committed, CheckedTransaction>
        requires opened { IsOpened self.old.core.state session }
        requires committable { IsCommittable self.old.core.state checked.transaction }
        requires verdict { AreOfVerdict self.old.core checked.transaction.net checked.transaction.verdict checked.pairs }
        requires loggable { IsLoggable checked.transaction }
        ensures answer { MatchResult result
            (IsCommitted self.old.core self.new.core session checked.transaction steps.old steps.new)
            (λ back. (back ≡ checked) × (self.new.core ≡ self.old.core) × (steps.old ≤ steps.new)) }
        ensures origin { self.new.origin ≡ self.old.origin }
    {
        commit_beside(rt, &mut self.core, &mut self.log, session, checked, steps)
    }
}
