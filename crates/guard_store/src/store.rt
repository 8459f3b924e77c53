//! A store that callers enter in turns.
ghost use Rattle.std.specs.Prelude.{◌≡◌, ◌+◌, ◌^◌, ◌<◌, false, true, [], None, Some, IfErr, IfOk, MatchResult};
ghost use Rattle.turn_lock.specs.History.{OthersAdded};
ghost use Rattle.turn_lock.specs.Callers.{kept_caller, met_caller, new_caller};
ghost use Rattle.store_model.specs.Store.{RecordedStore, TakesStep, Replays, empty_store};
ghost use Rattle.guard_store.specs.Fronts.{Entered, MayLeave, Turn, opening_of, session_of, turned_pass};
ghost use Rattle.session_transaction.specs.Logging.{StandsBeside};
ghost use Rattle.guard_store.specs.Slots.{HasItsLog, log_origin};
ghost use Rattle.guard_store.specs.Callers.{IsKeeper};
ghost use Rattle.guard_store.specs.Answers.{OpensNot, OpensNothing, OpensSession, event_of};

use crate::faults::OpenFault;
use crate::session::{Keeper, Session};
use crate::shared::Shared;
use commit_core::{Core, SessionFault, slip};
use commit_log::Log;
use disk::Disk;
use std::alloc::{AllocError, Global};
use std::marker::Model;
use std::snapshot::Snapshot;
use std::sync::Wait;
use store_model::{Action, Event, Limits, Reply};
use turn_lock::{Held, Pass, Turns};

/// A store that its callers enter in turns. Contracts see which one it is, its limits, the state that its history begins at, and
/// what the disk of its log told then, where it has one.
pub struct Store<D: Disk> {
    turns: Turns<Shared<D>>,
    // The core and its log before the first event.
    first: Snapshot<Shared<D>>,
    pub(crate) alloc: Global,
}

impl<D: Disk> Model for Store<D> {
    ghost use Rattle.std.specs.Prelude.{◌≡◌};
    ghost use Rattle.guard_store.specs.Fronts.{SharedStore};

    ghost Value = { SharedStore };

    ghost view = { λ s. record { id = s.turns.id; limits = s.first.value.core.limits; start = s.first.value.core.start; log = s.first.value.origin } };

    ghost invariant = { λ s. s.turns.seats ≡ 65 };
}

// Written by hand, so that what owns one calls it in place of having it written out.
impl<D: Disk + Drop> Drop for Store<D> {
    fn drop(self) {
        let Store {
            turns: _,
            first: _,
            alloc: _,
        } = self;
    }
}

impl<D: Disk> Store<D> {
    /// A store over a core that has no event yet and gave out no session, and over the core's log, if it has one; and its keeper.
    /// Without memory both are given back.
    pub fn over(
        alloc: Global,
        core: Core,
        log: Option<Log<D>>,
    ) -> Result<(Store<D>, Keeper<D>), (Core, Option<Log<D>>, AllocError)>
    where
        D: Drop,
        requires fresh { core.history ≡ [] }
        requires unopened { core.start.opened ≡ 0 }
        requires running { core.state.stopped ≡ false }
        requires beside { StandsBeside core log }
        ensures limits { IfOk result (λ r. r.0.limits ≡ core.limits) }
        ensures start { IfOk result (λ r. r.0.start ≡ core.start) }
        ensures log { IfOk result (λ r. r.0.log ≡ log_origin D.bytes D.history D.chosen D.faults log) }
        ensures keeper { IfOk result (λ r. IsKeeper r.0 r.1) }
        ensures seats { IfOk result (λ r. r.1.pass.spare ≡ 64) }
        ensures opened { IfOk result (λ r. (r.1.opened ≡ 0) × (r.1.pass.known.front ≡ [])) }
        ensures back { IfErr result (λ back. (back.0 ≡ core) × (back.1 ≡ log)) }
    {
        let shared = Shared::new(core, log);
        let first = Snapshot::of(&shared);
        match Turns::over(alloc, shared, 65) {
            Ok((turns, pass)) => Ok((
                Store {
                    turns,
                    first,
                    alloc,
                },
                Keeper::from_parts(pass, 0),
            )),
            Err(shared) => {
                let (core, log) = shared.into_parts();
                Err((core, log, AllocError))
            }
        }
    }

    /// An empty store without a log, and its keeper.
    pub fn new(alloc: Global, limits: Limits) -> Result<(Store<D>, Keeper<D>), AllocError>
    where
        D: Drop,
        requires { limits.terms + 2 < 2 ^ 32 }
        ensures limits { IfOk result (λ r. r.0.limits ≡ limits) }
        ensures start { IfOk result (λ r. r.0.start ≡ empty_store) }
        ensures log { IfOk result (λ r. r.0.log ≡ None) }
        ensures keeper { IfOk result (λ r. IsKeeper r.0 r.1) }
        ensures seats { IfOk result (λ r. r.1.pass.spare ≡ 64) }
        ensures opened { IfOk result (λ r. (r.1.opened ≡ 0) × (r.1.pass.known.front ≡ [])) }
    {
        let core = Core::open(alloc, limits)?;
        match Store::over(alloc, core, None) {
            Ok(made) => Ok(made),
            Err(_) => Err(AllocError),
        }
    }

    /// Where the store takes its memory.
    pub fn allocator(&self) -> Global {
        self.alloc
    }

    /// Waits for the caller's turn, and takes the core with its log.
    pub(crate) fn start<R: Wait>(
        &self,
        rt: &R,
        pass: Pass<Shared<D>>,
    ) -> (Held<Shared<D>>, Shared<D>)
        requires lock { pass.lock ≡ self.now.id }
        requires opening { pass.opening ≡ Some (opening_of self.now) }
        ensures entered { Entered self.now pass result.0 result.1.core }
        ensures origin { result.1.origin ≡ self.now.log }
    {
        let (held, shared) = self.turns.enter(rt, pass);
        shared.recall_consistent();
        (held, shared)
    }

    /// Ends the turn, in which the core took one step.
    pub(crate) fn finish(&self, held: Held<Shared<D>>, shared: Shared<D>) -> Pass<Shared<D>>
        requires lock { held.lock ≡ self.now.id }
        requires step { MayLeave self.now held shared.core }
        requires origin { shared.origin ≡ self.now.log }
        ensures { (pass : _) (old : RecordedStore) (e : Event) → Entered self.now pass held old → TakesStep old shared.core e → result ≡ turned_pass pass old.history e }
    {
        self.turns.leave(held, shared)
    }

    // Takes the keeper's turn that opens a session.
    fn take_opening<R: Wait>(
        &self,
        rt: &R,
        pass: Pass<Shared<D>>,
    ) -> (Pass<Shared<D>>, Result<u32, OpenFault>)
        requires lock { pass.lock ≡ self.now.id }
        requires opening { pass.opening ≡ Some (opening_of self.now) }
        requires first { pass.known.first ≡ true }
        ensures { MatchResult result.1
            (λ number. Turn self.now pass result.0 (event_of number Action.Open (Reply.Session number)))
            (λ fault. OpensNot fault self.now pass result.0) }
    {
        let Ok(slip) = slip(self.alloc) else {
            return (pass, Err(OpenFault::Memory));
        };
        let (held, mut shared) = self.start(rt, pass);
        match shared.session() {
            Ok(number) => (self.finish(held, shared), Ok(number)),
            Err(SessionFault::SessionsFull) => {
                (self.finish(held, shared), Err(OpenFault::SessionsFull))
            }
            Err(SessionFault::Memory) => {
                shared.void(0, slip);
                (self.finish(held, shared), Err(OpenFault::Memory))
            }
        }
    }

    // Splits off the caller of the session that was opened.
    fn split_off(&self, pass: Pass<Shared<D>>, number: u32) -> (Keeper<D>, Session<D>)
        requires lock { pass.lock ≡ self.now.id }
        requires first { pass.known.first ≡ true }
        requires room { 0 < pass.spare }
        ensures kept { result.0 ≡ record { pass = kept_caller number pass; opened = number } }
        ensures new { result.1 ≡ record { pass = new_caller number pass; number = number; current = None; head = None } }
    {
        let Ok((pass, new)) = self.turns.split(pass, number) else {
            unreachable!()
        };
        let keeper = Keeper::from_parts(pass, number);
        (keeper, Session::from_parts(new, number, None, None))
    }

    /// Opens the next session. SessionsFull comes exactly where 64 were given out before. After a fault the keeper may go
    /// on.
    pub fn open<R: Wait>(
        &self,
        rt: &R,
        keeper: Keeper<D>,
    ) -> Result<(Keeper<D>, Session<D>), (Keeper<D>, OpenFault)>
        requires { IsKeeper self.now keeper }
        ensures opens { MatchResult result
            (λ r. OpensSession self.now keeper r.0 r.1)
            (λ f. OpensNothing f.1 self.now keeper f.0) }
        ensures seats { MatchResult result (λ r. r.0.pass.spare + 1 ≡ keeper.pass.spare) (λ f. f.0.pass.spare ≡ keeper.pass.spare) }
    {
        let (pass, opened) = keeper.into_parts();
        let (pass, answer) = self.take_opening(rt, pass);
        match answer {
            Ok(number) => Ok(self.split_off(pass, number)),
            Err(fault) => Err((Keeper::from_parts(pass, opened), fault)),
        }
    }

    /// The keeper takes in what a session has seen, which ends; its open transaction is dropped.
    pub fn meet(&self, keeper: Keeper<D>, session: Session<D>) -> Keeper<D>
        requires keeper { IsKeeper self.now keeper }
        requires session { session.pass.lock ≡ self.now.id }
        ensures keeper { IsKeeper self.now result }
        ensures met { result ≡ record keeper { pass = met_caller keeper.pass session.pass } }
        ensures this { OthersAdded session_of false keeper.pass.known result.pass.known.front }
        ensures that { OthersAdded session_of false session.pass.known result.pass.known.front }
    {
        let (pass, opened) = keeper.into_parts();
        let other = session.into_pass();
        Keeper::from_parts(self.turns.meet(pass, other), opened)
    }

    /// Ends the store once all sessions were met: its core, whose history is what the keeper has seen, and its log. Where it has a
    /// log, whatever records the log had as the store began, it has these and the commits since; the store is stopped only where
    /// the disk's faults rose since then. Without a log it isn't stopped.
    pub fn close(self, keeper: Keeper<D>) -> (Core, Option<Log<D>>)
    where
        D: Drop,
        requires keeper { IsKeeper self keeper }
        requires all { keeper.pass.spare ≡ 64 }
        ensures history { result.0.history ≡ keeper.pass.known.front }
        ensures limits { result.0.limits ≡ self.limits }
        ensures start { result.0.start ≡ self.start }
        ensures replays { Replays result.0.limits result.0.start result.0.history result.0.state }
        ensures log { HasItsLog D.tells D.bytes D.history D.chosen D.faults self.log result.0 result.1 }
    {
        let Store {
            turns,
            first: _,
            alloc: _,
        } = self;
        let (pass, _) = keeper.into_parts();
        let shared = turns.close(pass);
        shared.recall_consistent();
        shared.into_parts()
    }
}
