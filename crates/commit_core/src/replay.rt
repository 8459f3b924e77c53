//! A core made of a history, event by event.
ghost use Rattle.std.specs.Prelude.{false, ◌≡◌, ◌+◌, ◌<◌, ◌≤◌, ◌^◌, MatchBool, MatchResult, IfOk, OnOk, IsTrue};
ghost use Rattle.store_model.specs.Actions.{IsNoCommit};
ghost use Rattle.store_model.specs.Store.{IsCommittable, IsOpened};
ghost use Rattle.commit_core.specs.Conditions;
ghost use Rattle.commit_core.specs.Conditions.{next_session, was_opened};
ghost use Rattle.commit_core.specs.Replaying.{IsReplayed, IsReplayFault, IsWrongNext, Performs, RunsOn};

use crate::asking::may_commit;
use crate::commit::{CheckedTransaction, Commit};
use crate::naming::NamingFault;
use crate::store::{Core, MOST_SESSIONS, SessionFault, slip};
use collections::let_go;
use rdf_model::Term;
use shape_eval::Steps;
use std::alloc::{AllocError, Global};
use std::sync::ledger::Ledger;
use std::thread::Threads;
use store_model::{Action, Event, Limits, NameKind, Reply, Transaction};

/// Why a history was not replayed.
#[derive(Clone, Copy, Debug, PartialEq, Eq)]
pub enum ReplayFault {
    /// This event, counted from 1, is the first that is no step of the store without a log that the
    /// events before it lead to.
    At(usize),
    Memory,
}

impl From<AllocError> for ReplayFault {
    ghost use Rattle.commit_core.specs.declared.replay.ReplayFault.TheVariants as faults;
    ghost use Rattle.std.specs.Prelude.{◌≡◌};

    ghost from_gives = { λ _ e. e ≡ faults.Memory };

    fn from(_error: AllocError) -> Self {
        ReplayFault::Memory
    }
}

// The number of the next opening, after so many.
fn next_number(opened: u32) -> u32
    ensures { result ≡ next_session opened }
{
    if opened < MOST_SESSIONS {
        return opened + 1;
    }
    0
}

// Whether the session was given out, after so many.
fn is_opened(opened: u32, session: u32) -> bool
    ensures { result ≡ was_opened opened session }
{
    0 < session && session <= opened
}

impl Core {
    // Whether the plain store has a step of this session and this action.
    fn may_ask(&self, session: u32, action: &Action) -> bool
        ensures { result ≡ Conditions.may_ask self.now.state session action.now }
    {
        match action {
            Action::Open => session == next_number(self.opened),
            Action::Begin | Action::Head | Action::Name(_, _) => is_opened(self.opened, session),
            Action::Commit(transaction) => {
                is_opened(self.opened, session)
                    && may_commit(self.commits.version(), self.graph.names(), transaction)
            }
            Action::Void => session <= self.opened,
        }
    }

    fn replay_opening(&mut self, session: u32) -> Result<(), AllocError>
        requires { session ≡ next_session self.old.state.opened }
        ensures { OnOk result (Performs self.old self.new session Action.Open) }
    {
        match self.session() {
            Ok(_) => Ok(()),
            Err(SessionFault::SessionsFull) => Ok(()),
            Err(SessionFault::Memory) => Err(AllocError),
        }
    }

    fn replay_begin(&mut self, session: u32) -> Result<(), AllocError>
        requires { IsOpened self.old.state session }
        ensures { OnOk result (Performs self.old self.new session Action.Begin) }
    {
        let slip = slip(self.alloc)?;
        self.history.push(
            slip,
            Event {
                session,
                action: Action::Begin,
                reply: Reply::Version(self.commits.version()),
            },
        );
        Ok(())
    }

    fn replay_head(&mut self, session: u32) -> Result<(), AllocError>
        requires { IsOpened self.old.state session }
        ensures { OnOk result (Performs self.old self.new session Action.Head) }
    {
        let slip = slip(self.alloc)?;
        self.history.push(
            slip,
            Event {
                session,
                action: Action::Head,
                reply: Reply::Version(self.commits.version()),
            },
        );
        Ok(())
    }

    fn replay_naming(
        &mut self,
        session: u32,
        kind: NameKind,
        terms: &[Term],
    ) -> Result<(), AllocError>
        requires { IsOpened self.old.state session }
        ensures { OnOk result (Performs self.old self.new session (Action.Name kind terms.now)) }
    {
        match self.name(session, kind, terms) {
            Ok(_) => Ok(()),
            Err(NamingFault::Unknown { node }) => {
                let_go(node);
                Ok(())
            }
            Err(NamingFault::Full { count: _ }) => Ok(()),
            Err(NamingFault::Memory) => Err(AllocError),
        }
    }

    fn replay_void(&mut self, session: u32) -> Result<(), AllocError>
        requires { session ≤ self.old.state.opened }
        ensures { OnOk result (Performs self.old self.new session Action.Void) }
    {
        let slip = slip(self.alloc)?;
        self.void(session, slip);
        Ok(())
    }

    fn replay_commit<L: Ledger, T: Threads + Sync>(
        &mut self,
        rt: &T,
        session: u32,
        transaction: Transaction,
        steps: &mut Steps<L>,
    ) -> Result<(), AllocError>
        requires running { self.old.state.stopped ≡ false }
        requires opened { IsOpened self.old.state session }
        requires committable { IsCommittable self.old.state transaction }
        ensures { OnOk result (Performs self.old self.new session (Action.Commit transaction)) }
    {
        let checked = CheckedTransaction::unchecked(self.alloc, transaction);
        match self.commit_anew(rt, session, checked, steps) {
            Commit::Done { number: _, again } => {
                let_go(again);
                Ok(())
            }
            Commit::Conflict { commit: _, triple } => {
                let_go(triple);
                Ok(())
            }
            Commit::FullTriples { count: _ } => Ok(()),
            Commit::Refused {
                rows,
                again,
                shapes,
            } => {
                let_go(rows);
                let_go(again);
                let_go(shapes);
                Ok(())
            }
            Commit::LogFault => unreachable!(),
            Commit::Stopped { version: _ } => unreachable!(),
            Commit::Memory(checked) => {
                let_go(checked);
                Err(AllocError)
            }
        }
    }

    // Takes the one step of this session and this action, which is no commit.
    fn replay_other(&mut self, session: u32, action: &Action) -> Result<(), AllocError>
        requires asked { IsTrue (Conditions.may_ask self.old.state session action.now) }
        requires other { IsNoCommit action.now }
        ensures { OnOk result (Performs self.old self.new session action.now) }
    {
        match action {
            Action::Open => self.replay_opening(session),
            Action::Begin => self.replay_begin(session),
            Action::Name(kind, terms) => self.replay_naming(session, *kind, terms.as_slice()),
            Action::Head => self.replay_head(session),
            Action::Commit(_) => unreachable!(),
            Action::Void => self.replay_void(session),
        }
    }

    // Takes the one step of this session and this action.
    fn perform<L: Ledger, T: Threads + Sync>(
        &mut self,
        rt: &T,
        session: u32,
        action: Action,
        steps: &mut Steps<L>,
    ) -> Result<(), AllocError>
        requires running { self.old.state.stopped ≡ false }
        requires asked { IsTrue (Conditions.may_ask self.old.state session action) }
        ensures { OnOk result (Performs self.old self.new session action) }
    {
        match action.into_transaction() {
            Ok(transaction) => self.replay_commit(rt, session, transaction, steps),
            Err(other) => self.replay_other(session, &other),
        }
    }

    // Takes the step of an event, unless it is none of a store without a log.
    fn replay_event<L: Ledger, T: Threads + Sync>(
        &mut self,
        rt: &T,
        event: Event,
        steps: &mut Steps<L>,
    ) -> Result<bool, AllocError>
        requires { self.old.state.stopped ≡ false }
        ensures { IfOk result (λ taken. MatchBool taken (RunsOn self.old self.new event) (IsWrongNext self.old event)) }
    {
        self.recall_consistent();
        if !self.may_ask(event.session, &event.action) {
            return Ok(false);
        }
        let (session, action, reply) = event.into_parts();
        self.perform(rt, session, action, steps)?;
        Ok(self.history.newest_has(&reply))
    }

    /// The store without a log that a history leads to. A commit is evaluated anew, whatever its verdict says;
    /// how many evaluations `steps` allows for it is not promised.
    pub fn replay<L: Ledger, T: Threads + Sync>(
        rt: &T,
        alloc: Global,
        limits: Limits,
        events: Vec<Event>,
        steps: &mut Steps<L>,
    ) -> Result<Core, ReplayFault>
        requires { limits.terms + 2 < 2 ^ 32 }
        ensures { MatchResult result (IsReplayed limits events.items) (IsReplayFault limits events.items) }
    {
        let mut core = Core::open(alloc, limits)?;
        let mut rest = events;
        rest.reverse();
        let mut place = 0;
        while let Some(event) = rest.pop() {
            place += 1;
            if !core.replay_event(rt, event, steps)? {
                return Err(ReplayFault::At(place));
            }
        }
        core.recall_consistent();
        Ok(core)
    }
}
