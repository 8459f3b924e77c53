//! What a gate is told of a session.
ghost use Rattle.std.specs.Prelude.{◌≡◌};
ghost use Rattle.session_transaction.specs.Transactions.{plain_in};
ghost use Rattle.session_threads.specs.Places.{event_kind, is_ready};

use disk::Disk;
use guard_store::{CommitFault, Committed, Session};
use outside::{EventKind, Gate, Place};
use session_model::Command;
use store_model::Again;

/// Tells a gate of a session's events, before each and after it.
#[derive(Drop)]
pub struct Watch<'a, G> {
    gate: &'a G,
    session: u32,
    // The place of the last event in the session; the opening's is 1.
    number: u64,
    // The event that the gate was told of before it, and not yet after it.
    event: Option<EventKind>,
}

impl<'a, G: Gate> Watch<'a, G> {
    /// Of a session that was opened.
    pub fn new(gate: &'a G, session: u32) -> Watch<'a, G> {
        Watch {
            gate,
            session,
            number: 1,
            event: None,
        }
    }

    /// Tells the gate of the next event before it; None is no event.
    pub fn before(&mut self, event: Option<EventKind>) {
        self.event = event;
        if let Some(kind) = event {
            self.number = self.number.saturating_add(1);
            let place = Place::Before {
                kind,
                number: self.number,
            };
            self.gate.at(self.session, place);
        }
    }

    /// Tells the gate of that event after it. One whose call ran out of memory is told as Void, whether it stands in the
    /// history or not.
    pub fn after(&mut self, ran_out: bool, ready: bool) {
        if let Some(kind) = self.event.take() {
            let place = Place::After {
                kind: if ran_out { EventKind::Void } else { kind },
                number: self.number,
                ready,
            };
            self.gate.at(self.session, place);
        }
    }
}

/// The event of a command that is one; a commit takes the newest version first.
pub fn next_event<D: Disk>(session: &Session<D>, command: &Command) -> Option<EventKind>
    ensures { result ≡ event_kind (plain_in session.now.current) command.now }
{
    match command {
        Command::Begin => (!session.is_open()).then_some(EventKind::Begin),
        Command::Add(_) | Command::Remove(_) | Command::Attach(_) | Command::Shapes(_) => {
            session.is_open().then_some(EventKind::Name)
        }
        Command::Commit => session.has_work().then_some(EventKind::Head),
        Command::Find(_)
        | Command::Select(_)
        | Command::BadSelect { line: _ }
        | Command::Report
        | Command::Abort
        | Command::BadAdd { line: _, kind: _ }
        | Command::BadRemove { line: _, kind: _ }
        | Command::BadAttach { line: _, kind: _ }
        | Command::BadShapes { line: _, kind: _ }
        | Command::BrokenShapes { rule: _, node: _ }
        | Command::RefusedPattern { node: _ } => None,
    }
}

/// Whether a commit was accepted, or refused, with no evaluation in its turn.
pub fn is_ready(answer: &Result<Committed, CommitFault>) -> bool
    ensures { result ≡ is_ready answer.now }
{
    matches!(
        answer,
        Ok(
            Committed::Done {
                number: _,
                again: Again::No
            } | Committed::Refused {
                rows: _,
                again: Again::No,
                shapes: _
            }
        )
    )
}
