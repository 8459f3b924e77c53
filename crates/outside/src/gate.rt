/// The kinds of a session's events.
#[derive(Clone, Copy, Debug, PartialEq, Eq)]
pub enum EventKind {
    Open,
    Begin,
    Name,
    Head,
    Commit,
    Void,
}

/// Where a session stands. An event's `number` is its place in the session: the opening's is 1.
#[derive(Clone, Copy, Debug, PartialEq, Eq)]
pub enum Place {
    /// Before an event.
    Before {
        kind: EventKind,
        number: u64,
    },
    /// After an event. It is `ready` exactly at a commit that answered Done or Refused without
    /// evaluating again.
    After {
        kind: EventKind,
        number: u64,
        ready: bool,
    },
}

/// Is told where each session stands, and may hold it there for a while. Sessions call it from threads of their own.
pub trait Gate: Sync {
    /// Returns when the session may go on. Nothing more is promised.
    fn at(&self, session: u32, place: Place);
}

/// A gate that does nothing.
#[derive(Clone, Copy, Debug)]
pub struct OpenGate;

impl Gate for OpenGate {
    fn at(&self, _session: u32, _place: Place) {}
}
