// A gate that holds sessions at their events.
use outside::{EventKind, Gate, Place};
use std::alloc::{AllocError, Global};
use std::sync::atomic::{AtomicBool, AtomicU64, Ordering};
use std::thread;

// How often a hold looks for what it waits for, at most; between looks it gives way now and then.
pub const TURNS: u64 = 200_000_000;

pub const TURNS_BETWEEN: u64 = 100_000;

// An event: its session, and its place in the session, where the opening's is 1.
#[derive(Clone, Copy, Debug, PartialEq, Eq)]
pub struct Event(pub u32, pub u64);

// The first event waits until the other was answered.
#[derive(Clone, Copy, Debug)]
pub struct Hold {
    pub before: Event,
    pub until: Event,
}

// The holds that force this order of sessions: each event waits for the one before it.
pub fn holds_of(alloc: Global, order: &[u32]) -> Result<Vec<Hold>, AllocError> {
    let mut holds = Vec::new(alloc);
    let mut last: Option<Event> = None;
    for place in 0..order.len() {
        let session = order[place];
        let number = order[..place + 1].iter().filter(|s| **s == session).count() as u64;
        let before = Event(session, number);
        if let Some(until) = last {
            holds.push(Hold { before, until })?;
        }
        last = Some(before);
    }
    Ok(holds)
}

// Holds up to three sessions, whose events behind the openings are to be of these kinds.
#[derive(Drop)]
pub struct HoldingGate<'a> {
    kinds: &'a [&'a [EventKind]],
    holds: &'a [Hold],
    // The commits that are to be told as not ready; all others are to be ready.
    unready: &'a [Event],
    // How often each session called, by its number: twice for each event.
    calls: [AtomicU64; 4],
    // A session called for another place than its next one.
    astray: AtomicBool,
    // A hold spent its turns.
    spent: AtomicBool,
}

impl<'a> HoldingGate<'a> {
    pub fn new(
        kinds: &'a [&'a [EventKind]],
        holds: &'a [Hold],
        unready: &'a [Event],
    ) -> HoldingGate<'a> {
        HoldingGate {
            kinds,
            holds,
            unready,
            calls: [
                AtomicU64::new(0),
                AtomicU64::new(0),
                AtomicU64::new(0),
                AtomicU64::new(0),
            ],
            astray: AtomicBool::new(false),
            spent: AtomicBool::new(false),
        }
    }

    fn calls_of(&self, session: u32) -> u64 {
        match self.calls.get(session as usize) {
            Some(calls) => calls.load(Ordering::SeqCst),
            None => 0,
        }
    }

    // Whether the event is to be told as a commit that is ready.
    fn is_ready(&self, session: u32, number: u64, kind: EventKind) -> bool {
        kind == EventKind::Commit && !self.unready.contains(&Event(session, number))
    }

    // The place of a session's next call.
    fn next_place(&self, session: u32) -> Option<Place> {
        let calls = self.calls_of(session);
        let kinds = self.kinds.get((session as usize).checked_sub(1)?)?;
        let kind = *kinds.get((calls / 2) as usize)?;
        let number = calls / 2 + 2;
        if calls % 2 == 0 {
            Some(Place::Before { kind, number })
        } else {
            Some(Place::After {
                kind,
                number,
                ready: self.is_ready(session, number, kind),
            })
        }
    }

    fn hold_until(&self, event: Event) {
        let Event(session, number) = event;
        let Some(calls) = self.calls.get(session as usize) else {
            return;
        };
        for turn in 0..TURNS {
            if calls.load(Ordering::SeqCst) / 2 + 1 >= number {
                return;
            }
            if turn % TURNS_BETWEEN == 0 {
                thread::yield_now();
            }
        }
        self.spent.store(true, Ordering::SeqCst);
    }

    // Whether each session called at all its places, and no hold spent its turns.
    pub fn is_through(&self) -> bool {
        let mut all = !self.astray.load(Ordering::SeqCst) && !self.spent.load(Ordering::SeqCst);
        for session in 1..4 {
            all = all && self.next_place(session).is_none();
        }
        all
    }
}

impl<'a> Gate for HoldingGate<'a> {
    fn at(&self, session: u32, place: Place) {
        if self.next_place(session) != Some(place) {
            self.astray.store(true, Ordering::SeqCst);
        }
        if let Place::Before { kind: _, number } = place {
            for hold in self.holds {
                if hold.before == Event(session, number) {
                    self.hold_until(hold.until);
                }
            }
        }
        if let Some(calls) = self.calls.get(session as usize) {
            calls.fetch_add(1, Ordering::SeqCst);
        }
    }
}
