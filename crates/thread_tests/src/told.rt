// A gate is told of an event before its turn and after it, never within: there it may wait for another session's event.
use crate::held::{ADDS_AT_A, ADDS_AT_B, COMMITS, LIMITS, commands_of};
use crate::holding_gate::{TURNS, TURNS_BETWEEN};
use outside::{EventKind, Gate, Place};
use session_player::text_of;
use session_threads::{EndedRun, run_new};
use std::sync::atomic::{AtomicBool, AtomicU64, Ordering};
use std::test::Fail;
use std::thread;

// Two sessions with events of these kinds behind their openings, one after the other at each place: session 2 waits before its
// event until session 1's was answered, and session 1 waits after its event until session 2's was.
#[derive(Drop)]
struct PairedGate<'a> {
    kinds: &'a [EventKind],
    // How often each session called, by its number: twice for each event.
    calls: [AtomicU64; 3],
    // The number of the last event of each session that was answered.
    answered: [AtomicU64; 3],
    // A session called for another place than its next one, or a wait spent its turns.
    failed: AtomicBool,
}

impl<'a> PairedGate<'a> {
    fn new(kinds: &'a [EventKind]) -> PairedGate<'a> {
        PairedGate {
            kinds,
            calls: [AtomicU64::new(0), AtomicU64::new(0), AtomicU64::new(0)],
            answered: [AtomicU64::new(0), AtomicU64::new(0), AtomicU64::new(0)],
            failed: AtomicBool::new(false),
        }
    }

    // Whether the place is the one of a session's call behind so many others. Whether a commit is ready isn't asked.
    fn is_next(&self, calls: u64, place: Place) -> bool {
        let (is_before, kind, number) = match place {
            Place::Before { kind, number } => (true, kind, number),
            Place::After {
                kind,
                number,
                ready: _,
            } => (false, kind, number),
        };
        let Some(next) = self.kinds.get((calls / 2) as usize) else {
            return false;
        };
        is_before == (calls % 2 == 0) && kind == *next && number == calls / 2 + 2
    }

    // Counts a session's call.
    fn count(&self, session: u32, place: Place) {
        let is_told = match self.calls.get(session as usize) {
            Some(calls) => self.is_next(calls.fetch_add(1, Ordering::SeqCst), place),
            None => false,
        };
        if !is_told {
            self.failed.store(true, Ordering::SeqCst);
        }
    }

    // Waits until the session's event of this number was answered.
    fn wait_for(&self, session: usize, number: u64) {
        let Some(answered) = self.answered.get(session) else {
            return;
        };
        for turn in 0..TURNS {
            if answered.load(Ordering::SeqCst) >= number {
                return;
            }
            if turn % TURNS_BETWEEN == 0 {
                thread::yield_now();
            }
        }
        self.failed.store(true, Ordering::SeqCst);
    }

    fn answer(&self, session: u32, number: u64) {
        if let Some(answered) = self.answered.get(session as usize) {
            answered.store(number, Ordering::SeqCst);
        }
    }

    // Whether each session called at all its places, once each, and no wait spent its turns.
    fn is_through(&self) -> bool {
        let calls = (self.kinds.len() as u64).saturating_mul(2);
        let failed = self.failed.load(Ordering::SeqCst);
        !failed && self.calls_of(1) == calls && self.calls_of(2) == calls
    }

    fn calls_of(&self, session: usize) -> u64 {
        match self.calls.get(session) {
            Some(calls) => calls.load(Ordering::SeqCst),
            None => 0,
        }
    }
}

impl<'a> Gate for PairedGate<'a> {
    fn at(&self, session: u32, place: Place) {
        self.count(session, place);
        match place {
            Place::Before { kind: _, number } => {
                if session == 2 {
                    self.wait_for(1, number);
                }
            }
            Place::After {
                kind: _,
                number,
                ready: _,
            } => {
                self.answer(session, number);
                if session == 1 {
                    self.wait_for(2, number);
                }
            }
        }
    }
}

const PRINTED: &str = "\
session 1
begin 0
add 1
commit 1
session 2
begin 0
add 1
commit 2
history 1 2 1 2 1 2 1 2 1 2
";

#[test]
fn events_are_told_outside_turns(rt: HostRuntime) -> Result<(), Fail> {
    let alloc = rt.alloc();
    let files = commands_of(alloc, &[ADDS_AT_A, ADDS_AT_B])?;
    if files.len() > 64 {
        return Err(Fail::new("there are few files"));
    }
    let gate = PairedGate::new(COMMITS);
    let EndedRun {
        run,
        core: _,
        log: _,
    } = run_new(&rt, alloc, LIMITS, files, &gate)?;
    assert!(rt; gate.is_through());
    assert_eq!(rt; text_of(alloc, &run)?.as_str(), PRINTED);
    Ok(())
}
