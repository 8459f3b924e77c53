// A replica that four threads feed, each in an order of its own, while two others read; its one history is fed to another follower.
ghost use Rattle.std.specs.Prelude.{◌≡◌, ◌+◌, IfOk, All, length, vec_len};
ghost use Rattle.follow_tests.specs.Workers.{HasPass, IsFirst};

use collections::Sequence;
use follower::{Fed, Follower};
use rdf_model::{Term, Text, Triple};
use record_text::Record;
use replica::{Entry, Replica, Shared};
use std::alloc::{AllocError, Global};
use std::process::Abort;
use std::sync::Wait;
use std::test::*;
use std::thread;
use std::thread::Threads;
use turn_lock::Pass;

// How many records the leader has, one less than a prime: the multiples of each step, modulo the prime, are all their numbers.
const RECORDS: u64 = 40;

// The steps of the four workers that feed, and two that read.
const STEPS: [u64; 6] = [7, 11, 17, 23, 0, 0];

// A caller in a thread of its own. One whose step is 0 reads.
#[derive(Drop)]
struct Worker {
    pass: Option<Pass<Shared>>,
    step: u64,
    done: bool,
}

// The leader's record of a number, which adds a triple of its own.
fn record_of(alloc: Global, number: u64) -> Result<Record, AllocError> {
    let subject = format!(in alloc; "e:s{number}")?;
    let triple = Triple {
        subject: Term::Iri(Text::from_string(subject)?),
        predicate: Term::Iri(Text::new(alloc, "e:p")?),
        object: Term::Iri(Text::new(alloc, "e:o")?),
    };
    let mut added = Sequence::new(alloc);
    added.push(triple)?;
    Ok(Record {
        number,
        removed: Sequence::new(alloc),
        added,
        shapes: None,
    })
}

impl Worker {
    // Feeds a record. Whether there was memory for it.
    fn feed<R: Wait>(&mut self, rt: &R, replica: &Replica, next: Record) -> bool
        requires { HasPass replica.now.id self.old.pass }
        ensures { HasPass replica.now.id self.new.pass }
    {
        let pass = self.pass.take().unwrap();
        let (pass, fed) = replica.feed(rt, pass, next);
        self.pass = Some(pass);
        fed.is_ok()
    }

    // Reads. Whether there was memory for it, and the version has as many triples as records.
    fn read<R: Wait>(&mut self, rt: &R, replica: &Replica) -> bool
        requires { HasPass replica.now.id self.old.pass }
        ensures { HasPass replica.now.id self.new.pass }
    {
        let pass = self.pass.take().unwrap();
        let (pass, served) = replica.read(rt, pass);
        self.pass = Some(pass);
        match served {
            Ok(served) => served.graph.len() as u64 == served.version,
            Err(_) => false,
        }
    }

    // Takes its next turn.
    fn turn<R: Wait>(&mut self, rt: &R, alloc: Global, replica: &Replica, turn: u64) -> bool
        requires { HasPass replica.now.id self.old.pass }
        ensures { HasPass replica.now.id self.new.pass }
    {
        if self.step == 0 {
            return self.read(rt, replica);
        }
        match record_of(alloc, turn.wrapping_mul(self.step) % (RECORDS + 1)) {
            Ok(next) => self.feed(rt, replica, next),
            Err(_) => false,
        }
    }

    // Takes as many turns as there are records, and notes whether all were as they should be.
    fn work<R: Wait>(&mut self, rt: &R, alloc: Global, replica: &Replica)
        requires { HasPass replica.now.id self.old.pass }
        ensures { HasPass replica.now.id self.new.pass }
    {
        let mut done = true;
        for turn in 1..=RECORDS {
            if !self.turn(rt, alloc, replica, turn) {
                done = false;
            }
        }
        self.done = done;
    }
}

// The first caller splits off a worker for each step.
fn hire_all(
    alloc: Global,
    replica: &Replica,
    first: Pass<Shared>,
) -> Result<(Pass<Shared>, Vec<Worker>), Fail>
    requires first { IsFirst replica.now.id first }
    ensures first { IfOk result (λ r. IsFirst replica.now.id r.0) }
    ensures room { IfOk result (λ r. r.0.spare + vec_len r.1 ≡ first.spare) }
    ensures workers { IfOk result (λ r. All (λ w. HasPass replica.now.id w.pass) r.1.items) }
{
    let mut first = first;
    let mut workers = Vec::new(alloc);
    for step in &STEPS {
        match replica.split(first) {
            Ok((kept, pass)) => {
                first = kept;
                workers.push(Worker {
                    pass: Some(pass),
                    step: *step,
                    done: false,
                })?;
            }
            Err(_) => return Err(Fail::new("there is a seat for each worker")),
        }
    }
    Ok((first, workers))
}

// Lets all workers work, each in a thread of its own.
fn work_all<R: Threads + Wait + Sync>(
    rt: &R,
    alloc: Global,
    replica: &Replica,
    workers: &mut [Worker],
)
    requires { All (λ w. HasPass replica.now.id w.pass) workers.old }
    ensures workers { All (λ w. HasPass replica.now.id w.pass) workers.new }
    ensures count { length workers.new ≡ length workers.old }
{
    thread::for_each_mut(
        rt,
        workers,
        STEPS.len(),
        &|_, worker: &mut Worker|
            requires { HasPass replica.now.id worker.old.pass }
            ensures { HasPass replica.entry.now.id worker.new.pass }
        {
            worker.work(rt, alloc, replica);
        },
    );
}

// Meets all workers.
fn gather(replica: &Replica, first: Pass<Shared>, workers: Vec<Worker>) -> Pass<Shared>
    requires first { IsFirst replica.now.id first }
    requires workers { All (λ w. HasPass replica.now.id w.pass) workers.items }
    ensures first { IsFirst replica.now.id result }
    ensures room { result.spare ≡ first.spare + vec_len workers }
{
    let mut first = first;
    let mut workers = workers;
    while let Some(worker) = workers.pop() {
        first = replica.meet(first, worker.pass.unwrap());
    }
    first
}

// Whether two answers are one. No record of the leader misfits.
fn is_same(fed: &Fed, other: &Fed) -> bool {
    match (fed, other) {
        (Fed::Known { version }, Fed::Known { version: wanted }) => version == wanted,
        (Fed::Waiting { version }, Fed::Waiting { version: wanted }) => version == wanted,
        (
            Fed::Applied {
                version,
                dropped: None,
            },
            Fed::Applied {
                version: wanted,
                dropped: None,
            },
        ) => version == wanted,
        _ => false,
    }
}

// Feeds another follower what the history has: its answers are the same.
fn replay(rt: &impl Abort, alloc: Global, entries: &[Entry]) -> Result<(), Fail> {
    let mut follower = Follower::new(alloc)?;
    for entry in entries {
        match entry {
            Entry::Feed(next, fed) => {
                let again = record_of(alloc, next.number)?;
                assert_eq!(rt; next.added.as_slice(), again.added.as_slice());
                let answer = follower.feed(again)?;
                assert!(rt; is_same(&answer, fed));
            }
            Entry::Read(version) => assert_eq!(rt; *version, follower.version()),
            Entry::Void => return Err(Fail::new("there is memory for each turn")),
        }
    }
    assert_eq!(rt; follower.version(), RECORDS);
    Ok(())
}

fn share<R: Threads + Wait + Abort + Sync>(rt: &R, alloc: Global) -> Result<(), Fail> {
    let (replica, first) = Replica::new(alloc, 7)?;
    let (first, mut workers) = hire_all(alloc, &replica, first)?;
    work_all(rt, alloc, &replica, &mut workers);
    assert!(rt; workers.iter().all(|worker| worker.done));
    let first = gather(&replica, first, workers);
    let (follower, history) = replica.close(first);
    assert_eq!(rt; follower.version(), RECORDS);
    let entries = history.into_entries(alloc)?;
    assert_eq!(rt; entries.len() as u64, 6 * RECORDS);
    replay(rt, alloc, entries.as_slice())
}

#[test]
fn four_feed_and_two_read(rt: HostRuntime) -> Result<(), Fail> {
    share(&rt, rt.alloc())
}
