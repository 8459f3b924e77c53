//! Threads that count together.
ghost use Rattle.std.specs.Prelude.{◌≡◌, ℕ, ◌+◌, ◌^◌, ◌<◌, IfOk, All, length, vec_len};
ghost use Rattle.turn_counter.specs.Workers.{IsWorker, IsFresh, IsFirst, AreNumbered, HasAdded, HasAllWork};

use crate::chain::Slip;
use crate::counter::{Counter, add};
use crate::entry::Entry;
use crate::worker::Worker;
use std::alloc::{AllocError, Global};
use std::sync::Wait;
use std::thread;
use std::thread::Threads;
use turn_lock::turns::{Pass, Turns};

const THREADS: usize = 64;

/// The first caller makes the number by an addition of 0, and splits off a worker that takes it.
fn hire<R: Wait>(
    rt: &R,
    alloc: Global,
    turns: &Turns<Counter>,
    first: Pass<Counter>,
    number: u32,
) -> Result<(Pass<Counter>, Worker), AllocError>
    requires first { IsFirst turns.now.id first }
    requires room { 0 < first.spare }
    requires some { 0 < number }
    requires fresh { IsFresh first.known.front number }
    ensures first { IfOk result (λ r. IsFirst turns.now.id r.0) }
    ensures room { IfOk result (λ r. r.0.spare + 1 ≡ first.spare) }
    ensures fresh { IfOk result (λ r. IsFresh r.0.known.front (number + 1)) }
    ensures worker { IfOk result (λ r. IsWorker turns.now.id r.1) }
    ensures number { IfOk result (λ r. r.1.number ≡ number) }
{
    let slip = Slip::new(alloc)?;
    let entry = Entry { number, amount: 0 };
    let (first, sum) = add(rt, turns, first, slip, entry);
    let Ok((first, pass)) = turns.split(first, number) else {
        unreachable!()
    };
    Ok((
        first,
        Worker {
            pass: Some(pass),
            number,
            done: 0,
            sum,
        },
    ))
}

/// Hires so many workers, with the numbers from 1 on.
fn hire_all<R: Wait>(
    rt: &R,
    alloc: Global,
    turns: &Turns<Counter>,
    first: Pass<Counter>,
    count: u32,
) -> Result<(Pass<Counter>, Vec<Worker>), AllocError>
    requires first { IsFirst turns.now.id first }
    requires room { first.spare ≡ count }
    requires some { count + 1 < 2 ^ 32 }
    requires fresh { IsFresh first.known.front 1 }
    ensures first { IfOk result (λ r. IsFirst turns.now.id r.0) }
    ensures workers { IfOk result (λ r. All (IsWorker turns.now.id) r.1.items) }
    ensures numbers { IfOk result (λ r. AreNumbered r.1.items) }
    ensures count { IfOk result (λ r. vec_len r.1 ≡ count) }
    ensures room { IfOk result (λ r. r.0.spare + vec_len r.1 ≡ first.spare) }
{
    let mut first = first;
    let mut workers = Vec::new(alloc);
    for hired in 0..count {
        let (kept, worker) = hire(rt, alloc, turns, first, hired + 1)?;
        first = kept;
        workers.push(worker)?;
    }
    Ok((first, workers))
}

/// Lets all workers work, each in a thread of its own.
fn work_all<R: Threads + Wait + Sync>(
    rt: &R,
    alloc: Global,
    turns: &Turns<Counter>,
    workers: &mut [Worker],
    times: u64,
)
    requires workers { All (IsWorker turns.now.id) workers.old }
    requires numbers { AreNumbered workers.old }
    ensures workers { All (IsWorker turns.now.id) workers.new }
    ensures numbers { AreNumbered workers.new }
    ensures count { length workers.new ≡ length workers.old }
{
    thread::for_each_mut(
        rt,
        workers,
        THREADS,
        &|_, worker: &mut Worker|
            requires { IsWorker turns.now.id worker.old }
            ensures worker { IsWorker turns.entry.now.id worker.new }
            ensures number { worker.new.number ≡ worker.old.number }
        {
            let _ = worker.work(rt, alloc, turns, times);
        },
    );
}

/// Meets all workers. One that didn't take so many turns ran out of memory.
fn gather(
    turns: &Turns<Counter>,
    first: Pass<Counter>,
    workers: Vec<Worker>,
    times: u64,
) -> Result<Pass<Counter>, AllocError>
    requires first { IsFirst turns.now.id first }
    requires workers { All (IsWorker turns.now.id) workers.items }
    requires numbers { AreNumbered workers.items }
    ensures first { IfOk result (IsFirst turns.now.id) }
    ensures worked { IfOk result (λ r. (k : ℕ) → k < vec_len workers → HasAdded turns.now.id (k + 1) (times + 1) r) }
    ensures room { IfOk result (λ r. r.spare ≡ first.spare + vec_len workers) }
{
    let mut first = first;
    let mut workers = workers;
    while let Some(worker) = workers.pop() {
        if worker.done != times {
            return Err(AllocError);
        }
        first = turns.meet(first, worker.pass.unwrap());
    }
    Ok(first)
}

/// Counts with so many workers, each of which adds 0, 1, 2 and on up to `times`, and gives the counter.
pub fn count<R: Threads + Wait + Sync>(
    rt: &R,
    alloc: Global,
    workers: u32,
    times: u64,
) -> Result<Counter, AllocError>
    requires { workers + 1 < 2 ^ 32 }
    ensures { IfOk result (HasAllWork workers times) }
{
    let (turns, first) = Turns::new(alloc, Counter::new(), workers + 1)?;
    let (first, mut workers) = hire_all(rt, alloc, &turns, first, workers)?;
    work_all(rt, alloc, &turns, &mut workers, times);
    let first = gather(&turns, first, workers, times)?;
    Ok(turns.close(first))
}
