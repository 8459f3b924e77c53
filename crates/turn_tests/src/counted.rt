//! Workers that count beside each other.
ghost use Rattle.std.specs.Prelude.{◌^◌, ◌<◌};

use std::alloc::Global;
use std::process::Abort;
use std::sync::Wait;
use std::test::*;
use std::thread::Threads;
use turn_counter::entry::Entry;
use turn_counter::team::count;

const TURNS: u64 = 1000;

/// Read from its end, the history has each worker's additions from the largest down.
fn expect_largest(rt: &impl Abort, left: &mut [u64], entry: Entry) {
    let worker = entry.number as usize;
    assert!(rt; 1 <= worker && worker <= left.len());
    let place = &mut left[worker - 1];
    assert!(rt; 0 < *place);
    *place -= 1;
    assert_eq!(rt; entry.amount, *place);
}

/// Each worker adds 0, 1, 2 up to 1000: the history has just these, and each worker's in this order.
fn count_with<R: Threads + Wait + Abort + Sync>(
    rt: &R,
    alloc: Global,
    workers: u32,
) -> Result<(), Fail>
    requires { workers < 2 ^ 16 }
{
    let counter = count(rt, alloc, workers, TURNS)?;
    assert_eq!(rt; counter.total(), u64::from(workers) * 500_500);
    let mut left = vec![in alloc; TURNS + 1; workers as usize]?;
    let mut rest = counter.into_history().pop();
    for _ in 0..u64::MAX {
        let Some((chain, last)) = rest else {
            break;
        };
        expect_largest(rt, &mut left, last);
        rest = chain.pop();
    }
    assert!(rt; left.iter().all(|n| *n == 0));
    Ok(())
}

#[test]
fn two_and_eight_threads(rt: HostRuntime) -> Result<(), Fail> {
    for workers in [2, 8] {
        count_with(&rt, rt.alloc(), workers)?;
    }
    Ok(())
}
