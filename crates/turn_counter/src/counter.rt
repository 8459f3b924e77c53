//! The counter.
ghost use Rattle.std.specs.Prelude.{◌≡◌, ◌%◌, ◌^◌, [], ◌∷◌, ◌++◌, false};
ghost use Rattle.turn_lock.specs.History.{MayAdd};
ghost use Rattle.turn_counter.specs.Sums.{number_of, total_of, Adds};

use crate::chain::{Chain, Slip};
use crate::entry::Entry;
use std::marker::Model;
use std::sync::Wait;
use turn_lock::entries::Entries;
use turn_lock::turns::{Pass, Turns};

/// A total beside the history that it sums. Contracts see the history.
#[derive(Drop)]
pub struct Counter {
    total: u64,
    chain: Chain,
}

impl Model for Counter {
    ghost use Rattle.std.specs.Prelude.{◌≡◌, ◌%◌, ◌^◌, List};
    ghost use Rattle.turn_counter.specs.declared.entry.Entry.{Entry};
    ghost use Rattle.turn_counter.specs.Sums.{total_of};

    ghost Value = { List Entry };

    ghost view = { λ c. c.chain };

    ghost invariant = { λ c. c.total ≡ total_of c.chain % 2 ^ 64 };
}

impl Entries for Counter {
    ghost use Rattle.std.specs.Prelude.{false};
    ghost use Rattle.turn_counter.specs.Sums.{number_of};

    type Entry = Entry;

    type Plain = ();

    ghost entries = { λ history. history };

    ghost number = { number_of };

    ghost is_zero_shared = { false };

    ghost plain = { λ _. tt };

    ghost comes = { λ _ _. Unit {0} };

    ghost comes_from_itself = { λ _ _. tt };
}

impl Counter {
    /// A counter at 0.
    pub fn new() -> Counter
        ensures { result ≡ [] }
    {
        Counter {
            total: 0,
            chain: Chain::new(),
        }
    }

    /// The sum of all amounts, modulo 2^64.
    pub fn total(&self) -> u64
        ensures { result ≡ total_of self.now % 2 ^ 64 }
    {
        self.total
    }

    /// Adds an amount.
    pub fn push(self, slip: Slip, entry: Entry) -> Counter
        ensures { result ≡ self ++ entry ∷ [] }
    {
        let Counter { total, chain } = self;
        Counter {
            total: total.wrapping_add(entry.amount),
            chain: chain.push(slip, entry),
        }
    }

    /// The history alone.
    pub fn into_history(self) -> Chain
        ensures { result ≡ self }
    {
        self.chain
    }
}

/// Adds an amount in a turn of the caller's, and answers the sum so far, modulo 2^64.
pub fn add<R: Wait>(
    rt: &R,
    turns: &Turns<Counter>,
    caller: Pass<Counter>,
    slip: Slip,
    entry: Entry,
) -> (Pass<Counter>, u64)
    requires lock { caller.lock ≡ turns.now.id }
    requires entry { MayAdd number_of false caller.known entry }
    ensures { Adds caller entry result.0 result.1 }
{
    let (held, counter) = turns.enter(rt, caller);
    let counter = counter.push(slip, entry);
    let sum = counter.total();
    (turns.leave(held, counter), sum)
}
