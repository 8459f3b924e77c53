//! Callers with numbers of their own.
ghost use Rattle.std.specs.Prelude.{◌≡◌, ◌+◌, ◌^◌, ◌<◌, ◌≤◌, OnErr, OnOk};
ghost use Rattle.turn_counter.specs.Workers.{IsWorker};

use crate::chain::Slip;
use crate::counter::{Counter, add};
use crate::entry::Entry;
use std::alloc::{AllocError, Global};
use std::sync::Wait;
use turn_lock::turns::{Pass, Turns};

/// A caller with a number of its own, under which 0 was added. Its turns add 1, 2 and on.
#[derive(Drop)]
pub struct Worker {
    pub pass: Option<Pass<Counter>>,
    pub number: u32,
    /// How many turns it took.
    pub done: u64,
    /// The reply to the last one.
    pub sum: u64,
}

impl Worker {
    /// Takes one turn.
    fn turn<R: Wait>(&mut self, rt: &R, turns: &Turns<Counter>, slip: Slip)
        requires room { self.old.done + 1 < 2 ^ 64 }
        requires worker { IsWorker turns.now.id self.old }
        ensures worker { IsWorker turns.now.id self.new }
        ensures done { self.new.done ≡ self.old.done + 1 }
        ensures number { self.new.number ≡ self.old.number }
    {
        let pass = self.pass.take().unwrap();
        let entry = Entry {
            number: self.number,
            amount: self.done + 1,
        };
        let (pass, sum) = add(rt, turns, pass, slip, entry);
        self.pass = Some(pass);
        self.done += 1;
        self.sum = sum;
    }

    /// Takes turns until it took so many. At `Err` memory ran out, and it took fewer.
    pub fn work<R: Wait>(
        &mut self,
        rt: &R,
        alloc: Global,
        turns: &Turns<Counter>,
        times: u64,
    ) -> Result<(), AllocError>
        requires { IsWorker turns.now.id self.old }
        ensures done { OnOk result (times ≤ self.new.done) }
        ensures fewer { OnErr result (self.new.done < times) }
        ensures grows { self.old.done ≤ self.new.done }
        // A turn is taken only while there were fewer.
        ensures most { self.old.done < self.new.done → self.new.done ≤ times }
        ensures worker { IsWorker turns.now.id self.new }
        ensures number { self.new.number ≡ self.old.number }
    {
        while self.done < times {
            let slip = Slip::new(alloc)?;
            self.turn(rt, turns, slip);
        }
        Ok(())
    }
}
