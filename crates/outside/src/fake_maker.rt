//! A maker that refuses the builds that a test names.
ghost use Rattle.std.specs.Prelude.{◌≡◌, []};
ghost use Rattle.outside.specs.Counts.{is_listed};

use crate::request::Request;
use crate::{MakeFault, Maker};
use regex::Regex;
use std::alloc::Global;
use std::marker::Model;

/// A maker over another one. It refuses the builds with the listed numbers, the first build's being 1,
/// and answers all others as the maker below; where no number is listed it refuses only what that
/// maker refuses.
pub struct FakeMaker<M> {
    maker: M,
    refuse: Vec<u64>,
    calls: u64,
    asked: Vec<Request>,
    refused: Vec<Request>,
}

impl<M> Model for FakeMaker<M> {
    ghost use Rattle.outside.specs.Memory.{FakeState};

    ghost Value = { FakeState M };

    ghost view = { λ m. record {
      maker = m.maker;
      refuse = m.refuse.items;
      calls = m.calls;
      asked = m.asked.items;
      refused = m.refused.items;
    } };
}

// Written by hand, so that what owns one calls it in place of having it written out.
impl<M: Drop> Drop for FakeMaker<M> {
    fn drop(self) {
        let FakeMaker {
            maker: _,
            refuse: _,
            calls: _,
            asked: _,
            refused: _,
        } = self;
    }
}

impl<M> FakeMaker<M> {
    ghost use Rattle.outside.specs.Memory.{FakeState};

    /// A maker that refuses the builds with the numbers `refuse`. It takes no memory.
    pub fn new(alloc: Global, maker: M, refuse: Vec<u64>) -> FakeMaker<M>
        ensures { result ≡ record { maker = maker; refuse = refuse.items; calls = 0; asked = []; refused = [] } }
    {
        FakeMaker {
            maker,
            refuse,
            calls: 0,
            asked: Vec::new(alloc),
            refused: Vec::new(alloc),
        }
    }
}

fn is_among(numbers: &[u64], number: u64) -> bool
    ensures { result ≡ is_listed numbers.now number }
{
    numbers.contains(&number)
}

impl<M: Maker> Maker for FakeMaker<M> {
    ghost use Rattle.outside.specs.Counts.{counted};
    ghost use Rattle.outside.specs.Memory.{BuildsOver};

    ghost asked = { λ m. m.asked };

    ghost refused = { λ m. m.refused };

    ghost build_gives = { λ old pattern flags result new.
        (new ≡ record old { maker = new.maker; calls = counted old.calls; asked = new.asked; refused = new.refused })
        × BuildsOver M.refused M.build_gives old pattern flags result new };

    fn build(&mut self, alloc: Global, pattern: &str, flags: &str) -> Result<Regex, MakeFault> {
        self.calls = self.calls.saturating_add(1);
        let refuses = is_among(&self.refuse, self.calls);
        let asked = Request::new(alloc, pattern, flags)?;
        let request = Request::new(alloc, pattern, flags)?;
        self.asked.reserve(1)?;
        self.refused.reserve(1)?;
        self.asked.push_reserved(asked);
        if refuses {
            self.refused.push_reserved(request);
            return Err(MakeFault::Refused);
        }
        match self.maker.build(alloc, pattern, flags) {
            Ok(regex) => Ok(regex),
            Err(MakeFault::Memory) => Err(MakeFault::Memory),
            Err(MakeFault::Refused) => {
                self.refused.push_reserved(request);
                Err(MakeFault::Refused)
            }
        }
    }
}
