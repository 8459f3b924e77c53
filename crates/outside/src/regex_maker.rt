//! The maker that the crate `regex` is.
ghost use Rattle.std.specs.Prelude.{◌≡◌, []};
ghost use Rattle.outside.specs.Patterns.{has_flag};

use crate::request::Request;
use crate::{MakeFault, Maker};
use regex::{Regex, RegexBuilder};
use std::alloc::Global;
use std::marker::Model;

/// The maker that the crate `regex` is.
pub struct RegexMaker {
    asked: Vec<Request>,
    refused: Vec<Request>,
}

impl Model for RegexMaker {
    ghost use Rattle.outside.specs.Memory.{MakerState};

    ghost Value = { MakerState };

    ghost view = { λ m. record {
      asked = m.asked.items;
      refused = m.refused.items;
    } };
}

// Written by hand, so that what owns one calls it in place of having it written out.
impl Drop for RegexMaker {
    fn drop(self) {
        let RegexMaker {
            asked: _,
            refused: _,
        } = self;
    }
}

impl RegexMaker {
    /// A maker that was asked nothing. It takes no memory.
    pub fn new(alloc: Global) -> RegexMaker
        ensures { result ≡ record { asked = []; refused = [] } }
    {
        RegexMaker {
            asked: Vec::new(alloc),
            refused: Vec::new(alloc),
        }
    }
}

// Whether the letter is one of the flags.
fn is_set(flags: &str, letter: u8) -> bool
    ensures { result ≡ has_flag letter flags.now }
{
    flags.as_bytes().contains(&letter)
}

impl Maker for RegexMaker {
    ghost asked = { λ m. m.asked };

    ghost refused = { λ m. m.refused };

    fn build(&mut self, alloc: Global, pattern: &str, flags: &str) -> Result<Regex, MakeFault> {
        let asked = Request::new(alloc, pattern, flags)?;
        let request = Request::new(alloc, pattern, flags)?;
        self.asked.reserve(1)?;
        self.refused.reserve(1)?;
        self.asked.push_reserved(asked);
        let builder = RegexBuilder::new(pattern)
            .case_insensitive(is_set(flags, b'i'))
            .dot_matches_new_line(is_set(flags, b's'))
            .multi_line(is_set(flags, b'm'))
            .ignore_whitespace(is_set(flags, b'x'));
        match builder.build(alloc) {
            Ok(regex) => Ok(regex),
            Err(regex::Error::OutOfMemory) => Err(MakeFault::Memory),
            Err(_) => {
                self.refused.push_reserved(request);
                Err(MakeFault::Refused)
            }
        }
    }
}
