//! A history that always has room for one entry more, since the room is made beforehand.
ghost use Rattle.std.specs.Prelude.{◌≡◌, [], ◌∷◌, ◌++◌, MatchOption};

use crate::entry::Entry;
use std::alloc::{AllocError, Global};
use std::marker::Model;

#[cycle(chain)]
pub struct Chain {
    top: Link,
}

#[cycle(chain)]
enum Link {
    End,
    More(Entry, Box<Chain>),
}

impl Model for Chain {
    ghost use Rattle.std.specs.Prelude.{List, ℕ, length};
    ghost use Rattle.turn_counter.specs.declared.entry.Entry.{Entry};

    ghost Value = { List Entry };

    ghost use Rattle.turn_counter.specs.Chains.{entries_of};

    ghost view = { λ chain. entries_of chain.top };

    ghost size = { length };

    ghost use Rattle.std.proofs.Common.{arith, length-append};

    ghost size_decreases = { λ chain inside. Prim.grind (arith, length-append) };
}

/// Room for one entry.
#[derive(Drop)]
pub struct Slip {
    room: Box<Chain>,
}

impl Slip {
    /// Makes room.
    pub fn new(alloc: Global) -> Result<Slip, AllocError> {
        Ok(Slip {
            room: Box::new(alloc, Chain { top: Link::End })?,
        })
    }
}

impl Chain {
    pub fn new() -> Chain
        ensures { result ≡ [] }
    {
        Chain { top: Link::End }
    }

    /// The chain with one entry more.
    pub fn push(self, slip: Slip, entry: Entry) -> Chain
        ensures { result ≡ self ++ entry ∷ [] }
    {
        let mut room = slip.room;
        *room = self;
        Chain {
            top: Link::More(entry, room),
        }
    }

    /// Takes the last entry off, if there is one.
    pub fn pop(self) -> Option<(Chain, Entry)>
        ensures { MatchOption result (self ≡ []) (λ p. self ≡ p.0 ++ p.1 ∷ []) }
    {
        let Chain { top } = self;
        match top {
            Link::End => None,
            Link::More(entry, below) => Some((Box::into_inner(below), entry)),
        }
    }
}

impl Drop for Chain {
    // Each link is dropped by itself, so that a long chain needs no deep stack.
    fn drop(self) {
        let mut rest = self.pop();
        while let Some((chain, _)) = rest {
            rest = chain.pop();
        }
    }
}
