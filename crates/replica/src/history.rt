// The entries of a replica, in a chain that takes one more without memory.
ghost use Rattle.std.specs.Prelude.{◌≡◌, [], ◌∷◌, ◌++◌, ◌<◌, length, reverse, IfOk, IfSome, MatchOption};

use crate::entry::Entry;
use collections::{Sequence, let_go};
use std::alloc::{AllocError, Global};
use std::boxed::Box;
use std::marker::Model;
use std::mem;

/// A list of entries. It takes one more without memory, once there is room for it.
#[cycle(history)]
pub struct History {
    newest: Link,
}

#[cycle(history)]
enum Link {
    End,
    After(Entry, Box<History>),
}

impl Model for History {
    ghost use Rattle.std.specs.Prelude.{List, length};
    ghost use Rattle.replica.specs.declared.entry.Entry.{Entry};

    ghost Value = { List Entry };

    ghost use Rattle.replica.specs.Chains.{entries_of};

    ghost view = { λ h. entries_of h.newest };

    ghost size = { length };

    ghost use Rattle.std.proofs.Common.{arith, length-append};

    ghost size_decreases = { λ a h. Prim.grind (arith, length-append) };
}

/// Room for one entry, made before the turn that fills it.
#[derive(Drop)]
pub(crate) struct Slip {
    room: Box<History>,
}

impl Slip {
    pub(crate) fn new(alloc: Global) -> Result<Slip, AllocError> {
        Ok(Slip {
            room: Box::new(alloc, History { newest: Link::End })?,
        })
    }
}

impl History {
    pub(crate) fn new() -> History
        ensures { result ≡ [] }
    {
        History { newest: Link::End }
    }

    /// Adds an entry in the room that was made for it.
    pub(crate) fn push(&mut self, slip: Slip, entry: Entry)
        ensures { self.new ≡ self.old ++ entry ∷ [] }
    {
        let mut room = slip.room;
        *room = mem::replace(self, History { newest: Link::End });
        *self = History {
            newest: Link::After(entry, room),
        };
    }

    // The newest entry and those before it.
    fn split_newest(self) -> Option<(Entry, History)>
        ensures { MatchOption result (self ≡ []) (λ pair. self ≡ pair.1 ++ pair.0 ∷ []) }
    {
        let History { newest } = self;
        match newest {
            Link::End => None,
            Link::After(entry, older) => Some((entry, Box::into_inner(older))),
        }
    }

    // All but the newest entry.
    fn before(self) -> Option<History>
        ensures { IfSome result (λ older. length older < length self) }
    {
        let History { newest } = self;
        match newest {
            Link::End => None,
            Link::After(entry, older) => {
                let_go(entry);
                Some(Box::into_inner(older))
            }
        }
    }

    /// The entries, the oldest first.
    pub fn into_entries(self, alloc: Global) -> Result<Sequence<Entry>, AllocError>
        ensures { IfOk result (λ entries. entries ≡ self) }
    {
        let mut entries = entries_back(alloc, self)?;
        entries.reverse();
        Ok(Sequence::from_vec(entries))
    }
}

// A history can be long, so that it is let go entry by entry.
impl Drop for History {
    fn drop(self) {
        let mut rest = Some(self);
        while let Some(history) = rest {
            rest = history.before();
        }
    }
}

// The entries, the newest first.
fn entries_back(alloc: Global, history: History) -> Result<Vec<Entry>, AllocError>
    ensures { IfOk result (λ entries. entries.items ≡ reverse history) }
{
    let mut entries = Vec::new(alloc);
    let mut rest = history.split_newest();
    while let Some((entry, older)) = rest {
        entries.push(entry)?;
        rest = older.split_newest();
    }
    Ok(entries)
}
