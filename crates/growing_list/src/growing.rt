//! A list that only grows.
ghost use Rattle.std.specs.Prelude.{◌≡◌, ◌≤◌, [], ◌∷◌, ◌++◌, length, slice_get, IfOk, OnErr, OnOk, MatchOption, Some};
ghost use Rattle.growing_list.specs.Chunks.{items_of};

use crate::blocks::Blocks;
use collections::ExactClone;
use std::alloc::{AllocError, Global};
use std::marker::Model;

/// A list that only grows, in blocks of chunks that other lists may share.
///
/// Contracts see it as the list of its items.
pub struct GrowingList<T> {
    alloc: Global,
    blocks: Option<Blocks<T>>,
    len: usize,
}

// Written by hand, so that what owns one calls it in place of having it written out.
impl<T: Drop> Drop for GrowingList<T> {
    fn drop(self) {
        let GrowingList {
            alloc: _,
            blocks: _,
            len: _,
        } = self;
    }
}

impl<T> Model for GrowingList<T> {
    ghost use Rattle.std.specs.Prelude.{◌≡◌, List, length};
    ghost use Rattle.growing_list.specs.Chunks.{items_of};

    ghost Value = { List T };

    ghost view = { λ l. items_of l.blocks };

    ghost invariant = { λ l. l.len ≡ length (items_of l.blocks) };
}

// Adds an item at the end of the blocks, or makes them of it.
fn push_into<T: ExactClone + Drop>(
    alloc: Global,
    blocks: &mut Option<Blocks<T>>,
    item: T,
) -> Result<(), AllocError>
    ensures ok { OnOk result (items_of blocks.new ≡ items_of blocks.old ++ item ∷ []) }
    ensures err { OnErr result (items_of blocks.new ≡ items_of blocks.old) }
{
    match blocks {
        Some(blocks) => blocks.push(alloc, item),
        None => {
            *blocks = Some(Blocks::of_one(alloc, item)?);
            Ok(())
        }
    }
}

impl<T> GrowingList<T> {
    /// A list with no item. It takes no memory.
    pub fn new(alloc: Global) -> GrowingList<T>
        ensures { result ≡ [] }
    {
        GrowingList {
            alloc,
            blocks: None,
            len: 0,
        }
    }

    /// How many items there are.
    pub fn len(&self) -> usize
        ensures { result ≡ length self.now }
    {
        self.len
    }

    /// The item at a place, counted from zero, and `None` exactly where the list ends at or before it.
    pub fn get(&self, at: usize) -> Option<&T>
        ensures { MatchOption result (length self.now ≤ at) (λ item. slice_get self.now at ≡ Some item.now) }
    {
        match &self.blocks {
            Some(blocks) => blocks.get(at),
            None => None,
        }
    }
}

impl<T: Drop> GrowingList<T> {
    /// Another list with the same items. It copies no item, nor where any stands, and neither list sees a later push
    /// to the other.
    pub fn share(&self) -> Result<GrowingList<T>, AllocError>
        ensures { IfOk result (λ share. share ≡ self.now) }
    {
        let blocks = match &self.blocks {
            Some(blocks) => Some(blocks.clone()?),
            None => None,
        };
        Ok(GrowingList {
            alloc: self.alloc,
            blocks,
            len: self.len,
        })
    }
}

impl<T: ExactClone + Drop> GrowingList<T> {
    /// Adds an item at the end. It fails where no memory is left, and where no more items can be counted;
    /// the list is then as it was.
    pub fn push(&mut self, item: T) -> Result<(), AllocError>
        ensures ok { OnOk result (self.new ≡ self.old ++ item ∷ []) }
        ensures err { OnErr result (self.new ≡ self.old) }
    {
        if self.len == usize::MAX {
            return Err(AllocError);
        }
        push_into(self.alloc, &mut self.blocks, item)?;
        self.len += 1;
        Ok(())
    }
}
