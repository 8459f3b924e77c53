//! Chunks of a block.
ghost use Rattle.std.specs.Prelude.{◌≡◌, ◌≤◌, [], ◌∷◌, ◌++◌, length, slice_get, IfOk, OnErr, OnOk, MatchOption, Some};

use collections::ExactClone;
use std::alloc::{AllocError, Global};
use std::marker::Model;
use std::sync::Arc;

/// The number of items of a chunk that is full.
pub(crate) const FULL_CHUNK: usize = 64;

// Items side by side, which lists may share. Contracts see them in their order.
pub(crate) struct Chunk<T> {
    items: Arc<Vec<T>>,
}

impl<T: Drop> Drop for Chunk<T> {
    fn drop(self) {
        let Chunk { items: _ } = self;
    }
}

impl<T> Model for Chunk<T> {
    ghost use Rattle.std.specs.Prelude.{List};
    ghost use Rattle.std.specs.Arc.{arc_value};

    ghost Value = { List T };

    ghost view = { λ c. (arc_value c.items).items };
}

impl<T> Chunk<T> {
    pub(crate) fn len(&self) -> usize
        ensures { result ≡ length self.now }
    {
        self.items.len()
    }

    pub(crate) fn get(&self, at: usize) -> Option<&T>
        ensures { MatchOption result (length self.now ≤ at) (λ item. slice_get self.now at ≡ Some item.now) }
    {
        self.items.get(at)
    }
}

// A clone holds the same items, of which none is copied.
impl<T: Drop> Clone for Chunk<T> {
    ghost is_clone = { λ source copy. copy ≡ source };

    fn clone(&self) -> Result<Chunk<T>, AllocError> {
        Ok(Chunk {
            items: Arc::try_clone(&self.items)?,
        })
    }
}

impl<T: Drop> ExactClone for Chunk<T> {
    ghost clone_is_equal = { λ source copy is_copy. is_copy };
}

impl<T: Drop> Chunk<T> {
    // A chunk of one item.
    pub(crate) fn of_one(alloc: Global, item: T) -> Result<Chunk<T>, AllocError>
        ensures { IfOk result (λ chunk. chunk ≡ item ∷ []) }
    {
        let mut items = Vec::new(alloc);
        items.push(item)?;
        Ok(Chunk {
            items: Arc::new(alloc, items)?,
        })
    }
}

// Clones of items and one item more, in room for a full chunk.
fn copied_with<T: ExactClone + Drop>(
    alloc: Global,
    items: &[T],
    item: T,
) -> Result<Vec<T>, AllocError>
    ensures { IfOk result (λ copy. copy.items ≡ items.now ++ item ∷ []) }
{
    let mut copy = Vec::with_capacity(alloc, FULL_CHUNK)?;
    for kept in items {
        copy.push(kept.clone()?)?;
    }
    copy.push(item)?;
    Ok(copy)
}

impl<T: ExactClone + Drop> Chunk<T> {
    // Adds an item at the end. Items that other lists share are cloned first.
    pub(crate) fn push(&mut self, alloc: Global, item: T) -> Result<(), AllocError>
        ensures ok { OnOk result (self.new ≡ self.old ++ item ∷ []) }
        ensures err { OnErr result (self.new ≡ self.old) }
    {
        match Arc::get_mut(&mut self.items) {
            Some(items) => {
                items.push(item)?;
                return Ok(());
            }
            None => {
                let items = copied_with(alloc, &self.items, item)?;
                self.items = Arc::new(alloc, items)?;
                return Ok(());
            }
        }
    }
}
