//! Blocks of a growing list.
ghost use Rattle.std.specs.Prelude.{◌≡◌, ◌+◌, ◌<◌, ◌≤◌, [], ◌∷◌, ◌++◌, length, get_or, slice_get, IfOk, OnErr, OnOk, MatchOption, Some};
ghost use Rattle.growing_list.specs.Chunks.{AreChunks, AreFull, HasOneMore, full_block, full_chunk};

use crate::chunk::{Chunk, FULL_CHUNK};
use collections::ExactClone;
use std::alloc::{AllocError, Global};
use std::marker::Model;
use std::sync::Arc;

/// The number of items of a block that is full, which has 128 full chunks.
pub(crate) const FULL_BLOCK: usize = 8_192;

// Chunks side by side, which lists may share. Contracts see their items in order.
pub(crate) struct Block<T> {
    chunks: Arc<Vec<Chunk<T>>>,
    len: usize,
}

impl<T: Drop> Drop for Block<T> {
    fn drop(self) {
        let Block { chunks: _, len: _ } = self;
    }
}

impl<T> Model for Block<T> {
    ghost use Rattle.std.specs.Prelude.{◌≡◌, List, length};
    ghost use Rattle.std.specs.Arc.{arc_value};
    ghost use Rattle.growing_list.specs.Chunks.{AreChunks, all_items, full_chunk};

    ghost Value = { List T };

    ghost view = { λ b. all_items (arc_value b.chunks).items };

    ghost invariant = { λ b. AreChunks full_chunk (arc_value b.chunks).items × (b.len ≡ length (all_items (arc_value b.chunks).items)) };
}

// The place of the last chunk, where that has room for an item.
fn chunk_with_room<T>(chunks: &[Chunk<T>]) -> Option<usize>
    requires { AreChunks full_chunk chunks.now }
    ensures { MatchOption result (AreFull full_chunk chunks.now) (λ at. (at + 1 ≡ length chunks.now) × (length (get_or chunks.now at []) < full_chunk)) }
{
    let last = chunks.last()?;
    if last.len() < FULL_CHUNK {
        return Some(chunks.len() - 1);
    }
    None
}

// Adds an item at the end of the last chunk, or in a chunk of its own where that has no room.
fn add_to_chunks<T: ExactClone + Drop>(
    alloc: Global,
    chunks: &mut Vec<Chunk<T>>,
    item: T,
) -> Result<(), AllocError>
    requires { AreChunks full_chunk chunks.old.items }
    ensures ok { OnOk result (HasOneMore full_chunk item chunks.old.items chunks.new.items) }
    ensures err { OnErr result (chunks.new.items ≡ chunks.old.items) }
{
    match chunk_with_room(chunks) {
        Some(at) => {
            chunks[at].push(alloc, item)?;
            return Ok(());
        }
        None => {
            chunks.push(Chunk::of_one(alloc, item)?)?;
            return Ok(());
        }
    }
}

impl<T> Block<T> {
    pub(crate) fn len(&self) -> usize
        ensures { result ≡ length self.now }
    {
        self.len
    }

    pub(crate) fn get(&self, at: usize) -> Option<&T>
        ensures { MatchOption result (length self.now ≤ at) (λ item. slice_get self.now at ≡ Some item.now) }
    {
        match self.chunks.get(at / FULL_CHUNK) {
            Some(chunk) => chunk.get(at % FULL_CHUNK),
            None => None,
        }
    }
}

// A clone holds the same chunks, of which none is copied.
impl<T: Drop> Clone for Block<T> {
    ghost is_clone = { λ source copy. copy ≡ source };

    fn clone(&self) -> Result<Block<T>, AllocError> {
        Ok(Block {
            chunks: Arc::try_clone(&self.chunks)?,
            len: self.len,
        })
    }
}

impl<T: Drop> Block<T> {
    // A block of one item.
    pub(crate) fn of_one(alloc: Global, item: T) -> Result<Block<T>, AllocError>
        ensures { IfOk result (λ block. block ≡ item ∷ []) }
    {
        let mut chunks = Vec::new(alloc);
        chunks.push(Chunk::of_one(alloc, item)?)?;
        Ok(Block {
            chunks: Arc::new(alloc, chunks)?,
            len: 1,
        })
    }
}

impl<T: ExactClone + Drop> Block<T> {
    // Adds an item at the end. Where other lists share the chunks, their places are copied first.
    pub(crate) fn push(&mut self, alloc: Global, item: T) -> Result<(), AllocError>
        requires { length self.old < full_block }
        ensures ok { OnOk result (self.new ≡ self.old ++ item ∷ []) }
        ensures err { OnErr result (self.new ≡ self.old) }
    {
        add_to_chunks(alloc, Arc::make_mut(&mut self.chunks)?, item)?;
        self.len += 1;
        Ok(())
    }
}
