//! Blocks of a growing list, side by side.
ghost use Rattle.std.specs.Prelude.{◌≡◌, ◌+◌, ◌<◌, ◌≤◌, [], ◌∷◌, ◌++◌, length, get_or, slice_get, IfOk, OnErr, OnOk, MatchOption, Some};
ghost use Rattle.growing_list.specs.Chunks.{AreChunks, AreFull, HasOneMore, full_block};

use crate::block::{Block, FULL_BLOCK};
use collections::ExactClone;
use std::alloc::{AllocError, Global};
use std::marker::Model;
use std::sync::Arc;

// Blocks side by side, which lists may share. Contracts see their items in order.
pub(crate) struct Blocks<T> {
    blocks: Arc<Vec<Block<T>>>,
}

impl<T: Drop> Drop for Blocks<T> {
    fn drop(self) {
        let Blocks { blocks: _ } = self;
    }
}

impl<T> Model for Blocks<T> {
    ghost use Rattle.std.specs.Prelude.{List};
    ghost use Rattle.std.specs.Arc.{arc_value};
    ghost use Rattle.growing_list.specs.Chunks.{AreChunks, all_items, full_block};

    ghost Value = { List T };

    ghost view = { λ b. all_items (arc_value b.blocks).items };

    ghost invariant = { λ b. AreChunks full_block (arc_value b.blocks).items };
}

// The place of the last block, where that has room for an item.
fn block_with_room<T>(blocks: &[Block<T>]) -> Option<usize>
    requires { AreChunks full_block blocks.now }
    ensures { MatchOption result (AreFull full_block blocks.now) (λ at. (at + 1 ≡ length blocks.now) × (length (get_or blocks.now at []) < full_block)) }
{
    let last = blocks.last()?;
    if last.len() < FULL_BLOCK {
        return Some(blocks.len() - 1);
    }
    None
}

// Adds an item at the end of the last block, or in a block of its own where that has no room.
fn add_to_blocks<T: ExactClone + Drop>(
    alloc: Global,
    blocks: &mut Vec<Block<T>>,
    item: T,
) -> Result<(), AllocError>
    requires { AreChunks full_block blocks.old.items }
    ensures ok { OnOk result (HasOneMore full_block item blocks.old.items blocks.new.items) }
    ensures err { OnErr result (blocks.new.items ≡ blocks.old.items) }
{
    match block_with_room(blocks) {
        Some(at) => {
            blocks[at].push(alloc, item)?;
            return Ok(());
        }
        None => {
            blocks.push(Block::of_one(alloc, item)?)?;
            return Ok(());
        }
    }
}

impl<T> Blocks<T> {
    pub(crate) fn get(&self, at: usize) -> Option<&T>
        ensures { MatchOption result (length self.now ≤ at) (λ item. slice_get self.now at ≡ Some item.now) }
    {
        match self.blocks.get(at / FULL_BLOCK) {
            Some(block) => block.get(at % FULL_BLOCK),
            None => None,
        }
    }
}

// A clone holds the same blocks, of which none is copied.
impl<T: Drop> Clone for Blocks<T> {
    ghost is_clone = { λ source copy. copy ≡ source };

    fn clone(&self) -> Result<Blocks<T>, AllocError> {
        Ok(Blocks {
            blocks: Arc::try_clone(&self.blocks)?,
        })
    }
}

impl<T: Drop> Blocks<T> {
    // One block of one item.
    pub(crate) fn of_one(alloc: Global, item: T) -> Result<Blocks<T>, AllocError>
        ensures { IfOk result (λ blocks. blocks ≡ item ∷ []) }
    {
        let mut blocks = Vec::new(alloc);
        blocks.push(Block::of_one(alloc, item)?)?;
        Ok(Blocks {
            blocks: Arc::new(alloc, blocks)?,
        })
    }
}

impl<T: ExactClone + Drop> Blocks<T> {
    // Adds an item at the end. Where other lists share the blocks, their places are copied first.
    pub(crate) fn push(&mut self, alloc: Global, item: T) -> Result<(), AllocError>
        ensures ok { OnOk result (self.new ≡ self.old ++ item ∷ []) }
        ensures err { OnErr result (self.new ≡ self.old) }
    {
        add_to_blocks(alloc, Arc::make_mut(&mut self.blocks)?, item)
    }
}
