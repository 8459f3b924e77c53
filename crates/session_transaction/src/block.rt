//! A block that is moved out of its command.
ghost use Rattle.std.specs.Prelude.{◌≡◌};

use session_model::Block;
use std::alloc::Global;
use std::mem;

/// Moves the block out of its command, and leaves an empty one.
pub fn take_block(alloc: Global, block: &mut Block) -> Block
    ensures { result ≡ block.old }
{
    mem::replace(block, Block::empty(alloc))
}
