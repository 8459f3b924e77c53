//! Blocks of evidence by their texts.
ghost use Rattle.std.specs.Prelude.{IfOk};
ghost use Rattle.evidence_reader.specs.NextBlocks.{FindsBlock, IsNextBlock};

use crate::looks::look_lines;
use crate::rows::{row_lines, two_terms};
use evidence_blocks::{Block, write_block};
use std::alloc::{AllocError, Global};

// The block of the first lines, without the line of its number.
fn block_lines(alloc: Global, text: &[u8]) -> Result<Option<Block>, AllocError>
    ensures { IfOk result (FindsBlock text.now) }
{
    let Some((aim, behind)) = two_terms(alloc, b"shape ", b"at ", text)? else {
        return Ok(None);
    };
    let Some((row, behind)) = row_lines(alloc, behind)? else {
        return Ok(None);
    };
    let looks = look_lines(alloc, behind)?;
    let (shape, focus) = aim;
    Ok(Some(Block {
        shape,
        focus,
        row,
        looks,
    }))
}

/// The block with this number at the beginning of a text, spelled as it is written, and what follows it. `None` where the text
/// begins with no such block. It fails only for want of memory.
pub fn read_block<'a>(
    alloc: Global,
    number: u64,
    text: &'a [u8],
) -> Result<Option<(Block, &'a [u8])>, AllocError>
    ensures { IfOk result (IsNextBlock number text.now) }
{
    let line = format!(in alloc; "result {number}\n")?;
    let Some(behind) = text.strip_prefix(line.as_bytes()) else {
        return Ok(None);
    };
    let Some(block) = block_lines(alloc, behind)? else {
        return Ok(None);
    };
    // Lines may be read that are spelled otherwise.
    let written = write_block(alloc, &block)?;
    match behind.strip_prefix(written.as_bytes()) {
        Some(rest) => Ok(Some((block, rest))),
        None => Ok(None),
    }
}
