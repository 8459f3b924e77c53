//! Evidence of validation results: what a block of it holds, and its text.
//!
//! A block names a result, a shape that gives it and the focus node at which it does, and the looks of that shape at that node,
//! each with the triples of the data graph that match it. `specs/Blocks.antt` says when a block is evidence of its result,
//! `specs/Shown.antt` when it shows its result by itself. `write_block` ensures the text of a block.
//!
//! Storey: validation.
#![tactic(auto)]

mod block;
mod listed_look;
mod writing;

pub use block::{Block, ShownLook};
pub use listed_look::ListedLook;
pub use writing::write_block;
