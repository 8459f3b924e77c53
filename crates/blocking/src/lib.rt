//! Which results keep a commit from being accepted, by the severity of their shape (SHACL section 2.1.4).
//!
//! `has_blocking` ensures exactly whether one of some results blocks, and `pairs_block` the same of the results of pairs. By the
//! laws it is enough to ask the pairs that changes touch: where nothing blocked before, a result of the graph after them blocks
//! exactly where one of theirs does.
//!
//! Storey: validation.
#![tactic(auto)]

mod laws;
mod rows;
mod severity;

pub use laws::{nothing_blocks_law, something_blocks_law};
pub use rows::{has_blocking, pairs_block};
