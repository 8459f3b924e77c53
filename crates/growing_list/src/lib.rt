//! A list that only grows.
//!
//! A `GrowingList` is seen by contracts as the list of its items. These stand in chunks of one size,
//! and the chunks in blocks of one size, which other lists may share: an item is three index steps
//! away, and `share` copies nothing. A push copies where the blocks stand, where the chunks of the
//! last of them do, and the last chunk, each where it is shared, so that a share keeps its items
//! whatever is done to its source.
//!
//! Storey: pages.
#![tactic(auto)]

mod block;
mod blocks;
mod chunk;
mod growing;

pub use growing::GrowingList;
