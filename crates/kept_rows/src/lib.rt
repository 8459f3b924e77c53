//! Results that a store keeps, each with the pair of a shape and a focus node that gives it.
//!
//! Contracts see `KeptRows` as a list of rows, ascending by shape, focus node and result. A change costs the rows of the pairs that
//! it checks, and a share copies nothing, so that each version of a store has its own. The listing is made only where it is asked
//! for.
//!
//! Storey: validation.
#![tactic(auto)]

mod kept_row;
mod kept_rows;
mod laws;
mod pair;
mod pair_rows;

pub use kept_row::KeptRow;
pub use kept_rows::KeptRows;
pub use laws::{listing_law, merge_law};
pub use pair_rows::PairRows;
