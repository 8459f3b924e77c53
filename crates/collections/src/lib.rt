//! Lists and sets that contracts see as lists.
//!
//! A `Sequence` owns its items, and any data that holds one is plain data to a contract. The
//! functions of `ordered` keep a set as a vector that ascends strictly in the order of its items:
//! each ensures exactly what the set is afterwards.
//!
//! No crate of the program takes an item out of a set or asks for one: `remove_item` and `contains_item` are for sets that
//! shrink, and for tests.
//!
//! Storey: terms.
#![tactic(auto)]

mod exact_clone;
mod exact_order;
mod ordered;
mod owned;
mod sequence;
mod sorting;

pub use exact_clone::ExactClone;
pub use exact_order::ExactOrder;
pub use ordered::{contains_item, insert_item, remove_item};
pub use owned::{both, let_go};
pub use sequence::Sequence;
pub use sorting::sorted_once;
