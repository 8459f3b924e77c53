//! The pairs of a shape and a focus node that changes of a data graph touch.
//!
//! `touched` ensures exactly the pairs for which a changed triple matches a row of looks of the shape at a node to which
//! the focus node walks, and exactly the looks of the ways back by which they are found. The rows stand in an index by
//! predicate, so that rows which ask of no changed triple's predicate cost nothing.
//!
//! Storey: validation.
#![tactic(auto)]

mod changes;
mod finding;
mod index;
mod matching;
mod pairs;
mod plan;
mod runs;

pub use index::IndexedPlans;
pub use pairs::touched;
pub use plan::{NumberedKind, NumberedLook, ShapePlan};
