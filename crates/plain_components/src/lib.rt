//! The results of all constraint components of SHACL Core at a focus node, found term by term (SHACL section 4).
//!
//! `place_rows` ensures exactly the results of a shape at a place. The components that ask of each value node alone, sh:pattern
//! among them, are those of the crate `plain_values`; those of pairs, closed shapes and qualified value shapes are here.
//!
//! Storey: plain twins.
#![tactic(auto)]

mod closed;
mod component;
mod pairs;
mod qualified;

pub use component::place_rows;
pub use qualified::siblings;
