//! Validation by SHACL Core (W3C Recommendation of 20 July 2017), as definitions on the triples of a
//! data graph and a shapes graph.
//!
//! `specs/` says which nodes a shape targets, which results it gives there, which listing a graph has,
//! and which triples such an answer reads. `Component` and `ResultRow` are the data of the answers, each
//! with exactly the order of `specs/Rows.antt`. Each function of `laws` promises a theorem about those
//! definitions.
//!
//! Storey: shapes.
#![tactic(auto)]

mod component;
mod count;
pub mod laws;
mod optional_term;
mod result_row;
mod truth;

pub use component::Component;
pub use count::{count_of, is_fewer, is_more};
pub use result_row::ResultRow;
pub use truth::is_true;
