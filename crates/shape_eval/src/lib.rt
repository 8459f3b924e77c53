//! The results that a shape gives at a focus node, by compiled shapes over the numbers of terms, for all components of
//! SHACL Core.
//!
//! `eval` lists exactly the results of SHACL's validation of one focus node by one shape, for each shapes graph that the
//! compiled shapes stand for, as long as no shape refers to itself and no chain of references is longer than 256. Whether
//! value nodes conform to another shape is found by the results of that shape at each of them. The footprint takes exactly the
//! looks of the shape at the focus node. A `Permit` allows one evaluation, and `permit` counts it among the `Steps`, which
//! take no memory.
//!
//! Storey: validation.
#![tactic(auto)]

mod asked;
mod by_list;
mod by_shape;
mod by_term;
mod closing;
mod context;
mod evaluation;
mod flags;
mod looks;
mod own_rows;
mod qualified;
mod rights;
mod steps;
mod told;
mod value_nodes;

pub use context::Evaluation;
pub use evaluation::eval;
pub use rights::Permit;
pub use steps::{Steps, permit};
pub use string_constraints::Matchers;
