//! Plans of looks: which triples of a data graph decide the results and the targets of a compiled shape.
//!
//! `plan` ensures exactly the rows of looks of the shape, each as often as it is counted, or that they are more than a shape
//! may have.
//!
//! Storey: shapes.
#![tactic(auto)]

mod constraint_looks;
mod fault;
mod look;
mod path_looks;
mod planning;
mod references;
mod rows;
mod ways;

pub use fault::PlanFault;
pub use look::{LookKind, PlannedLook};
pub use planning::plan;
