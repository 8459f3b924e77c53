//! Compiled shapes by the numbers of their terms, with a plan of looks for each shape that declares targets.
//!
//! `plan_shapes` makes them once for the shapes of a shapes graph: nothing in them depends on a data graph. Its result says
//! what the shapes say, and its plans have exactly the rows of looks by which changes of a data graph are found to touch a
//! focus node.
//!
//! Storey: validation.
#![tactic(auto)]

mod alike;
mod looks;
mod planned;
mod plans;

pub use planned::{PlannedShapes, plan_shapes};
pub use plans::number_plans;
