//! What each property of the SHACL vocabulary asks for, and which nodes of a shapes graph are shapes.
//!
//! The shapes syntax is one table over `ShapeProperty`: the role of a property, and the rule and the test of its values,
//! with the tests that a term passes by itself. `shapes` has exactly the nodes that are shapes, in order, found by binary
//! search in a graph that ascends; `is_shape` and `params` ask for one node.
//!
//! Storey: shapes.
#![tactic(auto)]

pub mod laws;
mod nodes;
mod property;
pub mod shapes;
mod table;
pub mod terms;
pub mod values;

pub use nodes::{is_shape, params};
pub use property::{ShapeProperty, property_of};
pub use table::{Role, RuleTest, Test};
