//! The shapes of a shapes graph as they are compiled (SHACL section 2).
//!
//! `read_shapes` ensures that the graph is well-formed and the shapes were compiled of it, or says exactly why not: the
//! least row of its broken rules, or whose pattern was refused. `compile` does so of a graph that is known to be
//! well-formed. Each part of a shape is read from the triples of its node, which are found by binary search. Shapes are
//! named by their places in the ascending list of the nodes that are shapes.
//!
//! Storey: shapes.
#![tactic(auto)]

mod constraint;
mod fault;
mod kind;
mod part;
mod path;
mod pattern;
mod place;
mod read;
mod shape;
mod shape_node;
mod shapes;
mod target;
mod values;

pub use fault::{CompileFault, ShapeFault};
pub use read::read_shapes;
pub use shapes::compile;
