//! What a shapes graph says by its triples: values, lists, instances and paths (SHACL sections 1.1 and 2.3.1).
//!
//! Graphs ascend, and an `IndexedGraph` has a table of its subjects, by which the triples of a node are found. `path_nodes` ensures exactly the blank
//! nodes that stand for a path; they are gathered from below, so that no call is as deep as a path is nested.
//! `read_path` ensures the path of a node, unless it is nested deeper than 256.
//!
//! Storey: shapes.
#![tactic(auto)]

mod below;
mod claim;
mod graph;
pub mod instance;
mod known;
pub mod list;
pub mod lookup;
pub mod paths;
mod reading;
mod steps;
pub mod subjects;
pub mod terms;
mod way;

pub use graph::IndexedGraph;
pub use reading::{PathFault, read_path};
pub use steps::modifies_path;
