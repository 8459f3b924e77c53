//! The nodes to which a node walks along a property path (SHACL section 2.3.1), and instances of classes.
//!
//! `values` and `back` ensure exactly the ends of walks and of reversed walks, each once, ascending,
//! and exactly the looks that decide them; `is_instance` and `class_instances` say which nodes walk along
//! the class path to a class. Each part of a path goes on from each node once, also where a repetition stands
//! inside a repetition, so a walk takes time linear in the graph times the path.
//!
//! Storey: validation.
#![tactic(auto)]

mod instances;
mod looking;
mod making;
mod queries;
mod visited;
mod walk;
mod walker;

pub use instances::{ClassWords, class_instances, is_instance};
pub use queries::{back, back_from, values};
