//! What stands in small graphs, found by going through all their triples: values, lists and instances, and property paths as the
//! pairs of nodes that they join (SHACL section 2.3.1).
//!
//! Each call ensures that it found exactly the terms of which the definitions of `shape_model` hold. None needs the triples to
//! be in any order. `chosen` keeps the terms that pass a test, which is one that a caller hands in. A path becomes a `Relation`:
//! that of a predicate has the pairs of its triples, and each other kind of path is made of the relations of its members.
//! `path_values` ensures exactly the nodes to which the path of a node of the shapes graph leads, by the triples of both graphs as
//! they stand.
//!
//! Storey: plain twins.
#![tactic(auto)]

mod choice;
mod closure;
mod graph;
mod instances;
mod joins;
mod list;
mod pairs;
mod reading;
mod relation;
mod ways;
mod words;

pub use choice::{TermTest, chosen};
pub use graph::{
    objects, objects_of_each, owners, parameters, parameters_of_each, subjects, subjects_with,
};
pub use instances::{alone, instances_of, is_among};
pub use list::{in_order, list_members, members_of_each};
pub use reading::path_values;
pub use relation::{Pair, Relation};
pub use words::{class_word, is_same, is_word, word};
