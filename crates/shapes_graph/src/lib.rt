//! A shapes graph that was found well-formed, with its compiled shapes.
//!
//! Contracts see a `ShapesGraph` as the list of its triples; its type keeps that the graph is
//! well-formed (SHACL section 3.4.2) and that the shapes were compiled of it, each of their parts once. It can be
//! shared without copying it.
//!
//! Storey: shapes.
#![tactic(auto)]

mod graph;

pub use graph::ShapesGraph;
