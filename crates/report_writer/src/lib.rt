//! Writes the report of a validation (SHACL section 3.6) as Turtle, one statement a line.
//!
//! `report` ensures exactly the text that `specs/CompiledReport.antt` defines by the compiled shapes
//! and `specs/Report.antt` by the triples of each well-formed shapes graph that they stand for, with
//! paths of every kind, severities and messages. By `proofs/Sources.antt` the results of a validation
//! have their source shapes among the shapes.
//!
//! Storey: validation.
#![tactic(auto)]

mod component;
pub mod laws;
mod lines;
mod paths;
mod tables;
mod terms;
mod text;

pub use text::report;
