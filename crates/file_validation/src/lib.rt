//! What the commands `validate`, `explain` and `verify` do with texts: the validation of one data graph by one shapes graph, both
//! Turtle, with its report or with the evidence of its results.
//!
//! `validate` reads the data and the shapes beside each other, compiles the shapes, lists the results (SHACL section 3.6) and writes the
//! report. It ensures that the report is byte for byte that of exactly those results, and for each fault its cause. `explain`
//! writes the evidence of each result in place of the report, and `verify` says whether a text is evidence, block by block.
//!
//! Storey: commands.
#![tactic(auto)]

mod fault;
mod indexing;
mod naming;
mod reading;
mod results;
mod validating;

pub use fault::InputFault;
pub use rdf_lexical::RefusalKind;
pub use validating::{EvidenceVerdict, Explanation, Validation, explain, validate, verify};
