//! The commands `validate`, `explain` and `verify`: a data graph and a shapes graph, each a file of Turtle.
//!
//! `validate_files` loads both files, the data first, and validates the graph of the one by the graph of the other. It ensures
//! that the outcome and its report are those of the two graphs, or exactly why there are none, and which files were loaded.
//! `explain_files` ensures the same of the evidence of the results, and `verify_files` of the verdict on a third file's evidence.
//!
//! Storey: commands.
#![tactic(auto)]

mod bad_input;
mod fault;
mod validated_files;
mod validating;
mod verifying;

pub use bad_input::BadInput;
pub use fault::ValidateFault;
pub use file_validation::{EvidenceVerdict, Explanation, RefusalKind, Validation};
pub use validated_files::{ValidatedFiles, VerifiedFiles};
pub use validating::{explain_files, validate_files};
pub use verifying::verify_files;
