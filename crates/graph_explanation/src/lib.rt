//! The explanation of a validation: for each result, in their order, the evidence by which it can be found again.
//!
//! `explanation_over` ensures that the text is that of just the results of a data graph by numbers under a shapes graph, each
//! behind its number, from 1. Each shape is evaluated once at each of its targets, and once more for each block.
//!
//! Storey: validation.
#![tactic(auto)]

mod explaining;
mod firsts;

pub use explaining::explanation_over;
pub use result_evidence::NumberedData;
