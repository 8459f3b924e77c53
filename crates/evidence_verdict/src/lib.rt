//! The verdict on evidence: whether each block of a text shows its result by the triples that it lists.
//!
//! `verify` ensures that all blocks do, and how many they are, or exactly which is the first that isn't spelled as blocks are or
//! doesn't show its result. Each block is evaluated once, over its own triples. `verdict_over` does the same for a shapes graph.
//!
//! `verify` is for callers that have bound shapes: the program has a shapes graph, and calls `verdict_over`.
//!
//! Storey: validation.
#![tactic(auto)]

mod exact;
mod fault;
mod judging;
mod listed;
mod lookup;
mod verdict;

pub use fault::VerdictFault;
pub use verdict::{verdict_over, verify};
