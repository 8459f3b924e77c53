//! Tests of the evidence of results: blocks that were worked out by hand, and verdicts on such blocks.
//!
//! Storey: tests.
#![tactic(auto)]

#[cfg(test)]
mod blocks;
#[cfg(test)]
mod rows;
#[cfg(test)]
mod verdicts;
#[cfg(test)]
mod wrong_rows;
