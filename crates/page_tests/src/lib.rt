//! Tests of the crates that stand on pages.
//!
//! Storey: tests.
#![tactic(auto)]

#[cfg(test)]
mod tests;
