//! Tests of walks along property paths and of targets: as tables of rows that were worked out by hand, and on
//! random graphs beside the plain definition.
//!
//! Storey: tests.
#![tactic(auto)]

#[cfg(test)]
mod tests;
