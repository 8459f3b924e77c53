//! Tests of the forms in memory, and of the real ones, of what lies outside the program.
//!
//! Storey: tests.
#![tactic(auto)]

#[cfg(test)]
mod forms;
