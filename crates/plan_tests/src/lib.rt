//! Tests of plans of looks: how many rows paths and shapes have, worked out by hand.
//!
//! Storey: tests.
#![tactic(auto)]

#[cfg(test)]
mod plans;
#[cfg(test)]
mod texts;
