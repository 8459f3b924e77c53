//! Tests of the store that callers share, and of session files that run beside each other.
//!
//! Storey: tests.
#![tactic(auto)]

#[cfg(test)]
mod attachments;
#[cfg(test)]
mod by_hand;
#[cfg(test)]
mod files;
#[cfg(test)]
mod held;
#[cfg(test)]
mod holding_gate;
#[cfg(test)]
mod told;
