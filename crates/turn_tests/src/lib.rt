//! Tests of the lock whose turns make one history, and of the counter that threads share by it.
//!
//! Storey: tests.
#![tactic(auto)]

#[cfg(test)]
mod counted;
#[cfg(test)]
mod seats;
