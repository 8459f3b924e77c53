//! Tests of what is printed of a follower, and of a replica that threads share.
//!
//! Storey: tests.
#![tactic(auto)]

#[cfg(test)]
mod printed;
#[cfg(test)]
mod shared;
