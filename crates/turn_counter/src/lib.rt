//! A counter that several threads add to, each in its turns: a small use of the lock of `turn_lock`. Each addition is an
//! entry of one history. The counter's total is the sum of that history, and each reply is the sum up to its own entry.
//!
//! Storey: plain twins.
#![tactic(auto)]

pub mod chain;
pub mod counter;
pub mod entry;
pub mod team;
pub mod worker;
