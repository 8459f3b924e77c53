//! A lock that callers take in turns, by tickets. Its state stands for a list of entries; each turn adds one. The entries
//! make one history, and a caller's pass sees a beginning of it: what the caller saw before stands there, and of the entries
//! under the caller's own numbers just those that it made. Nothing is promised about who comes first, or when a turn comes.
//!
//! Storey: sessions.
#![tactic(auto)]

pub mod entries;
pub mod laws;
mod rule;
mod steps;
pub mod turns;
pub mod view;

pub use entries::Entries;
pub use turns::{Held, NoSeat, Pass, Turns};
