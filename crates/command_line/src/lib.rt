//! The words of the program, read by `clap`.
//!
//! `read_call` gives what the words ask for. `specs/Words.antt` says of which words that is: those that
//! `clap` takes for the command written out there, whose numbers are plain decimals within their bounds.
//! All other words are refused, and only they are.
//!
//! Storey: commands.
#![tactic(auto)]

mod call;
mod commands;
mod number;

pub use call::{Block, Call, LimitOptions, WordsFault, read_call};
