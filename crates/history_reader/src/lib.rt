//! The history of the command `replay`: the line that a run prints last, read back.
//!
//! `read_history` gives the places of a history's text in order, each the number of a session or none,
//! or says that the text doesn't begin as one. What `specs/History.antt` says of a text is all that
//! decides.
//!
//! Storey: commands.
#![tactic(auto)]

mod history;
mod laws;

pub use history::read_history;
pub use laws::an_order_reads_back;
