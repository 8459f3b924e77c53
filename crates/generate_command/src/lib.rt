//! The command `generate`: a generated load that is run.
//!
//! `run_load` makes the four session files of a load, runs them beside each other and counts. It ensures that what it tells
//! are the counts of the replies, and of the triples of the data graph at the end, of a run of those files in an order that
//! is valid for them.
//!
//! Storey: commands.
#![tactic(auto)]

mod counting;
mod reading;
mod running;

pub use running::run_load;
