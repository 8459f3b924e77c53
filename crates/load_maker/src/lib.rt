//! The load of the command `generate`: the session files of four sessions that play a given number of transactions.
//!
//! `workload` gives the whole text of one of them. `specs/Workload.antt` says line by line what it is.
//!
//! Storey: commands.
#![tactic(auto)]

mod load;

pub use load::workload;
