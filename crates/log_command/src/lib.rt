//! The command `create-log` and the log of `run --log`: on disks that are chosen by name, a new log, and one whose store goes on.
//!
//! `create_log` makes a log without a record. `open_log` opens one, and restores the store of its records; it ensures that the
//! store is in step with the log, or exactly why there is none. Each fault of a disk is told apart from one of its bytes.
//!
//! Storey: commands.
#![tactic(auto)]

mod fault;
mod nodes;
mod opening;
mod restoring;
mod staged;

pub use fault::{CreateLogFault, LogFault};
pub use opening::{StoredLog, create_log, open_log};
