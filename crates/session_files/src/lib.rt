//! The commands `run` and `replay`: session files, run beside each other or in the order of a history.
//!
//! `run_files` loads the files, in their order, and runs their sessions over a core and its log; `replay_files` runs them over
//! an empty store in the order of a history. Both ensure that the text is exactly what the plain store prints for them, in an
//! order that is valid for them, or exactly why the files gave no run; and `run_files` what the log has then: just what it had
//! where the files are refused or can't be read.
//!
//! Storey: commands.
#![tactic(auto)]

mod fault;
mod laws;
mod loading;
mod reading;
mod running;
mod session_run;
mod stored;

pub use fault::RunFault;
pub use laws::{a_print_is_replayed, unrefused_files_read_alike};
pub use running::{replay_files, run_files};
pub use session_run::SessionRun;
pub use stored::Stored;
