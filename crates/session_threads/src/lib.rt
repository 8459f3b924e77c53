//! Session files that are played beside each other, each in a thread of its own, over one store.
//!
//! `run_all` makes a store of a core and its log, opens a session for each file, in the files' order, plays the files beside each
//! other, meets the sessions and closes the store. `run_new` does so with a new core and no log. What it gives is a run of those files in the order of the turns that the threads took: each
//! session's events once, in the file's order, and none left over; and how many triples the data graph has at its end.
//!
//! Storey: sessions.
#![tactic(auto)]

mod perform;
mod play;
mod replies;
mod team;
mod watch;

pub use play::play_file;
pub use team::{EndedRun, run_all, run_new};
