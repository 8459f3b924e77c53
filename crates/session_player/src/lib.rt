//! Runs the commands of session files over a core.
//!
//! `run_all` opens a session for each file, runs the files one after another, and answers each
//! command as the plain store has it. What it gives is a run of those files in the order of the
//! core's own history: each session's events once, in the file's order, and none left over. `replay_all`
//! runs them beside each other, in the order of a history that is handed in, or gives the first of its
//! places that isn't valid. `text_of` prints such a run.
//!
//! `run_all` is for tests: the program runs files in threads (`session_threads`), and calls `replay_all` and `text_of`.
//!
//! Storey: sessions.
#![tactic(auto)]

mod find;
mod laws;
mod perform;
mod player;
mod print;
mod replay;
mod resources;
mod run;
mod stage;

pub use laws::{a_run_has_no_bad_place, a_run_is_replayed};
pub use print::text_of;
pub use replay::{HistoryFault, replay_all};
pub use run::{Run, run_all};
