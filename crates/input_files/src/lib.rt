//! The files of the program's words, which are loaded one at a time, each within the length that a file may have.
//!
//! `load_file` ensures exactly the text that a name holds, or why there is none, and that the load was noted.
//!
//! Storey: commands.
#![tactic(auto)]

mod file;

pub use file::{FileFault, load_file};
