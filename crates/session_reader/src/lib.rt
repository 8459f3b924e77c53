//! Reads session files.
//!
//! `prepare` gives exactly the commands of a file, or exactly the number of its first line that is no
//! command; `specs/SessionFile.antt` and `specs/FindLine.antt` say which those are. A file whose first line is `%session 2` is of the
//! second language, which can attach triples to stored blank nodes and select bindings; `specs/SelectBlock.antt` says what the
//! block of a select is. Other blocks are read as N-Triples or as Turtle, and those of
//! shapes as shapes graphs; one that can't be read, or breaks a rule, is a command of its own, which
//! tells its refusal. `prepare` is `read_session`, which reads the blocks, and `check_commands`, which judges the shapes graphs;
//! `check_lines` tells beforehand what each reading of a file comes to, by its lines alone.
//!
//! Storey: sessions.
#![tactic(auto)]

mod checking;
mod find_line;
pub mod laws;
mod line;
mod line_check;
mod line_cursor;
mod prepare_fault;
mod read_command;
mod select_block;
mod session_file;

pub use checking::check_commands;
pub use line_check::check_lines;
pub use prepare_fault::PrepareFault;
pub use read_command::ReadCommand;
pub use session_file::{prepare, read_session};
