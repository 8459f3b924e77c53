//! Sessions over the plain store: their commands, what each command is answered, and what a run prints.
//!
//! `specs/Sessions.antt` walks the commands of session files through the steps of the plain store,
//! in the order of a history. `specs/Print.antt` is the text of such a run, byte for byte.
//! `SessionReply` prints itself exactly as that text has it. A `Block` keeps that its triples are such as a text can
//! give, so that a log can keep them.
//!
//! Storey: sessions.
#![tactic(auto)]

mod block;
mod command;
mod reply;
mod report;

pub use block::{Block, ShapesBlock};
pub use command::Command;
pub use reply::SessionReply;
pub use report::Report;
