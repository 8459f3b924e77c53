//! The command `follow`: a new follower is fed records of a log, in the order of a second file.
//!
//! `follow_files` loads both files, the log first, and prints each answer, the version, and the data graph of the version that
//! is asked for. It ensures that the text is what a follower of those records prints, or exactly why there is none, and which
//! files were loaded.
//!
//! Storey: commands.
#![tactic(auto)]

mod fault;
mod feeding;
mod files;
mod following;
mod laws;
mod order;
mod triples;

pub use fault::FollowFault;
pub use files::FollowedFiles;
pub use following::follow_files;
pub use laws::records_of_one_log_never_differ;
