//! What a run of session files begins with.
use collections::Sequence;
use commit_core::Core;
use commit_log::Log;
use disk::Disk;

/// What a run of session files begins with.
#[derive(Drop)]
pub struct Stored<D: Disk> {
    /// The store's core.
    pub core: Core,
    /// The log of its commits, where it has one.
    pub log: Option<Log<D>>,
    /// The number of the first blank node of session 1, and so on; 1 for a session that has none here.
    pub first_numbers: Sequence<u32>,
}
