//! A disk: bytes at places that are read, written and synced, and what a crash may leave of them.
//!
//! Code over the trait `Disk` is proved against one crash model: what was written since the last sync
//! may be torn, and nothing else. `MemDisk` keeps all its moments in memory, and its calls fail where
//! a test wants it; `HostDisk` is a file of the system, which is trusted to be what the trait says and
//! tells no bytes.
//!
//! Storey: the outside.
#![tactic(auto)]

mod device;
mod host_disk;
mod mem_disk;

pub use device::{Disk, DiskFault, Failed};
pub use host_disk::HostDisk;
pub use mem_disk::{MemDisk, MemMoment};
