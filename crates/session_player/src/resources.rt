//! What commands are run with.

use std::alloc::Global;

/// The threads that share out the evaluations of commands, and where commands take their memory.
#[derive(Drop)]
pub struct Resources<'a, T> {
    pub rt: &'a T,
    pub alloc: Global,
}
