//! A follower that several callers share: a read replica, which each feeds or reads in its turns.
//!
//! A `Replica` holds a follower in a lock, with the list of its entries: the records that it was fed with their answers, the
//! versions that were read, and the turns that ran out of memory. Each call that takes its turn is one entry of one history, and
//! the pass's own list grows by just this entry. It is answered as a follower that was given the entries before it, and a
//! read's version isn't below any that its pass had seen.
//!
//! No crate of the program calls it: the command `follow` feeds a `Follower` by itself.
//!
//! Storey: sessions.
#![tactic(auto)]

mod copying;
mod entry;
mod history;
mod laws;
mod shared;
mod sharing;

pub use entry::Entry;
pub use history::History;
pub use laws::{a_replica_follows_a_leader, a_turn_adds_one_entry, entries_make_one_follower};
pub use shared::Shared;
pub use sharing::Replica;
