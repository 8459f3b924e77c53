//! The history of a store: its events, the oldest first, with those of named blocks and of accepted commits by the numbers of their
//! terms.
//!
//! A `History` takes each event without memory, once there is a `Slip` for it. A block that was named and the
//! changes of a commit that was accepted are kept by the numbers of their terms in a share of the store's names, and the terms are told
//! when the events are asked for. Contracts see the events
//! whole, and the names.
//!
//! Storey: store.
#![tactic(auto)]

mod history;
mod kept;
mod replies;
mod row;
mod slip;

pub use history::History;
pub use kept::{AcceptedCommit, NamedBlock};
pub use slip::Slip;
