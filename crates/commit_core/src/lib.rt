//! The core of the store: one caller at a time asks it for a step, and it answers as the plain store does.
//!
//! A `Core` keeps the state and the whole history that led to it; its type keeps that the replay of
//! that history is the state. Each call is one event, added to the history with the plain store's
//! reply, or it runs out of memory and changes nothing.
//!
//! `Core::replay` and `Core::into_events` are for callers that keep a history: of the program's crates none does, and tests call
//! them. `last_staged` is for tests too.
//!
//! Storey: store.
#![tactic(auto)]

mod asking;
mod bounds;
mod checked;
mod commit;
mod logging;
mod name_list;
mod naming;
mod outcome;
mod reasons;
mod recorded;
mod replay;
mod restoring;
mod snapshot;
mod store;

pub use checked::CheckedNet;
pub use commit::{CheckedTransaction, Commit};
pub use data_graph::NumberHints;
pub use event_history::Slip;
pub use naming::NamingFault;
pub use record_text::Record;
pub use replay::ReplayFault;
pub use restoring::{RestoreFault, last_staged};
pub use snapshot::Snap;
pub use store::{Core, SessionFault, slip};
pub use store_model::{Again, BlockMode, Event, Limits, NameKind, Transaction, Verdict};
