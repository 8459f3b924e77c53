//! A log of commits on a disk that outlives a crash.
//!
//! `create` makes a log without records, `open` gives the records of one, `append` adds one. Whenever a
//! crash comes, what it leaves opens to the records that were there, then to those appended since, in
//! order, up to one of them, and to every one whose `append` answered Ok. An image opens to one list
//! of records, or one number says which record of it is to blame: `laws`.
//!
//! Storey: store.
#![tactic(auto)]

pub mod laws;
mod log;
mod read;

pub use log::{AppendFault, CreateFault, Log, OpenLogFault, create, open};
pub use read::{RecordFault, read_records};
pub use record_text::Record;
