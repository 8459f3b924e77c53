//! A store that several callers share, each in its turns. Each call that waits is one event of one history.
//!
//! A `Keeper` opens sessions and meets them again. A `Session` has its number and its open
//! transaction. What a caller has seen is a beginning of the history, and its own events stand there as it made
//! them: each is answered as the plain store answers it behind all that stands before it.
//!
//! Storey: sessions.
#![tactic(auto)]

mod calls;
mod check;
mod faults;
mod find;
mod laws;
mod report;
mod select;
mod session;
mod shared;
mod store;
mod turn;

pub use faults::{
    AttachFault, BeginFault, CheckFault, CommitFault, FindFault, HeadFault, OpenFault, ReportFault,
    SelectFault, StageFault,
};
pub use laws::{
    a_failed_opening_keeps_entries, a_meeting_keeps_both_fronts, a_meeting_keeps_entries,
    a_turn_adds_one_event, an_opening_adds_one_event, an_opening_keeps_entries,
};
pub use session::{Keeper, Session};
pub use session_transaction::{Committed, OpenTransaction};
pub use store::Store;
