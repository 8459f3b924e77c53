//! A session's open transaction, however its store is reached.
//!
//! `OpenTransaction` has what its commit hands in and the snapshot of its begin. Its changes, its staged shapes and the
//! patterns of its finds are kept in their order, and a find and a select see the snapshot with the changes so far, a report the snapshot alone. `check` evaluates what
//! the changes touch at a later version, and keeps the verdict until a change is staged. `commit` hands all of it to a core, `commit_beside` to a
//! core with its log, and `Committed` is the answer. What a session is told of a find, of a select, of a refused block and of a commit is told
//! here too.
//!
//! Storey: sessions.
#![tactic(auto)]

mod block;
mod committing;
mod replies;
mod select;
mod transaction;

pub use block::take_block;
pub use committing::{Committed, commit, commit_beside};
pub use replies::{block_refusal, is_refused, reply_of_commit, reply_of_find, reply_of_select};
pub use transaction::{ChangeKind, OpenTransaction};
