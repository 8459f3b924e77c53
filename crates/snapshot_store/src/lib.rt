//! The accepted commits of a store, by the numbers of their terms.
//!
//! `Commits` keeps what each commit changed by the store's names, and sorts nothing. Contracts see each commit with its terms.
//! It answers which commit overtook a transaction, and why a commit is evaluated again: the terms that a find or a look has are
//! looked up once, and what the commits changed is compared by number.
//!
//! Storey: store.
#![tactic(auto)]

mod commits;
mod finds;
mod first;
mod kept;
mod looks;
mod overtaking;
mod reasons;

pub use commits::Commits;
