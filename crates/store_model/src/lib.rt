//! The plain store: what a store of RDF triples guarded by shapes has to answer, step by step.
//!
//! `specs/Store.antt` defines it on plain lists: the state, the step of each action with its
//! reply, and the replay of a history from a state. The types here are the plain data that those
//! definitions speak of; they promise nothing of their own. `push_all_terms` ensures the terms of triples, in the order in which
//! they are named.
//!
//! Storey: store.
#![tactic(auto)]

mod commit;
mod event;
mod terms;

pub use commit::{Accepted, Again, Overtaker, Transaction, Verdict};
pub use event::{Action, BlockMode, Event, Limits, NameKind, Reply};
pub use shape_model::{Component, ResultRow};
pub use terms::push_all_terms;
