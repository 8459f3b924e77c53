//! A follower of a leader's records, which serves each version that it has come to.
//!
//! A `Follower` is fed the records of commits in any order, with repeats and losses. It applies each
//! that fits the graph when all before it were applied, keeps those that come early, and ensures which
//! of its answers it gives and what it is afterwards. `at` serves each version, and copies no triple of
//! its data graph. The law is that it has the graphs of a leader whose records it was fed.
//!
//! Storey: store.
#![tactic(auto)]

mod fed;
mod following;
mod kept;
mod laws;
mod misfit;
mod numbering;
mod run;
mod same;
mod served;
mod terms;
mod version;

pub use fed::Fed;
pub use following::Follower;
pub use laws::{
    a_follower_has_the_leaders_graphs, one_answer_for_each_record, the_terms_are_those_accepted,
};
pub use served::{AtFault, Served};
