//! Lists of triples and of changes by the places of their terms.
//!
//! A `TripleList` and a `Net` keep terms in a list and each triple as three places in it, so that a term that many triples have
//! is kept once. Contracts see the triples, and the changes, as they are by their terms.
//!
//! Storey: pages.
#![tactic(auto)]

mod net;
mod ordered;
mod triples;

pub use net::{Net, copied_change, copied_triple};
pub use triples::TripleList;
