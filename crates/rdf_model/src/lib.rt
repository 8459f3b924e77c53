//! Terms, triples and graphs of RDF 1.1, with their orders, and what is said about them.
//!
//! `Term::cmp` and `Triple::cmp` are exactly the orders of `specs/Terms.antt`, total, and equal only
//! where the terms are. A graph is a list of triples that ascends strictly in that order. `Pattern::matches` and
//! `Look::reads` say which triples a pattern and a look ask for.
//!
//! `ListNames` and `ListGraph` are the plainest `Names` and `Triples`, in vectors: tests of the crates above use them, and no
//! crate of the program does.
//!
//! Storey: terms.
#![tactic(auto)]

mod change;
mod footprint;
mod ids;
mod look;
mod n_triples;
mod names;
mod pattern;
mod term;
mod triple;
mod triples;

pub use change::Change;
pub use footprint::Footprint;
pub use ids::Ids;
pub use look::Look;
pub use names::{ListNames, Names};
pub use pattern::Pattern;
pub use rdf_text::Text;
pub use term::Term;
pub use triple::Triple;
pub use triples::{ListGraph, Triples};
