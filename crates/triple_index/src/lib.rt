//! A set of triples of term numbers, in pages that other sets may share.
//!
//! An `Index` is seen by contracts as the list of its triples, which ascends strictly by subject,
//! predicate and object. It keeps them in three orders, so that whatever a look or a pattern asks for
//! stands side by side in one of them; that the three hold the same triples is kept by its type. It is
//! built at once of a list of triples, or of their three orders, each of which was sorted by itself.
//!
//! Storey: pages.
#![tactic(auto)]

mod at_once;
mod change;
mod find;
mod index;
mod key;
mod order;
mod pattern;
mod prefix;
mod run;

pub use at_once::OrderedTriples;
pub use change::NumberedChange;
pub use index::Index;
pub use order::Order;
