//! Joins of triple patterns over a set of triples of term numbers.
//!
//! `select` answers the bindings of a list of patterns: all assignments of numbers to their variables under
//! which each pattern stands in the set (SPARQL 1.1 Query, section 18.3), each once, ascending from the first
//! variable on; it refuses exactly where there are more than 100,000. It asks the set pattern by pattern, first
//! those of which most is known, and keeps no binding that a later pattern cuts.
//!
//! Storey: pages.
#![tactic(auto)]

mod bindings;
mod fault;
mod join;
mod matcher;
mod pattern;
mod plan;
mod row;
mod trail;
mod variables;

pub use bindings::select;
pub use fault::JoinFault;
pub use matcher::Matcher;
pub use pattern::{JoinPattern, Part};
