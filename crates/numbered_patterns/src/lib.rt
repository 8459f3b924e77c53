//! Patterns by the numbers of their terms, and terms, triples and changes read by theirs.
//!
//! A `NumberedPattern` asks for triples of numbers exactly where its pattern asks for the triples that they stand for. Of a
//! pattern with a term that has no number there is none: it asks for no triple whose terms all have one. `read_term`,
//! `read_triple` and `read_change` ensure what numbers stand for.
//!
//! Storey: pages.
#![tactic(auto)]

mod pattern;
mod reading;

pub use pattern::NumberedPattern;
pub use reading::{read_change, read_term, read_triple};
