//! Joins of triple patterns of terms over a set of triples by number.
//!
//! `select_terms` answers the bindings of a list of patterns in the graph that a set of triples of term numbers stands
//! for: exactly the rows of `bindings`, ascending by terms from the first variable on; it refuses exactly where there
//! are more than 100,000. The join itself is made by number, and a term without a number binds nothing.
//! `laws` says what `bindings` are, and that they rest on what the patterns would find.
//!
//! Storey: pages.
#![tactic(auto)]

pub mod laws;
mod numbered;
mod row;
mod select;

pub use select::select_terms;
