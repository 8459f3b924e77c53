//! Triples as they are found, by the numbers of their terms.
//!
//! A `TripleTable` keeps each term once, with the place of its first appearance as its number, and its triples as three
//! numbers. Contracts see the list of the triples. It gives them sorted, comparing numbers in place of the texts of subjects and
//! predicates, or as they are, with the terms beside them, which find a term by its hash and may get more.
//!
//! Storey: texts.
#![tactic(auto)]

mod hashed;
mod keys;
mod narrowed;
mod numbered;
mod placed;
mod ranked;
mod ranks;
mod table;

pub use numbered::NumberedTerms;
pub use table::TripleTable;
