//! The tests of each crate, against plain lists and tables.

mod dict;
mod growing;
mod index;
mod joins;
mod joins_by_terms;
mod many;
mod pages;
mod patterns;
mod rows;
