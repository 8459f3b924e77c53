//! Numbers for terms.
//!
//! A `Dict` gives each new term that it is told the next number, up to a limit, and never changes the
//! number of a term. Contracts see the list of its terms, in which a term's number is its place, with
//! the limit. A share of a dictionary stays as it was, and copies no term.
//!
//! Storey: pages.
#![tactic(auto)]

mod dict;
mod entry;
mod fault;
mod met;
mod table;

pub use dict::Dict;
pub use fault::NameFault;
