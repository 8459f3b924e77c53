//! Turtle 1.1 texts, read.
//!
//! `read` ensures exactly the triples of a text, or exactly the refusal that counts, as
//! `specs/Document.antt` says by the productions of the grammar. It goes by tokens and a stack of
//! open brackets, without recursion. `read_numbered` leaves the triples as they were found, by the
//! numbers of their terms, and sorts none.
//!
//! Storey: texts.
#![tactic(auto)]

mod document;
mod frame;
mod grammar;
pub mod laws;
mod literals;
mod names;
mod objects;
mod open;
mod source;
mod stack;
mod state;
mod table;
mod terms;
mod tokens;

pub use document::{read, read_numbered};
pub use rdf_lexical::{ReadFault, RefusalKind};
pub use triple_table::TripleTable;
