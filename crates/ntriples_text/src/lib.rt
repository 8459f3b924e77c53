//! N-Triples 1.1 texts, read and written.
//!
//! `read` ensures exactly the triples of a text, or exactly the refusal that counts, as
//! `specs/Document.antt` says; `read_named` is the same with the labels of the store, and
//! `named_term` reads one term. `read_numbered` and `read_named_numbered` leave the triples as they stand in the text, by the
//! numbers of their terms, and sort none. `write` ensures the text of a list of triples, one line each, and
//! `laws` that it is read again.
//!
//! No crate of the program calls `write`, which tests and the laws are about: a session prints its triples one by one.
//!
//! Storey: texts.
#![tactic(auto)]

mod document;
mod grammar;
mod labels;
pub mod laws;
mod lexeme;
mod line_fault;
mod numbering;
mod statement;
mod store_labels;
mod text_line;
mod token;
mod writing;

pub use document::{named_term, read, read_named, read_named_numbered, read_numbered};
pub use rdf_lexical::{ReadFault, RefusalKind};
pub use triple_table::TripleTable;
pub use writing::write;
