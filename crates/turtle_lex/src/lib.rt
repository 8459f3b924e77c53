//! The tokens of Turtle 1.1, with their places, and what they stand for.
//!
//! `next_token` gives the longest token that stands behind white space and comments at a place, by
//! the productions in `specs/Productions.antt`, or None at the end, or the fault, as
//! `specs/Tokens.antt` says by a token's first characters. It takes no memory: `token_text` has the
//! characters of a token, and `iri_text`, `string_value`, `split_name` and `local_name` what those
//! stand for. Characters are counted, not bytes.
//!
//! Storey: texts.
#![tactic(auto)]

mod blanks;
mod enclosed;
pub mod laws;
mod lexer;
mod meanings;
mod names;
mod numbers;
mod places;
mod token;
mod words;

pub use lexer::next_token;
pub use meanings::{local_name, push_local_name, split_name, token_text};
pub use places::line_feeds;
pub use rdf_lexical::{CharSlice, Quotes, RefusalKind, iri_text, plain_text, string_value};
pub use token::{LexFault, TextPlace, Token, TokenKind};
