//! What the texts of N-Triples 1.1 and Turtle 1.1 share: their characters, the tokens that both
//! have, and why a text is refused.
//!
//! `CharSlice` has the characters of a text, which lie in the text itself.
//! `Class` has the classes of characters; `name_length`, `tag_length` and `enclosed_length` say how
//! far a name, a language tag, an IRIREF or a string goes, and `iri_text`, `string_value` and
//! `lower_text` what they stand for. Each function ensures exactly its definition;
//! `specs/Productions.antt` has the productions, on code points. `RefusalKind` is the one enum of
//! refusals.
//!
//! Storey: texts.
#![tactic(auto)]

mod characters;
mod classes;
mod enclosing;
mod escapes;
mod meanings;
mod names;
mod quoting;
mod refusal;
mod slices;
mod tags;

pub use characters::{is_iri_char, is_line_end, is_pn_chars, is_pn_chars_base, is_pn_chars_u};
pub use classes::{Class, begins_with, run_length};
pub use enclosing::{Enclosed, Piece, enclosed_length, leading_marks};
pub use escapes::{Escape, escape_at, escaped_char, hex_value, numbered_char};
pub use meanings::{iri_text, lower_text, plain_text, string_value, text_without_escapes};
pub use names::name_length;
pub use quoting::Quotes;
pub use refusal::{ReadFault, RefusalKind};
pub use slices::CharSlice;
pub use tags::tag_length;
