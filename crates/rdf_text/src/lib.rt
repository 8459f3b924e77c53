//! Texts as RDF compares them: two texts are one where their characters are.
//!
//! `Text` owns its characters. Contracts see it as its UTF-8 bytes, which stand for the characters
//! one to one, so that `≡` on any data that holds texts is equality of those texts, and the order
//! is that of the bytes, which is also that of the code points.
//!
//! Storey: terms.
#![tactic(auto)]

mod text;

pub use text::Text;
