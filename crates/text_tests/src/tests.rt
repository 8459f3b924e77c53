//! The tests of each kind of text, and the rows of their tables.

mod characters;
mod iris;
mod literals;
mod ntriples;
mod rows;
mod turtle;
mod turtle_tokens;
