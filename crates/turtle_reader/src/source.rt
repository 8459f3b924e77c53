//! What a reading reads.
ghost use Rattle.std.specs.Prelude.{◌≡◌, ◌<◌, ◌^◌, length};
ghost use Rattle.std.specs.Str.{chars};
ghost use Rattle.turtle_lex.specs.Meanings;
ghost use Rattle.turtle_reader.specs.Progress.{IsTokenOf};

use rdf_lexical::{CharSlice, ReadFault};
use std::alloc::Global;
use std::marker::Model;
use turtle_lex::{Token, token_text};

/// What a reading gives, or why it gives nothing.
pub type Reading<T> = Result<T, ReadFault>;

/// The characters of a text, fewer than 2^32, and where the memory of what they stand for comes
/// from. Contracts see the list of the characters.
#[derive(Debug, Drop)]
pub struct Source<'a> {
    alloc: Global,
    characters: CharSlice<'a>,
}

impl<'a> Model for Source<'a> {
    ghost use Rattle.std.specs.Prelude.{List, ℕ, ◌<◌, ◌^◌, length};

    ghost Value = { List ℕ };

    ghost view = { λ s. s.characters };

    ghost invariant = { λ s. length s.characters < 2 ^ 32 };
}

impl<'a> Source<'a> {
    /// The characters of a text.
    pub fn new(alloc: Global, text: &'a str) -> Source<'a>
        requires { length (chars text.now) < 2 ^ 32 }
        ensures { result ≡ chars text.now }
    {
        Source {
            alloc,
            characters: CharSlice::of_text(text),
        }
    }

    /// Where memory comes from.
    pub fn alloc(&self) -> Global {
        self.alloc
    }

    /// The characters, fewer than 2^32.
    pub fn characters(&self) -> &CharSlice<'a>
        ensures same { result.now ≡ self.now }
        ensures size { length result.now < 2 ^ 32 }
    {
        &self.characters
    }

    /// The characters of a token.
    pub fn token_text(&self, token: Token) -> CharSlice<'a>
        requires { IsTokenOf self.now token }
        ensures { result ≡ Meanings.token_text self.now token }
    {
        token_text(&self.characters, token)
    }
}
