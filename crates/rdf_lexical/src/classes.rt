//! Classes of characters, and how far they reach.
ghost use Rattle.std.specs.Prelude.{◌≡◌, ◌<◌, ◌≤◌, ◌^◌, length};
ghost use Rattle.rdf_lexical.specs.Classes;

use crate::characters::{is_pn_chars, is_pn_chars_base, is_pn_chars_u};
use crate::escapes::hex_value;
use crate::slices::CharSlice;

/// The classes of characters in the productions for terminals (Turtle section 6.5).
#[derive(Clone, Copy, Debug, PartialEq, Eq)]
pub enum Class {
    Sign,
    Digit,
    Hexadecimal,
    Letter,
    LetterOrDigit,
    NameStart,
    NameUnderscoreOrDigit,
    NameUnderscoreColonOrDigit,
    Name,
    NameOrDot,
    LocalStart,
    NameOrColon,
    LocalEscape,
}

// PN_LOCAL_ESC, after the backslash.
fn is_local_escape(character: char) -> bool
    ensures { result ≡ Classes.is_local_escape character }
{
    matches!(
        character,
        '_' | '~'
            | '.'
            | '-'
            | '!'
            | '$'
            | '&'
            | '\''
            | '('
            | ')'
            | '*'
            | '+'
            | ','
            | ';'
            | '='
            | '/'
            | '?'
            | '#'
            | '@'
            | '%'
    )
}

// What PN_LOCAL may begin with: PN_CHARS_U, a digit, a colon or the first character of a PLX.
fn begins_local(character: char) -> bool
    ensures { result ≡ Classes.begins_local character }
{
    is_pn_chars_u(character) || character.is_ascii_digit() || matches!(character, ':' | '%' | '\\')
}

impl Class {
    /// Whether a character is one of the class.
    pub fn holds(self, character: char) -> bool
        ensures { result ≡ Classes.holds self character }
    {
        match self {
            Class::Sign => matches!(character, '+' | '-'),
            Class::Digit => character.is_ascii_digit(),
            Class::Hexadecimal => hex_value(character).is_some(),
            Class::Letter => character.is_ascii_alphabetic(),
            Class::LetterOrDigit => character.is_ascii_alphanumeric(),
            Class::NameStart => is_pn_chars_base(character),
            Class::NameUnderscoreOrDigit => is_pn_chars_u(character) || character.is_ascii_digit(),
            Class::NameUnderscoreColonOrDigit => {
                is_pn_chars_u(character) || character == ':' || character.is_ascii_digit()
            }
            Class::Name => is_pn_chars(character),
            Class::NameOrDot => is_pn_chars(character) || character == '.',
            Class::LocalStart => begins_local(character),
            Class::NameOrColon => is_pn_chars(character) || character == ':',
            Class::LocalEscape => is_local_escape(character),
        }
    }
}

/// Whether the characters begin with one of the class.
pub fn begins_with(class: Class, characters: &CharSlice<'_>) -> bool
    ensures { result ≡ Classes.begins_with class characters.now }
{
    match characters.split_first() {
        Some((first, _)) => class.holds(first),
        None => false,
    }
}

/// How many characters of the class the characters begin with.
pub fn run_length(class: Class, characters: &CharSlice<'_>) -> usize
    ensures value { result ≡ Classes.run_length class characters.now }
    ensures bound { result ≤ length characters.now }
    ensures size { result < 2 ^ 63 }
{
    let mut count = 0;
    let mut rest = characters.whole();
    while let Some((character, after)) = rest.split_first() {
        if !class.holds(character) {
            return count;
        }
        count += 1;
        rest = after;
    }
    count
}
