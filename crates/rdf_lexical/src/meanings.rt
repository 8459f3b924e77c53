//! What the characters of IRIs and strings stand for.
ghost use Rattle.std.specs.Prelude.{◌≡◌, ◌<◌, ◌≤◌, ◌==◌, true, false, IfOk, IfSome, MatchOption, length, encode_utf8_all};
ghost use Rattle.std.specs.List.{list_any};
ghost use Rattle.rdf_lexical.specs.Meanings;

use crate::escapes::{Escape, escape_at};
use crate::quoting::Quotes;
use crate::slices::CharSlice;
use rdf_text::Text;
use std::alloc::{AllocError, Global};

// A text without so many characters at each end.
fn inner<'a>(characters: &CharSlice<'a>, count: usize) -> CharSlice<'a>
    requires { count ≤ 3 }
    ensures { result ≡ Meanings.inner count characters.now }
{
    let length = characters.len().saturating_sub(count + count);
    characters.behind(count).front(length)
}

// The character that comes next, itself or by an escape, and how many characters it has.
fn next_character(characters: &CharSlice<'_>) -> Option<(char, usize)>
    ensures value { result ≡ Meanings.next_character characters.now }
    ensures bound { IfSome result (λ next. (0 < next.1) × (next.1 ≤ length characters.now)) }
{
    match characters.split_first() {
        None => None,
        Some(('\\', rest)) => match escape_at(&rest) {
            Escape::Character { character, length } => Some((character, 1 + length)),
            _ => Some(('\\', 1)),
        },
        Some((character, _)) => Some((character, 1)),
    }
}

/// The text that characters are; `None` where there is a backslash among them.
pub fn text_without_escapes<'a>(characters: &CharSlice<'a>) -> Option<&'a str>
    ensures { MatchOption result (list_any (λ c. c == 92) characters.now ≡ true)
        (λ text. (list_any (λ c. c == 92) characters.now ≡ false) × (text.now ≡ encode_utf8_all characters.now)) }
{
    let text = characters.as_text();
    if text.as_bytes().contains(&b'\\') {
        None
    } else {
        Some(text)
    }
}

// A character or an escape after the other.
fn each_unescaped(alloc: Global, characters: &CharSlice<'_>) -> Result<Text, AllocError>
    ensures { IfOk result (λ text. text ≡ Meanings.unescaped 0 characters.now) }
{
    let mut text = String::new(alloc);
    let mut rest = characters.whole();
    while let Some((character, length)) = next_character(&rest) {
        text.push(character)?;
        rest = rest.after(length);
    }
    Text::from_string(text)
}

fn unescaped(alloc: Global, characters: &CharSlice<'_>) -> Result<Text, AllocError>
    ensures { IfOk result (λ text. text ≡ Meanings.unescaped 0 characters.now) }
{
    match text_without_escapes(characters) {
        Some(text) => Text::new(alloc, text),
        None => each_unescaped(alloc, characters),
    }
}

/// The IRI that an IRIREF stands for, by the token's characters (Turtle section 6.4).
pub fn iri_text(alloc: Global, characters: &CharSlice<'_>) -> Result<Text, AllocError>
    ensures { IfOk result (λ iri. iri ≡ Meanings.iri_text characters.now) }
{
    unescaped(alloc, &inner(characters, 1))
}

/// The value of a string with these quotes, by the token's characters (Turtle section 6.4).
pub fn string_value(
    alloc: Global,
    quotes: Quotes,
    characters: &CharSlice<'_>,
) -> Result<Text, AllocError>
    ensures { IfOk result (λ value. value ≡ Meanings.string_value quotes characters.now) }
{
    unescaped(alloc, &inner(characters, quotes.length()))
}

/// These characters as a text: those of a number, a prefix or a label.
pub fn plain_text(alloc: Global, characters: &CharSlice<'_>) -> Result<Text, AllocError>
    ensures { IfOk result (λ text. text ≡ encode_utf8_all characters.now) }
{
    Text::new(alloc, characters.as_text())
}

fn lower_case(character: char) -> char
    ensures { result ≡ Meanings.lower_case character }
{
    character.to_ascii_lowercase()
}

/// These characters as a text in lower case: those of a language tag (RDF 1.1 Concepts section 3.3).
pub fn lower_text(alloc: Global, characters: &CharSlice<'_>) -> Result<Text, AllocError>
    ensures { IfOk result (λ text. text ≡ Meanings.lower_text characters.now) }
{
    let mut text = String::new(alloc);
    let mut rest = characters.whole();
    while let Some((character, after)) = rest.split_first() {
        text.push(lower_case(character))?;
        rest = after;
    }
    Text::from_string(text)
}
