//! Words, with `@` before them or not.
ghost use Rattle.std.specs.Prelude.{◌≡◌, ◌<◌, ◌≤◌, suc, true, IfOk, bytes_eq, length, nat_eq};
ghost use Rattle.std.specs.List.{starts_with};
ghost use Rattle.turtle_lex.specs.Words;

use crate::token::TokenKind;
use rdf_lexical::{CharSlice, Class, RefusalKind, run_length, tag_length};

const A: &str = "a";

const TRUE: &str = "true";

const FALSE: &str = "false";

const PREFIX: &str = "prefix";

const BASE: &str = "base";

// Whether a word is another, of small letters.
fn is_same(word: &CharSlice<'_>, other: &str) -> bool
    requires { Words.has_small_letters other.now ≡ true }
    ensures { result ≡ bytes_eq word.now other.now }
{
    word.as_text() == other
}

// Whether a word is another, of small letters, in any case.
fn is_in_any_case(word: &CharSlice<'_>, other: &str) -> bool
    requires { Words.has_small_letters other.now ≡ true }
    ensures { result ≡ Words.is_in_any_case word.now other.now }
{
    word.as_text().eq_ignore_ascii_case(other)
}

// Whether the characters are the beginning of a word, of small letters.
fn begins_word(word: &str, characters: &CharSlice<'_>) -> bool
    requires { Words.has_small_letters word.now ≡ true }
    ensures { result ≡ starts_with nat_eq word.now characters.now }
{
    word.as_bytes().starts_with(characters.as_text().as_bytes())
}

// The kind of a word without a colon, if it is one of the grammar's.
fn word_kind(word: &CharSlice<'_>) -> Option<TokenKind>
    ensures { result ≡ Words.word_kind word.now }
{
    if is_same(word, A) {
        Some(TokenKind::A)
    } else if is_same(word, TRUE) {
        Some(TokenKind::True)
    } else if is_same(word, FALSE) {
        Some(TokenKind::False)
    } else if is_in_any_case(word, PREFIX) {
        Some(TokenKind::Prefix)
    } else if is_in_any_case(word, BASE) {
        Some(TokenKind::Base)
    } else {
        None
    }
}

// The kind of a word after `@` where no string stands before it.
fn directive_kind(word: &CharSlice<'_>) -> Option<TokenKind>
    ensures { result ≡ Words.directive_kind word.now }
{
    if is_same(word, PREFIX) {
        Some(TokenKind::AtPrefix)
    } else if is_same(word, BASE) {
        Some(TokenKind::AtBase)
    } else {
        None
    }
}

// Whether the characters are the beginning of such a word.
fn begins_directive(characters: &CharSlice<'_>) -> bool
    ensures { result ≡ Words.begins_directive characters.now }
{
    begins_word(PREFIX, characters) || begins_word(BASE, characters)
}

fn language_tag(characters: &CharSlice<'_>) -> Result<(TokenKind, usize), RefusalKind>
    ensures value { result ≡ Words.language_tag characters.now }
    ensures bound { IfOk result (λ token. (0 < token.1) × (token.1 ≤ suc (length characters.now))) }
{
    let length = tag_length(characters);
    if length > 0 {
        Ok((TokenKind::LanguageTag, 1 + length))
    } else if characters.is_empty() {
        Err(RefusalKind::UnexpectedEnd)
    } else {
        Err(RefusalKind::NoToken)
    }
}

fn directive(characters: &CharSlice<'_>) -> Result<(TokenKind, usize), RefusalKind>
    ensures value { result ≡ Words.directive characters.now }
    ensures bound { IfOk result (λ token. (0 < token.1) × (token.1 ≤ suc (length characters.now))) }
{
    let length = tag_length(characters);
    let (word, _) = characters.split_at(length);
    match directive_kind(&word) {
        Some(kind) => Ok((kind, 1 + length)),
        None => {
            if begins_directive(characters) {
                Err(RefusalKind::UnexpectedEnd)
            } else {
                Err(RefusalKind::NoToken)
            }
        }
    }
}

/// The token that begins with `@`, by the characters after that.
pub fn at_word(
    after_string: bool,
    characters: &CharSlice<'_>,
) -> Result<(TokenKind, usize), RefusalKind>
    ensures value { result ≡ Words.at_word after_string characters.now }
    ensures bound { IfOk result (λ token. (0 < token.1) × (token.1 ≤ suc (length characters.now))) }
{
    if after_string {
        language_tag(characters)
    } else {
        directive(characters)
    }
}

/// The word without a colon that begins here.
pub fn word(characters: &CharSlice<'_>) -> Result<(TokenKind, usize), RefusalKind>
    ensures value { result ≡ Words.word characters.now }
    ensures bound { IfOk result (λ token. (0 < token.1) × (token.1 ≤ length characters.now)) }
{
    let length = run_length(Class::Name, characters);
    let (word, _) = characters.split_at(length);
    match word_kind(&word) {
        Some(kind) => Ok((kind, length)),
        None => {
            if run_length(Class::NameOrDot, characters) == characters.len() {
                Err(RefusalKind::UnexpectedEnd)
            } else {
                Err(RefusalKind::NoToken)
            }
        }
    }
}
