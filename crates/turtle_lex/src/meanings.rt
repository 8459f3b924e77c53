//! What the characters of tokens stand for.
ghost use Rattle.std.specs.Prelude.{◌≡◌, ◌≤◌, ◌++◌, IfOk, OnOk, length, string_bytes};
ghost use Rattle.turtle_lex.specs.Meanings;
ghost use Rattle.turtle_lex.specs.Places.{HasSpan};

use crate::token::Token;
use rdf_lexical::{CharSlice, text_without_escapes};
use rdf_text::Text;
use std::alloc::{AllocError, Global};

/// The characters of a token of this text.
pub fn token_text<'a>(characters: &CharSlice<'a>, token: Token) -> CharSlice<'a>
    requires { HasSpan characters.now token }
    ensures { result ≡ Meanings.token_text characters.now token }
{
    let Token { start, end, .. } = token;
    let (_, behind) = characters.split_at_byte(start.at, start.byte);
    let (text, _) = behind.split_at_byte(end.at - start.at, end.byte - start.byte);
    text
}

// Puts the local name behind a text, a character after the other.
fn push_each(text: &mut String, characters: &CharSlice<'_>) -> Result<(), AllocError>
    ensures { OnOk result (string_bytes text.new ≡ string_bytes text.old ++ Meanings.local_text characters.now) }
{
    let mut rest = characters.whole();
    while let Some((character, after)) = rest.split_first() {
        if character != '\\' {
            text.push(character)?;
        }
        rest = after;
    }
    Ok(())
}

/// Puts behind a text the local name that a PN_LOCAL stands for, by its characters: what a backslash stands before is
/// meant without it, and `%` with its digits stays (Turtle section 6.3).
pub fn push_local_name(text: &mut String, characters: &CharSlice<'_>) -> Result<(), AllocError>
    ensures { OnOk result (string_bytes text.new ≡ string_bytes text.old ++ Meanings.local_text characters.now) }
{
    match text_without_escapes(characters) {
        Some(name) => text.push_str(name),
        None => push_each(text, characters),
    }
}

/// The local name that a PN_LOCAL stands for, by its characters, as `push_local_name` has it.
pub fn local_name(alloc: Global, characters: &CharSlice<'_>) -> Result<Text, AllocError>
    ensures { IfOk result (λ name. name ≡ Meanings.local_text characters.now) }
{
    let mut text = String::new(alloc);
    push_local_name(&mut text, characters)?;
    Text::from_string(text)
}

// How many characters stand before the first colon.
fn before_colon(characters: &CharSlice<'_>) -> usize
    ensures value { result ≡ Meanings.before_colon characters.now }
    ensures bound { result ≤ length characters.now }
{
    let mut count = 0;
    let mut rest = characters.whole();
    while let Some((character, after)) = rest.split_first() {
        if character == ':' {
            return count;
        }
        count += 1;
        rest = after;
    }
    count
}

/// The prefix and the local part of a PNAME_NS or a PNAME_LN, before and after its colon.
pub fn split_name<'a>(characters: &CharSlice<'a>) -> (CharSlice<'a>, CharSlice<'a>)
    ensures prefix { result.0 ≡ Meanings.prefix_part characters.now }
    ensures local { result.1 ≡ Meanings.local_part characters.now }
{
    let (prefix, rest) = characters.split_at(before_colon(characters));
    match rest.split_first() {
        Some((_, local)) => (prefix, local),
        None => (prefix, rest),
    }
}
