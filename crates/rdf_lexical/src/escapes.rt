//! Escapes and the characters that they stand for.
ghost use Rattle.std.specs.Prelude.{◌≡◌, ◌≤◌, suc, length};
ghost use Rattle.rdf_lexical.specs.Escapes;
ghost use Rattle.rdf_lexical.specs.Escaping;
ghost use Rattle.rdf_lexical.specs.Escaping.{HasLength};

use crate::classes::{Class, run_length};
use crate::slices::CharSlice;

const LARGEST: u32 = 0x10FFFF;

/// The character that ECHAR stands for, by its character after the backslash (N-Triples section 7).
pub fn escaped_char(character: char) -> Option<char>
    ensures { result ≡ Escapes.escaped_char character }
{
    match character {
        't' => Some('\t'),
        'b' => Some('\u{8}'),
        'n' => Some('\n'),
        'r' => Some('\r'),
        'f' => Some('\u{C}'),
        '"' | '\'' | '\\' => Some(character),
        _ => None,
    }
}

/// The value of a hexadecimal digit, 0 to 15 (production HEX, N-Triples section 7).
pub fn hex_value(digit: char) -> Option<u32>
    ensures { result ≡ Escapes.hex_value digit }
{
    match digit {
        '0'..='9' => Some(digit as u32 - '0' as u32),
        'A'..='F' => Some(digit as u32 - 'A' as u32 + 10),
        'a'..='f' => Some(digit as u32 - 'a' as u32 + 10),
        _ => None,
    }
}

/// The character that UCHAR stands for, by its digits: four after `\u`, eight after `\U`
/// (N-Triples section 7). None where one is no digit, or they are the number of a surrogate or
/// past 10FFFF.
pub fn numbered_char(digits: &CharSlice<'_>) -> Option<char>
    ensures { result ≡ Escapes.numbered_char digits.now }
{
    let mut number = 0;
    let mut left = digits.whole();
    while let Some((digit, after)) = left.split_first() {
        number = 16 * number + hex_value(digit)?;
        if number > LARGEST {
            return None;
        }
        left = after;
    }
    char::from_u32(number)
}

/// What follows a backslash: the character that the escape stands for and how many characters it
/// has after the backslash; or that the text ends within the escape, or that it is none.
#[derive(Clone, Copy, Debug, PartialEq, Eq)]
pub enum Escape {
    Character { character: char, length: usize },
    Cut,
    Faulty,
}

// The escape by its digits, of which there must be so many.
fn numbered_escape(count: usize, characters: &CharSlice<'_>) -> Escape
    requires { count ≤ 8 }
    ensures value { result ≡ Escaping.numbered_escape count characters.now }
    ensures bound { HasLength result (suc (length characters.now)) }
{
    let digits = run_length(Class::Hexadecimal, characters);
    if digits < count {
        return if digits == characters.len() {
            Escape::Cut
        } else {
            Escape::Faulty
        };
    }
    let (number, _) = characters.split_at(count);
    match numbered_char(&number) {
        Some(character) => Escape::Character {
            character,
            length: 1 + count,
        },
        None => Escape::Faulty,
    }
}

// The escape by its character.
fn character_escape(character: char) -> Escape
    ensures value { result ≡ Escaping.character_escape character }
    ensures bound { HasLength result 1 }
{
    match escaped_char(character) {
        Some(character) => Escape::Character {
            character,
            length: 1,
        },
        None => Escape::Faulty,
    }
}

/// The escape by the characters after its backslash (Turtle section 6.4).
pub fn escape_at(characters: &CharSlice<'_>) -> Escape
    ensures value { result ≡ Escaping.escape_at characters.now }
    ensures bound { HasLength result (length characters.now) }
{
    match characters.split_first() {
        Some(('u', rest)) => numbered_escape(4, &rest),
        Some(('U', rest)) => numbered_escape(8, &rest),
        Some((character, _)) => character_escape(character),
        None => Escape::Cut,
    }
}
