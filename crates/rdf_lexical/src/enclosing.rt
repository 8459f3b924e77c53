//! Tokens that end where what closes them comes.
ghost use Rattle.std.specs.Prelude.{◌≡◌, ℕ, ◌+◌, ◌<◌, ◌≤◌, ◌^◌, IfOk, length};
ghost use Rattle.rdf_lexical.specs.Enclosed as spec;
ghost use Rattle.rdf_lexical.specs.Enclosed.{IsWithin};

use crate::characters::is_iri_char;
use crate::escapes::{Escape, escape_at};
use crate::quoting::Quotes;
use crate::refusal::RefusalKind;
use crate::slices::CharSlice;

/// The tokens that end where what closes them comes.
#[derive(Clone, Copy, Debug, PartialEq, Eq)]
pub enum Enclosed {
    Iri,
    Text(Quotes),
}

// What comes next in such a token: so many characters that it holds, so many that close it, or a
// fault.
#[derive(Clone, Copy, Debug, PartialEq, Eq)]
pub enum Piece {
    Held { length: usize },
    Closing { length: usize },
    Faulty(RefusalKind),
}

impl Enclosed {
    fn mark(self) -> char
        ensures { result ≡ spec.mark self }
    {
        match self {
            Enclosed::Iri => '>',
            Enclosed::Text(Quotes::Double | Quotes::LongDouble) => '"',
            Enclosed::Text(Quotes::Single | Quotes::LongSingle) => '\'',
        }
    }

    // How many marks close it.
    fn closing_length(self) -> usize
        ensures { result ≡ spec.closing_length self }
    {
        match self {
            Enclosed::Text(Quotes::LongDouble | Quotes::LongSingle) => 3,
            _ => 1,
        }
    }

    fn may_hold(self, character: char) -> bool
        ensures { result ≡ spec.may_hold self character }
    {
        match self {
            Enclosed::Iri => is_iri_char(character),
            Enclosed::Text(Quotes::Double) => !matches!(character, '"' | '\\' | '\n' | '\r'),
            Enclosed::Text(Quotes::Single) => !matches!(character, '\'' | '\\' | '\n' | '\r'),
            Enclosed::Text(Quotes::LongDouble) => !matches!(character, '"' | '\\'),
            Enclosed::Text(Quotes::LongSingle) => !matches!(character, '\'' | '\\'),
        }
    }

    // Whether it may hold an escape for this character, of so many characters after the backslash.
    fn may_hold_escaped(self, character: char, length: usize) -> bool
        ensures { result ≡ spec.may_hold_escaped self character length }
    {
        match self {
            Enclosed::Iri => length > 1 && is_iri_char(character),
            Enclosed::Text(_) => true,
        }
    }
}

/// How many marks the characters begin with, at most so many.
pub fn leading_marks(mark: char, most: usize, characters: &CharSlice<'_>) -> usize
    ensures value { result ≡ spec.leading_marks mark most characters.now }
    ensures bound { result ≤ length characters.now }
    ensures most { result ≤ most }
{
    let mut left = most;
    let mut count = 0;
    let mut rest = characters.whole();
    while let Some((character, after)) = rest.split_first() {
        if left == 0 || character != mark {
            return count;
        }
        left -= 1;
        count += 1;
        rest = after;
    }
    count
}

// A character or an escape that the token may hold.
fn unit(kind: Enclosed, characters: &CharSlice<'_>) -> Piece
    ensures value { result ≡ spec.unit kind characters.now }
    ensures bound { IsWithin result (length characters.now) }
{
    match characters.split_first() {
        None => Piece::Faulty(RefusalKind::UnexpectedEnd),
        Some(('\\', rest)) => match escape_at(&rest) {
            Escape::Character { character, length } => {
                if kind.may_hold_escaped(character, length) {
                    Piece::Held { length: 1 + length }
                } else {
                    Piece::Faulty(RefusalKind::BadEscape)
                }
            }
            Escape::Cut => Piece::Faulty(RefusalKind::UnexpectedEnd),
            Escape::Faulty => Piece::Faulty(RefusalKind::BadEscape),
        },
        Some((character, _)) => {
            if kind.may_hold(character) {
                Piece::Held { length: 1 }
            } else {
                Piece::Faulty(RefusalKind::NoToken)
            }
        }
    }
}

fn next_piece(kind: Enclosed, characters: &CharSlice<'_>) -> Piece
    ensures value { result ≡ spec.next_piece kind characters.now }
    ensures bound { IsWithin result (length characters.now) }
{
    let closing = kind.closing_length();
    let marks = leading_marks(kind.mark(), closing, characters);
    if marks == closing {
        return Piece::Closing { length: closing };
    }
    match unit(kind, &characters.after(marks)) {
        Piece::Held { length } => Piece::Held {
            length: marks + length,
        },
        other => other,
    }
}

// How many of the first bytes are an ASCII character each that the token may hold.
fn plain_length(kind: Enclosed, bytes: &[u8]) -> usize
    ensures { result ≡ spec.plain_length kind bytes.now }
{
    let mut count = 0;
    let mut rest = bytes;
    while let [byte, after @ ..] = rest {
        if *byte >= 128 || !kind.may_hold(*byte as char) {
            return count;
        }
        count += 1;
        rest = after;
    }
    count
}

// How many of the first characters are ASCII and such as the token may hold, and the characters behind them.
fn split_plain<'a>(kind: Enclosed, characters: &CharSlice<'a>) -> (usize, CharSlice<'a>)
    ensures rest { (count : ℕ) → spec.opened count (spec.enclosed_length kind 0 characters.now) ≡ spec.opened (count + result.0) (spec.enclosed_length kind 0 result.1) }
    ensures count { result.0 + length result.1 ≡ length characters.now }
    ensures size { length characters.now < 2 ^ 63 }
{
    let plain = plain_length(kind, characters.as_text().as_bytes());
    let (_, behind) = characters.split_at_byte(plain, plain);
    (plain, behind)
}

/// How many characters the token has after what opens it, with what closes it; or why there is none.
pub fn enclosed_length(kind: Enclosed, characters: &CharSlice<'_>) -> Result<usize, RefusalKind>
    ensures value { result ≡ spec.enclosed_length kind 0 characters.now }
    ensures bound { IfOk result (λ count. count ≤ length characters.now) }
    ensures size { IfOk result (λ count. count < 2 ^ 63) }
{
    let mut count = 0;
    let mut rest = characters.whole();
    'pieces: loop {
        // Most pieces are a character that stands for itself, which is no mark and no backslash, and most of those are ASCII.
        let (plain, behind) = split_plain(kind, &rest);
        count += plain;
        rest = behind;
        if let Some((character, after)) = rest.split_first()
            && kind.may_hold(character)
        {
            count += 1;
            rest = after;
            continue 'pieces;
        }
        match next_piece(kind, &rest) {
            Piece::Held { length } => {
                count += length;
                rest = rest.after(length);
            }
            Piece::Closing { length } => return Ok(count + length),
            Piece::Faulty(fault) => return Err(fault),
        }
    }
}
