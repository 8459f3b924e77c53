//! How far a number reaches.
ghost use Rattle.std.specs.Prelude.{◌≡◌, ◌+◌, ◌^◌, ◌<◌, ◌≤◌, IfSome, length};
ghost use Rattle.turtle_lex.specs.Numbers;

use crate::token::TokenKind;
use rdf_lexical::{CharSlice, Class, begins_with, run_length};

fn sign_length(characters: &CharSlice<'_>) -> usize
    ensures value { result ≡ Numbers.sign_length characters.now }
    ensures bound { result ≤ length characters.now }
{
    if begins_with(Class::Sign, characters) {
        1
    } else {
        0
    }
}

// How many characters the dot and the digits after it have; 0 where no dot stands.
fn point_length(characters: &CharSlice<'_>) -> usize
    ensures value { result ≡ Numbers.point_length characters.now }
    ensures bound { result ≤ length characters.now }
{
    match characters.split_first() {
        Some(('.', rest)) => 1 + run_length(Class::Digit, &rest),
        _ => 0,
    }
}

// How many characters a sign that may stand there and digits have; 0 where no digit stands.
fn signed_digits(characters: &CharSlice<'_>) -> usize
    ensures value { result ≡ Numbers.signed_digits characters.now }
    ensures bound { result ≤ length characters.now }
    ensures size { result < 2 ^ 63 }
{
    let sign = sign_length(characters);
    let digits = run_length(Class::Digit, &characters.after(sign));
    if digits == 0 { 0 } else { sign + digits }
}

// How many characters the longest EXPONENT has; 0 where none begins here.
fn exponent_length(characters: &CharSlice<'_>) -> usize
    ensures value { result ≡ Numbers.exponent_length characters.now }
    ensures bound { result ≤ length characters.now }
{
    match characters.split_first() {
        Some(('e' | 'E', rest)) => {
            let digits = signed_digits(&rest);
            if digits == 0 { 0 } else { 1 + digits }
        }
        _ => 0,
    }
}

// The kind of a number by how many digits it has before a dot, how many characters from the dot on
// and how many in its exponent.
fn number_kind(digits: usize, point: usize, exponent: usize) -> Option<TokenKind>
    ensures { result ≡ Numbers.number_kind digits point exponent }
{
    if digits == 0 && point < 2 {
        None
    } else if exponent > 0 {
        Some(TokenKind::Double)
    } else if point > 1 {
        Some(TokenKind::Decimal)
    } else {
        Some(TokenKind::Integer)
    }
}

// How many characters a number of a kind has after its sign.
fn number_length(kind: TokenKind, digits: usize, point: usize, exponent: usize) -> usize
    requires { digits + point + exponent < 2 ^ 64 }
    ensures { result ≡ Numbers.number_length kind digits point exponent }
{
    match kind {
        TokenKind::Double => digits + point + exponent,
        TokenKind::Decimal => digits + point,
        _ => digits,
    }
}

// The longest number, without a sign, and its length; None where none begins here.
fn unsigned_number(characters: &CharSlice<'_>) -> Option<(TokenKind, usize)>
    ensures value { result ≡ Numbers.unsigned_number characters.now }
    ensures bound { IfSome result (λ number. (0 < number.1) × (number.1 ≤ length characters.now)) }
{
    let digits = run_length(Class::Digit, characters);
    let rest = characters.after(digits);
    let point = point_length(&rest);
    let exponent = exponent_length(&rest.after(point));
    let kind = number_kind(digits, point, exponent)?;
    Some((kind, number_length(kind, digits, point, exponent)))
}

// The longest number, and its length; None where none begins here.
pub fn number(characters: &CharSlice<'_>) -> Option<(TokenKind, usize)>
    ensures value { result ≡ Numbers.number characters.now }
    ensures bound { IfSome result (λ number. (0 < number.1) × (number.1 ≤ length characters.now)) }
{
    let sign = sign_length(characters);
    let (kind, length) = unsigned_number(&characters.after(sign))?;
    Some((kind, sign + length))
}
