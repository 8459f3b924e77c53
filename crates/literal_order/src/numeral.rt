//! Decimals, integers and booleans.
ghost use Rattle.std.specs.Prelude.{◌≡◌, ◌^◌, ◌<◌};
ghost use Rattle.literal_order.specs.Digits;
ghost use Rattle.literal_order.specs.Numerals;

use crate::datatype::IntegerType;
use crate::digits::{are_digits, fraction_number, whole_number};
use crate::literal_value::{LiteralReading, LiteralValue, ProfileRefusal};

/// Units of 10^-18 in one.
const SCALE: u128 = 1_000_000_000_000_000_000;

/// Whether a numeral begins with `-`, and what follows its sign.
fn split_sign(text: &[u8]) -> (bool, &[u8])
    ensures negative { result.0 ≡ Digits.is_negative text.now }
    ensures rest { result.1.now ≡ Numerals.unsigned text.now }
{
    match text {
        [b'-', rest @ ..] => (true, rest),
        [b'+', rest @ ..] => (false, rest),
        _ => (false, text),
    }
}

/// What stands before and after the first point.
fn split_point(text: &[u8]) -> (&[u8], &[u8])
    ensures whole { result.0.now ≡ Numerals.whole_digits text.now }
    ensures fraction { result.1.now ≡ Numerals.fraction_digits text.now }
{
    for (index, byte) in text.iter().enumerate() {
        if *byte == b'.' {
            return (&text[..index], &text[index + 1..]);
        }
    }
    (text, &text[text.len()..])
}

fn signed(negative: bool, magnitude: u128) -> i128
    requires { magnitude < 2 ^ 127 }
    ensures { result ≡ Numerals.signed negative magnitude }
{
    let number = magnitude as i128;
    if negative { -number } else { number }
}

/// The value of an integer type's lexical form (XSD 1.1 Part 2, sections 3.4.13 to 3.4.25).
#[tactic(auto, unfolding(crate::specs::Numerals::integer_reading))]
pub fn integer_reading(integer: IntegerType, text: &[u8]) -> LiteralReading<'static>
    ensures { result ≡ Numerals.integer_reading integer text.now }
{
    let (negative, digits) = split_sign(text);
    if digits.is_empty() || !are_digits(digits) {
        return LiteralReading::IllTyped;
    }
    match whole_number(digits) {
        None => LiteralReading::Refused(ProfileRefusal::TooManyDigits),
        Some(whole) if integer.is_in_range(signed(negative, whole)) => {
            LiteralReading::Value(LiteralValue::Number(signed(negative, whole * SCALE)))
        }
        Some(_) => LiteralReading::IllTyped,
    }
}

/// The value of a decimal's lexical form (XSD 1.1 Part 2, section 3.3.3).
#[tactic(auto, unfolding(crate::specs::Numerals::decimal_reading))]
pub fn decimal_reading(text: &[u8]) -> LiteralReading<'static>
    ensures { result ≡ Numerals.decimal_reading text.now }
{
    let (negative, digits) = split_sign(text);
    let (whole, fraction) = split_point(digits);
    if whole.is_empty() && fraction.is_empty() || !are_digits(whole) || !are_digits(fraction) {
        return LiteralReading::IllTyped;
    }
    match (whole_number(whole), fraction_number(fraction)) {
        (Some(whole), Some(fraction)) => {
            LiteralReading::Value(LiteralValue::Number(signed(negative, whole * SCALE + fraction)))
        }
        _ => LiteralReading::Refused(ProfileRefusal::TooManyDigits),
    }
}

/// The value of a boolean's lexical form (XSD 1.1 Part 2, section 3.3.2).
#[tactic(auto, unfolding(crate::specs::Numerals::boolean_reading))]
pub fn boolean_reading(text: &str) -> LiteralReading<'static>
    ensures { result ≡ Numerals.boolean_reading text.now }
{
    match text {
        "true" | "1" => LiteralReading::Value(LiteralValue::Boolean(true)),
        "false" | "0" => LiteralReading::Value(LiteralValue::Boolean(false)),
        _ => LiteralReading::IllTyped,
    }
}
