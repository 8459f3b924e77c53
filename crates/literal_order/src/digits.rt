//! Decimal digits.
ghost use Rattle.std.specs.Prelude.{◌≡◌, ◌+◌, ◌-◌, ◌^◌, ◌<◌, ◌≤◌, length, true, IfSome};
ghost use Rattle.literal_order.specs.Digits;

/// Whether each byte is a digit.
pub fn are_digits(text: &[u8]) -> bool
    ensures { result ≡ Digits.are_digits text.now }
{
    for byte in text {
        if !byte.is_ascii_digit() {
            return false;
        }
    }
    true
}

/// Whether each byte is `0`.
pub fn are_zeros(text: &[u8]) -> bool
    ensures { result ≡ Digits.are_zeros text.now }
{
    for byte in text {
        if *byte != b'0' {
            return false;
        }
    }
    true
}

/// The number that at most twenty digits write.
pub fn number(digits: &[u8]) -> u128
    requires are_digits { Digits.are_digits digits.now ≡ true }
    requires short { length digits.now ≤ 20 }
    ensures value { result ≡ Digits.number digits.now }
    ensures below { result < 10 ^ length digits.now }
{
    let mut number = 0;
    for digit in digits {
        number = 10 * number + u128::from(*digit - b'0');
    }
    number
}

/// Digits of a fraction as a whole number of units of the last of so many places.
#[tactic(auto, using(crate::proofs::DigitLemmas::scaled_below), unfolding(crate::specs::Digits::fraction_of))]
pub fn fraction_of(places: u32, digits: &[u8]) -> u128
    requires are_digits { Digits.are_digits digits.now ≡ true }
    requires places_in { places ≤ 18 }
    requires short { length digits.now ≤ places }
    ensures value { result ≡ Digits.fraction_of places digits.now }
    ensures below { result < 10 ^ places }
{
    number(digits) * 10u128.pow(places - digits.len() as u32)
}

/// The number that the whole part of a decimal writes, if it has at most 20 digits after leading zeros.
#[tactic(auto, using(crate::proofs::DigitLemmas::parts_of_digits), unfolding(crate::specs::Digits::whole_number))]
pub fn whole_number(digits: &[u8]) -> Option<u128>
    requires { Digits.are_digits digits.now ≡ true }
    ensures value { result ≡ Digits.whole_number digits.now }
    ensures below { IfSome result (λ n. n < 10 ^ 20) }
{
    let (zeros, last) = digits.split_at(digits.len().saturating_sub(20));
    if are_zeros(zeros) {
        Some(number(last))
    } else {
        None
    }
}

/// A decimal's fraction in units of 10^-18, if it has at most 18 digits before trailing zeros.
#[tactic(auto, using(crate::proofs::DigitLemmas::parts_of_digits), unfolding(crate::specs::Digits::fraction_number))]
pub fn fraction_number(digits: &[u8]) -> Option<u128>
    requires { Digits.are_digits digits.now ≡ true }
    ensures value { result ≡ Digits.fraction_number digits.now }
    ensures below { IfSome result (λ n. n < 10 ^ 18) }
{
    let (first, rest) = digits.split_at(digits.len().min(18));
    if are_zeros(rest) {
        Some(fraction_of(18, first))
    } else {
        None
    }
}
