//! Numbers among the words.
ghost use Rattle.std.specs.Prelude.{◌≡◌};
ghost use Rattle.command_line.specs.Plain;
ghost use Rattle.command_line.specs.Words.{limit_of, size_of, version_of};

// The greatest number of an option.
const MOST: u32 = 2_000_000;

// The greatest size of a load.
const LARGEST: u32 = 100_000;

// The greatest number of a version.
const NEWEST: u32 = 1_000_000;

// Whether a text begins with neither a zero nor a plus sign.
fn begins_plainly(text: &str) -> bool
    ensures { result ≡ Plain.begins_plainly text.now }
{
    !text.is_empty() && text.as_bytes()[0] != b'0' && text.as_bytes()[0] != b'+'
}

/// The number of an option: digits without sign or leading zero, from 1 to 2,000,000.
pub fn limit(text: &str) -> Option<u32>
    ensures { result ≡ limit_of text.now }
{
    if !begins_plainly(text) {
        return None;
    }
    match text.parse::<u32>() {
        Ok(number) if number <= MOST => Some(number),
        Ok(_) => None,
        Err(_) => None,
    }
}

/// The size of a load: digits without sign or leading zero, from 1 to 100,000.
pub fn size(text: &str) -> Option<u32>
    ensures { result ≡ size_of text.now }
{
    match limit(text) {
        Some(number) if number <= LARGEST => Some(number),
        Some(_) => None,
        None => None,
    }
}

/// The number of a version: digits without sign or leading zero, from 0 to 1,000,000.
pub fn version(text: &str) -> Option<u32>
    ensures { result ≡ version_of text.now }
{
    if text == "0" {
        return Some(0);
    }
    match limit(text) {
        Some(number) if number <= NEWEST => Some(number),
        Some(_) => None,
        None => None,
    }
}
