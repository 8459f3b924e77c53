//! Places in a text, with their lines.
ghost use Rattle.std.specs.Prelude.{◌≡◌, ◌+◌, ◌<◌, ◌≤◌, ◌^◌, [], length};
ghost use Rattle.turtle_lex.specs.Places.{IsPlace, line_feeds, place_at};

use crate::token::TextPlace;
use rdf_lexical::CharSlice;

// How many of the bytes are LF.
fn line_feed_bytes(bytes: &[u8]) -> u64
    ensures { result ≡ line_feeds bytes.now }
{
    let mut count = 0;
    for byte in bytes {
        if *byte == b'\n' {
            count += 1;
        }
    }
    count
}

/// How many of the characters are LF, which as many of their bytes are.
pub fn line_feeds(characters: &CharSlice<'_>) -> u64
    ensures value { result ≡ line_feeds characters.now }
    ensures bound { result ≤ length characters.now }
{
    line_feed_bytes(characters.as_text().as_bytes())
}

impl TextPlace {
    /// The beginning of any text.
    pub fn start() -> TextPlace
        ensures { result ≡ place_at [] 0 }
    {
        TextPlace {
            at: 0,
            byte: 0,
            line: 1,
        }
    }
}

// The place so many characters further on.
pub fn place_after(characters: &CharSlice<'_>, place: TextPlace, count: usize) -> TextPlace
    requires place { IsPlace characters.now place }
    requires count { place.at + count ≤ length characters.now }
    ensures { result ≡ place_at characters.now (place.at + count) }
{
    let (_, rest) = characters.split_at_byte(place.at, place.byte);
    let passed = rest.front(count);
    TextPlace {
        at: place.at + count,
        byte: place.byte + passed.as_text().len(),
        line: place.line + line_feeds(&passed),
    }
}
