//! The lines of a text.
ghost use Rattle.std.specs.Prelude.{◌≡◌, ◌+◌, ◌<◌, ◌≤◌, ◌^◌, ◌∷◌, length};
ghost use Rattle.std.specs.Str.{chars};
ghost use Rattle.ntriples_text.specs.Document;
ghost use Rattle.ntriples_text.specs.LineBytes;

use rdf_lexical::CharSlice;

// How many bytes the first line has, with the one that ends it.
fn line_length(bytes: &[u8]) -> usize
    ensures { result ≡ LineBytes.line_length bytes.now }
{
    let mut count = 0;
    let mut rest = bytes;
    while let [byte, after @ ..] = rest {
        count += 1;
        if *byte == b'\n' || *byte == b'\r' {
            return count;
        }
        rest = after;
    }
    count
}

/// The first line of a text, with the character that ends it, and what follows.
pub fn split_line(text: &str) -> (&str, &str)
    requires { 0 < length text.now }
    ensures lines { Document.lines (chars text.now) ≡ chars result.0.now ∷ Document.lines (chars result.1.now) }
    ensures line { 0 < length result.0.now }
    ensures rest { length result.0.now + length result.1.now ≡ length text.now }
{
    text.split_at(line_length(text.as_bytes()))
}

/// The number of the line after this one, by LF.
pub fn number_after(number: u64, line: &CharSlice<'_>) -> u64
    requires line { 0 < length line.now }
    requires number { number < 2 ^ 63 }
    ensures value { result ≡ Document.number_after number line.now }
    ensures bound { result ≤ number + 1 }
{
    match line.after(line.len() - 1).split_first() {
        Some(('\n', _)) => number + 1,
        _ => number,
    }
}
