//! The characters of a text, or of a part of it.
ghost use Rattle.std.specs.Prelude.{◌≡◌, ◌+◌, ◌<◌, ◌≤◌, ◌^◌, ◌∷◌, [], ◌==◌, MatchOption, length, take, drop, encode_utf8_all};
ghost use Rattle.std.specs.Str.{chars};

use std::marker::Model;

/// The characters of a text, or of a part of it, which lie in the text itself, and how many there
/// are. Where they are as many as the bytes, each is one byte. Contracts see the list of them.
#[derive(Debug, Drop)]
pub struct CharSlice<'a> {
    text: &'a str,
    count: usize,
}

impl<'a> Model for CharSlice<'a> {
    ghost use Rattle.std.specs.Prelude.{List, ℕ};
    ghost use Rattle.std.specs.Str.{chars};
    ghost use Rattle.rdf_lexical.specs.Slices.{IsHeld};

    ghost Value = { List ℕ };

    ghost view = { λ s. chars s.text.now };

    ghost invariant = { λ s. IsHeld s.text.now s.count };
}

// How many characters a text has.
fn char_count(text: &str) -> usize
    ensures { result ≡ length (chars text.now) }
{
    if text.is_ascii() {
        text.len()
    } else {
        text.chars().count()
    }
}

// How many bytes so many of the first characters of a text have.
fn front_length(text: &str, count: usize) -> usize
    requires { count ≤ length (chars text.now) }
    ensures { result ≡ length (encode_utf8_all (take count (chars text.now))) }
{
    let mut rest = text.chars();
    let mut left = count;
    while left > 0 {
        rest.next();
        left -= 1;
    }
    text.len() - rest.as_str().len()
}

impl<'a> CharSlice<'a> {
    /// The characters of a text.
    pub fn of_text(text: &'a str) -> CharSlice<'a>
        ensures { result ≡ chars text.now }
    {
        CharSlice {
            text,
            count: char_count(text),
        }
    }

    /// These characters, once more.
    #[inline]
    pub fn whole(&self) -> CharSlice<'a>
        ensures value { result ≡ self.now }
        ensures size { length self.now < 2 ^ 63 }
    {
        CharSlice {
            text: self.text,
            count: self.count,
        }
    }

    /// The text that the characters are.
    #[inline]
    pub fn as_text(&self) -> &'a str
        ensures { result.now ≡ encode_utf8_all self.now }
    {
        self.text
    }

    /// How many characters there are.
    #[inline]
    pub fn len(&self) -> usize
        ensures value { result ≡ length self.now }
        ensures size { result < 2 ^ 63 }
    {
        self.count
    }

    #[inline]
    pub fn is_empty(&self) -> bool
        ensures { result ≡ (length self.now == 0) }
    {
        self.len() == 0
    }

    // The first character, by as many bytes as it has, and the others.
    fn split_decoded(&self) -> Option<(char, CharSlice<'a>)>
        ensures { MatchOption result (self.now ≡ []) (λ parts. self.now ≡ parts.0 ∷ parts.1) }
    {
        let mut characters = self.text.chars();
        match characters.next() {
            Some(first) => Some((
                first,
                CharSlice {
                    text: characters.as_str(),
                    count: self.count - 1,
                },
            )),
            None => None,
        }
    }

    /// The first character, and the others.
    #[inline]
    pub fn split_first(&self) -> Option<(char, CharSlice<'a>)>
        ensures { MatchOption result (self.now ≡ []) (λ parts. self.now ≡ parts.0 ∷ parts.1) }
    {
        match self.text.as_bytes() {
            [byte, ..] => {
                if *byte >= 128 {
                    return self.split_decoded();
                }
                let rest = CharSlice {
                    text: &self.text[1..],
                    count: self.count - 1,
                };
                Some((*byte as char, rest))
            }
            [] => None,
        }
    }

    /// The first so many characters, which have so many bytes, and the others. It goes over none of them.
    #[inline]
    pub fn split_at_byte(&self, count: usize, bytes: usize) -> (CharSlice<'a>, CharSlice<'a>)
        requires count { count ≤ length self.now }
        requires bytes { bytes ≡ length (encode_utf8_all (take count self.now)) }
        ensures front { result.0 ≡ take count self.now }
        ensures back { result.1 ≡ drop count self.now }
        ensures size { length (encode_utf8_all self.now) < 2 ^ 63 }
    {
        let (front, back) = self.text.split_at(bytes);
        (
            CharSlice { text: front, count },
            CharSlice {
                text: back,
                count: self.count - count,
            },
        )
    }

    // How many bytes so many of the first characters have.
    #[inline]
    fn bytes_before(&self, count: usize) -> usize
        requires { count ≤ length self.now }
        ensures { result ≡ length (encode_utf8_all (take count self.now)) }
    {
        if self.count == self.text.len() {
            count
        } else {
            front_length(self.text, count)
        }
    }

    /// The first so many characters, and the others.
    #[inline]
    pub fn split_at(&self, count: usize) -> (CharSlice<'a>, CharSlice<'a>)
        requires { count ≤ length self.now }
        ensures front { result.0 ≡ take count self.now }
        ensures back { result.1 ≡ drop count self.now }
        ensures count { length result.1 + count ≡ length self.now }
        ensures size { length self.now < 2 ^ 63 }
    {
        self.split_at_byte(count, self.bytes_before(count))
    }

    /// The characters after so many.
    #[inline]
    pub fn after(&self, count: usize) -> CharSlice<'a>
        requires { count ≤ length self.now }
        ensures value { result ≡ drop count self.now }
        ensures count { length result + count ≡ length self.now }
        ensures size { length self.now < 2 ^ 63 }
    {
        let (_, rest) = self.split_at(count);
        rest
    }

    /// The characters after so many, none where there are fewer.
    #[inline]
    pub fn behind(&self, count: usize) -> CharSlice<'a>
        ensures value { result ≡ drop count self.now }
        ensures bound { length result ≤ length self.now }
    {
        if count < self.len() {
            self.after(count)
        } else {
            CharSlice { text: "", count: 0 }
        }
    }

    /// So many of the first characters, all where there are fewer.
    #[inline]
    pub fn front(&self, count: usize) -> CharSlice<'a>
        ensures { result ≡ take count self.now }
    {
        if count < self.len() {
            let (text, _) = self.split_at(count);
            text
        } else {
            self.whole()
        }
    }
}
