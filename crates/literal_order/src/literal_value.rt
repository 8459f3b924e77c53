//! What the lexical form of a literal can stand for.
ghost use Rattle.std.specs.Prelude.{◌≡◌};
ghost use Rattle.literal_order.specs.Values;

use std::marker::Model;

/// A text that lies in the literal. Contracts see it as its UTF-8 bytes.
#[derive(Debug, Drop)]
pub struct Characters<'a> {
    text: &'a str,
}

impl<'a> Model for Characters<'a> {
    ghost use Rattle.std.specs.Prelude.{List, ℕ};

    ghost Value = { List ℕ };

    ghost view = { λ c. c.text.now };
}

impl<'a> Characters<'a> {
    /// These characters.
    pub fn new(text: &'a str) -> Characters<'a>
        ensures { result ≡ text.now }
    {
        Characters { text }
    }

    /// The text itself.
    pub fn as_str(&self) -> &'a str
        ensures { result.now ≡ self.now }
    {
        self.text
    }
}

/// A moment on the time line, in the proleptic Gregorian calendar (XSD 1.1 Part 2, section 3.3.7).
#[derive(Debug, Clone, Copy)]
pub struct Instant {
    /// Whole seconds from the start of 1 January of the year 0.
    pub seconds: u64,
    /// Nanoseconds past the second, below 1,000,000,000.
    pub nanoseconds: u32,
    /// Whether the form had an offset. Without one the seconds are local ones.
    pub has_offset: bool,
}

/// The value of a well-typed literal.
#[derive(Debug, Drop)]
pub enum LiteralValue<'a> {
    /// A decimal or integer in units of 10^-18.
    Number(i128),
    Text(Characters<'a>),
    Boolean(bool),
    DateTime(Instant),
    /// The first instant of a date.
    Date(Instant),
}

/// What a term is as a typed literal.
#[derive(Debug, Drop)]
pub enum Lexical<'a> {
    /// No literal, one of a datatype that has no values here, or one that `profile` refuses.
    NotTyped,
    /// The lexical form is none of its datatype's.
    IllTyped,
    Value(LiteralValue<'a>),
}

/// Why the profile has no place for a literal.
#[derive(Debug, Clone, Copy)]
pub enum ProfileRefusal {
    FloatingPoint,
    TooManyDigits,
    YearOutOfRange,
    NoLanguageTag,
}

impl ProfileRefusal {
    /// The number of this kind of refusal.
    pub fn kind(self) -> u8
        ensures { result ≡ Values.kind_of self }
    {
        match self {
            ProfileRefusal::FloatingPoint => 7,
            ProfileRefusal::TooManyDigits => 8,
            ProfileRefusal::YearOutOfRange => 9,
            ProfileRefusal::NoLanguageTag => 10,
        }
    }
}

/// All that reading a literal tells.
#[derive(Debug, Drop)]
pub enum LiteralReading<'a> {
    NotTyped,
    IllTyped,
    Refused(ProfileRefusal),
    Value(LiteralValue<'a>),
}
