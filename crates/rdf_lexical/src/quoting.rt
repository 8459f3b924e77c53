//! The four forms of strings.
ghost use Rattle.std.specs.Prelude.{◌≡◌};
ghost use Rattle.rdf_lexical.specs.Quoting.{quotes_length};

/// The productions of strings (Turtle section 6.5), by what stands before and after the text.
#[derive(Clone, Copy, Debug, PartialEq, Eq)]
pub enum Quotes {
    /// STRING_LITERAL_QUOTE.
    Double,
    /// STRING_LITERAL_SINGLE_QUOTE.
    Single,
    /// STRING_LITERAL_LONG_QUOTE.
    LongDouble,
    /// STRING_LITERAL_LONG_SINGLE_QUOTE.
    LongSingle,
}

impl Quotes {
    /// How many quotes stand before the text, and after it.
    pub fn length(self) -> usize
        ensures { result ≡ quotes_length self }
    {
        match self {
            Quotes::Double | Quotes::Single => 1,
            Quotes::LongDouble | Quotes::LongSingle => 3,
        }
    }
}
