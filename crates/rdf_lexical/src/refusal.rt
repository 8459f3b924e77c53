//! Why a text is refused, or was not read.
ghost use Rattle.std.specs.Prelude.{◌≡◌};
ghost use Rattle.rdf_lexical.specs.Refusals.{number_of, kind_of_literal};

use std::alloc::AllocError;

/// Why a text of N-Triples or Turtle is refused. Reading goes from left to right, and the first
/// refusal counts.
#[derive(Clone, Copy, Debug, PartialEq, Eq)]
pub enum RefusalKind {
    /// Its bytes are no UTF-8.
    NotUtf8,
    /// No token starts here, or an IRIREF or a string meets a character that it may not hold.
    NoToken,
    /// The grammar doesn't allow this token here.
    UnexpectedToken,
    /// The prefix of a name isn't declared (Turtle alone).
    UndeclaredPrefix,
    /// An IRI has no scheme, and there is no base.
    RelativeIri,
    /// In an IRIREF or a string a backslash begins no escape, or the escape stands for what is no
    /// character or may not stand there.
    BadEscape,
    /// A literal of xsd:float or xsd:double.
    FloatingPoint,
    /// A literal of more than 20 whole digits or 18 of a fraction, or of more than 9 of a second.
    TooManyDigits,
    /// A dateTime or a date whose year isn't 0001 to 9999.
    YearOutOfRange,
    /// rdf:langString is written as a datatype.
    LanguageString,
    /// More than 256 brackets and parentheses are open (Turtle alone).
    TooDeep,
    /// A blank node label that is no label of the store, where those are asked for.
    NoStoreLabel,
    /// A blank node label, or in Turtle a bracket, where a predicate may stand.
    BlankPredicate,
    /// The text ends within a token, an escape or a triple.
    UnexpectedEnd,
}

impl RefusalKind {
    /// The kind of a literal that isn't kept, by its number: 7 to 10.
    pub fn of_literal(number: u8) -> RefusalKind
        ensures { result ≡ kind_of_literal number }
    {
        match number {
            7 => RefusalKind::FloatingPoint,
            8 => RefusalKind::TooManyDigits,
            9 => RefusalKind::YearOutOfRange,
            _ => RefusalKind::LanguageString,
        }
    }

    /// The number by which a kind is known, 1 to 14.
    pub fn number(self) -> u8
        ensures { result ≡ number_of self }
    {
        match self {
            RefusalKind::NotUtf8 => 1,
            RefusalKind::NoToken => 2,
            RefusalKind::UnexpectedToken => 3,
            RefusalKind::UndeclaredPrefix => 4,
            RefusalKind::RelativeIri => 5,
            RefusalKind::BadEscape => 6,
            RefusalKind::FloatingPoint => 7,
            RefusalKind::TooManyDigits => 8,
            RefusalKind::YearOutOfRange => 9,
            RefusalKind::LanguageString => 10,
            RefusalKind::TooDeep => 11,
            RefusalKind::NoStoreLabel => 12,
            RefusalKind::BlankPredicate => 13,
            RefusalKind::UnexpectedEnd => 14,
        }
    }
}

/// Why a text was not read.
#[derive(Clone, Copy, Debug, PartialEq, Eq)]
pub enum ReadFault {
    /// The refusal that counts, with the line of what is refused, from 1.
    Refusal { line: u64, kind: RefusalKind },
    Memory,
}

impl From<AllocError> for ReadFault {
    ghost use Rattle.rdf_lexical.specs.declared.refusal.ReadFault.TheVariants as faults;
    ghost use Rattle.std.specs.Prelude.{◌≡◌};

    ghost from_gives = { λ _ e. e ≡ faults.Memory };

    fn from(_error: AllocError) -> Self {
        ReadFault::Memory
    }
}
