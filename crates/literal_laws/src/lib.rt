//! What holds of the lexical forms of literals, whatever the literals.
//!
//! The functions do nothing: each states a law, that what is read as well-formed is of the standard's
//! pattern, and all that is.
//!
//! Storey: laws.
#![tactic(auto)]

ghost use Rattle.literal_laws.specs.DateForms;

/// The well-formed literals of xsd:date are those of its pattern (XSD 1.1 Part 2, section 3.3.9.2).
pub fn dates_are_of_their_pattern()
    ensures { DateForms.DateForms }
{}

/// The well-formed literals of xsd:dateTime are those of its pattern (XSD 1.1 Part 2, section 3.3.7.2).
pub fn date_times_are_of_their_pattern()
    ensures { DateForms.DateTimeForms }
{}
