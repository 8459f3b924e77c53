//! Counts that literals say.
ghost use Rattle.std.specs.Prelude.{◌≡◌, pos, int_lt};
ghost use Rattle.shape_model.specs.TermTests;

use literal_order::{Lexical, LiteralValue};
use rdf_model::Term;
use vocabulary::XSD_INTEGER;

// How literal values count: in units of 10^-18.
const UNIT: i128 = 1_000_000_000_000_000_000;

// The whole number that a value is.
fn number_in(value: &Lexical<'_>) -> Option<i128>
    ensures { result ≡ TermTests.number_in value.now }
{
    match value {
        Lexical::Value(LiteralValue::Number(number)) => Some(*number / UNIT),
        _ => None,
    }
}

/// The number that a literal of xsd:integer stands for, if the term is one and well-typed: a count
/// or a length of SHACL (sections 4.2, 4.4.1, 4.4.2 and 4.7.3).
#[tactic(auto, unfolding(crate::specs::TermTests::count_of, crate::specs::Vocabulary::xsd_integer))]
pub fn count_of(term: &Term) -> Option<i128>
    ensures { result ≡ TermTests.count_of term.now }
{
    match term {
        Term::Literal {
            datatype,
            language: None,
            ..
        } => {
            if datatype.as_str() == XSD_INTEGER {
                number_in(&literal_order::value(term))
            } else {
                None
            }
        }
        _ => None,
    }
}

/// Whether so many are fewer than the count.
pub fn is_fewer(number: usize, count: &i128) -> bool
    ensures { result ≡ int_lt (pos number) count.now }
{
    (number as i128) < *count
}

/// Whether so many are more than the count.
pub fn is_more(number: usize, count: &i128) -> bool
    ensures { result ≡ int_lt count.now (pos number) }
{
    *count < (number as i128)
}
