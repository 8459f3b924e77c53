//! Literals by their datatypes.
ghost use Rattle.std.specs.Prelude.{◌≡◌};
ghost use Rattle.literal_order.specs.Values;

use crate::datatype::{Datatype, datatype_of};
use crate::date_time::{date_reading, date_time_reading};
use crate::literal_value::{Characters, Lexical, LiteralReading, LiteralValue, ProfileRefusal};
use crate::numeral::{boolean_reading, decimal_reading, integer_reading};
use rdf_model::Term;

/// All that the lexical form and the datatype of a term tell.
#[tactic(auto, unfolding(crate::specs::Values::reading))]
pub fn reading(term: &Term) -> LiteralReading<'_>
    ensures { result ≡ Values.reading term.now }
{
    let Term::Literal {
        lexical,
        datatype,
        language,
    } = term
    else {
        return LiteralReading::NotTyped;
    };
    let text = lexical.as_str();
    match datatype_of(datatype.as_str()) {
        Datatype::String => LiteralReading::Value(LiteralValue::Text(Characters::new(text))),
        Datatype::Boolean => boolean_reading(text),
        Datatype::Decimal => decimal_reading(text.as_bytes()),
        Datatype::Integer(integer) => integer_reading(integer, text.as_bytes()),
        Datatype::DateTime => date_time_reading(text.as_bytes()),
        Datatype::Date => date_reading(text.as_bytes()),
        Datatype::Floating => LiteralReading::Refused(ProfileRefusal::FloatingPoint),
        Datatype::LangString if language.is_none() => LiteralReading::Refused(
            ProfileRefusal::NoLanguageTag,
        ),
        Datatype::LangString | Datatype::Other => LiteralReading::NotTyped,
    }
}

/// What a term is as a typed literal; a literal that `profile` refuses is not typed.
pub fn value(term: &Term) -> Lexical<'_>
    ensures { result ≡ Values.lexical term.now }
{
    match reading(term) {
        LiteralReading::Value(value) => Lexical::Value(value),
        LiteralReading::IllTyped => Lexical::IllTyped,
        LiteralReading::NotTyped | LiteralReading::Refused(_) => Lexical::NotTyped,
    }
}

/// The kind of refusal that a literal meets: 7 of xsd:float and xsd:double, 8 of a decimal or integer form with
/// more than 20 whole digits or 18 fraction digits and of a dateTime with more than 9, 9 of a dateTime or date
/// whose year isn't 0001 to 9999, 10 of rdf:langString without a language tag. Kind 8 comes before kind 9.
pub fn profile(term: &Term) -> Option<u8>
    ensures { result ≡ Values.profile term.now }
{
    match reading(term) {
        LiteralReading::Refused(refusal) => Some(refusal.kind()),
        _ => None,
    }
}
