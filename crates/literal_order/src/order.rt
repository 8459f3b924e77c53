//! The order of values (SPARQL 1.1, section 17.3).
ghost use Rattle.std.specs.Prelude.{◌≡◌};
ghost use Rattle.std.specs.Str.{chars};
ghost use Rattle.std.specs.Ordering.{nat_cmp};
ghost use Rattle.std.specs.Cmp.Lexicographic.{slice_cmp};
ghost use Rattle.literal_order.specs.Order;

use crate::literal_value::{Instant, Lexical, LiteralValue};
use crate::read::value;
use rdf_model::Term;
use std::cmp::Ordering;

/// The order of two texts by code points.
fn text_order(left: &str, right: &str) -> Ordering
    ensures { result ≡ slice_cmp nat_cmp (chars left.now) (chars right.now) }
{
    left.chars().cmp(right.chars())
}

/// The order of two instants, if both have an offset or neither has.
fn instant_order(left: &Instant, right: &Instant) -> Option<Ordering>
    ensures { result ≡ Order.instant_order left.now right.now }
{
    if left.has_offset != right.has_offset {
        return None;
    }
    Some(
        left.seconds
            .cmp(&right.seconds)
            .then(left.nanoseconds.cmp(&right.nanoseconds)),
    )
}

/// The order of two values of one kind.
fn value_order(left: &LiteralValue, right: &LiteralValue) -> Option<Ordering>
    ensures { result ≡ Order.value_order left.now right.now }
{
    match (left, right) {
        (LiteralValue::Number(left), LiteralValue::Number(right)) => Some(left.cmp(right)),
        (LiteralValue::Text(left), LiteralValue::Text(right)) => {
            Some(text_order(left.as_str(), right.as_str()))
        }
        (LiteralValue::Boolean(left), LiteralValue::Boolean(right)) => Some(left.cmp(right)),
        (LiteralValue::DateTime(left), LiteralValue::DateTime(right))
        | (LiteralValue::Date(left), LiteralValue::Date(right)) => instant_order(left, right),
        _ => None,
    }
}

/// The order of two literals' values.
fn order(left: &Term, right: &Term) -> Option<Ordering>
    ensures { result ≡ Order.order left.now right.now }
{
    match (value(left), value(right)) {
        (Lexical::Value(left), Lexical::Value(right)) => value_order(&left, &right),
        _ => None,
    }
}

/// Whether the first literal's value is below the second's; `None` where the two don't compare: two
/// numbers, strings, booleans, dateTimes or dates do, the last two if both have an offset or neither has.
pub fn less(left: &Term, right: &Term) -> Option<bool>
    ensures { result ≡ Order.less left.now right.now }
{
    Some(order(left, right)? == Ordering::Less)
}

/// Whether the first literal's value is below the second's or equal to it; `None` as of `less`.
pub fn less_or_equal(left: &Term, right: &Term) -> Option<bool>
    ensures { result ≡ Order.less_or_equal left.now right.now }
{
    Some(order(left, right)? != Ordering::Greater)
}
