// Whether two records are equal.
ghost use Rattle.std.specs.Prelude.{◌≡◌, ◌↔◌, IsTrue};

use collections::Sequence;
use rdf_model::Triple;
use record_text::Record;

fn are_same_triples(first: &[Triple], second: &[Triple]) -> bool
    ensures { IsTrue result ↔ (first.now ≡ second.now) }
{
    first == second
}

fn are_same_shapes(first: &Option<Sequence<Triple>>, second: &Option<Sequence<Triple>>) -> bool
    ensures { IsTrue result ↔ (first.now ≡ second.now) }
{
    match (first, second) {
        (Some(first), Some(second)) => are_same_triples(first.as_slice(), second.as_slice()),
        (None, None) => true,
        _ => false,
    }
}

/// Whether two records have the same number, and the same triples in the same order in each list.
pub(crate) fn are_same(first: &Record, second: &Record) -> bool
    ensures { IsTrue result ↔ (first.now ≡ second.now) }
{
    first.number == second.number
        && are_same_triples(first.removed.as_slice(), second.removed.as_slice())
        && are_same_triples(first.added.as_slice(), second.added.as_slice())
        && are_same_shapes(&first.shapes, &second.shapes)
}
