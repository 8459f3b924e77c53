// Sums of totals, as far as they are counted.
ghost use Rattle.std.specs.Prelude.{◌≡◌, ◌<◌, ◌+◌, ◌^◌, MatchOption};
ghost use Rattle.reference_totals.specs.Totals.{capped, entry};
ghost use Rattle.reference_totals.specs.Rounds.{LacksOne, Shows, total_in};

use crate::numbers::NumberedPlace;
use rdf_model::Term;
use std::collections::BTreeMap;

/// The sum of both, as far as it is counted: to one more than `most`.
pub fn capped_sum(first: u64, second: u64, most: u64) -> u64
    requires { most + 1 < 2 ^ 64 }
    ensures { result ≡ capped most (first + second) }
{
    let sum = first.saturating_add(second);
    if sum > most { most + 1 } else { sum }
}

/// The total of the node, if it has one.
pub fn total_of(table: &BTreeMap<Term, u64>, node: &Term) -> Option<u64>
    ensures { result ≡ entry table.now node.now }
{
    match table.get(node) {
        Some(total) => Some(*total),
        None => None,
    }
}

/// The total that is known of the node with the number, if it has a number.
pub(crate) fn total_at(known: &[Option<u64>], number: Option<usize>) -> Option<u64>
    ensures { result ≡ total_in known.now number }
{
    let Some(index) = number else {
        return None;
    };
    match known.get(index) {
        Some(total) => *total,
        None => None,
    }
}

/// The total of the place, if those of the nodes to which it refers are known.
pub(crate) fn shown_total(known: &[Option<u64>], place: &NumberedPlace, most: u64) -> Option<u64>
    requires { most + 1 < 2 ^ 64 }
    ensures { MatchOption result (LacksOne known.now place.now) (λ v. Shows most known.now place.now v) }
{
    let mut sum = capped_sum(place.own, 0, most);
    for number in place.to.as_slice() {
        let Some(total) = total_at(known, *number) else {
            return None;
        };
        sum = capped_sum(sum, total, most);
    }
    Some(sum)
}
