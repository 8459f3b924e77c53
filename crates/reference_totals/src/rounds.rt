// Places are asked for their totals in turn, and again, until no more are shown.
ghost use Rattle.std.specs.Prelude.{◌<◌, ◌+◌, ◌^◌, ℕ, IfOk, OnOk, length};
ghost use Rattle.std.specs.List.{Contains};
ghost use Rattle.reference_totals.specs.declared.numbers.NumberedPlace.{NumberedPlace as NumberedPlaceData};
ghost use Rattle.reference_totals.specs.Totals.{AreTotals};
ghost use Rattle.reference_totals.specs.Rounds.{AreSettled, AreWithin, NoneIsKnown, WasAsked, WereAsked};

use crate::WeightedPlace;
use crate::below::from_below;
use crate::numbers::{NumberedPlace, numbered_places, numbers_of};
use crate::sums::shown_total;
use crate::tables::table_of;
use collections::Sequence;
use rdf_model::Term;
use std::alloc::{AllocError, Global};
use std::collections::BTreeMap;

// Notes the total of the place at the index where it is shown, and else leaves it.
fn ask(
    places: &[NumberedPlace],
    most: u64,
    index: usize,
    known: &mut [Option<u64>],
    left: &mut Sequence<usize>,
) -> Result<(), AllocError>
    requires most { most + 1 < 2 ^ 64 }
    requires known { AreWithin places.now known.old }
    ensures { OnOk result (WasAsked places.now most index known.old known.new left.old left.new) }
{
    let Some(place) = places.get(index) else {
        return Ok(());
    };
    match shown_total(known, place, most) {
        Some(total) => {
            known[place.node] = Some(total);
            Ok(())
        }
        None => {
            left.push(index)?;
            Ok(())
        }
    }
}

// Asks each of the places, and gives those that are left.
fn ask_each(
    alloc: Global,
    places: &[NumberedPlace],
    most: u64,
    waiting: &[usize],
    known: &mut [Option<u64>],
) -> Result<Sequence<usize>, AllocError>
    requires most { most + 1 < 2 ^ 64 }
    requires known { AreWithin places.now known.old }
    ensures { IfOk result (λ left. WereAsked places.now most (length waiting.now) waiting.now known.old known.new left) }
{
    let mut left = Sequence::new(alloc);
    for index in waiting {
        ask(places, most, *index, known, &mut left)?;
    }
    Ok(left)
}

// Asks the places again until no more are shown.
fn ask_all(
    alloc: Global,
    places: &[NumberedPlace],
    most: u64,
    indices: Sequence<usize>,
    known: &mut [Option<u64>],
) -> Result<(), AllocError>
    requires most { most + 1 < 2 ^ 64 }
    requires indices { (i : ℕ) → i < length places.now → Contains indices i }
    requires known { AreWithin places.now known.old }
    requires none { NoneIsKnown known.old }
    ensures { OnOk result (AreSettled places.now most known.new) }
{
    let mut waiting = indices;
    loop {
        let left = ask_each(alloc, places, most, waiting.as_slice(), known)?;
        if left.len() == waiting.len() {
            return Ok(());
        }
        waiting = left;
    }
}

// Adds the numbers below the count.
fn push_numbers(count: usize, numbers: &mut Sequence<usize>) -> Result<(), AllocError>
    ensures { OnOk result ((i : ℕ) → i < count → Contains numbers.new i) }
{
    for number in 0..count {
        numbers.push(number)?;
    }
    Ok(())
}

// The totals that are shown, by the numbers of the nodes. Each place is asked behind those that it needs, so that one
// round shows all, and a second shows no more.
fn known_totals(
    alloc: Global,
    places: &[NumberedPlace],
    most: u64,
) -> Result<Vec<Option<u64>>, AllocError>
    requires most { most + 1 < 2 ^ 64 }
    requires places { (q : NumberedPlaceData) → Contains places.now q → q.node < length places.now }
    ensures { IfOk result (λ known. AreSettled places.now most known.items) }
{
    let mut indices = from_below(alloc, places)?;
    push_numbers(places.len(), &mut indices)?;
    let mut known = vec![in alloc; None; places.len()]?;
    ask_all(alloc, places, most, indices, known.as_mut_slice())?;
    Ok(known)
}

/// The total of each place that has one, by its node: the place's own weight, and the totals of the nodes to which it
/// refers, each as often as it refers to it. A total over `most` is given as one more than `most`. A place that leads to
/// itself, or to a node without a place, has none.
pub fn totals(
    alloc: Global,
    places: &[WeightedPlace],
    most: u64,
) -> Result<BTreeMap<Term, u64>, AllocError>
    requires { most + 1 < 2 ^ 64 }
    ensures { IfOk result (λ table. AreTotals places.now most table) }
{
    let numbers = numbers_of(alloc, places)?;
    let numbered = numbered_places(alloc, &numbers, places)?;
    let known = known_totals(alloc, numbered.as_slice(), most)?;
    let table = table_of(alloc, numbers, known.as_slice())?;
    Ok(table)
}
