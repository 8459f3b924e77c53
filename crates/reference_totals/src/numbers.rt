// Numbers in place of nodes. The number of a node is the index of its first place.
ghost use Rattle.std.specs.Prelude.{◌≡◌, ℕ, Some, map, IfOk, OnOk};
ghost use Rattle.std.specs.List.{AllZip};
ghost use Rattle.reference_totals.specs.Totals.{entry};
ghost use Rattle.reference_totals.specs.Numbers.{AreIndices, HaveNumbers, IsNumbered, Notes};

use crate::WeightedPlace;
use collections::Sequence;
use rdf_model::Term;
use std::alloc::{AllocError, Global};
use std::collections::BTreeMap;

/// A place with numbers for its node and for those to which it refers. A node without a place has none.
pub(crate) struct NumberedPlace {
    pub node: usize,
    pub own: u64,
    pub to: Sequence<Option<usize>>,
}

impl Drop for NumberedPlace {
    fn drop(self) {
        let NumberedPlace {
            node: _,
            own: _,
            to: _,
        } = self;
    }
}

fn put_number(
    numbers: &mut BTreeMap<Term, usize>,
    node: &Term,
    number: usize,
) -> Result<(), AllocError>
    ensures { OnOk result (Notes numbers.old node.now number numbers.new) }
{
    let _ = numbers.insert(node.clone()?, number)?;
    Ok(())
}

/// The number of each node that has a place. The last place is the first to be put in: a map searches the keys of its
/// blocks from the first on, so that what is put in before all others is put in soonest, and most places ascend.
pub(crate) fn numbers_of(
    alloc: Global,
    places: &[WeightedPlace],
) -> Result<BTreeMap<Term, usize>, AllocError>
    ensures indices { IfOk result (λ numbers. AreIndices places.now numbers) }
    ensures all { IfOk result (λ numbers. HaveNumbers places.now numbers) }
{
    let mut numbers = BTreeMap::new(alloc);
    for count in 0..places.len() {
        let index = places.len() - 1 - count;
        put_number(&mut numbers, &places[index].node, index)?;
    }
    Ok(numbers)
}

fn number_of(numbers: &BTreeMap<Term, usize>, node: &Term) -> Option<usize>
    ensures { result ≡ entry numbers.now node.now }
{
    match numbers.get(node) {
        Some(number) => Some(*number),
        None => None,
    }
}

fn numbers_at(
    alloc: Global,
    numbers: &BTreeMap<Term, usize>,
    nodes: &[Term],
) -> Result<Sequence<Option<usize>>, AllocError>
    ensures { IfOk result (λ found. found ≡ map (entry numbers.now) nodes.now) }
{
    let mut found = Sequence::new(alloc);
    for node in nodes {
        found.push(number_of(numbers, node))?;
    }
    Ok(found)
}

fn numbered_place(
    alloc: Global,
    numbers: &BTreeMap<Term, usize>,
    place: &WeightedPlace,
) -> Result<NumberedPlace, AllocError>
    requires { (i : ℕ) × (entry numbers.now place.now.node ≡ Some i) }
    ensures { IfOk result (λ numbered. IsNumbered numbers.now place.now numbered) }
{
    let Some(node) = number_of(numbers, &place.node) else {
        unreachable!()
    };
    let to = numbers_at(alloc, numbers, place.to.as_slice())?;
    Ok(NumberedPlace {
        node,
        own: place.own,
        to,
    })
}

/// The places, with numbers in place of nodes.
pub(crate) fn numbered_places(
    alloc: Global,
    numbers: &BTreeMap<Term, usize>,
    places: &[WeightedPlace],
) -> Result<Sequence<NumberedPlace>, AllocError>
    requires { HaveNumbers places.now numbers.now }
    ensures { IfOk result (λ numbered. AllZip (IsNumbered numbers.now) places.now numbered) }
{
    let mut numbered = Sequence::new(alloc);
    for place in places {
        numbered.push(numbered_place(alloc, numbers, place)?)?;
    }
    Ok(numbered)
}
