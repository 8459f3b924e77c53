//! Shapes by their places in the ascending list of their nodes.
ghost use Rattle.std.specs.Prelude.{◌≡◌, ◌⊎◌, ◌↔◌, ◌++◌, ◌∷◌, [], ℕ, List, Some, IfOk, OnOk};
ghost use Rattle.std.specs.List.{Contains};
ghost use Rattle.std.specs.Ordering.{nat_cmp};
ghost use Rattle.collections.specs.Ordered.{IsAscending};
ghost use Rattle.rdf_model.specs.Terms.{term_cmp};
ghost use Rattle.shape_reader.specs.Parts.{ArePlaces, IsPlace};
ghost use Rattle.shape_syntax.specs.Gathering.{Gives};

use crate::shape_node::ShapeNode;
use collections::Sequence;
use rdf_model::Term;
use std::alloc::AllocError;

/// The place of the term, if it is one of the nodes that are shapes.
pub(crate) fn place_of(shape: &ShapeNode, term: &Term) -> Option<usize>
    ensures { (n : ℕ) → (result ≡ Some n) ↔ IsPlace shape.now.nodes n term.now }
{
    shape.recall();
    match shape.nodes().binary_search(term) {
        Ok(place) => Some(place),
        Err(_) => None,
    }
}

/// The places of the terms in turn, if all are such nodes.
pub(crate) fn places_of(
    shape: &ShapeNode,
    terms: &[Term],
) -> Result<Option<Sequence<usize>>, AllocError>
    ensures { IfOk result (λ found. (places : List ℕ) → (found ≡ Some places) ↔ ArePlaces shape.now.nodes places terms.now) }
{
    shape.recall();
    let mut places = Sequence::new(shape.alloc());
    for term in terms {
        let Some(place) = place_of(shape, term) else {
            return Ok(None);
        };
        places.push(place)?;
    }
    Ok(Some(places))
}

// Adds the place of the term, if it is one of the nodes.
fn push_place(
    shape: &ShapeNode,
    term: &Term,
    places: &mut Sequence<usize>,
) -> Result<(), AllocError>
    ensures found { OnOk result ((n : ℕ) → Contains places.new n ↔ (Contains places.old n ⊎ IsPlace shape.now.nodes n term.now)) }
    ensures by { OnOk result ((places.new ≡ places.old) ⊎ ((n : ℕ) × IsPlace shape.now.nodes n term.now × (places.new ≡ places.old ++ n ∷ []))) }
{
    match place_of(shape, term) {
        Some(place) => {
            places.push(place)?;
            Ok(())
        }
        None => Ok(()),
    }
}

/// The places of those terms that are nodes, in the order of the terms.
pub(crate) fn places_among(shape: &ShapeNode, terms: &[Term]) -> Result<Sequence<usize>, AllocError>
    ensures found { IfOk result (λ places. (n : ℕ) → Contains places n ↔ Gives (λ t k. IsPlace shape.now.nodes k t) terms.now n) }
    ensures rising { IfOk result (λ places. IsAscending term_cmp terms.now → IsAscending nat_cmp places) }
{
    shape.recall();
    let mut places = Sequence::new(shape.alloc());
    for term in terms {
        push_place(shape, term, &mut places)?;
    }
    Ok(places)
}
