//! The values of single properties of a shape.
ghost use Rattle.std.specs.Prelude.{◌≡◌, ◌↔◌, ℕ, Some, IsTrue, IfOk, MatchOption};
ghost use Rattle.std.specs.List.{Contains};
ghost use Rattle.collections.specs.Listings.{IsListing};
ghost use Rattle.rdf_model.specs.declared.term.Term.{Term as TermData};
ghost use Rattle.rdf_model.specs.Terms.{term_cmp};
ghost use Rattle.shape_properties.specs.declared.property.ShapeProperty.TheVariants as properties;
ghost use Rattle.shape_properties.specs.Syntax.{HasProperty};
ghost use Rattle.shape_syntax.specs.Gathering.{Gives};
ghost use Rattle.shape_reader.specs.Parts.{AreProperties, HasPlace, HasSibling, IsIgnored, IsOff, IsValue};

use crate::place::{place_of, places_among};
use crate::shape_node::ShapeNode;
use collections::{Sequence, sorted_once};
use rdf_model::{Term, Triple};
use shape_model::is_true;
use shape_properties::ShapeProperty;
use shape_references::push_siblings;
use shape_syntax::lookup::values;
use std::alloc::{AllocError, Global};

/// A value of the property at the node, if there is one.
pub(crate) fn value_of<'a>(shape: &ShapeNode<'a>, property: ShapeProperty) -> Option<&'a Term>
    ensures { MatchOption result ((v : TermData) → HasProperty shape.now.graph shape.now.node property v → ⊥)
        (λ value. HasProperty shape.now.graph shape.now.node property value.now) }
{
    match values(shape.own(), shape.node(), property.iri()).first() {
        Some(triple) => Some(&triple.object),
        None => None,
    }
}

/// A value of the property at the node, as a term of its own.
pub(crate) fn copied_value(
    shape: &ShapeNode,
    property: ShapeProperty,
) -> Result<Option<Term>, AllocError>
    ensures { IfOk result (λ found. IsValue shape.now.graph shape.now.node property found) }
{
    match value_of(shape, property) {
        Some(value) => Ok(Some(value.clone()?)),
        None => Ok(None),
    }
}

// The objects of the triples.
fn objects_of(alloc: Global, triples: &[Triple]) -> Result<Sequence<Term>, AllocError>
    ensures { IfOk result (λ objects. (v : TermData) → Contains objects v ↔ Gives (λ t o. t.object ≡ o) triples.now v) }
{
    let mut objects = Sequence::new(alloc);
    for triple in triples {
        objects.push(triple.object.clone()?)?;
    }
    Ok(objects)
}

// The values of the property at the node.
fn all_values(shape: &ShapeNode, property: ShapeProperty) -> Result<Sequence<Term>, AllocError>
    ensures { IfOk result (λ found. (v : TermData) → Contains found v ↔ HasProperty shape.now.graph shape.now.node property v) }
{
    let triples = values(shape.own(), shape.node(), property.iri());
    let found = objects_of(shape.alloc(), triples)?;
    Ok(found)
}

/// The values of the property at the node, each once and in the order of terms.
pub(crate) fn values_once(
    shape: &ShapeNode,
    property: ShapeProperty,
) -> Result<Sequence<Term>, AllocError>
    ensures { IfOk result (λ found. IsListing term_cmp (HasProperty shape.now.graph shape.now.node property) found) }
{
    let found = all_values(shape, property)?;
    let sorted = sorted_once(found.into_vec())?;
    Ok(Sequence::from_vec(sorted))
}

/// The places among the nodes of the values of sh:property, in order (SHACL section 4.7.2).
pub(crate) fn properties_of(shape: &ShapeNode) -> Result<Sequence<usize>, AllocError>
    ensures { IfOk result (λ places. AreProperties shape.now.graph shape.now.nodes shape.now.node places) }
{
    let found = values_once(shape, ShapeProperty::Property)?;
    let places = places_among(shape, found.as_slice())?;
    Ok(places)
}

/// The places among the nodes of the shape's siblings (SHACL section 4.7.3).
pub(crate) fn siblings_of(shape: &ShapeNode) -> Result<Sequence<usize>, AllocError>
    ensures { IfOk result (λ places. (k : ℕ) → Contains places k ↔ HasSibling shape.now.graph shape.now.nodes shape.now.node k) }
{
    let mut found = Sequence::new(shape.alloc());
    push_siblings(shape.graph(), shape.reversed(), shape.node(), &mut found)?;
    let places = places_among(shape, found.as_slice())?;
    Ok(places)
}

/// The place among the nodes of the shape's sh:qualifiedValueShape (SHACL section 4.7.3).
pub(crate) fn qualified_of(shape: &ShapeNode) -> Option<usize>
    ensures { (k : ℕ) → (result ≡ Some k) ↔ HasPlace shape.now.graph shape.now.nodes shape.now.node properties.QualifiedValueShape k }
{
    shape.recall();
    match value_of(shape, ShapeProperty::QualifiedValueShape) {
        Some(value) => place_of(shape, value),
        None => None,
    }
}

/// The terms that the shape ignores where it is closed (SHACL section 4.8.1).
pub(crate) fn ignored_of(shape: &ShapeNode) -> Result<Sequence<Term>, AllocError>
    ensures { IfOk result (λ ignored. (t : TermData) → Contains ignored t ↔ IsIgnored shape.now.graph shape.now.node t) }
{
    shape.recall();
    let Some(head) = value_of(shape, ShapeProperty::IgnoredProperties) else {
        return Ok(Sequence::new(shape.alloc()));
    };
    match shape.members(head)? {
        Some(members) => Ok(members),
        None => Ok(Sequence::new(shape.alloc())),
    }
}

/// Whether the sh:deactivated of the shape is true (SHACL section 2.1.6).
pub(crate) fn is_deactivated(shape: &ShapeNode) -> bool
    ensures { IsTrue result ↔ IsOff shape.now.graph shape.now.node }
{
    shape.recall();
    match value_of(shape, ShapeProperty::Deactivated) {
        Some(value) => is_true(value),
        None => false,
    }
}
