//! The siblings of a property shape (SHACL section 4.7.3).
ghost use Rattle.std.specs.Prelude.{◌≡◌, ◌⊎◌, ◌↔◌, IsTrue, IfOk, OnOk, MatchOption, length};
ghost use Rattle.std.specs.List.{Contains};
ghost use Rattle.collections.specs.Listings.{IsListing};
ghost use Rattle.collections.specs.Ordered.{IsAscending};
ghost use Rattle.rdf_model.specs.declared.term.Term.{Term as TermData};
ghost use Rattle.rdf_model.specs.declared.triple.Triple.{Triple as TripleData};
ghost use Rattle.rdf_model.specs.Terms.{term_cmp, triple_cmp};
ghost use Rattle.shape_model.specs.Vocabulary.{ShPath, ShProperty, ShQualifiedValueShape, ShQualifiedValueShapesDisjoint, property_iri, true_literal};
ghost use Rattle.shape_model.specs.ShapeSyntax.{HasProperty};
ghost use Rattle.shape_model.specs.Readings.{Sibling};
ghost use Rattle.shape_syntax.specs.Gathering.{Gives};
ghost use Rattle.shape_references.specs.Bundles.{IsBound};
ghost use Rattle.shape_references.specs.Siblings.{AreUnder, AreValues, HasOneParent, IsBeside, IsDisjointUnder, IsForeign, IsOfOther, IsOnlyParent, IsQualifiedUnder, IsReversed, IsReverseOf, IsUnder, MayHaveSiblings};

use crate::Bundle;
use collections::{Sequence, sorted_once};
use rdf_model::{Term, Triple};
use shape_model::is_true;
use shape_syntax::IndexedGraph;
use shape_syntax::lookup::{values, values_of};
use shape_syntax::terms::{is_named, is_same};
use std::alloc::{AllocError, Global};
use vocabulary::{
    SH_PATH, SH_PROPERTY, SH_QUALIFIED_VALUE_SHAPE, SH_QUALIFIED_VALUE_SHAPES_DISJOINT,
};

#[tactic(auto, unfolding(shape_model::specs::Vocabulary::sh))]
fn properties<'a>(graph: &IndexedGraph<'a>, node: &Term) -> &'a [Triple]
    requires { IsAscending triple_cmp graph.now }
    ensures { AreValues graph.now node.now ShProperty result.now }
{
    values_of(graph, node, SH_PROPERTY)
}

// The triples with the node's property shapes, by binary search.
#[tactic(auto, unfolding(shape_model::specs::Vocabulary::sh))]
fn properties_in<'a>(triples: &'a [Triple], node: &Term) -> &'a [Triple]
    requires { IsAscending triple_cmp triples.now }
    ensures { AreValues triples.now node.now ShProperty result.now }
{
    values(triples, node, SH_PROPERTY)
}

#[tactic(auto, unfolding(shape_model::specs::Vocabulary::sh))]
fn qualified_shapes<'a>(graph: &IndexedGraph<'a>, node: &Term) -> &'a [Triple]
    requires { IsAscending triple_cmp graph.now }
    ensures { AreValues graph.now node.now ShQualifiedValueShape result.now }
{
    values_of(graph, node, SH_QUALIFIED_VALUE_SHAPE)
}

#[tactic(auto, unfolding(shape_model::specs::Vocabulary::sh))]
fn disjointness<'a>(graph: &IndexedGraph<'a>, node: &Term) -> &'a [Triple]
    requires { IsAscending triple_cmp graph.now }
    ensures { AreValues graph.now node.now ShQualifiedValueShapesDisjoint result.now }
{
    values_of(graph, node, SH_QUALIFIED_VALUE_SHAPES_DISJOINT)
}

#[tactic(auto, unfolding(shape_model::specs::Vocabulary::sh))]
fn paths<'a>(graph: &IndexedGraph<'a>, node: &Term) -> &'a [Triple]
    requires { IsAscending triple_cmp graph.now }
    ensures { AreValues graph.now node.now ShPath result.now }
{
    values_of(graph, node, SH_PATH)
}

// Whether the object of one of the triples is `true`.
fn one_is_true(found: &[Triple]) -> bool
    ensures { IsTrue result ↔ ((t : TripleData) × Contains found.now t × (t.object ≡ true_literal)) }
{
    for triple in found {
        if is_true(&triple.object) {
            return true;
        }
    }
    false
}

// Whether one of the triples has this object.
fn has_object(found: &[Triple], value: &Term) -> bool
    ensures { IsTrue result ↔ ((t : TripleData) × Contains found.now t × (t.object ≡ value.now)) }
{
    for triple in found {
        if is_same(&triple.object, value) {
            return true;
        }
    }
    false
}

fn has_path(graph: &IndexedGraph, shape: &Term) -> bool
    requires { IsAscending triple_cmp graph.now }
    ensures { IsTrue result ↔ ((n : TermData) × HasProperty graph.now shape.now ShPath n) }
{
    let found = paths(graph, shape);
    !found.is_empty()
}

fn is_disjoint(graph: &IndexedGraph, shape: &Term) -> bool
    requires { IsAscending triple_cmp graph.now }
    ensures { IsTrue result ↔ HasProperty graph.now shape.now ShQualifiedValueShapesDisjoint true_literal }
{
    one_is_true(disjointness(graph, shape))
}

fn may_have_siblings(graph: &IndexedGraph, shape: &Term) -> bool
    requires { IsAscending triple_cmp graph.now }
    ensures { IsTrue result ↔ MayHaveSiblings graph.now shape.now }
{
    has_path(graph, shape) && is_disjoint(graph, shape)
}

fn is_own(graph: &IndexedGraph, shape: &Term, value: &Term) -> bool
    requires { IsAscending triple_cmp graph.now }
    ensures { IsTrue result ↔ HasProperty graph.now shape.now ShQualifiedValueShape value.now }
{
    has_object(qualified_shapes(graph, shape), value)
}

fn push_foreign(
    graph: &IndexedGraph,
    shape: &Term,
    value: &Term,
    nodes: &mut Sequence<Term>,
) -> Result<(), AllocError>
    requires { IsAscending triple_cmp graph.now }
    ensures { OnOk result ((t : TermData) → Contains nodes.new t ↔ (Contains nodes.old t ⊎ ((value.now ≡ t) × IsForeign graph.now shape.now t))) }
{
    if is_own(graph, shape, value) {
        return Ok(());
    }
    nodes.push(value.clone()?)?;
    Ok(())
}

// Adds the qualified value shapes of the other.
fn push_of_other(
    graph: &IndexedGraph,
    shape: &Term,
    other: &Term,
    nodes: &mut Sequence<Term>,
) -> Result<(), AllocError>
    requires { IsAscending triple_cmp graph.now }
    ensures { OnOk result ((t : TermData) → Contains nodes.new t ↔ (Contains nodes.old t ⊎ IsOfOther graph.now shape.now other.now t)) }
{
    for triple in qualified_shapes(graph, other) {
        push_foreign(graph, shape, &triple.object, nodes)?;
    }
    Ok(())
}

// Adds those of all the sh:property values of the parent.
fn push_under(
    graph: &IndexedGraph,
    shape: &Term,
    parent: &Term,
    nodes: &mut Sequence<Term>,
) -> Result<(), AllocError>
    requires { IsAscending triple_cmp graph.now }
    ensures { OnOk result ((t : TermData) → Contains nodes.new t ↔ (Contains nodes.old t ⊎ IsUnder graph.now shape.now parent.now t)) }
{
    for triple in properties(graph, parent) {
        push_of_other(graph, shape, &triple.object, nodes)?;
    }
    Ok(())
}

// Adds those under all the shapes that have the shape as a sh:property.
fn push_beside(
    graph: &IndexedGraph,
    reversed: &[Triple],
    shape: &Term,
    nodes: &mut Sequence<Term>,
) -> Result<(), AllocError>
    requires graph { IsAscending triple_cmp graph.now }
    requires reversed { IsListing triple_cmp (IsReversed graph.now) reversed.now }
    ensures { OnOk result ((t : TermData) → Contains nodes.new t ↔ (Contains nodes.old t ⊎ IsBeside graph.now shape.now t)) }
{
    for triple in properties_in(reversed, shape) {
        push_under(graph, shape, &triple.object, nodes)?;
    }
    Ok(())
}

/// Adds the siblings of the shape. The graph's `reversed_properties` are given.
pub fn push_siblings(
    graph: &IndexedGraph,
    reversed: &[Triple],
    shape: &Term,
    nodes: &mut Sequence<Term>,
) -> Result<(), AllocError>
    requires graph { IsAscending triple_cmp graph.now }
    requires reversed { IsListing triple_cmp (IsReversed graph.now) reversed.now }
    ensures { OnOk result ((t : TermData) → Contains nodes.new t ↔ (Contains nodes.old t ⊎ Sibling graph.now shape.now t)) }
{
    if may_have_siblings(graph, shape) {
        push_beside(graph, reversed, shape, nodes)?;
        return Ok(());
    }
    Ok(())
}

// Adds the qualified value shapes of the property shape.
fn push_qualified(
    graph: &IndexedGraph,
    shape: &Term,
    nodes: &mut Sequence<Term>,
) -> Result<(), AllocError>
    requires { IsAscending triple_cmp graph.now }
    ensures { OnOk result ((t : TermData) → Contains nodes.new t ↔ (Contains nodes.old t ⊎ HasProperty graph.now shape.now ShQualifiedValueShape t)) }
{
    for triple in qualified_shapes(graph, shape) {
        nodes.push(triple.object.clone()?)?;
    }
    Ok(())
}

// Adds those of all the sh:property values of the parent.
fn push_all_qualified(
    graph: &IndexedGraph,
    parent: &Term,
    nodes: &mut Sequence<Term>,
) -> Result<(), AllocError>
    requires { IsAscending triple_cmp graph.now }
    ensures { OnOk result ((t : TermData) → Contains nodes.new t ↔ (Contains nodes.old t ⊎ IsQualifiedUnder graph.now parent.now t)) }
{
    for triple in properties(graph, parent) {
        push_qualified(graph, &triple.object, nodes)?;
    }
    Ok(())
}

// Adds the shape, if it may have siblings.
fn push_if_disjoint(
    graph: &IndexedGraph,
    shape: &Term,
    nodes: &mut Sequence<Term>,
) -> Result<(), AllocError>
    requires { IsAscending triple_cmp graph.now }
    ensures { OnOk result ((t : TermData) → Contains nodes.new t ↔ (Contains nodes.old t ⊎ ((shape.now ≡ t) × MayHaveSiblings graph.now t))) }
{
    if may_have_siblings(graph, shape) {
        nodes.push(shape.clone()?)?;
        return Ok(());
    }
    Ok(())
}

// Adds the sh:property values of the parent that may have siblings.
fn push_all_disjoint(
    graph: &IndexedGraph,
    parent: &Term,
    nodes: &mut Sequence<Term>,
) -> Result<(), AllocError>
    requires { IsAscending triple_cmp graph.now }
    ensures { OnOk result ((t : TermData) → Contains nodes.new t ↔ (Contains nodes.old t ⊎ IsDisjointUnder graph.now parent.now t)) }
{
    for triple in properties(graph, parent) {
        push_if_disjoint(graph, &triple.object, nodes)?;
    }
    Ok(())
}

/// Adds the references of those that may have siblings under the parent, to all qualified value shapes there: to their
/// siblings, and to their own.
pub fn push_sibling_bundle(
    alloc: Global,
    graph: &IndexedGraph,
    parent: &Term,
    bundles: &mut Sequence<Bundle>,
) -> Result<(), AllocError>
    requires { IsAscending triple_cmp graph.now }
    ensures { OnOk result ((a b : TermData) → IsBound bundles.new a b ↔ (IsBound bundles.old a b ⊎ AreUnder graph.now parent.now a b)) }
{
    let mut from = Sequence::new(alloc);
    push_all_disjoint(graph, parent, &mut from)?;
    if from.is_empty() {
        return Ok(());
    }
    let mut to = Sequence::new(alloc);
    push_all_qualified(graph, parent, &mut to)?;
    bundles.push(Bundle { from, to })?;
    Ok(())
}

/// The qualified value shapes of the sh:property values of the parent, each once and in order.
pub fn qualified_under(
    alloc: Global,
    graph: &IndexedGraph,
    parent: &Term,
) -> Result<Vec<Term>, AllocError>
    requires { IsAscending triple_cmp graph.now }
    ensures { IfOk result (λ found. IsListing term_cmp (IsQualifiedUnder graph.now parent.now) found.items) }
{
    let mut nodes = Sequence::new(alloc);
    push_all_qualified(graph, parent, &mut nodes)?;
    let sorted = sorted_once(nodes.into_vec())?;
    Ok(sorted)
}

/// Whether the parent has a sh:property that may have siblings. That isn't ensured: it saves time and no more.
pub fn may_share(graph: &IndexedGraph, parent: &Term) -> bool
    requires { IsAscending triple_cmp graph.now }
{
    for triple in properties(graph, parent) {
        if may_have_siblings(graph, &triple.object) {
            return true;
        }
    }
    false
}

// The triple, if there is just one.
fn only_of(found: &[Triple]) -> Option<&Triple>
    ensures { MatchOption result (Unit {0}) (λ t. (length found.now ≡ 1) × Contains found.now t.now) }
{
    if found.len() == 1 {
        return Some(&found[0]);
    }
    None
}

// The only shape that has the shape as a sh:property, if there is just one.
fn parent_of<'a>(graph: &IndexedGraph, reversed: &'a [Triple], shape: &Term) -> Option<&'a Term>
    requires graph { IsAscending triple_cmp graph.now }
    requires reversed { IsListing triple_cmp (IsReversed graph.now) reversed.now }
    ensures { MatchOption result (Unit {0}) (λ parent. HasOneParent graph.now shape.now parent.now) }
{
    match only_of(properties_in(reversed, shape)) {
        Some(triple) => Some(&triple.object),
        None => None,
    }
}

/// The only shape that has the shape as a sh:property, where the shape may have siblings. The graph's `reversed_properties` are given.
pub fn only_parent<'a>(
    graph: &IndexedGraph,
    reversed: &'a [Triple],
    shape: &Term,
) -> Option<&'a Term>
    requires graph { IsAscending triple_cmp graph.now }
    requires reversed { IsListing triple_cmp (IsReversed graph.now) reversed.now }
    ensures { MatchOption result (Unit {0}) (λ parent. IsOnlyParent graph.now shape.now parent.now) }
{
    if may_have_siblings(graph, shape) {
        return parent_of(graph, reversed, shape);
    }
    None
}

#[tactic(auto, unfolding(shape_model::specs::Vocabulary::sh))]
pub(crate) fn is_property(term: &Term) -> bool
    ensures { IsTrue result ↔ (term.now ≡ property_iri ShProperty) }
{
    is_named(term, SH_PROPERTY)
}

// The triple reversed.
fn reverse_of(triple: &Triple) -> Result<Triple, AllocError>
    ensures { IfOk result (λ reverse. reverse ≡ record { subject = triple.now.object; predicate = triple.now.predicate; object = triple.now.subject }) }
{
    Ok(Triple {
        subject: triple.object.clone()?,
        predicate: triple.predicate.clone()?,
        object: triple.subject.clone()?,
    })
}

fn push_reversed(triple: &Triple, reversed: &mut Sequence<Triple>) -> Result<(), AllocError>
    ensures { OnOk result ((t : TripleData) → Contains reversed.new t ↔ (Contains reversed.old t ⊎ IsReverseOf triple.now t)) }
{
    if is_property(&triple.predicate) {
        reversed.push(reverse_of(triple)?)?;
        return Ok(());
    }
    Ok(())
}

fn all_reversed(alloc: Global, graph: &[Triple]) -> Result<Sequence<Triple>, AllocError>
    ensures { IfOk result (λ reversed. (t : TripleData) → Contains reversed t ↔ Gives IsReverseOf graph.now t) }
{
    let mut reversed = Sequence::new(alloc);
    for triple in graph {
        push_reversed(triple, &mut reversed)?;
    }
    Ok(reversed)
}

/// The triples with sh:property, reversed and in order, so that the shapes that have a sh:property are found.
pub fn reversed_properties(alloc: Global, graph: &IndexedGraph) -> Result<Vec<Triple>, AllocError>
    ensures { IfOk result (λ reversed. IsListing triple_cmp (IsReversed graph.now) reversed.items) }
{
    let unsorted = all_reversed(alloc, graph.as_slice())?;
    let sorted = sorted_once(unsorted.into_vec())?;
    Ok(sorted)
}
