//! The shapes to which a shape refers, each as often as it counts (SHACL sections 3.4.3, 4.6 and 4.7).
ghost use Rattle.std.specs.Prelude.{◌≡◌, ◌⊎◌, ◌↔◌, ◌++◌, ◌∷◌, [], List, IsTrue, IfOk, OnOk, MatchOption};
ghost use Rattle.std.specs.List.{Contains};
ghost use Rattle.collections.specs.Listings.{IsListing};
ghost use Rattle.collections.specs.Ordered.{IsAscending};
ghost use Rattle.rdf_model.specs.declared.term.Term.{Term as TermData};
ghost use Rattle.rdf_model.specs.declared.triple.Triple.{Triple as TripleData};
ghost use Rattle.rdf_model.specs.Terms.{term_cmp, triple_cmp};
ghost use Rattle.shape_model.specs.Readings.{Sibling};
ghost use Rattle.shape_syntax.specs.Gathering.{HasGathered};
ghost use Rattle.shape_references.specs.Bundles.{IsName};
ghost use Rattle.shape_references.specs.Siblings.{IsOnlyParent, IsReversed};
ghost use Rattle.shape_properties.specs.declared.property.ShapeProperty.TheVariants as property_data;
ghost use Rattle.shape_sizes.specs.Counted.{AreCountedBy, HasAdded, HaveNames, IsReferredTo, IsStandIn, IsUnqualified};
ghost use Rattle.shape_properties.specs.Syntax.{HasProperty};
ghost use Rattle.shape_model.specs.Vocabulary.{true_literal};
ghost use Rattle.shape_sizes.specs.Sizes.{AreMembersAt, AreMembersOf, AreQualified, HasQualifiedCount, IsDeactivated};
ghost use Rattle.shape_sizes.specs.Sizes as sizes;

use collections::{Sequence, sorted_once};
use rdf_model::{Term, Triple};
use shape_model::is_true;
use shape_properties::ShapeProperty;
use shape_properties::values::property_values;
use shape_references::{name_in, only_parent, push_siblings};
use shape_syntax::IndexedGraph;
use shape_syntax::list::list_members;
use shape_syntax::lookup::triples_of;
use std::alloc::{AllocError, Global};

fn push_objects(triples: &[Triple], nodes: &mut Sequence<Term>) -> Result<(), AllocError>
    ensures { OnOk result (HasGathered (λ (t : TripleData) (v : TermData). t.object ≡ v) triples.now nodes.old nodes.new) }
{
    for triple in triples {
        nodes.push(triple.object.clone()?)?;
    }
    Ok(())
}

/// The values of the property at the node, each once and in order.
pub(crate) fn values_at(
    alloc: Global,
    graph: &[Triple],
    node: &Term,
    property: ShapeProperty,
) -> Result<Vec<Term>, AllocError>
    requires { IsAscending triple_cmp graph.now }
    ensures { IfOk result (λ found. found.items ≡ sizes.values graph.now node.now property) }
{
    let mut objects = Sequence::new(alloc);
    push_objects(property_values(graph, node, property), &mut objects)?;
    let sorted = sorted_once(objects.into_vec())?;
    Ok(sorted)
}

pub(crate) fn push_copies(terms: &[Term], nodes: &mut Sequence<Term>) -> Result<(), AllocError>
    ensures { OnOk result (nodes.new ≡ nodes.old ++ terms.now) }
{
    for term in terms {
        nodes.push(term.clone()?)?;
    }
    Ok(())
}

fn push_values(
    alloc: Global,
    graph: &[Triple],
    node: &Term,
    property: ShapeProperty,
    nodes: &mut Sequence<Term>,
) -> Result<(), AllocError>
    requires { IsAscending triple_cmp graph.now }
    ensures { OnOk result (nodes.new ≡ nodes.old ++ sizes.values graph.now node.now property) }
{
    let found = values_at(alloc, graph, node, property)?;
    push_copies(found.as_slice(), nodes)?;
    Ok(())
}

// The members of the list at the head, and none where it is the head of no list.
pub(crate) fn members_at(
    alloc: Global,
    graph: &IndexedGraph,
    head: &Term,
) -> Result<Sequence<Term>, AllocError>
    requires { IsAscending triple_cmp graph.now }
    ensures { IfOk result (λ members. AreMembersAt graph.now head.now members) }
{
    match list_members(alloc, graph, head)? {
        Some(members) => Ok(members),
        None => Ok(Sequence::new(alloc)),
    }
}

// Adds the members of the list at the head.
fn push_members_at(
    alloc: Global,
    graph: &IndexedGraph,
    head: &Term,
    nodes: &mut Sequence<Term>,
) -> Result<(), AllocError>
    requires { IsAscending triple_cmp graph.now }
    ensures { OnOk result (HasAdded (AreMembersAt graph.now head.now) nodes.old nodes.new) }
{
    let members = members_at(alloc, graph, head)?;
    push_copies(members.as_slice(), nodes)?;
    Ok(())
}

// Adds the members of the lists at all the heads.
fn push_members_of(
    alloc: Global,
    graph: &IndexedGraph,
    heads: &[Term],
    nodes: &mut Sequence<Term>,
) -> Result<(), AllocError>
    requires { IsAscending triple_cmp graph.now }
    ensures { OnOk result (HasAdded (AreMembersOf graph.now heads.now) nodes.old nodes.new) }
{
    for head in heads {
        push_members_at(alloc, graph, head, nodes)?;
    }
    Ok(())
}

// The lists of shapes of the node.
fn lists_at(alloc: Global, graph: &[Triple], node: &Term) -> Result<Sequence<Term>, AllocError>
    requires { IsAscending triple_cmp graph.now }
    ensures { IfOk result (λ heads. heads ≡ sizes.values graph.now node.now property_data.And
        ++ sizes.values graph.now node.now property_data.Or ++ sizes.values graph.now node.now property_data.Xone) }
{
    let mut heads = Sequence::new(alloc);
    push_values(alloc, graph, node, ShapeProperty::And, &mut heads)?;
    push_values(alloc, graph, node, ShapeProperty::Or, &mut heads)?;
    push_values(alloc, graph, node, ShapeProperty::Xone, &mut heads)?;
    Ok(heads)
}

fn has_value(graph: &[Triple], node: &Term, property: ShapeProperty) -> bool
    requires { IsAscending triple_cmp graph.now }
    ensures { IsTrue result ↔ ((v : TermData) × HasProperty graph.now node.now property v) }
{
    let found = property_values(graph, node, property);
    !found.is_empty()
}

fn has_qualified_count(graph: &[Triple], node: &Term) -> bool
    requires { IsAscending triple_cmp graph.now }
    ensures { IsTrue result ↔ HasQualifiedCount graph.now node.now }
{
    has_value(graph, node, ShapeProperty::QualifiedMinCount)
        || has_value(graph, node, ShapeProperty::QualifiedMaxCount)
}

fn siblings_of(
    alloc: Global,
    graph: &IndexedGraph,
    reversed: &[Triple],
    node: &Term,
) -> Result<Vec<Term>, AllocError>
    requires graph { IsAscending triple_cmp graph.now }
    requires reversed { IsListing triple_cmp (IsReversed graph.now) reversed.now }
    ensures { IfOk result (λ siblings. IsListing term_cmp (Sibling graph.now node.now) siblings.items) }
{
    let mut found = Sequence::new(alloc);
    push_siblings(graph, reversed, node, &mut found)?;
    let sorted = sorted_once(found.into_vec())?;
    Ok(sorted)
}

// Adds the qualified value shape and the siblings of the node, whose triples are given.
fn push_qualified(
    alloc: Global,
    graph: &IndexedGraph,
    reversed: &[Triple],
    own: &[Triple],
    node: &Term,
    nodes: &mut Sequence<Term>,
) -> Result<(), AllocError>
    requires graph { IsAscending triple_cmp graph.now }
    requires reversed { IsListing triple_cmp (IsReversed graph.now) reversed.now }
    requires own { IsAscending triple_cmp own.now }
    requires members { (t : TripleData) → Contains own.now t ↔ (Contains graph.now t × (t.subject ≡ node.now)) }
    ensures { OnOk result (HasAdded (AreQualified graph.now node.now) nodes.old nodes.new) }
{
    if has_qualified_count(own, node) {
        let siblings = siblings_of(alloc, graph, reversed, node)?;
        push_values(alloc, own, node, ShapeProperty::QualifiedValueShape, nodes)?;
        push_copies(siblings.as_slice(), nodes)?;
        return Ok(());
    }
    Ok(())
}

// The shapes that are values of a property of the node.
fn shapes_at(alloc: Global, graph: &[Triple], node: &Term) -> Result<Sequence<Term>, AllocError>
    requires { IsAscending triple_cmp graph.now }
    ensures { IfOk result (λ nodes. nodes ≡ sizes.values graph.now node.now property_data.Not
        ++ sizes.values graph.now node.now property_data.Node ++ sizes.values graph.now node.now property_data.Property) }
{
    let mut nodes = Sequence::new(alloc);
    push_values(alloc, graph, node, ShapeProperty::Not, &mut nodes)?;
    push_values(alloc, graph, node, ShapeProperty::Node, &mut nodes)?;
    push_values(alloc, graph, node, ShapeProperty::Property, &mut nodes)?;
    Ok(nodes)
}

// The shapes to which the node refers, but for its qualified value shape and its siblings. Its triples are given.
fn unqualified_shapes(
    alloc: Global,
    graph: &IndexedGraph,
    own: &[Triple],
    node: &Term,
) -> Result<Sequence<Term>, AllocError>
    requires graph { IsAscending triple_cmp graph.now }
    requires own { IsAscending triple_cmp own.now }
    requires members { (t : TripleData) → Contains own.now t ↔ (Contains graph.now t × (t.subject ≡ node.now)) }
    ensures { IfOk result (λ nodes. IsUnqualified graph.now node.now nodes) }
{
    let mut nodes = shapes_at(alloc, own, node)?;
    let heads = lists_at(alloc, own, node)?;
    push_members_of(alloc, graph, heads.as_slice(), &mut nodes)?;
    Ok(nodes)
}

// The shapes to which the node refers, whether it is deactivated or not. Its triples are given.
fn counted_shapes(
    alloc: Global,
    graph: &IndexedGraph,
    reversed: &[Triple],
    own: &[Triple],
    node: &Term,
) -> Result<Sequence<Term>, AllocError>
    requires graph { IsAscending triple_cmp graph.now }
    requires reversed { IsListing triple_cmp (IsReversed graph.now) reversed.now }
    requires own { IsAscending triple_cmp own.now }
    requires members { (t : TripleData) → Contains own.now t ↔ (Contains graph.now t × (t.subject ≡ node.now)) }
    ensures { IfOk result (λ nodes. sizes.AreCounted graph.now node.now nodes) }
{
    let mut nodes = unqualified_shapes(alloc, graph, own, node)?;
    push_qualified(alloc, graph, reversed, own, node, &mut nodes)?;
    Ok(nodes)
}

// The shapes that count at the node, with the name that stands for the qualified value shape and the siblings.
fn counted_by(
    alloc: Global,
    graph: &IndexedGraph,
    own: &[Triple],
    node: &Term,
    name: Term,
) -> Result<Sequence<Term>, AllocError>
    requires graph { IsAscending triple_cmp graph.now }
    requires own { IsAscending triple_cmp own.now }
    requires members { (t : TripleData) → Contains own.now t ↔ (Contains graph.now t × (t.subject ≡ node.now)) }
    ensures { IfOk result (λ nodes. (ms : List TermData) × IsUnqualified graph.now node.now ms × (nodes ≡ ms ++ name ∷ [])) }
{
    let mut nodes = unqualified_shapes(alloc, graph, own, node)?;
    nodes.push(name)?;
    Ok(nodes)
}

// The name of the only parent of the node, where it may have siblings and is one of the parents.
fn parent_name(
    graph: &IndexedGraph,
    reversed: &[Triple],
    parents: &[Term],
    node: &Term,
) -> Result<Option<Term>, AllocError>
    requires graph { IsAscending triple_cmp graph.now }
    requires reversed { IsListing triple_cmp (IsReversed graph.now) reversed.now }
    requires parents { HaveNames graph.now parents.now }
    ensures { IfOk result (λ found. MatchOption found (Unit {0}) (λ x. (p : TermData) × IsName parents.now p x × IsOnlyParent graph.now node.now p)) }
{
    match only_parent(graph, reversed, node) {
        Some(parent) => {
            let name = name_in(parents, parent)?;
            Ok(name)
        }
        None => Ok(None),
    }
}

// The name that stands for the qualified value shape and the siblings of the node, whose triples are given.
fn stand_in_of(
    graph: &IndexedGraph,
    reversed: &[Triple],
    parents: &[Term],
    own: &[Triple],
    node: &Term,
) -> Result<Option<Term>, AllocError>
    requires graph { IsAscending triple_cmp graph.now }
    requires reversed { IsListing triple_cmp (IsReversed graph.now) reversed.now }
    requires parents { HaveNames graph.now parents.now }
    requires own { IsAscending triple_cmp own.now }
    requires members { (t : TripleData) → Contains own.now t ↔ (Contains graph.now t × (t.subject ≡ node.now)) }
    ensures { IfOk result (λ found. MatchOption found (Unit {0}) (λ x. IsStandIn graph.now parents.now node.now x)) }
{
    if has_qualified_count(own, node) {
        let name = parent_name(graph, reversed, parents, node)?;
        return Ok(name);
    }
    Ok(None)
}

// The shapes to which the node refers, or a name that stands for some of them. Its triples are given.
fn shapes_or_name(
    alloc: Global,
    graph: &IndexedGraph,
    reversed: &[Triple],
    parents: &[Term],
    own: &[Triple],
    node: &Term,
) -> Result<Sequence<Term>, AllocError>
    requires graph { IsAscending triple_cmp graph.now }
    requires reversed { IsListing triple_cmp (IsReversed graph.now) reversed.now }
    requires parents { HaveNames graph.now parents.now }
    requires own { IsAscending triple_cmp own.now }
    requires members { (t : TripleData) → Contains own.now t ↔ (Contains graph.now t × (t.subject ≡ node.now)) }
    ensures { IfOk result (λ nodes. sizes.AreCounted graph.now node.now nodes ⊎ AreCountedBy graph.now parents.now node.now nodes) }
{
    match stand_in_of(graph, reversed, parents, own, node)? {
        Some(name) => {
            let nodes = counted_by(alloc, graph, own, node, name)?;
            Ok(nodes)
        }
        None => {
            let shapes = counted_shapes(alloc, graph, reversed, own, node)?;
            Ok(shapes)
        }
    }
}

/// Whether `true` is a value of the property at the node.
pub(crate) fn is_true_at(graph: &[Triple], node: &Term, property: ShapeProperty) -> bool
    requires { IsAscending triple_cmp graph.now }
    ensures { IsTrue result ↔ HasProperty graph.now node.now property true_literal }
{
    for triple in property_values(graph, node, property) {
        if is_true(&triple.object) {
            return true;
        }
    }
    false
}

/// Whether the node is deactivated (SHACL section 2.1.6).
pub(crate) fn is_deactivated(graph: &[Triple], node: &Term) -> bool
    requires { IsAscending triple_cmp graph.now }
    ensures { IsTrue result ↔ IsDeactivated graph.now node.now }
{
    is_true_at(graph, node, ShapeProperty::Deactivated)
}

/// The shapes to which the node refers, each as often as it counts, or a name that stands for some of them; none where it
/// is deactivated.
pub(crate) fn referred_shapes(
    alloc: Global,
    graph: &IndexedGraph,
    reversed: &[Triple],
    parents: &[Term],
    node: &Term,
) -> Result<Sequence<Term>, AllocError>
    requires graph { IsAscending triple_cmp graph.now }
    requires reversed { IsListing triple_cmp (IsReversed graph.now) reversed.now }
    requires parents { HaveNames graph.now parents.now }
    ensures { IfOk result (λ nodes. IsReferredTo graph.now parents.now node.now nodes) }
{
    let own = triples_of(graph, node);
    if is_deactivated(own, node) {
        return Ok(Sequence::new(alloc));
    }
    let nodes = shapes_or_name(alloc, graph, reversed, parents, own, node)?;
    Ok(nodes)
}
