//! Which nodes are shapes (SHACL section 2.1).
ghost use Rattle.std.specs.Prelude.{◌≡◌, ◌⊎◌, ◌↔◌, IsTrue, IfOk, OnOk, codes};
ghost use Rattle.std.specs.List.{Contains};
ghost use Rattle.collections.specs.Listings.{IsListing};
ghost use Rattle.collections.specs.Ordered.{IsAscending};
ghost use Rattle.rdf_model.specs.declared.term.Term.{Term as TermData};
ghost use Rattle.rdf_model.specs.declared.triple.Triple.{Triple as TripleData};
ghost use Rattle.rdf_model.specs.Terms.{term_cmp, triple_cmp};
ghost use Rattle.shape_model.specs.Triples.{IsMember};
ghost use Rattle.shape_model.specs.Vocabulary.{sh};
ghost use Rattle.shape_properties.specs.Table.{role};
ghost use Rattle.shape_properties.specs.Syntax.{IsListed, IsShape, Takes, makes_shape};
ghost use Rattle.shape_syntax.specs.Gathering.{Gives, HasGathered};
ghost use Rattle.shape_properties.specs.OfProperties.{IsShapeAt, OfMaking, SaysShape, TakenBy};

use crate::terms::has_class;
use crate::{Role, property_of};
use collections::{Sequence, sorted_once};
use rdf_model::{Term, Triple};
use shape_syntax::IndexedGraph;
use shape_syntax::instance::classes_of;
use shape_syntax::list::list_members;
use shape_syntax::lookup::triples_of;
use shape_syntax::subjects::subjects;
use std::alloc::{AllocError, Global};
use vocabulary::{SH_NODE_SHAPE, SH_PROPERTY_SHAPE};

fn push_each(members: &[Term], nodes: &mut Sequence<Term>) -> Result<(), AllocError>
    ensures { OnOk result ((n : TermData) → Contains nodes.new n ↔ (Contains nodes.old n ⊎ IsMember members.now n)) }
{
    for member in members {
        nodes.push(member.clone()?)?;
    }
    Ok(())
}

fn push_members(
    alloc: Global,
    graph: &IndexedGraph,
    head: &Term,
    nodes: &mut Sequence<Term>,
) -> Result<(), AllocError>
    requires { IsAscending triple_cmp graph.now }
    ensures { OnOk result ((n : TermData) → Contains nodes.new n ↔ (Contains nodes.old n ⊎ IsListed graph.now head.now n)) }
{
    match list_members(alloc, graph, head)? {
        Some(members) => {
            push_each(members.as_slice(), nodes)?;
            Ok(())
        }
        None => Ok(()),
    }
}

// Adds the nodes that a parameter of this role takes as shapes by this value.
fn push_by_role(
    alloc: Global,
    graph: &IndexedGraph,
    role: Role,
    value: &Term,
    nodes: &mut Sequence<Term>,
) -> Result<(), AllocError>
    requires { IsAscending triple_cmp graph.now }
    ensures { OnOk result ((n : TermData) → Contains nodes.new n ↔ (Contains nodes.old n ⊎ Takes graph.now role value.now n)) }
{
    match role {
        Role::ExpectsShape => {
            nodes.push(value.clone()?)?;
            Ok(())
        }
        Role::TakesShapes => {
            push_members(alloc, graph, value, nodes)?;
            Ok(())
        }
        Role::DeclaresTargets | Role::Parameter | Role::Other => Ok(()),
    }
}

/// Adds the nodes that the triple takes as shapes.
pub fn push_taken(
    alloc: Global,
    graph: &IndexedGraph,
    triple: &Triple,
    nodes: &mut Sequence<Term>,
) -> Result<(), AllocError>
    requires { IsAscending triple_cmp graph.now }
    ensures { OnOk result ((n : TermData) → Contains nodes.new n ↔ (Contains nodes.old n ⊎ TakenBy graph.now triple.now n)) }
{
    match property_of(&triple.predicate) {
        Some(property) => {
            push_by_role(alloc, graph, property.role(), &triple.object, nodes)?;
            Ok(())
        }
        None => Ok(()),
    }
}

fn all_taken(alloc: Global, graph: &IndexedGraph) -> Result<Sequence<Term>, AllocError>
    requires { IsAscending triple_cmp graph.now }
    ensures { IfOk result (λ nodes. (n : TermData) → Contains nodes n ↔ Gives (TakenBy graph.now) graph.now n) }
{
    let mut nodes = Sequence::new(alloc);
    for triple in graph.as_slice() {
        push_taken(alloc, graph, triple, &mut nodes)?;
    }
    Ok(nodes)
}

fn makes_shape_by(role: Role) -> bool
    ensures { result ≡ makes_shape role }
{
    match role {
        Role::DeclaresTargets | Role::ExpectsShape | Role::TakesShapes | Role::Parameter => true,
        Role::Other => false,
    }
}

fn is_making(triple: &Triple) -> bool
    ensures { IsTrue result ↔ OfMaking triple.now }
{
    match property_of(&triple.predicate) {
        Some(property) => makes_shape_by(property.role()),
        None => false,
    }
}

// Whether one of the node's triples makes it a shape.
fn has_making(own: &[Triple]) -> bool
    ensures { IsTrue result ↔ ((t : TripleData) × Contains own.now t × OfMaking t) }
{
    for triple in own {
        if is_making(triple) {
            return true;
        }
    }
    false
}

#[tactic(auto, unfolding(shape_model::specs::Vocabulary::sh))]
fn is_typed(classes: &[Term]) -> bool
    ensures { IsTrue result ↔ (IsMember classes.now (sh (codes "NodeShape")) ⊎ IsMember classes.now (sh (codes "PropertyShape"))) }
{
    has_class(classes, SH_NODE_SHAPE) || has_class(classes, SH_PROPERTY_SHAPE)
}

// Whether the node says itself that it is a shape.
fn says_shape(alloc: Global, graph: &IndexedGraph, node: &Term) -> Result<bool, AllocError>
    requires { IsAscending triple_cmp graph.now }
    ensures { IfOk result (λ shape. IsTrue shape ↔ SaysShape graph.now node.now) }
{
    if has_making(triples_of(graph, node)) {
        return Ok(true);
    }
    let classes = classes_of(alloc, graph, node)?;
    Ok(is_typed(classes.as_slice()))
}

// Adds the node, if it says that it is a shape.
fn push_shape(
    alloc: Global,
    graph: &IndexedGraph,
    node: &Term,
    nodes: &mut Sequence<Term>,
) -> Result<(), AllocError>
    requires { IsAscending triple_cmp graph.now }
    ensures { OnOk result ((n : TermData) → Contains nodes.new n ↔ (Contains nodes.old n ⊎ IsShapeAt graph.now node.now n)) }
{
    let shape = says_shape(alloc, graph, node)?;
    if shape {
        nodes.push(node.clone()?)?;
        return Ok(());
    }
    Ok(())
}

// Adds those of the nodes that say that they are shapes.
fn push_shapes(
    alloc: Global,
    graph: &IndexedGraph,
    found: &[Term],
    nodes: &mut Sequence<Term>,
) -> Result<(), AllocError>
    requires { IsAscending triple_cmp graph.now }
    ensures { OnOk result (HasGathered (IsShapeAt graph.now) found.now nodes.old nodes.new) }
{
    for node in found {
        push_shape(alloc, graph, node, nodes)?;
    }
    Ok(())
}

// The nodes that are shapes, some of them more than once.
fn all_shapes(alloc: Global, graph: &IndexedGraph) -> Result<Sequence<Term>, AllocError>
    requires { IsAscending triple_cmp graph.now }
    ensures { IfOk result (λ nodes. (n : TermData) → Contains nodes n ↔ IsShape graph.now n) }
{
    let found = subjects(alloc, graph.as_slice())?;
    let mut nodes = all_taken(alloc, graph)?;
    push_shapes(alloc, graph, found.as_slice(), &mut nodes)?;
    Ok(nodes)
}

/// The nodes of the graph that are shapes, in order.
pub fn shape_nodes(alloc: Global, graph: &IndexedGraph) -> Result<Vec<Term>, AllocError>
    requires { IsAscending triple_cmp graph.now }
    ensures { IfOk result (λ nodes. IsListing term_cmp (IsShape graph.now) nodes.items) }
{
    let nodes = all_shapes(alloc, graph)?;
    let sorted = sorted_once(nodes.into_vec())?;
    Ok(sorted)
}
