//! Lists of RDF (SHACL section 1.1, "SHACL Lists").
ghost use Rattle.std.specs.Prelude.{◌≡◌, ◌≢◌, ◌↔◌, List, IsTrue, IfOk, MatchOption};
ghost use Rattle.std.specs.List.{Contains};
ghost use Rattle.collections.specs.Ordered.{IsAscending};
ghost use Rattle.rdf_model.specs.declared.term.Term.{Term};
ghost use Rattle.rdf_model.specs.declared.term.Term.TheVariants.{Iri};
ghost use Rattle.rdf_model.specs.declared.triple.Triple.{Triple as TripleData};
ghost use Rattle.rdf_model.specs.Terms.{triple_cmp};
ghost use Rattle.shape_model.specs.Vocabulary.{rdf_first, rdf_nil, rdf_rest};
ghost use Rattle.shape_model.specs.Triples.{HasNone, HasOnly};
ghost use Rattle.shape_model.specs.ShapeSyntax.{IsCell, IsListEnd, ListOf};

use crate::IndexedGraph;
use crate::lookup::{triples_of, values};
use crate::terms::{is_named, is_same};
use collections::Sequence;
use rdf_model::{Term, Triple};
use std::alloc::{AllocError, Global};
use vocabulary::{RDF_FIRST, RDF_NIL, RDF_REST};

// Whether one of the triples has another object.
fn is_other_there(found: &[Triple], value: &Term) -> bool
    ensures { IsTrue result ↔ ((t : TripleData) × Contains found.now t × (t.object ≢ value.now)) }
{
    for triple in found {
        if !is_same(&triple.object, value) {
            return true;
        }
    }
    false
}

// The value of the predicate at the node, if it has one value.
fn only_value<'a>(graph: &'a [Triple], node: &Term, predicate: &str) -> Option<&'a Term>
    requires { IsAscending triple_cmp graph.now }
    ensures { MatchOption result ((value : Term) → HasOnly graph.now node.now (Iri predicate.now) value → ⊥)
        (λ value. HasOnly graph.now node.now (Iri predicate.now) value.now) }
{
    let found = values(graph, node, predicate);
    match found.first() {
        Some(first) => {
            if is_other_there(found, &first.object) {
                None
            } else {
                Some(&first.object)
            }
        }
        None => None,
    }
}

fn has_none(graph: &[Triple], node: &Term, predicate: &str) -> bool
    requires { IsAscending triple_cmp graph.now }
    ensures { IsTrue result ↔ HasNone graph.now node.now (Iri predicate.now) }
{
    values(graph, node, predicate).is_empty()
}

#[tactic(auto, unfolding(shape_model::specs::Vocabulary::rdf, shape_model::specs::Vocabulary::rdf_first))]
fn only_first<'a>(graph: &'a [Triple], node: &Term) -> Option<&'a Term>
    requires { IsAscending triple_cmp graph.now }
    ensures { MatchOption result ((value : Term) → HasOnly graph.now node.now rdf_first value → ⊥)
        (λ value. HasOnly graph.now node.now rdf_first value.now) }
{
    only_value(graph, node, RDF_FIRST)
}

#[tactic(auto, unfolding(shape_model::specs::Vocabulary::rdf, shape_model::specs::Vocabulary::rdf_rest))]
fn only_rest<'a>(graph: &'a [Triple], node: &Term) -> Option<&'a Term>
    requires { IsAscending triple_cmp graph.now }
    ensures { MatchOption result ((value : Term) → HasOnly graph.now node.now rdf_rest value → ⊥)
        (λ value. HasOnly graph.now node.now rdf_rest value.now) }
{
    only_value(graph, node, RDF_REST)
}

/// The member and the rest of a cell, if the node is one. To save time the node's triples may be given in place of the
/// graph.
pub(crate) fn cell_of<'a>(own: &'a [Triple], node: &Term) -> Option<(&'a Term, &'a Term)>
    requires { IsAscending triple_cmp own.now }
    ensures { MatchOption result ((member : Term) (rest : Term) → IsCell own.now node.now member rest → ⊥)
        (λ parts. IsCell own.now node.now parts.0.now parts.1.now) }
{
    match only_first(own, node) {
        Some(member) => match only_rest(own, node) {
            Some(rest) => Some((member, rest)),
            None => None,
        },
        None => None,
    }
}

/// The member and the rest of a cell, if the node is one.
pub(crate) fn cell<'a>(graph: &IndexedGraph<'a>, node: &Term) -> Option<(&'a Term, &'a Term)>
    requires { IsAscending triple_cmp graph.now }
    ensures { MatchOption result ((member : Term) (rest : Term) → IsCell graph.now node.now member rest → ⊥)
        (λ parts. IsCell graph.now node.now parts.0.now parts.1.now) }
{
    let own = triples_of(graph, node);
    cell_of(own, node)
}

#[tactic(auto, unfolding(shape_model::specs::Vocabulary::rdf, shape_model::specs::Vocabulary::rdf_first))]
fn has_no_first(graph: &[Triple], node: &Term) -> bool
    requires { IsAscending triple_cmp graph.now }
    ensures { IsTrue result ↔ HasNone graph.now node.now rdf_first }
{
    has_none(graph, node, RDF_FIRST)
}

#[tactic(auto, unfolding(shape_model::specs::Vocabulary::rdf, shape_model::specs::Vocabulary::rdf_rest))]
fn has_no_rest(graph: &[Triple], node: &Term) -> bool
    requires { IsAscending triple_cmp graph.now }
    ensures { IsTrue result ↔ HasNone graph.now node.now rdf_rest }
{
    has_none(graph, node, RDF_REST)
}

#[tactic(auto, unfolding(shape_model::specs::Vocabulary::rdf, shape_model::specs::Vocabulary::rdf_nil))]
fn is_rdf_nil(term: &Term) -> bool
    ensures { IsTrue result ↔ (term.now ≡ rdf_nil) }
{
    is_named(term, RDF_NIL)
}

// Whether the node has no member and no rest.
fn has_neither(graph: &IndexedGraph, node: &Term) -> bool
    requires { IsAscending triple_cmp graph.now }
    ensures { IsTrue result ↔ (HasNone graph.now node.now rdf_first × HasNone graph.now node.now rdf_rest) }
{
    let own = triples_of(graph, node);
    has_no_first(own, node) && has_no_rest(own, node)
}

pub(crate) fn is_list_end(graph: &IndexedGraph, node: &Term) -> bool
    requires { IsAscending triple_cmp graph.now }
    ensures { IsTrue result ↔ IsListEnd graph.now node.now }
{
    is_rdf_nil(node) && has_neither(graph, node)
}

/// The members of the list that the node is the head of, or `None` where it is the head of none: at
/// a node with several values of rdf:first or of rdf:rest or with one of them alone, or in a circle.
pub fn list_members(
    alloc: Global,
    graph: &IndexedGraph,
    head: &Term,
) -> Result<Option<Sequence<Term>>, AllocError>
    requires { IsAscending triple_cmp graph.now }
    ensures { IfOk result (λ found. MatchOption found
        ((members : List Term) → ListOf graph.now head.now members → ⊥)
        (λ members. ListOf graph.now head.now members)) }
{
    let mut members = Sequence::new(alloc);
    let mut node = head;
    while members.len() <= graph.len() {
        if is_list_end(graph, node) {
            return Ok(Some(members));
        }
        let Some((member, rest)) = cell(graph, node) else {
            return Ok(None);
        };
        members.push(member.clone()?)?;
        node = rest;
    }
    Ok(None)
}
