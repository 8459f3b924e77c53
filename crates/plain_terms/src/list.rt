//! The members of lists.
ghost use Rattle.std.specs.Prelude.{◌≡◌, ◌↔◌, ◌&&◌, [], IfOk, IsTrue, List, MatchOption};
ghost use Rattle.rdf_model.specs.declared.term.Term.{Term as TermData};
ghost use Rattle.shape_model.specs.Triples.{HasNone, HasOnly};
ghost use Rattle.std.specs.List.{Contains};
ghost use Rattle.collections.specs.Listings.{IsListing};
ghost use Rattle.rdf_model.specs.Terms.{term_cmp};
ghost use Rattle.plain_terms.specs.Finds.{Finds, IsListed, WithSome, option_pair};
ghost use Rattle.shape_model.specs.ShapeSyntax.{IsCell, IsListEnd, ListOf};

use crate::graph::objects;
use crate::words::{first_word, is_same, nil_word, rest_word};
use collections::{Sequence, sorted_once};
use rdf_model::{Term, Triple};
use std::alloc::{AllocError, Global};

/// The terms in their order, each once.
pub fn in_order(terms: Sequence<Term>) -> Result<Sequence<Term>, AllocError>
    ensures { IfOk result (λ sorted. IsListing term_cmp (Contains terms) sorted) }
{
    let sorted = sorted_once(terms.into_vec())?;
    Ok(Sequence::from_vec(sorted))
}

// Both terms, if there are both.
fn pair_of(first: Option<Term>, second: Option<Term>) -> Option<(Term, Term)>
    ensures { result ≡ option_pair first second }
{
    match (first, second) {
        (Some(first), Some(second)) => Some((first, second)),
        _ => None,
    }
}

// The value of the predicate at the node, if it has one value.
fn only_value(
    alloc: Global,
    graph: &[Triple],
    node: &Term,
    predicate: &Term,
) -> Result<Option<Term>, AllocError>
    ensures { IfOk result (λ found. MatchOption found
        ((value : TermData) → HasOnly graph.now node.now predicate.now value → ⊥)
        (HasOnly graph.now node.now predicate.now)) }
{
    let found = objects(alloc, graph, node, predicate)?;
    let values = in_order(found)?;
    if values.len() == 1 {
        return Ok(Some(values.as_slice()[0].clone()?));
    }
    Ok(None)
}

fn has_none(
    alloc: Global,
    graph: &[Triple],
    node: &Term,
    predicate: &Term,
) -> Result<bool, AllocError>
    ensures { IfOk result (λ none. IsTrue none ↔ HasNone graph.now node.now predicate.now) }
{
    let found = objects(alloc, graph, node, predicate)?;
    Ok(found.is_empty())
}

// The member and the rest of a cell, if the node is one.
fn cell(alloc: Global, graph: &[Triple], node: &Term) -> Result<Option<(Term, Term)>, AllocError>
    ensures { IfOk result (λ found. MatchOption found
        ((member : TermData) (rest : TermData) → IsCell graph.now node.now member rest → ⊥)
        (λ parts. IsCell graph.now node.now parts.0 parts.1)) }
{
    let first = first_word(alloc)?;
    let rest = rest_word(alloc)?;
    let member = only_value(alloc, graph, node, &first)?;
    let next = only_value(alloc, graph, node, &rest)?;
    Ok(pair_of(member, next))
}

fn are_all(first: bool, second: bool, third: bool) -> bool
    ensures { result ≡ ((first && second) && third) }
{
    first && second && third
}

fn is_list_end(alloc: Global, graph: &[Triple], node: &Term) -> Result<bool, AllocError>
    ensures { IfOk result (λ is. IsTrue is ↔ IsListEnd graph.now node.now) }
{
    let nil = nil_word(alloc)?;
    let first = first_word(alloc)?;
    let rest = rest_word(alloc)?;
    let is_nil = is_same(node, &nil);
    let no_first = has_none(alloc, graph, node, &first)?;
    let no_rest = has_none(alloc, graph, node, &rest)?;
    Ok(are_all(is_nil, no_first, no_rest))
}

/// The members of the list that the node is the head of (SHACL section 1.1, "SHACL Lists"), or `None` where it is the
/// head of none.
pub fn list_members(
    alloc: Global,
    graph: &[Triple],
    head: &Term,
) -> Result<Option<Sequence<Term>>, AllocError>
    ensures { IfOk result (λ found. MatchOption found
        ((members : List TermData) → ListOf graph.now head.now members → ⊥)
        (λ members. ListOf graph.now head.now members)) }
{
    let mut members = Sequence::new(alloc);
    let mut node = head.clone()?;
    while members.len() <= graph.len() {
        if is_list_end(alloc, graph, &node)? {
            return Ok(Some(members));
        }
        match cell(alloc, graph, &node)? {
            Some((member, rest)) => {
                members.push(member)?;
                node = rest;
            }
            None => return Ok(None),
        }
    }
    Ok(None)
}

// The members of the list at the head; none where it is the head of none.
fn members_at(alloc: Global, graph: &[Triple], head: &Term) -> Result<Vec<Term>, AllocError>
    ensures { IfOk result (λ found. Finds (IsListed graph.now head.now) found.items) }
{
    let found = list_members(alloc, graph, head)?;
    match found {
        Some(members) => Ok(members.into_vec()),
        None => Ok(Vec::new(alloc)),
    }
}

/// The members of the lists at the heads.
pub fn members_of_each(
    alloc: Global,
    graph: &[Triple],
    heads: &[Term],
) -> Result<Vec<Term>, AllocError>
    ensures { IfOk result (λ found. Finds (WithSome heads.now (IsListed graph.now)) found.items) }
{
    let mut found = Vec::new(alloc);
    for head in heads {
        let mut more = members_at(alloc, graph, head)?;
        found.append(&mut more)?;
    }
    Ok(found)
}
