// Names of nodes and of bundles, by which bundles are a graph of single references: a blank node for each, by its place.
ghost use Rattle.std.specs.Prelude.{◌≡◌, ◌⊎◌, ◌↔◌, ◌++◌, [], ℕ, Some, IfOk, OnOk, MatchOption, slice_get};
ghost use Rattle.std.specs.List.{Contains};
ghost use Rattle.collections.specs.Listings.{IsListing};
ghost use Rattle.collections.specs.Ordered.{IsAscending};
ghost use Rattle.rdf_model.specs.declared.term.Term.{Term as TermData};
ghost use Rattle.rdf_model.specs.declared.term.Term.TheVariants.{Blank};
ghost use Rattle.rdf_model.specs.Terms.{term_cmp};
ghost use Rattle.shape_syntax.specs.Gathering.{Gives, HasGathered};
ghost use Rattle.shape_references.specs.Bundles.{IsName, IsNodeOf, IsPlace};

use crate::Bundle;
use collections::{Sequence, sorted_once};
use rdf_model::Term;
use std::alloc::{AllocError, Global};

fn push_terms(terms: &[Term], nodes: &mut Sequence<Term>) -> Result<(), AllocError>
    ensures { OnOk result (nodes.new ≡ nodes.old ++ terms.now) }
{
    for term in terms {
        nodes.push(term.clone()?)?;
    }
    Ok(())
}

fn push_nodes(bundle: &Bundle, nodes: &mut Sequence<Term>) -> Result<(), AllocError>
    ensures { OnOk result ((n : TermData) → Contains nodes.new n ↔ (Contains nodes.old n ⊎ IsNodeOf bundle.now n)) }
{
    push_terms(bundle.from.as_slice(), nodes)?;
    push_terms(bundle.to.as_slice(), nodes)?;
    Ok(())
}

fn all_nodes(alloc: Global, bundles: &[Bundle]) -> Result<Sequence<Term>, AllocError>
    ensures { IfOk result (λ nodes. HasGathered IsNodeOf bundles.now [] nodes) }
{
    let mut nodes = Sequence::new(alloc);
    for bundle in bundles {
        push_nodes(bundle, &mut nodes)?;
    }
    Ok(nodes)
}

/// The nodes of the bundles, each once and in order.
pub(crate) fn nodes_of(alloc: Global, bundles: &[Bundle]) -> Result<Vec<Term>, AllocError>
    ensures { IfOk result (λ nodes. IsListing term_cmp (Gives IsNodeOf bundles.now) nodes.items) }
{
    let nodes = all_nodes(alloc, bundles)?;
    let sorted = sorted_once(nodes.into_vec())?;
    Ok(sorted)
}

/// The name with this number: a blank node of session 0 or 1. No memory has room for more than there are.
pub fn name_at(kind: u32, place: usize) -> Result<Term, AllocError>
    ensures { IfOk result (λ name. name ≡ Blank kind place) }
{
    if place > u32::MAX as usize {
        return Err(AllocError);
    }
    Ok(Term::Blank {
        session: kind,
        number: place as u32,
    })
}

/// The name of one of the nodes, which ascend.
pub(crate) fn name_of(nodes: &[Term], node: &Term) -> Result<Term, AllocError>
    requires nodes { IsAscending term_cmp nodes.now }
    requires node { Contains nodes.now node.now }
    ensures { IfOk result (λ name. IsName nodes.now node.now name) }
{
    match nodes.binary_search(node) {
        Ok(place) => Ok(name_at(0, place)?),
        Err(_) => unreachable!(),
    }
}

/// The name of the node, if it is one of the nodes, which ascend.
pub fn name_in(nodes: &[Term], node: &Term) -> Result<Option<Term>, AllocError>
    requires { IsAscending term_cmp nodes.now }
    ensures { IfOk result (λ found. MatchOption found (Unit {0}) (λ name. IsName nodes.now node.now name)) }
{
    match nodes.binary_search(node) {
        Ok(place) => Ok(Some(name_at(0, place)?)),
        Err(_) => Ok(None),
    }
}

// The place of the node that has the name.
fn place_named(name: &Term) -> Option<usize>
    ensures { (i : ℕ) → (result ≡ Some i) ↔ (name.now ≡ Blank 0 i) }
{
    match name {
        Term::Blank { session, number } => {
            if *session == 0 {
                return Some(*number as usize);
            }
            None
        }
        _ => None,
    }
}

fn node_at(nodes: &[Term], place: usize) -> Result<Option<Term>, AllocError>
    ensures { IfOk result (λ found. found ≡ slice_get nodes.now place) }
{
    match nodes.get(place) {
        Some(node) => Ok(Some(node.clone()?)),
        None => Ok(None),
    }
}

/// The node that has the name, if a node has it.
pub(crate) fn node_named(nodes: &[Term], name: &Term) -> Result<Option<Term>, AllocError>
    ensures { IfOk result (λ found. (n : TermData) → (found ≡ Some n) ↔ IsName nodes.now n name.now) }
{
    match place_named(name) {
        Some(place) => {
            let node = node_at(nodes, place)?;
            Ok(node)
        }
        None => Ok(None),
    }
}
