// The graph of the names of nodes and bundles: those of a bundle that refer lead to it, and it leads to those that are
// referred to. Two of its triples in a row are one reference.
ghost use Rattle.std.specs.Prelude.{◌≡◌, ◌⊎◌, ◌↔◌, ◌<◌, ℕ, List, Some, IfOk, OnOk, length, slice_get};
ghost use Rattle.std.specs.List.{Contains};
ghost use Rattle.collections.specs.Listings.{IsListing};
ghost use Rattle.collections.specs.Ordered.{IsAscending};
ghost use Rattle.rdf_model.specs.declared.term.Term.{Term as TermData};
ghost use Rattle.rdf_model.specs.declared.triple.Triple.{Triple as TripleData};
ghost use Rattle.rdf_model.specs.Terms.{term_cmp, triple_cmp};
ghost use Rattle.shape_references.specs.declared.bundle.Bundle.{Bundle as BundleData};
ghost use Rattle.shape_syntax.specs.Gathering.{Gives, HasGathered};
ghost use Rattle.shape_references.specs.Bundles.{IsEdge, IsEdgeOf, IsInto, IsNodeOf, IsOutOf};

use crate::Bundle;
use crate::names::{name_at, name_of};
use collections::{Sequence, sorted_once};
use rdf_model::{Term, Triple};
use std::alloc::{AllocError, Global};

// The triple that leads from the node to the bundle at the place.
fn edge_into(nodes: &[Term], place: usize, node: &Term) -> Result<Triple, AllocError>
    requires nodes { IsAscending term_cmp nodes.now }
    requires node { Contains nodes.now node.now }
    ensures { IfOk result (λ edge. IsInto nodes.now place node.now edge) }
{
    Ok(Triple {
        subject: name_of(nodes, node)?,
        predicate: name_at(1, place)?,
        object: name_at(1, place)?,
    })
}

// The triple that leads from the bundle at the place to the node.
fn edge_out_of(nodes: &[Term], place: usize, node: &Term) -> Result<Triple, AllocError>
    requires nodes { IsAscending term_cmp nodes.now }
    requires node { Contains nodes.now node.now }
    ensures { IfOk result (λ edge. IsOutOf nodes.now place node.now edge) }
{
    Ok(Triple {
        subject: name_at(1, place)?,
        predicate: name_at(1, place)?,
        object: name_of(nodes, node)?,
    })
}

fn push_into(
    nodes: &[Term],
    place: usize,
    from: &[Term],
    edges: &mut Sequence<Triple>,
) -> Result<(), AllocError>
    requires nodes { IsAscending term_cmp nodes.now }
    requires from { (n : TermData) → Contains from.now n → Contains nodes.now n }
    ensures { OnOk result (HasGathered (IsInto nodes.now place) from.now edges.old edges.new) }
{
    for node in from {
        edges.push(edge_into(nodes, place, node)?)?;
    }
    Ok(())
}

fn push_out_of(
    nodes: &[Term],
    place: usize,
    to: &[Term],
    edges: &mut Sequence<Triple>,
) -> Result<(), AllocError>
    requires nodes { IsAscending term_cmp nodes.now }
    requires to { (n : TermData) → Contains to.now n → Contains nodes.now n }
    ensures { OnOk result (HasGathered (IsOutOf nodes.now place) to.now edges.old edges.new) }
{
    for node in to {
        edges.push(edge_out_of(nodes, place, node)?)?;
    }
    Ok(())
}

// Adds the triples of the bundle.
fn push_edges(
    nodes: &[Term],
    place: usize,
    bundle: &Bundle,
    edges: &mut Sequence<Triple>,
) -> Result<(), AllocError>
    requires nodes { IsAscending term_cmp nodes.now }
    requires bundle { (n : TermData) → IsNodeOf bundle.now n → Contains nodes.now n }
    ensures { OnOk result ((t : TripleData) → Contains edges.new t ↔ (Contains edges.old t ⊎ IsEdgeOf nodes.now place bundle.now t)) }
{
    push_into(nodes, place, bundle.from.as_slice(), edges)?;
    push_out_of(nodes, place, bundle.to.as_slice(), edges)?;
    Ok(())
}

fn all_edges(
    alloc: Global,
    nodes: &[Term],
    bundles: &[Bundle],
) -> Result<Sequence<Triple>, AllocError>
    requires { IsListing term_cmp (Gives IsNodeOf bundles.now) nodes.now }
    ensures { IfOk result (λ edges. (t : TripleData) → Contains edges t ↔ IsEdge nodes.now bundles.now (length bundles.now) t) }
{
    let mut edges = Sequence::new(alloc);
    for (place, bundle) in bundles.iter().enumerate() {
        push_edges(nodes, place, bundle, &mut edges)?;
    }
    Ok(edges)
}

/// The triples of all the bundles, in order. The nodes of the bundles are given.
pub(crate) fn edges_of(
    alloc: Global,
    nodes: &[Term],
    bundles: &[Bundle],
) -> Result<Vec<Triple>, AllocError>
    requires { IsListing term_cmp (Gives IsNodeOf bundles.now) nodes.now }
    ensures { IfOk result (λ edges. IsListing triple_cmp (IsEdge nodes.now bundles.now (length bundles.now)) edges.items) }
{
    let edges = all_edges(alloc, nodes, bundles)?;
    let sorted = sorted_once(edges.into_vec())?;
    Ok(sorted)
}
