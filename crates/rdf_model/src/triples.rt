//! Triples by the numbers of their terms.
ghost use Rattle.std.specs.Prelude.{◌≡◌, ◌↔◌, ◌⊎◌, ◌++◌, IfOk, IsTrue, List, OnErr, OnOk};
ghost use Rattle.std.specs.List.{Contains, filter_map};
ghost use Rattle.std.specs.Ordering.{nat_cmp};
ghost use Rattle.collections.specs.Listings.{IsListing, Keeps};
ghost use Rattle.collections.specs.Pairs.{pair_cmp};
ghost use Rattle.rdf_model.specs.Numbers.{AsksForOne, IsEdge, IsFound, IsJoined, edge_in, number_in, pair_in};
ghost use Rattle.rdf_model.specs.declared.ids.Ids.{Ids as IdsData};

use crate::{Ids, Look};
use collections::{Sequence, sorted_once};
use std::alloc::{AllocError, Global};
use std::marker::Model;

/// A set of triples by the numbers of their terms.
pub trait Triples {
    ghost triples: { Self → List IdsData };

    /// The numbers that the look asks for, ascending: the objects for `Out`, the subjects for `In`.
    fn find(&self, alloc: Global, look: &Look<u32>) -> Result<Vec<u32>, AllocError>
        requires { AsksForOne look.now }
        ensures { IfOk result (λ found. IsListing nat_cmp (IsFound look.now (triples self.now)) found.items) };

    /// Adds the numbers that the look asks for, in no order that is told, maybe several times. What was
    /// there stays, also where memory runs out.
    fn add_found(&self, look: &Look<u32>, found: &mut Vec<u32>) -> Result<(), AllocError>
        requires { AsksForOne look.now }
        ensures found { OnOk result ((n : _) → Contains found.new.items n ↔ (Contains found.old.items n ⊎ IsFound look.now (triples self.now) n)) }
        ensures kept { OnErr result (Keeps found.old.items found.new.items) };

    /// Predicate and object of each triple of the subject, ascending, each pair once.
    fn edges(&self, alloc: Global, subject: u32) -> Result<Vec<(u32, u32)>, AllocError>
        ensures { IfOk result (λ edges. IsListing pair_cmp (IsEdge (triples self.now) subject) edges.items) };

    /// Subject and object of each triple with the predicate, ascending, each pair once.
    fn with_predicate(&self, alloc: Global, predicate: u32) -> Result<Vec<(u32, u32)>, AllocError>
        ensures { IfOk result (λ pairs. IsListing pair_cmp (IsJoined (triples self.now) predicate) pairs.items) };

    /// Whether the triple is in the set. It takes no memory.
    fn contains(&self, triple: Ids) -> bool
        ensures { IsTrue result ↔ Contains (triples self.now) triple };
}

/// Triples in a vector. Contracts see the list of its triples.
#[derive(Debug, Drop)]
pub struct ListGraph {
    triples: Sequence<Ids>,
}

impl Model for ListGraph {
    ghost use Rattle.std.specs.Prelude.{List};
    ghost use Rattle.rdf_model.specs.declared.ids.Ids.{Ids};

    ghost Value = { List Ids };

    ghost view = { λ g. g.triples };
}

impl ListGraph {
    /// The set of these triples. It takes no memory.
    pub fn from_triples(triples: Sequence<Ids>) -> ListGraph
        ensures { result ≡ triples }
    {
        ListGraph { triples }
    }
}

// The number that the look asks for in a triple that it reads.
fn found_in(look: &Look<u32>, triple: Ids) -> Option<u32>
    ensures { result ≡ number_in look.now triple }
{
    match look {
        Look::Out(_, _) if look.reads_ids(triple) => Some(triple.object),
        Look::In(_, _) if look.reads_ids(triple) => Some(triple.subject),
        _ => None,
    }
}

// What the look asks for comes to the end.
#[tactic(auto, using(std::proofs::lemmas::Grind::common_steps, crate::proofs::Finding::filter_map_append))]
fn add_all_found(triples: &[Ids], look: &Look<u32>, found: &mut Vec<u32>) -> Result<(), AllocError>
    ensures found { OnOk result (found.new.items ≡ found.old.items ++ filter_map (number_in look.now) triples.now) }
    ensures kept { OnErr result (Keeps found.old.items found.new.items) }
{
    for triple in triples {
        if let Some(number) = found_in(look, *triple) {
            found.push(number)?;
        }
    }
    Ok(())
}

// Predicate and object of each triple of the subject.
#[tactic(auto, using(std::proofs::lemmas::Grind::common_steps, crate::proofs::Finding::filter_map_append))]
fn all_edges(alloc: Global, triples: &[Ids], subject: u32) -> Result<Vec<(u32, u32)>, AllocError>
    ensures { IfOk result (λ edges. edges.items ≡ filter_map (edge_in subject) triples.now) }
{
    let mut edges = Vec::new(alloc);
    for triple in triples {
        if triple.subject == subject {
            edges.push((triple.predicate, triple.object))?;
        }
    }
    Ok(edges)
}

// Subject and object of each triple with the predicate.
#[tactic(auto, using(std::proofs::lemmas::Grind::common_steps, crate::proofs::Finding::filter_map_append))]
fn all_pairs(alloc: Global, triples: &[Ids], predicate: u32) -> Result<Vec<(u32, u32)>, AllocError>
    ensures { IfOk result (λ pairs. pairs.items ≡ filter_map (pair_in predicate) triples.now) }
{
    let mut pairs = Vec::new(alloc);
    for triple in triples {
        if triple.predicate == predicate {
            pairs.push((triple.subject, triple.object))?;
        }
    }
    Ok(pairs)
}

impl Triples for ListGraph {
    ghost triples = { λ graph. graph };

    fn find(&self, alloc: Global, look: &Look<u32>) -> Result<Vec<u32>, AllocError> {
        let mut found = Vec::new(alloc);
        add_all_found(self.triples.as_slice(), look, &mut found)?;
        Ok(sorted_once(found)?)
    }

    fn add_found(&self, look: &Look<u32>, found: &mut Vec<u32>) -> Result<(), AllocError> {
        add_all_found(self.triples.as_slice(), look, found)?;
        Ok(())
    }

    fn edges(&self, alloc: Global, subject: u32) -> Result<Vec<(u32, u32)>, AllocError> {
        let edges = all_edges(alloc, self.triples.as_slice(), subject)?;
        Ok(sorted_once(edges)?)
    }

    fn with_predicate(&self, alloc: Global, predicate: u32) -> Result<Vec<(u32, u32)>, AllocError> {
        let pairs = all_pairs(alloc, self.triples.as_slice(), predicate)?;
        Ok(sorted_once(pairs)?)
    }

    fn contains(&self, triple: Ids) -> bool {
        self.triples.as_slice().iter().any(|other| *other == triple)
    }
}
