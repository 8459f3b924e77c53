//! The triples of changes, in the order of their predicates.
ghost use Rattle.std.specs.Prelude.{◌≡◌, ◌↔◌, IfOk, map};
ghost use Rattle.std.specs.List.{Contains, filter_map};
ghost use Rattle.std.specs.List.Sorted.{IsNonDecreasingBy};
ghost use Rattle.std.specs.Ordering.{nat_cmp};
ghost use Rattle.collections.specs.Listings.{IsListing};
ghost use Rattle.rdf_model.specs.declared.ids.Ids.{Ids as IdsData};
ghost use Rattle.focus_affected.specs.Plans.{IsOf, node_in};

use crate::NumberedKind;
use crate::matching::nodes_of;
use crate::runs::with_predicate;
use collections::sorted_once;
use rdf_model::Ids;
use std::alloc::{AllocError, Global};
use std::marker::Model;

/// The triples that changes add or remove. Contracts see them as a list, in the order of their predicates.
#[derive(Drop)]
pub(crate) struct ChangedTriples {
    triples: Vec<Ids>,
    // The subjects of them all, each once, ascending.
    subjects: Vec<u32>,
    // Their predicates, each once, ascending.
    predicates: Vec<u32>,
}

impl Model for ChangedTriples {
    ghost use Rattle.std.specs.Prelude.{List, map};
    ghost use Rattle.std.specs.List.{Contains, filter_map};
    ghost use Rattle.std.specs.List.Sorted.{IsNonDecreasingBy};
    ghost use Rattle.std.specs.Ordering.{nat_cmp};
    ghost use Rattle.collections.specs.Listings.{IsListing};
    ghost use Rattle.rdf_model.specs.declared.ids.Ids.{Ids as IdsData};
    ghost use Rattle.focus_affected.specs.declared.plan.NumberedKind.TheVariants.{OutAny};
    ghost use Rattle.focus_affected.specs.Plans.{node_in};

    ghost Value = { List IdsData };

    ghost view = { λ c. c.triples.items };

    ghost invariant = { λ c. IsNonDecreasingBy (λ (i : IdsData). i.predicate) c.triples.items × IsListing nat_cmp (Contains (filter_map (node_in OutAny) c.triples.items)) c.subjects.items × IsListing nat_cmp (Contains (map (λ (i : IdsData). i.predicate) c.triples.items)) c.predicates.items };
}

// The nodes in a list of their own.
fn copied(alloc: Global, nodes: &[u32]) -> Result<Vec<u32>, AllocError>
    ensures { IfOk result (λ copy. copy.items ≡ nodes.now) }
{
    let mut copy = Vec::new(alloc);
    copy.extend_from_slice(nodes)?;
    Ok(copy)
}

// The triples in the order of their predicates.
fn in_order(alloc: Global, changed: &[Ids]) -> Result<Vec<Ids>, AllocError>
    ensures same { IfOk result (λ triples. (i : IdsData) → Contains triples.items i ↔ Contains changed.now i) }
    ensures ordered { IfOk result (λ triples. IsNonDecreasingBy (λ (i : IdsData). i.predicate) triples.items) }
{
    let mut triples = Vec::new(alloc);
    triples.extend_from_slice(changed)?;
    triples.sort_by_key(
        |triple: &Ids| -> u32
            ensures { result ≡ triple.now.predicate }
        { triple.predicate },
    )?;
    Ok(triples)
}

// The predicates of the triples, in their order.
fn predicates_of(alloc: Global, triples: &[Ids]) -> Result<Vec<u32>, AllocError>
    ensures { IfOk result (λ predicates. predicates.items ≡ map (λ (i : IdsData). i.predicate) triples.now) }
{
    let mut predicates = Vec::new(alloc);
    for triple in triples {
        predicates.push(triple.predicate)?;
    }
    Ok(predicates)
}

impl ChangedTriples {
    /// The triples, in the order of their predicates.
    pub(crate) fn new(alloc: Global, changed: &[Ids]) -> Result<ChangedTriples, AllocError>
        ensures { IfOk result (λ triples. (i : IdsData) → Contains triples i ↔ Contains changed.now i) }
    {
        let triples = in_order(alloc, changed)?;
        let nodes = nodes_of(alloc, NumberedKind::OutAny, &triples)?;
        let subjects = sorted_once(nodes)?;
        let predicates = sorted_once(predicates_of(alloc, &triples)?)?;
        Ok(ChangedTriples {
            triples,
            subjects,
            predicates,
        })
    }

    /// Their predicates, each once, ascending.
    pub(crate) fn predicates(&self) -> &[u32]
        ensures { IsListing nat_cmp (Contains (map (λ (i : IdsData). i.predicate) self.now)) result.now }
    {
        &self.predicates
    }

    // The nodes at which what is asked matches one of the triples with the predicate.
    fn matched_by(
        &self,
        alloc: Global,
        kind: NumberedKind,
        predicate: u32,
    ) -> Result<Vec<u32>, AllocError>
        requires { IsOf kind predicate }
        ensures { IfOk result (λ nodes. IsListing nat_cmp (Contains (filter_map (node_in kind) self.now)) nodes.items) }
    {
        let nodes = nodes_of(alloc, kind, with_predicate(&self.triples, predicate))?;
        Ok(sorted_once(nodes)?)
    }

    /// The nodes at which what is asked matches one of the triples, each once, ascending. It looks at those alone that
    /// have the predicate that is asked for.
    pub(crate) fn matched(&self, alloc: Global, kind: NumberedKind) -> Result<Vec<u32>, AllocError>
        ensures { IfOk result (λ nodes. IsListing nat_cmp (Contains (filter_map (node_in kind) self.now)) nodes.items) }
    {
        match kind {
            NumberedKind::Out(predicate) => self.matched_by(alloc, kind, predicate),
            NumberedKind::In(predicate) => self.matched_by(alloc, kind, predicate),
            NumberedKind::OutAny => Ok(copied(alloc, &self.subjects)?),
        }
    }
}
