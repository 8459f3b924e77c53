//! A set of triples after changes.
ghost use Rattle.std.specs.Prelude.{◌≡◌, ◌↔◌, [], IfOk, map};
ghost use Rattle.std.specs.List.{Contains};
ghost use Rattle.rdf_model.specs.declared.ids.Ids.{Ids as IdsData};
ghost use Rattle.overlay_view.specs.Overlays.{IsAfter, opposite, overlaid};
ghost use Rattle.triple_index.specs.Changes.{after_ids};

use crate::kept::{add_pairs, left_edges, left_numbers, left_pairs, stays};
use collections::sorted_once;
use rdf_model::{Ids, Look, Triples};
use std::alloc::{AllocError, Global};
use triple_index::{Index, NumberedChange};

/// A set of triples after changes.
#[derive(Drop)]
pub struct Overlay<'a, R: Triples> {
    pub(crate) alloc: Global,
    pub(crate) base: &'a R,
    pub(crate) added: Index,
    pub(crate) removed: Index,
}

// The change that undoes another.
fn opposite_of(change: NumberedChange) -> NumberedChange
    ensures { result ≡ opposite change }
{
    match change {
        NumberedChange::Add(triple) => NumberedChange::Remove(triple),
        NumberedChange::Remove(triple) => NumberedChange::Add(triple),
    }
}

// The triples that are there after changes from nothing.
fn index_of(alloc: Global, net: &[NumberedChange]) -> Result<Index, AllocError>
    ensures { IfOk result (λ index. index ≡ after_ids [] net.now) }
{
    let mut index = Index::new(alloc);
    index.apply(net)?;
    Ok(index)
}

fn opposites(alloc: Global, net: &[NumberedChange]) -> Result<Vec<NumberedChange>, AllocError>
    ensures { IfOk result (λ all. all.items ≡ map opposite net.now) }
{
    net.iter().map(|change| opposite_of(*change)).collect(alloc)
}

impl<'a, R: Triples> Overlay<'a, R> {
    /// The set of triples after the changes in turn: without what they remove, with what they add. It
    /// copies nothing of the set.
    pub fn new(
        alloc: Global,
        base: &'a R,
        net: &[NumberedChange],
    ) -> Result<Overlay<'a, R>, AllocError>
        ensures { IfOk result (λ overlay. (t : IdsData) → Contains (overlaid (R.triples overlay.base.now) overlay.added overlay.removed) t ↔ IsAfter (Contains (R.triples base.entry.now)) net.now t) }
    {
        let added = index_of(alloc, net)?;
        let removed = index_of(alloc, &opposites(alloc, net)?)?;
        Ok(Overlay {
            alloc,
            base,
            added,
            removed,
        })
    }
}

impl<'a, R: Triples> Triples for Overlay<'a, R> {
    ghost use Rattle.overlay_view.specs.Overlays.{overlaid};

    ghost triples = { λ o. overlaid (R.triples o.base.now) o.added o.removed };

    fn find(&self, alloc: Global, look: &Look<u32>) -> Result<Vec<u32>, AllocError> {
        let beneath = self.base.find(alloc, look)?;
        let mut found = left_numbers(alloc, &self.removed, look, &beneath)?;
        self.added.add_found(look, &mut found)?;
        Ok(sorted_once(found)?)
    }

    fn add_found(&self, look: &Look<u32>, found: &mut Vec<u32>) -> Result<(), AllocError> {
        let more = self.find(self.alloc, look)?;
        found.extend_from_slice(&more)?;
        Ok(())
    }

    fn edges(&self, alloc: Global, subject: u32) -> Result<Vec<(u32, u32)>, AllocError> {
        let beneath = self.base.edges(alloc, subject)?;
        let mut edges = left_edges(alloc, &self.removed, subject, &beneath)?;
        let more = self.added.edges(alloc, subject)?;
        add_pairs(&mut edges, &more)?;
        Ok(sorted_once(edges)?)
    }

    fn with_predicate(&self, alloc: Global, predicate: u32) -> Result<Vec<(u32, u32)>, AllocError> {
        let beneath = self.base.with_predicate(alloc, predicate)?;
        let mut pairs = left_pairs(alloc, &self.removed, predicate, &beneath)?;
        let more = self.added.with_predicate(alloc, predicate)?;
        add_pairs(&mut pairs, &more)?;
        Ok(sorted_once(pairs)?)
    }

    fn contains(&self, triple: Ids) -> bool {
        if self.added.contains(triple) {
            return true;
        }
        self.base.contains(triple) && stays(&self.removed, triple)
    }
}
