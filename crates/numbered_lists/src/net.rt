//! The changes of a transaction.
ghost use Rattle.std.specs.Prelude.{◌≡◌, ◌+◌, ◌<◌, ◌≤◌, ◌^◌, [], ◌∷◌, ◌++◌, ◌==◌, IfOk, OnErr, OnOk, length, map};
ghost use Rattle.std.specs.List.{AllByRecursion};
ghost use Rattle.rdf_model.specs.declared.change.Change.TheVariants as changes;
ghost use Rattle.rdf_model.specs.Numbers.{AreNumbered, triple_at};
ghost use Rattle.triple_index.specs.Changes.{IsNumbered, IsNumberedChange, change_at};
ghost use Rattle.numbered_lists.specs.Appending.{HasRoom, changed_as, numbered_as, shifted};

use crate::triples::TripleList;
use rdf_model::{Change, Ids, Term, Triple};
use std::alloc::{AllocError, Global};
use std::marker::Model;
use triple_index::NumberedChange;

/// The changes of a transaction, in order: the last change to each triple wins. Their triples are kept by the places of their terms
/// in a list of terms. Contracts see the list of the changes.
#[derive(Debug)]
pub struct Net {
    terms: Vec<Term>,
    changes: Vec<NumberedChange>,
}

// Written by hand, so that what owns a net calls it in place of having it written out.
impl Drop for Net {
    fn drop(self) {
        let Net {
            terms: _,
            changes: _,
        } = self;
    }
}

impl Model for Net {
    ghost use Rattle.std.specs.Prelude.{List, map};
    ghost use Rattle.std.specs.List.{AllByRecursion};
    ghost use Rattle.rdf_model.specs.declared.change.Change.{Change as ChangeData};
    ghost use Rattle.triple_index.specs.Changes.{IsNumberedChange, change_at};

    ghost Value = { List ChangeData };

    ghost view = { λ n. map (change_at n.terms.items) n.changes.items };

    ghost invariant = { λ n. AllByRecursion (IsNumberedChange n.terms.items) n.changes.items };
}

/// The triple of these places in the terms, which are copied.
pub fn copied_triple(terms: &[Term], ids: Ids) -> Result<Triple, AllocError>
    requires { IsNumbered terms.now ids }
    ensures { IfOk result (λ triple. triple ≡ triple_at terms.now ids) }
{
    Ok(Triple {
        subject: terms[ids.subject as usize].clone()?,
        predicate: terms[ids.predicate as usize].clone()?,
        object: terms[ids.object as usize].clone()?,
    })
}

/// The change of these places in the terms, which are copied.
pub fn copied_change(terms: &[Term], change: NumberedChange) -> Result<Change, AllocError>
    requires { IsNumberedChange terms.now change }
    ensures { IfOk result (λ copy. copy ≡ change_at terms.now change) }
{
    match change {
        NumberedChange::Add(ids) => Ok(Change::Add(copied_triple(terms, ids)?)),
        NumberedChange::Remove(ids) => Ok(Change::Remove(copied_triple(terms, ids)?)),
    }
}

// The place in a list behind so many others.
fn shift(count: u32, ids: Ids) -> Ids
    requires { HasRoom count ids }
    ensures { result ≡ shifted count ids }
{
    Ids {
        subject: count + ids.subject,
        predicate: count + ids.predicate,
        object: count + ids.object,
    }
}

// The removal or the addition of these places.
fn numbered(removes: bool, ids: Ids) -> NumberedChange
    ensures { result ≡ numbered_as removes ids }
{
    if removes {
        NumberedChange::Remove(ids)
    } else {
        NumberedChange::Add(ids)
    }
}

// A removal or an addition of each triple, whose terms stand behind so many others.
fn numbered_behind(
    alloc: Global,
    removes: bool,
    count: u32,
    triples: &[Ids],
) -> Result<Vec<NumberedChange>, AllocError>
    requires { AllByRecursion (HasRoom count) triples.now }
    ensures { IfOk result (λ more. more.items ≡ map (λ i. numbered_as removes (shifted count i)) triples.now) }
{
    let mut more = Vec::with_capacity(alloc, triples.len())?;
    for ids in triples {
        more.push(numbered(removes, shift(count, *ids)))?;
    }
    Ok(more)
}

// How many terms there are, if so many more have places too.
fn places_before(count: usize, more: usize) -> Result<u32, AllocError>
    ensures { IfOk result (λ places. (places ≡ count) × (count + more < 2 ^ 32)) }
{
    match count.checked_add(more) {
        Some(sum) if sum <= u32::MAX as usize => Ok(count as u32),
        _ => Err(AllocError),
    }
}

// Puts the items of one list behind those of another. Where that has none, the list takes its place, and nothing is copied.
fn put_behind<T: Drop>(items: &mut Vec<T>, more: Vec<T>) -> Result<(), AllocError>
    ensures ok { OnOk result (items.new.items ≡ items.old.items ++ more.items) }
    ensures err { OnErr result (items.new.items ≡ items.old.items) }
{
    let mut more = more;
    if items.is_empty() {
        *items = more;
        return Ok(());
    }
    items.append(&mut more)?;
    Ok(())
}

impl Net {
    /// No change. It takes no memory.
    pub fn new(alloc: Global) -> Net
        ensures { result ≡ [] }
    {
        Net {
            terms: Vec::new(alloc),
            changes: Vec::new(alloc),
        }
    }

    /// How many changes there are.
    pub fn len(&self) -> usize
        ensures { result ≡ length self.now }
    {
        self.changes.len()
    }

    pub fn is_empty(&self) -> bool
        ensures { result ≡ (length self.now == 0) }
    {
        self.changes.is_empty()
    }

    /// The terms, and the changes by the places of their terms among them.
    pub fn parts(&self) -> (&[Term], &[NumberedChange])
        ensures changes { map (change_at result.0.now) result.1.now ≡ self.now }
        ensures numbered { AllByRecursion (IsNumberedChange result.0.now) result.1.now }
    {
        (&self.terms, &self.changes)
    }

    // Puts a removal or an addition of each triple of the list at the end.
    fn append(&mut self, alloc: Global, removes: bool, list: TripleList) -> Result<(), AllocError>
        ensures ok { OnOk result (self.new ≡ self.old ++ map (changed_as removes) list) }
        ensures err { OnErr result (self.new ≡ self.old) }
    {
        let (terms, triples) = list.into_parts();
        let count = places_before(self.terms.len(), terms.len())?;
        let more = numbered_behind(alloc, removes, count, &triples)?;
        put_behind(&mut self.terms, terms)?;
        put_behind(&mut self.changes, more)?;
        Ok(())
    }

    /// Puts an addition of each triple of the list at the end. It fails for want of memory, or of places for the terms, of which
    /// there are 2^32 - 1, and the changes are then as they were.
    pub fn add_all(&mut self, alloc: Global, list: TripleList) -> Result<(), AllocError>
        ensures ok { OnOk result (self.new ≡ self.old ++ map changes.Add list) }
        ensures err { OnErr result (self.new ≡ self.old) }
    {
        self.append(alloc, false, list)
    }

    /// Puts a removal of each triple of the list at the end, as `add_all` does.
    pub fn remove_all(&mut self, alloc: Global, list: TripleList) -> Result<(), AllocError>
        ensures ok { OnOk result (self.new ≡ self.old ++ map changes.Remove list) }
        ensures err { OnErr result (self.new ≡ self.old) }
    {
        self.append(alloc, true, list)
    }

    /// Puts a change at the end. It fails as `add_all` does.
    pub fn push(&mut self, alloc: Global, change: Change) -> Result<(), AllocError>
        ensures ok { OnOk result (self.new ≡ self.old ++ change ∷ []) }
        ensures err { OnErr result (self.new ≡ self.old) }
    {
        match change {
            Change::Add(triple) => self.add_all(alloc, TripleList::of_one(alloc, triple)?),
            Change::Remove(triple) => self.remove_all(alloc, TripleList::of_one(alloc, triple)?),
        }
    }
}
