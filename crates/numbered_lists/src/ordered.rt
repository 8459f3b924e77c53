// Terms in the order in which triples have them.
ghost use Rattle.std.specs.Prelude.{◌≡◌, ◌<◌, IfOk, List, OnOk, length, set};
ghost use Rattle.rdf_model.specs.declared.term.Term.{Term as TermData};
ghost use Rattle.rdf_model.specs.Numbers.{AreNumbered, graph_of, term_at, triple_at};
ghost use Rattle.triple_index.specs.Changes.{IsNumbered};
ghost use Rattle.triple_table.specs.Tables.{HasGrown, IsPlaceOf, IsTripleOf};
ghost use Rattle.numbered_lists.specs.Meeting.{AreMet};

use crate::triples::TripleList;
use rdf_model::{Ids, Term};
use std::alloc::{AllocError, Global};
use std::mem;

// Terms that come into the order in which they are met: those that were not met, where they stood; those that were, and
// the place of each among them.
struct Meeting {
    left: Vec<Term>,
    met: Vec<Term>,
    places: Vec<Option<u32>>,
}

// Written by hand, so that what owns one calls it in place of having it written out.
impl Drop for Meeting {
    fn drop(self) {
        let Meeting {
            left: _,
            met: _,
            places: _,
        } = self;
    }
}

// The place that the next term has. There are 2^32 - 1 in all.
fn free_place(met: &[Term]) -> Result<u32, AllocError>
    ensures { IfOk result (λ place. place ≡ length met.now) }
{
    if met.len() >= u32::MAX as usize {
        return Err(AllocError);
    }
    Ok(met.len() as u32)
}

// The term at a place, where any other then stands.
fn take_term(terms: &mut [Term], place: u32) -> Term
    requires { place < length terms.old }
    ensures term { result ≡ term_at terms.old place }
    ensures left { (t : TermData) × (terms.new ≡ set terms.old place t) }
{
    let other = Term::Blank {
        session: 0,
        number: 0,
    };
    mem::replace(&mut terms[place as usize], other)
}

impl Meeting {
    // The place among the terms that were met of the one at a place of all, which is put behind them where it is met first.
    fn meet(&mut self, place: u32) -> Result<u32, AllocError>
        requires within { place < length self.old.left.items }
        requires long { length self.old.places.items ≡ length self.old.left.items }
        ensures grown { OnOk result (HasGrown self.old.met.items self.new.met.items) }
        ensures long { OnOk result ((length self.new.left.items ≡ length self.old.left.items) × (length self.new.places.items ≡ length self.old.places.items)) }
        ensures met { (all : List TermData) → AreMet all self.old.left.items self.old.met.items self.old.places.items → OnOk result (AreMet all self.new.left.items self.new.met.items self.new.places.items) }
        ensures place { (all : List TermData) → AreMet all self.old.left.items self.old.met.items self.old.places.items → IfOk result (λ p. IsPlaceOf self.new.met.items p (term_at all place)) }
    {
        if let Some(there) = self.places[place as usize] {
            return Ok(there);
        }
        let free = free_place(&self.met)?;
        self.met.push(take_term(&mut self.left, place))?;
        self.places[place as usize] = Some(free);
        Ok(free)
    }

    // The places of the terms of a triple among those that were met.
    fn meet_all(&mut self, triple: &Ids) -> Result<Ids, AllocError>
        requires within { IsNumbered self.old.left.items triple.now }
        requires long { length self.old.places.items ≡ length self.old.left.items }
        ensures grown { OnOk result (HasGrown self.old.met.items self.new.met.items) }
        ensures long { OnOk result ((length self.new.left.items ≡ length self.old.left.items) × (length self.new.places.items ≡ length self.old.places.items)) }
        ensures met { (all : List TermData) → AreMet all self.old.left.items self.old.met.items self.old.places.items → OnOk result (AreMet all self.new.left.items self.new.met.items self.new.places.items) }
        ensures ids { (all : List TermData) → AreMet all self.old.left.items self.old.met.items self.old.places.items → IfOk result (λ ids. IsTripleOf self.new.met.items ids (triple_at all triple.now)) }
    {
        let subject = self.meet(triple.subject)?;
        let predicate = self.meet(triple.predicate)?;
        let object = self.meet(triple.object)?;
        Ok(Ids {
            subject,
            predicate,
            object,
        })
    }

    // The terms that were met, in their order.
    fn into_met(self) -> Vec<Term>
        ensures { result.items ≡ self.met.items }
    {
        let Meeting {
            left: _,
            met,
            places: _,
        } = self;
        met
    }
}

// The triples of places in terms, which are moved into the order in which the triples have them.
pub(crate) fn in_order(
    alloc: Global,
    terms: Vec<Term>,
    triples: &[Ids],
) -> Result<TripleList, AllocError>
    requires { AreNumbered terms.items triples.now }
    ensures { IfOk result (λ list. list ≡ graph_of terms.items triples.now) }
{
    let mut meeting = Meeting {
        met: Vec::with_capacity(alloc, terms.len())?,
        places: vec![in alloc; None; terms.len()]?,
        left: terms,
    };
    let mut found = Vec::with_capacity(alloc, triples.len())?;
    for triple in triples {
        found.push(meeting.meet_all(triple)?)?;
    }
    Ok(TripleList::from_parts(meeting.into_met(), found))
}
