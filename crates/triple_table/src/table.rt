//! Triples in the order in which they were found.
ghost use Rattle.std.specs.Prelude.{◌≡◌, [], ◌∷◌, ◌++◌, IfOk, OnErr, OnOk};
ghost use Rattle.std.specs.List.{Contains};
ghost use Rattle.collections.specs.Listings.{IsListing};
ghost use Rattle.rdf_model.specs.Numbers.{AreNumbered, IsNumbering, graph_of};
ghost use Rattle.rdf_model.specs.Terms.{triple_cmp};

use crate::numbered::NumberedTerms;
use crate::ranks::{sorted_numbers, triples_of};
use collections::Sequence;
use rdf_model::{Ids, Term, Triple};
use std::alloc::{AllocError, Global};
use std::marker::Model;

/// Triples in the order in which they were found, by the numbers of their terms, each of which is kept once. Contracts see
/// the list of the triples.
#[derive(Debug)]
pub struct TripleTable {
    alloc: Global,
    terms: NumberedTerms,
    triples: Vec<Ids>,
}

// Written by hand, so that what owns a table calls it in place of having it written out.
impl Drop for TripleTable {
    fn drop(self) {
        let TripleTable {
            alloc: _,
            terms: _,
            triples: _,
        } = self;
    }
}

impl Model for TripleTable {
    ghost use Rattle.std.specs.Prelude.{List};
    ghost use Rattle.rdf_model.specs.Numbers.{AreNumbered, graph_of};
    ghost use Rattle.rdf_model.specs.declared.triple.Triple.{Triple as TripleData};

    ghost Value = { List TripleData };

    ghost view = { λ t. graph_of t.terms t.triples.items };

    ghost invariant = { λ t. AreNumbered t.terms t.triples.items };
}

// The numbers of the last triple, or of none.
fn last_of(triples: &[Ids]) -> Ids {
    match triples.last() {
        Some(ids) => *ids,
        None => Ids {
            subject: 0,
            predicate: 0,
            object: 0,
        },
    }
}

impl TripleTable {
    /// No triple. It takes no memory.
    pub fn new(alloc: Global) -> TripleTable
        ensures { result ≡ [] }
    {
        TripleTable {
            alloc,
            terms: NumberedTerms::new(alloc),
            triples: Vec::new(alloc),
        }
    }

    /// Adds the triple of three terms. It fails for want of memory, or of numbers for the terms, and the triples are then as they
    /// were. A term that is there is not copied, and where the subject or the predicate is that of the triple before, it costs one
    /// comparison.
    pub fn push_terms(
        &mut self,
        subject: &Term,
        predicate: &Term,
        object: Term,
    ) -> Result<(), AllocError>
        ensures ok { OnOk result (self.new ≡ self.old ++ record { subject = subject.now; predicate = predicate.now; object = object } ∷ []) }
        ensures err { OnErr result (self.new ≡ self.old) }
    {
        let near = last_of(&self.triples);
        let ids = self.terms.place_all(near, subject, predicate, object)?;
        self.triples.push(ids)?;
        Ok(())
    }

    /// The triples, each once, in their order.
    pub fn into_sorted(self) -> Result<Sequence<Triple>, AllocError>
        ensures { IfOk result (λ sorted. IsListing triple_cmp (Contains self) sorted) }
    {
        let TripleTable {
            alloc,
            terms,
            triples,
        } = self;
        terms.recall_numbering();
        let terms = terms.into_list();
        let sorted = sorted_numbers(alloc, &terms, &triples)?;
        triples_of(alloc, &terms, &sorted)
    }

    /// The triples, each once, in their order, by the places of their terms in a list of terms, each of which stands there once.
    pub fn into_sorted_list(self) -> Result<(Vec<Term>, Vec<Ids>), AllocError>
        ensures numbered { IfOk result (λ list. AreNumbered list.0.items list.1.items) }
        ensures sorted { IfOk result (λ list. IsListing triple_cmp (Contains self) (graph_of list.0.items list.1.items)) }
        ensures numbering { IfOk result (λ list. IsNumbering list.0.items) }
    {
        let TripleTable {
            alloc,
            terms,
            triples,
        } = self;
        terms.recall_numbering();
        let terms = terms.into_list();
        let sorted = sorted_numbers(alloc, &terms, &triples)?;
        Ok((terms, sorted))
    }

    /// The terms, each once, and the triples by the numbers of their terms.
    pub fn into_terms(self) -> (NumberedTerms, Vec<Ids>)
        ensures graph { graph_of result.0 result.1.items ≡ self }
        ensures numbered { AreNumbered result.0 result.1.items }
        ensures numbering { IsNumbering result.0 }
    {
        let TripleTable {
            alloc: _,
            terms,
            triples,
        } = self;
        terms.recall_numbering();
        (terms, triples)
    }
}
