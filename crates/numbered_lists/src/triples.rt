//! A list of triples.
ghost use Rattle.std.specs.Prelude.{◌≡◌, [], ◌∷◌, ◌==◌, IfOk, length};
ghost use Rattle.std.specs.List.{Contains};
ghost use Rattle.collections.specs.Listings.{IsListing};
ghost use Rattle.rdf_model.specs.Numbers.{AreNumbered, graph_of};
ghost use Rattle.rdf_model.specs.Terms.{triple_cmp};

use crate::ordered::in_order;
use rdf_model::{Ids, Term, Triple};
use std::alloc::{AllocError, Global};
use std::marker::Model;
use triple_table::TripleTable;

/// Triples in any order, by the places of their terms in a list of terms. Contracts see the list of the triples.
#[derive(Debug)]
pub struct TripleList {
    terms: Vec<Term>,
    triples: Vec<Ids>,
}

// Written by hand, so that what owns a list calls it in place of having it written out.
impl Drop for TripleList {
    fn drop(self) {
        let TripleList {
            terms: _,
            triples: _,
        } = self;
    }
}

impl Model for TripleList {
    ghost use Rattle.std.specs.Prelude.{List};
    ghost use Rattle.rdf_model.specs.Numbers.{AreNumbered, graph_of};
    ghost use Rattle.rdf_model.specs.declared.triple.Triple.{Triple as TripleData};

    ghost Value = { List TripleData };

    ghost view = { λ t. graph_of t.terms.items t.triples.items };

    ghost invariant = { λ t. AreNumbered t.terms.items t.triples.items };
}

// The triples in the order in which they are told, by the numbers of their terms.
fn table_of(alloc: Global, triples: &[Triple]) -> Result<TripleTable, AllocError>
    ensures { IfOk result (λ table. table ≡ triples.now) }
{
    let mut table = TripleTable::new(alloc);
    for triple in triples {
        table.push_terms(&triple.subject, &triple.predicate, triple.object.clone()?)?;
    }
    Ok(table)
}

impl TripleList {
    /// No triple. It takes no memory.
    pub fn new(alloc: Global) -> TripleList
        ensures { result ≡ [] }
    {
        TripleList {
            terms: Vec::new(alloc),
            triples: Vec::new(alloc),
        }
    }

    /// The triples of these places in the terms.
    pub fn from_parts(terms: Vec<Term>, triples: Vec<Ids>) -> TripleList
        requires { AreNumbered terms.items triples.items }
        ensures { result ≡ graph_of terms.items triples.items }
    {
        TripleList { terms, triples }
    }

    /// These triples. A term is copied once, however many of them have it. It fails for want of memory, or where there are more
    /// than 2^32 - 1 terms.
    pub fn copied_from(alloc: Global, triples: &[Triple]) -> Result<TripleList, AllocError>
        ensures { IfOk result (λ list. list ≡ triples.now) }
    {
        let (terms, triples) = table_of(alloc, triples)?.into_terms();
        Ok(TripleList {
            terms: terms.into_list(),
            triples,
        })
    }

    /// The triples of a table, each once, in their order. No term is copied; they stand in the order in which the triples have them.
    pub fn from_table(alloc: Global, table: TripleTable) -> Result<TripleList, AllocError>
        ensures { IfOk result (λ list. IsListing triple_cmp (Contains table) list) }
    {
        let (terms, triples) = table.into_sorted_list()?;
        in_order(alloc, terms, &triples)
    }

    /// One triple.
    pub fn of_one(alloc: Global, triple: Triple) -> Result<TripleList, AllocError>
        ensures { IfOk result (λ list. list ≡ triple ∷ []) }
    {
        let (subject, predicate, object) = triple.into_terms();
        let mut terms = Vec::with_capacity(alloc, 3)?;
        terms.push(subject)?;
        terms.push(predicate)?;
        terms.push(object)?;
        let mut triples = Vec::with_capacity(alloc, 1)?;
        triples.push(Ids {
            subject: 0,
            predicate: 1,
            object: 2,
        })?;
        Ok(TripleList { terms, triples })
    }

    /// How many triples there are.
    pub fn len(&self) -> usize
        ensures { result ≡ length self.now }
    {
        self.triples.len()
    }

    pub fn is_empty(&self) -> bool
        ensures { result ≡ (length self.now == 0) }
    {
        self.triples.is_empty()
    }

    /// The terms, and the triples by the places of their terms among them.
    pub fn parts(&self) -> (&[Term], &[Ids])
        ensures triples { graph_of result.0.now result.1.now ≡ self.now }
        ensures numbered { AreNumbered result.0.now result.1.now }
    {
        (&self.terms, &self.triples)
    }

    // The terms, and the triples by the places of their terms among them.
    pub(crate) fn into_parts(self) -> (Vec<Term>, Vec<Ids>)
        ensures triples { graph_of result.0.items result.1.items ≡ self }
        ensures numbered { AreNumbered result.0.items result.1.items }
    {
        let TripleList { terms, triples } = self;
        (terms, triples)
    }
}
