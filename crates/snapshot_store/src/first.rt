//! The first of some triples of numbers, by their terms.
ghost use Rattle.std.specs.Prelude.{◌≡◌, ◌<◌, [], IfOk, MatchOption, Some, length};
ghost use Rattle.rdf_model.specs.Graphs.{with_each};
ghost use Rattle.rdf_model.specs.Numbers.{AreNumbered, graph_of, term_at, triple_at};
ghost use Rattle.rdf_model.specs.Terms.{term_cmp, triple_cmp};
ghost use Rattle.triple_index.specs.Changes.{IsNumbered};
ghost use Rattle.snapshot_store.specs.First.{IsFirst, IsNumberedIfSome, first_at, first_in, sooner};

use numbered_patterns::read_triple;
use rdf_model::{Ids, Names, Term, Triple};
use std::alloc::AllocError;
use std::cmp::Ordering;
use term_dict::Dict;

fn term_of(names: &Dict, number: u32) -> &Term
    requires { number < length names.now.terms }
    ensures { result.now ≡ term_at names.now.terms number }
{
    match names.term(number) {
        Some(term) => term,
        None => unreachable!(),
    }
}

fn term_order(names: &Dict, first: u32, second: u32) -> Ordering
    requires first { first < length names.now.terms }
    requires second { second < length names.now.terms }
    ensures { result ≡ term_cmp (term_at names.now.terms first) (term_at names.now.terms second) }
{
    term_of(names, first).cmp(term_of(names, second))
}

// How the triples of two triples of numbers stand to each other.
fn triple_order(names: &Dict, first: Ids, second: Ids) -> Ordering
    requires first { IsNumbered names.now.terms first }
    requires second { IsNumbered names.now.terms second }
    ensures { result ≡ triple_cmp (triple_at names.now.terms first) (triple_at names.now.terms second) }
{
    term_order(names, first.subject, second.subject)
        .then_with(|| term_order(names, first.predicate, second.predicate))
        .then_with(|| term_order(names, first.object, second.object))
}

// The first of the triples so far, and one more.
fn sooner_of(names: &Dict, first: Option<Ids>, triple: Ids) -> Ids
    requires first { IsNumberedIfSome names.now.terms first }
    requires triple { IsNumbered names.now.terms triple }
    ensures numbered { IsNumbered names.now.terms result }
    ensures sooner { Some (triple_at names.now.terms result) ≡ sooner (triple_at names.now.terms triple) (first_at names.now.terms first) }
{
    match first {
        None => triple,
        Some(first) => match triple_order(names, triple, first) {
            Ordering::Less => triple,
            Ordering::Equal => first,
            Ordering::Greater => first,
        },
    }
}

// The first of the triples, if there is one.
fn first_number(names: &Dict, triples: &[Ids]) -> Option<Ids>
    requires { AreNumbered names.now.terms triples.now }
    ensures { IsFirst names.now.terms triples.now result }
{
    let mut first = None;
    for triple in triples {
        first = Some(sooner_of(names, first, *triple));
    }
    first
}

/// The first of the triples, if there is one.
pub(crate) fn first_triple(names: &Dict, triples: &[Ids]) -> Result<Option<Triple>, AllocError>
    requires { AreNumbered names.now.terms triples.now }
    ensures { IfOk result (λ first. first ≡ first_in (with_each [] (graph_of names.now.terms triples.now))) }
{
    match first_number(names, triples) {
        Some(ids) => Ok(Some(read_triple(names, ids)?)),
        None => Ok(None),
    }
}
