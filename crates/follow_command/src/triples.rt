// The triples of a version.
ghost use Rattle.std.specs.Prelude.{◌≡◌, ◌<◌, IfOk, List, length};
ghost use Rattle.std.specs.List.{All};
ghost use Rattle.rdf_model.specs.Numbers.{AreNumbered, graph_of, term_at, triple_at};
ghost use Rattle.rdf_model.specs.declared.triple.Triple.{Triple as TripleData};
ghost use Rattle.rdf_model.specs.Terms.{triple_cmp};
ghost use Rattle.collections.specs.Ordered.{IsAscending};
ghost use Rattle.triple_index.specs.Changes.{IsNumbered};
ghost use Rattle.follower.specs.Numbered.{IsIndexOf};

use collections::sorted_once;
use follower::Served;
use rdf_model::{Ids, Names, Term, Triple};
use std::alloc::{AllocError, Global};
use term_dict::Dict;

// A clone of the term of a number.
fn term_of(names: &Dict, number: u32) -> Result<Term, AllocError>
    requires { number < length names.now.terms }
    ensures { IfOk result (λ term. term ≡ term_at names.now.terms number) }
{
    match names.term(number) {
        Some(term) => term.clone(),
        None => unreachable!(),
    }
}

// The triple of three numbers.
fn triple_of(names: &Dict, ids: Ids) -> Result<Triple, AllocError>
    requires { IsNumbered names.now.terms ids }
    ensures { IfOk result (λ triple. triple ≡ triple_at names.now.terms ids) }
{
    Ok(Triple {
        subject: term_of(names, ids.subject)?,
        predicate: term_of(names, ids.predicate)?,
        object: term_of(names, ids.object)?,
    })
}

// The triples of numbers, in their order.
fn triples_of(alloc: Global, names: &Dict, ids: &[Ids]) -> Result<Vec<Triple>, AllocError>
    requires { All (IsNumbered names.now.terms) ids.now }
    ensures { IfOk result (λ triples. triples.items ≡ graph_of names.now.terms ids.now) }
{
    let mut triples = Vec::with_capacity(alloc, ids.len())?;
    for numbers in ids {
        triples.push(triple_of(names, *numbers)?)?;
    }
    Ok(triples)
}

/// The triples of the data graph that is served, ascending.
pub(crate) fn served_triples(alloc: Global, served: &Served) -> Result<Vec<Triple>, AllocError>
    requires { AreNumbered served.now.names.terms served.now.graph }
    ensures { IfOk result (λ triples. (g : List TripleData) → IsAscending triple_cmp g → IsIndexOf served.now.names.terms served.now.graph g → triples.items ≡ g) }
{
    let found = served.graph.find_pattern(None, None, None)?;
    let triples = triples_of(alloc, &served.names, &found)?;
    Ok(sorted_once(triples)?)
}
