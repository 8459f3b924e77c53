//! The triples that a pattern asks for, by the numbers of their terms.
ghost use Rattle.std.specs.Prelude.{◌≡◌, ◌↔◌, [], IfOk, MatchOption};
ghost use Rattle.std.specs.List.{All, Contains};
ghost use Rattle.collections.specs.Ordered.{has_item};
ghost use Rattle.rdf_model.specs.declared.ids.Ids.{Ids as IdsData};
ghost use Rattle.rdf_model.specs.Graphs.{with_each};
ghost use Rattle.rdf_model.specs.Numbers.{AreNumbered, graph_of, triple_at};
ghost use Rattle.rdf_model.specs.Terms.{triple_cmp};
ghost use Rattle.store_model.specs.Finds.{found};
ghost use Rattle.parallel_validate.specs.Named.{IsNamedTriple, IsNumbered};
ghost use Rattle.data_graph.specs.DataGraphs.{triples_at};
ghost use Rattle.data_graph.specs.Finding.{IsAsked};

use collections::sorted_once;
use numbered_patterns::{NumberedPattern, read_triple};
use rdf_model::{Ids, Names, Pattern, Triple, Triples};
use std::alloc::{AllocError, Global};
use term_dict::Dict;
use triple_index::Index;

// The numbers of the triples that the pattern asks for, in any order.
fn ids_asked(
    alloc: Global,
    names: &Dict,
    index: &Index,
    pattern: &Pattern,
) -> Result<Vec<Ids>, AllocError>
    requires { AreNumbered names.now.terms index.now }
    ensures { IfOk result (λ ids. (i : IdsData) → Contains ids.items i ↔ IsAsked names.now.terms index.now pattern.now i) }
{
    match NumberedPattern::of(names, pattern) {
        None => Ok(Vec::new(alloc)),
        Some(asked) => Ok(index.find_pattern(asked.subject, asked.predicate, asked.object)?),
    }
}

/// The triples of numbers, in their order.
pub(crate) fn read_triples(
    alloc: Global,
    names: &Dict,
    ids: &[Ids],
) -> Result<Vec<Triple>, AllocError>
    requires { All (IsNumbered names.now.terms) ids.now }
    ensures { IfOk result (λ triples. triples.items ≡ graph_of names.now.terms ids.now) }
{
    let mut triples = Vec::with_capacity(alloc, ids.len())?;
    for numbers in ids {
        triples.push(read_triple(names, *numbers)?)?;
    }
    Ok(triples)
}

/// The triples of numbers, ascending, each once.
pub(crate) fn sorted_triples(
    alloc: Global,
    names: &Dict,
    ids: &[Ids],
) -> Result<Vec<Triple>, AllocError>
    requires { AreNumbered names.now.terms ids.now }
    ensures { IfOk result (λ triples. triples.items ≡ triples_at names.now.terms ids.now) }
{
    let triples = read_triples(alloc, names, ids)?;
    Ok(sorted_once(triples)?)
}

// The numbers of the triple's terms, where all have one.
fn numbers_of(names: &Dict, triple: &Triple) -> Option<Ids>
    ensures { MatchOption result (IsNamedTriple names.now.terms triple.now → ⊥) (λ ids. IsNumbered names.now.terms ids × (triple_at names.now.terms ids ≡ triple.now)) }
{
    Some(Ids {
        subject: names.id(&triple.subject)?,
        predicate: names.id(&triple.predicate)?,
        object: names.id(&triple.object)?,
    })
}

/// Whether a triple is one of those that an index stands for.
pub(crate) fn has_triple(names: &Dict, index: &Index, triple: &Triple) -> bool
    requires { AreNumbered names.now.terms index.now }
    ensures { result ≡ has_item triple_cmp triple.now (triples_at names.now.terms index.now) }
{
    names.recall_numbering();
    match numbers_of(names, triple) {
        Some(ids) => index.contains(ids),
        None => false,
    }
}

/// The triples that the pattern asks for of those that an index stands for, in any order.
pub(crate) fn triples_asked(
    alloc: Global,
    names: &Dict,
    index: &Index,
    pattern: &Pattern,
) -> Result<Vec<Triple>, AllocError>
    requires { AreNumbered names.now.terms index.now }
    ensures { IfOk result (λ v. with_each [] v.items ≡ found (triples_at names.now.terms index.now) pattern.now) }
{
    let ids = ids_asked(alloc, names, index, pattern)?;
    Ok(read_triples(alloc, names, &ids)?)
}
