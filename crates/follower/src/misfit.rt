// The triples of a record that don't fit a graph.
ghost use Rattle.std.specs.Prelude.{◌≡◌, [], ◌∷◌, ◌++◌, IfOk, MatchOption, OnOk};
ghost use Rattle.collections.specs.Ordered.{has_item};
ghost use Rattle.rdf_model.specs.Graphs.{lacking};
ghost use Rattle.rdf_model.specs.Numbers.{AreNumbered, graph_of};
ghost use Rattle.rdf_model.specs.Terms.{triple_cmp};
ghost use Rattle.follower.specs.Numbered.{AreNamedTriples, IsNamedRecord, IsNamedTriple};
ghost use Rattle.follower.specs.Records.{Fits, IsLeastMisfit, having, misfits};

use crate::numbering::number_triple;
use collections::sorted_once;
use rdf_model::{Triple, Triples};
use record_text::Record;
use std::alloc::{AllocError, Global};
use term_dict::Dict;
use triple_index::Index;

// Whether the graph has the triple.
fn is_in(names: &Dict, graph: &Index, triple: &Triple) -> bool
    requires named { IsNamedTriple names.now.terms triple.now }
    requires numbered { AreNumbered names.now.terms graph.now }
    ensures { result ≡ has_item triple_cmp triple.now (graph_of names.now.terms graph.now) }
{
    names.recall_numbering();
    graph.contains(number_triple(names, triple))
}

// Adds the triple, where the graph lacks it.
fn add_lacking(
    names: &Dict,
    graph: &Index,
    triple: &Triple,
    into: &mut Vec<Triple>,
) -> Result<(), AllocError>
    requires named { IsNamedTriple names.now.terms triple.now }
    requires numbered { AreNumbered names.now.terms graph.now }
    ensures { OnOk result (into.new.items ≡ into.old.items ++ lacking (triple.now ∷ []) (graph_of names.now.terms graph.now)) }
{
    if !is_in(names, graph, triple) {
        into.push(triple.clone()?)?;
    }
    Ok(())
}

// Adds the triple, where the graph has it.
fn add_having(
    names: &Dict,
    graph: &Index,
    triple: &Triple,
    into: &mut Vec<Triple>,
) -> Result<(), AllocError>
    requires named { IsNamedTriple names.now.terms triple.now }
    requires numbered { AreNumbered names.now.terms graph.now }
    ensures { OnOk result (into.new.items ≡ into.old.items ++ having (triple.now ∷ []) (graph_of names.now.terms graph.now)) }
{
    if is_in(names, graph, triple) {
        into.push(triple.clone()?)?;
    }
    Ok(())
}

// Adds those of the triples that the graph lacks.
fn add_all_lacking(
    names: &Dict,
    graph: &Index,
    triples: &[Triple],
    into: &mut Vec<Triple>,
) -> Result<(), AllocError>
    requires named { AreNamedTriples names.now.terms triples.now }
    requires numbered { AreNumbered names.now.terms graph.now }
    ensures { OnOk result (into.new.items ≡ into.old.items ++ lacking triples.now (graph_of names.now.terms graph.now)) }
{
    for triple in triples {
        add_lacking(names, graph, triple, into)?;
    }
    Ok(())
}

// Adds those of the triples that the graph has.
fn add_all_having(
    names: &Dict,
    graph: &Index,
    triples: &[Triple],
    into: &mut Vec<Triple>,
) -> Result<(), AllocError>
    requires named { AreNamedTriples names.now.terms triples.now }
    requires numbered { AreNumbered names.now.terms graph.now }
    ensures { OnOk result (into.new.items ≡ into.old.items ++ having triples.now (graph_of names.now.terms graph.now)) }
{
    for triple in triples {
        add_having(names, graph, triple, into)?;
    }
    Ok(())
}

// The triples of a record that misfit.
fn misfits_of(
    alloc: Global,
    names: &Dict,
    graph: &Index,
    next: &Record,
) -> Result<Vec<Triple>, AllocError>
    requires named { IsNamedRecord names.now.terms next.now }
    requires numbered { AreNumbered names.now.terms graph.now }
    ensures { IfOk result (λ found. found.items ≡ misfits (graph_of names.now.terms graph.now) next.now) }
{
    let mut found = Vec::new(alloc);
    add_all_lacking(names, graph, next.removed.as_slice(), &mut found)?;
    add_all_having(names, graph, next.added.as_slice(), &mut found)?;
    Ok(found)
}

/// The least triple of a record that misfits the graph, if one does.
pub(crate) fn least_misfit(
    alloc: Global,
    names: &Dict,
    graph: &Index,
    next: &Record,
) -> Result<Option<Triple>, AllocError>
    requires named { IsNamedRecord names.now.terms next.now }
    requires numbered { AreNumbered names.now.terms graph.now }
    ensures { IfOk result (λ found. MatchOption found (Fits (graph_of names.now.terms graph.now) next.now)
        (λ t. IsLeastMisfit (graph_of names.now.terms graph.now) next.now t)) }
{
    let found = misfits_of(alloc, names, graph, next)?;
    let mut sorted = sorted_once(found)?;
    if sorted.is_empty() {
        return Ok(None);
    }
    Ok(Some(sorted.remove(0)))
}
