//! Data graphs and changes by the numbers of terms.
ghost use Rattle.std.specs.Prelude.{◌≡◌, ◌≤◌, ◌<◌, IfOk, OnOk, length, map};
ghost use Rattle.std.specs.List.{AllByRecursion};
ghost use Rattle.rdf_model.specs.Numbers.{AreNumbered, graph_of};
ghost use Rattle.parallel_validate.specs.Counting.{GrowsByCount, IsTargetPair};
ghost use Rattle.bound_shapes.specs.Bound.{IsBoundTo};
ghost use Rattle.kept_rows.specs.Laws.{KeepsResults};
ghost use Rattle.triple_index.specs.Changes.{IsNumberedChange, change_at};
ghost use Rattle.data_graph.specs.DataGraphs.{AreNamedChanges, KeepsIndex};
ghost use Rattle.data_graph.specs.Nets.{ids_changed};
ghost use Rattle.data_graph.specs.Numbering.{AreNumbersWhereNamed, HasChangePlaces, change_by, ids_at};

use crate::at_once::set_after;
use crate::changed::numbers_of;
use crate::hints::{NumberHints, number_by_hint};
use bound_shapes::BoundShapes;
use kept_rows::KeptRows;
use kept_validation::whole_kept;
use numbered_lists::Net;
use path_eval::ClassWords;
use rdf_model::{Ids, Term};
use shape_eval::Steps;
use std::alloc::{AllocError, Global};
use std::sync::ledger::Ledger;
use std::thread::Threads;
use term_dict::Dict;
use triple_index::{Index, NumberedChange};

// The numbers of rdf:type and rdfs:subClassOf, which are named first.
pub(crate) const CLASS_WORDS: ClassWords = ClassWords {
    rdf_type: 0,
    sub_class_of: 1,
};

// The numbers of the terms that are named, by their places; any at the place of another.
fn number_terms(
    alloc: Global,
    names: &Dict,
    terms: &[Term],
    hints: &NumberHints,
) -> Result<Vec<u32>, AllocError>
    ensures { IfOk result (λ numbers. AreNumbersWhereNamed names.now.terms terms.now numbers.items) }
{
    let mut numbers = Vec::with_capacity(alloc, terms.len())?;
    for (place, term) in terms.iter().enumerate() {
        numbers.push(number_by_hint(names, hints.of(place), term))?;
    }
    Ok(numbers)
}

// The numbers at the places of a triple.
fn numbers_at(numbers: &[u32], places: &Ids) -> Ids
    requires { (places.now.subject < length numbers.now) × (places.now.predicate < length numbers.now) × (places.now.object < length numbers.now) }
    ensures { result ≡ ids_at numbers.now places.now }
{
    Ids {
        subject: numbers[places.subject as usize],
        predicate: numbers[places.predicate as usize],
        object: numbers[places.object as usize],
    }
}

// A change by the numbers at its places.
fn number_change(numbers: &[u32], change: &NumberedChange) -> NumberedChange
    requires { HasChangePlaces numbers.now change.now }
    ensures { result ≡ change_by numbers.now change.now }
{
    match change {
        NumberedChange::Add(places) => NumberedChange::Add(numbers_at(numbers, places)),
        NumberedChange::Remove(places) => NumberedChange::Remove(numbers_at(numbers, places)),
    }
}

// The changes by the numbers at their places, in their order.
fn changes_by(
    alloc: Global,
    numbers: &[u32],
    changes: &[NumberedChange],
) -> Result<Vec<NumberedChange>, AllocError>
    requires { AllByRecursion (HasChangePlaces numbers.now) changes.now }
    ensures { IfOk result (λ numbered. numbered.items ≡ map (change_by numbers.now) changes.now) }
{
    let mut numbered = Vec::with_capacity(alloc, changes.len())?;
    for change in changes {
        numbered.push(number_change(numbers, change))?;
    }
    Ok(numbered)
}

/// The changes by the numbers of their terms, in their order. Each term is looked up once.
pub(crate) fn number_changes(
    alloc: Global,
    names: &Dict,
    net: &Net,
    hints: &NumberHints,
) -> Result<Vec<NumberedChange>, AllocError>
    requires { AreNamedChanges names.now.terms net.now }
    ensures { IfOk result (λ changes. AllByRecursion (IsNumberedChange names.now.terms) changes.items × (map (change_at names.now.terms) changes.items ≡ net.now)) }
{
    let (terms, changes) = net.parts();
    let numbers = number_terms(alloc, names, terms, hints)?;
    let numbered = changes_by(alloc, &numbers, changes)?;
    Ok(numbered)
}

/// The numbers of the triples that the changes add or remove.
pub(crate) fn triples_changed(
    alloc: Global,
    changes: &[NumberedChange],
) -> Result<Vec<Ids>, AllocError>
    ensures { IfOk result (λ ids. ids.items ≡ map ids_changed changes.now) }
{
    let mut ids = Vec::with_capacity(alloc, changes.len())?;
    for change in changes {
        ids.push(numbers_of(change))?;
    }
    Ok(ids)
}

/// The index after the changes. It shares with the index what they leave.
pub(crate) fn index_after(
    alloc: Global,
    names: &Dict,
    index: &Index,
    net: &Net,
    hints: &NumberHints,
) -> Result<Index, AllocError>
    requires { AreNamedChanges names.now.terms net.now }
    ensures { IfOk result (KeepsIndex names.now.terms index.now net.now) }
{
    names.recall_numbering();
    index.recall_ascending();
    let changes = number_changes(alloc, names, net, hints)?;
    set_after(alloc, index, &changes)
}

/// The results of the graph that an index stands for, each with the pair that gives it. Threads share out the evaluations among
/// each other.
pub(crate) fn kept_by<L: Ledger, T: Threads + Sync>(
    rt: &T,
    alloc: Global,
    names: &Dict,
    index: &Index,
    shapes: &BoundShapes,
    steps: &mut Steps<L>,
) -> Result<KeptRows, AllocError>
    requires index { AreNumbered names.now.terms index.now }
    requires shapes { IsBoundTo names.now.terms shapes.now }
    ensures rows { IfOk result (KeepsResults names.now.terms (graph_of names.now.terms index.now) shapes.now.graph) }
    ensures steps { OnOk result (GrowsByCount (IsTargetPair (graph_of names.now.terms index.now) shapes.now.graph) steps.old steps.new) }
    ensures counted { steps.old ≤ steps.new }
{
    names.recall_numbering();
    let planned = shapes.planned();
    Ok(whole_kept(
        rt,
        alloc,
        index,
        names,
        planned.words,
        &planned.bound,
        steps,
    )?)
}
