//! The least node from which a chain leads to itself.
ghost use Rattle.std.specs.Prelude.{◌≡◌, ◌↔◌, ◌<◌, Some, IsTrue, IfOk, OnOk, MatchOption, length, slice_get};
ghost use Rattle.collections.specs.Ordered.{IsAscending};
ghost use Rattle.rdf_model.specs.declared.term.Term.{Term as TermData};
ghost use Rattle.rdf_model.specs.declared.triple.Triple.{Triple as TripleData};
ghost use Rattle.rdf_model.specs.Terms.{triple_cmp};
ghost use Rattle.shape_references.specs.Chains.{HasLoopAt, IsLeastOnLoop, TellsLoop};
ghost use Rattle.shape_references.specs.Asking.{ArePending};
ghost use Rattle.shape_references.specs.Steps.{AreSteps};
ghost use Rattle.shape_references.specs.Ranks.{AreLevel};

use crate::below::from_below;
use crate::leading::leads_back;
use crate::ranks::{are_level, ranks_of, rises};
use crate::steps::{Step, steps_of};
use collections::Sequence;
use rdf_model::{Term, Triple};
use std::alloc::{AllocError, Global};

// Adds the subjects that stand at the numbers.
fn push_numbered(
    graph: &[Triple],
    numbers: &[usize],
    pending: &mut Sequence<Term>,
) -> Result<(), AllocError> {
    for number in numbers {
        if let Some(triple) = graph.get(*number) {
            pending.push(triple.subject.clone()?)?;
        }
    }
    Ok(())
}

fn push_subjects(graph: &[Triple], pending: &mut Sequence<Term>) -> Result<(), AllocError>
    ensures { OnOk result (ArePending graph.now pending.new) }
{
    for triple in graph {
        pending.push(triple.subject.clone()?)?;
    }
    Ok(())
}

// Whether a chain leads from the node to itself. The subjects are asked in the order of `from_below`.
fn is_on_loop(
    alloc: Global,
    graph: &[Triple],
    below: &[usize],
    node: &Term,
) -> Result<bool, AllocError>
    requires { IsAscending triple_cmp graph.now }
    ensures { IfOk result (λ found. IsTrue found ↔ HasLoopAt graph.now node.now) }
{
    let mut pending = Sequence::new(alloc);
    push_numbered(graph, below, &mut pending)?;
    push_subjects(graph, &mut pending)?;
    leads_back(alloc, graph, pending.as_slice(), node)
}

// Whether a chain leads from the subject of the triple at the index to itself; not, where none begins with this triple.
fn finds_loop(
    alloc: Global,
    graph: &[Triple],
    steps: &[Step],
    ranks: &[usize],
    level: bool,
    below: &[usize],
    index: usize,
) -> Result<bool, AllocError>
    requires graph { IsAscending triple_cmp graph.now }
    requires steps { AreSteps graph.now steps.now }
    requires level { IsTrue level → AreLevel steps.now ranks.now }
    requires index { index < length graph.now }
    ensures { IfOk result (λ found. (t : TripleData) → slice_get graph.now index ≡ Some t → TellsLoop graph.now t found) }
{
    if level && rises(ranks, steps[index]) {
        return Ok(false);
    }
    let found = is_on_loop(alloc, graph, below, &graph[index].subject)?;
    Ok(found)
}

// The first of the subjects from which a chain leads to itself.
fn first_on_loop<'a>(
    alloc: Global,
    graph: &'a [Triple],
    steps: &[Step],
    ranks: &[usize],
    below: &[usize],
) -> Result<Option<&'a Term>, AllocError>
    requires graph { IsAscending triple_cmp graph.now }
    requires steps { AreSteps graph.now steps.now }
    ensures { IfOk result (λ found. MatchOption found ((n : TermData) → HasLoopAt graph.now n → ⊥) (λ n. IsLeastOnLoop graph.now n.now)) }
{
    let level = are_level(steps, ranks);
    for (index, triple) in graph.iter().enumerate() {
        let found = finds_loop(alloc, graph, steps, ranks, level, below, index)?;
        if found {
            return Ok(Some(&triple.subject));
        }
    }
    Ok(None)
}

// The least node on a loop, as ranks show it. The nodes stand in the order of `from_below`.
fn least_by_ranks(
    alloc: Global,
    graph: &[Triple],
    steps: &[Step],
    below: &[usize],
) -> Result<Option<Term>, AllocError>
    requires graph { IsAscending triple_cmp graph.now }
    requires steps { AreSteps graph.now steps.now }
    ensures { IfOk result (λ found. MatchOption found ((n : TermData) → HasLoopAt graph.now n → ⊥) (λ n. IsLeastOnLoop graph.now n)) }
{
    let ranks = ranks_of(alloc, steps, below)?;
    match first_on_loop(alloc, graph, steps, ranks.as_slice(), below)? {
        Some(node) => Ok(Some(node.clone()?)),
        None => Ok(None),
    }
}

/// The least node from which a chain of one triple or more leads to itself, if there is one.
pub fn least_on_loop(alloc: Global, graph: &[Triple]) -> Result<Option<Term>, AllocError>
    requires { IsAscending triple_cmp graph.now }
    ensures { IfOk result (λ found. MatchOption found ((n : TermData) → HasLoopAt graph.now n → ⊥) (λ n. IsLeastOnLoop graph.now n)) }
{
    let steps = steps_of(alloc, graph)?;
    let below = from_below(alloc, steps.as_slice())?;
    least_by_ranks(alloc, graph, steps.as_slice(), below.as_slice())
}
