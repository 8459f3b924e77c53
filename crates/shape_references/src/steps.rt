// The references of an ascending graph by numbers of its nodes. The number of a subject is the index of its first triple;
// other nodes have none, as no chain leads on from them.
ghost use Rattle.std.specs.Prelude.{◌≡◌, ◌⊎◌, ◌<◌, Some, map, IfOk, OnOk, IsTrue, length, slice_get};
ghost use Rattle.rdf_model.specs.declared.triple.Triple.{Triple as TripleData};
ghost use Rattle.shape_references.specs.Steps.{AreIndices, AreSteps, HaveNumbers, IsRepeated, Numbers, number_in, step_in};

use collections::Sequence;
use rdf_model::{Term, Triple};
use shape_syntax::terms::is_same;
use std::alloc::{AllocError, Global};
use std::collections::BTreeMap;

/// A triple with numbers for its subject and its object.
#[derive(Copy, Clone)]
pub(crate) struct Step {
    pub from: Option<usize>,
    pub to: Option<usize>,
}

// Whether the triple at the index has the subject of the one before.
fn is_repeated(graph: &[Triple], index: usize) -> bool
    requires { index < length graph.now }
    ensures { IsTrue result → (t : TripleData) → slice_get graph.now index ≡ Some t → IsRepeated graph.now index t }
{
    if index == 0 {
        return false;
    }
    is_same(&graph[index - 1].subject, &graph[index].subject)
}

// Gives the subject of the triple at the index its number, if it is the first with the subject.
fn put_number(
    graph: &[Triple],
    index: usize,
    numbers: &mut BTreeMap<Term, usize>,
) -> Result<(), AllocError>
    requires { index < length graph.now }
    ensures { OnOk result ((t : TripleData) → slice_get graph.now index ≡ Some t
        → (IsRepeated graph.now index t × (numbers.new ≡ numbers.old)) ⊎ Numbers numbers.old t.subject index numbers.new) }
{
    if is_repeated(graph, index) {
        return Ok(());
    }
    let _ = numbers.insert(graph[index].subject.clone()?, index)?;
    Ok(())
}

// The number of each subject.
fn numbers_of(alloc: Global, graph: &[Triple]) -> Result<BTreeMap<Term, usize>, AllocError>
    ensures { IfOk result (λ numbers. AreIndices graph.now numbers × HaveNumbers graph.now numbers) }
{
    let mut numbers = BTreeMap::new(alloc);
    for index in 0..graph.len() {
        put_number(graph, index, &mut numbers)?;
    }
    Ok(numbers)
}

fn number_of(numbers: &BTreeMap<Term, usize>, node: &Term) -> Option<usize>
    ensures { result ≡ number_in numbers.now node.now }
{
    match numbers.get(node) {
        Some(number) => Some(*number),
        None => None,
    }
}

fn step_of(numbers: &BTreeMap<Term, usize>, triple: &Triple) -> Step
    ensures { result ≡ step_in numbers.now triple.now }
{
    Step {
        from: number_of(numbers, &triple.subject),
        to: number_of(numbers, &triple.object),
    }
}

fn steps_by(
    alloc: Global,
    numbers: &BTreeMap<Term, usize>,
    graph: &[Triple],
) -> Result<Sequence<Step>, AllocError>
    ensures { IfOk result (λ steps. steps ≡ map (step_in numbers.now) graph.now) }
{
    let mut steps = Sequence::new(alloc);
    for triple in graph {
        steps.push(step_of(numbers, triple))?;
    }
    Ok(steps)
}

/// The triples of the graph, with numbers in place of nodes.
pub(crate) fn steps_of(alloc: Global, graph: &[Triple]) -> Result<Sequence<Step>, AllocError>
    ensures { IfOk result (λ steps. AreSteps graph.now steps) }
{
    let numbers = numbers_of(alloc, graph)?;
    let steps = steps_by(alloc, &numbers, graph)?;
    Ok(steps)
}

/// Marks the number, and says whether it wasn't marked before.
pub(crate) fn mark(marked: &mut [bool], number: usize) -> bool {
    let Some(is_marked) = marked.get_mut(number) else {
        return false;
    };
    let is_new = !*is_marked;
    *is_marked = true;
    is_new
}
