// The nodes of a graph in an order in which those that a node needs to stand for a path come before it, where they don't
// need it in turn.
ghost use Rattle.std.specs.Prelude.{◌≡◌, ◌⊎◌, IfOk, OnOk};
ghost use Rattle.std.specs.List.{Contains};
ghost use Rattle.collections.specs.Ordered.{IsAscending};
ghost use Rattle.rdf_model.specs.declared.term.Term.{Term as TermData};
ghost use Rattle.rdf_model.specs.Terms.{triple_cmp};
ghost use Rattle.shape_syntax.specs.Subjects.{IsSubject};

use crate::IndexedGraph;
use crate::list::cell_of;
use crate::lookup::{first_place, triples_of};
use crate::subjects::{push_unless_last, subjects};
use collections::Sequence;
use rdf_model::{Term, Triple};
use std::alloc::{AllocError, Global};

#[derive(Drop)]
enum Visit {
    // A node that may not have been entered.
    Enter(Term),
    // One of which what it needs has been left.
    Leave(Term),
}

// What the node's one triple leads to is next.
fn push_value(own: &[Triple], stack: &mut Vec<Visit>) -> Result<(), AllocError> {
    if own.len() == 1 {
        stack.push(Visit::Enter(own[0].object.clone()?))?;
        return Ok(());
    }
    Ok(())
}

// What it needs to stand for a path or a list of paths is next, and then the node itself. Its triples alone are asked.
fn push_visits(graph: &IndexedGraph, node: &Term, stack: &mut Vec<Visit>) -> Result<(), AllocError>
    requires { IsAscending triple_cmp graph.now }
{
    stack.push(Visit::Leave(node.clone()?))?;
    let own = triples_of(graph, node);
    match cell_of(own, node) {
        Some((first, rest)) => {
            stack.push(Visit::Enter(first.clone()?))?;
            stack.push(Visit::Enter(rest.clone()?))?;
            Ok(())
        }
        None => push_value(own, stack),
    }
}

// Marks the place, and says whether it is there and wasn't marked before.
fn mark(entered: &mut [bool], place: usize) -> bool {
    let Some(is_entered) = entered.get_mut(place) else {
        return false;
    };
    let is_new = !*is_entered;
    *is_entered = true;
    is_new
}

// A node is marked at the place of its first triple. One without triples needs nothing.
fn enter(
    graph: &IndexedGraph,
    node: Term,
    entered: &mut [bool],
    stack: &mut Vec<Visit>,
) -> Result<(), AllocError>
    requires { IsAscending triple_cmp graph.now }
{
    let Some(place) = first_place(graph, &node) else {
        return Ok(());
    };
    if mark(entered, place) {
        return push_visits(graph, &node, stack);
    }
    Ok(())
}

fn perform(
    graph: &IndexedGraph,
    visit: Visit,
    entered: &mut [bool],
    stack: &mut Vec<Visit>,
    nodes: &mut Sequence<Term>,
) -> Result<(), AllocError>
    requires { IsAscending triple_cmp graph.now }
    ensures { OnOk result ((n : TermData) → Contains nodes.old n → Contains nodes.new n) }
{
    match visit {
        Visit::Enter(node) => {
            enter(graph, node, entered, stack)?;
            Ok(())
        }
        Visit::Leave(node) => {
            nodes.push(node)?;
            Ok(())
        }
    }
}

// Adds what the node needs, as far as it hasn't been entered, and the node.
fn descend(
    alloc: Global,
    graph: &IndexedGraph,
    start: &Term,
    entered: &mut [bool],
    nodes: &mut Sequence<Term>,
) -> Result<(), AllocError>
    requires { IsAscending triple_cmp graph.now }
    ensures { OnOk result ((n : TermData) → Contains nodes.old n ⊎ (start.now ≡ n) → Contains nodes.new n) }
{
    let mut stack = Vec::new(alloc);
    stack.push(Visit::Enter(start.clone()?))?;
    for _ in 0..u64::MAX {
        let Some(visit) = stack.pop() else {
            break;
        };
        perform(graph, visit, entered, &mut stack, nodes)?;
    }
    push_unless_last(start, nodes)?;
    Ok(())
}

/// The nodes of the graph, some of them more than once; each subject is among them.
pub(crate) fn from_below(alloc: Global, graph: &IndexedGraph) -> Result<Sequence<Term>, AllocError>
    requires { IsAscending triple_cmp graph.now }
    ensures { IfOk result (λ nodes. (n : TermData) → IsSubject graph.now n → Contains nodes n) }
{
    let starts = subjects(alloc, graph.as_slice())?;
    let mut entered = vec![in alloc; false; graph.len()]?;
    let mut nodes = Sequence::new(alloc);
    for node in starts.as_slice() {
        descend(alloc, graph, node, entered.as_mut_slice(), &mut nodes)?;
    }
    Ok(nodes)
}
