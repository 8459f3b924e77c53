//! The least node from which a chain of so many references leads.
ghost use Rattle.std.specs.Prelude.{◌≡◌, ◌≢◌, ◌⊎◌, ◌↔◌, ◌<◌, true, false, IfOk, OnOk, MatchOption, get_or, length};
ghost use Rattle.std.specs.List.{Contains};
ghost use Rattle.std.specs.declared.cmp.Ordering.TheVariants.{Greater};
ghost use Rattle.rdf_model.specs.declared.term.Term.{Term as TermData};
ghost use Rattle.rdf_model.specs.Terms.{term_cmp};
ghost use Rattle.shape_references.specs.Chains.{AreWithChain, HasChain, IsJoined, IsLeastWithChain};
ghost use Rattle.shape_references.specs.Steps.{IsAtMark};

use crate::marks::{is_marked, marks_with_chain};
use crate::nodes::put;
use crate::steps::steps_of;
use rdf_model::{Term, Triple};
use std::alloc::{AllocError, Global};
use std::collections::BTreeSet;

// Puts in the subject of the triple at the index, if there is a mark.
fn put_marked(
    marks: &[bool],
    index: usize,
    triple: &Triple,
    nodes: &mut BTreeSet<Term>,
) -> Result<(), AllocError>
    ensures { OnOk result ((n : TermData) → Contains nodes.new.keys n
        ↔ (Contains nodes.old.keys n ⊎ ((get_or marks.now index false ≡ true) × (triple.now.subject ≡ n)))) }
{
    if is_marked(marks, Some(index)) {
        put(nodes, &triple.subject)?;
        return Ok(());
    }
    Ok(())
}

// The nodes that stand at the marks.
fn marked_nodes(
    alloc: Global,
    graph: &[Triple],
    marks: &[bool],
) -> Result<BTreeSet<Term>, AllocError>
    ensures { IfOk result (λ nodes. (n : TermData) → Contains nodes.keys n ↔ IsAtMark graph.now marks.now (length graph.now) n) }
{
    let mut nodes = BTreeSet::new(alloc);
    for (index, triple) in graph.iter().enumerate() {
        put_marked(marks, index, triple, &mut nodes)?;
    }
    Ok(nodes)
}

/// The nodes from which a chain of so many references leads: those that refer to one from which a chain of one fewer does.
/// Each triple of the graph is a reference.
pub fn nodes_with_chain(
    alloc: Global,
    graph: &[Triple],
    count: usize,
) -> Result<BTreeSet<Term>, AllocError>
    requires { 0 < count }
    ensures { IfOk result (λ nodes. AreWithChain graph.now count nodes.keys) }
{
    let steps = steps_of(alloc, graph)?;
    let marks = marks_with_chain(alloc, steps.as_slice(), count)?;
    let nodes = marked_nodes(alloc, graph, marks.as_slice())?;
    Ok(nodes)
}

fn least_of(nodes: &BTreeSet<Term>) -> Result<Option<Term>, AllocError>
    ensures { IfOk result (λ found. MatchOption found ((n : TermData) → Contains nodes.now.keys n → ⊥)
        (λ n. Contains nodes.now.keys n × ((m : TermData) → Contains nodes.now.keys m → term_cmp n m ≢ Greater))) }
{
    match nodes.first() {
        Some(node) => Ok(Some(node.clone()?)),
        None => Ok(None),
    }
}

/// The least node from which a chain of so many references leads, if there is one. Each triple of the graph is a
/// reference.
pub fn least_with_chain(
    alloc: Global,
    graph: &[Triple],
    count: usize,
) -> Result<Option<Term>, AllocError>
    requires { 0 < count }
    ensures { IfOk result (λ found. MatchOption found ((n : TermData) → HasChain (IsJoined graph.now) count n → ⊥)
        (λ n. IsLeastWithChain graph.now count n)) }
{
    let nodes = nodes_with_chain(alloc, graph, count)?;
    let found = least_of(&nodes)?;
    Ok(found)
}
