//! The nodes that stand for paths that are nested too deep. They are found by steps from node to node, and not along the
//! paths: a node that stands in a path many times, or in many paths, is asked once.
ghost use Rattle.std.specs.Prelude.{◌<◌, ◌+◌, ◌^◌, IfOk, OnOk};
ghost use Rattle.shape_syntax.specs.Gathering.{HasGathered};
ghost use Rattle.shape_sizes.specs.PathLooks.{AreDeepPaths, ArePathPlaces, ArePlaceSteps, IsStep};

use collections::Sequence;
use rdf_model::{Term, Triple};
use reference_totals::WeightedPlace;
use shape_references::nodes_with_chain;
use shape_syntax::IndexedGraph;
use std::alloc::{AllocError, Global};
use std::collections::BTreeSet;

fn step(from: &Term, to: &Term) -> Result<Triple, AllocError>
    ensures { IfOk result (λ made. IsStep from.now to.now made) }
{
    Ok(Triple {
        subject: from.clone()?,
        predicate: from.clone()?,
        object: to.clone()?,
    })
}

// Adds a step to each of the nodes.
fn push_steps(from: &Term, nodes: &[Term], steps: &mut Sequence<Triple>) -> Result<(), AllocError>
    ensures { OnOk result (HasGathered (IsStep from.now) nodes.now steps.old steps.new) }
{
    for node in nodes {
        steps.push(step(from, node)?)?;
    }
    Ok(())
}

fn path_steps(alloc: Global, places: &[WeightedPlace]) -> Result<Sequence<Triple>, AllocError>
    ensures { IfOk result (λ steps. ArePlaceSteps places.now steps) }
{
    let mut steps = Sequence::new(alloc);
    for place in places {
        push_steps(&place.node, place.to.as_slice(), &mut steps)?;
    }
    Ok(steps)
}

/// The values that stand for paths that are nested deeper than this: those from which more steps lead in a row. Each round
/// asks all steps, and there are no more rounds than levels. The places of the values are given, as a `Survey` has
/// them.
pub fn deep_paths(
    alloc: Global,
    graph: &IndexedGraph,
    places: &[WeightedPlace],
    levels: usize,
) -> Result<BTreeSet<Term>, AllocError>
    requires places { ArePathPlaces graph.now places.now }
    requires levels { levels + 1 < 2 ^ 32 }
    ensures { IfOk result (λ nodes. AreDeepPaths graph.now levels nodes.keys) }
{
    let steps = path_steps(alloc, places)?;
    let nodes = nodes_with_chain(alloc, steps.as_slice(), levels + 1)?;
    Ok(nodes)
}
