//! Walks along a property path, read from their end.
//!
//! `back` ensures exactly the nodes from which a walk leads to a node, each once, ascending, and exactly
//! the looks of the way back, by which a changed triple's focus nodes are found. `back_from` does so for
//! many nodes in one walk.
//!
//! Storey: validation.
#![tactic(auto)]

ghost use Rattle.std.specs.Prelude.{IfOk, OnOk};
ghost use Rattle.path_eval.specs.Naming.{Numbered, NumberedEach};
ghost use Rattle.collections.specs.Listings.{Keeps};
ghost use Rattle.reverse_walk.specs.Walkers.{AddsBackReads, AddsBackReadsOfSome, AreWalkers, AreWalkersToSome};

use path_ast::Path;
use rdf_model::{Footprint, Triples};
use std::alloc::{AllocError, Global};

/// The nodes with a walk to the node along the path (SHACL section 2.3.1), each once, ascending by
/// number. The looks of the way back are added to the footprint, which keeps what it had after an error too.
pub fn back<R: Triples>(
    alloc: Global,
    graph: &R,
    path: &Path<u32>,
    node: u32,
    footprint: &mut Footprint,
) -> Result<Vec<u32>, AllocError>
    ensures walkers { IfOk result (λ walkers. Numbered (R.triples graph.now) path.now node (λ terms. AreWalkers terms (R.triples graph.now) path.now node walkers.items)) }
    ensures looks { OnOk result (Numbered (R.triples graph.now) path.now node (λ terms. AddsBackReads terms (R.triples graph.now) path.now node footprint.old footprint.new)) }
    ensures kept { Keeps footprint.old footprint.new }
{
    Ok(path_eval::back(alloc, graph, path, node, footprint)?)
}

/// The nodes with a walk to one of the nodes along the path, each once, ascending by number. One walk
/// finds them all. The looks of the way back are added to the footprint, which keeps what it had after
/// an error too.
pub fn back_from<R: Triples>(
    alloc: Global,
    graph: &R,
    path: &Path<u32>,
    nodes: &[u32],
    footprint: &mut Footprint,
) -> Result<Vec<u32>, AllocError>
    ensures walkers { IfOk result (λ walkers. NumberedEach (R.triples graph.now) path.now nodes.now (λ terms. AreWalkersToSome terms (R.triples graph.now) path.now nodes.now walkers.items)) }
    ensures looks { OnOk result (NumberedEach (R.triples graph.now) path.now nodes.now (λ terms. AddsBackReadsOfSome terms (R.triples graph.now) path.now nodes.now footprint.old footprint.new)) }
    ensures kept { Keeps footprint.old footprint.new }
{
    Ok(path_eval::back_from(alloc, graph, path, nodes, footprint)?)
}
