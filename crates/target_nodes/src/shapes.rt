//! The targets of a compiled shape.
ghost use Rattle.std.specs.Prelude.{◌<◌, IfOk, OnOk, length};
ghost use Rattle.std.specs.List.{All};
ghost use Rattle.collections.specs.Listings.{Keeps};
ghost use Rattle.target_nodes.specs.ShapeTargets.{AddsTargetLooks, AreTargets, AtShape, IsTargetAnswer, NumberedShapes};

use crate::listing::declared_targets;
use crate::testing::is_declared_target;
use path_eval::ClassWords;
use rdf_model::{Footprint, Triples};
use shape_ast::Bound;
use std::alloc::{AllocError, Global};

/// The targets of the shape at a place (SHACL section 2.1.3), each once, ascending by number. They are those of the
/// shape in each shapes graph that the shapes stand for.
pub fn targets<R: Triples>(
    alloc: Global,
    graph: &R,
    words: ClassWords,
    bound: &Bound,
    shape: usize,
) -> Result<Vec<u32>, AllocError>
    requires { shape < length bound.now.shapes }
    ensures targets { IfOk result (λ found. NumberedShapes (R.triples graph.now) words bound.now.shapes (λ terms. AtShape terms bound.now.shapes shape (λ s own. AreTargets terms (R.triples graph.now) s own found.items))) }
    ensures numbers { IfOk result (λ found. NumberedShapes (R.triples graph.now) words bound.now.shapes (λ terms. All (λ n. n < length terms) found.items)) }
{
    let own = &bound.shapes.as_slice()[shape];
    Ok(declared_targets(alloc, graph, words, own.node, own.targets.as_slice())?)
}

/// Whether a node is a target of the shape at a place (SHACL section 2.1.3), as in each shapes graph that the shapes
/// stand for. The looks that decide it, those of the shape's targets, are added to the footprint, which keeps what it had
/// after an error too.
pub fn is_target<R: Triples>(
    alloc: Global,
    graph: &R,
    words: ClassWords,
    bound: &Bound,
    shape: usize,
    node: u32,
    footprint: &mut Footprint,
) -> Result<bool, AllocError>
    requires { shape < length bound.now.shapes }
    ensures answer { IfOk result (λ answer. NumberedShapes (R.triples graph.now) words bound.now.shapes (λ terms. AtShape terms bound.now.shapes shape (λ s own. IsTargetAnswer terms (R.triples graph.now) s own node answer))) }
    ensures looks { OnOk result (NumberedShapes (R.triples graph.now) words bound.now.shapes (λ terms. AtShape terms bound.now.shapes shape (λ s own. AddsTargetLooks terms (R.triples graph.now) s own node footprint.old footprint.new))) }
    ensures kept { Keeps footprint.old footprint.new }
{
    let own = &bound.shapes.as_slice()[shape];
    Ok(is_declared_target(
        alloc,
        graph,
        words,
        own.node,
        own.targets.as_slice(),
        node,
        footprint,
    )?)
}
