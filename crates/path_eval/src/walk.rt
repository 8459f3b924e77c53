//! Walks from many starts at once.
ghost use Rattle.std.specs.Prelude.{IfOk};
ghost use Rattle.collections.specs.Listings.{Keeps};
ghost use Rattle.path_eval.specs.Relations.{IsFollowed, Repeated};
ghost use Rattle.path_eval.specs.NumberedWalks.{Reaches};
ghost use Rattle.path_eval.specs.NumberedLooks.{AtRepeated, Reads};
ghost use Rattle.path_eval.specs.Walkers.{Goes, IsNew, Sees, plan_of};

use crate::looking::edges;
use crate::making::{any_number, walker_of};
use crate::walker::{Walker, walk_on};
use collections::sorted_once;
use path_ast::Path;
use rdf_model::{Footprint, Triples};
use std::alloc::{AllocError, Global};

// The ends to which a new walker leads from the starts, ascending.
fn follow<R: Triples>(
    alloc: Global,
    graph: &R,
    walker: Walker,
    starts: &[u32],
    footprint: &mut Footprint,
) -> Result<Vec<u32>, AllocError>
    requires { IsNew walker }
    ensures followed { IfOk result (λ ends. IsFollowed starts.now (Goes (R.triples graph.now) (plan_of walker)) (Sees (R.triples graph.now) (plan_of walker)) footprint.old footprint.new ends.items) }
    ensures kept { Keeps footprint.old footprint.new }
{
    let mut walker = walker;
    let ends = walk_on(alloc, graph, &mut walker, starts, footprint)?;
    Ok(sorted_once(ends)?)
}

// The ends of walks by a walker that is made for the path.
fn walked<R: Triples>(
    alloc: Global,
    graph: &R,
    path: &Path<u32>,
    reversed: bool,
    starts: &[u32],
    footprint: &mut Footprint,
) -> Result<Vec<u32>, AllocError>
    ensures followed { IfOk result (λ ends. IsFollowed starts.now (Reaches (R.triples graph.now) reversed path.now) (Reads (R.triples graph.now) reversed path.now) footprint.old footprint.new ends.items) }
    ensures kept { Keeps footprint.old footprint.new }
{
    let walker = walker_of(alloc, path, reversed)?;
    follow(alloc, graph, walker, starts, footprint)
}

/// The ends of walks from any of the starts along the path, or reversed along the way back.
pub(crate) fn step<R: Triples>(
    alloc: Global,
    graph: &R,
    path: &Path<u32>,
    reversed: bool,
    starts: &[u32],
    footprint: &mut Footprint,
) -> Result<Vec<u32>, AllocError>
    ensures followed { IfOk result (λ ends. IsFollowed starts.now (Reaches (R.triples graph.now) reversed path.now) (Reads (R.triples graph.now) reversed path.now) footprint.old footprint.new ends.items) }
    ensures kept { Keeps footprint.old footprint.new }
{
    match path {
        Path::Predicate(predicate) => edges(alloc, graph, *predicate, reversed, starts, footprint),
        _ => walked(alloc, graph, path, reversed, starts, footprint),
    }
}

// The ends of any number of walks one after another, by a walker that is made where there is a start.
fn repeated_by_walker<R: Triples>(
    alloc: Global,
    graph: &R,
    path: &Path<u32>,
    reversed: bool,
    starts: &[u32],
    footprint: &mut Footprint,
) -> Result<Vec<u32>, AllocError>
    ensures followed { IfOk result (λ ends. IsFollowed starts.now (Repeated (Reaches (R.triples graph.now) reversed path.now)) (AtRepeated (Reaches (R.triples graph.now) reversed path.now) (Reads (R.triples graph.now) reversed path.now)) footprint.old footprint.new ends.items) }
    ensures kept { Keeps footprint.old footprint.new }
{
    if starts.is_empty() {
        return Ok(Vec::new(alloc));
    }
    let once = walker_of(alloc, path, reversed)?;
    let walker = any_number(alloc, once)?;
    follow(alloc, graph, walker, starts, footprint)
}

/// The ends of any number of walks one after another. Where no walk leads on from the starts, no walker is made.
pub(crate) fn repeated<R: Triples>(
    alloc: Global,
    graph: &R,
    path: &Path<u32>,
    reversed: bool,
    starts: &[u32],
    footprint: &mut Footprint,
) -> Result<Vec<u32>, AllocError>
    ensures followed { IfOk result (λ ends. IsFollowed starts.now (Repeated (Reaches (R.triples graph.now) reversed path.now)) (AtRepeated (Reaches (R.triples graph.now) reversed path.now) (Reads (R.triples graph.now) reversed path.now)) footprint.old footprint.new ends.items) }
    ensures kept { Keeps footprint.old footprint.new }
{
    let once = step(alloc, graph, path, reversed, starts, footprint)?;
    let mut ends = repeated_by_walker(alloc, graph, path, reversed, &once, footprint)?;
    ends.extend_from_slice(starts)?;
    Ok(sorted_once(ends)?)
}
