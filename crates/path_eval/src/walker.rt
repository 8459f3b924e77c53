//! A path that is walked from some starts, and later from others.
ghost use Rattle.std.specs.Prelude.{◌≤◌, IfOk, OnOk, length, drop, ◌≡◌};
ghost use Rattle.collections.specs.Listings.{Keeps};
ghost use Rattle.path_eval.specs.Walkers.{Advances, Explores, GoesOn};

use crate::looking::edges;
use crate::visited::{Visited, enter_all};
use rdf_model::{Footprint, Triples};
use std::alloc::{AllocError, Global};

/// A path made ready to be walked from some starts, and later from others. It keeps what it has walked:
/// each part goes on from each node once.
#[derive(Drop)]
pub(crate) enum Walker {
    /// To the start itself.
    Here,
    /// To no node.
    Nowhere,
    /// Along a predicate, or where reversed the way back, from each node that was not seen before.
    Edges(u32, bool, Visited),
    /// By the one, and then by the other.
    Then(Box<Walker>, Box<Walker>),
    /// By the one or by the other.
    Either(Box<Walker>, Box<Walker>),
    /// Once or more often, with the nodes that have been entered.
    More(Box<Walker>, Visited),
}

/// Goes on from more starts. The ends are those to which the walker has not led yet, and maybe others.
#[cycle(walk)]
pub(crate) fn walk_on<R: Triples>(
    alloc: Global,
    graph: &R,
    walker: &mut Walker,
    starts: &[u32],
    footprint: &mut Footprint,
) -> Result<Vec<u32>, AllocError>
    ensures ends { IfOk result (λ ends. GoesOn (R.triples graph.now) walker.old walker.new starts.now footprint.old footprint.new ends.items) }
    ensures kept { Keeps footprint.old footprint.new }
{
    match walker {
        Walker::Here => copied(alloc, starts),
        Walker::Nowhere => Ok(Vec::new(alloc)),
        Walker::Edges(predicate, reversed, seen) => {
            let from = seen.len();
            enter_all(seen, starts)?;
            edges(
                alloc,
                graph,
                *predicate,
                *reversed,
                seen.entered_after(from),
                footprint,
            )
        }
        Walker::Then(first, second) => {
            let middle = walk_on(alloc, graph, first, starts, footprint)?;
            walk_on(alloc, graph, second, &middle, footprint)
        }
        Walker::Either(first, second) => {
            let mut ends = walk_on(alloc, graph, first, starts, footprint)?;
            let mut more = walk_on(alloc, graph, second, starts, footprint)?;
            ends.append(&mut more)?;
            Ok(ends)
        }
        Walker::More(inner, entered) => {
            let from = entered.len();
            let first = walk_on(alloc, graph, inner, starts, footprint)?;
            enter_all(entered, &first)?;
            explore(alloc, graph, inner, entered, from, footprint)?;
            copied(alloc, entered.entered_after(from))
        }
    }
}

// Goes on from the entered nodes after the first so many, and enters the ends.
#[cycle(walk)]
fn advance<R: Triples>(
    alloc: Global,
    graph: &R,
    walker: &mut Walker,
    entered: &mut Visited,
    done: usize,
    footprint: &mut Footprint,
) -> Result<(), AllocError>
    requires { done ≤ length entered.old }
    ensures entered { OnOk result (Advances (R.triples graph.now) walker.old walker.new done entered.old entered.new footprint.old footprint.new) }
    ensures kept { Keeps footprint.old footprint.new }
{
    let ends = walk_on(alloc, graph, walker, entered.entered_after(done), footprint)?;
    enter_all(entered, &ends)?;
    Ok(())
}

// Enters the ends of walks from those that were entered, again and again, until all of them have been gone on from.
#[cycle(walk)]
fn explore<R: Triples>(
    alloc: Global,
    graph: &R,
    walker: &mut Walker,
    entered: &mut Visited,
    from: usize,
    footprint: &mut Footprint,
) -> Result<(), AllocError>
    requires { from ≤ length entered.old }
    ensures entered { OnOk result (Explores (R.triples graph.now) walker.old walker.new from (length entered.new) entered.old entered.new footprint.old footprint.new) }
    ensures kept { Keeps footprint.old footprint.new }
{
    let mut done = from;
    while done < entered.len() {
        let level = done;
        done = entered.len();
        advance(alloc, graph, walker, entered, level, footprint)?;
    }
    Ok(())
}

// The nodes, in a list of their own.
fn copied(alloc: Global, nodes: &[u32]) -> Result<Vec<u32>, AllocError>
    ensures { IfOk result (λ copy. copy.items ≡ nodes.now) }
{
    let mut copy = Vec::new(alloc);
    copy.extend_from_slice(nodes)?;
    Ok(copy)
}
