// Ranks of nodes: where no reference leads to a lower rank, one that leads to a higher rank is on no loop.
//
// Nodes that lead to each other have one rank, and others have theirs in the order in which they lead to each other
// (the two searches of Kosaraju). That isn't ensured: what the ranks show is tested.
ghost use Rattle.std.specs.Prelude.{◌≡◌, ◌↔◌, ◌<◌, ◌≤◌, IsTrue};
ghost use Rattle.shape_references.specs.Ranks.{AreLevel, Rises, rank_in};

use crate::steps::{Step, mark};
use collections::Sequence;
use std::alloc::{AllocError, Global};

fn push_reversed(step: Step, before: &mut [Sequence<usize>]) -> Result<(), AllocError> {
    let Some(from) = step.from else {
        return Ok(());
    };
    let Some(to) = step.to else {
        return Ok(());
    };
    if let Some(own) = before.get_mut(to) {
        own.push(from)?;
    }
    Ok(())
}

// The numbers of the nodes that refer to each.
fn reversed_steps(alloc: Global, steps: &[Step]) -> Result<Vec<Sequence<usize>>, AllocError> {
    let mut before = Vec::new(alloc);
    for _ in 0..steps.len() {
        before.push(Sequence::new(alloc))?;
    }
    for step in steps {
        push_reversed(*step, before.as_mut_slice())?;
    }
    Ok(before)
}

// Gives the node its rank, if it has none. Those that refer to it are next.
fn enter(
    before: &[Sequence<usize>],
    number: usize,
    rank: usize,
    ranked: &mut [bool],
    ranks: &mut [usize],
    stack: &mut Vec<usize>,
) -> Result<(), AllocError> {
    if mark(ranked, number) {
        if let Some(own) = ranks.get_mut(number) {
            *own = rank;
        }
        if let Some(nodes) = before.get(number) {
            for node in nodes.as_slice() {
                stack.push(*node)?;
            }
        }
    }
    Ok(())
}

// Gives the rank to the nodes that lead to the node and have none.
fn climb(
    alloc: Global,
    before: &[Sequence<usize>],
    start: usize,
    rank: usize,
    ranked: &mut [bool],
    ranks: &mut [usize],
) -> Result<(), AllocError> {
    let mut stack = Vec::new(alloc);
    stack.push(start)?;
    for _ in 0..u64::MAX {
        let Some(number) = stack.pop() else {
            break;
        };
        enter(before, number, rank, ranked, ranks, &mut stack)?;
    }
    Ok(())
}

/// Ranks of the nodes, which stand in the order of `from_below`.
pub(crate) fn ranks_of(
    alloc: Global,
    steps: &[Step],
    below: &[usize],
) -> Result<Vec<usize>, AllocError> {
    let before = reversed_steps(alloc, steps)?;
    let mut ranked = vec![in alloc; false; steps.len()]?;
    let mut ranks = vec![in alloc; 0; steps.len()]?;
    for rank in 0..below.len() {
        let start = below[below.len() - 1 - rank];
        climb(
            alloc,
            before.as_slice(),
            start,
            rank,
            ranked.as_mut_slice(),
            ranks.as_mut_slice(),
        )?;
    }
    Ok(ranks)
}

fn rank_of(ranks: &[usize], number: Option<usize>) -> usize
    ensures { result ≡ rank_in ranks.now number }
{
    let Some(index) = number else {
        return ranks.len();
    };
    match ranks.get(index) {
        Some(rank) => *rank,
        None => 0,
    }
}

fn is_level(ranks: &[usize], step: Step) -> bool
    ensures { IsTrue result ↔ (rank_in ranks.now step.from ≤ rank_in ranks.now step.to) }
{
    rank_of(ranks, step.from) <= rank_of(ranks, step.to)
}

/// Whether the step leads to a higher rank.
pub(crate) fn rises(ranks: &[usize], step: Step) -> bool
    ensures { IsTrue result ↔ Rises ranks.now step }
{
    rank_of(ranks, step.from) < rank_of(ranks, step.to)
}

/// Whether no step leads to a lower rank.
pub(crate) fn are_level(steps: &[Step], ranks: &[usize]) -> bool
    ensures { IsTrue result → AreLevel steps.now ranks.now }
{
    for step in steps {
        if !is_level(ranks, *step) {
            return false;
        }
    }
    true
}
