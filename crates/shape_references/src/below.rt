// The numbers of a graph's nodes in an order in which those that a node refers to come before it, where they don't lead
// back to it.

use crate::steps::{Step, mark};
use collections::Sequence;
use std::alloc::{AllocError, Global};

#[derive(Copy, Clone)]
enum Visit {
    // A node that may not have been entered.
    Enter(usize),
    // One of which what it refers to has been left.
    Leave(usize),
}

fn starts_at(step: Step, number: usize) -> bool {
    match step.from {
        Some(from) => from == number,
        None => false,
    }
}

// What the node refers to is next, and then the node itself. Its steps stand together from the first, which has its number.
fn push_visits(steps: &[Step], number: usize, stack: &mut Vec<Visit>) -> Result<(), AllocError> {
    stack.push(Visit::Leave(number))?;
    for index in number..steps.len() {
        let step = steps[index];
        if !starts_at(step, number) {
            break;
        }
        if let Some(next) = step.to {
            stack.push(Visit::Enter(next))?;
        }
    }
    Ok(())
}

// Adds what the node leads to, as far as it hasn't been entered.
fn descend(
    alloc: Global,
    steps: &[Step],
    start: usize,
    entered: &mut [bool],
    order: &mut Sequence<usize>,
) -> Result<(), AllocError> {
    let mut stack = Vec::new(alloc);
    stack.push(Visit::Enter(start))?;
    for _ in 0..u64::MAX {
        match stack.pop() {
            Some(Visit::Enter(number)) => {
                if mark(entered, number) {
                    push_visits(steps, number, &mut stack)?;
                }
            }
            Some(Visit::Leave(number)) => order.push(number)?,
            None => break,
        }
    }
    Ok(())
}

/// The numbers of the nodes. That each is there isn't ensured, nor is their order: both save time and no more.
pub(crate) fn from_below(alloc: Global, steps: &[Step]) -> Result<Sequence<usize>, AllocError> {
    let mut entered = vec![in alloc; false; steps.len()]?;
    let mut order = Sequence::new(alloc);
    for step in steps {
        if let Some(start) = step.from {
            descend(alloc, steps, start, entered.as_mut_slice(), &mut order)?;
        }
    }
    Ok(order)
}
