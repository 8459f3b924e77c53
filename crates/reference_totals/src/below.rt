// The places in an order in which those to which a place refers come before it, where they don't lead back to it.

use crate::numbers::NumberedPlace;
use collections::Sequence;
use std::alloc::{AllocError, Global};

#[derive(Copy, Clone)]
enum Visit {
    // A place that may not have been entered.
    Enter(usize),
    // One of which the places to which it refers have been left.
    Leave(usize),
}

// The places to which the place refers are next, and then the place itself.
fn push_visits(
    place: &NumberedPlace,
    index: usize,
    stack: &mut Vec<Visit>,
) -> Result<(), AllocError> {
    stack.push(Visit::Leave(index))?;
    for next in place.to.as_slice() {
        if let Some(number) = next {
            stack.push(Visit::Enter(*number))?;
        }
    }
    Ok(())
}

// Marks the place, and says whether it wasn't marked before.
fn mark(entered: &mut [bool], index: usize) -> bool {
    let Some(is_entered) = entered.get_mut(index) else {
        return false;
    };
    let is_new = !*is_entered;
    *is_entered = true;
    is_new
}

fn enter(
    places: &[NumberedPlace],
    index: usize,
    entered: &mut [bool],
    stack: &mut Vec<Visit>,
) -> Result<(), AllocError> {
    if mark(entered, index) {
        if let Some(place) = places.get(index) {
            push_visits(place, index, stack)?;
        }
    }
    Ok(())
}

// Adds what the place leads to, as far as it hasn't been entered.
fn descend(
    alloc: Global,
    places: &[NumberedPlace],
    start: usize,
    entered: &mut [bool],
    order: &mut Sequence<usize>,
) -> Result<(), AllocError> {
    let mut stack = Vec::new(alloc);
    stack.push(Visit::Enter(start))?;
    for _ in 0..u64::MAX {
        match stack.pop() {
            Some(Visit::Enter(index)) => enter(places, index, entered, &mut stack)?,
            Some(Visit::Leave(index)) => order.push(index)?,
            None => break,
        }
    }
    Ok(())
}

/// The indices of the places. That each is there isn't ensured, nor is their order: both save time and no more.
pub(crate) fn from_below(
    alloc: Global,
    places: &[NumberedPlace],
) -> Result<Sequence<usize>, AllocError> {
    let mut entered = vec![in alloc; false; places.len()]?;
    let mut order = Sequence::new(alloc);
    for start in 0..places.len() {
        descend(alloc, places, start, entered.as_mut_slice(), &mut order)?;
    }
    Ok(order)
}
