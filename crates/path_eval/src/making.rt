//! Walkers made of paths.
ghost use Rattle.std.specs.Prelude.{false, true, IfOk};
ghost use Rattle.path_eval.specs.NumberedWalks.{Backward, Onward, Reaches, ReachesSome};
ghost use Rattle.path_eval.specs.NumberedLooks.{Reads, ReadsBackward, ReadsOnward, ReadsSome};
ghost use Rattle.path_eval.specs.Walkers.{IsAnyNumber, IsEither, IsMade, IsMore, IsThen};

use crate::visited::Visited;
use crate::walker::Walker;
use path_ast::Path;
use std::alloc::{AllocError, Global};

// By the one, and then by the other.
fn then_of(alloc: Global, first: Walker, second: Walker) -> Result<Walker, AllocError>
    ensures { IfOk result (λ walker. IsThen first second walker) }
{
    let one = Box::new(alloc, first)?;
    let other = Box::new(alloc, second)?;
    Ok(Walker::Then(one, other))
}

// By the one or by the other.
fn either_of(alloc: Global, first: Walker, second: Walker) -> Result<Walker, AllocError>
    ensures { IfOk result (λ walker. IsEither first second walker) }
{
    let one = Box::new(alloc, first)?;
    let other = Box::new(alloc, second)?;
    Ok(Walker::Either(one, other))
}

// Once or more often.
fn more_of(alloc: Global, once: Walker) -> Result<Walker, AllocError>
    ensures { IfOk result (λ walker. IsMore once walker) }
{
    let inner = Box::new(alloc, once)?;
    Ok(Walker::More(inner, Visited::new(alloc)))
}

/// None, or once and more often.
pub(crate) fn any_number(alloc: Global, once: Walker) -> Result<Walker, AllocError>
    ensures { IfOk result (λ walker. IsAnyNumber once walker) }
{
    let more = more_of(alloc, once)?;
    either_of(alloc, Walker::Here, more)
}

/// The walker along a path, or reversed along the way back.
#[cycle(making)]
pub(crate) fn walker_of(
    alloc: Global,
    path: &Path<u32>,
    reversed: bool,
) -> Result<Walker, AllocError>
    ensures { IfOk result (λ walker. IsMade walker (λ ids. Reaches ids reversed path.now) (λ ids. Reads ids reversed path.now)) }
{
    match path {
        Path::Predicate(predicate) => Ok(Walker::Edges(*predicate, reversed, Visited::new(alloc))),
        Path::Inverse(inner) => walker_of(alloc, inner, !reversed),
        Path::Sequence(first, others) => {
            let one = walker_of(alloc, first, reversed)?;
            if reversed {
                let rest = backward_of(alloc, others)?;
                then_of(alloc, rest, one)
            } else {
                let rest = onward_of(alloc, others)?;
                then_of(alloc, one, rest)
            }
        }
        Path::Alternative(first, others) => {
            let one = walker_of(alloc, first, reversed)?;
            let rest = any_of(alloc, others, reversed)?;
            either_of(alloc, one, rest)
        }
        Path::ZeroOrMore(inner) => {
            let once = walker_of(alloc, inner, reversed)?;
            any_number(alloc, once)
        }
        Path::OneOrMore(inner) => {
            let once = walker_of(alloc, inner, reversed)?;
            more_of(alloc, once)
        }
        Path::ZeroOrOne(inner) => {
            let once = walker_of(alloc, inner, reversed)?;
            either_of(alloc, Walker::Here, once)
        }
    }
}

// The walker along one path after another. It is put together of halves, so that long sequences are not deep.
#[cycle(making)]
fn onward_of(alloc: Global, paths: &[Path<u32>]) -> Result<Walker, AllocError>
    ensures { IfOk result (λ walker. IsMade walker (λ ids. Onward ids paths.now) (λ ids. ReadsOnward ids paths.now)) }
{
    if paths.len() > 1 {
        let (before, after) = paths.split_at(paths.len() / 2);
        let one = onward_of(alloc, before)?;
        let other = onward_of(alloc, after)?;
        return then_of(alloc, one, other);
    }
    if paths.len() == 1 {
        return walker_of(alloc, &paths[0], false);
    }
    Ok(Walker::Here)
}

// The walker along the ways back, from the last path to the first.
#[cycle(making)]
fn backward_of(alloc: Global, paths: &[Path<u32>]) -> Result<Walker, AllocError>
    ensures { IfOk result (λ walker. IsMade walker (λ ids. Backward ids paths.now) (λ ids. ReadsBackward ids paths.now)) }
{
    if paths.len() > 1 {
        let (before, after) = paths.split_at(paths.len() / 2);
        let one = backward_of(alloc, after)?;
        let other = backward_of(alloc, before)?;
        return then_of(alloc, one, other);
    }
    if paths.len() == 1 {
        return walker_of(alloc, &paths[0], true);
    }
    Ok(Walker::Here)
}

// The walker along any of the paths.
#[cycle(making)]
fn any_of(alloc: Global, paths: &[Path<u32>], reversed: bool) -> Result<Walker, AllocError>
    ensures { IfOk result (λ walker. IsMade walker (λ ids. ReachesSome ids reversed paths.now) (λ ids. ReadsSome ids reversed paths.now)) }
{
    if paths.len() > 1 {
        let (before, after) = paths.split_at(paths.len() / 2);
        let one = any_of(alloc, before, reversed)?;
        let other = any_of(alloc, after, reversed)?;
        return either_of(alloc, one, other);
    }
    if paths.len() == 1 {
        return walker_of(alloc, &paths[0], reversed);
    }
    Ok(Walker::Nowhere)
}
