//! The order in which patterns are asked.
ghost use Rattle.std.specs.Prelude.{◌≡◌, ◌<◌, IfOk, length};
ghost use Rattle.std.specs.List.Sorted.{IsPermutation};

use crate::pattern::{JoinPattern, Part};
use crate::variables::occurs;
use std::alloc::{AllocError, Global};

fn copied_part(part: &Part<u32>) -> Part<u32>
    ensures { result ≡ part.now }
{
    match part {
        Part::Variable(variable) => Part::Variable(*variable),
        Part::Constant(number) => Part::Constant(*number),
    }
}

fn copied_pattern(pattern: &JoinPattern<u32>) -> JoinPattern<u32>
    ensures { result ≡ pattern.now }
{
    JoinPattern {
        subject: copied_part(&pattern.subject),
        predicate: copied_part(&pattern.predicate),
        object: copied_part(&pattern.object),
    }
}

fn copied(alloc: Global, patterns: &[JoinPattern<u32>]) -> Result<Vec<JoinPattern<u32>>, AllocError>
    ensures { IfOk result (λ copies. copies.items ≡ patterns.now) }
{
    let mut copies = Vec::with_capacity(alloc, patterns.len())?;
    for pattern in patterns {
        copies.push(copied_pattern(pattern))?;
    }
    Ok(copies)
}

// How much of a part is known once the patterns before it have been asked: nothing of a new variable, all of a
// constant, and all of a variable that has its number, which also ties the pattern to those before.
fn part_weight(before: &[JoinPattern<u32>], part: &Part<u32>) -> u32
    ensures { result < 64 }
{
    match part {
        Part::Constant(_) => 16,
        Part::Variable(variable) if occurs(before, *variable as usize) => 17,
        Part::Variable(_) => 0,
    }
}

// How early a pattern is asked. Known parts count first; of the parts, a subject or an object cuts more than a
// predicate, which has many triples.
fn weight(before: &[JoinPattern<u32>], pattern: &JoinPattern<u32>) -> u32 {
    let subject = part_weight(before, &pattern.subject);
    let predicate = part_weight(before, &pattern.predicate);
    let object = part_weight(before, &pattern.object);
    5 * subject + 4 * predicate + 5 * object
}

// The place of the pattern that is asked next.
fn next_place(before: &[JoinPattern<u32>], left: &[JoinPattern<u32>]) -> usize
    requires { 0 < length left.now }
    ensures { result < length left.now }
{
    let mut place = 0;
    let mut most = 0;
    for (i, pattern) in left.iter().enumerate() {
        let own = weight(before, pattern);
        if own > most {
            place = i;
            most = own;
        }
    }
    place
}

/// The patterns in the order in which they are asked: at each step the one of which most is known.
pub(crate) fn planned(
    alloc: Global,
    patterns: &[JoinPattern<u32>],
) -> Result<Vec<JoinPattern<u32>>, AllocError>
    ensures { IfOk result (λ plan. IsPermutation patterns.now plan.items) }
{
    let mut left = copied(alloc, patterns)?;
    let mut plan = Vec::with_capacity(alloc, patterns.len())?;
    while !left.is_empty() {
        let place = next_place(&plan, &left);
        plan.push(left.remove(place))?;
    }
    Ok(plan)
}
