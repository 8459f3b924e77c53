//! Numbers that variables have so far.
ghost use Rattle.std.specs.Prelude.{IfOk, MatchOption};
ghost use Rattle.std.specs.List.{Contains};
ghost use Rattle.bgp_query.specs.declared.pattern.Part.TheVariants.{Variable};
ghost use Rattle.bgp_query.specs.Trails.{bound, Gave, GaveTriple, IsFree, IsKnown};

use crate::pattern::{JoinPattern, Part};
use rdf_model::Ids;
use std::alloc::AllocError;

/// A variable that has a number.
#[derive(Clone, Copy, Debug)]
pub(crate) struct BoundVariable {
    pub(crate) variable: usize,
    pub(crate) number: u32,
}

/// The number of a variable, if it has one.
pub(crate) fn number_of(trail: &[BoundVariable], variable: usize) -> Option<u32>
    ensures { MatchOption result (IsFree trail.now variable) (λ n. Contains trail.now (bound variable n)) }
{
    for bound in trail {
        if bound.variable == variable {
            return Some(bound.number);
        }
    }
    None
}

/// The number that a part has to stand for, if it is known.
pub(crate) fn known_number(trail: &[BoundVariable], part: &Part<u32>) -> Option<u32>
    ensures { IsKnown trail.now part.now result }
{
    match part {
        Part::Constant(number) => Some(*number),
        Part::Variable(variable) => number_of(trail, *variable as usize),
    }
}

fn give_variable(
    trail: &mut Vec<BoundVariable>,
    variable: usize,
    number: u32,
) -> Result<bool, AllocError>
    ensures { IfOk result (Gave trail.old.items trail.new.items (Variable variable) number) }
{
    match number_of(trail, variable) {
        Some(other) => Ok(other == number),
        None => {
            trail.push(BoundVariable { variable, number })?;
            Ok(true)
        }
    }
}

// Has a part stand for a number, if it can.
fn give(trail: &mut Vec<BoundVariable>, part: &Part<u32>, number: u32) -> Result<bool, AllocError>
    ensures { IfOk result (Gave trail.old.items trail.new.items part.now number) }
{
    match part {
        Part::Constant(constant) => Ok(*constant == number),
        Part::Variable(variable) => Ok(give_variable(trail, *variable as usize, number)?),
    }
}

/// Has a pattern stand for a triple, if it can. The trail only grows.
pub(crate) fn give_triple(
    trail: &mut Vec<BoundVariable>,
    pattern: &JoinPattern<u32>,
    triple: Ids,
) -> Result<bool, AllocError>
    ensures { IfOk result (GaveTriple trail.old.items trail.new.items pattern.now triple) }
{
    if !give(trail, &pattern.subject, triple.subject)? {
        return Ok(false);
    }
    if !give(trail, &pattern.predicate, triple.predicate)? {
        return Ok(false);
    }
    Ok(give(trail, &pattern.object, triple.object)?)
}
