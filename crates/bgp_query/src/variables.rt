//! Which variables stand in patterns.
ghost use Rattle.std.specs.Prelude.{◌≡◌, ◌<◌, ◌↔◌, IsTrue, ℕ, true, false};
ghost use Rattle.bgp_query.specs.Bindings.{HasVariable, IsVariable, Occurs};
ghost use Rattle.bgp_query.specs.Trails.{IsReach};

use crate::pattern::{JoinPattern, Part};

fn is_variable(part: &Part<u32>, variable: usize) -> bool
    ensures { IsTrue result ↔ IsVariable variable part.now }
{
    match part {
        Part::Variable(other) => *other as usize == variable,
        Part::Constant(_) => false,
    }
}

fn has_variable(pattern: &JoinPattern<u32>, variable: usize) -> bool
    ensures { IsTrue result ↔ HasVariable pattern.now variable }
{
    is_variable(&pattern.subject, variable)
        || is_variable(&pattern.predicate, variable)
        || is_variable(&pattern.object, variable)
}

/// Whether a variable stands in one of the patterns.
pub(crate) fn occurs(patterns: &[JoinPattern<u32>], variable: usize) -> bool
    ensures { IsTrue result ↔ Occurs patterns.now variable }
{
    for pattern in patterns {
        if has_variable(pattern, variable) {
            return true;
        }
    }
    false
}

// The number after that of the variable, if the part is one.
fn part_reach(part: &Part<u32>) -> usize
    ensures { IsReach (λ v. IsVariable v part.now) result }
{
    match part {
        Part::Variable(variable) => *variable as usize + 1,
        Part::Constant(_) => 0,
    }
}

// The number after those of the pattern's variables.
fn pattern_reach(pattern: &JoinPattern<u32>) -> usize
    ensures { IsReach (HasVariable pattern.now) result }
{
    part_reach(&pattern.subject)
        .max(part_reach(&pattern.predicate))
        .max(part_reach(&pattern.object))
}

/// The number after those of the variables of the patterns.
pub(crate) fn variable_count(patterns: &[JoinPattern<u32>]) -> usize
    ensures { IsReach (Occurs patterns.now) result }
{
    let mut count: usize = 0;
    for pattern in patterns {
        count = count.max(pattern_reach(pattern));
    }
    count
}

/// Whether each number below the count is that of a variable in the patterns.
pub(crate) fn all_occur(patterns: &[JoinPattern<u32>], count: usize) -> bool
    ensures all { result ≡ true → (v : ℕ) → v < count → Occurs patterns.now v }
    ensures some { result ≡ false → (v : ℕ) × (v < count) × (Occurs patterns.now v → ⊥) }
{
    for variable in 0..count {
        if !occurs(patterns, variable) {
            return false;
        }
    }
    true
}
