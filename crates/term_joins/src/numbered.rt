//! Patterns by the numbers of their terms.
ghost use Rattle.std.specs.Prelude.{IfOk, MatchOption};
ghost use Rattle.term_joins.specs.Numbered.{ArePatternsAt, HasUnnamed, HaveUnnamed, IsPartAt, IsPatternAt, IsUnnamed};

use bgp_query::{JoinPattern, Part};
use rdf_model::{Names, Term};
use std::alloc::{AllocError, Global};

// The part by number; `None` where its term has none.
fn numbered_part<N: Names>(names: &N, part: &Part<Term>) -> Option<Part<u32>>
    ensures { MatchOption result (IsUnnamed (N.terms names.now) part.now) (λ numbered. IsPartAt (N.terms names.now) part.now numbered) }
{
    match part {
        Part::Variable(variable) => Some(Part::Variable(*variable)),
        Part::Constant(term) => match names.id(term) {
            Some(number) => Some(Part::Constant(number)),
            None => None,
        },
    }
}

// The pattern by number; `None` where one of its terms has none.
fn numbered_pattern<N: Names>(names: &N, pattern: &JoinPattern<Term>) -> Option<JoinPattern<u32>>
    ensures { MatchOption result (HasUnnamed (N.terms names.now) pattern.now) (λ numbered. IsPatternAt (N.terms names.now) pattern.now numbered) }
{
    Some(JoinPattern {
        subject: numbered_part(names, &pattern.subject)?,
        predicate: numbered_part(names, &pattern.predicate)?,
        object: numbered_part(names, &pattern.object)?,
    })
}

/// The patterns by number, in their order; `None` where one of their terms has no number.
pub(crate) fn numbered_patterns<N: Names>(
    alloc: Global,
    names: &N,
    patterns: &[JoinPattern<Term>],
) -> Result<Option<Vec<JoinPattern<u32>>>, AllocError>
    ensures { IfOk result (λ found. MatchOption found (HaveUnnamed (N.terms names.now) patterns.now) (λ numbered. ArePatternsAt (N.terms names.now) patterns.now numbered.items)) }
{
    let mut numbered = Vec::with_capacity(alloc, patterns.len())?;
    for pattern in patterns {
        match numbered_pattern(names, pattern) {
            Some(one) => numbered.push(one)?,
            None => return Ok(None),
        }
    }
    Ok(Some(numbered))
}
