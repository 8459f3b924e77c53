//! The walk through the patterns, depth first: each binding is complete before the next is begun.
ghost use Rattle.std.specs.Prelude.{◌≡◌, ◌∷◌, ◌++◌, ◌≤◌, IfOk, MatchResult, OnOk, Some, [], length};
ghost use Rattle.bgp_query.specs.declared.fault.JoinFault.TheVariants as faults;
ghost use Rattle.triple_index.specs.Patterns.{AreApart, IsMatch, ListsOnce};
ghost use Rattle.bgp_query.specs.Bindings.{most_bindings};
ghost use Rattle.bgp_query.specs.Trails.{Added, Covers, IsFull, IsMet, IsRow, IsTrail, IsUnder, MayStand, Overflows, PatternsBelow};

use crate::fault::JoinFault;
use crate::matcher::Matcher;
use crate::pattern::JoinPattern;
use crate::row::Row;
use crate::trail::{BoundVariable, give_triple, known_number, number_of};
use rdf_model::Ids;
use std::alloc::{AllocError, Global};

/// The most bindings that are answered.
const MOST_BINDINGS: usize = 100_000;

/// What is asked, and for how many variables.
#[derive(Drop)]
pub(crate) struct Search<'a, R> {
    pub(crate) alloc: Global,
    pub(crate) set: &'a R,
    pub(crate) variables: usize,
}

// The row of the numbers of all variables.
fn row_of(alloc: Global, variables: usize, trail: &[BoundVariable]) -> Result<Row, AllocError>
    requires trail { IsTrail variables trail.now }
    requires covered { Covers variables trail.now [] }
    ensures { IfOk result (IsFull variables trail.now) }
{
    let mut numbers = Vec::new(alloc);
    for variable in 0..variables {
        let number = match number_of(trail, variable) {
            Some(number) => number,
            None => unreachable!(),
        };
        numbers.push(number)?;
    }
    Ok(Row { numbers })
}

// Adds a row at the end.
fn push_row(rows: &mut Vec<Row>, row: Row) -> Result<(), AllocError>
    ensures { OnOk result (rows.new.items ≡ rows.old.items ++ row ∷ []) }
{
    rows.push(row)?;
    Ok(())
}

// Adds the row of the numbers of all variables.
fn add_row(
    alloc: Global,
    variables: usize,
    trail: &[BoundVariable],
    rows: &mut Vec<Row>,
) -> Result<(), JoinFault>
    requires trail { IsTrail variables trail.now }
    requires covered { Covers variables trail.now [] }
    ensures { MatchResult result (λ _. Added most_bindings (IsFull variables trail.now) rows.old.items rows.new.items)
        (λ e. e ≡ faults.TooMany → Overflows most_bindings (IsFull variables trail.now) rows.old.items rows.new.items) }
{
    push_row(rows, row_of(alloc, variables, trail)?)?;
    if rows.len() > MOST_BINDINGS {
        return Err(JoinFault::TooMany);
    }
    Ok(())
}

// The triple, if it is in the set.
fn one_if_there<R: Matcher>(search: &Search<R>, triple: Ids) -> Result<Vec<Ids>, AllocError>
    ensures { IfOk result (λ found. ListsOnce (IsMatch (Some triple.subject) (Some triple.predicate) (Some triple.object) (R.triples search.now.set.now)) found.items) }
{
    let mut found = Vec::new(search.alloc);
    if search.set.contains(triple) {
        found.push(triple)?;
    }
    Ok(found)
}

// The triples with these numbers.
fn found_for<R: Matcher>(
    search: &Search<R>,
    subject: Option<u32>,
    predicate: Option<u32>,
    object: Option<u32>,
) -> Result<Vec<Ids>, AllocError>
    ensures { IfOk result (λ found. ListsOnce (IsMatch subject predicate object (R.triples search.now.set.now)) found.items) }
{
    match (subject, predicate, object) {
        (Some(subject), Some(predicate), Some(object)) => Ok(one_if_there(
            search,
            Ids {
                subject,
                predicate,
                object,
            },
        )?),
        _ => Ok(search.set.find_pattern(subject, predicate, object)?),
    }
}

// The triples that the pattern may stand for.
fn triples_for<R: Matcher>(
    search: &Search<R>,
    pattern: &JoinPattern<u32>,
    trail: &[BoundVariable],
) -> Result<Vec<Ids>, AllocError>
    ensures { IfOk result (λ found. MayStand (R.triples search.now.set.now) trail.now pattern.now found.items) }
{
    let subject = known_number(trail, &pattern.subject);
    let predicate = known_number(trail, &pattern.predicate);
    let object = known_number(trail, &pattern.object);
    Ok(found_for(search, subject, predicate, object)?)
}

// Adds the rows under which the patterns stand, and the first of all for the triple.
#[cycle(join)]
fn join_one<R: Matcher>(
    search: &Search<R>,
    pattern: &JoinPattern<u32>,
    rest: &[JoinPattern<u32>],
    triple: Ids,
    trail: &mut Vec<BoundVariable>,
    rows: &mut Vec<Row>,
) -> Result<(), JoinFault>
    requires trail { IsTrail search.now.variables trail.old.items }
    requires below { PatternsBelow search.now.variables (pattern.now ∷ rest.now) }
    requires covered { Covers search.now.variables trail.old.items (pattern.now ∷ rest.now) }
    requires few { length rows.old.items ≤ most_bindings }
    ensures rows { MatchResult result (λ _. Added most_bindings (IsUnder (R.triples search.now.set.now) search.now.variables trail.old.items pattern.now rest.now triple) rows.old.items rows.new.items)
        (λ e. e ≡ faults.TooMany → Overflows most_bindings (IsUnder (R.triples search.now.set.now) search.now.variables trail.old.items pattern.now rest.now triple) rows.old.items rows.new.items) }
    ensures trail { OnOk result (trail.new.items ≡ trail.old.items) }
{
    let depth = trail.len();
    if give_triple(trail, pattern, triple)? {
        join_from(search, rest, trail, rows)?;
    }
    trail.truncate(depth);
    Ok(())
}

// Adds the rows under which the patterns stand, and the first of all for one of the triples.
#[cycle(join)]
fn join_each<R: Matcher>(
    search: &Search<R>,
    pattern: &JoinPattern<u32>,
    rest: &[JoinPattern<u32>],
    found: &[Ids],
    trail: &mut Vec<BoundVariable>,
    rows: &mut Vec<Row>,
) -> Result<(), JoinFault>
    requires trail { IsTrail search.now.variables trail.old.items }
    requires below { PatternsBelow search.now.variables (pattern.now ∷ rest.now) }
    requires covered { Covers search.now.variables trail.old.items (pattern.now ∷ rest.now) }
    requires few { length rows.old.items ≤ most_bindings }
    requires apart { AreApart found.now }
    ensures rows { MatchResult result (λ _. Added most_bindings (IsMet (R.triples search.now.set.now) search.now.variables trail.old.items pattern.now rest.now found.now) rows.old.items rows.new.items)
        (λ e. e ≡ faults.TooMany → Overflows most_bindings (IsMet (R.triples search.now.set.now) search.now.variables trail.old.items pattern.now rest.now found.now) rows.old.items rows.new.items) }
    ensures trail { OnOk result (trail.new.items ≡ trail.old.items) }
{
    for triple in found {
        join_one(search, pattern, rest, *triple, trail, rows)?;
    }
    Ok(())
}

/// Adds the rows of the assignments that fit the trail and under which the patterns stand in the set.
#[cycle(join)]
pub(crate) fn join_from<R: Matcher>(
    search: &Search<R>,
    left: &[JoinPattern<u32>],
    trail: &mut Vec<BoundVariable>,
    rows: &mut Vec<Row>,
) -> Result<(), JoinFault>
    requires trail { IsTrail search.now.variables trail.old.items }
    requires below { PatternsBelow search.now.variables left.now }
    requires covered { Covers search.now.variables trail.old.items left.now }
    requires few { length rows.old.items ≤ most_bindings }
    ensures rows { MatchResult result (λ _. Added most_bindings (IsRow (R.triples search.now.set.now) search.now.variables trail.old.items left.now) rows.old.items rows.new.items)
        (λ e. e ≡ faults.TooMany → Overflows most_bindings (IsRow (R.triples search.now.set.now) search.now.variables trail.old.items left.now) rows.old.items rows.new.items) }
    ensures trail { OnOk result (trail.new.items ≡ trail.old.items) }
{
    match left {
        [] => Ok(add_row(search.alloc, search.variables, trail, rows)?),
        [pattern, rest @ ..] => {
            let found = triples_for(search, pattern, trail)?;
            Ok(join_each(search, pattern, rest, &found, trail, rows)?)
        }
    }
}
