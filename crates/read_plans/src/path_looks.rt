//! The rows of looks of paths.
ghost use Rattle.std.specs.Prelude.{◌≡◌, ◌∷◌, [], IfOk, map};
ghost use Rattle.shape_model.specs.Paths as defined;
ghost use Rattle.path_ast.specs.PathReadings.{defined_path, members};
ghost use Rattle.read_plans.specs.PathRows.{path_rows, through_rows};
ghost use Rattle.read_plans.specs.Rows.{Adds, read_kind};
ghost use Rattle.read_plans.specs.MemberRows.{backward_rows, each_rows, forward_rows, predicate_kind_of};

use crate::rows::{Rows, push_row};
use crate::ways::{push_step, way_along, way_back, way_repeated};
use crate::{LookKind, PlanFault};
use path_ast::Path;
use rdf_model::Term;
use std::alloc::{AllocError, Global};

fn predicate_kind(reversed: bool, predicate: &Term) -> Result<LookKind, AllocError>
    ensures { IfOk result (λ kind. read_kind kind ≡ predicate_kind_of reversed predicate.now) }
{
    let copy = predicate.clone()?;
    if reversed {
        return Ok(LookKind::In(copy));
    }
    Ok(LookKind::Out(copy))
}

fn push_predicate(
    alloc: Global,
    predicate: &Term,
    reversed: bool,
    way: &[Path<Term>],
    rows: &mut Rows,
) -> Result<(), PlanFault>
    ensures { Adds (record { way = map defined_path way.now; kind = predicate_kind_of reversed predicate.now } ∷ []) rows.old rows.new result }
{
    let kind = predicate_kind(reversed, predicate)?;
    push_row(alloc, way, kind, rows)
}

/// Adds the rows of a path that is walked, backwards where reversed, after the way (SHACL section 2.3.1).
#[cycle(looking)]
pub(crate) fn push_path(
    alloc: Global,
    path: &Path<Term>,
    reversed: bool,
    way: &[Path<Term>],
    rows: &mut Rows,
) -> Result<(), PlanFault>
    ensures { Adds (path_rows reversed (defined_path path.now) (map defined_path way.now)) rows.old rows.new result }
{
    match path {
        Path::Predicate(predicate) => push_predicate(alloc, predicate, reversed, way, rows),
        Path::Inverse(inner) => push_path(alloc, inner, !reversed, way, rows),
        Path::Sequence(first, others) => push_through(alloc, first, others, reversed, way, rows),
        Path::Alternative(first, others) => push_each(alloc, first, others, reversed, way, rows),
        Path::ZeroOrMore(inner) => push_repeated(alloc, inner, reversed, way, rows),
        Path::OneOrMore(inner) => push_repeated(alloc, inner, reversed, way, rows),
        Path::ZeroOrOne(inner) => push_path(alloc, inner, reversed, way, rows),
    }
}

// Those of a path that is walked after any number of times along it.
#[cycle(looking)]
fn push_repeated(
    alloc: Global,
    path: &Path<Term>,
    reversed: bool,
    way: &[Path<Term>],
    rows: &mut Rows,
) -> Result<(), PlanFault>
    ensures { Adds (path_rows reversed (defined.ZeroOrMore (defined_path path.now)) (map defined_path way.now)) rows.old rows.new result }
{
    let longer = way_repeated(alloc, way, reversed, path)?;
    push_path(alloc, path, reversed, longer.as_slice(), rows)
}

// Those of the members of a sequence.
#[cycle(looking)]
fn push_through(
    alloc: Global,
    first: &Path<Term>,
    others: &[Path<Term>],
    reversed: bool,
    way: &[Path<Term>],
    rows: &mut Rows,
) -> Result<(), PlanFault>
    ensures { Adds (through_rows reversed (members (defined_path first.now) (map defined_path others.now)) (map defined_path way.now)) rows.old rows.new result }
{
    if reversed {
        push_backward(alloc, first, others, way, rows)
    } else {
        push_forward(alloc, first, others, way, rows)
    }
}

// Each member after those before it.
#[cycle(looking)]
fn push_forward(
    alloc: Global,
    first: &Path<Term>,
    others: &[Path<Term>],
    way: &[Path<Term>],
    rows: &mut Rows,
) -> Result<(), PlanFault>
    ensures { Adds (forward_rows (defined_path first.now ∷ map defined_path others.now) (map defined_path way.now)) rows.old rows.new result }
{
    push_path(alloc, first, false, way, rows)?;
    let mut longer = way_along(alloc, way, first)?;
    for path in others {
        push_path(alloc, path, false, longer.as_slice(), rows)?;
        push_step(alloc, path, &mut longer)?;
    }
    Ok(())
}

// Each member, backwards, after those behind it.
#[cycle(looking)]
fn push_backward(
    alloc: Global,
    first: &Path<Term>,
    others: &[Path<Term>],
    way: &[Path<Term>],
    rows: &mut Rows,
) -> Result<(), PlanFault>
    ensures { Adds (backward_rows (defined_path first.now ∷ map defined_path others.now) (map defined_path way.now)) rows.old rows.new result }
{
    let back = way_back(alloc, way, others)?;
    push_path(alloc, first, true, back.as_slice(), rows)?;
    for (index, path) in others.iter().enumerate() {
        let back = way_back(alloc, way, &others[index + 1..])?;
        push_path(alloc, path, true, back.as_slice(), rows)?;
    }
    Ok(())
}

// Those of the members of an alternative.
#[cycle(looking)]
fn push_each(
    alloc: Global,
    first: &Path<Term>,
    others: &[Path<Term>],
    reversed: bool,
    way: &[Path<Term>],
    rows: &mut Rows,
) -> Result<(), PlanFault>
    ensures { Adds (each_rows reversed (defined_path first.now ∷ map defined_path others.now) (map defined_path way.now)) rows.old rows.new result }
{
    push_path(alloc, first, reversed, way, rows)?;
    for path in others {
        push_path(alloc, path, reversed, way, rows)?;
    }
    Ok(())
}
