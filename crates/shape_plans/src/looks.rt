//! Planned looks by the numbers of their terms.
ghost use Rattle.std.specs.Prelude.{◌≡◌, ◌↔◌, ◌⊎◌, ◌<◌, IfOk, List, OnOk, length, map};
ghost use Rattle.std.specs.List.{All, AllByRecursion, Contains};
ghost use Rattle.rdf_model.specs.Numbers.{term_at};
ghost use Rattle.rdf_model.specs.declared.term.Term.{Term as TermData};
ghost use Rattle.path_ast.specs.PathReadings.{IsBoundOptional, IsBoundPath, IsNamed, IsNamedPath, defined_path, path_of};
ghost use Rattle.read_plans.specs.NamedRows.{HoldsOfKind, HoldsOfRow};
ghost use Rattle.read_plans.specs.Rows.{read_kind, read_look, read_looks};
ghost use Rattle.focus_affected.specs.Plans.{AreBoundRows, IsBoundKind, IsBoundLookRow, kind_of, row_of, way_of};

use crate::alike::has_look;
use collections::Sequence;
use focus_affected::{NumberedKind, NumberedLook};
use path_ast::{Path, bind_path};
use rdf_model::{Names, Term};
use read_plans::{LookKind, PlannedLook};
use std::alloc::{AllocError, Global};

/// The number of a term that has one.
pub(crate) fn number_of<N: Names>(names: &N, term: &Term) -> u32
    requires { IsNamed (N.terms names.now) term.now }
    ensures bound { result < length (N.terms names.now) }
    ensures term { term_at (N.terms names.now) result ≡ term.now }
{
    names.id(term).unwrap()
}

fn number_kind<N: Names>(names: &N, kind: &LookKind) -> NumberedKind
    requires { HoldsOfKind (IsNamed (N.terms names.now)) (read_kind kind.now) }
    ensures bound { IsBoundKind (length (N.terms names.now)) result }
    ensures same { kind_of (N.terms names.now) result ≡ read_kind kind.now }
{
    match kind {
        LookKind::Out(predicate) => NumberedKind::Out(number_of(names, predicate)),
        LookKind::In(predicate) => NumberedKind::In(number_of(names, predicate)),
        LookKind::OutAny => NumberedKind::OutAny,
    }
}

// The paths by number, in their order.
fn number_paths<N: Names>(
    alloc: Global,
    names: &N,
    paths: &[Path<Term>],
) -> Result<Vec<Path<u32>>, AllocError>
    requires { All (IsNamedPath (N.terms names.now)) paths.now }
    ensures bound { IfOk result (λ bound. All (IsBoundPath (length (N.terms names.now))) bound.items) }
    ensures same { IfOk result (λ bound. map (path_of (N.terms names.now)) bound.items ≡ map defined_path paths.now) }
{
    let mut bound = Vec::new(alloc);
    for path in paths {
        bound.push(bind_path(alloc, names, path)?)?;
    }
    Ok(bound)
}

// A way as one path, the sequence of its paths; none where there are none.
fn number_way<N: Names>(
    alloc: Global,
    names: &N,
    way: &[Path<Term>],
) -> Result<Option<Path<u32>>, AllocError>
    requires { All (IsNamedPath (N.terms names.now)) way.now }
    ensures bound { IfOk result (IsBoundOptional (length (N.terms names.now))) }
    ensures same { IfOk result (λ path. way_of (N.terms names.now) path ≡ map defined_path way.now) }
{
    let Some((first, others)) = way.split_first() else {
        return Ok(None);
    };
    let bound = bind_path(alloc, names, first)?;
    let more = number_paths(alloc, names, others)?;
    Ok(Some(Path::Sequence(Box::new(alloc, bound)?, more)))
}

fn number_look<N: Names>(
    alloc: Global,
    names: &N,
    look: &PlannedLook,
) -> Result<NumberedLook, AllocError>
    requires { HoldsOfRow (IsNamed (N.terms names.now)) (read_look look.now) }
    ensures bound { IfOk result (IsBoundLookRow (length (N.terms names.now))) }
    ensures same { IfOk result (λ numbered. row_of (N.terms names.now) numbered ≡ read_look look.now) }
{
    let way = number_way(alloc, names, look.way.as_slice())?;
    Ok(NumberedLook {
        way,
        kind: number_kind(names, &look.kind),
    })
}

// Adds the row, unless it is there: an equal one would find the same.
fn push_look(looks: &mut Sequence<NumberedLook>, look: NumberedLook) -> Result<(), AllocError>
    ensures rows { OnOk result ((terms : List TermData) (row : _) → Contains (map (row_of terms) looks.new) row ↔ (Contains (map (row_of terms) looks.old) row ⊎ (row_of terms look ≡ row))) }
    ensures bound { OnOk result ((n : _) → IsBoundLookRow n look → AreBoundRows n looks.old → AreBoundRows n looks.new) }
{
    if has_look(looks.as_slice(), &look) {
        return Ok(());
    }
    looks.push(look)?;
    Ok(())
}

/// The rows of planned looks by the numbers of their terms.
pub(crate) fn number_looks<N: Names>(
    alloc: Global,
    names: &N,
    looks: &[PlannedLook],
) -> Result<Sequence<NumberedLook>, AllocError>
    requires { AllByRecursion (HoldsOfRow (IsNamed (N.terms names.now))) (read_looks looks.now) }
    ensures bound { IfOk result (AreBoundRows (length (N.terms names.now))) }
    ensures rows { IfOk result (λ numbered. (row : _) → Contains (map (row_of (N.terms names.now)) numbered) row ↔ Contains (read_looks looks.now) row) }
{
    let mut numbered = Sequence::new(alloc);
    for look in looks {
        push_look(&mut numbered, number_look(alloc, names, look)?)?;
    }
    Ok(numbered)
}
