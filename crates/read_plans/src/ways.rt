//! Copies of paths, and ways that are made of them.
ghost use Rattle.std.specs.Prelude.{◌≡◌, ◌∷◌, [], ◌++◌, IfOk, OnOk, Ok, map};
ghost use Rattle.shape_model.specs.Looks.{directed};
ghost use Rattle.shape_model.specs.Paths as defined;
ghost use Rattle.path_ast.specs.PathReadings.{defined_path, members};
ghost use Rattle.read_plans.specs.MemberRows.{back_way};

use collections::{Sequence, both};
use path_ast::Path;
use rdf_model::Term;
use std::alloc::{AllocError, Global};

// The copy in a box, if there is one.
fn boxed(alloc: Global, copy: Result<Path<Term>, AllocError>) -> Result<Box<Path<Term>>, AllocError>
    ensures { IfOk result (λ held. copy ≡ Ok held.value) }
{
    Ok(Box::new(alloc, copy?)?)
}

#[cycle(copying)]
fn copied_path(alloc: Global, path: &Path<Term>) -> Result<Path<Term>, AllocError>
    ensures { IfOk result (λ copy. defined_path copy ≡ defined_path path.now) }
{
    match path {
        Path::Predicate(predicate) => Ok(Path::Predicate(predicate.clone()?)),
        Path::Inverse(inner) => Ok(Path::Inverse(boxed(alloc, copied_path(alloc, inner))?)),
        Path::Sequence(first, others) => {
            let (first, more) = both(
                boxed(alloc, copied_path(alloc, first)),
                copied_paths(alloc, others),
            )?;
            Ok(Path::Sequence(first, more))
        }
        Path::Alternative(first, others) => {
            let (first, more) = both(
                boxed(alloc, copied_path(alloc, first)),
                copied_paths(alloc, others),
            )?;
            Ok(Path::Alternative(first, more))
        }
        Path::ZeroOrMore(inner) => Ok(Path::ZeroOrMore(boxed(alloc, copied_path(alloc, inner))?)),
        Path::OneOrMore(inner) => Ok(Path::OneOrMore(boxed(alloc, copied_path(alloc, inner))?)),
        Path::ZeroOrOne(inner) => Ok(Path::ZeroOrOne(boxed(alloc, copied_path(alloc, inner))?)),
    }
}

#[cycle(copying)]
fn copied_paths(alloc: Global, paths: &[Path<Term>]) -> Result<Vec<Path<Term>>, AllocError>
    ensures { IfOk result (λ copies. map defined_path copies.items ≡ map defined_path paths.now) }
{
    let mut copies = Vec::new(alloc);
    for path in paths {
        copies.push(copied_path(alloc, path)?)?;
    }
    Ok(copies)
}

/// A copy of the way.
pub(crate) fn copied_way(
    alloc: Global,
    way: &[Path<Term>],
) -> Result<Sequence<Path<Term>>, AllocError>
    ensures { IfOk result (λ copy. map defined_path copy ≡ map defined_path way.now) }
{
    Ok(Sequence::from_vec(copied_paths(alloc, way)?))
}

// The way, and then the path.
fn longer_way(
    alloc: Global,
    way: &[Path<Term>],
    path: Path<Term>,
) -> Result<Sequence<Path<Term>>, AllocError>
    ensures { IfOk result (λ longer. map defined_path longer ≡ map defined_path way.now ++ defined_path path ∷ []) }
{
    let mut longer = copied_way(alloc, way)?;
    longer.push(path)?;
    Ok(longer)
}

/// Adds a copy of the path to the way.
pub(crate) fn push_step(
    alloc: Global,
    path: &Path<Term>,
    way: &mut Sequence<Path<Term>>,
) -> Result<(), AllocError>
    ensures { OnOk result (map defined_path way.new ≡ map defined_path way.old ++ defined_path path.now ∷ []) }
{
    way.push(copied_path(alloc, path)?)?;
    Ok(())
}

/// The way, and then the path.
pub(crate) fn way_along(
    alloc: Global,
    way: &[Path<Term>],
    path: &Path<Term>,
) -> Result<Sequence<Path<Term>>, AllocError>
    ensures { IfOk result (λ longer. map defined_path longer ≡ map defined_path way.now ++ defined_path path.now ∷ []) }
{
    let mut longer = copied_way(alloc, way)?;
    push_step(alloc, path, &mut longer)?;
    Ok(longer)
}

// The path, or the way back along it.
fn directed_path(alloc: Global, reversed: bool, path: &Path<Term>) -> Result<Path<Term>, AllocError>
    ensures { IfOk result (λ copy. defined_path copy ≡ directed reversed (defined_path path.now)) }
{
    let copy = copied_path(alloc, path)?;
    if reversed {
        return Ok(Path::Inverse(Box::new(alloc, copy)?));
    }
    Ok(copy)
}

/// The way, and then the path, walked backwards where reversed, any number of times.
pub(crate) fn way_repeated(
    alloc: Global,
    way: &[Path<Term>],
    reversed: bool,
    path: &Path<Term>,
) -> Result<Sequence<Path<Term>>, AllocError>
    ensures { IfOk result (λ longer. map defined_path longer ≡ map defined_path way.now ++ defined.ZeroOrMore (directed reversed (defined_path path.now)) ∷ []) }
{
    let copy = directed_path(alloc, reversed, path)?;
    longer_way(alloc, way, Path::ZeroOrMore(Box::new(alloc, copy)?))
}

// The way back along the paths, one after another.
fn inverse_sequence(
    alloc: Global,
    first: &Path<Term>,
    others: &[Path<Term>],
) -> Result<Path<Term>, AllocError>
    ensures { IfOk result (λ path. defined_path path ≡ defined.Inverse (defined.Sequence (members (defined_path first.now) (map defined_path others.now)))) }
{
    let copy = copied_path(alloc, first)?;
    let more = copied_paths(alloc, others)?;
    let sequence = Path::Sequence(Box::new(alloc, copy)?, more);
    Ok(Path::Inverse(Box::new(alloc, sequence)?))
}

/// The way, and then back along the paths, if there are some.
pub(crate) fn way_back(
    alloc: Global,
    way: &[Path<Term>],
    paths: &[Path<Term>],
) -> Result<Sequence<Path<Term>>, AllocError>
    ensures { IfOk result (λ longer. map defined_path longer ≡ back_way (map defined_path paths.now) (map defined_path way.now)) }
{
    let Some((first, others)) = paths.split_first() else {
        return copied_way(alloc, way);
    };
    let back = inverse_sequence(alloc, first, others)?;
    longer_way(alloc, way, back)
}
