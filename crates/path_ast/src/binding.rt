//! Paths by the numbers of their terms.
ghost use Rattle.std.specs.Prelude.{◌≡◌, ◌<◌, IfOk, length, map};
ghost use Rattle.std.specs.List.{All};
ghost use Rattle.rdf_model.specs.Numbers.{term_at};
ghost use Rattle.path_ast.specs.PathReadings.{IsBoundFrom, IsBoundPath, IsNamed, IsNamedPath, defined_path, path_of};

use crate::Path;
use rdf_model::{Names, Term};
use std::alloc::{AllocError, Global};

// The number of a term that has one.
pub(crate) fn number_of<N: Names>(names: &N, term: &Term) -> u32
    requires { IsNamed (N.terms names.now) term.now }
    ensures bound { result < length (N.terms names.now) }
    ensures term { term_at (N.terms names.now) result ≡ term.now }
{
    names.id(term).unwrap()
}

/// The path over the numbers of its terms among the names.
#[cycle(binding)]
pub fn bind_path<N: Names>(
    alloc: Global,
    names: &N,
    path: &Path<Term>,
) -> Result<Path<u32>, AllocError>
    requires { IsNamedPath (N.terms names.now) path.now }
    ensures { IfOk result (λ bound. IsBoundFrom (N.terms names.now) path.now bound) }
{
    match path {
        Path::Predicate(term) => Ok(Path::Predicate(number_of(names, term))),
        Path::Inverse(inner) => {
            let bound = bind_path(alloc, names, inner)?;
            Ok(Path::Inverse(Box::new(alloc, bound)?))
        }
        Path::Sequence(first, others) => {
            let bound = bind_path(alloc, names, first)?;
            let more = bind_paths(alloc, names, others)?;
            Ok(Path::Sequence(Box::new(alloc, bound)?, more))
        }
        Path::Alternative(first, others) => {
            let bound = bind_path(alloc, names, first)?;
            let more = bind_paths(alloc, names, others)?;
            Ok(Path::Alternative(Box::new(alloc, bound)?, more))
        }
        Path::ZeroOrMore(inner) => {
            let bound = bind_path(alloc, names, inner)?;
            Ok(Path::ZeroOrMore(Box::new(alloc, bound)?))
        }
        Path::OneOrMore(inner) => {
            let bound = bind_path(alloc, names, inner)?;
            Ok(Path::OneOrMore(Box::new(alloc, bound)?))
        }
        Path::ZeroOrOne(inner) => {
            let bound = bind_path(alloc, names, inner)?;
            Ok(Path::ZeroOrOne(Box::new(alloc, bound)?))
        }
    }
}

// The paths by the numbers of their terms, in their order.
#[cycle(binding)]
fn bind_paths<N: Names>(
    alloc: Global,
    names: &N,
    paths: &[Path<Term>],
) -> Result<Vec<Path<u32>>, AllocError>
    requires { All (IsNamedPath (N.terms names.now)) paths.now }
    ensures { IfOk result (λ bound. All (IsBoundPath (length (N.terms names.now))) bound.items × (map (path_of (N.terms names.now)) bound.items ≡ map defined_path paths.now)) }
{
    let mut bound = Vec::new(alloc);
    for path in paths {
        bound.push(bind_path(alloc, names, path)?)?;
    }
    Ok(bound)
}
