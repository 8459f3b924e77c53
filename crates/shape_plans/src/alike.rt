//! Whether two rows of looks by number are one.
ghost use Rattle.std.specs.Prelude.{◌≡◌, IsTrue, List, map};
ghost use Rattle.std.specs.List.{Contains};
ghost use Rattle.rdf_model.specs.declared.term.Term.{Term as TermData};
ghost use Rattle.path_ast.specs.PathReadings.{path_of};
ghost use Rattle.focus_affected.specs.Plans.{kind_of, row_of, way_of};

use focus_affected::{NumberedKind, NumberedLook};
use path_ast::Path;

// Whether the paths are one, predicate by predicate.
#[cycle(comparing)]
fn is_same_path(path: &Path<u32>, other: &Path<u32>) -> bool
    ensures { IsTrue result → (terms : List TermData) → path_of terms path.now ≡ path_of terms other.now }
{
    match (path, other) {
        (Path::Predicate(path), Path::Predicate(other)) => path == other,
        (Path::Inverse(path), Path::Inverse(other)) => is_same_path(path, other),
        (Path::Sequence(path, more), Path::Sequence(other, others)) => {
            is_same_path(path, other) && are_same_paths(more, others)
        }
        (Path::Alternative(path, more), Path::Alternative(other, others)) => {
            is_same_path(path, other) && are_same_paths(more, others)
        }
        (Path::ZeroOrMore(path), Path::ZeroOrMore(other)) => is_same_path(path, other),
        (Path::OneOrMore(path), Path::OneOrMore(other)) => is_same_path(path, other),
        (Path::ZeroOrOne(path), Path::ZeroOrOne(other)) => is_same_path(path, other),
        _ => false,
    }
}

// Whether they are so in turn.
#[cycle(comparing)]
fn are_same_paths(paths: &[Path<u32>], others: &[Path<u32>]) -> bool
    ensures { IsTrue result → (terms : List TermData) → map (path_of terms) paths.now ≡ map (path_of terms) others.now }
{
    if paths.len() != others.len() {
        return false;
    }
    for index in 0..paths.len() {
        if !is_same_path(&paths[index], &others[index]) {
            return false;
        }
    }
    true
}

// Whether the ways are one.
fn is_same_way(way: &Option<Path<u32>>, other: &Option<Path<u32>>) -> bool
    ensures { IsTrue result → (terms : List TermData) → way_of terms way.now ≡ way_of terms other.now }
{
    match (way, other) {
        (None, None) => true,
        (Some(way), Some(other)) => is_same_path(way, other),
        _ => false,
    }
}

// Whether the same is asked.
fn is_same_kind(kind: NumberedKind, other: NumberedKind) -> bool
    ensures { IsTrue result → (terms : List TermData) → kind_of terms kind ≡ kind_of terms other }
{
    match (kind, other) {
        (NumberedKind::Out(predicate), NumberedKind::Out(other)) => predicate == other,
        (NumberedKind::In(predicate), NumberedKind::In(other)) => predicate == other,
        (NumberedKind::OutAny, NumberedKind::OutAny) => true,
        _ => false,
    }
}

// Whether the rows are one.
fn is_same_look(look: &NumberedLook, other: &NumberedLook) -> bool
    ensures { IsTrue result → (terms : List TermData) → row_of terms look.now ≡ row_of terms other.now }
{
    is_same_kind(look.kind, other.kind) && is_same_way(&look.way, &other.way)
}

/// Whether one of the rows is the look.
pub(crate) fn has_look(looks: &[NumberedLook], look: &NumberedLook) -> bool
    ensures { IsTrue result → (terms : List TermData) → Contains (map (row_of terms) looks.now) (row_of terms look.now) }
{
    for other in looks {
        if is_same_look(other, look) {
            return true;
        }
    }
    false
}
