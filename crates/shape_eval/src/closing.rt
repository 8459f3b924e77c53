//! The predicates that a closed shape allows.
ghost use Rattle.std.specs.Prelude.{◌≡◌, ◌<◌, ◌⊎◌, ◌↔◌, IfOk, OnOk, Some, length};
ghost use Rattle.std.specs.List.{All, Contains};
ghost use Rattle.std.specs.Ordering.{nat_cmp};
ghost use Rattle.collections.specs.Listings.{IsListing};
ghost use Rattle.path_ast.specs.declared.path.Path.{Predicate};
ghost use Rattle.shape_eval.specs.Predicates.{IsPathAtSome};

use collections::sorted_once;
use path_ast::Path;
use shape_ast::Shape;
use std::alloc::{AllocError, Global};

// Adds the predicate that is the path, if it is one.
fn add_predicate(found: &mut Vec<u32>, path: &Option<Path<u32>>) -> Result<(), AllocError>
    ensures { OnOk result ((p : _) → Contains found.new.items p ↔ (Contains found.old.items p ⊎ (path.now ≡ Some (Predicate p)))) }
{
    if let Some(Path::Predicate(predicate)) = path {
        found.push(*predicate)?;
    }
    Ok(())
}

// The predicates that are the paths of the shapes at these places.
fn path_predicates(
    alloc: Global,
    shapes: &[Shape<u32>],
    places: &[usize],
) -> Result<Vec<u32>, AllocError>
    requires { All (λ n. n < length shapes.now) places.now }
    ensures { IfOk result (λ found. (p : _) → Contains found.items p ↔ IsPathAtSome shapes.now places.now p) }
{
    let mut found = Vec::new(alloc);
    for place in places {
        add_predicate(&mut found, &shapes[*place].path)?;
    }
    Ok(found)
}

/// The predicates that a closed shape allows (SHACL section 4.8.1), each once, ascending by number.
pub(crate) fn allowed_predicates(
    alloc: Global,
    shapes: &[Shape<u32>],
    properties: &[usize],
    ignored: &[u32],
) -> Result<Vec<u32>, AllocError>
    requires { All (λ n. n < length shapes.now) properties.now }
    ensures { IfOk result (λ allowed. IsListing nat_cmp (λ p. IsPathAtSome shapes.now properties.now p ⊎ Contains ignored.now p) allowed.items) }
{
    let mut allowed = path_predicates(alloc, shapes, properties)?;
    allowed.extend_from_slice(ignored)?;
    Ok(sorted_once(allowed)?)
}
