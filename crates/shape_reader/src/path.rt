//! The path of a shape (SHACL section 2.3.1).
ghost use Rattle.std.specs.Prelude.{◌≡◌, ◌↔◌, IfOk, IsTrue};
ghost use Rattle.shape_syntax.specs.declared.reading.PathFault.TheVariants as path_faults;
ghost use Rattle.shape_ast.specs.Readings.{read_optional_path};
ghost use Rattle.shape_reader.specs.Parts.{IsKeptPath, IsOff, IsOptionalPath, IsOptionalPredicate};

use crate::shape_node::ShapeNode;
use crate::values::value_of;
use path_ast::Path;
use rdf_model::Term;
use shape_properties::ShapeProperty;
use shape_syntax::terms::is_iri;
use shape_syntax::{PathFault, read_path};
use std::alloc::AllocError;

// The one fault of a path that is there and isn't too deep.
fn want_of_memory(fault: PathFault) -> AllocError
    requires path { fault ≡ path_faults.NotPath → ⊥ }
    requires shallow { fault ≡ path_faults.TooDeep → ⊥ }
{
    match fault {
        PathFault::Memory => AllocError,
        PathFault::NotPath => unreachable!(),
        PathFault::TooDeep => unreachable!(),
    }
}

// The path of the shape at the node, if it has one. In a well-formed graph each value of sh:path stands for a path that
// isn't too deep.
fn path_of(shape: &ShapeNode) -> Result<Option<Path<Term>>, AllocError>
    ensures { IfOk result (λ found. IsOptionalPath shape.now.graph shape.now.node (read_optional_path (λ t. t) found)) }
{
    shape.recall();
    let Some(value) = value_of(shape, ShapeProperty::Path) else {
        return Ok(None);
    };
    match read_path(shape.alloc(), shape.graph(), shape.paths(), value) {
        Ok(path) => Ok(Some(path)),
        Err(fault) => Err(want_of_memory(fault)),
    }
}

// The path of the shape at the node, if it is a predicate.
fn predicate_of(shape: &ShapeNode) -> Result<Option<Path<Term>>, AllocError>
    ensures { IfOk result (λ found. IsOptionalPredicate shape.now.graph shape.now.node (read_optional_path (λ t. t) found)) }
{
    shape.recall();
    let Some(value) = value_of(shape, ShapeProperty::Path) else {
        return Ok(None);
    };
    if is_iri(value) {
        Ok(Some(Path::Predicate(value.clone()?)))
    } else {
        Ok(None)
    }
}

/// What is kept of the path of the shape at the node: the whole of it, but only a predicate where the shape is deactivated.
/// No rule bounds a path of which nothing is looked at, and a small graph may say one that no memory holds, since paths in a
/// graph share their nodes.
pub(crate) fn kept_path(
    shape: &ShapeNode,
    is_deactivated: bool,
) -> Result<Option<Path<Term>>, AllocError>
    requires { IsTrue is_deactivated ↔ IsOff shape.now.graph shape.now.node }
    ensures { IfOk result (λ found. IsKeptPath shape.now.graph shape.now.node (read_optional_path (λ t. t) found)) }
{
    if is_deactivated {
        Ok(predicate_of(shape)?)
    } else {
        Ok(path_of(shape)?)
    }
}
