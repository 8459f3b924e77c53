//! Shapes by the numbers of their terms.
ghost use Rattle.std.specs.Prelude.{◌≡◌, IfOk};
ghost use Rattle.path_ast.specs.PathReadings.{IsNamed};
ghost use Rattle.shape_ast.specs.Readings.{AreBound, AreNamed, HoldsOfShape, named_shapes, read_shapes};
ghost use Rattle.shape_ast.specs.Standing.{AreBuilt};
ghost use Rattle.shape_ast.specs.Binding.{IsBoundShape};
ghost use Rattle.rdf_model.specs.Numbers.{term_at};

use crate::parts::{
    bind_constraints, bind_optional, bind_optional_path, bind_pattern, bind_targets, bind_terms,
    copy_places, number_of,
};
use crate::{Shape, Shapes};
use collections::{Sequence, both};
use rdf_model::{Names, Term};
use std::alloc::{AllocError, Global};

/// Shapes over the numbers of their terms among some names.
#[derive(Debug, Drop)]
pub struct Bound {
    pub shapes: Sequence<Shape<u32>>,
}

fn bind_shape<N: Names>(
    alloc: Global,
    names: &N,
    shapes: usize,
    shape: &Shape<Term>,
) -> Result<Shape<u32>, AllocError>
    requires { HoldsOfShape (IsNamed (N.terms names.now)) shapes shape.now }
    ensures { IfOk result (λ bound. IsBoundShape (N.terms names.now) shapes shape.now bound) }
{
    let (path, pattern) = both(
        bind_optional_path(alloc, names, &shape.path),
        bind_pattern(names, &shape.pattern),
    )?;
    let (targets, constraints) = both(
        bind_targets(alloc, names, shape.targets.as_slice()),
        bind_constraints(alloc, names, shapes, shape.constraints.as_slice()),
    )?;
    let (messages, ignored) = both(
        bind_terms(alloc, names, shape.messages.as_slice()),
        bind_terms(alloc, names, shape.ignored.as_slice()),
    )?;
    let (properties, siblings) = both(
        copy_places(alloc, shape.properties.as_slice()),
        copy_places(alloc, shape.siblings.as_slice()),
    )?;
    Ok(Shape {
        node: number_of(names, &shape.node),
        path,
        is_deactivated: shape.is_deactivated,
        severity: bind_optional(names, &shape.severity),
        messages,
        targets,
        constraints,
        pattern,
        flags: bind_optional(names, &shape.flags),
        properties,
        qualified: shape.qualified,
        siblings,
        ignored,
    })
}

/// The shapes by the numbers of their terms among the names: they read the same, and their patterns are built of the
/// same texts.
pub fn bind<N: Names>(alloc: Global, shapes: &Shapes, names: &N) -> Result<Bound, AllocError>
    requires { AreNamed (N.terms names.now) shapes.now.shapes }
    ensures bound { IfOk result (λ bound. AreBound (N.terms names.now) bound.shapes) }
    ensures same { IfOk result (λ bound. named_shapes (N.terms names.now) bound.shapes ≡ read_shapes shapes.now.shapes) }
    ensures built { IfOk result (λ bound. AreBuilt (λ t. t) shapes.now.shapes → AreBuilt (term_at (N.terms names.now)) bound.shapes) }
{
    let all = shapes.shapes.as_slice();
    let mut bound = Sequence::new(alloc);
    for shape in all {
        bound.push(bind_shape(alloc, names, all.len(), shape)?)?;
    }
    Ok(Bound { shapes: bound })
}
