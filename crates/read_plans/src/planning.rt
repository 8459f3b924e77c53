//! The rows of looks of a shape, with those of the shapes that it refers to.
ghost use Rattle.std.specs.Prelude.{◌≡◌, ◌≤◌, ◌<◌, ◌+◌, ◌++◌, IfErr, IfOk, MatchResult, length, map, slice_get};
ghost use Rattle.std.specs.List.{flat_map};
ghost use Rattle.path_ast.specs.PathReadings.{defined_path};
ghost use Rattle.shape_model.specs.Limits.{levels_limit, looks_limit};
ghost use Rattle.shape_ast.specs.Readings.{read_shape, read_shapes};
ghost use Rattle.read_plans.specs.Laws.{ListLooks};
ghost use Rattle.read_plans.specs.NamedRows.{AreNamedWith};
ghost use Rattle.read_plans.specs.Rows.{Adds, IsStopped, read_looks};
ghost use Rattle.read_plans.specs.ShapeRows.{plan_rows, shape_rows};

use crate::constraint_looks::{push_own_rows, push_targets, way_to_values};
use crate::references::referred_places;
use crate::rows::Rows;
use crate::{PlanFault, PlannedLook};
use path_ast::Path;
use rdf_model::Term;
use shape_ast::{Shape, Shapes};
use std::alloc::Global;

// Adds the rows of the shapes at the places, whose focus nodes are at the end of the way.
#[cycle(planning)]
fn push_shapes(
    alloc: Global,
    shapes: &[Shape<Term>],
    levels: usize,
    places: &[usize],
    way: &[Path<Term>],
    rows: &mut Rows,
) -> Result<(), PlanFault>
    ensures { Adds (flat_map (λ n. shape_rows (read_shapes shapes.now) levels n (map defined_path way.now)) places.now) rows.old rows.new result }
{
    for place in places {
        push_shape(alloc, shapes, levels, *place, way, rows)?;
    }
    Ok(())
}

// Those of the shape at the place, through chains of fewer references than the levels.
#[cycle(planning)]
fn push_shape(
    alloc: Global,
    shapes: &[Shape<Term>],
    levels: usize,
    place: usize,
    way: &[Path<Term>],
    rows: &mut Rows,
) -> Result<(), PlanFault>
    ensures { Adds (shape_rows (read_shapes shapes.now) levels place (map defined_path way.now)) rows.old rows.new result }
{
    let Some(shape) = shapes.get(place) else {
        return Ok(());
    };
    if levels == 0 || shape.is_deactivated {
        return Ok(());
    }
    let values = way_to_values(alloc, &shape.path, way)?;
    push_own_rows(alloc, shape, way, values.as_slice(), rows)?;
    let places = referred_places(alloc, shape)?;
    push_shapes(alloc, shapes, levels - 1, &places, values.as_slice(), rows)
}

// One more than the most references that a chain may have.
#[tactic(auto, unfolding(shape_model::specs::Limits::levels_limit))]
fn most_levels() -> usize
    ensures { result ≡ levels_limit }
{
    257
}

fn push_plan(
    alloc: Global,
    shapes: &[Shape<Term>],
    place: usize,
    rows: &mut Rows,
) -> Result<(), PlanFault>
    requires { place < length shapes.now }
    ensures { Adds (plan_rows (read_shapes shapes.now) place) rows.old rows.new result }
{
    let none = Vec::new(alloc);
    push_shape(alloc, shapes, most_levels(), place, &none, rows)?;
    push_targets(alloc, shapes[place].targets.as_slice(), rows)
}

/// The rows of looks of the shape at the place among the shapes, with those of its targets, each as often as it is counted.
/// They have no other terms than the shapes, rdf:type and rdfs:subClassOf.
pub fn plan(alloc: Global, shapes: &Shapes, shape: usize) -> Result<Vec<PlannedLook>, PlanFault>
    requires { shape < length shapes.now.shapes }
    ensures rows { IfOk result (λ rows. read_looks rows.items ≡ plan_rows (read_shapes shapes.now.shapes) shape) }
    ensures looks { IfOk result (λ rows. ListLooks shapes.now.shapes shape (read_looks rows.items)) }
    ensures named { IfOk result (λ rows. AreNamedWith shapes.now.shapes (read_looks rows.items)) }
    ensures few { IfOk result (λ rows. length rows.items ≤ looks_limit) }
    ensures wide { IfErr result (λ fault. IsStopped (length (plan_rows (read_shapes shapes.now.shapes) shape)) fault) }
{
    let mut rows = Rows::new(alloc);
    push_plan(alloc, shapes.shapes.as_slice(), shape, &mut rows)?;
    Ok(rows.into_vec())
}
