//! The plans of compiled shapes by the numbers of their terms.
ghost use Rattle.std.specs.Prelude.{◌≡◌, ◌↔◌, ◌+◌, ◌<◌, ◌≤◌, ◌^◌, IfOk, IsTrue, OnOk, length};
ghost use Rattle.rdf_model.specs.Numbers.{term_at};
ghost use Rattle.shape_model.specs.Limits.{looks_limit};
ghost use Rattle.shape_model.specs.Vocabulary.{rdf_type, sub_class_of};
ghost use Rattle.path_ast.specs.PathReadings.{IsNamed};
ghost use Rattle.shape_ast.specs.Readings.{AreNamed, read_shapes};
ghost use Rattle.read_plans.specs.NamedRows.{AreNamedWith};
ghost use Rattle.read_plans.specs.Rows.{read_looks};
ghost use Rattle.read_plans.specs.ShapeRows.{plan_rows};
ghost use Rattle.focus_affected.specs.Plans.{AreBoundPlans, IsBoundPlan};
ghost use Rattle.shape_plans.specs.Planned.{AreFew, AreFirstPlans, ArePlansOf, Declares, IsPlanOf};

use crate::looks::{number_looks, number_of};
use focus_affected::ShapePlan;
use rdf_model::Names;
use read_plans::{PlanFault, PlannedLook, plan};
use shape_ast::Shapes;
use std::alloc::{AllocError, Global};

// The rows of looks of the shape at the place, which are no more than a shape may have.
fn looks_of(alloc: Global, shapes: &Shapes, place: usize) -> Result<Vec<PlannedLook>, AllocError>
    requires place { place < length shapes.now.shapes }
    requires few { length (plan_rows (read_shapes shapes.now.shapes) place) ≤ looks_limit }
    ensures rows { IfOk result (λ rows. read_looks rows.items ≡ plan_rows (read_shapes shapes.now.shapes) place) }
    ensures named { IfOk result (λ rows. AreNamedWith shapes.now.shapes (read_looks rows.items)) }
{
    match plan(alloc, shapes, place) {
        Ok(rows) => Ok(rows),
        Err(PlanFault::Memory) => Err(AllocError),
        Err(PlanFault::TooWide { .. }) => unreachable!(),
    }
}

// Whether the shape at the place declares targets (SHACL section 2.1.3).
fn declares_target(shapes: &Shapes, place: usize) -> bool
    requires { place < length shapes.now.shapes }
    ensures { IsTrue result ↔ Declares (read_shapes shapes.now.shapes) place }
{
    !shapes.shapes.as_slice()[place].targets.is_empty()
}

// The plan of the shape at the place.
fn number_plan<N: Names>(
    alloc: Global,
    names: &N,
    shapes: &Shapes,
    place: usize,
) -> Result<ShapePlan, AllocError>
    requires types { IsNamed (N.terms names.now) rdf_type }
    requires supers { IsNamed (N.terms names.now) sub_class_of }
    requires named { AreNamed (N.terms names.now) shapes.now.shapes }
    requires few { AreFew (read_shapes shapes.now.shapes) }
    requires place { place < length shapes.now.shapes }
    requires small { place < 2 ^ 32 }
    ensures place { IfOk result (λ plan. plan.place ≡ place) }
    ensures bound { IfOk result (IsBoundPlan (length (N.terms names.now))) }
    ensures plan { IfOk result (IsPlanOf (N.terms names.now) (read_shapes shapes.now.shapes)) }
{
    let rows = looks_of(alloc, shapes, place)?;
    let looks = number_looks(alloc, names, &rows)?;
    Ok(ShapePlan {
        place: place as u32,
        node: number_of(names, &shapes.shapes.as_slice()[place].node),
        looks,
    })
}

// Adds the plan of the shape at the place, if it declares targets.
fn push_plan<N: Names>(
    alloc: Global,
    names: &N,
    shapes: &Shapes,
    place: usize,
    plans: &mut Vec<ShapePlan>,
) -> Result<(), AllocError>
    requires types { IsNamed (N.terms names.now) rdf_type }
    requires supers { IsNamed (N.terms names.now) sub_class_of }
    requires named { AreNamed (N.terms names.now) shapes.now.shapes }
    requires few { AreFew (read_shapes shapes.now.shapes) }
    requires place { place < length shapes.now.shapes }
    requires small { place < 2 ^ 32 }
    ensures bound { OnOk result (AreBoundPlans (length (N.terms names.now)) plans.old.items → AreBoundPlans (length (N.terms names.now)) plans.new.items) }
    ensures first { OnOk result (AreFirstPlans (N.terms names.now) (read_shapes shapes.now.shapes) place plans.old.items → AreFirstPlans (N.terms names.now) (read_shapes shapes.now.shapes) (place + 1) plans.new.items) }
{
    if !declares_target(shapes, place) {
        return Ok(());
    }
    plans.push(number_plan(alloc, names, shapes, place)?)?;
    Ok(())
}

/// The plans of looks of the shapes that declare targets, by the numbers of terms. All terms of the shapes, rdf:type and
/// rdfs:subClassOf are among the names, and no shape has more than 4,096 looks. It fails only for want of memory.
pub fn number_plans<N: Names>(
    alloc: Global,
    names: &N,
    shapes: &Shapes,
) -> Result<Vec<ShapePlan>, AllocError>
    requires types { IsNamed (N.terms names.now) rdf_type }
    requires supers { IsNamed (N.terms names.now) sub_class_of }
    requires named { AreNamed (N.terms names.now) shapes.now.shapes }
    requires few { AreFew (read_shapes shapes.now.shapes) }
    requires small { length shapes.now.shapes ≤ 2 ^ 32 }
    ensures bound { IfOk result (λ plans. AreBoundPlans (length (N.terms names.now)) plans.items) }
    ensures plans { IfOk result (λ plans. ArePlansOf (N.terms names.now) (read_shapes shapes.now.shapes) plans.items) }
{
    let mut plans = Vec::new(alloc);
    for place in 0..shapes.shapes.len() {
        push_plan(alloc, names, shapes, place, &mut plans)?;
    }
    Ok(plans)
}
