//! The results of the constraints of a shape and of its pattern, at a focus node with its value nodes.
ghost use Rattle.std.specs.Prelude.{◌≡◌, ◌<◌, IfOk, OnOk, length, map};
ghost use Rattle.std.specs.List.{All};
ghost use Rattle.rdf_model.specs.Numbers.{graph_of, term_at};
ghost use Rattle.component_rows.specs.Listed.{Collects};
ghost use Rattle.component_rows.specs.Nodes.{AreNodes, HasNode};
ghost use Rattle.path_eval.specs.Naming.{AddsLooks};
ghost use Rattle.collections.specs.Listings.{Keeps};
ghost use Rattle.shape_ast.specs.Readings.{HoldsOfConstraint, HoldsOfShape, named_shapes, parameter, read_constraint, read_shape};
ghost use Rattle.shape_ast.specs.Standing.{IsBuilt, IsLinked};
ghost use Rattle.shape_eval.specs.Around.{around};
ghost use Rattle.shape_eval.specs.Looks.{ConstraintReads, ReadsOfSome};
ghost use Rattle.shape_eval.specs.ShapeRows.{ConstraintRow, FromSome, OwnRow, PatternRow};
ghost use Rattle.shape_eval.specs.Told.{Asks, AsksSome, HaveAnswers, WhereRight};

use crate::by_list::list_rows;
use crate::by_shape::{shape_rows, shapes_rows};
use crate::by_term::term_rows;
use crate::context::Evaluation;
use crate::flags::flags_text;
use crate::looks::component_looks;
use crate::told::Told;
use rdf_model::{Footprint, Names, Triples};
use shape_ast::{Constraint, Shape};
use shape_model::ResultRow;
use std::alloc::AllocError;
use string_constraints::{Matchers, pattern};

// The value of the constraint's parameter.
fn parameter_of(constraint: &Constraint<u32>) -> u32
    ensures { result ≡ parameter constraint.now }
{
    match constraint {
        Constraint::ByTerm { parameter, .. } => *parameter,
        Constraint::ByList { parameter, .. } => *parameter,
        Constraint::ByShape { parameter, .. } => *parameter,
        Constraint::ByShapes { parameter, .. } => *parameter,
    }
}

// The results of a constraint of the shape. The looks that it makes by itself are added to the footprint.
fn constraint_rows<R: Triples, N: Names>(
    evaluation: &Evaluation<'_, R, N>,
    shape: &Shape<u32>,
    told: &[Told],
    constraint: &Constraint<u32>,
    focus: u32,
    values: &[u32],
    footprint: &mut Footprint,
) -> Result<Vec<ResultRow>, AllocError>
    requires shape { HoldsOfShape (λ n. n < length evaluation.now.terms) (length evaluation.now.shapes) shape.now }
    requires constraint { HoldsOfConstraint (λ n. n < length evaluation.now.terms) (length evaluation.now.shapes) constraint.now }
    requires nodes { AreNodes evaluation.now.terms values.now }
    requires told { HaveAnswers evaluation.now.shapes values.now told.now (Asks shape.now constraint.now) }
    requires focus { focus < length evaluation.now.terms }
    ensures rows { IfOk result (λ rows. WhereRight evaluation.now.terms evaluation.now.ids evaluation.now.shapes values.now told.now (Asks shape.now constraint.now)
        (λ s n. IsLinked (named_shapes evaluation.now.terms evaluation.now.shapes) (read_constraint (term_at evaluation.now.terms) constraint.now)
        → Collects (ConstraintRow (around evaluation.now.terms evaluation.now.ids s n values.now focus) (named_shapes evaluation.now.terms evaluation.now.shapes)
        (read_shape (term_at evaluation.now.terms) shape.now) (term_at evaluation.now.terms focus) (read_constraint (term_at evaluation.now.terms) constraint.now)) rows.items)) }
    ensures looks { OnOk result (AddsLooks evaluation.now.terms (ConstraintReads (graph_of evaluation.now.terms evaluation.now.ids) (HasNode evaluation.now.terms values.now)
        (term_at evaluation.now.terms focus) (read_constraint (term_at evaluation.now.terms) constraint.now)) footprint.old footprint.new) }
    ensures kept { Keeps footprint.old footprint.new }
{
    evaluation.recall();
    let site = evaluation.site(shape.node, parameter_of(constraint), focus, values);
    let shapes = evaluation.shapes();
    match constraint {
        Constraint::ByTerm { component, .. } => {
            let instances = component_looks(evaluation, &site, *component, footprint)?;
            term_rows(evaluation, &site, shape, told, &instances, *component)
        }
        Constraint::ByList {
            component,
            members,
            ..
        } => list_rows(&site, *component, members),
        Constraint::ByShape {
            component,
            shape: place,
            ..
        } => shape_rows(&site, shapes, told, *component, *place),
        Constraint::ByShapes {
            component,
            shapes: places,
            ..
        } => shapes_rows(&site, shapes, told, *component, places.as_slice()),
    }
}

// The results of some constraints of the shape.
fn constraints_rows<R: Triples, N: Names>(
    evaluation: &Evaluation<'_, R, N>,
    shape: &Shape<u32>,
    told: &[Told],
    constraints: &[Constraint<u32>],
    focus: u32,
    values: &[u32],
    footprint: &mut Footprint,
) -> Result<Vec<ResultRow>, AllocError>
    requires shape { HoldsOfShape (λ n. n < length evaluation.now.terms) (length evaluation.now.shapes) shape.now }
    requires constraints { All (HoldsOfConstraint (λ n. n < length evaluation.now.terms) (length evaluation.now.shapes)) constraints.now }
    requires nodes { AreNodes evaluation.now.terms values.now }
    requires told { HaveAnswers evaluation.now.shapes values.now told.now (AsksSome shape.now constraints.now) }
    requires focus { focus < length evaluation.now.terms }
    ensures rows { IfOk result (λ rows. WhereRight evaluation.now.terms evaluation.now.ids evaluation.now.shapes values.now told.now (AsksSome shape.now constraints.now)
        (λ s n. All (IsLinked (named_shapes evaluation.now.terms evaluation.now.shapes)) (map (read_constraint (term_at evaluation.now.terms)) constraints.now)
        → Collects (FromSome (map (read_constraint (term_at evaluation.now.terms)) constraints.now)
        (ConstraintRow (around evaluation.now.terms evaluation.now.ids s n values.now focus) (named_shapes evaluation.now.terms evaluation.now.shapes)
        (read_shape (term_at evaluation.now.terms) shape.now) (term_at evaluation.now.terms focus))) rows.items)) }
    ensures looks { OnOk result (AddsLooks evaluation.now.terms (ReadsOfSome (map (read_constraint (term_at evaluation.now.terms)) constraints.now)
        (ConstraintReads (graph_of evaluation.now.terms evaluation.now.ids) (HasNode evaluation.now.terms values.now) (term_at evaluation.now.terms focus))) footprint.old footprint.new) }
    ensures kept { Keeps footprint.old footprint.new }
{
    let mut rows = Vec::new(evaluation.alloc());
    for constraint in constraints {
        let mut more = constraint_rows(
            evaluation, shape, told, constraint, focus, values, footprint,
        )?;
        rows.append(&mut more)?;
    }
    Ok(rows)
}

// The results of the shape's pattern (SHACL section 4.4.3), if it has one.
fn pattern_rows<'a, R: Triples, N: Names>(
    evaluation: &Evaluation<'a, R, N>,
    shape: &'a Shape<u32>,
    focus: u32,
    values: &[u32],
    matchers: &mut Matchers<'a>,
) -> Result<Vec<ResultRow>, AllocError>
    requires shape { HoldsOfShape (λ n. n < length evaluation.now.terms) (length evaluation.now.shapes) shape.now }
    requires built { IsBuilt (term_at evaluation.now.terms) shape.now }
    requires nodes { AreNodes evaluation.now.terms values.now }
    requires focus { focus < length evaluation.now.terms }
    ensures { IfOk result (λ rows. (ids : _) (s : _) (n : _) (shapes : _) → Collects (PatternRow (around evaluation.now.terms ids s n values.now focus) shapes
        (read_shape (term_at evaluation.now.terms) shape.now) (term_at evaluation.now.terms focus)) rows.items) }
{
    match &shape.pattern {
        None => Ok(Vec::new(evaluation.alloc())),
        Some(built) => {
            let flags = flags_text(evaluation, shape);
            let matcher = matchers.matcher_of(evaluation.alloc(), &built.regex, flags)?;
            let site = evaluation.site(shape.node, built.parameter, focus, values);
            pattern(&site, matcher)
        }
    }
}

/// The results of the constraints of the shape and of its pattern at a focus node with these value nodes.
pub(crate) fn own_rows<'a, R: Triples, N: Names>(
    evaluation: &Evaluation<'a, R, N>,
    shape: &'a Shape<u32>,
    told: &[Told],
    focus: u32,
    values: &[u32],
    footprint: &mut Footprint,
    matchers: &mut Matchers<'a>,
) -> Result<Vec<ResultRow>, AllocError>
    requires shape { HoldsOfShape (λ n. n < length evaluation.now.terms) (length evaluation.now.shapes) shape.now }
    requires built { IsBuilt (term_at evaluation.now.terms) shape.now }
    requires nodes { AreNodes evaluation.now.terms values.now }
    requires told { HaveAnswers evaluation.now.shapes values.now told.now (AsksSome shape.now shape.now.constraints) }
    requires focus { focus < length evaluation.now.terms }
    ensures rows { IfOk result (λ rows. WhereRight evaluation.now.terms evaluation.now.ids evaluation.now.shapes values.now told.now (AsksSome shape.now shape.now.constraints)
        (λ s n. All (IsLinked (named_shapes evaluation.now.terms evaluation.now.shapes)) (map (read_constraint (term_at evaluation.now.terms)) shape.now.constraints)
        → Collects (OwnRow (around evaluation.now.terms evaluation.now.ids s n values.now focus) (named_shapes evaluation.now.terms evaluation.now.shapes)
        (read_shape (term_at evaluation.now.terms) shape.now) (term_at evaluation.now.terms focus)) rows.items)) }
    ensures looks { OnOk result (AddsLooks evaluation.now.terms (ReadsOfSome (map (read_constraint (term_at evaluation.now.terms)) shape.now.constraints)
        (ConstraintReads (graph_of evaluation.now.terms evaluation.now.ids) (HasNode evaluation.now.terms values.now) (term_at evaluation.now.terms focus))) footprint.old footprint.new) }
    ensures kept { Keeps footprint.old footprint.new }
{
    let constraints = shape.constraints.as_slice();
    let mut rows = constraints_rows(
        evaluation,
        shape,
        told,
        constraints,
        focus,
        values,
        footprint,
    )?;
    let mut more = pattern_rows(evaluation, shape, focus, values, matchers)?;
    rows.append(&mut more)?;
    Ok(rows)
}
