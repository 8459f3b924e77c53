//! The shapes on whose results those of a shape rest.
ghost use Rattle.std.specs.Prelude.{◌≡◌, ◌++◌, [], IfOk, OnOk, map};
ghost use Rattle.std.specs.List.{flat_map, list_any};
ghost use Rattle.shape_ast.specs.Readings.{read_constraint, read_shape};
ghost use Rattle.read_plans.specs.ShapeRows as rows;

use collections::insert_item;
use rdf_model::Term;
use shape_ast::{Constraint, Shape, TermComponent};
use std::alloc::{AllocError, Global};

fn is_count(constraint: &Constraint<Term>) -> bool
    ensures { result ≡ rows.is_count (read_constraint (λ t. t) constraint.now) }
{
    match constraint {
        Constraint::ByTerm { component, .. } => match component {
            TermComponent::QualifiedMinCount => true,
            TermComponent::QualifiedMaxCount => true,
            _ => false,
        },
        Constraint::ByList { .. } => false,
        Constraint::ByShape { .. } => false,
        Constraint::ByShapes { .. } => false,
    }
}

fn have_count(constraints: &[Constraint<Term>]) -> bool
    ensures { result ≡ list_any rows.is_count (map (read_constraint (λ t. t)) constraints.now) }
{
    for constraint in constraints {
        if is_count(constraint) {
            return true;
        }
    }
    false
}

// Adds the shapes that the constraint names.
fn push_named(places: &mut Vec<usize>, constraint: &Constraint<Term>) -> Result<(), AllocError>
    ensures { OnOk result (places.new.items ≡ places.old.items ++ rows.constraint_places (read_constraint (λ t. t) constraint.now)) }
{
    match constraint {
        Constraint::ByTerm { .. } => {}
        Constraint::ByList { .. } => {}
        Constraint::ByShape { shape, .. } => places.push(*shape)?,
        Constraint::ByShapes { shapes, .. } => places.extend_from_slice(shapes.as_slice())?,
    }
    Ok(())
}

fn push_all_named(
    places: &mut Vec<usize>,
    constraints: &[Constraint<Term>],
) -> Result<(), AllocError>
    ensures { OnOk result (places.new.items ≡ places.old.items ++ flat_map rows.constraint_places (map (read_constraint (λ t. t)) constraints.now)) }
{
    for constraint in constraints {
        push_named(places, constraint)?;
    }
    Ok(())
}

fn each_once(alloc: Global, places: &[usize]) -> Result<Vec<usize>, AllocError>
    ensures { IfOk result (λ found. found.items ≡ rows.with_places [] places.now) }
{
    let mut found = Vec::new(alloc);
    for place in places {
        insert_item(&mut found, *place)?;
    }
    Ok(found)
}

// Adds the qualified value shape and its siblings, where there is a qualified count (SHACL section 4.7.3).
fn push_qualified(
    alloc: Global,
    shape: &Shape<Term>,
    places: &mut Vec<usize>,
) -> Result<(), AllocError>
    ensures { OnOk result (places.new.items ≡ places.old.items ++ rows.qualified_places (read_shape (λ t. t) shape.now)) }
{
    if !have_count(shape.constraints.as_slice()) {
        return Ok(());
    }
    if let Some(qualified) = shape.qualified {
        places.push(qualified)?;
    }
    let siblings = each_once(alloc, shape.siblings.as_slice())?;
    places.extend_from_slice(&siblings)?;
    Ok(())
}

/// The shapes on whose results those of the shape rest (SHACL sections 3.4.3, 4.6 and 4.7), each as often as it is named.
pub(crate) fn referred_places(alloc: Global, shape: &Shape<Term>) -> Result<Vec<usize>, AllocError>
    ensures { IfOk result (λ places. places.items ≡ rows.referred_places (read_shape (λ t. t) shape.now)) }
{
    let mut places = Vec::new(alloc);
    places.extend_from_slice(shape.properties.as_slice())?;
    push_all_named(&mut places, shape.constraints.as_slice())?;
    push_qualified(alloc, shape, &mut places)?;
    Ok(places)
}
