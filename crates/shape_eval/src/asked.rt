//! Which shapes the constraints of a shape ask.
ghost use Rattle.std.specs.Prelude.{◌≡◌, ◌⊎◌, ◌↔◌, IfOk, OnOk};
ghost use Rattle.std.specs.List.{Contains};
ghost use Rattle.shape_eval.specs.Told.{Asks, AsksSome, CountAsks, places_in};

use shape_ast::{Constraint, Shape, TermComponent};
use std::alloc::{AllocError, Global};

// Adds a place, unless it is there.
fn add_place(places: &mut Vec<usize>, place: usize) -> Result<(), AllocError>
    ensures { OnOk result ((n : _) → Contains places.new.items n ↔ (Contains places.old.items n ⊎ (place ≡ n))) }
{
    if places.contains(&place) {
        return Ok(());
    }
    places.push(place)?;
    Ok(())
}

// Adds some places.
fn add_places(places: &mut Vec<usize>, more: &[usize]) -> Result<(), AllocError>
    ensures { OnOk result ((n : _) → Contains places.new.items n ↔ (Contains places.old.items n ⊎ Contains more.now n)) }
{
    for place in more {
        add_place(places, *place)?;
    }
    Ok(())
}

// Adds a place, if there is one.
fn add_optional(places: &mut Vec<usize>, place: Option<usize>) -> Result<(), AllocError>
    ensures { OnOk result ((n : _) → Contains places.new.items n ↔ (Contains places.old.items n ⊎ Contains (places_in place) n)) }
{
    match place {
        None => Ok(()),
        Some(place) => Ok(add_place(places, place)?),
    }
}

// Adds the qualified value shape and the siblings of a shape (SHACL section 4.7.3).
fn add_qualified(places: &mut Vec<usize>, shape: &Shape<u32>) -> Result<(), AllocError>
    ensures { OnOk result ((n : _) → Contains places.new.items n ↔ (Contains places.old.items n ⊎ (Contains (places_in shape.now.qualified) n ⊎ Contains shape.now.siblings n))) }
{
    add_optional(places, shape.qualified)?;
    add_places(places, shape.siblings.as_slice())?;
    Ok(())
}

// Adds the shapes whose results those of a component of the shape rest on, whatever its parameter.
fn add_counted(
    places: &mut Vec<usize>,
    shape: &Shape<u32>,
    component: TermComponent,
) -> Result<(), AllocError>
    ensures { OnOk result ((n : _) → Contains places.new.items n ↔ (Contains places.old.items n ⊎ CountAsks shape.now component n)) }
{
    match component {
        TermComponent::QualifiedMinCount => add_qualified(places, shape),
        TermComponent::QualifiedMaxCount => add_qualified(places, shape),
        _ => Ok(()),
    }
}

// Adds the shapes whose results those of a constraint of the shape rest on.
fn add_asked(
    places: &mut Vec<usize>,
    shape: &Shape<u32>,
    constraint: &Constraint<u32>,
) -> Result<(), AllocError>
    ensures { OnOk result ((n : _) → Contains places.new.items n ↔ (Contains places.old.items n ⊎ Asks shape.now constraint.now n)) }
{
    match constraint {
        Constraint::ByTerm { component, .. } => add_counted(places, shape, *component),
        Constraint::ByList { .. } => Ok(()),
        Constraint::ByShape { shape: place, .. } => add_place(places, *place),
        Constraint::ByShapes { shapes, .. } => add_places(places, shapes.as_slice()),
    }
}

/// The shapes whose results those of these constraints of the shape rest on, each once.
pub(crate) fn asked_places(
    alloc: Global,
    shape: &Shape<u32>,
    constraints: &[Constraint<u32>],
) -> Result<Vec<usize>, AllocError>
    ensures { IfOk result (λ places. (n : _) → Contains places.items n ↔ AsksSome shape.now constraints.now n) }
{
    let mut places = Vec::new(alloc);
    for constraint in constraints {
        add_asked(&mut places, shape, constraint)?;
    }
    Ok(places)
}
