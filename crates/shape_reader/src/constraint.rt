//! The constraints of a shape (SHACL section 4).
ghost use Rattle.std.specs.Prelude.{◌≡◌, ◌↔◌, ℕ, IfOk, List, Some};
ghost use Rattle.rdf_model.specs.declared.term.Term.{Term as TermData};
ghost use Rattle.shape_ast.specs.declared.constraint.Constraint.{Constraint as ConstraintData};
ghost use Rattle.shape_reader.specs.declared.kind.Kind.TheVariants as kinds;
ghost use Rattle.shape_ast.specs.Once.{constraint_triple};
ghost use Rattle.shape_reader.specs.Parts.{AreConstraints, AreShapesOf, IsConstraint, SaysConstraint};

use crate::kind::{Kind, kind_of};
use crate::part::{Part, Said, parts_of};
use crate::place::{place_of, places_of};
use crate::shape_node::ShapeNode;
use collections::Sequence;
use rdf_model::{Term, Triple};
use shape_ast::{Constraint, ListComponent, Members, ShapesComponent};
use shape_properties::ShapeProperty;
use std::alloc::AllocError;

// The places of the shapes that are members of the list, if all have one.
fn shapes_of(shape: &ShapeNode, head: &Term) -> Result<Option<Sequence<usize>>, AllocError>
    ensures { IfOk result (λ found. (places : List ℕ) → (found ≡ Some places) ↔ AreShapesOf shape.now.graph shape.now.nodes head.now places) }
{
    match shape.members(head)? {
        Some(members) => {
            let places = places_of(shape, members.as_slice())?;
            Ok(places)
        }
        None => Ok(None),
    }
}

fn by_list(shape: &ShapeNode, component: ListComponent, value: &Term) -> Said<Constraint<Term>>
    ensures { IfOk result (λ found. (x : ConstraintData TermData) → (found ≡ Some x) ↔ IsConstraint shape.now.graph shape.now.nodes (kinds.List component) value.now x) }
{
    match shape.members(value)? {
        Some(members) => Ok(Some(Constraint::ByList {
            component,
            parameter: value.clone()?,
            members: Members::listed(members),
        })),
        None => Ok(None),
    }
}

fn by_shapes(shape: &ShapeNode, component: ShapesComponent, value: &Term) -> Said<Constraint<Term>>
    ensures { IfOk result (λ found. (x : ConstraintData TermData) → (found ≡ Some x) ↔ IsConstraint shape.now.graph shape.now.nodes (kinds.Shapes component) value.now x) }
{
    match shapes_of(shape, value)? {
        Some(shapes) => Ok(Some(Constraint::ByShapes {
            component,
            parameter: value.clone()?,
            shapes,
        })),
        None => Ok(None),
    }
}

// The constraint of this kind by the value, if there is one.
fn read_constraint(shape: &ShapeNode, kind: Kind, value: &Term) -> Said<Constraint<Term>>
    ensures { IfOk result (λ found. (x : ConstraintData TermData) → (found ≡ Some x) ↔ IsConstraint shape.now.graph shape.now.nodes kind value.now x) }
{
    match kind {
        Kind::Term(component) => Ok(Some(Constraint::ByTerm {
            component,
            parameter: value.clone()?,
        })),
        Kind::List(component) => {
            let found = by_list(shape, component, value)?;
            Ok(found)
        }
        Kind::Shape(component) => match place_of(shape, value) {
            Some(place) => Ok(Some(Constraint::ByShape {
                component,
                parameter: value.clone()?,
                shape: place,
            })),
            None => Ok(None),
        },
        Kind::Shapes(component) => {
            let found = by_shapes(shape, component, value)?;
            Ok(found)
        }
        Kind::Nothing => Ok(None),
    }
}

impl Part for Constraint<Term> {
    ghost says = { SaysConstraint };

    ghost triple = { constraint_triple };

    fn read(shape: &ShapeNode, property: ShapeProperty, value: &Term) -> Said<Constraint<Term>> {
        let found = read_constraint(shape, kind_of(property), value)?;
        Ok(found)
    }
}

/// The constraints of the shape at the node, in the order of the triples that say them.
pub(crate) fn constraints_of(shape: &ShapeNode) -> Result<Sequence<Constraint<Term>>, AllocError>
    ensures { IfOk result (λ constraints. AreConstraints shape.now.graph shape.now.nodes shape.now.node constraints) }
{
    let constraints = parts_of(shape)?;
    Ok(constraints)
}
