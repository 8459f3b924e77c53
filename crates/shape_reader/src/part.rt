//! The parts that the values of a shape's properties say: one way to read them all.
ghost use Rattle.std.specs.Prelude.{◌≡◌, ◌⊎◌, ◌↔◌, IfOk, OnOk, List, Some, map};
ghost use Rattle.std.specs.List.{Contains};
ghost use Rattle.collections.specs.Ordered.{IsAscending};
ghost use Rattle.rdf_model.specs.declared.term.Term.{Term as TermData};
ghost use Rattle.rdf_model.specs.declared.triple.Triple.{Triple as TripleData};
ghost use Rattle.rdf_model.specs.Terms.{triple_cmp};
ghost use Rattle.shape_properties.specs.declared.property.ShapeProperty.{ShapeProperty as PropertyData};
ghost use Rattle.shape_properties.specs.Syntax.{SomeValue};
ghost use Rattle.shape_properties.specs.OfProperties.{OfTriple};
ghost use Rattle.shape_properties.specs.Adding.{MayAdd, value_triple};

use crate::shape_node::ShapeNode;
use collections::Sequence;
use rdf_model::{Term, Triple};
use shape_properties::{ShapeProperty, property_of};
use std::alloc::AllocError;

/// The part that a value says, if it says one.
pub(crate) type Said<P> = Result<Option<P>, AllocError>;

/// What a value of a property says of its shape.
pub(crate) trait Part {
    /// In the graph, where shapes have places among the nodes, the value of the property says this part.
    ghost says: { List TripleData → List TermData → PropertyData → TermData → Self → Type 0 };

    /// The triple of the node that says this part.
    ghost triple: { TermData → Self → TripleData };

    /// The part that the value says, if it says one.
    fn read(shape: &ShapeNode, property: ShapeProperty, value: &Term) -> Said<Self>
        ensures said { IfOk result (λ found. (x : Self) → (found ≡ Some x) ↔ says shape.now.graph shape.now.nodes property value.now x) }
        ensures by { IfOk result (λ found. (n : TermData) (x : Self) → found ≡ Some x → triple n x ≡ value_triple n property value.now) };
}

// Adds the part that the value says.
fn push_read<P: Part + Drop>(
    shape: &ShapeNode,
    property: ShapeProperty,
    value: &Term,
    parts: &mut Sequence<P>,
) -> Result<(), AllocError>
    ensures said { OnOk result ((x : P) → Contains parts.new x ↔ (Contains parts.old x ⊎ P.says shape.now.graph shape.now.nodes property value.now x)) }
    ensures by { OnOk result ((n : TermData) → MayAdd (value_triple n property value.now) (map (P.triple n) parts.old) (map (P.triple n) parts.new)) }
{
    let found = P::read(shape, property, value)?;
    match found {
        Some(part) => {
            parts.push(part)?;
            Ok(())
        }
        None => Ok(()),
    }
}

// Adds the part that the triple says.
fn push_part<P: Part + Drop>(
    shape: &ShapeNode,
    triple: &Triple,
    parts: &mut Sequence<P>,
) -> Result<(), AllocError>
    ensures said { OnOk result ((x : P) → Contains parts.new x ↔ (Contains parts.old x ⊎ OfTriple triple.now (λ p v. P.says shape.now.graph shape.now.nodes p v x))) }
    ensures by { OnOk result (MayAdd triple.now (map (P.triple triple.now.subject) parts.old) (map (P.triple triple.now.subject) parts.new)) }
{
    match property_of(&triple.predicate) {
        Some(property) => {
            push_read(shape, property, &triple.object, parts)?;
            Ok(())
        }
        None => Ok(()),
    }
}

/// The parts of this sort that the values of the node's properties say, in the order of the triples that say them.
pub(crate) fn parts_of<P: Part + Drop>(shape: &ShapeNode) -> Result<Sequence<P>, AllocError>
    ensures said { IfOk result (λ parts. (x : P) → Contains parts x ↔ SomeValue shape.now.graph shape.now.node (λ p v. P.says shape.now.graph shape.now.nodes p v x)) }
    ensures by { IfOk result (λ parts. IsAscending triple_cmp (map (P.triple shape.now.node) parts)) }
{
    let own = shape.own();
    let mut parts = Sequence::new(shape.alloc());
    for triple in own {
        push_part(shape, triple, &mut parts)?;
    }
    Ok(parts)
}
