//! What constraints keep of the values of their parameter.
ghost use Rattle.std.specs.Prelude.{◌≡◌};
ghost use Rattle.shape_reader.specs.Kinds;

use shape_ast::{ListComponent, ShapeComponent, ShapesComponent, TermComponent};
use shape_properties::ShapeProperty;

/// What a constraint keeps of a value of its parameter, with the component.
#[derive(Clone, Copy)]
pub(crate) enum Kind {
    /// The value.
    Term(TermComponent),
    /// The members of the list that it is the head of.
    List(ListComponent),
    /// The place of the shape that it is.
    Shape(ShapeComponent),
    /// The places of the shapes that are members of the list.
    Shapes(ShapesComponent),
    /// The property is the parameter of no constraint, or the one of patterns.
    Nothing,
}

/// What constraints keep of the property's values (SHACL section 4).
pub(crate) fn kind_of(property: ShapeProperty) -> Kind
    ensures { result ≡ Kinds.kind property }
{
    match property {
        ShapeProperty::Class => Kind::Term(TermComponent::Class),
        ShapeProperty::Datatype => Kind::Term(TermComponent::Datatype),
        ShapeProperty::NodeKind => Kind::Term(TermComponent::NodeKind),
        ShapeProperty::MinCount => Kind::Term(TermComponent::MinCount),
        ShapeProperty::MaxCount => Kind::Term(TermComponent::MaxCount),
        ShapeProperty::MinExclusive => Kind::Term(TermComponent::MinExclusive),
        ShapeProperty::MinInclusive => Kind::Term(TermComponent::MinInclusive),
        ShapeProperty::MaxExclusive => Kind::Term(TermComponent::MaxExclusive),
        ShapeProperty::MaxInclusive => Kind::Term(TermComponent::MaxInclusive),
        ShapeProperty::MinLength => Kind::Term(TermComponent::MinLength),
        ShapeProperty::MaxLength => Kind::Term(TermComponent::MaxLength),
        ShapeProperty::LanguageIn => Kind::List(ListComponent::LanguageIn),
        ShapeProperty::UniqueLang => Kind::Term(TermComponent::UniqueLang),
        ShapeProperty::Equals => Kind::Term(TermComponent::Equals),
        ShapeProperty::Disjoint => Kind::Term(TermComponent::Disjoint),
        ShapeProperty::LessThan => Kind::Term(TermComponent::LessThan),
        ShapeProperty::LessThanOrEquals => Kind::Term(TermComponent::LessThanOrEquals),
        ShapeProperty::Not => Kind::Shape(ShapeComponent::Not),
        ShapeProperty::And => Kind::Shapes(ShapesComponent::And),
        ShapeProperty::Or => Kind::Shapes(ShapesComponent::Or),
        ShapeProperty::Xone => Kind::Shapes(ShapesComponent::Xone),
        ShapeProperty::Node => Kind::Shape(ShapeComponent::Node),
        ShapeProperty::QualifiedMinCount => Kind::Term(TermComponent::QualifiedMinCount),
        ShapeProperty::QualifiedMaxCount => Kind::Term(TermComponent::QualifiedMaxCount),
        ShapeProperty::Closed => Kind::Term(TermComponent::Closed),
        ShapeProperty::HasValue => Kind::Term(TermComponent::HasValue),
        ShapeProperty::In => Kind::List(ListComponent::In),
        _ => Kind::Nothing,
    }
}
