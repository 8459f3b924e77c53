//! Constraint components by their numbers.
ghost use Rattle.std.specs.Prelude.{◌≡◌, Some};
ghost use Rattle.std.specs.Fmt.{decimal};
ghost use Rattle.shape_model.specs.declared.component.Component.{Component as ComponentData};
ghost use Rattle.shape_model.specs.Rows.{component_number};
ghost use Rattle.evidence_reader.specs.Finding.{FindsAlone};

use shape_model::Component;

// In the order of their numbers, which count from 1.
const COMPONENTS: [Component; 28] = [
    Component::Class,
    Component::Datatype,
    Component::NodeKind,
    Component::MinCount,
    Component::MaxCount,
    Component::MinExclusive,
    Component::MinInclusive,
    Component::MaxExclusive,
    Component::MaxInclusive,
    Component::MinLength,
    Component::MaxLength,
    Component::Pattern,
    Component::LanguageIn,
    Component::UniqueLang,
    Component::Equals,
    Component::Disjoint,
    Component::LessThan,
    Component::LessThanOrEquals,
    Component::Not,
    Component::And,
    Component::Or,
    Component::Xone,
    Component::Node,
    Component::QualifiedMinCount,
    Component::QualifiedMaxCount,
    Component::Closed,
    Component::HasValue,
    Component::In,
];

// The component with this number.
fn with_number(number: u8) -> Option<Component>
    ensures { (c : ComponentData) → component_number c ≡ number → result ≡ Some c }
{
    for component in COMPONENTS {
        if component.number() == number {
            return Some(component);
        }
    }
    None
}

/// The component whose number has this decimal.
pub(crate) fn component_of(text: &[u8]) -> Option<Component>
    ensures { FindsAlone (λ _. Unit {0}) (λ c. decimal (component_number c)) text.now result }
{
    let Ok(digits) = std::str::from_utf8(text) else {
        return None;
    };
    match digits.parse::<u8>() {
        Ok(number) => with_number(number),
        Err(_) => None,
    }
}
