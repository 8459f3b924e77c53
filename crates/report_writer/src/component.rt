//! The name of a component in a report.
ghost use Rattle.std.specs.Prelude.{◌≡◌};
ghost use Rattle.report_writer.specs.Report.{component_name};

use shape_ast::Component;

/// The local name of the component's IRI (SHACL section 4), without `ConstraintComponent`.
pub fn name_of(component: Component) -> &'static str
    ensures { result.now ≡ component_name component }
{
    match component {
        Component::Class => "Class",
        Component::Datatype => "Datatype",
        Component::NodeKind => "NodeKind",
        Component::MinCount => "MinCount",
        Component::MaxCount => "MaxCount",
        Component::MinExclusive => "MinExclusive",
        Component::MinInclusive => "MinInclusive",
        Component::MaxExclusive => "MaxExclusive",
        Component::MaxInclusive => "MaxInclusive",
        Component::MinLength => "MinLength",
        Component::MaxLength => "MaxLength",
        Component::Pattern => "Pattern",
        Component::LanguageIn => "LanguageIn",
        Component::UniqueLang => "UniqueLang",
        Component::Equals => "Equals",
        Component::Disjoint => "Disjoint",
        Component::LessThan => "LessThan",
        Component::LessThanOrEquals => "LessThanOrEquals",
        Component::Not => "Not",
        Component::And => "And",
        Component::Or => "Or",
        Component::Xone => "Xone",
        Component::Node => "Node",
        Component::QualifiedMinCount => "QualifiedMinCount",
        Component::QualifiedMaxCount => "QualifiedMaxCount",
        Component::Closed => "Closed",
        Component::HasValue => "HasValue",
        Component::In => "In",
    }
}
