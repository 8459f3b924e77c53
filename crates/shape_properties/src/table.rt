//! The table of rules: what each property asks for, with the number of the rule that asks it.
ghost use Rattle.std.specs.Prelude.{◌≡◌};
ghost use Rattle.shape_properties.specs.Table;

use crate::ShapeProperty;

/// What a property is to the shape at which it stands (SHACL section 2.1).
#[derive(Clone, Copy, Debug)]
pub enum Role {
    /// It declares targets.
    DeclaresTargets,
    /// A shape-expecting parameter.
    ExpectsShape,
    /// A parameter that takes a list of shapes.
    TakesShapes,
    /// Any other parameter.
    Parameter,
    /// No parameter.
    Other,
}

/// What a rule asks of a term.
#[derive(Clone, Copy, Debug)]
pub enum Test {
    Anything,
    Iri,
    NoBlank,
    NoLiteral,
    Literal,
    /// A well-typed xsd:integer.
    Integer,
    /// A well-typed xsd:boolean.
    Boolean,
    /// An xsd:string.
    Text,
    /// An xsd:string of letters i, s, m, x.
    Flags,
    /// An xsd:string, or a literal with a language tag.
    Message,
    /// `true` or `false` as xsd:boolean.
    TrueOrFalse,
    /// One of the six node kinds.
    NodeKind,
    /// A node that stands for a path.
    Path,
    /// A node with sh:path that is no literal.
    PropertyShape,
    List,
    ListOfIris,
}

/// A test, and the rule that is broken where it fails.
#[derive(Clone, Copy, Debug)]
pub struct RuleTest {
    pub rule: u8,
    pub test: Test,
}

fn must(rule: u8, test: Test) -> RuleTest
    ensures { result ≡ Table.must rule test }
{
    RuleTest { rule, test }
}

impl ShapeProperty {
    pub fn role(self) -> Role
        ensures { result ≡ Table.role self }
    {
        match self {
            ShapeProperty::TargetNode
            | ShapeProperty::TargetClass
            | ShapeProperty::TargetSubjectsOf
            | ShapeProperty::TargetObjectsOf => Role::DeclaresTargets,
            ShapeProperty::Not
            | ShapeProperty::Node
            | ShapeProperty::Property
            | ShapeProperty::QualifiedValueShape => Role::ExpectsShape,
            ShapeProperty::And | ShapeProperty::Or | ShapeProperty::Xone => Role::TakesShapes,
            ShapeProperty::Path
            | ShapeProperty::Severity
            | ShapeProperty::Message
            | ShapeProperty::Deactivated
            | ShapeProperty::Sparql
            | ShapeProperty::Js
            | ShapeProperty::Target
            | ShapeProperty::Entailment => Role::Other,
            _ => Role::Parameter,
        }
    }

    /// Whether a shape has one value of the property at most.
    pub fn takes_one(self) -> bool
        ensures { result ≡ Table.takes_one self }
    {
        matches!(
            self,
            ShapeProperty::Path
                | ShapeProperty::Severity
                | ShapeProperty::Deactivated
                | ShapeProperty::Datatype
                | ShapeProperty::NodeKind
                | ShapeProperty::MinCount
                | ShapeProperty::MaxCount
                | ShapeProperty::MinExclusive
                | ShapeProperty::MinInclusive
                | ShapeProperty::MaxExclusive
                | ShapeProperty::MaxInclusive
                | ShapeProperty::MinLength
                | ShapeProperty::MaxLength
                | ShapeProperty::Pattern
                | ShapeProperty::Flags
                | ShapeProperty::LanguageIn
                | ShapeProperty::UniqueLang
                | ShapeProperty::In
                | ShapeProperty::Closed
                | ShapeProperty::IgnoredProperties
                | ShapeProperty::QualifiedValueShape
                | ShapeProperty::QualifiedMinCount
                | ShapeProperty::QualifiedMaxCount
                | ShapeProperty::QualifiedValueShapesDisjoint
        )
    }

    /// Whether the property stands at property shapes alone.
    pub fn wants_path(self) -> bool
        ensures { result ≡ Table.wants_path self }
    {
        matches!(
            self,
            ShapeProperty::MinCount
                | ShapeProperty::MaxCount
                | ShapeProperty::UniqueLang
                | ShapeProperty::LessThan
                | ShapeProperty::LessThanOrEquals
                | ShapeProperty::QualifiedValueShape
                | ShapeProperty::QualifiedMinCount
                | ShapeProperty::QualifiedMaxCount
        )
    }

    /// Whether the property may stand at no node.
    pub fn is_forbidden(self) -> bool
        ensures { result ≡ Table.is_forbidden self }
    {
        matches!(
            self,
            ShapeProperty::Sparql
                | ShapeProperty::Js
                | ShapeProperty::Target
                | ShapeProperty::Entailment
        )
    }

    /// What each value of the property must be.
    pub fn of_value(self) -> RuleTest
        ensures { result ≡ Table.of_value self }
    {
        match self {
            ShapeProperty::TargetNode => must(2, Test::NoBlank),
            ShapeProperty::TargetClass => must(3, Test::Iri),
            ShapeProperty::TargetSubjectsOf => must(5, Test::Iri),
            ShapeProperty::TargetObjectsOf => must(6, Test::Iri),
            ShapeProperty::Severity => must(7, Test::Iri),
            ShapeProperty::Message => must(8, Test::Message),
            ShapeProperty::Deactivated => must(9, Test::TrueOrFalse),
            ShapeProperty::Path => must(12, Test::Path),
            ShapeProperty::Class => must(13, Test::Iri),
            ShapeProperty::Datatype => must(14, Test::Iri),
            ShapeProperty::NodeKind => must(15, Test::NodeKind),
            ShapeProperty::MinCount | ShapeProperty::MaxCount => must(16, Test::Integer),
            ShapeProperty::MinExclusive
            | ShapeProperty::MinInclusive
            | ShapeProperty::MaxExclusive
            | ShapeProperty::MaxInclusive => must(18, Test::Literal),
            ShapeProperty::MinLength | ShapeProperty::MaxLength => must(19, Test::Integer),
            ShapeProperty::Pattern => must(20, Test::Text),
            ShapeProperty::Flags => must(21, Test::Flags),
            ShapeProperty::LanguageIn | ShapeProperty::In => must(23, Test::List),
            ShapeProperty::UniqueLang => must(25, Test::Boolean),
            ShapeProperty::Equals | ShapeProperty::Disjoint => must(26, Test::Iri),
            ShapeProperty::LessThan | ShapeProperty::LessThanOrEquals => must(27, Test::Iri),
            ShapeProperty::Not => must(28, Test::NoLiteral),
            ShapeProperty::And | ShapeProperty::Or | ShapeProperty::Xone => must(29, Test::List),
            ShapeProperty::Node => must(31, Test::NoLiteral),
            ShapeProperty::Property => must(32, Test::PropertyShape),
            ShapeProperty::QualifiedValueShape => must(33, Test::NoLiteral),
            ShapeProperty::QualifiedMinCount | ShapeProperty::QualifiedMaxCount => {
                must(34, Test::Integer)
            }
            ShapeProperty::QualifiedValueShapesDisjoint => must(35, Test::Boolean),
            ShapeProperty::Closed => must(36, Test::Boolean),
            ShapeProperty::IgnoredProperties => must(37, Test::ListOfIris),
            _ => must(0, Test::Anything),
        }
    }

    /// What each member of a list that is a value of the property must be.
    pub fn of_member(self) -> RuleTest
        ensures { result ≡ Table.of_member self }
    {
        match self {
            ShapeProperty::LanguageIn => must(24, Test::Text),
            ShapeProperty::And | ShapeProperty::Or | ShapeProperty::Xone => {
                must(30, Test::NoLiteral)
            }
            _ => must(0, Test::Anything),
        }
    }
}
