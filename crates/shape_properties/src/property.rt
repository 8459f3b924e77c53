//! The properties of the SHACL vocabulary.
ghost use Rattle.std.specs.Prelude.{◌≡◌, ◌≢◌, ◌↔◌, false, IsTrue, MatchOption};
ghost use Rattle.rdf_model.specs.declared.term.Term.TheVariants.{Iri};
ghost use Rattle.shape_properties.specs.Properties.{property_iri};
ghost use Rattle.shape_properties.specs.declared.property.ShapeProperty.{ShapeProperty as PropertyData};

use rdf_model::Term;

/// A property of the SHACL vocabulary that is read at a shape, or forbidden at any node.
#[derive(Clone, Copy)]
pub enum ShapeProperty {
    Class,
    Datatype,
    NodeKind,
    MinCount,
    MaxCount,
    MinExclusive,
    MinInclusive,
    MaxExclusive,
    MaxInclusive,
    MinLength,
    MaxLength,
    Pattern,
    Flags,
    LanguageIn,
    UniqueLang,
    Equals,
    Disjoint,
    LessThan,
    LessThanOrEquals,
    Not,
    And,
    Or,
    Xone,
    Node,
    Property,
    QualifiedValueShape,
    QualifiedMinCount,
    QualifiedMaxCount,
    QualifiedValueShapesDisjoint,
    Closed,
    IgnoredProperties,
    HasValue,
    In,
    TargetNode,
    TargetClass,
    TargetSubjectsOf,
    TargetObjectsOf,
    Path,
    Severity,
    Message,
    Deactivated,
    Sparql,
    Js,
    Target,
    Entailment,
}

pub(crate) const ALL: [ShapeProperty; 45] = [
    ShapeProperty::Class,
    ShapeProperty::Datatype,
    ShapeProperty::NodeKind,
    ShapeProperty::MinCount,
    ShapeProperty::MaxCount,
    ShapeProperty::MinExclusive,
    ShapeProperty::MinInclusive,
    ShapeProperty::MaxExclusive,
    ShapeProperty::MaxInclusive,
    ShapeProperty::MinLength,
    ShapeProperty::MaxLength,
    ShapeProperty::Pattern,
    ShapeProperty::Flags,
    ShapeProperty::LanguageIn,
    ShapeProperty::UniqueLang,
    ShapeProperty::Equals,
    ShapeProperty::Disjoint,
    ShapeProperty::LessThan,
    ShapeProperty::LessThanOrEquals,
    ShapeProperty::Not,
    ShapeProperty::And,
    ShapeProperty::Or,
    ShapeProperty::Xone,
    ShapeProperty::Node,
    ShapeProperty::Property,
    ShapeProperty::QualifiedValueShape,
    ShapeProperty::QualifiedMinCount,
    ShapeProperty::QualifiedMaxCount,
    ShapeProperty::QualifiedValueShapesDisjoint,
    ShapeProperty::Closed,
    ShapeProperty::IgnoredProperties,
    ShapeProperty::HasValue,
    ShapeProperty::In,
    ShapeProperty::TargetNode,
    ShapeProperty::TargetClass,
    ShapeProperty::TargetSubjectsOf,
    ShapeProperty::TargetObjectsOf,
    ShapeProperty::Path,
    ShapeProperty::Severity,
    ShapeProperty::Message,
    ShapeProperty::Deactivated,
    ShapeProperty::Sparql,
    ShapeProperty::Js,
    ShapeProperty::Target,
    ShapeProperty::Entailment,
];

impl ShapeProperty {
    /// The IRI of the property.
    #[tactic(auto, unfolding(shape_model::specs::Vocabulary::sh))]
    pub fn iri(self) -> &'static str
        ensures { Iri result.now ≡ property_iri self }
    {
        match self {
            ShapeProperty::Class => "http://www.w3.org/ns/shacl#class",
            ShapeProperty::Datatype => "http://www.w3.org/ns/shacl#datatype",
            ShapeProperty::NodeKind => "http://www.w3.org/ns/shacl#nodeKind",
            ShapeProperty::MinCount => "http://www.w3.org/ns/shacl#minCount",
            ShapeProperty::MaxCount => "http://www.w3.org/ns/shacl#maxCount",
            ShapeProperty::MinExclusive => "http://www.w3.org/ns/shacl#minExclusive",
            ShapeProperty::MinInclusive => "http://www.w3.org/ns/shacl#minInclusive",
            ShapeProperty::MaxExclusive => "http://www.w3.org/ns/shacl#maxExclusive",
            ShapeProperty::MaxInclusive => "http://www.w3.org/ns/shacl#maxInclusive",
            ShapeProperty::MinLength => "http://www.w3.org/ns/shacl#minLength",
            ShapeProperty::MaxLength => "http://www.w3.org/ns/shacl#maxLength",
            ShapeProperty::Pattern => "http://www.w3.org/ns/shacl#pattern",
            ShapeProperty::Flags => "http://www.w3.org/ns/shacl#flags",
            ShapeProperty::LanguageIn => "http://www.w3.org/ns/shacl#languageIn",
            ShapeProperty::UniqueLang => "http://www.w3.org/ns/shacl#uniqueLang",
            ShapeProperty::Equals => "http://www.w3.org/ns/shacl#equals",
            ShapeProperty::Disjoint => "http://www.w3.org/ns/shacl#disjoint",
            ShapeProperty::LessThan => "http://www.w3.org/ns/shacl#lessThan",
            ShapeProperty::LessThanOrEquals => "http://www.w3.org/ns/shacl#lessThanOrEquals",
            ShapeProperty::Not => "http://www.w3.org/ns/shacl#not",
            ShapeProperty::And => "http://www.w3.org/ns/shacl#and",
            ShapeProperty::Or => "http://www.w3.org/ns/shacl#or",
            ShapeProperty::Xone => "http://www.w3.org/ns/shacl#xone",
            ShapeProperty::Node => "http://www.w3.org/ns/shacl#node",
            ShapeProperty::Property => "http://www.w3.org/ns/shacl#property",
            ShapeProperty::QualifiedValueShape => "http://www.w3.org/ns/shacl#qualifiedValueShape",
            ShapeProperty::QualifiedMinCount => "http://www.w3.org/ns/shacl#qualifiedMinCount",
            ShapeProperty::QualifiedMaxCount => "http://www.w3.org/ns/shacl#qualifiedMaxCount",
            ShapeProperty::QualifiedValueShapesDisjoint =>
                "http://www.w3.org/ns/shacl#qualifiedValueShapesDisjoint",
            ShapeProperty::Closed => "http://www.w3.org/ns/shacl#closed",
            ShapeProperty::IgnoredProperties => "http://www.w3.org/ns/shacl#ignoredProperties",
            ShapeProperty::HasValue => "http://www.w3.org/ns/shacl#hasValue",
            ShapeProperty::In => "http://www.w3.org/ns/shacl#in",
            ShapeProperty::TargetNode => "http://www.w3.org/ns/shacl#targetNode",
            ShapeProperty::TargetClass => "http://www.w3.org/ns/shacl#targetClass",
            ShapeProperty::TargetSubjectsOf => "http://www.w3.org/ns/shacl#targetSubjectsOf",
            ShapeProperty::TargetObjectsOf => "http://www.w3.org/ns/shacl#targetObjectsOf",
            ShapeProperty::Path => "http://www.w3.org/ns/shacl#path",
            ShapeProperty::Severity => "http://www.w3.org/ns/shacl#severity",
            ShapeProperty::Message => "http://www.w3.org/ns/shacl#message",
            ShapeProperty::Deactivated => "http://www.w3.org/ns/shacl#deactivated",
            ShapeProperty::Sparql => "http://www.w3.org/ns/shacl#sparql",
            ShapeProperty::Js => "http://www.w3.org/ns/shacl#js",
            ShapeProperty::Target => "http://www.w3.org/ns/shacl#target",
            ShapeProperty::Entailment => "http://www.w3.org/ns/shacl#entailment",
        }
    }
}

fn has_iri(property: ShapeProperty, iri: &str) -> bool
    ensures { IsTrue result ↔ (Iri iri.now ≡ property_iri property) }
{
    property.iri() == iri
}

// The first of the properties with this IRI.
fn find_property(iri: &str) -> Option<ShapeProperty>
    ensures { MatchOption result ((p : PropertyData) → Iri iri.now ≢ property_iri p) (λ p. Iri iri.now ≡ property_iri p) }
{
    for property in ALL {
        if has_iri(property, iri) {
            return Some(property);
        }
    }
    None
}

// Whether the IRI begins as those of SHACL do. Of others no property needs to be asked.
fn is_shacl(iri: &str) -> bool
    ensures { (result ≡ false) → (p : PropertyData) → Iri iri.now ≢ property_iri p }
{
    iri.starts_with("http://www.w3.org/ns/shacl#")
}

/// The property that the term is the IRI of.
pub fn property_of(term: &Term) -> Option<ShapeProperty>
    ensures { MatchOption result ((p : PropertyData) → term.now ≢ property_iri p) (λ p. term.now ≡ property_iri p) }
{
    match term {
        Term::Iri(iri) => {
            if is_shacl(iri.as_str()) {
                find_property(iri.as_str())
            } else {
                None
            }
        }
        _ => None,
    }
}
