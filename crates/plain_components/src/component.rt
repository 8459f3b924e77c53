// The results of each component, and of all of them.
ghost use Rattle.std.specs.Prelude.{◌≡◌, ◌↔◌, IfOk, IsTrue};
ghost use Rattle.std.specs.List.{Contains};
ghost use Rattle.collections.specs.Ordered.{IsAscending};
ghost use Rattle.rdf_model.specs.Terms.{term_cmp};
ghost use Rattle.shape_model.specs.Components.{parameter_of};
ghost use Rattle.shape_model.specs.ShapeSyntax.{HasProperty};
ghost use Rattle.shape_model.specs.Vocabulary.{ShDeactivated, local_name, true_literal};
ghost use Rattle.plain_values.specs.Around.{RowsAt};
ghost use Rattle.plain_values.specs.Built.{ArePatternsOf};
ghost use Rattle.plain_components.specs.Rows.{AtPlace, ComponentAt, EntryRow, PropertyAt};
ghost use Rattle.plain_terms.specs.Finds.{Finds, WithSome};

use crate::closed::{closed_rows, unique_lang_rows};
use crate::pairs::pair_rows;
use crate::qualified::{qualified_rows, true_term};
use plain_terms::{is_among, parameters};
use plain_values::{
    BuiltPattern, PlainSite, ToldRow, class_rows, disjoint_rows, equals_rows, has_value_rows,
    list_rows, max_count_rows, min_count_rows, node_rows, not_rows, pattern_rows, term_rows,
};
use rdf_model::{Term, Triple};
use shape_model::{Component, ResultRow};
use std::alloc::{AllocError, Global};

// The name of the parameter that the results of the component name.
fn parameter_name(component: Component) -> &'static str
    ensures { result.now ≡ local_name (parameter_of component) }
{
    match component {
        Component::Class => "class",
        Component::Datatype => "datatype",
        Component::NodeKind => "nodeKind",
        Component::MinCount => "minCount",
        Component::MaxCount => "maxCount",
        Component::MinExclusive => "minExclusive",
        Component::MinInclusive => "minInclusive",
        Component::MaxExclusive => "maxExclusive",
        Component::MaxInclusive => "maxInclusive",
        Component::MinLength => "minLength",
        Component::MaxLength => "maxLength",
        Component::Pattern => "pattern",
        Component::LanguageIn => "languageIn",
        Component::UniqueLang => "uniqueLang",
        Component::Equals => "equals",
        Component::Disjoint => "disjoint",
        Component::LessThan => "lessThan",
        Component::LessThanOrEquals => "lessThanOrEquals",
        Component::Not => "not",
        Component::And => "and",
        Component::Or => "or",
        Component::Xone => "xone",
        Component::Node => "node",
        Component::QualifiedMinCount => "qualifiedMinCount",
        Component::QualifiedMaxCount => "qualifiedMaxCount",
        Component::Closed => "closed",
        Component::HasValue => "hasValue",
        Component::In => "in",
    }
}

// The results of the component at one value of its parameter.
fn rows_at(
    alloc: Global,
    at: &PlainSite<'_>,
    patterns: &[BuiltPattern],
    component: Component,
    parameter: &Term,
) -> Result<Vec<ResultRow>, AllocError>
    requires values { IsAscending term_cmp at.now.values.now }
    requires parameter { HasProperty at.now.shapes.now at.now.shape.now (parameter_of component) parameter.now }
    requires patterns { ArePatternsOf at.now.shapes.now patterns.now }
    ensures { IfOk result (λ rows. Finds (RowsAt at.now component parameter.now) rows.items) }
{
    match component {
        Component::Class => class_rows(alloc, at, parameter),
        Component::Datatype => term_rows(alloc, at, Component::Datatype, parameter),
        Component::NodeKind => term_rows(alloc, at, Component::NodeKind, parameter),
        Component::MinCount => min_count_rows(alloc, at, parameter),
        Component::MaxCount => max_count_rows(alloc, at, parameter),
        Component::MinExclusive => term_rows(alloc, at, Component::MinExclusive, parameter),
        Component::MinInclusive => term_rows(alloc, at, Component::MinInclusive, parameter),
        Component::MaxExclusive => term_rows(alloc, at, Component::MaxExclusive, parameter),
        Component::MaxInclusive => term_rows(alloc, at, Component::MaxInclusive, parameter),
        Component::MinLength => term_rows(alloc, at, Component::MinLength, parameter),
        Component::MaxLength => term_rows(alloc, at, Component::MaxLength, parameter),
        Component::Pattern => pattern_rows(alloc, at, patterns, parameter),
        Component::LanguageIn => list_rows(alloc, at, Component::LanguageIn, parameter),
        Component::UniqueLang => unique_lang_rows(alloc, at, parameter),
        Component::Equals => equals_rows(alloc, at, parameter),
        Component::Disjoint => disjoint_rows(alloc, at, parameter),
        Component::LessThan => pair_rows(alloc, at, Component::LessThan, parameter),
        Component::LessThanOrEquals => pair_rows(alloc, at, Component::LessThanOrEquals, parameter),
        Component::Not => not_rows(alloc, at, parameter),
        Component::And => list_rows(alloc, at, Component::And, parameter),
        Component::Or => list_rows(alloc, at, Component::Or, parameter),
        Component::Xone => list_rows(alloc, at, Component::Xone, parameter),
        Component::Node => node_rows(alloc, at, parameter),
        Component::QualifiedMinCount => qualified_rows(
            alloc,
            at,
            Component::QualifiedMinCount,
            parameter,
        ),
        Component::QualifiedMaxCount => qualified_rows(
            alloc,
            at,
            Component::QualifiedMaxCount,
            parameter,
        ),
        Component::Closed => closed_rows(alloc, at, parameter),
        Component::HasValue => has_value_rows(alloc, at, parameter),
        Component::In => list_rows(alloc, at, Component::In, parameter),
    }
}

// Those at each of the values of its parameter.
fn rows_at_each(
    alloc: Global,
    at: &PlainSite<'_>,
    patterns: &[BuiltPattern],
    component: Component,
    parameters: &[Term],
) -> Result<Vec<ResultRow>, AllocError>
    requires values { IsAscending term_cmp at.now.values.now }
    requires parameters { (q : _) → Contains parameters.now q → HasProperty at.now.shapes.now at.now.shape.now (parameter_of component) q }
    requires patterns { ArePatternsOf at.now.shapes.now patterns.now }
    ensures { IfOk result (λ rows. Finds (WithSome parameters.now (RowsAt at.now component)) rows.items) }
{
    let mut rows = Vec::new(alloc);
    for parameter in parameters {
        let mut more = rows_at(alloc, at, patterns, component, parameter)?;
        rows.append(&mut more)?;
    }
    Ok(rows)
}

// The results of the component.
fn component_rows(
    alloc: Global,
    at: &PlainSite<'_>,
    patterns: &[BuiltPattern],
    component: Component,
) -> Result<Vec<ResultRow>, AllocError>
    requires values { IsAscending term_cmp at.now.values.now }
    requires patterns { ArePatternsOf at.now.shapes.now patterns.now }
    ensures { IfOk result (λ rows. Finds (ComponentAt at.now component) rows.items) }
{
    let found = parameters(alloc, at.shapes, at.shape, parameter_name(component))?;
    let rows = rows_at_each(alloc, at, patterns, component, found.as_slice())?;
    Ok(rows)
}

const COMPONENTS: [Component; 28] = [
    Component::Class,
    Component::Datatype,
    Component::NodeKind,
    Component::MinCount,
    Component::MaxCount,
    Component::MinExclusive,
    Component::MinInclusive,
    Component::MaxExclusive,
    Component::MaxInclusive,
    Component::MinLength,
    Component::MaxLength,
    Component::Pattern,
    Component::LanguageIn,
    Component::UniqueLang,
    Component::Equals,
    Component::Disjoint,
    Component::LessThan,
    Component::LessThanOrEquals,
    Component::Not,
    Component::And,
    Component::Or,
    Component::Xone,
    Component::Node,
    Component::QualifiedMinCount,
    Component::QualifiedMaxCount,
    Component::Closed,
    Component::HasValue,
    Component::In,
];

// Those of some components.
fn rows_of_components(
    alloc: Global,
    at: &PlainSite<'_>,
    patterns: &[BuiltPattern],
    list: &[Component],
) -> Result<Vec<ResultRow>, AllocError>
    requires values { IsAscending term_cmp at.now.values.now }
    requires patterns { ArePatternsOf at.now.shapes.now patterns.now }
    ensures { IfOk result (λ rows. Finds (WithSome list.now (ComponentAt at.now)) rows.items) }
{
    let mut rows = Vec::new(alloc);
    for component in list {
        let mut more = component_rows(alloc, at, patterns, *component)?;
        rows.append(&mut more)?;
    }
    Ok(rows)
}

// Whether the result is told of one of the property shapes at a value node.
fn is_of_property(at: &PlainSite<'_>, properties: &[Term], entry: &ToldRow) -> bool
    ensures { IsTrue result ↔ (Contains properties.now entry.now.shape × Contains at.now.values.now entry.now.node) }
{
    let of_property = is_among(properties, &entry.shape);
    let at_value = is_among(at.values, &entry.node);
    of_property && at_value
}

// The results of the property shapes at the value nodes, among those that are told.
fn told_rows(
    alloc: Global,
    at: &PlainSite<'_>,
    properties: &[Term],
) -> Result<Vec<ResultRow>, AllocError>
    ensures { IfOk result (λ rows. Finds (WithSome at.now.told.now (EntryRow at.now properties.now)) rows.items) }
{
    let mut rows = Vec::new(alloc);
    for entry in at.told {
        if is_of_property(at, properties, entry) {
            rows.push(entry.row.clone()?)?;
        }
    }
    Ok(rows)
}

// The results of the property shapes at the value nodes (SHACL section 4.7.2).
fn property_rows(alloc: Global, at: &PlainSite<'_>) -> Result<Vec<ResultRow>, AllocError>
    ensures { IfOk result (λ rows. Finds (PropertyAt at.now) rows.items) }
{
    let properties = parameters(alloc, at.shapes, at.shape, "property")?;
    let rows = told_rows(alloc, at, properties.as_slice())?;
    Ok(rows)
}

// Whether the shape is deactivated (SHACL section 2.1.6).
fn is_deactivated(alloc: Global, shapes: &[Triple], shape: &Term) -> Result<bool, AllocError>
    ensures { IfOk result (λ is. IsTrue is ↔ HasProperty shapes.now shape.now ShDeactivated true_literal) }
{
    let yes = true_term(alloc)?;
    let found = parameters(alloc, shapes, shape, "deactivated")?;
    Ok(is_among(found.as_slice(), &yes))
}

/// The results of the shape at the focus node (SHACL section 3.4), where the patterns of the shapes graph are built. The value nodes
/// ascend.
pub fn place_rows(
    alloc: Global,
    at: &PlainSite<'_>,
    patterns: &[BuiltPattern],
) -> Result<Vec<ResultRow>, AllocError>
    requires values { IsAscending term_cmp at.now.values.now }
    requires patterns { ArePatternsOf at.now.shapes.now patterns.now }
    ensures { IfOk result (λ rows. Finds (AtPlace at.now) rows.items) }
{
    if is_deactivated(alloc, at.shapes, at.shape)? {
        return Ok(Vec::new(alloc));
    }
    let mut rows = rows_of_components(alloc, at, patterns, &COMPONENTS)?;
    let mut more = property_rows(alloc, at)?;
    rows.append(&mut more)?;
    Ok(rows)
}
