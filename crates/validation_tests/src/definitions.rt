//! The definitions, asked for worked rows.
ghost use Rattle.validation_tests.specs.Components.{BoundExamples, CountExamples, LanguageExamples, LogicExamples, OtherExamples, PairExamples, PropertyExample, QualifiedExamples, TextExamples, TypeExamples};
ghost use Rattle.validation_tests.specs.Examples.{CountExample, ForbiddenExample, MinCountExample, NodeKindExample};

use crate::short_forms::{optional_term, term};
use shape_model::{Component, ResultRow};
use std::alloc::{AllocError, Global};
use std::test::Fail;

// The definitions give the worked rows: a literal where an IRI is asked for, a missing value, the
// literals that say a count, and a node that has what is beyond SHACL Core.
fn worked_rows()
    ensures node_kind { NodeKindExample }
    ensures min_count { MinCountExample }
    ensures count { CountExample }
    ensures forbidden { ForbiddenExample }
{}

// So they do for each component, by its section of the Recommendation.
fn worked_components()
    ensures types { TypeExamples }
    ensures counts { CountExamples }
    ensures bounds { BoundExamples }
    ensures texts { TextExamples }
    ensures languages { LanguageExamples }
    ensures pairs { PairExamples }
    ensures logic { LogicExamples }
    ensures qualified { QualifiedExamples }
    ensures others { OtherExamples }
    ensures property { PropertyExample }
{}

#[test]
fn definitions_give_the_worked_rows() {
    worked_rows();
    worked_components();
}

// The components in the order of the Recommendation's sections, which are numbered from 1.
const COMPONENTS: [Component; 28] = [
    Component::Class,
    Component::Datatype,
    Component::NodeKind,
    Component::MinCount,
    Component::MaxCount,
    Component::MinExclusive,
    Component::MinInclusive,
    Component::MaxExclusive,
    Component::MaxInclusive,
    Component::MinLength,
    Component::MaxLength,
    Component::Pattern,
    Component::LanguageIn,
    Component::UniqueLang,
    Component::Equals,
    Component::Disjoint,
    Component::LessThan,
    Component::LessThanOrEquals,
    Component::Not,
    Component::And,
    Component::Or,
    Component::Xone,
    Component::Node,
    Component::QualifiedMinCount,
    Component::QualifiedMaxCount,
    Component::Closed,
    Component::HasValue,
    Component::In,
];

#[test]
fn components_by_number(rt: HostRuntime) {
    for (i, component) in COMPONENTS.iter().enumerate() {
        assert_eq!(rt; component.number() as usize, i + 1, "{component:?}");
    }
}

// A result's shape, focus node, component, and the terms that may be absent.
type Parts = (&'static str, &'static str, Component, [&'static str; 4]);

const ASCENDING: [Parts; 12] = [
    ("e:a", "e:a", Component::Class, ["", "", "", ""]),
    ("e:a", "e:a", Component::Class, ["", "", "", "e:a"]),
    ("e:a", "e:a", Component::Class, ["", "", "", "e:b"]),
    ("e:a", "e:a", Component::Class, ["", "", "e:a", ""]),
    ("e:a", "e:a", Component::Class, ["", "", "e:b", "e:a"]),
    ("e:a", "e:a", Component::Class, ["", "e:a", "", "e:b"]),
    ("e:a", "e:a", Component::Class, ["e:a", "", "e:b", ""]),
    ("e:a", "e:a", Component::Class, ["e:a", "e:a", "", ""]),
    ("e:a", "e:a", Component::Class, ["e:b", "", "", ""]),
    ("e:a", "e:a", Component::In, ["e:a", "e:a", "e:a", "e:a"]),
    ("e:a", "e:b", Component::Class, ["", "", "", ""]),
    ("e:b", "e:a", Component::Class, ["", "", "", ""]),
];

fn row(alloc: Global, parts: &Parts) -> Result<ResultRow, AllocError> {
    let (source_shape, focus_node, component, [parameter, about, value, other]) = *parts;
    Ok(ResultRow {
        source_shape: term(alloc, source_shape)?,
        focus_node: term(alloc, focus_node)?,
        component,
        parameter: optional_term(alloc, parameter)?,
        about: optional_term(alloc, about)?,
        value: optional_term(alloc, value)?,
        other: optional_term(alloc, other)?,
    })
}

fn rows(alloc: Global, table: &[Parts]) -> Result<Vec<ResultRow>, AllocError> {
    let mut rows = Vec::new(alloc);
    for parts in table {
        rows.push(row(alloc, parts)?)?;
    }
    Ok(rows)
}

#[test]
fn rows_ascend(rt: HostRuntime) -> Result<(), Fail> {
    let rows = rows(rt.alloc(), &ASCENDING)?;
    let copies = rows.clone()?;
    for (i, first) in rows.iter().enumerate() {
        for (j, second) in copies.iter().enumerate() {
            assert_eq!(rt; first.cmp(second), i.cmp(&j), "{i} and {j}");
            assert_eq!(rt; first == second, i == j, "{i} and {j}");
        }
    }
    Ok(())
}
