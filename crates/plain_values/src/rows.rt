// Results as they are made (SHACL section 3.6.2).
ghost use Rattle.std.specs.Prelude.{◌≡◌, IfOk};
ghost use Rattle.shape_model.specs.Components.{found_alone, found_at, found_beside};
ghost use Rattle.plain_values.specs.Around.{EachAt, row_at};
ghost use Rattle.plain_terms.specs.Finds.{Finds, WithSome};

use crate::site::PlainSite;
use collections::both;
use plain_terms::{TermTest, chosen};
use rdf_model::Term;
use shape_model::{Component, ResultRow};
use std::alloc::{AllocError, Global};

/// The result about no value node.
pub fn row_alone(
    at: &PlainSite<'_>,
    component: Component,
    parameter: &Term,
) -> Result<ResultRow, AllocError>
    ensures { IfOk result (λ row. row ≡ row_at at.now component parameter.now found_alone) }
{
    let ends = both(at.shape.clone(), at.focus.clone());
    let ((source_shape, focus_node), parameter) = both(ends, parameter.clone())?;
    Ok(ResultRow {
        source_shape,
        focus_node,
        component,
        parameter: Some(parameter),
        about: None,
        value: None,
        other: None,
    })
}

/// The result about a value node.
pub fn row_about(
    at: &PlainSite<'_>,
    component: Component,
    parameter: &Term,
    value: &Term,
) -> Result<ResultRow, AllocError>
    ensures { IfOk result (λ row. row ≡ row_at at.now component parameter.now (found_at value.now)) }
{
    let alone = row_alone(at, component, parameter);
    let (mut row, (about, value)) = both(alone, both(value.clone(), value.clone()))?;
    row.about = Some(about);
    row.value = Some(value);
    Ok(row)
}

/// The result about a value node, with another term beside.
pub fn row_beside(
    at: &PlainSite<'_>,
    component: Component,
    parameter: &Term,
    value: &Term,
    other: &Term,
) -> Result<ResultRow, AllocError>
    ensures { IfOk result (λ row. row ≡ row_at at.now component parameter.now (found_beside value.now other.now)) }
{
    let about = row_about(at, component, parameter, value);
    let (mut row, other) = both(about, other.clone())?;
    row.other = Some(other);
    Ok(row)
}

/// One result about each of the nodes.
pub fn rows_about(
    alloc: Global,
    at: &PlainSite<'_>,
    component: Component,
    parameter: &Term,
    nodes: &[Term],
) -> Result<Vec<ResultRow>, AllocError>
    ensures { IfOk result (λ rows. Finds (WithSome nodes.now (λ node row. row ≡ row_at at.now component parameter.now (found_at node))) rows.items) }
{
    let mut rows = Vec::new(alloc);
    for node in nodes {
        rows.push(row_about(at, component, parameter, node)?)?;
    }
    Ok(rows)
}

/// One result about each value node that passes the test.
pub fn rows_where<T: TermTest>(
    alloc: Global,
    at: &PlainSite<'_>,
    component: Component,
    parameter: &Term,
    test: &T,
) -> Result<Vec<ResultRow>, AllocError>
    ensures { IfOk result (λ rows. Finds (EachAt at.now component parameter.now (T.accepts test.now)) rows.items) }
{
    let nodes = chosen(alloc, at.values, test)?;
    let rows = rows_about(alloc, at, component, parameter, nodes.as_slice())?;
    Ok(rows)
}
