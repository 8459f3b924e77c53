// The results of shapes at focus nodes (SHACL section 3.4).
ghost use Rattle.std.specs.Prelude.{◌≡◌, IfOk};
ghost use Rattle.std.specs.List.{Contains};
ghost use Rattle.shape_model.specs.Readings.{reading};
ghost use Rattle.shape_model.specs.Validation.{AtDepth};
ghost use Rattle.plain_values.specs.Built.{ArePatternsOf};
ghost use Rattle.plain_terms.specs.Finds.{Finds, WithSome};
ghost use Rattle.plain_validation.specs.References.{IsEntry, ToldAt};

use crate::references::referred_shapes;
use crate::values::value_nodes;
use plain_components::place_rows;
use plain_values::{BuiltPattern, PlainSite, ToldRow};
use rdf_model::{Term, Triple};
use shape_model::ResultRow;
use std::alloc::{AllocError, Global};

fn entry(shape: &Term, node: &Term, row: &ResultRow) -> Result<ToldRow, AllocError>
    ensures { IfOk result (λ told. IsEntry shape.now node.now row.now told) }
{
    Ok(ToldRow {
        shape: shape.clone()?,
        node: node.clone()?,
        row: row.clone()?,
    })
}

// The results as they are told of the shape at the node.
fn as_told(
    alloc: Global,
    shape: &Term,
    node: &Term,
    rows: &[ResultRow],
) -> Result<Vec<ToldRow>, AllocError>
    ensures { IfOk result (λ told. Finds (WithSome rows.now (IsEntry shape.now node.now)) told.items) }
{
    let mut told = Vec::new(alloc);
    for row in rows {
        told.push(entry(shape, node, row)?)?;
    }
    Ok(told)
}

// Those of the shape at each of the nodes.
#[cycle(evaluation)]
fn told_by(
    alloc: Global,
    graph: &[Triple],
    shapes: &[Triple],
    patterns: &[BuiltPattern],
    levels: usize,
    shape: &Term,
    nodes: &[Term],
) -> Result<Vec<ToldRow>, AllocError>
    requires { ArePatternsOf shapes.now patterns.now }
    ensures { IfOk result (λ told. Finds (WithSome nodes.now (ToldAt levels graph.now shapes.now shape.now)) told.items) }
{
    let mut told = Vec::new(alloc);
    for node in nodes {
        let rows = rows_at(alloc, graph, shapes, patterns, levels, shape, node)?;
        let mut more = as_told(alloc, shape, node, &rows)?;
        told.append(&mut more)?;
    }
    Ok(told)
}

// Those of each of the shapes.
#[cycle(evaluation)]
fn told_by_each(
    alloc: Global,
    graph: &[Triple],
    shapes: &[Triple],
    patterns: &[BuiltPattern],
    levels: usize,
    referred: &[Term],
    nodes: &[Term],
) -> Result<Vec<ToldRow>, AllocError>
    requires { ArePatternsOf shapes.now patterns.now }
    ensures { IfOk result (λ told. Finds (WithSome referred.now (λ m. WithSome nodes.now (ToldAt levels graph.now shapes.now m))) told.items) }
{
    let mut told = Vec::new(alloc);
    for shape in referred {
        let mut more = told_by(alloc, graph, shapes, patterns, levels, shape, nodes)?;
        told.append(&mut more)?;
    }
    Ok(told)
}

/// The results of the shape at the focus node, through chains of fewer references than the levels.
#[cycle(evaluation)]
pub(crate) fn rows_at(
    alloc: Global,
    graph: &[Triple],
    shapes: &[Triple],
    patterns: &[BuiltPattern],
    levels: usize,
    shape: &Term,
    focus: &Term,
) -> Result<Vec<ResultRow>, AllocError>
    requires { ArePatternsOf shapes.now patterns.now }
    ensures { IfOk result (λ rows. Finds (AtDepth levels graph.now (reading shapes.now) shape.now focus.now) rows.items) }
{
    if levels == 0 {
        return Ok(Vec::new(alloc));
    }
    let found = value_nodes(alloc, graph, shapes, shape, focus)?;
    let values = found.as_slice();
    let referred = referred_shapes(alloc, shapes, shape)?;
    let told = told_by_each(
        alloc,
        graph,
        shapes,
        patterns,
        levels - 1,
        &referred,
        values,
    )?;
    let at = PlainSite {
        graph,
        shapes,
        told: &told,
        shape,
        focus,
        values,
    };
    let rows = place_rows(alloc, &at, patterns)?;
    Ok(rows)
}
