//! The component closed (SHACL section 4.8.1).
ghost use Rattle.std.specs.Prelude.{◌≡◌, ◌<◌, ◌++◌, IfOk, OnOk, length};
ghost use Rattle.std.specs.List.{Contains};
ghost use Rattle.rdf_model.specs.Numbers.{AreNumbered};
ghost use Rattle.shape_model.specs.declared.component.Component.TheVariants as components;
ghost use Rattle.component_rows.specs.Listed.{Collects, with_allowed};
ghost use Rattle.component_rows.specs.Nodes.{AreNodes, HasNode};
ghost use Rattle.component_rows.specs.Sites.{ListsAt, site_row};
ghost use Rattle.value_constraints.specs.Closing.{in_graph, ForbiddenAt, ForbiddenEdge, ForbiddenOfSome};

use collections::sorted_once;
use component_rows::{Site, is_among, row_beside};
use rdf_model::{Names, Triples};
use shape_model::{Component, ResultRow, is_true};
use std::alloc::AllocError;

// Adds the result of an edge of a value node, unless its predicate is allowed.
fn add_edge<N: Names>(
    rows: &mut Vec<ResultRow>,
    site: &Site<'_, N>,
    allowed: &[u32],
    value: u32,
    edge: (u32, u32),
) -> Result<(), AllocError>
    requires allowed { AreNodes site.now.terms allowed.now }
    requires value { value < length site.now.terms }
    requires edge { (edge.0 < length site.now.terms) × (edge.1 < length site.now.terms) }
    ensures { OnOk result ((more : _) × (rows.new.items ≡ rows.old.items ++ more)
        × Collects (ForbiddenEdge site.now.terms (site_row components.Closed site.now) allowed.now value edge) more) }
{
    let (predicate, object) = edge;
    if is_among(allowed, predicate) {
        return Ok(());
    }
    let component = Component::Closed;
    rows.push(row_beside(site, component, value, object, predicate)?)?;
    Ok(())
}

// Adds the results of some edges of a value node.
fn add_edges<N: Names>(
    rows: &mut Vec<ResultRow>,
    site: &Site<'_, N>,
    allowed: &[u32],
    value: u32,
    edges: &[(u32, u32)],
) -> Result<(), AllocError>
    requires allowed { AreNodes site.now.terms allowed.now }
    requires value { value < length site.now.terms }
    requires edges { (e : _) → Contains edges.now e → (e.0 < length site.now.terms) × (e.1 < length site.now.terms) }
    ensures { OnOk result ((more : _) × (rows.new.items ≡ rows.old.items ++ more)
        × Collects (ForbiddenAt site.now.terms (site_row components.Closed site.now) allowed.now value edges.now) more) }
{
    for edge in edges {
        add_edge(rows, site, allowed, value, *edge)?;
    }
    Ok(())
}

// The results of all triples of the value nodes, in any order.
fn forbidden<R: Triples, N: Names>(
    graph: &R,
    site: &Site<'_, N>,
    allowed: &[u32],
) -> Result<Vec<ResultRow>, AllocError>
    requires graph { AreNumbered site.now.terms (R.triples graph.now) }
    requires allowed { AreNodes site.now.terms allowed.now }
    ensures { IfOk result (λ rows. Collects (ForbiddenOfSome site.now.terms (R.triples graph.now) (site_row components.Closed site.now) allowed.now site.now.values) rows.items) }
{
    site.recall();
    let (alloc, values) = (site.alloc(), site.values());
    let mut rows = Vec::new(alloc);
    for value in values {
        let edges = graph.edges(alloc, *value)?;
        add_edges(&mut rows, site, allowed, *value, &edges)?;
    }
    Ok(rows)
}

/// The results of sh:closed (SHACL section 4.8.1): where its value is `true`, one for each triple of a value node whose
/// predicate is none of the allowed ones, which are handed in ascending, each once.
pub fn closed<R: Triples, N: Names>(
    graph: &R,
    site: &Site<'_, N>,
    allowed: &[u32],
) -> Result<Vec<ResultRow>, AllocError>
    requires graph { AreNumbered site.now.terms (R.triples graph.now) }
    requires allowed { AreNodes site.now.terms allowed.now }
    ensures { IfOk result (λ rows. ListsAt components.Closed (in_graph site.now.terms (R.triples graph.now) site.now.values) (with_allowed (HasNode site.now.terms allowed.now)) site.now rows.items) }
{
    site.recall();
    if !is_true(site.parameter_term()) {
        return Ok(Vec::new(site.alloc()));
    }
    let rows = forbidden(graph, site, allowed)?;
    Ok(sorted_once(rows)?)
}
