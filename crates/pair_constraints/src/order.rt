//! The components less-than and less-than-or-equals (SHACL sections 4.5.3 and 4.5.4).
ghost use Rattle.std.specs.Prelude.{◌≡◌, ◌↔◌, ◌<◌, ◌++◌, IfOk, IsTrue, OnOk, length};
ghost use Rattle.std.specs.List.{Contains};
ghost use Rattle.rdf_model.specs.Numbers.{AreNumbered};
ghost use Rattle.shape_model.specs.declared.component.Component.TheVariants as components;
ghost use Rattle.component_rows.specs.Listed.{Collects, Lists, untold};
ghost use Rattle.component_rows.specs.Sites.{ListsAt, site_row};
ghost use Rattle.pair_constraints.specs.Focus.{PairRow, Pairs, PairsAt, Stands, at_site};

use crate::found::found;
use collections::sorted_once;
use component_rows::{Site, row_beside};
use literal_order::{less, less_or_equal};
use rdf_model::{Names, Term, Triples};
use shape_model::{Component, ResultRow};
use std::alloc::AllocError;

// How a value node has to stand to the values of the property.
#[derive(Clone, Copy)]
enum Comparison {
    Less,
    AtMost,
}

// Whether the first literal stands so to the other.
fn stands(comparison: Comparison, first: &Term, other: &Term) -> bool
    ensures { IsTrue result ↔ Stands comparison first.now other.now }
{
    let answer = match comparison {
        Comparison::Less => less(first, other),
        Comparison::AtMost => less_or_equal(first, other),
    };
    matches!(answer, Some(true))
}

// Adds the result of a value node and a value, unless the first stands so to the other.
fn add_pair<N: Names>(
    rows: &mut Vec<ResultRow>,
    site: &Site<'_, N>,
    component: Component,
    comparison: Comparison,
    value: u32,
    other: u32,
) -> Result<(), AllocError>
    requires value { value < length site.now.terms }
    requires other { other < length site.now.terms }
    ensures { OnOk result ((more : _) × (rows.new.items ≡ rows.old.items ++ more)
        × Collects (PairRow site.now.terms (site_row component site.now) comparison value other) more) }
{
    if stands(comparison, site.named(value), site.named(other)) {
        return Ok(());
    }
    rows.push(row_beside(site, component, value, value, other)?)?;
    Ok(())
}

// Adds the result of the value for each of the others to which it does not stand as compared.
fn add_pairs<N: Names>(
    rows: &mut Vec<ResultRow>,
    site: &Site<'_, N>,
    component: Component,
    comparison: Comparison,
    value: u32,
    others: &[u32],
) -> Result<(), AllocError>
    requires value { value < length site.now.terms }
    requires others { (w : _) → Contains others.now w → w < length site.now.terms }
    ensures { OnOk result ((more : _) × (rows.new.items ≡ rows.old.items ++ more)
        × Collects (PairsAt site.now.terms (site_row component site.now) comparison others.now value) more) }
{
    for other in others {
        add_pair(rows, site, component, comparison, value, *other)?;
    }
    Ok(())
}

// One result for each value node and value, unless the first stands so to the other.
fn unordered<N: Names>(
    site: &Site<'_, N>,
    component: Component,
    comparison: Comparison,
    others: &[u32],
) -> Result<Vec<ResultRow>, AllocError>
    requires { (w : _) → Contains others.now w → w < length site.now.terms }
    ensures { IfOk result (λ rows. Lists (Pairs site.now.terms (site_row component site.now) comparison site.now.values others.now) rows.items) }
{
    site.recall();
    let values = site.values();
    let mut rows = Vec::new(site.alloc());
    for value in values {
        add_pairs(&mut rows, site, component, comparison, *value, others)?;
    }
    Ok(sorted_once(rows)?)
}

/// The results of sh:lessThan (SHACL section 4.5.3): one for each value node and value of the property at the
/// focus node, unless the first is less than the other.
pub fn less_than<R: Triples, N: Names>(
    graph: &R,
    site: &Site<'_, N>,
) -> Result<Vec<ResultRow>, AllocError>
    requires { AreNumbered site.now.terms (R.triples graph.now) }
    ensures { IfOk result (λ rows. ListsAt components.LessThan (at_site (R.triples graph.now) site.now) untold site.now rows.items) }
{
    site.recall();
    let others = found(graph, site)?;
    Ok(unordered(site, Component::LessThan, Comparison::Less, &others)?)
}

/// The results of sh:lessThanOrEquals (SHACL section 4.5.4): one for each value node and value of the property
/// at the focus node, unless the first is at most the other.
pub fn less_than_or_equals<R: Triples, N: Names>(
    graph: &R,
    site: &Site<'_, N>,
) -> Result<Vec<ResultRow>, AllocError>
    requires { AreNumbered site.now.terms (R.triples graph.now) }
    ensures { IfOk result (λ rows. ListsAt components.LessThanOrEquals (at_site (R.triples graph.now) site.now) untold site.now rows.items) }
{
    site.recall();
    let others = found(graph, site)?;
    Ok(unordered(
        site,
        Component::LessThanOrEquals,
        Comparison::AtMost,
        &others,
    )?)
}
