//! The components equals and disjoint (SHACL sections 4.5.1 and 4.5.2).
ghost use Rattle.std.specs.Prelude.{◌≡◌, ◌↔◌, ◌∷◌, ◌++◌, [], IfOk, IsTrue, OnOk};
ghost use Rattle.std.proofs.Common.{cond};
ghost use Rattle.std.specs.List.{Contains};
ghost use Rattle.std.specs.Ordering.{nat_cmp};
ghost use Rattle.collections.specs.Ordered.{IsAscending};
ghost use Rattle.rdf_model.specs.Numbers.{AreNumbered};
ghost use Rattle.shape_model.specs.declared.component.Component.TheVariants as components;
ghost use Rattle.component_rows.specs.Listed.{untold};
ghost use Rattle.component_rows.specs.Sites.{ListsAt};
ghost use Rattle.pair_constraints.specs.Focus.{IsKept, at_site};

use crate::found::found;
use collections::sorted_once;
use component_rows::{Site, about_each, is_among};
use rdf_model::{Names, Triples};
use shape_model::{Component, ResultRow};
use std::alloc::{AllocError, Global};

// Whether the number is among the others, or where it isn't wanted there, that it isn't.
fn is_kept(others: &[u32], number: u32, is_wanted: bool) -> bool
    requires { IsAscending nat_cmp others.now }
    ensures { IsTrue result ↔ IsKept is_wanted others.now number }
{
    if is_wanted {
        is_among(others, number)
    } else {
        !is_among(others, number)
    }
}

// Adds the number, or not.
fn keep(found: &mut Vec<u32>, number: u32, is_kept: bool) -> Result<(), AllocError>
    ensures { OnOk result (found.new.items ≡ cond is_kept (found.old.items ++ number ∷ []) found.old.items) }
{
    if !is_kept {
        return Ok(());
    }
    found.push(number)?;
    Ok(())
}

// Those of the numbers that are among the others, or those that aren't.
fn kept(
    alloc: Global,
    numbers: &[u32],
    others: &[u32],
    is_wanted: bool,
) -> Result<Vec<u32>, AllocError>
    requires { IsAscending nat_cmp others.now }
    ensures { IfOk result (λ found. (n : _) → Contains found.items n ↔ (Contains numbers.now n × IsKept is_wanted others.now n)) }
{
    let mut found = Vec::new(alloc);
    for number in numbers {
        keep(&mut found, *number, is_kept(others, *number, is_wanted))?;
    }
    Ok(found)
}

/// The results of sh:equals (SHACL section 4.5.1): one about each value node that is no value of the property
/// at the focus node, and one about each such value that is no value node.
pub fn equals<R: Triples, N: Names>(
    graph: &R,
    site: &Site<'_, N>,
) -> Result<Vec<ResultRow>, AllocError>
    requires { AreNumbered site.now.terms (R.triples graph.now) }
    ensures { IfOk result (λ rows. ListsAt components.Equals (at_site (R.triples graph.now) site.now) untold site.now rows.items) }
{
    site.recall();
    let alloc = site.alloc();
    let values = site.values();
    let others = found(graph, site)?;
    let alone = kept(alloc, values, &others, false)?;
    let missing = kept(alloc, &others, values, false)?;
    let mut rows = about_each(site, Component::Equals, &alone)?;
    let mut more = about_each(site, Component::Equals, &missing)?;
    rows.append(&mut more)?;
    Ok(sorted_once(rows)?)
}

/// The results of sh:disjoint (SHACL section 4.5.2): one about each value node that is a value of the property
/// at the focus node.
pub fn disjoint<R: Triples, N: Names>(
    graph: &R,
    site: &Site<'_, N>,
) -> Result<Vec<ResultRow>, AllocError>
    requires { AreNumbered site.now.terms (R.triples graph.now) }
    ensures { IfOk result (λ rows. ListsAt components.Disjoint (at_site (R.triples graph.now) site.now) untold site.now rows.items) }
{
    site.recall();
    let alloc = site.alloc();
    let others = found(graph, site)?;
    let common = kept(alloc, site.values(), &others, true)?;
    Ok(about_each(site, Component::Disjoint, &common)?)
}
