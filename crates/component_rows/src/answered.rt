//! Results about value nodes by an answer to each.
ghost use Rattle.std.specs.Prelude.{◌≡◌, ◌↔◌, ◌<◌, ◌++◌, IfOk, IsTrue, OnOk, false, length};
ghost use Rattle.std.specs.List.{Contains};
ghost use Rattle.std.specs.Ordering.{nat_cmp};
ghost use Rattle.collections.specs.Ordered.{IsAscending};
ghost use Rattle.rdf_model.specs.Numbers.{term_at};
ghost use Rattle.shape_model.specs.Components.{ForEach, found_at};
ghost use Rattle.component_rows.specs.Listed.{Collects, Lists};
ghost use Rattle.component_rows.specs.Nodes.{IsAnswered};
ghost use Rattle.component_rows.specs.Sites.{at_values, site_row};

use crate::{Site, row_about};
use collections::sorted_once;
use rdf_model::Names;
use shape_model::{Component, ResultRow};
use std::alloc::AllocError;

/// Whether the number is one of some ascending ones. It takes no memory.
pub fn is_among(numbers: &[u32], number: u32) -> bool
    requires { IsAscending nat_cmp numbers.now }
    ensures { IsTrue result ↔ Contains numbers.now number }
{
    match numbers.binary_search(&number) {
        Ok(_) => true,
        Err(_) => false,
    }
}

// Adds the result about a value node, unless the answer to it is yes.
fn add_refused<N: Names>(
    rows: &mut Vec<ResultRow>,
    site: &Site<'_, N>,
    component: Component,
    value: u32,
    answer: bool,
) -> Result<(), AllocError>
    requires { value < length site.now.terms }
    ensures { OnOk result ((more : _) × (rows.new.items ≡ rows.old.items ++ more)
        × Collects (λ r. (answer ≡ false) × (r ≡ site_row component site.now (found_at (term_at site.now.terms value)))) more) }
{
    if answer {
        return Ok(());
    }
    rows.push(row_about(site, component, site.named(value))?)?;
    Ok(())
}

/// One result about each value node to which the answer is no.
pub fn refused<N: Names>(
    site: &Site<'_, N>,
    component: Component,
    answers: &[bool],
) -> Result<Vec<ResultRow>, AllocError>
    requires { length answers.now ≡ length site.now.values }
    ensures { IfOk result (λ rows. Lists (ForEach (at_values site.now) (site_row component site.now)
        (λ v. IsAnswered site.now.terms site.now.values answers.now v → ⊥)) rows.items) }
{
    site.recall();
    let values = site.values();
    let mut rows = Vec::new(site.alloc());
    for at in 0..values.len() {
        add_refused(&mut rows, site, component, values[at], answers[at])?;
    }
    Ok(sorted_once(rows)?)
}

/// One result about each of the nodes.
pub fn about_each<N: Names>(
    site: &Site<'_, N>,
    component: Component,
    nodes: &[u32],
) -> Result<Vec<ResultRow>, AllocError>
    requires { (n : _) → Contains nodes.now n → n < length site.now.terms }
    ensures { IfOk result (λ rows. Lists (λ r. (n : _) × Contains nodes.now n
        × (r ≡ site_row component site.now (found_at (term_at site.now.terms n)))) rows.items) }
{
    let mut rows = Vec::new(site.alloc());
    for node in nodes {
        add_refused(&mut rows, site, component, *node, false)?;
    }
    Ok(sorted_once(rows)?)
}
