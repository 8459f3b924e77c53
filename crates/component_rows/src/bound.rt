//! Results of a bound on the number of value nodes.
ghost use Rattle.std.specs.Prelude.{◌≡◌, ◌↔◌, IfOk, IsTrue};
ghost use Rattle.rdf_model.specs.Numbers.{term_at};
ghost use Rattle.shape_model.specs.Components.{found_alone};
ghost use Rattle.shape_model.specs.TermTests as tests;
ghost use Rattle.component_rows.specs.Bounds.{IsWrong};
ghost use Rattle.component_rows.specs.Listed.{Lists};
ghost use Rattle.component_rows.specs.Sites.{site_row};

use crate::{Site, row_alone};
use rdf_model::Names;
use shape_model::{Component, ResultRow, count_of, is_fewer, is_more};
use std::alloc::AllocError;

/// At which end a number is bounded.
#[derive(Clone, Copy)]
pub enum End {
    Least,
    Most,
}

/// Whether the bound forbids so many; one that says no number forbids none. It takes no memory.
pub fn is_wrong(end: End, count: &Option<i128>, number: usize) -> bool
    ensures { IsTrue result ↔ IsWrong end count.now number }
{
    match (end, count) {
        (End::Least, Some(least)) => is_fewer(number, least),
        (End::Most, Some(most)) => is_more(number, most),
        (_, None) => false,
    }
}

/// One result about no value node, where the parameter, as a bound, forbids so many of them.
pub fn counted<N: Names>(
    site: &Site<'_, N>,
    component: Component,
    end: End,
    number: usize,
) -> Result<Vec<ResultRow>, AllocError>
    ensures { IfOk result (λ rows. Lists (λ r. IsWrong end (tests.count_of (term_at site.now.terms site.now.parameter)) number
        × (r ≡ site_row component site.now found_alone)) rows.items) }
{
    let mut rows = Vec::new(site.alloc());
    let count = count_of(site.parameter_term());
    if !is_wrong(end, &count, number) {
        return Ok(rows);
    }
    rows.push(row_alone(site, component)?)?;
    Ok(rows)
}
