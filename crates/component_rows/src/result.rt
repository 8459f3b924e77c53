//! Results made of the numbers of terms.
ghost use Rattle.std.specs.Prelude.{◌≡◌, ◌<◌, IfOk, length};
ghost use Rattle.rdf_model.specs.Numbers.{term_at};
ghost use Rattle.shape_model.specs.Components.{found_alone, found_at};
ghost use Rattle.component_rows.specs.Listed.{found_with};
ghost use Rattle.component_rows.specs.Sites.{site_row};

use crate::Site;
use collections::both;
use rdf_model::{Names, Term};
use shape_model::{Component, ResultRow};
use std::alloc::AllocError;

/// The term of a number that has one.
pub fn named<'a, N: Names>(names: &'a N, number: u32) -> &'a Term
    requires { number < length (N.terms names.now) }
    ensures { result.now ≡ term_at (N.terms names.now) number }
{
    match names.term(number) {
        Some(term) => term,
        None => unreachable!(),
    }
}

/// The result of a component about no value node (SHACL section 3.6.2).
pub fn row_alone<N: Names>(
    site: &Site<'_, N>,
    component: Component,
) -> Result<ResultRow, AllocError>
    ensures { IfOk result (λ row. row ≡ site_row component site.now found_alone) }
{
    let ends = both(site.source().clone(), site.focus_term().clone());
    let ((source_shape, focus_node), parameter) = both(ends, site.parameter_term().clone())?;
    Ok(ResultRow {
        source_shape,
        focus_node,
        component,
        parameter: Some(parameter),
        about: None,
        value: None,
        other: None,
    })
}

/// The result of a component about a value node, which it names (SHACL section 3.6.2).
pub fn row_about<N: Names>(
    site: &Site<'_, N>,
    component: Component,
    value: &Term,
) -> Result<ResultRow, AllocError>
    ensures { IfOk result (λ row. row ≡ site_row component site.now (found_at value.now)) }
{
    let ends = both(site.source().clone(), site.focus_term().clone());
    let values = both(value.clone(), value.clone());
    let rest = both(site.parameter_term().clone(), values);
    let ((source_shape, focus_node), (parameter, (about, value))) = both(ends, rest)?;
    Ok(ResultRow {
        source_shape,
        focus_node,
        component,
        parameter: Some(parameter),
        about: Some(about),
        value: Some(value),
        other: None,
    })
}

/// The result of a component about a value node, with what it names beside: the value and what else tells
/// it apart (SHACL section 3.6.2).
pub fn row_beside<N: Names>(
    site: &Site<'_, N>,
    component: Component,
    about: u32,
    value: u32,
    other: u32,
) -> Result<ResultRow, AllocError>
    requires about { about < length site.now.terms }
    requires value { value < length site.now.terms }
    requires other { other < length site.now.terms }
    ensures { IfOk result (λ row. row ≡ site_row component site.now (found_with (term_at site.now.terms about) (term_at site.now.terms value) (term_at site.now.terms other))) }
{
    let ends = both(site.source().clone(), site.focus_term().clone());
    let values = both(site.named(about).clone(), site.named(value).clone());
    let rest = both(site.parameter_term().clone(), site.named(other).clone());
    let (((source_shape, focus_node), (about, value)), (parameter, other)) = both(
        both(ends, values),
        rest,
    )?;
    Ok(ResultRow {
        source_shape,
        focus_node,
        component,
        parameter: Some(parameter),
        about: Some(about),
        value: Some(value),
        other: Some(other),
    })
}
