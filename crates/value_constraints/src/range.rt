//! The four ranges (SHACL section 4.3).
ghost use Rattle.std.specs.Prelude.{IfOk};
ghost use Rattle.rdf_model.specs.Numbers.{term_at};
ghost use Rattle.shape_model.specs.declared.component.Component.TheVariants as components;
ghost use Rattle.shape_model.specs.Components.{ForEach};
ghost use Rattle.component_rows.specs.Listed.{Lists, untold};
ghost use Rattle.component_rows.specs.Sites.{ListsAt, at_values, site_row};
ghost use Rattle.value_constraints.specs.Ranges.{IsWithin};

use component_rows::{Site, ValueTest, failing};
use literal_order::{less, less_or_equal};
use rdf_model::{Names, Term};
use shape_model::{Component, ResultRow};
use std::alloc::AllocError;

// Where a value has to lie.
#[derive(Clone, Copy)]
enum Side {
    Above,
    AtLeast,
    Below,
    AtMost,
}

// A value that lies on that side of the bound.
#[derive(Drop)]
struct InRange<'a> {
    side: Side,
    bound: &'a Term,
}

impl ValueTest for InRange<'_> {
    ghost accepts = { λ t v. IsWithin t.side t.bound.now v };

    fn passes(&self, value: &Term) -> bool {
        let answer = match self.side {
            Side::Above => less(self.bound, value),
            Side::AtLeast => less_or_equal(self.bound, value),
            Side::Below => less(value, self.bound),
            Side::AtMost => less_or_equal(value, self.bound),
        };
        matches!(answer, Some(true))
    }
}

// One result about each value node that doesn't lie on that side of the bound.
fn outside<N: Names>(
    site: &Site<'_, N>,
    component: Component,
    side: Side,
) -> Result<Vec<ResultRow>, AllocError>
    ensures { IfOk result (λ rows. Lists (ForEach (at_values site.now) (site_row component site.now)
        (λ v. IsWithin side (term_at site.now.terms site.now.parameter) v → ⊥)) rows.items) }
{
    let bound = site.parameter_term();
    let test = InRange { side, bound };
    failing(site, component, &test)
}

/// The results of sh:minExclusive (SHACL section 4.3.1): one about each value node, unless the bound is less than it.
pub fn min_exclusive<N: Names>(site: &Site<'_, N>) -> Result<Vec<ResultRow>, AllocError>
    ensures { IfOk result (λ rows. ListsAt components.MinExclusive (at_values site.now) untold site.now rows.items) }
{
    outside(site, Component::MinExclusive, Side::Above)
}

/// The results of sh:minInclusive (SHACL section 4.3.2): one about each value node, unless the bound is at most it.
pub fn min_inclusive<N: Names>(site: &Site<'_, N>) -> Result<Vec<ResultRow>, AllocError>
    ensures { IfOk result (λ rows. ListsAt components.MinInclusive (at_values site.now) untold site.now rows.items) }
{
    outside(site, Component::MinInclusive, Side::AtLeast)
}

/// The results of sh:maxExclusive (SHACL section 4.3.3): one about each value node, unless it is less than the bound.
pub fn max_exclusive<N: Names>(site: &Site<'_, N>) -> Result<Vec<ResultRow>, AllocError>
    ensures { IfOk result (λ rows. ListsAt components.MaxExclusive (at_values site.now) untold site.now rows.items) }
{
    outside(site, Component::MaxExclusive, Side::Below)
}

/// The results of sh:maxInclusive (SHACL section 4.3.4): one about each value node, unless it is at most the bound.
pub fn max_inclusive<N: Names>(site: &Site<'_, N>) -> Result<Vec<ResultRow>, AllocError>
    ensures { IfOk result (λ rows. ListsAt components.MaxInclusive (at_values site.now) untold site.now rows.items) }
{
    outside(site, Component::MaxInclusive, Side::AtMost)
}
