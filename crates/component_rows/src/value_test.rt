//! Results about value nodes that don't pass a test.
ghost use Rattle.std.specs.Prelude.{◌≡◌, ◌↔◌, ◌<◌, ◌++◌, IfOk, IsTrue, OnOk, length};
ghost use Rattle.rdf_model.specs.Numbers.{term_at};
ghost use Rattle.rdf_model.specs.declared.term.Term.{Term as TermData};
ghost use Rattle.shape_model.specs.Components.{ForEach, found_at};
ghost use Rattle.component_rows.specs.Listed.{Collects, Lists};
ghost use Rattle.component_rows.specs.Sites.{at_values, site_row};

use crate::{Site, row_about};
use collections::sorted_once;
use rdf_model::{Names, Term};
use shape_model::{Component, ResultRow};
use std::alloc::AllocError;

/// What a component asks of each value node.
pub trait ValueTest {
    ghost accepts: { Self → TermData → Type 0 };

    /// Whether the value node is as the component wants it. It takes no memory.
    fn passes(&self, value: &Term) -> bool
        ensures { IsTrue result ↔ accepts self.now value.now };
}

// Adds the result about a value node, unless it passes the test.
fn add_failing<N: Names, T: ValueTest>(
    rows: &mut Vec<ResultRow>,
    site: &Site<'_, N>,
    component: Component,
    value: u32,
    test: &T,
) -> Result<(), AllocError>
    requires { value < length site.now.terms }
    ensures { OnOk result ((more : _) × (rows.new.items ≡ rows.old.items ++ more)
        × Collects (λ r. (T.accepts test.now (term_at site.now.terms value) → ⊥)
        × (r ≡ site_row component site.now (found_at (term_at site.now.terms value)))) more) }
{
    let term = site.named(value);
    if test.passes(term) {
        return Ok(());
    }
    rows.push(row_about(site, component, term)?)?;
    Ok(())
}

/// One result about each value node that doesn't pass the test.
pub fn failing<N: Names, T: ValueTest>(
    site: &Site<'_, N>,
    component: Component,
    test: &T,
) -> Result<Vec<ResultRow>, AllocError>
    ensures { IfOk result (λ rows. Lists (ForEach (at_values site.now) (site_row component site.now) (λ v. T.accepts test.now v → ⊥)) rows.items) }
{
    site.recall();
    let values = site.values();
    let mut rows = Vec::new(site.alloc());
    for value in values {
        add_failing(&mut rows, site, component, *value, test)?;
    }
    Ok(sorted_once(rows)?)
}
