//! The components min-length and max-length (SHACL sections 4.4.1 and 4.4.2).
ghost use Rattle.std.specs.Prelude.{IfOk};
ghost use Rattle.rdf_model.specs.Numbers.{term_at};
ghost use Rattle.shape_model.specs.declared.component.Component.TheVariants as components;
ghost use Rattle.shape_model.specs.Components.{ForEach};
ghost use Rattle.shape_model.specs.TermTests as tests;
ghost use Rattle.component_rows.specs.Listed.{Lists, untold};
ghost use Rattle.component_rows.specs.Sites.{ListsAt, at_values, site_row};
ghost use Rattle.string_constraints.specs.Lengths.{HasWrongLength};

use component_rows::{End, Site, ValueTest, failing, is_wrong};
use literal_order::char_len;
use rdf_model::{Names, Term};
use shape_model::{Component, ResultRow, count_of};
use std::alloc::AllocError;

// A term with a text whose length the bound allows.
#[derive(Drop)]
struct OfLength {
    end: End,
    count: Option<i128>,
}

impl ValueTest for OfLength {
    ghost use Rattle.string_constraints.specs.Lengths.{HasWrongLength};

    ghost accepts = { λ t v. HasWrongLength t.end t.count v → ⊥ };

    fn passes(&self, value: &Term) -> bool {
        match literal_order::str(value) {
            Some(text) => !is_wrong(self.end, &self.count, char_len(text)),
            None => false,
        }
    }
}

// One result about each value node without a text, or with one whose length the bound forbids.
fn of_wrong_length<N: Names>(
    site: &Site<'_, N>,
    component: Component,
    end: End,
) -> Result<Vec<ResultRow>, AllocError>
    ensures { IfOk result (λ rows. Lists (ForEach (at_values site.now) (site_row component site.now)
        (HasWrongLength end (tests.count_of (term_at site.now.terms site.now.parameter)))) rows.items) }
{
    let count = count_of(site.parameter_term());
    let test = OfLength { end, count };
    failing(site, component, &test)
}

/// The results of sh:minLength (SHACL section 4.4.1): one about each value node that is blank, or whose text
/// has fewer characters than the parameter says.
pub fn min_length<N: Names>(site: &Site<'_, N>) -> Result<Vec<ResultRow>, AllocError>
    ensures { IfOk result (λ rows. ListsAt components.MinLength (at_values site.now) untold site.now rows.items) }
{
    of_wrong_length(site, Component::MinLength, End::Least)
}

/// The results of sh:maxLength (SHACL section 4.4.2): one about each value node that is blank, or whose text
/// has more characters than the parameter says.
pub fn max_length<N: Names>(site: &Site<'_, N>) -> Result<Vec<ResultRow>, AllocError>
    ensures { IfOk result (λ rows. ListsAt components.MaxLength (at_values site.now) untold site.now rows.items) }
{
    of_wrong_length(site, Component::MaxLength, End::Most)
}
