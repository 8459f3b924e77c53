// The components that ask for more than the value node and the parameter.
ghost use Rattle.std.specs.Prelude.{◌≡◌, ◌⊎◌, ◌↔◌, IfOk, IsTrue};
ghost use Rattle.std.specs.List.{Contains};
ghost use Rattle.collections.specs.Ordered.{IsAscending};
ghost use Rattle.rdf_model.specs.Terms.{term_cmp};
ghost use Rattle.shape_model.specs.Components.{found_alone};
ghost use Rattle.shape_model.specs.declared.component.Component.TheVariants as components;
ghost use Rattle.plain_values.specs.Around.{EachAt, MissingAt, RowsAt, row_at};
ghost use Rattle.plain_terms.specs.Finds.{Finds};

use crate::by_term::{is_fewer, is_more};
use crate::logic::conforms;
use crate::rows::{row_alone, rows_about, rows_where};
use crate::site::{PlainSite, ToldRow};
use collections::Sequence;
use plain_terms::{TermTest, chosen, instances_of, is_among, objects};
use rdf_model::Term;
use shape_model::{Component, ResultRow};
use std::alloc::{AllocError, Global};

// A term that is in a list, and one that isn't.
#[derive(Drop)]
struct Inside<'a> {
    terms: &'a Sequence<Term>,
}

impl TermTest for Inside<'_> {
    ghost use Rattle.std.specs.List.{Contains};

    ghost accepts = { λ t v. Contains t.terms.now v };

    fn passes(&self, term: &Term) -> bool {
        is_among(self.terms.as_slice(), term)
    }
}

#[derive(Drop)]
pub struct Outside<'a> {
    pub terms: &'a Sequence<Term>,
}

impl TermTest for Outside<'_> {
    ghost use Rattle.std.specs.List.{Contains};

    ghost accepts = { λ t v. Contains t.terms.now v → ⊥ };

    fn passes(&self, term: &Term) -> bool {
        !is_among(self.terms.as_slice(), term)
    }
}

// A node that conforms to the shape, and one that doesn't.
#[derive(Drop)]
struct Conformant<'a> {
    told: &'a [ToldRow],
    shape: &'a Term,
}

impl TermTest for Conformant<'_> {
    ghost use Rattle.plain_values.specs.Tests.{Conforming};

    ghost accepts = { λ t v. Conforming t.told.now t.shape.now v };

    fn passes(&self, term: &Term) -> bool {
        conforms(self.told, self.shape, term)
    }
}

#[derive(Drop)]
struct NotConformant<'a> {
    told: &'a [ToldRow],
    shape: &'a Term,
}

impl TermTest for NotConformant<'_> {
    ghost use Rattle.plain_values.specs.Tests.{Conforming};

    ghost accepts = { λ t v. Conforming t.told.now t.shape.now v → ⊥ };

    fn passes(&self, term: &Term) -> bool {
        !conforms(self.told, self.shape, term)
    }
}

/// The results of sh:class (SHACL section 4.1.1).
pub fn class_rows(
    alloc: Global,
    at: &PlainSite<'_>,
    parameter: &Term,
) -> Result<Vec<ResultRow>, AllocError>
    ensures { IfOk result (λ rows. Finds (RowsAt at.now components.Class parameter.now) rows.items) }
{
    let instances = instances_of(alloc, at.graph, parameter)?;
    let test = Outside { terms: &instances };
    let rows = rows_where(alloc, at, Component::Class, parameter, &test)?;
    Ok(rows)
}

/// The results of sh:disjoint (SHACL section 4.5.2).
pub fn disjoint_rows(
    alloc: Global,
    at: &PlainSite<'_>,
    parameter: &Term,
) -> Result<Vec<ResultRow>, AllocError>
    ensures { IfOk result (λ rows. Finds (RowsAt at.now components.Disjoint parameter.now) rows.items) }
{
    let others = objects(alloc, at.graph, at.focus, parameter)?;
    let test = Inside { terms: &others };
    let rows = rows_where(alloc, at, Component::Disjoint, parameter, &test)?;
    Ok(rows)
}

// The results about the values of the property at the focus node that are no value nodes.
fn missing_rows(
    alloc: Global,
    at: &PlainSite<'_>,
    parameter: &Term,
    others: &Sequence<Term>,
) -> Result<Vec<ResultRow>, AllocError>
    ensures { IfOk result (λ rows. Finds (MissingAt at.now parameter.now others.now) rows.items) }
{
    let values = Sequence::copied_from(alloc, at.values)?;
    let test = Outside { terms: &values };
    let missing = chosen(alloc, others.as_slice(), &test)?;
    let rows = rows_about(alloc, at, Component::Equals, parameter, missing.as_slice())?;
    Ok(rows)
}

/// The results of sh:equals (SHACL section 4.5.1).
pub fn equals_rows(
    alloc: Global,
    at: &PlainSite<'_>,
    parameter: &Term,
) -> Result<Vec<ResultRow>, AllocError>
    ensures { IfOk result (λ rows. Finds (RowsAt at.now components.Equals parameter.now) rows.items) }
{
    let others = objects(alloc, at.graph, at.focus, parameter)?;
    let test = Outside { terms: &others };
    let mut rows = rows_where(alloc, at, Component::Equals, parameter, &test)?;
    let mut more = missing_rows(alloc, at, parameter, &others)?;
    rows.append(&mut more)?;
    Ok(rows)
}

/// The results of sh:not (SHACL section 4.6.1).
pub fn not_rows(
    alloc: Global,
    at: &PlainSite<'_>,
    parameter: &Term,
) -> Result<Vec<ResultRow>, AllocError>
    ensures { IfOk result (λ rows. Finds (RowsAt at.now components.Not parameter.now) rows.items) }
{
    let test = Conformant {
        told: at.told,
        shape: parameter,
    };
    let rows = rows_where(alloc, at, Component::Not, parameter, &test)?;
    Ok(rows)
}

/// The results of sh:node (SHACL section 4.7.1).
pub fn node_rows(
    alloc: Global,
    at: &PlainSite<'_>,
    parameter: &Term,
) -> Result<Vec<ResultRow>, AllocError>
    ensures { IfOk result (λ rows. Finds (RowsAt at.now components.Node parameter.now) rows.items) }
{
    let test = NotConformant {
        told: at.told,
        shape: parameter,
    };
    let rows = rows_where(alloc, at, Component::Node, parameter, &test)?;
    Ok(rows)
}

/// The result about no value node, where something is wrong.
pub fn row_if(
    alloc: Global,
    at: &PlainSite<'_>,
    component: Component,
    parameter: &Term,
    is_wrong: bool,
) -> Result<Vec<ResultRow>, AllocError>
    ensures { IfOk result (λ rows. Finds (λ r. IsTrue is_wrong × (r ≡ row_at at.now component parameter.now found_alone)) rows.items) }
{
    let mut rows = Vec::new(alloc);
    if is_wrong {
        rows.push(row_alone(at, component, parameter)?)?;
    }
    Ok(rows)
}

/// The results of sh:minCount (SHACL section 4.2.1).
pub fn min_count_rows(
    alloc: Global,
    at: &PlainSite<'_>,
    parameter: &Term,
) -> Result<Vec<ResultRow>, AllocError>
    requires { IsAscending term_cmp at.now.values.now }
    ensures { IfOk result (λ rows. Finds (RowsAt at.now components.MinCount parameter.now) rows.items) }
{
    let is_wrong = is_fewer(at.values.len(), parameter);
    let rows = row_if(alloc, at, Component::MinCount, parameter, is_wrong)?;
    Ok(rows)
}

/// The results of sh:maxCount (SHACL section 4.2.2).
pub fn max_count_rows(
    alloc: Global,
    at: &PlainSite<'_>,
    parameter: &Term,
) -> Result<Vec<ResultRow>, AllocError>
    requires { IsAscending term_cmp at.now.values.now }
    ensures { IfOk result (λ rows. Finds (RowsAt at.now components.MaxCount parameter.now) rows.items) }
{
    let is_wrong = is_more(at.values.len(), parameter);
    let rows = row_if(alloc, at, Component::MaxCount, parameter, is_wrong)?;
    Ok(rows)
}

/// The results of sh:hasValue (SHACL section 4.8.2).
pub fn has_value_rows(
    alloc: Global,
    at: &PlainSite<'_>,
    parameter: &Term,
) -> Result<Vec<ResultRow>, AllocError>
    ensures { IfOk result (λ rows. Finds (RowsAt at.now components.HasValue parameter.now) rows.items) }
{
    let is_wrong = !is_among(at.values, parameter);
    let rows = row_if(alloc, at, Component::HasValue, parameter, is_wrong)?;
    Ok(rows)
}
