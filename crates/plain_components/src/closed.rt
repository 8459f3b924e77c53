// Closed shapes (SHACL section 4.8.1).
ghost use Rattle.std.specs.Prelude.{◌≡◌, ◌⊎◌, ◌↔◌, IfOk, IsTrue};
ghost use Rattle.std.specs.List.{Contains};
ghost use Rattle.shape_model.specs.Readings.{IsAllowed};
ghost use Rattle.shape_model.specs.Triples.{IsIri};
ghost use Rattle.shape_model.specs.declared.component.Component.TheVariants as components;
ghost use Rattle.plain_values.specs.Around.{RowsAt, row_at};
ghost use Rattle.plain_components.specs.Rows.{ForbiddenRow, IsForbidden, TriplesAt, found_triple};
ghost use Rattle.plain_terms.specs.Finds.{Finds, WithSome};

use crate::pairs::tag_rows;
use collections::both;
use plain_terms::{TermTest, chosen, is_among, members_of_each, parameters, parameters_of_each};
use plain_values::{PlainSite, row_alone};
use rdf_model::{Term, Triple};
use shape_model::{Component, ResultRow, is_true};
use std::alloc::{AllocError, Global};

// A term that is an IRI.
#[derive(Drop)]
struct Iri {}

impl TermTest for Iri {
    ghost use Rattle.shape_model.specs.Triples.{IsIri};

    ghost accepts = { λ t v. IsIri v };

    fn passes(&self, term: &Term) -> bool {
        matches!(term, Term::Iri(_))
    }
}

/// The predicates that a closed shape allows.
fn allowed_predicates(
    alloc: Global,
    shapes: &[Triple],
    shape: &Term,
) -> Result<Vec<Term>, AllocError>
    ensures { IfOk result (λ found. Finds (IsAllowed shapes.now shape.now) found.items) }
{
    let properties = parameters(alloc, shapes, shape, "property")?;
    let paths = parameters_of_each(alloc, shapes, properties.as_slice(), "path")?;
    let mut allowed = chosen(alloc, paths.as_slice(), &Iri {})?.into_vec();
    let heads = parameters(alloc, shapes, shape, "ignoredProperties")?;
    let mut ignored = members_of_each(alloc, shapes, heads.as_slice())?;
    allowed.append(&mut ignored)?;
    Ok(allowed)
}

// Whether the triple is one of a value node, with a predicate that isn't allowed.
fn is_forbidden(at: &PlainSite<'_>, allowed: &[Term], triple: &Triple) -> bool
    ensures { IsTrue result ↔ IsForbidden at.now allowed.now triple.now }
{
    let of_value = is_among(at.values, &triple.subject);
    let is_allowed = is_among(allowed, &triple.predicate);
    of_value && !is_allowed
}

// The result of a triple.
fn triple_row(
    at: &PlainSite<'_>,
    parameter: &Term,
    triple: &Triple,
) -> Result<ResultRow, AllocError>
    ensures { IfOk result (λ row. row ≡ row_at at.now components.Closed parameter.now (found_triple triple.now)) }
{
    let alone = row_alone(at, Component::Closed, parameter);
    let ends = both(triple.subject.clone(), triple.object.clone());
    let (mut row, ((about, value), other)) = both(alone, both(ends, triple.predicate.clone()))?;
    row.about = Some(about);
    row.value = Some(value);
    row.other = Some(other);
    Ok(row)
}

// The results of all triples of the graph.
fn triple_rows(
    alloc: Global,
    at: &PlainSite<'_>,
    parameter: &Term,
    allowed: &[Term],
) -> Result<Vec<ResultRow>, AllocError>
    ensures { IfOk result (λ rows. Finds (WithSome at.now.graph.now (ForbiddenRow at.now parameter.now allowed.now)) rows.items) }
{
    let mut rows = Vec::new(alloc);
    for triple in at.graph {
        if is_forbidden(at, allowed, triple) {
            rows.push(triple_row(at, parameter, triple)?)?;
        }
    }
    Ok(rows)
}

/// The results of sh:closed.
pub(crate) fn closed_rows(
    alloc: Global,
    at: &PlainSite<'_>,
    parameter: &Term,
) -> Result<Vec<ResultRow>, AllocError>
    ensures { IfOk result (λ rows. Finds (RowsAt at.now components.Closed parameter.now) rows.items) }
{
    if !is_true(parameter) {
        return Ok(Vec::new(alloc));
    }
    let allowed = allowed_predicates(alloc, at.shapes, at.shape)?;
    let rows = triple_rows(alloc, at, parameter, allowed.as_slice())?;
    Ok(rows)
}

/// The results of sh:uniqueLang (SHACL section 4.4.5).
pub(crate) fn unique_lang_rows(
    alloc: Global,
    at: &PlainSite<'_>,
    parameter: &Term,
) -> Result<Vec<ResultRow>, AllocError>
    ensures { IfOk result (λ rows. Finds (RowsAt at.now components.UniqueLang parameter.now) rows.items) }
{
    if !is_true(parameter) {
        return Ok(Vec::new(alloc));
    }
    let rows = tag_rows(alloc, at, parameter)?;
    Ok(rows)
}
