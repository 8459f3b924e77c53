// The components that give results about pairs: of value nodes and values of a property, and of value nodes with one language
// tag (SHACL sections 4.4.5, 4.5.3 and 4.5.4).
ghost use Rattle.std.specs.Prelude.{◌≡◌, ◌↔◌, IfOk, IsTrue};
ghost use Rattle.shape_model.specs.Components.{found_beside};
ghost use Rattle.shape_model.specs.TermTests.{HasTag};
ghost use Rattle.shape_model.specs.Vocabulary as defined_words;
ghost use Rattle.shape_model.specs.declared.component.Component.TheVariants as components;
ghost use Rattle.plain_values.specs.Around.{row_at};
ghost use Rattle.plain_components.specs.Rows.{PairRow, PairsAt, SharedRow, TagRow, TagsAt, found_tag};
ghost use Rattle.plain_components.specs.Pairs.{Shares, SharesSome, Stands};
ghost use Rattle.plain_terms.specs.Finds.{Finds, WithSome};

use plain_terms::{TermTest, chosen, is_same, objects};
use plain_values::{PlainSite, is_at_most, is_less, row_alone, row_beside, tag};
use rdf_model::Term;
use rdf_text::Text;
use shape_model::{Component, ResultRow};
use std::alloc::{AllocError, Global};
use vocabulary::XSD_STRING;

// Whether the value node stands to the other value as the component wants it.
fn stands(component: Component, value: &Term, other: &Term) -> bool
    ensures { IsTrue result ↔ Stands component value.now other.now }
{
    match component {
        Component::LessThan => is_less(value, other),
        Component::LessThanOrEquals => is_at_most(value, other),
        _ => true,
    }
}

// A value to which the value node doesn't stand so.
#[derive(Drop)]
struct Unpaired<'a> {
    component: Component,
    value: &'a Term,
}

impl TermTest for Unpaired<'_> {
    ghost use Rattle.plain_components.specs.Pairs.{Stands};

    ghost accepts = { λ t w. Stands t.component t.value.now w → ⊥ };

    fn passes(&self, term: &Term) -> bool {
        !stands(self.component, self.value, term)
    }
}

// One result about the value node and each of the others.
fn rows_beside(
    alloc: Global,
    at: &PlainSite<'_>,
    component: Component,
    parameter: &Term,
    value: &Term,
    others: &[Term],
) -> Result<Vec<ResultRow>, AllocError>
    ensures { IfOk result (λ rows. Finds (WithSome others.now (λ other row. row ≡ row_at at.now component parameter.now (found_beside value.now other))) rows.items) }
{
    let mut rows = Vec::new(alloc);
    for other in others {
        rows.push(row_beside(at, component, parameter, value, other)?)?;
    }
    Ok(rows)
}

// The results about a value node and the values of the property.
fn pair_rows_of(
    alloc: Global,
    at: &PlainSite<'_>,
    component: Component,
    parameter: &Term,
    value: &Term,
    others: &[Term],
) -> Result<Vec<ResultRow>, AllocError>
    ensures { IfOk result (λ rows. Finds (PairRow at.now component parameter.now others.now value.now) rows.items) }
{
    let test = Unpaired { component, value };
    let wrong = chosen(alloc, others, &test)?;
    let rows = rows_beside(alloc, at, component, parameter, value, wrong.as_slice())?;
    Ok(rows)
}

// Those about each value node.
fn pair_rows_with(
    alloc: Global,
    at: &PlainSite<'_>,
    component: Component,
    parameter: &Term,
    others: &[Term],
) -> Result<Vec<ResultRow>, AllocError>
    ensures { IfOk result (λ rows. Finds (WithSome at.now.values.now (PairRow at.now component parameter.now others.now)) rows.items) }
{
    let mut rows = Vec::new(alloc);
    for value in at.values {
        let mut more = pair_rows_of(alloc, at, component, parameter, value, others)?;
        rows.append(&mut more)?;
    }
    Ok(rows)
}

/// The results of sh:lessThan and sh:lessThanOrEquals.
pub(crate) fn pair_rows(
    alloc: Global,
    at: &PlainSite<'_>,
    component: Component,
    parameter: &Term,
) -> Result<Vec<ResultRow>, AllocError>
    ensures { IfOk result (λ rows. Finds (PairsAt at.now component parameter.now (Stands component)) rows.items) }
{
    let others = objects(alloc, at.graph, at.focus, parameter)?;
    let rows = pair_rows_with(alloc, at, component, parameter, others.as_slice())?;
    Ok(rows)
}

fn is_same_text(first: &Text, other: &Text) -> bool
    ensures { IsTrue result ↔ (first.now ≡ other.now) }
{
    first.as_str() == other.as_str()
}

// Whether the term has the language tag.
fn has_tag(wanted: &Text, term: &Term) -> bool
    ensures { IsTrue result ↔ HasTag wanted.now term.now }
{
    match tag(term) {
        Some(tag) => is_same_text(tag, wanted),
        None => false,
    }
}

// Whether the other is another term, with the language tag.
fn shares(tag: &Text, value: &Term, other: &Term) -> bool
    ensures { IsTrue result ↔ Shares tag.now value.now other.now }
{
    let same = is_same(value, other);
    let tagged = has_tag(tag, other);
    !same && tagged
}

// Whether one of the terms is.
fn shares_some(values: &[Term], tag: &Text, value: &Term) -> bool
    ensures { IsTrue result ↔ SharesSome values.now tag.now value.now }
{
    for other in values {
        if shares(tag, value, other) {
            return true;
        }
    }
    false
}

// The tag as a literal of xsd:string.
#[tactic(auto, unfolding(shape_model::specs::Vocabulary::string_literal))]
fn tag_literal(alloc: Global, tag: &Text) -> Result<Term, AllocError>
    ensures { IfOk result (λ term. term ≡ defined_words.string_literal tag.now) }
{
    Ok(Term::Literal {
        lexical: tag.clone()?,
        datatype: Text::new(alloc, XSD_STRING)?,
        language: None,
    })
}

// The result of a tag that value nodes share.
fn tag_row(
    alloc: Global,
    at: &PlainSite<'_>,
    parameter: &Term,
    tag: &Text,
) -> Result<ResultRow, AllocError>
    ensures { IfOk result (λ row. row ≡ row_at at.now components.UniqueLang parameter.now (found_tag tag.now)) }
{
    let mut row = row_alone(at, Component::UniqueLang, parameter)?;
    row.other = Some(tag_literal(alloc, tag)?);
    Ok(row)
}

// The result of a tag of a value node, if it shares the tag with another one.
fn shared_rows(
    alloc: Global,
    at: &PlainSite<'_>,
    parameter: &Term,
    tag: &Text,
    value: &Term,
) -> Result<Vec<ResultRow>, AllocError>
    ensures { IfOk result (λ rows. Finds (SharedRow at.now parameter.now tag.now value.now) rows.items) }
{
    let mut rows = Vec::new(alloc);
    if shares_some(at.values, tag, value) {
        rows.push(tag_row(alloc, at, parameter, tag)?)?;
    }
    Ok(rows)
}

// The result of the tag of a value node, if it has one that others share.
fn tag_rows_of(
    alloc: Global,
    at: &PlainSite<'_>,
    parameter: &Term,
    value: &Term,
) -> Result<Vec<ResultRow>, AllocError>
    ensures { IfOk result (λ rows. Finds (TagRow at.now parameter.now value.now) rows.items) }
{
    match tag(value) {
        Some(tag) => shared_rows(alloc, at, parameter, tag, value),
        None => Ok(Vec::new(alloc)),
    }
}

/// The results of sh:uniqueLang (SHACL section 4.4.5), where it is true.
pub(crate) fn tag_rows(
    alloc: Global,
    at: &PlainSite<'_>,
    parameter: &Term,
) -> Result<Vec<ResultRow>, AllocError>
    ensures { IfOk result (λ rows. Finds (TagsAt at.now parameter.now) rows.items) }
{
    let mut rows = Vec::new(alloc);
    for value in at.values {
        let mut more = tag_rows_of(alloc, at, parameter, value)?;
        rows.append(&mut more)?;
    }
    Ok(rows)
}
