// The components that ask for the value node and the parameter alone (SHACL sections 4.1.2, 4.1.3, 4.3, 4.4.1 and 4.4.2).
ghost use Rattle.std.specs.Prelude.{◌≡◌, ◌⊎◌, ◌↔◌, IfOk, IsTrue, codes};
ghost use Rattle.rdf_model.specs.declared.term.Term.TheVariants as data_terms;
ghost use Rattle.shape_model.specs.TermTests.{IsAtMost, IsFewer, IsLess, IsMore, IsOfDatatype, IsOfKind, IsTooLong, IsTooShort};
ghost use Rattle.shape_model.specs.Vocabulary.{sh};
ghost use Rattle.plain_values.specs.Around.{EachAt};
ghost use Rattle.plain_values.specs.Tests.{IsRefused};
ghost use Rattle.plain_terms.specs.Finds.{Finds};

use crate::rows::rows_where;
use crate::site::PlainSite;
use literal_order::{Lexical, char_len, less, less_or_equal, value as value_of};
use plain_terms::TermTest;
use rdf_model::Term;
use shape_model::{Component, ResultRow, count_of};
use std::alloc::{AllocError, Global};
use vocabulary::{
    SH_BLANK_NODE, SH_BLANK_NODE_OR_IRI, SH_BLANK_NODE_OR_LITERAL, SH_IRI, SH_IRI_OR_LITERAL,
    SH_LITERAL,
};

/// Whether a number is less than the count that a term says (SHACL section 4.2.1).
pub fn is_fewer(number: usize, count: &Term) -> bool
    ensures { IsTrue result ↔ IsFewer number count.now }
{
    match count_of(count) {
        Some(least) => shape_model::is_fewer(number, &least),
        None => false,
    }
}

/// Whether it is more than that count (SHACL section 4.2.2).
pub fn is_more(number: usize, count: &Term) -> bool
    ensures { IsTrue result ↔ IsMore number count.now }
{
    match count_of(count) {
        Some(most) => shape_model::is_more(number, &most),
        None => false,
    }
}

// Whether the term is the IRI.
fn is_named(term: &Term, iri: &str) -> bool
    ensures { IsTrue result ↔ (term.now ≡ data_terms.Iri iri.now) }
{
    match term {
        Term::Iri(text) => text.as_str() == iri,
        _ => false,
    }
}

// Whether a node kind takes blank nodes.
#[tactic(auto, unfolding(shape_model::specs::Vocabulary::sh))]
fn takes_blank(kind: &Term) -> bool
    ensures { IsTrue result ↔ ((kind.now ≡ sh (codes "BlankNode")) ⊎ (kind.now ≡ sh (codes "BlankNodeOrIRI")) ⊎ (kind.now ≡ sh (codes "BlankNodeOrLiteral"))) }
{
    is_named(kind, SH_BLANK_NODE)
        || is_named(kind, SH_BLANK_NODE_OR_IRI)
        || is_named(kind, SH_BLANK_NODE_OR_LITERAL)
}

// Whether a node kind takes IRIs.
#[tactic(auto, unfolding(shape_model::specs::Vocabulary::sh))]
fn takes_iri(kind: &Term) -> bool
    ensures { IsTrue result ↔ ((kind.now ≡ sh (codes "IRI")) ⊎ (kind.now ≡ sh (codes "BlankNodeOrIRI")) ⊎ (kind.now ≡ sh (codes "IRIOrLiteral"))) }
{
    is_named(kind, SH_IRI)
        || is_named(kind, SH_BLANK_NODE_OR_IRI)
        || is_named(kind, SH_IRI_OR_LITERAL)
}

// Whether a node kind takes literals.
#[tactic(auto, unfolding(shape_model::specs::Vocabulary::sh))]
fn takes_literal(kind: &Term) -> bool
    ensures { IsTrue result ↔ ((kind.now ≡ sh (codes "Literal")) ⊎ (kind.now ≡ sh (codes "BlankNodeOrLiteral")) ⊎ (kind.now ≡ sh (codes "IRIOrLiteral"))) }
{
    is_named(kind, SH_LITERAL)
        || is_named(kind, SH_BLANK_NODE_OR_LITERAL)
        || is_named(kind, SH_IRI_OR_LITERAL)
}

// Whether the value is of the node kind (SHACL section 4.1.3).
fn is_of_kind(kind: &Term, value: &Term) -> bool
    ensures { IsTrue result ↔ IsOfKind kind.now value.now }
{
    match value {
        Term::Blank { .. } => takes_blank(kind),
        Term::Iri(_) => takes_iri(kind),
        Term::Literal { .. } => takes_literal(kind),
    }
}

// Whether the value is a literal of the datatype, and not ill-typed (SHACL section 4.1.2).
fn is_of_datatype(wanted: &Term, value: &Term) -> bool
    ensures { IsTrue result ↔ IsOfDatatype wanted.now value.now }
{
    match (wanted, value) {
        (Term::Iri(wanted), Term::Literal { datatype, .. }) => {
            wanted == datatype && !matches!(value_of(value), Lexical::IllTyped)
        }
        _ => false,
    }
}

/// Whether the first literal is less than the other.
pub fn is_less(first: &Term, other: &Term) -> bool
    ensures { IsTrue result ↔ IsLess first.now other.now }
{
    matches!(less(first, other), Some(true))
}

/// Whether the first literal is at most the other.
pub fn is_at_most(first: &Term, other: &Term) -> bool
    ensures { IsTrue result ↔ IsAtMost first.now other.now }
{
    matches!(less_or_equal(first, other), Some(true))
}

fn is_too_short(length: &Term, value: &Term) -> bool
    ensures { IsTrue result ↔ IsTooShort length.now value.now }
{
    match literal_order::str(value) {
        Some(text) => is_fewer(char_len(text), length),
        None => true,
    }
}

fn is_too_long(length: &Term, value: &Term) -> bool
    ensures { IsTrue result ↔ IsTooLong length.now value.now }
{
    match literal_order::str(value) {
        Some(text) => is_more(char_len(text), length),
        None => true,
    }
}

// Whether the component refuses the value node for this value of its parameter.
fn is_refused(component: Component, parameter: &Term, value: &Term) -> bool
    ensures { IsTrue result ↔ IsRefused component parameter.now value.now }
{
    match component {
        Component::Datatype => !is_of_datatype(parameter, value),
        Component::NodeKind => !is_of_kind(parameter, value),
        Component::MinExclusive => !is_less(parameter, value),
        Component::MinInclusive => !is_at_most(parameter, value),
        Component::MaxExclusive => !is_less(value, parameter),
        Component::MaxInclusive => !is_at_most(value, parameter),
        Component::MinLength => is_too_short(parameter, value),
        Component::MaxLength => is_too_long(parameter, value),
        _ => false,
    }
}

// A value node that the component refuses.
#[derive(Drop)]
struct Refused<'a> {
    component: Component,
    parameter: &'a Term,
}

impl TermTest for Refused<'_> {
    ghost use Rattle.plain_values.specs.Tests.{IsRefused};

    ghost accepts = { λ t v. IsRefused t.component t.parameter.now v };

    fn passes(&self, term: &Term) -> bool {
        is_refused(self.component, self.parameter, term)
    }
}

/// One result about each value node that the component refuses.
pub fn term_rows(
    alloc: Global,
    at: &PlainSite<'_>,
    component: Component,
    parameter: &Term,
) -> Result<Vec<ResultRow>, AllocError>
    ensures { IfOk result (λ rows. Finds (EachAt at.now component parameter.now (IsRefused component parameter.now)) rows.items) }
{
    let test = Refused {
        component,
        parameter,
    };
    let rows = rows_where(alloc, at, component, parameter, &test)?;
    Ok(rows)
}
