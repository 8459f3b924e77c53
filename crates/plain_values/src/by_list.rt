// The components whose parameter is the head of a list (SHACL sections 4.4.4, 4.6.2 to 4.6.4 and 4.8.3).
ghost use Rattle.std.specs.Prelude.{◌≡◌, ◌↔◌, IfOk, IsTrue, option_map};
ghost use Rattle.std.specs.List.{Contains};
ghost use Rattle.shape_model.specs.TermTests.{IsInLanguages};
ghost use Rattle.plain_values.specs.Around.{ListRow};
ghost use Rattle.plain_values.specs.Tests.{tag_of};
ghost use Rattle.plain_values.specs.Tests.{IsRefusedBy, does_match, is_in_range};
ghost use Rattle.plain_terms.specs.Finds.{Finds};

use crate::logic::{Demand, is_unmet};
use crate::rows::rows_where;
use crate::site::{PlainSite, ToldRow};
use literal_order::lang_matches;
use plain_terms::{TermTest, is_among, list_members};
use rdf_model::Term;
use rdf_text::Text;
use shape_model::{Component, ResultRow};
use std::alloc::{AllocError, Global};

/// The language tag of a literal that has one.
pub fn tag(term: &Term) -> Option<&Text>
    ensures { option_map (λ t. t.now) result ≡ tag_of term.now }
{
    match term {
        Term::Literal {
            language: Some(tag),
            ..
        } => Some(tag),
        _ => None,
    }
}

// Whether the text of the term is a language range that matches the tag.
fn matches_range(tag: &Text, range: &Term) -> bool
    ensures { result ≡ is_in_range tag.now range.now }
{
    match literal_order::str(range) {
        Some(range) => lang_matches(tag.as_str(), range),
        None => false,
    }
}

// Whether the value has a language tag that the range matches.
fn is_matched(range: &Term, value: &Term) -> bool
    ensures { result ≡ does_match range.now value.now }
{
    match tag(value) {
        Some(tag) => matches_range(tag, range),
        None => false,
    }
}

// Whether it has one that some of the ranges matches (SHACL section 4.4.4).
fn is_in_languages(ranges: &[Term], value: &Term) -> bool
    ensures { IsTrue result ↔ IsInLanguages ranges.now value.now }
{
    for range in ranges {
        if is_matched(range, value) {
            return true;
        }
    }
    false
}

// Whether the component refuses the value node for the members of a list.
fn is_refused_by(component: Component, told: &[ToldRow], members: &[Term], value: &Term) -> bool
    ensures { IsTrue result ↔ IsRefusedBy component told.now members.now value.now }
{
    match component {
        Component::LanguageIn => !is_in_languages(members, value),
        Component::In => !is_among(members, value),
        Component::And => is_unmet(Demand::All, told, members, value),
        Component::Or => is_unmet(Demand::Any, told, members, value),
        Component::Xone => is_unmet(Demand::One, told, members, value),
        _ => false,
    }
}

// A value node that the component refuses for the members of a list.
#[derive(Drop)]
struct RefusedBy<'a> {
    component: Component,
    told: &'a [ToldRow],
    members: &'a [Term],
}

impl TermTest for RefusedBy<'_> {
    ghost use Rattle.plain_values.specs.Tests.{IsRefusedBy};

    ghost accepts = { λ t v. IsRefusedBy t.component t.told.now t.members.now v };

    fn passes(&self, term: &Term) -> bool {
        is_refused_by(self.component, self.told, self.members, term)
    }
}

/// One result about each value node that the component refuses for the members of the list that the parameter is the head
/// of.
pub fn list_rows(
    alloc: Global,
    at: &PlainSite<'_>,
    component: Component,
    parameter: &Term,
) -> Result<Vec<ResultRow>, AllocError>
    ensures { IfOk result (λ rows. Finds (ListRow at.now component parameter.now (IsRefusedBy component at.now.told.now)) rows.items) }
{
    let found = list_members(alloc, at.shapes, parameter)?;
    let Some(members) = found else {
        return Ok(Vec::new(alloc));
    };
    let test = RefusedBy {
        component,
        told: at.told,
        members: members.as_slice(),
    };
    let rows = rows_where(alloc, at, component, parameter, &test)?;
    Ok(rows)
}
