//! The component language-in (SHACL section 4.4.4).
ghost use Rattle.std.specs.Prelude.{◌≡◌, ◌<◌, IfOk, length, map, option_map};
ghost use Rattle.std.specs.List.{Contains, list_any};
ghost use Rattle.rdf_model.specs.Numbers.{term_at};
ghost use Rattle.shape_model.specs.declared.component.Component.TheVariants as components;
ghost use Rattle.component_rows.specs.Listed.{with_list};
ghost use Rattle.component_rows.specs.Sites.{ListsAt, at_values};
ghost use Rattle.string_constraints.specs.Languages.{is_in_range, tag_of};

use component_rows::{Site, ValueTest, failing};
use literal_order::lang_matches;
use rdf_model::{Names, Term};
use rdf_text::Text;
use shape_model::{Component, ResultRow};
use std::alloc::AllocError;

// The language tag of a literal that has one.
pub(crate) fn tag(term: &Term) -> Option<&Text>
    ensures { option_map (λ t. t.now) result ≡ tag_of term.now }
{
    match term {
        Term::Literal {
            language: Some(tag),
            ..
        } => Some(tag),
        _ => None,
    }
}

// Whether the text of the term is a language range that matches the tag.
fn matches_range(tag: &Text, range: &Term) -> bool
    ensures { result ≡ is_in_range tag.now range.now }
{
    match literal_order::str(range) {
        Some(range) => lang_matches(tag.as_str(), range),
        None => false,
    }
}

// Whether the text of some term is a language range that matches the tag.
fn is_in_some(tag: &Text, ranges: &[&Term]) -> bool
    ensures { result ≡ list_any (λ r. is_in_range tag.now r.now) ranges.now }
{
    ranges.iter().any(|range| matches_range(tag, range))
}

// A literal whose language tag some of the ranges matches.
#[derive(Drop)]
struct InLanguages<'a> {
    ranges: &'a [&'a Term],
}

impl ValueTest for InLanguages<'_> {
    ghost use Rattle.std.specs.Prelude.{map};
    ghost use Rattle.shape_model.specs.TermTests.{IsInLanguages};

    ghost accepts = { λ t v. IsInLanguages (map (λ r. r.now) t.ranges.now) v };

    fn passes(&self, value: &Term) -> bool {
        match tag(value) {
            Some(tag) => is_in_some(tag, self.ranges),
            None => false,
        }
    }
}

// The terms of some numbers.
fn terms_of<'a, N: Names>(site: &Site<'a, N>, numbers: &[u32]) -> Result<Vec<&'a Term>, AllocError>
    requires { (n : _) → Contains numbers.now n → n < length site.now.terms }
    ensures { IfOk result (λ terms. map (λ t. t.now) terms.items ≡ map (term_at site.now.terms) numbers.now) }
{
    let mut terms = Vec::with_capacity(site.alloc(), numbers.len())?;
    for number in numbers {
        terms.push(site.named(*number))?;
    }
    Ok(terms)
}

/// The results of sh:languageIn (SHACL section 4.4.4): one about each value node without a language tag that
/// some member of the list matches. The parameter is the head of the list.
pub fn language_in<N: Names>(
    site: &Site<'_, N>,
    members: &[u32],
) -> Result<Vec<ResultRow>, AllocError>
    requires { (n : _) → Contains members.now n → n < length site.now.terms }
    ensures { IfOk result (λ rows. ListsAt components.LanguageIn (at_values site.now) (with_list (map (term_at site.now.terms) members.now)) site.now rows.items) }
{
    let ranges = terms_of(site, members)?;
    let test = InLanguages { ranges: &ranges };
    failing(site, Component::LanguageIn, &test)
}
