//! The component pattern (SHACL section 4.4.3).
ghost use Rattle.std.specs.Prelude.{◌≡◌, ◌↔◌, IfOk, IsTrue, Some, is_some, length};
ghost use Rattle.literal_order.specs.Texts.{string_value};
ghost use Rattle.rdf_model.specs.Numbers.{term_at};
ghost use Rattle.regex.specs.Patterns.{SameCaptures, find_str};
ghost use Rattle.regex.specs.Strings.{matcher_pattern};
ghost use Rattle.shape_model.specs.declared.component.Component.TheVariants as components;
ghost use Rattle.component_rows.specs.Answers.{AreAnswersTo};
ghost use Rattle.component_rows.specs.Sites.{ListsAt, at_values};
ghost use Rattle.string_constraints.specs.Matches.{IsFoundIn, with_flags};

use crate::matchers::PatternMatcher;
use component_rows::{Site, refused};
use rdf_model::{Names, Term};
use regex::Matcher;
use shape_model::{Component, ResultRow};
use std::alloc::AllocError;

// Whether the pattern matches some part of the text; so does each that captures the same.
fn is_match(matcher: &mut Matcher<'_>, text: &str) -> bool
    ensures found { (re : _) → SameCaptures (matcher_pattern matcher.old) re → result ≡ is_some (find_str re text.now 0) }
    ensures same { matcher_pattern matcher.new ≡ matcher_pattern matcher.old }
{
    matcher.is_match(text)
}

// Whether the pattern matches some part of the term's text; so does each that captures the same.
fn is_found_in(matcher: &mut Matcher<'_>, value: &Term) -> bool
    ensures found { (re : _) → SameCaptures (matcher_pattern matcher.old) re → IsTrue result ↔ IsFoundIn re value.now }
    ensures same { matcher_pattern matcher.new ≡ matcher_pattern matcher.old }
{
    match literal_order::str(value) {
        Some(text) => is_match(matcher, text),
        None => false,
    }
}

/// Whether the pattern matches the text of each value node; so does each that captures the same.
pub(crate) fn are_found<N: Names>(
    site: &Site<'_, N>,
    matcher: &mut Matcher<'_>,
) -> Result<Vec<bool>, AllocError>
    ensures as_many { IfOk result (λ answers. length answers.items ≡ length site.now.values) }
    ensures told { IfOk result (λ answers. (re : _) → SameCaptures (matcher_pattern matcher.old) re → AreAnswersTo (IsFoundIn re) site.now.terms site.now.values answers.items) }
    ensures same { matcher_pattern matcher.new ≡ matcher_pattern matcher.old }
{
    site.recall();
    let values = site.values();
    let mut answers = Vec::with_capacity(site.alloc(), values.len())?;
    for value in values {
        answers.push(is_found_in(matcher, site.named(*value)))?;
    }
    Ok(answers)
}

/// The results of sh:pattern (SHACL section 4.4.3): one about each value node that is blank, or whose text the
/// pattern doesn't match. The matcher searches for the parameter's text under the shape's flags.
pub fn pattern<N: Names>(
    site: &Site<'_, N>,
    matcher: &mut PatternMatcher<'_>,
) -> Result<Vec<ResultRow>, AllocError>
    ensures rows { string_value (term_at site.now.terms site.now.parameter) ≡ Some matcher.old.source
        → IfOk result (λ rows. ListsAt components.Pattern (at_values site.now) (with_flags matcher.old.flags) site.now rows.items) }
    ensures same { matcher.new ≡ matcher.old }
{
    let answers = matcher.answers(site)?;
    refused(site, Component::Pattern, &answers)
}
