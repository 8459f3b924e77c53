// Value nodes that patterns match (SHACL section 4.4.3).
ghost use Rattle.std.specs.Prelude.{◌≡◌, ◌↔◌, IfOk, IsTrue, Some, is_some};
ghost use Rattle.std.specs.List.{Contains};
ghost use Rattle.literal_order.specs.Texts.{string_value};
ghost use Rattle.regex.specs.Patterns.{SameCaptures, find_str};
ghost use Rattle.regex.specs.Strings.{regex_pattern};
ghost use Rattle.shape_model.specs.ShapeSyntax.{HasProperty};
ghost use Rattle.shape_model.specs.TermTests.{IsMatched};
ghost use Rattle.shape_model.specs.Vocabulary.{ShPattern};
ghost use Rattle.shape_model.specs.declared.component.Component.TheVariants as components;
ghost use Rattle.plain_values.specs.Built.{Accepts, AreFlags, ArePatternsOf, HasSomeText, IsAccepted, IsAsked, IsBuilt, RefusedRow};
ghost use Rattle.plain_terms.specs.Finds.{Finds, WithSome};
ghost use Rattle.plain_values.specs.Around.{RowsAt};

use crate::built::BuiltPattern;
use crate::{PlainSite, row_about};
use plain_terms::{is_same, parameters};
use rdf_model::Term;
use rdf_text::Text;
use regex::Regex;
use shape_model::{Component, ResultRow};
use std::alloc::{AllocError, Global};

// Whether the regex matches some part of the text; so does each that captures the same.
fn is_match(alloc: Global, regex: &Regex, text: &str) -> Result<bool, AllocError>
    ensures { IfOk result (λ is. (re : _) → SameCaptures (regex_pattern regex.now) re → is ≡ is_some (find_str re text.now 0)) }
{
    let mut matcher = regex.matcher(alloc)?;
    Ok(matcher.is_match(text))
}

// Whether what was built matches some part of the value's text.
fn is_matched(alloc: Global, pattern: &BuiltPattern, value: &Term) -> Result<bool, AllocError>
    requires { IsBuilt pattern.now }
    ensures { IfOk result (λ is. IsTrue is ↔ IsMatched pattern.now.parameter pattern.now.flags value.now) }
{
    match literal_order::str(value) {
        Some(text) => is_match(alloc, &pattern.regex, text),
        None => Ok(false),
    }
}

// Whether it is the text of the term.
fn is_text_of(text: &Text, term: &Term) -> bool
    ensures { IsTrue result ↔ (string_value term.now ≡ Some text.now) }
{
    match literal_order::str(term) {
        Some(other) => other == text.as_str(),
        None => false,
    }
}

// Whether it is that of one of the terms.
fn is_text_of_some(text: &Text, terms: &[Term]) -> bool
    ensures { IsTrue result ↔ HasSomeText terms.now text.now }
{
    for term in terms {
        if is_text_of(text, term) {
            return true;
        }
    }
    false
}

// Whether these are the flags of a shape with these values of sh:flags.
fn are_flags(flags: &Text, values: &[Term]) -> bool
    ensures { IsTrue result ↔ AreFlags values.now flags.now }
{
    if values.is_empty() {
        return flags.as_str().is_empty();
    }
    is_text_of_some(flags, values)
}

// Whether the pattern is the one of the value of sh:pattern, under the shape's flags.
fn is_asked(pattern: &BuiltPattern, parameter: &Term, flags: &[Term]) -> bool
    ensures { IsTrue result ↔ IsAsked parameter.now flags.now pattern.now }
{
    let same = is_same(&pattern.parameter, parameter);
    let under = are_flags(&pattern.flags, flags);
    same && under
}

// Whether it is, and matches the value.
fn accepts(
    alloc: Global,
    pattern: &BuiltPattern,
    parameter: &Term,
    flags: &[Term],
    value: &Term,
) -> Result<bool, AllocError>
    requires { IsBuilt pattern.now }
    ensures { IfOk result (λ is. IsTrue is ↔ Accepts parameter.now flags.now value.now pattern.now) }
{
    if is_asked(pattern, parameter, flags) {
        return is_matched(alloc, pattern, value);
    }
    Ok(false)
}

// Whether one of the patterns does.
fn is_accepted(
    alloc: Global,
    patterns: &[BuiltPattern],
    parameter: &Term,
    flags: &[Term],
    value: &Term,
) -> Result<bool, AllocError>
    requires { (p : _) → Contains patterns.now p → IsBuilt p }
    ensures { IfOk result (λ is. IsTrue is ↔ IsAccepted patterns.now parameter.now flags.now value.now) }
{
    for pattern in patterns {
        if accepts(alloc, pattern, parameter, flags, value)? {
            return Ok(true);
        }
    }
    Ok(false)
}

// One result about each value node that none of the patterns accepts.
fn refused_rows(
    alloc: Global,
    at: &PlainSite<'_>,
    patterns: &[BuiltPattern],
    parameter: &Term,
    flags: &[Term],
) -> Result<Vec<ResultRow>, AllocError>
    requires { (p : _) → Contains patterns.now p → IsBuilt p }
    ensures { IfOk result (λ rows. Finds (WithSome at.now.values.now (RefusedRow at.now patterns.now parameter.now flags.now)) rows.items) }
{
    let mut rows = Vec::new(alloc);
    for value in at.values {
        if !is_accepted(alloc, patterns, parameter, flags, value)? {
            rows.push(row_about(at, Component::Pattern, parameter, value)?)?;
        }
    }
    Ok(rows)
}

/// The results of sh:pattern, where the patterns of the shapes graph are built.
pub fn pattern_rows(
    alloc: Global,
    at: &PlainSite<'_>,
    patterns: &[BuiltPattern],
    parameter: &Term,
) -> Result<Vec<ResultRow>, AllocError>
    requires patterns { ArePatternsOf at.now.shapes.now patterns.now }
    requires parameter { HasProperty at.now.shapes.now at.now.shape.now ShPattern parameter.now }
    ensures { IfOk result (λ rows. Finds (RowsAt at.now components.Pattern parameter.now) rows.items) }
{
    let flags = parameters(alloc, at.shapes, at.shape, "flags")?;
    let rows = refused_rows(alloc, at, patterns, parameter, flags.as_slice())?;
    Ok(rows)
}
