//! The components of an IRI reference (RFC 3986 section 3).
ghost use Rattle.std.specs.Prelude.{◌≡◌, ◌==◌, ◌++◌, ◌<◌, ◌≤◌, OnOk, IfOk, length, position, codes, string_bytes, option_copied};
ghost use Rattle.std.specs.List.{position_or_len};
ghost use Rattle.iri_ref.specs.Components;
ghost use Rattle.iri_ref.specs.Components.{texts_of, led_by, ended_by};

use crate::scheme::has_scheme;
use std::alloc::{AllocError, Global};

/// The components of an IRI reference (RFC 3986 section 3). Each but the path may be undefined.
#[derive(Debug, Clone, Copy)]
pub struct Parts<'a> {
    pub scheme: Option<&'a str>,
    pub authority: Option<&'a str>,
    pub path: &'a str,
    pub query: Option<&'a str>,
    pub fragment: Option<&'a str>,
}

// What stands before the first mark, and what stands after it, if it is there.
fn split_at_mark(text: &str, mark: char) -> (&str, Option<&str>)
    requires { mark < 128 }
    ensures before { result.0.now ≡ Components.before mark text.now }
    ensures after { option_copied result.1 ≡ Components.after mark text.now }
{
    match text.split_once(mark) {
        Some((before, after)) => (before, Some(after)),
        None => (text, None),
    }
}

// The scheme, if there is one, and what stands after its colon.
fn split_scheme(reference: &str) -> (Option<&str>, &str)
    ensures scheme { option_copied result.0 ≡ Components.scheme_of reference.now }
    ensures rest { result.1.now ≡ Components.after_scheme reference.now }
{
    match reference.split_once(':') {
        Some((scheme, rest)) if has_scheme(reference) => (Some(scheme), rest),
        _ => (None, reference),
    }
}

// Where the first slash is, if there is one.
fn slash_position(text: &[u8]) -> Option<usize>
    ensures { result ≡ position (λ c. c == Components.slash) text.now }
{
    text.iter().position(|byte| *byte == b'/')
}

// Where the first slash is, or the length where there is none.
pub(crate) fn next_slash(text: &[u8]) -> usize
    ensures value { result ≡ position_or_len (λ c. c == Components.slash) text.now }
    ensures within { result ≤ length text.now }
{
    slash_position(text).unwrap_or(text.len())
}

// What stands before the first slash, and the text from it on.
fn split_before_slash(text: &str) -> (&str, &str)
    ensures before { result.0.now ≡ Components.before Components.slash text.now }
    ensures from { result.1.now ≡ Components.from Components.slash text.now }
{
    text.split_at(next_slash(text.as_bytes()))
}

// The authority, if there is one, and the path.
fn split_authority(part: &str) -> (Option<&str>, &str)
    ensures authority { option_copied result.0 ≡ Components.authority_of part.now }
    ensures path { result.1.now ≡ Components.path_of part.now }
{
    match part.strip_prefix("//") {
        Some(rest) => {
            let (authority, path) = split_before_slash(rest);
            (Some(authority), path)
        }
        None => (None, part),
    }
}

/// The components of an IRI reference (RFC 3986 section 3 and appendix B), as slices of it.
#[tactic(auto, unfolding(crate::specs::Components::components))]
pub fn split(reference: &str) -> Parts<'_>
    ensures { texts_of result ≡ Components.components reference.now }
{
    let (scheme, rest) = split_scheme(reference);
    let (rest, fragment) = split_at_mark(rest, '#');
    let (part, query) = split_at_mark(rest, '?');
    let (authority, path) = split_authority(part);
    Parts {
        scheme,
        authority,
        path,
        query,
        fragment,
    }
}

// Appends a component that has a delimiter before it, if it is defined.
fn push_led(text: &mut String, delimiter: &str, component: Option<&str>) -> Result<(), AllocError>
    ensures { OnOk result (string_bytes text.new ≡ string_bytes text.old ++ led_by delimiter.now (option_copied component.entry)) }
{
    if let Some(component) = component {
        text.push_str(delimiter)?;
        text.push_str(component)?;
    }
    Ok(())
}

// Appends the scheme and its colon, if it is defined.
fn push_scheme(text: &mut String, scheme: Option<&str>) -> Result<(), AllocError>
    ensures { OnOk result (string_bytes text.new ≡ string_bytes text.old ++ ended_by (codes ":") (option_copied scheme.entry)) }
{
    if let Some(scheme) = scheme {
        text.push_str(scheme)?;
        text.push_str(":")?;
    }
    Ok(())
}

// The reference that has these components (RFC 3986 section 5.3).
pub(crate) fn join(alloc: Global, parts: Parts<'_>) -> Result<String, AllocError>
    ensures { IfOk result (λ text. string_bytes text ≡ Components.joined (texts_of parts.entry)) }
{
    let mut text = String::new(alloc);
    push_scheme(&mut text, parts.scheme)?;
    push_led(&mut text, "//", parts.authority)?;
    text.push_str(parts.path)?;
    push_led(&mut text, "?", parts.query)?;
    push_led(&mut text, "#", parts.fragment)?;
    Ok(text)
}
