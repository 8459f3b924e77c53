//! The resolution of a reference against a base (RFC 3986 section 5.2).
ghost use Rattle.std.specs.Prelude.{◌≡◌, IfOk, true, string_bytes, option_copied};
ghost use Rattle.iri_ref.specs.Scheme;
ghost use Rattle.iri_ref.specs.Components;
ghost use Rattle.iri_ref.specs.Components.{texts_of};
ghost use Rattle.iri_ref.specs.Resolution;
ghost use Rattle.iri_ref.specs.Resolution.{resolved};

use crate::components::{Parts, join, split};
use crate::dot_segments::remove_dot_segments;
use crate::scheme::has_scheme;
use rdf_text::Text;
use std::alloc::{AllocError, Global};

// A path up to and with its last slash.
fn directory(path: &str) -> &str
    ensures { result.now ≡ Resolution.directory path.now }
{
    match path.rfind('/') {
        Some(at) => &path[..at + 1],
        None => "",
    }
}

// A relative path, merged with the path of the base (RFC 3986 section 5.2.3).
fn merge(alloc: Global, base: Parts<'_>, path: &str) -> Result<String, AllocError>
    ensures { IfOk result (λ text. string_bytes text ≡ Resolution.merged (texts_of base.entry) path.now) }
{
    let start = if base.authority.is_some() && base.path.is_empty() {
        "/"
    } else {
        directory(base.path)
    };
    let mut merged = String::from_str(alloc, start)?;
    merged.push_str(path)?;
    Ok(merged)
}

// The path of the target.
fn target_path(alloc: Global, base: Parts<'_>, reference: Parts<'_>) -> Result<String, AllocError>
    ensures { IfOk result (λ text. string_bytes text ≡ Resolution.target_path (texts_of base.entry) (texts_of reference.entry)) }
{
    if reference.authority.is_some() {
        return remove_dot_segments(alloc, reference.path);
    }
    if reference.path.is_empty() {
        return String::from_str(alloc, base.path);
    }
    if reference.path.starts_with("/") {
        return remove_dot_segments(alloc, reference.path);
    }
    let merged = merge(alloc, base, reference.path)?;
    remove_dot_segments(alloc, merged.as_str())
}

// The query of the target: that of the base where the reference has neither authority, path nor query.
fn target_query<'a>(base: Parts<'a>, reference: Parts<'a>) -> Option<&'a str>
    ensures { option_copied result ≡ Resolution.target_query (texts_of base.entry) (texts_of reference.entry) }
{
    if reference.authority.is_none() && reference.path.is_empty() {
        reference.query.or(base.query)
    } else {
        reference.query
    }
}

// The target of a reference that has no scheme (RFC 3986 section 5.2.2).
fn target(alloc: Global, base: Parts<'_>, reference: Parts<'_>) -> Result<String, AllocError>
    ensures { IfOk result (λ text. string_bytes text ≡ Components.joined (Resolution.target (texts_of base.entry) (texts_of reference.entry))) }
{
    let path = target_path(alloc, base, reference)?;
    join(
        alloc,
        Parts {
            scheme: base.scheme,
            authority: reference.authority.or(base.authority),
            path: path.as_str(),
            query: target_query(base, reference),
            fragment: reference.fragment,
        },
    )
}

/// The IRI that a reference stands for, against a base that has a scheme (RFC 3986 section 5.2).
/// A reference that has a scheme is kept as it is written, dot segments too.
#[tactic(auto, unfolding(crate::specs::Resolution::resolved))]
pub fn resolve(alloc: Global, base: &str, reference: &str) -> Result<Text, AllocError>
    requires { Scheme.has_scheme base.now ≡ true }
    ensures { IfOk result (λ text. text ≡ resolved base.now reference.now) }
{
    if has_scheme(reference) {
        return Text::new(alloc, reference);
    }
    let target = target(alloc, split(base), split(reference))?;
    Text::from_string(target)
}
