//! Paths without dot segments (RFC 3986 section 5.2.4).
ghost use Rattle.std.specs.Prelude.{◌≡◌, ◌+◌, ◌++◌, ◌<◌, OnOk, IfOk, MatchOption, length, take, drop, true, false, codes, string_bytes};
ghost use Rattle.iri_ref.specs.DotSegments;
ghost use Rattle.iri_ref.specs.DotSegments.{begins_with_segment, segment_len};

use crate::components::next_slash;
use std::alloc::{AllocError, Global};

// Where the input begins with a complete path segment, a slash and what follows the one after it.
fn after_segment<'a>(input: &'a str, segment: &str) -> Option<&'a str>
    ensures { MatchOption result (begins_with_segment input.now segment.now ≡ false)
        (λ rest. (begins_with_segment input.now segment.now ≡ true) × (rest.now ≡ codes "/" ++ drop (length segment.now + 1) input.now)) }
{
    let rest = input.strip_prefix(segment)?;
    if rest.is_empty() {
        return Some("/");
    }
    if rest.starts_with('/') {
        Some(rest)
    } else {
        None
    }
}

// Takes the last segment and the slash before it off the output.
fn remove_last_segment(output: &mut String)
    ensures { string_bytes output.new ≡ DotSegments.without_last_segment (string_bytes output.old) }
{
    let length = output.as_str().rfind('/').unwrap_or(0);
    output.truncate(length);
}

// The first path segment, with its initial slash, if any, and the rest.
fn split_segment(input: &str) -> (&str, &str)
    requires { 0 < length input.now }
    ensures segment { result.0.now ≡ take (segment_len input.now) input.now }
    ensures rest { result.1.now ≡ drop (segment_len input.now) input.now }
{
    input.split_at(1 + next_slash(&input.as_bytes()[1..]))
}

// Moves the first segment from the input to the output: it answers what is left of the input.
fn move_segment<'a>(input: &'a str, output: &mut String) -> Result<&'a str, AllocError>
    requires { 0 < length input.now }
    ensures rest { IfOk result (λ rest. rest.now ≡ drop (segment_len input.now) input.now) }
    ensures output { OnOk result (string_bytes output.new ≡ string_bytes output.old ++ take (segment_len input.now) input.now) }
{
    let (segment, rest) = split_segment(input);
    output.push_str(segment)?;
    Ok(rest)
}

// One step at the first segment of the input: it answers what is left of the input.
fn take_step<'a>(input: &'a str, output: &mut String) -> Result<&'a str, AllocError>
    requires { 0 < length input.now }
    ensures { let after = DotSegments.step (record { input = input.now; output = string_bytes output.old })
        in IfOk result (λ rest. (rest.now ≡ after.input) × (string_bytes output.new ≡ after.output)) }
{
    if let Some(rest) = input.strip_prefix("../") {
        return Ok(rest);
    }
    if let Some(rest) = input.strip_prefix("./") {
        return Ok(rest);
    }
    if let Some(rest) = after_segment(input, "/.") {
        return Ok(rest);
    }
    if let Some(rest) = after_segment(input, "/..") {
        remove_last_segment(output);
        return Ok(rest);
    }
    if input == "." || input == ".." {
        return Ok("");
    }
    move_segment(input, output)
}

// A path without its dot segments (RFC 3986 section 5.2.4).
pub(crate) fn remove_dot_segments(alloc: Global, path: &str) -> Result<String, AllocError>
    ensures { IfOk result (λ text. string_bytes text ≡ DotSegments.without_dot_segments path.now) }
{
    let mut input = path;
    let mut output = String::new(alloc);
    while !input.is_empty() {
        input = take_step(input, &mut output)?;
    }
    Ok(output)
}
