// Lines that begin with a mark.
ghost use Rattle.std.specs.Prelude.{◌≡◌, ◌≢◌, ◌≤◌, ◌++◌, ℕ, List, MatchOption, IfOk, length};
ghost use Rattle.record_text.specs.Lines.{HasNoEnd, IsUnmarked, ended, marked};

use std::alloc::{AllocError, Global};

// The first line with its LF, and what follows it.
pub fn first_line(text: &[u8]) -> Option<(&[u8], &[u8])>
    ensures { MatchOption result ((line rest : List ℕ) → HasNoEnd line → text.now ≢ ended line ++ rest)
        (λ r. (line : List ℕ) × HasNoEnd line × (r.0.now ≡ ended line) × (text.now ≡ ended line ++ r.1.now)) }
{
    let end = text.iter().position(|byte| *byte == b'\n')?;
    Some(text.split_at(end + 1))
}

// The first line of a text without the mark with which it begins, and what follows it.
fn marked_line<'a>(mark: &[u8], text: &'a [u8]) -> Option<(&'a [u8], &'a [u8])>
    ensures { MatchOption result ((line rest : List ℕ) → HasNoEnd line → text.now ≢ marked mark.now line ++ rest)
        (λ r. (line : List ℕ) × HasNoEnd line × (r.0.now ≡ ended line) × (text.now ≡ marked mark.now line ++ r.1.now)) }
{
    match text.strip_prefix(mark) {
        Some(behind) => first_line(behind),
        None => None,
    }
}

// The lines up to the first one that doesn't begin with the mark, without their marks, and what follows
// them.
pub fn unmarked<'a>(
    alloc: Global,
    mark: &[u8],
    text: &'a [u8],
) -> Result<(Vec<u8>, &'a [u8]), AllocError>
    ensures lines { IfOk result (λ r. IsUnmarked mark.now text.now r.0.items r.1.now) }
    ensures size { IfOk result (λ r. (length r.0.items ≤ length text.now) × (length r.1.now ≤ length text.now)) }
{
    let mut lines = Vec::new(alloc);
    let mut rest = text;
    while let Some((line, next)) = marked_line(mark, rest) {
        lines.extend_from_slice(line)?;
        rest = next;
    }
    Ok((lines, rest))
}
