//! Lines of a text.
ghost use Rattle.std.specs.Prelude.{◌≡◌, ◌≢◌, ◌<◌, ◌++◌, [], ◌∷◌, ℕ, List, IfSome, MatchOption, length};
ghost use Rattle.record_text.specs.Lines.{HasNoEnd, ended};
ghost use Rattle.evidence_reader.specs.Finding.{IsLineBehind};

/// The first line of a text without its LF, and what follows it.
pub(crate) fn first_line(text: &[u8]) -> Option<(&[u8], &[u8])>
    ensures line { IsLineBehind [] text.now result }
    ensures shorter { IfSome result (λ r. length r.1.now < length text.now) }
{
    let end = text.iter().position(|byte| *byte == b'\n')?;
    let (line, rest) = text.split_at(end);
    Some((line, &rest[1..]))
}

/// The first line of a text behind the mark with which it begins, without its LF, and what follows it.
pub(crate) fn line_behind<'a>(mark: &[u8], text: &'a [u8]) -> Option<(&'a [u8], &'a [u8])>
    ensures line { IsLineBehind mark.now text.now result }
    ensures shorter { IfSome result (λ r. length r.1.now < length text.now) }
{
    match text.strip_prefix(mark) {
        Some(behind) => first_line(behind),
        None => None,
    }
}
