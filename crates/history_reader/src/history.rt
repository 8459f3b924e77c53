//! The places of a history's text.
ghost use Rattle.std.specs.Prelude.{◌≡◌, ◌==◌, IfOk, map};
ghost use Rattle.std.specs.List.{slice_split};
ghost use Rattle.std.specs.Io.BufRead.{strip_last};
ghost use Rattle.history_reader.specs.History;

use collections::Sequence;
use std::alloc::{AllocError, Global};

// The parts between the bytes `at`.
fn parts<'a>(alloc: Global, bytes: &'a [u8], at: u8) -> Result<Vec<&'a [u8]>, AllocError>
    ensures { IfOk result (λ v. map (λ p. p.now) v.items ≡ slice_split (λ c. c == at) bytes.entry.now) }
{
    bytes.split(|byte| *byte == at).collect(alloc)
}

// The text without the LF at its end, if it has one.
fn without_end(text: &[u8]) -> &[u8]
    ensures { result.now ≡ strip_last 10 text.now }
{
    match text {
        [line @ .., b'\n'] => line,
        _ => text,
    }
}

// The number of a session, 1 to 64, in one digit.
fn one_digit(digit: u8) -> Option<u32>
    ensures { result ≡ History.one_digit digit }
{
    if (b'1'..=b'9').contains(&digit) {
        Some((digit - b'0') as u32)
    } else {
        None
    }
}

// The number of a session, 1 to 64, in two digits, the first of which isn't zero.
fn two_digits(tens: u8, units: u8) -> Option<u32>
    ensures { result ≡ History.two_digits tens units }
{
    if !(b'1'..=b'9').contains(&tens) || !(b'0'..=b'9').contains(&units) {
        return None;
    }
    let number = (tens - b'0') as u32 * 10 + (units - b'0') as u32;
    if number <= 64 { Some(number) } else { None }
}

// The session that a place names, if it names one.
fn session_of(place: &[u8]) -> Option<u32>
    ensures { result ≡ History.session_of place.now }
{
    match place {
        [digit] => one_digit(*digit),
        [tens, units] => two_digits(*tens, *units),
        _ => None,
    }
}

fn sessions_of(alloc: Global, places: &[&[u8]]) -> Result<Sequence<Option<u32>>, AllocError>
    ensures { IfOk result (λ sessions. sessions ≡ map History.session_of (map (λ p. p.now) places.now)) }
{
    let mut sessions = Sequence::new(alloc);
    for place in places {
        sessions.push(session_of(place))?;
    }
    Ok(sessions)
}

/// The places of a history's text, in order: the session that each names, 1 to 64, or none where it is
/// no decimal of such a number. There are none at all where the text doesn't begin as a history.
pub fn read_history(alloc: Global, text: &[u8]) -> Result<Option<Sequence<Option<u32>>>, AllocError>
    ensures { IfOk result (λ history. history ≡ History.history_of text.now) }
{
    let parts = parts(alloc, without_end(text), b' ')?;
    match parts.as_slice() {
        [word, places @ ..] if *word == b"history".as_slice() => {
            Ok(Some(sessions_of(alloc, places)?))
        }
        _ => Ok(None),
    }
}
