// The order in which records are fed.
ghost use Rattle.std.specs.Prelude.{◌≡◌, ◌==◌, IfOk, MatchOption, MatchResult, map};
ghost use Rattle.std.specs.List.{slice_split};
ghost use Rattle.std.specs.Io.BufRead.{strip_last};
ghost use Rattle.follow_command.specs.Order.{IsOrder, NameRecords, NamesNone, NamesRecord, RefusesOrder, RefusesPlaces};

use crate::FollowFault;
use collections::Sequence;
use std::alloc::{AllocError, Global};

// The parts between spaces.
fn parts(alloc: Global, bytes: &[u8]) -> Result<Vec<&[u8]>, AllocError>
    ensures { IfOk result (λ v. map (λ p. p.now) v.items ≡ slice_split (λ c. c == 32) bytes.now) }
{
    bytes.split(|byte| *byte == b' ').collect(alloc)
}

// The text without the LF at its end, if it has one.
fn without_end(text: &[u8]) -> &[u8]
    ensures { result.now ≡ strip_last 10 text.now }
{
    match text {
        [line @ .., b'\n'] => line,
        _ => text,
    }
}

// The number that a text writes, if it can be read, is one of so many, and is written in this one way.
fn number_in(alloc: Global, count: u64, text: &str) -> Result<Option<u64>, AllocError>
    ensures { IfOk result (λ found. MatchOption found (NamesNone count text.now) (NamesRecord count text.now)) }
{
    let Ok(number) = text.parse::<u64>() else {
        return Ok(None);
    };
    if number == 0 || number > count {
        return Ok(None);
    }
    let written = format!(in alloc; "{number}")?;
    if written.as_str() == text {
        Ok(Some(number))
    } else {
        Ok(None)
    }
}

// The number of a record that a place names, of so many.
fn number_at(alloc: Global, count: u64, place: &[u8]) -> Result<Option<u64>, AllocError>
    ensures { IfOk result (λ found. MatchOption found (NamesNone count place.now) (NamesRecord count place.now)) }
{
    match std::str::from_utf8(place) {
        Ok(text) => number_in(alloc, count, text),
        Err(_) => Ok(None),
    }
}

// The numbers that the places name, or the first that names none.
fn numbers_at(alloc: Global, count: u64, places: &[&[u8]]) -> Result<Sequence<u64>, FollowFault>
    ensures { MatchResult result (NameRecords count (map (λ p. p.now) places.now)) (RefusesPlaces count (map (λ p. p.now) places.now)) }
{
    let mut numbers = Sequence::new(alloc);
    for place in places {
        let found = number_at(alloc, count, place)?;
        let Some(number) = found else {
            return Err(FollowFault::BadOrder {
                place: numbers.len() as u64 + 1,
            });
        };
        numbers.push(number)?;
    }
    Ok(numbers)
}

/// The numbers of the records that are fed, of so many records. `BadOrder` comes exactly where the text is none.
pub(crate) fn read_order(
    alloc: Global,
    count: u64,
    text: &[u8],
) -> Result<Sequence<u64>, FollowFault>
    ensures { MatchResult result (IsOrder count text.now) (RefusesOrder count text.now) }
{
    let parts = parts(alloc, without_end(text))?;
    match parts.as_slice() {
        [word, places @ ..] if *word == b"order".as_slice() => numbers_at(alloc, count, places),
        _ => Err(FollowFault::BadOrder { place: 0 }),
    }
}
