//! The keys by which terms are compared before their texts are.
ghost use Rattle.std.specs.Prelude.{◌≡◌, ◌≤◌, ◌<◌, length};
ghost use Rattle.std.proofs.Common.{get_or};
ghost use Rattle.rdf_model.specs.Numbers.{AreNumbered};
ghost use Rattle.triple_table.specs.Keys.{AreBytes, HasBytes, packed, term_key, text_key};

use rdf_model::{Ids, Term};
use std::cmp::Ordering;

// The byte at a place, zero behind the end.
fn byte_at(bytes: &[u8], place: usize) -> u8
    ensures { result ≡ get_or bytes.now place 0 }
{
    match bytes.get(place) {
        Some(byte) => *byte,
        None => 0,
    }
}

// The number that the first eight bytes make, with zeros behind the end.
fn packed_bytes(bytes: &[u8]) -> u64
    ensures { result ≡ packed 8 0 bytes.now }
{
    let mut key = 0;
    for place in 0..8 {
        key = key * 256 + u64::from(byte_at(bytes, place));
    }
    key
}

// The key of an IRI's bytes.
fn key_behind(beginning: &[u8], bytes: &[u8]) -> u64
    ensures key { result ≡ text_key beginning.now bytes.now }
    ensures bytes { AreBytes bytes.now }
{
    let mut rest = bytes;
    for byte in beginning {
        let Some((first, others)) = rest.split_first() else {
            return 0;
        };
        match first.cmp(byte) {
            Ordering::Less => return 0,
            Ordering::Equal => rest = others,
            Ordering::Greater => return u64::MAX,
        }
    }
    packed_bytes(rest)
}

// The key of a term.
pub(crate) fn key_of(beginning: &[u8], term: &Term) -> u64
    ensures key { result ≡ term_key beginning.now term.now }
    ensures bytes { HasBytes term.now }
{
    match term {
        Term::Blank { .. } => 0,
        Term::Iri(iri) => key_behind(beginning, iri.as_str().as_bytes()),
        Term::Literal { .. } => u64::MAX,
    }
}

// How many bytes two texts share at their beginning.
fn shared_length(one: &[u8], other: &[u8]) -> usize
    ensures { result ≤ length one.now }
{
    for (place, byte) in one.iter().enumerate() {
        if byte_at(other, place) != *byte {
            return place;
        }
    }
    one.len()
}

// What two texts share at their beginning, where there are both.
fn both_share<'a>(one: Option<&'a [u8]>, other: Option<&'a [u8]>) -> Option<&'a [u8]> {
    match (one, other) {
        (Some(one), Some(other)) => Some(&one[..shared_length(one, other)]),
        (Some(one), None) => Some(one),
        (None, other) => other,
    }
}

// The bytes of the IRI that is the subject of the triple at the place.
fn subject_bytes<'a>(terms: &'a [Term], triples: &[Ids], place: usize) -> Option<&'a [u8]>
    requires numbered { AreNumbered terms.now triples.now }
    requires place { place < length triples.now }
{
    match &terms[triples[place].subject as usize] {
        Term::Iri(iri) => Some(iri.as_str().as_bytes()),
        _ => None,
    }
}

// A beginning of many subjects: what those of the first, the middle and the last triple share. Any beginning gives the same order.
pub(crate) fn beginning_of<'a>(terms: &'a [Term], triples: &[Ids]) -> &'a [u8]
    requires { AreNumbered terms.now triples.now }
{
    if triples.is_empty() {
        return &[];
    }
    let last = triples.len() - 1;
    let ends = both_share(
        subject_bytes(terms, triples, 0),
        subject_bytes(terms, triples, last),
    );
    both_share(ends, subject_bytes(terms, triples, last / 2)).unwrap_or(&[])
}
