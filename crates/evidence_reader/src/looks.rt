//! Lines of looks, each followed by those of its triples.
ghost use Rattle.std.specs.Prelude.{◌≡◌, ◌≢◌, ◌<◌, ◌≤◌, ℕ, List, Some, IfOk, IfSome, IsNone, MatchOption, length};
ghost use Rattle.rdf_model.specs.NTriples.{term_text};
ghost use Rattle.ntriples_text.specs.Laws.{IsReadable, IsReadableIri, IsStored};
ghost use Rattle.ntriples_text.specs.Writing.{written_line};
ghost use Rattle.evidence_blocks.specs.BlockText.{look_text, shown_text};
ghost use Rattle.evidence_blocks.specs.Readable.{IsReadableLook, IsReadableShown, IsReadableTerm};
ghost use Rattle.evidence_reader.specs.Finding.{Anything, Finds, FindsAll, FindsAlone, FollowsLooks, FollowsTriples, HasNo, IsReadableAny, IsReadableIn, IsReadableOut, look_words, spaced};

use crate::lines::{first_line, line_behind};
use crate::terms::{iri_of, line_triple, term_of};
use collections::Sequence;
use evidence_blocks::{ListedLook, ShownLook};
use rdf_model::{Look, Term, Triple};
use std::alloc::{AllocError, Global};

// What stands before the first space of a line, and behind it.
fn at_first_space(line: &[u8]) -> Option<(&[u8], &[u8])>
    ensures { MatchOption result ((a b : List ℕ) → HasNo 32 a → line.now ≢ spaced a b) (λ r. HasNo 32 r.0.now × (line.now ≡ spaced r.0.now r.1.now)) }
{
    let Some(at) = line.iter().position(|byte| *byte == b' ') else {
        return None;
    };
    let (before, behind) = line.split_at(at);
    Some((before, &behind[1..]))
}

// What stands before the last space of a line, and behind it.
fn at_last_space(line: &[u8]) -> Option<(&[u8], &[u8])>
    ensures { MatchOption result ((a b : List ℕ) → HasNo 32 b → line.now ≢ spaced a b) (λ r. HasNo 32 r.1.now × (line.now ≡ spaced r.0.now r.1.now)) }
{
    let mut rest = line;
    while let [before @ .., byte] = rest {
        if *byte == b' ' {
            return Some((before, &line[before.len() + 1..]));
        }
        rest = before;
    }
    None
}

// The term and the IRI that have these texts.
fn term_and_iri(alloc: Global, term: &[u8], iri: &[u8]) -> Result<Option<(Term, Term)>, AllocError>
    ensures sound { IfOk result (λ found. MatchOption found (Unit {0}) (λ r. IsReadableTerm r.0 × IsReadableIri r.1)) }
    ensures every { IfOk result (λ found. (x p : Term) → IsReadableTerm x → IsReadableIri p → term.now ≡ term_text x → iri.now ≡ term_text p → found ≡ Some (x, p)) }
{
    match (term_of(alloc, term)?, iri_of(alloc, iri)?) {
        (Some(term), Some(iri)) => Ok(Some((term, iri))),
        _ => Ok(None),
    }
}

// The look whose line is `out` and these words.
fn out_look(alloc: Global, words: &[u8]) -> Result<Option<ListedLook>, AllocError>
    ensures { IfOk result (FindsAlone IsReadableOut look_words words.now) }
{
    let Some((subject, predicate)) = at_last_space(words) else {
        return Ok(None);
    };
    match term_and_iri(alloc, subject, predicate)? {
        Some((subject, predicate)) => Ok(Some(ListedLook {
            look: Look::Out(subject, predicate),
        })),
        None => Ok(None),
    }
}

// The look whose line is `in` and these words.
fn in_look(alloc: Global, words: &[u8]) -> Result<Option<ListedLook>, AllocError>
    ensures { IfOk result (FindsAlone IsReadableIn look_words words.now) }
{
    let Some((predicate, object)) = at_first_space(words) else {
        return Ok(None);
    };
    match term_and_iri(alloc, object, predicate)? {
        Some((object, predicate)) => Ok(Some(ListedLook {
            look: Look::In(predicate, object),
        })),
        None => Ok(None),
    }
}

// The look whose line is `any` and this word.
fn any_look(alloc: Global, word: &[u8]) -> Result<Option<ListedLook>, AllocError>
    ensures { IfOk result (FindsAlone IsReadableAny look_words word.now) }
{
    match term_of(alloc, word)? {
        Some(subject) => Ok(Some(ListedLook {
            look: Look::OutAny(subject),
        })),
        None => Ok(None),
    }
}

// The look whose line is the first, `out` and two words, and what follows the line.
fn out_line<'a>(alloc: Global, text: &'a [u8]) -> Result<Option<(ListedLook, &'a [u8])>, AllocError>
    ensures look { IfOk result (Finds IsReadableOut look_text Anything text.now) }
    ensures shorter { IfOk result (λ found. IfSome found (λ r. length r.1.now < length text.now)) }
{
    let Some((words, rest)) = line_behind(b"out ", text) else {
        return Ok(None);
    };
    match out_look(alloc, words)? {
        Some(look) => Ok(Some((look, rest))),
        None => Ok(None),
    }
}

fn in_line<'a>(alloc: Global, text: &'a [u8]) -> Result<Option<(ListedLook, &'a [u8])>, AllocError>
    ensures look { IfOk result (Finds IsReadableIn look_text Anything text.now) }
    ensures shorter { IfOk result (λ found. IfSome found (λ r. length r.1.now < length text.now)) }
{
    let Some((words, rest)) = line_behind(b"in ", text) else {
        return Ok(None);
    };
    match in_look(alloc, words)? {
        Some(look) => Ok(Some((look, rest))),
        None => Ok(None),
    }
}

fn any_line<'a>(alloc: Global, text: &'a [u8]) -> Result<Option<(ListedLook, &'a [u8])>, AllocError>
    ensures look { IfOk result (Finds IsReadableAny look_text Anything text.now) }
    ensures shorter { IfOk result (λ found. IfSome found (λ r. length r.1.now < length text.now)) }
{
    let Some((word, rest)) = line_behind(b"any ", text) else {
        return Ok(None);
    };
    match any_look(alloc, word)? {
        Some(look) => Ok(Some((look, rest))),
        None => Ok(None),
    }
}

// The look of the first line, and what follows the line.
fn look_line<'a>(
    alloc: Global,
    text: &'a [u8],
) -> Result<Option<(ListedLook, &'a [u8])>, AllocError>
    ensures look { IfOk result (Finds IsReadableLook look_text Anything text.now) }
    ensures none { IfOk result (λ found. FollowsLooks text.now → IsNone found) }
    ensures shorter { IfOk result (λ found. IfSome found (λ r. length r.1.now < length text.now)) }
{
    match text {
        [b'o', ..] => out_line(alloc, text),
        [b'i', ..] => in_line(alloc, text),
        [b'a', ..] => any_line(alloc, text),
        _ => Ok(None),
    }
}

// The triple of the first line, and what follows the line.
fn triple_line<'a>(alloc: Global, text: &'a [u8]) -> Result<Option<(Triple, &'a [u8])>, AllocError>
    ensures triple { IfOk result (Finds (IsReadable IsStored) written_line Anything text.now) }
    ensures none { IfOk result (λ found. FollowsTriples text.now → IsNone found) }
    ensures shorter { IfOk result (λ found. IfSome found (λ r. length r.1.now < length text.now)) }
{
    let [b'<' | b'_', ..] = text else {
        return Ok(None);
    };
    let Some((line, rest)) = first_line(text) else {
        return Ok(None);
    };
    match line_triple(alloc, line)? {
        Some(triple) => Ok(Some((triple, rest))),
        None => Ok(None),
    }
}

// The triples of the first lines, and what follows these.
fn triple_lines<'a>(
    alloc: Global,
    text: &'a [u8],
) -> Result<(Sequence<Triple>, &'a [u8]), AllocError>
    ensures triples { IfOk result (λ r. FindsAll (IsReadable IsStored) written_line FollowsTriples text.now r.0 r.1.now) }
    ensures size { IfOk result (λ r. length r.1.now ≤ length text.now) }
{
    let mut triples = Sequence::new(alloc);
    let mut rest = text;
    while let Some((triple, behind)) = triple_line(alloc, rest)? {
        triples.push(triple)?;
        rest = behind;
    }
    Ok((triples, rest))
}

// The look of the first line with the triples of those behind it, and what follows these.
fn shown_look<'a>(
    alloc: Global,
    text: &'a [u8],
) -> Result<Option<(ShownLook, &'a [u8])>, AllocError>
    ensures look { IfOk result (Finds IsReadableShown shown_text FollowsTriples text.now) }
    ensures none { IfOk result (λ found. FollowsLooks text.now → IsNone found) }
    ensures shorter { IfOk result (λ found. IfSome found (λ r. length r.1.now < length text.now)) }
{
    let Some((look, behind)) = look_line(alloc, text)? else {
        return Ok(None);
    };
    let (triples, rest) = triple_lines(alloc, behind)?;
    Ok(Some((ShownLook { look, triples }, rest)))
}

/// The looks of the first lines with their triples.
pub(crate) fn look_lines(alloc: Global, text: &[u8]) -> Result<Sequence<ShownLook>, AllocError>
    ensures { IfOk result (λ looks. (rest : List ℕ) × FindsAll IsReadableShown shown_text FollowsLooks text.now looks rest) }
{
    let mut looks = Sequence::new(alloc);
    let mut rest = text;
    while let Some((look, behind)) = shown_look(alloc, rest)? {
        looks.push(look)?;
        rest = behind;
    }
    Ok(looks)
}
