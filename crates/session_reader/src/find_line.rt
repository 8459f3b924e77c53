// The line of a find.
ghost use Rattle.std.specs.Prelude.{◌≡◌, ◌<◌, ◌∷◌, IfOk, length, map, MatchOption, ⊤};
ghost use Rattle.std.specs.Option.{option_copied};
ghost use Rattle.session_reader.specs.declared.find_line.LinePlace.TheVariants as places;
ghost use Rattle.session_reader.specs.FindLine;
ghost use Rattle.session_reader.specs.Progress.{pieces_behind};

use ntriples_text::named_term;
use rdf_model::{Pattern, Term};
use std::alloc::{AllocError, Global};

/// Where a place of a line lies.
#[derive(Clone, Copy, Debug, PartialEq, Eq)]
pub enum LinePlace {
    /// In no string.
    Outside,
    /// Within a string.
    Within,
    /// Behind a backslash within a string.
    Escaped,
}

/// What a term is in a triple.
#[derive(Clone, Copy, Debug, PartialEq, Eq)]
pub enum Role {
    Subject,
    Predicate,
    Object,
}

fn is_blank(byte: u8) -> bool
    ensures { result ≡ FindLine.is_blank byte }
{
    byte == b' ' || byte == b'\t'
}

impl LinePlace {
    // The place behind a byte at this place.
    fn behind(self, byte: u8) -> LinePlace
        ensures { result ≡ FindLine.behind self byte }
    {
        match self {
            LinePlace::Outside => {
                if byte == b'"' {
                    LinePlace::Within
                } else {
                    LinePlace::Outside
                }
            }
            LinePlace::Within => {
                if byte == b'"' {
                    LinePlace::Outside
                } else if byte == b'\\' {
                    LinePlace::Escaped
                } else {
                    LinePlace::Within
                }
            }
            LinePlace::Escaped => LinePlace::Within,
        }
    }

    // Whether a byte at this place separates parts.
    fn separates(self, byte: u8) -> bool
        ensures { result ≡ FindLine.separates self byte }
    {
        match self {
            LinePlace::Outside => is_blank(byte),
            LinePlace::Within | LinePlace::Escaped => false,
        }
    }
}

// What stands before the first blank that is part of no string, and what stands behind it, if there is one.
fn split_piece(line: &[u8]) -> (&[u8], Option<&[u8]>)
    ensures pieces { FindLine.pieces places.Outside line.now ≡ result.0.now ∷ pieces_behind (option_copied result.1) }
    ensures shorter { MatchOption result.1 ⊤ (λ rest. length rest.now < length line.now) }
{
    let mut place = LinePlace::Outside;
    for (i, byte) in line.iter().enumerate() {
        if place.separates(*byte) {
            return (&line[..i], Some(&line[i + 1..]));
        }
        place = place.behind(*byte);
    }
    (line, None)
}

/// The parts of a line, which blanks separate.
pub fn parts_of(alloc: Global, line: &[u8]) -> Result<Vec<&[u8]>, AllocError>
    ensures { IfOk result (λ v. map (λ p. p.now) v.items ≡ FindLine.parts line.now) }
{
    let mut parts = Vec::new(alloc);
    let mut left = Some(line);
    while let Some(rest) = left {
        let (piece, behind) = split_piece(rest);
        if !piece.is_empty() {
            parts.push(piece)?;
        }
        left = behind;
    }
    Ok(parts)
}

impl Role {
    // Whether a term may have this role (RDF 1.1 section 3.1).
    fn may_have(self, term: &Term) -> bool
        ensures { result ≡ FindLine.may_stand self term.now }
    {
        match (self, term) {
            (Role::Subject, Term::Literal { .. }) => false,
            (Role::Subject, _) => true,
            (Role::Predicate, Term::Iri(_)) => true,
            (Role::Predicate, _) => false,
            (Role::Object, _) => true,
        }
    }

    // The term, where it may have this role.
    fn where_it_may(self, term: Option<Term>) -> Option<Option<Term>>
        ensures { result ≡ FindLine.where_it_may self term }
    {
        match term {
            Some(term) => {
                if self.may_have(&term) {
                    Some(Some(term))
                } else {
                    None
                }
            }
            None => None,
        }
    }

    /// What a part asks for in this role: any term, or this one.
    pub fn asked(self, alloc: Global, text: &[u8]) -> Result<Option<Option<Term>>, AllocError>
        ensures { IfOk result (λ part. part ≡ FindLine.asked self text.now) }
    {
        if text == b"?".as_slice() {
            return Ok(Some(None));
        }
        Ok(self.where_it_may(named_term(alloc, text)?))
    }
}

// The pattern of three parts.
fn pattern_from(
    subject: Option<Option<Term>>,
    predicate: Option<Option<Term>>,
    object: Option<Option<Term>>,
) -> Option<Pattern>
    ensures { result ≡ FindLine.pattern_from subject predicate object }
{
    match (subject, predicate, object) {
        (Some(subject), Some(predicate), Some(object)) => Some(Pattern {
            subject,
            predicate,
            object,
        }),
        _ => None,
    }
}

// The pattern of a find with these parts behind its word.
fn read_pattern(
    alloc: Global,
    subject: &[u8],
    predicate: &[u8],
    object: &[u8],
) -> Result<Option<Pattern>, AllocError>
    ensures { IfOk result (λ pattern. pattern ≡ FindLine.three_parts subject.now predicate.now object.now) }
{
    let subject = Role::Subject.asked(alloc, subject)?;
    let predicate = Role::Predicate.asked(alloc, predicate)?;
    let object = Role::Object.asked(alloc, object)?;
    Ok(pattern_from(subject, predicate, object))
}

// The pattern of a line with these parts, where it is a find.
fn pattern_of(alloc: Global, parts: &[&[u8]]) -> Result<Option<Pattern>, AllocError>
    ensures { IfOk result (λ pattern. pattern ≡ FindLine.pattern_of (map (λ p. p.now) parts.now)) }
{
    match parts {
        [word, subject, predicate, object] => {
            if *word == b"find".as_slice() {
                read_pattern(alloc, subject, predicate, object)
            } else {
                Ok(None)
            }
        }
        _ => Ok(None),
    }
}

/// Whether a line begins or ends with a blank.
pub fn has_blank_end(line: &[u8]) -> bool
    ensures { result ≡ FindLine.has_blank_end line.now }
{
    if line.is_empty() {
        return false;
    }
    is_blank(line[0]) || is_blank(line[line.len() - 1])
}

/// The triples that a line asks for, where it is a find: `find`, and three parts with blanks
/// between, each `?` or a term of N-Triples 1.1 that may stand there, with labels of the store.
pub fn find_pattern(alloc: Global, line: &[u8]) -> Result<Option<Pattern>, AllocError>
    ensures { IfOk result (λ pattern. pattern ≡ FindLine.find_of line.now) }
{
    if has_blank_end(line) {
        return Ok(None);
    }
    let parts = parts_of(alloc, line)?;
    pattern_of(alloc, &parts)
}
