//! Terms and triples by their texts.
ghost use Rattle.std.specs.Prelude.{◌≡◌, IfOk};
ghost use Rattle.rdf_model.specs.NTriples.{term_text, triple_text};
ghost use Rattle.ntriples_text.specs.Laws.{IsReadable, IsReadableIri, IsStored};
ghost use Rattle.ntriples_text.specs.Writing.{written_line};
ghost use Rattle.evidence_blocks.specs.Readable.{IsReadableTerm};
ghost use Rattle.evidence_reader.specs.Finding.{FindsAlone};

use ntriples_text::{ReadFault, read_named};
use rdf_model::{Term, Triple};
use std::alloc::{AllocError, Global};

// The triple of a line of N-Triples, with the labels of the store for its blank nodes. A line of 2^32 - 1 bytes or more counts
// as want of memory.
fn triple_of(alloc: Global, line: &[u8]) -> Result<Option<Triple>, AllocError>
    ensures { IfOk result (FindsAlone (IsReadable IsStored) written_line line.now) }
{
    if line.len() >= u32::MAX as usize {
        return Err(AllocError);
    }
    match read_named(alloc, line) {
        Ok(triples) => Ok(triples.into_vec().pop()),
        Err(ReadFault::Refusal { .. }) => Ok(None),
        Err(ReadFault::Memory) => Err(AllocError),
    }
}

/// The triple of a line, which has no LF.
pub(crate) fn line_triple(alloc: Global, line: &[u8]) -> Result<Option<Triple>, AllocError>
    ensures { IfOk result (FindsAlone (IsReadable IsStored) triple_text line.now) }
{
    let mut whole = Vec::with_capacity(alloc, line.len())?;
    whole.extend_from_slice(line)?;
    whole.extend_from_slice(b"\n")?;
    triple_of(alloc, &whole)
}

/// The term that has this text.
pub(crate) fn term_of(alloc: Global, text: &[u8]) -> Result<Option<Term>, AllocError>
    ensures { IfOk result (FindsAlone IsReadableTerm term_text text.now) }
{
    // It is read as the object of a triple.
    let mut line = Vec::with_capacity(alloc, text.len())?;
    line.extend_from_slice(b"<e:s> <e:p> ")?;
    line.extend_from_slice(text)?;
    line.extend_from_slice(b" .\n")?;
    match triple_of(alloc, &line)? {
        Some(triple) => Ok(Some(triple.object.clone()?)),
        None => Ok(None),
    }
}

/// The IRI that has this text.
pub(crate) fn iri_of(alloc: Global, text: &[u8]) -> Result<Option<Term>, AllocError>
    ensures { IfOk result (FindsAlone IsReadableIri term_text text.now) }
{
    let Some(term) = term_of(alloc, text)? else {
        return Ok(None);
    };
    match &term {
        Term::Iri(_) => Ok(Some(term)),
        _ => Ok(None),
    }
}
