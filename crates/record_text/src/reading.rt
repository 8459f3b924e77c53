// A text read as the record that it is, or found to be none.
ghost use Rattle.std.specs.Prelude.{◌≡◌, ◌≢◌, ◌↔◌, ◌+◌, ◌++◌, ◌<◌, ◌≤◌, ◌^◌, ℕ, List, IfOk, IsTrue, MatchOption, MatchResult, IfSome, length};
ghost use Rattle.std.specs.Option.{option_copied, option_map};
ghost use Rattle.ntriples_text.specs.Writing.{written};
ghost use Rattle.record_text.specs.declared.record.Record.{Record as RecordData};
ghost use Rattle.record_text.specs.Lines.{HasNoEnd, ended};
ghost use Rattle.record_text.specs.Records.{HasReadableShapes, IsNoRecord, IsReadableGraph, IsReadableRecord, IsReadRecord, lists_text, record_text};
ghost use Rattle.record_text.specs.Sections.{AreNoLists, AreRead, AreSections, IsNothing, IsNumbered, IsOnlyOne};

use crate::lines::{first_line, unmarked};
use crate::record::Record;
use crate::writing::write_record;
use collections::Sequence;
use ntriples_text::{ReadFault, read_named};
use rdf_model::Triple;
use std::alloc::{AllocError, Global};

/// Why no record was read.
#[derive(Clone, Copy, Debug, PartialEq, Eq)]
pub enum TextFault {
    /// The text is that of no record with the number.
    NoRecord,
    /// Memory ran out.
    Memory,
}

impl From<AllocError> for TextFault {
    ghost use Rattle.record_text.specs.declared.reading.TextFault.TheVariants.{Memory};

    ghost from_gives = { λ _ fault. fault ≡ Memory };

    fn from(_: AllocError) -> TextFault {
        TextFault::Memory
    }
}

// What stands behind the first line.
fn behind_first_line(text: &[u8]) -> Option<&[u8]>
    ensures line { MatchOption result ((line rest : List ℕ) → HasNoEnd line → text.now ≢ ended line ++ rest)
        (λ rest. (line : List ℕ) × HasNoEnd line × (text.now ≡ ended line ++ rest.now)) }
    ensures size { IfSome result (λ rest. length rest.now ≤ length text.now) }
{
    let (_, rest) = first_line(text)?;
    Some(rest)
}

// The lists of a record as texts of N-Triples.
fn split_lists(alloc: Global, text: &[u8]) -> Result<(Vec<u8>, Vec<u8>, Option<&[u8]>), AllocError>
    requires { 1 + length text.now < 2 ^ 32 }
    ensures sections { IfOk result (λ s. (r : RecordData) → IsReadableRecord r → text.now ≡ lists_text r →
        AreSections r s.0.items s.1.items (option_copied s.2)) }
    ensures sizes { IfOk result (λ s. (length s.0.items ≤ length text.now) × (length s.1.items ≤ length text.now)
        × IfSome s.2 (λ rest. length rest.now ≤ length text.now)) }
{
    let (removed, rest) = unmarked(alloc, b"- ", text)?;
    let (added, rest) = unmarked(alloc, b"+ ", rest)?;
    let shapes = behind_first_line(rest);
    Ok((removed, added, shapes))
}

// The graph of a text.
fn read_graph(alloc: Global, text: &[u8]) -> Result<Sequence<Triple>, TextFault>
    requires { 1 + length text.now < 2 ^ 32 }
    ensures { MatchResult result (λ graph. IsOnlyOne IsReadableGraph written text.now graph)
        (λ fault. IsNothing IsReadableGraph written text.now fault) }
{
    match read_named(alloc, text) {
        Ok(triples) => Ok(triples),
        Err(ReadFault::Refusal { .. }) => Err(TextFault::NoRecord),
        Err(ReadFault::Memory) => Err(TextFault::Memory),
    }
}

// The shapes graph, if there is a text of one.
fn read_shapes(alloc: Global, text: Option<&[u8]>) -> Result<Option<Sequence<Triple>>, TextFault>
    requires { IfSome text (λ t. 1 + length t.now < 2 ^ 32) }
    ensures { MatchResult result (λ shapes. IsOnlyOne HasReadableShapes (option_map written) (option_copied text.entry) shapes)
        (λ fault. IsNothing HasReadableShapes (option_map written) (option_copied text.entry) fault) }
{
    match text {
        Some(text) => Ok(Some(read_graph(alloc, text)?)),
        None => Ok(None),
    }
}

// The record whose lists have these texts.
fn read_lists(
    alloc: Global,
    number: u64,
    removed: &[u8],
    added: &[u8],
    shapes: Option<&[u8]>,
) -> Result<Record, TextFault>
    requires removed { 1 + length removed.now < 2 ^ 32 }
    requires added { 1 + length added.now < 2 ^ 32 }
    requires shapes { IfSome shapes (λ t. 1 + length t.now < 2 ^ 32) }
    ensures { MatchResult result (λ r. AreRead number removed.now added.now (option_copied shapes.entry) r)
        (λ fault. AreNoLists number removed.now added.now (option_copied shapes.entry) fault) }
{
    let removed = read_graph(alloc, removed)?;
    let added = read_graph(alloc, added)?;
    let shapes = read_shapes(alloc, shapes)?;
    Ok(Record {
        number,
        removed,
        added,
        shapes,
    })
}

// The record with this number whose lists the text has, if it has those of one.
fn read_behind_number(alloc: Global, number: u64, text: &[u8]) -> Result<Record, TextFault>
    requires { 1 + length text.now < 2 ^ 32 }
    ensures { MatchResult result (λ r. IsOnlyOne (IsNumbered number) lists_text text.now r)
        (λ fault. IsNothing (IsNumbered number) lists_text text.now fault) }
{
    let (removed, added, shapes) = split_lists(alloc, text)?;
    read_lists(alloc, number, &removed, &added, shapes)
}

// Whether the record has this text.
fn has_text(alloc: Global, record: &Record, text: &[u8]) -> Result<bool, AllocError>
    ensures { IfOk result (λ has. IsTrue has ↔ (text.now ≡ record_text «record».now)) }
{
    let written = write_record(alloc, record)?;
    Ok(written.as_bytes() == text)
}

/// The record with this number that a text is, spelled as `write_record` spells it. The triples of each
/// of its lists ascend, and a text of N-Triples can give each of them.
///
/// `NoRecord` comes exactly where the text is that of no such record. A text of 2^32 - 1 bytes or more
/// counts as want of memory.
pub fn read_record(alloc: Global, number: u64, text: &[u8]) -> Result<Record, TextFault>
    ensures { MatchResult result (λ r. IsReadRecord number text.now r) (λ fault. IsNoRecord number text.now fault) }
{
    if text.len() >= u32::MAX as usize {
        return Err(TextFault::Memory);
    }
    let line = format!(in alloc; "commit {number}\n")?;
    let Some(lists) = text.strip_prefix(line.as_bytes()) else {
        return Err(TextFault::NoRecord);
    };
    let record = read_behind_number(alloc, number, lists)?;
    if has_text(alloc, &record, text)? {
        Ok(record)
    } else {
        Err(TextFault::NoRecord)
    }
}
