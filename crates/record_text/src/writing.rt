// The text of a record, written.
ghost use Rattle.std.specs.Prelude.{◌≡◌, ◌++◌, ◌+◌, ◌<◌, ◌^◌, IfOk, OnOk, length, string_bytes};
ghost use Rattle.std.specs.List.{flat_map};
ghost use Rattle.record_text.specs.Records.{marked_line, record_text, shapes_text};

use crate::record::Record;
use collections::Sequence;
use rdf_model::Triple;
use std::alloc::{AllocError, Global};

// The lines of triples, each behind a mark.
fn write_lines(text: &mut String, mark: &str, triples: &[Triple]) -> Result<(), AllocError>
    ensures { OnOk result (string_bytes text.new ≡ string_bytes text.old ++ flat_map (marked_line mark.now) triples.now) }
{
    for triple in triples {
        write!(text, "{mark}{triple}\n")?;
    }
    Ok(())
}

// The shapes graph, if there is one: how many triples it has, and their lines.
fn write_shapes(text: &mut String, shapes: &Option<Sequence<Triple>>) -> Result<(), AllocError>
    ensures { OnOk result (string_bytes text.new ≡ string_bytes text.old ++ shapes_text shapes.now) }
{
    if let Some(triples) = shapes {
        let count = triples.len();
        write!(text, "shapes {count}\n")?;
        write_lines(text, "", triples.as_slice())?;
    }
    Ok(())
}

/// The text of a record. A text of 2^32 - 1 bytes or more counts as want of memory.
pub fn write_record(alloc: Global, record: &Record) -> Result<String, AllocError>
    ensures text { IfOk result (λ text. string_bytes text ≡ record_text «record».now) }
    ensures size { IfOk result (λ text. 1 + length (string_bytes text) < 2 ^ 32) }
{
    let mut text = String::new(alloc);
    let number = record.number;
    write!(text, "commit {number}\n")?;
    write_lines(&mut text, "- ", record.removed.as_slice())?;
    write_lines(&mut text, "+ ", record.added.as_slice())?;
    write_shapes(&mut text, &record.shapes)?;
    if text.len() >= u32::MAX as usize {
        return Err(AllocError);
    }
    Ok(text)
}
