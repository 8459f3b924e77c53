// The records of an image, or the one that is to blame.
ghost use Rattle.std.specs.Prelude.{◌≡◌, ◌++◌, ◌∷◌, [], ◌+◌, ◌<◌, ◌^◌, length, MatchOption, MatchResult, OnOk};
ghost use Rattle.commit_log.specs.Format.{block, header, Opens};
ghost use Rattle.commit_log.specs.Bad.{BeginsWithBlock, HasHeader, IsNext, IsNoNext, IsRead, Refuses};

use record_text::{Record, TextFault, read_record};
use std::alloc::{AllocError, Global};

const HEADER: [u8; 8] = *b"SGLOG 1\n";

/// Why an image wasn't read.
#[derive(Clone, Copy, Debug, PartialEq, Eq)]
pub enum RecordFault {
    /// The record with this number is to blame: it isn't whole, isn't spelled as records are, has
    /// another number, or no gate follows it. For 0 it is the header, or the first gate.
    BadLog(u64),
    /// Memory ran out.
    Memory,
}

impl From<AllocError> for RecordFault {
    ghost use Rattle.commit_log.specs.declared.read.RecordFault.TheVariants.{Memory};

    ghost from_gives = { λ _ fault. fault ≡ Memory };

    fn from(_: AllocError) -> RecordFault {
        RecordFault::Memory
    }
}

// What stands behind the header.
fn behind_header(image: &[u8]) -> Option<&[u8]>
    ensures { MatchOption result (HasHeader image.now → ⊥) (λ rest. image.now ≡ header ++ rest.now) }
{
    let (front, rest) = image.split_first_chunk::<8>()?;
    if *front == HEADER { Some(rest) } else { None }
}

// The text of the first block, and what stands behind it.
fn first_block(bytes: &[u8]) -> Option<(&[u8], &[u8])>
    ensures { MatchOption result (BeginsWithBlock bytes.now → ⊥)
        (λ r. (length r.0.now < 2 ^ 64) × (bytes.now ≡ block r.0.now ++ r.1.now)) }
{
    let (size, rest) = bytes.split_first_chunk::<8>()?;
    let size = u64::from_be_bytes(*size);
    if size > rest.len() as u64 {
        return None;
    }
    Some(rest.split_at(size as usize))
}

fn add(records: &mut Vec<Record>, next: Record) -> Result<(), AllocError>
    ensures { OnOk result (records.new.items ≡ records.old.items ++ next ∷ []) }
{
    records.push(next)?;
    Ok(())
}

// Adds the record of the first block, which is the next one, and gives what stands behind it.
fn read_next<'a>(
    alloc: Global,
    records: &mut Vec<Record>,
    bytes: &'a [u8],
) -> Result<&'a [u8], RecordFault>
    ensures { MatchResult result (λ rest. IsNext (length records.old.items + 1) bytes.now records.old.items records.new.items rest.now)
        (λ fault. IsNoNext (length records.old.items + 1) bytes.now fault) }
{
    let number = records.len() as u64 + 1;
    let Some((text, rest)) = first_block(bytes) else {
        return Err(RecordFault::BadLog(number));
    };
    match read_record(alloc, number, text) {
        Ok(next) => {
            add(records, next)?;
            Ok(rest)
        }
        Err(TextFault::NoRecord) => Err(RecordFault::BadLog(number)),
        Err(TextFault::Memory) => Err(RecordFault::Memory),
    }
}

// The records of an image, and the place of its closed gate.
pub(crate) fn read_log(alloc: Global, image: &[u8]) -> Result<(Vec<Record>, usize), RecordFault>
    ensures { MatchResult result (λ r. IsRead image.now r.0.items r.1) (λ fault. Refuses image.now fault) }
{
    let mut records: Vec<Record> = Vec::new(alloc);
    let Some(mut rest) = behind_header(image) else {
        return Err(RecordFault::BadLog(0));
    };
    while let [gate, behind @ ..] = rest {
        if *gate == 0 {
            let end = image.len() - rest.len();
            return Ok((records, end));
        }
        match read_next(alloc, &mut records, behind) {
            Ok(next) => rest = next,
            Err(fault) => return Err(fault),
        }
    }
    Err(RecordFault::BadLog(records.len() as u64))
}

/// The records of an image, which is a log of them and of no other.
///
/// `BadLog` comes exactly where the image is no log, with the number of the record that is to blame. A
/// record whose text has 2^32 - 1 bytes or more counts as want of memory.
pub fn read_records(alloc: Global, image: &[u8]) -> Result<Vec<Record>, RecordFault>
    ensures { MatchResult result (λ records. Opens image.now records.items) (λ fault. Refuses image.now fault) }
{
    let (records, _) = read_log(alloc, image)?;
    Ok(records)
}
