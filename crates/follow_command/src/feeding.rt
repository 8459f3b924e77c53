// Records fed to a follower, and what is printed of it.
ghost use Rattle.std.specs.Prelude.{◌≡◌, ◌++◌, [], IfOk, OnOk, length, string_bytes};
ghost use Rattle.std.specs.List.{AllByRecursion};
ghost use Rattle.commit_log.specs.Format.{AreRecordsFrom};
ghost use Rattle.follower.specs.Followed.{unfed};
ghost use Rattle.follow_command.specs.Order.{IsOneOf};
ghost use Rattle.follow_command.specs.Printing.{FeedsAll, FeedsOne, FollowPrint, fed_line, served_lines, triple_lines};

use crate::triples::served_triples;
use collections::Sequence;
use follower::{AtFault, Fed, Follower};
use rdf_model::Triple;
use record_text::Record;
use std::alloc::{AllocError, Global};

// The staged triples, if there are any.
fn copy_of_shapes(shapes: &Option<Sequence<Triple>>) -> Result<Option<Sequence<Triple>>, AllocError>
    ensures { IfOk result (λ copy. copy ≡ shapes.now) }
{
    match shapes {
        Some(triples) => Ok(Some(triples.clone()?)),
        None => Ok(None),
    }
}

// A copy of a record, since one may be fed more than once.
fn copy_of_record(source: &Record) -> Result<Record, AllocError>
    ensures { IfOk result (λ copy. copy ≡ source.now) }
{
    let removed = source.removed.clone()?;
    let added = source.added.clone()?;
    let shapes = copy_of_shapes(&source.shapes)?;
    Ok(Record {
        number: source.number,
        removed,
        added,
        shapes,
    })
}

// Adds the line of an answer.
fn push_fed(text: &mut String, fed: &Fed) -> Result<(), AllocError>
    ensures { OnOk result (string_bytes text.new ≡ string_bytes text.old ++ fed_line fed.now) }
{
    match fed {
        Fed::Differs { number } => write!(text, "differs {number}\n")?,
        Fed::Known { version } => write!(text, "known {version}\n")?,
        Fed::Window { version } => write!(text, "window {version}\n")?,
        Fed::Full { count } => write!(text, "full {count}\n")?,
        Fed::Waiting { version } => write!(text, "waiting {version}\n")?,
        Fed::Misfit { number, triple: _ } => write!(text, "misfit {number}\n")?,
        Fed::Applied {
            version,
            dropped: None,
        } => write!(text, "applied {version}\n")?,
        Fed::Applied {
            version,
            dropped: Some(number),
        } => write!(text, "applied {version} misfit {number}\n")?,
    }
    Ok(())
}

// Feeds the record of a number, and adds the line of its answer.
fn feed_one(
    follower: &mut Follower,
    records: &[Record],
    number: u64,
    text: &mut String,
) -> Result<(), AllocError>
    requires numbered { AreRecordsFrom 1 records.now }
    requires within { IsOneOf (length records.now) number }
    ensures { OnOk result (FeedsOne records.now number follower.old follower.new (string_bytes text.old) (string_bytes text.new)) }
{
    let next = copy_of_record(&records[(number - 1) as usize])?;
    let fed = follower.feed(next)?;
    push_fed(text, &fed)?;
    Ok(())
}

// Feeds a new follower the records of these numbers, in their order, and adds the lines of its answers.
fn feed_all(
    follower: &mut Follower,
    records: &[Record],
    numbers: &[u64],
    text: &mut String,
) -> Result<(), AllocError>
    requires numbered { AreRecordsFrom 1 records.now }
    requires within { AllByRecursion (IsOneOf (length records.now)) numbers.now }
    requires fresh { follower.old ≡ unfed }
    requires empty { string_bytes text.old ≡ [] }
    ensures { OnOk result (FeedsAll records.now numbers.now follower.new (string_bytes text.new)) }
{
    for number in numbers {
        feed_one(follower, records, *number, text)?;
    }
    Ok(())
}

// Adds how many triples there are, and a line for each.
fn push_triples(text: &mut String, triples: &[Triple]) -> Result<(), AllocError>
    ensures { OnOk result (string_bytes text.new ≡ string_bytes text.old ++ triple_lines triples.now) }
{
    let count = triples.len();
    write!(text, "triples {count}\n")?;
    for triple in triples {
        write!(text, "{triple}\n")?;
    }
    Ok(())
}

// Adds the data graph of a version, where the follower has come to it.
fn push_served(
    alloc: Global,
    text: &mut String,
    follower: &Follower,
    version: u64,
) -> Result<(), AllocError>
    ensures { OnOk result (string_bytes text.new ≡ string_bytes text.old ++ served_lines follower.now version) }
{
    match follower.at(version) {
        Ok(served) => {
            let triples = served_triples(alloc, &served)?;
            push_triples(text, &triples)
        }
        Err(AtFault::Unserved { version: _ }) => {
            text.push_str("unserved\n")?;
            Ok(())
        }
        Err(AtFault::Memory) => Err(AllocError),
    }
}

/// What is printed of a new follower that is fed the records of these numbers, in their order, and asked for a version.
pub(crate) fn follow_records(
    alloc: Global,
    records: &[Record],
    numbers: &[u64],
    version: u64,
) -> Result<String, AllocError>
    requires numbered { AreRecordsFrom 1 records.now }
    requires within { AllByRecursion (IsOneOf (length records.now)) numbers.now }
    ensures { IfOk result (λ text. FollowPrint records.now numbers.now version (string_bytes text)) }
{
    let mut follower = Follower::new(alloc)?;
    let mut text = String::new(alloc);
    feed_all(&mut follower, records, numbers, &mut text)?;
    let newest = follower.version();
    write!(text, "version {newest}\n")?;
    push_served(alloc, &mut text, &follower, version)?;
    Ok(text)
}
