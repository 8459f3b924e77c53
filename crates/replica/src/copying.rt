// Copies of records and of answers, for the entries that have them.
ghost use Rattle.std.specs.Prelude.{◌≡◌, IfOk, OnErr};
ghost use Rattle.replica.specs.Entries.{IsMisfit};

use collections::Sequence;
use follower::Fed;
use rdf_model::Triple;
use record_text::Record;
use std::alloc::AllocError;

// The staged triples, if there are any.
fn copy_of_shapes(shapes: &Option<Sequence<Triple>>) -> Result<Option<Sequence<Triple>>, AllocError>
    ensures { IfOk result (λ copy. copy ≡ shapes.now) }
{
    match shapes {
        Some(triples) => Ok(Some(triples.clone()?)),
        None => Ok(None),
    }
}

/// A copy of a record.
pub(crate) fn copy_of_record(source: &Record) -> Result<Record, AllocError>
    ensures { IfOk result (λ copy. copy ≡ source.now) }
{
    let removed = source.removed.clone()?;
    let added = source.added.clone()?;
    let shapes = copy_of_shapes(&source.shapes)?;
    Ok(Record {
        number: source.number,
        removed,
        added,
        shapes,
    })
}

/// A copy of an answer. Only that of a misfit takes memory.
pub(crate) fn copy_of_answer(fed: &Fed) -> Result<Fed, AllocError>
    ensures ok { IfOk result (λ copy. copy ≡ fed.now) }
    ensures err { OnErr result (IsMisfit fed.now) }
{
    let copy = match fed {
        Fed::Differs { number } => Fed::Differs { number: *number },
        Fed::Known { version } => Fed::Known { version: *version },
        Fed::Window { version } => Fed::Window { version: *version },
        Fed::Full { count } => Fed::Full { count: *count },
        Fed::Waiting { version } => Fed::Waiting { version: *version },
        Fed::Misfit { number, triple } => Fed::Misfit {
            number: *number,
            triple: triple.clone()?,
        },
        Fed::Applied { version, dropped } => Fed::Applied {
            version: *version,
            dropped: *dropped,
        },
    };
    Ok(copy)
}
