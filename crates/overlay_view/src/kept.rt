//! What a set beneath has that is not removed.
ghost use Rattle.std.specs.Prelude.{◌≡◌, ◌++◌, IfOk, OnOk, filter};
ghost use Rattle.rdf_model.specs.Numbers.{AsksForOne};
ghost use Rattle.overlay_view.specs.Overlays.{is_left, triple_found, triple_of};

use rdf_model::{Ids, Look, Triples};
use std::alloc::{AllocError, Global};
use triple_index::Index;

// Whether a triple is not among the removed.
pub(crate) fn stays(removed: &Index, triple: Ids) -> bool
    ensures { result ≡ is_left removed.now triple }
{
    !removed.contains(triple)
}

// The triple in which a look finds a number.
fn found_triple(look: &Look<u32>, number: u32) -> Ids
    requires { AsksForOne look.now }
    ensures { result ≡ triple_found look.now number }
{
    match look {
        Look::Out(subject, predicate) => Ids {
            subject: *subject,
            predicate: *predicate,
            object: number,
        },
        Look::In(predicate, object) => Ids {
            subject: number,
            predicate: *predicate,
            object: *object,
        },
        Look::OutAny(_) => unreachable!(),
    }
}

// The numbers that a look still finds.
pub(crate) fn left_numbers(
    alloc: Global,
    removed: &Index,
    look: &Look<u32>,
    numbers: &[u32],
) -> Result<Vec<u32>, AllocError>
    requires { AsksForOne look.now }
    ensures { IfOk result (λ left. left.items ≡ filter (λ n. is_left removed.now (triple_found look.now n)) numbers.now) }
{
    let mut left = Vec::new(alloc);
    for number in numbers {
        if stays(removed, found_triple(look, *number)) {
            left.push(*number)?;
        }
    }
    Ok(left)
}

// The edges of a subject that are left.
pub(crate) fn left_edges(
    alloc: Global,
    removed: &Index,
    subject: u32,
    edges: &[(u32, u32)],
) -> Result<Vec<(u32, u32)>, AllocError>
    ensures { IfOk result (λ left. left.items ≡ filter (λ e. is_left removed.now (triple_of subject e.0 e.1)) edges.now) }
{
    let mut left = Vec::new(alloc);
    for (predicate, object) in edges {
        let triple = Ids {
            subject,
            predicate: *predicate,
            object: *object,
        };
        if stays(removed, triple) {
            left.push((*predicate, *object))?;
        }
    }
    Ok(left)
}

// The pairs of a predicate that are left.
pub(crate) fn left_pairs(
    alloc: Global,
    removed: &Index,
    predicate: u32,
    pairs: &[(u32, u32)],
) -> Result<Vec<(u32, u32)>, AllocError>
    ensures { IfOk result (λ left. left.items ≡ filter (λ e. is_left removed.now (triple_of e.0 predicate e.1)) pairs.now) }
{
    let mut left = Vec::new(alloc);
    for (subject, object) in pairs {
        let triple = Ids {
            subject: *subject,
            predicate,
            object: *object,
        };
        if stays(removed, triple) {
            left.push((*subject, *object))?;
        }
    }
    Ok(left)
}

// Adds the pairs at the end.
pub(crate) fn add_pairs(into: &mut Vec<(u32, u32)>, pairs: &[(u32, u32)]) -> Result<(), AllocError>
    ensures { OnOk result (into.new.items ≡ into.old.items ++ pairs.now) }
{
    for pair in pairs {
        into.push(*pair)?;
    }
    Ok(())
}
