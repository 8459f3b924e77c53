//! A set of triples after changes, built at once where they add its first triples.
ghost use Rattle.std.specs.Prelude.{◌≡◌, IfOk, List, MatchOption, map};
ghost use Rattle.rdf_model.specs.declared.ids.Ids.{Ids as IdsData};
ghost use Rattle.triple_index.specs.Changes.{after_ids};
ghost use Rattle.triple_index.specs.declared.change.NumberedChange.TheVariants.{Add};

use rdf_model::Ids;
use std::alloc::{AllocError, Global};
use triple_index::{Index, NumberedChange};

// The triples that the changes add; None exactly where one adds none.
fn all_added(alloc: Global, changes: &[NumberedChange]) -> Result<Option<Vec<Ids>>, AllocError>
    ensures { IfOk result (λ added. MatchOption added ((ids : List IdsData) → changes.now ≡ map Add ids → ⊥) (λ v. changes.now ≡ map Add v.items)) }
{
    let mut added = Vec::with_capacity(alloc, changes.len())?;
    for change in changes {
        match change {
            NumberedChange::Add(triple) => added.push(*triple)?,
            NumberedChange::Remove(_) => return Ok(None),
        }
    }
    Ok(Some(added))
}

// The set after the changes, one by one. It shares with the set what they leave.
fn set_after_each(index: &Index, changes: &[NumberedChange]) -> Result<Index, AllocError>
    ensures { IfOk result (λ next. next ≡ after_ids index.now changes.now) }
{
    let mut next = index.share()?;
    next.apply(changes)?;
    Ok(next)
}

/// The set after the changes. It shares with the set what they leave. Where the set has no triple and each of them adds one, its
/// pages are built at once.
pub(crate) fn set_after(
    alloc: Global,
    index: &Index,
    changes: &[NumberedChange],
) -> Result<Index, AllocError>
    ensures { IfOk result (λ next. next ≡ after_ids index.now changes.now) }
{
    if index.len() > 0 {
        return set_after_each(index, changes);
    }
    match all_added(alloc, changes)? {
        Some(added) => Ok(Index::from_list(alloc, added)?),
        None => set_after_each(index, changes),
    }
}
