//! The commit that overtook a transaction.
ghost use Rattle.std.specs.Prelude.{◌≡◌, ◌≤◌, ◌+◌, ◌<◌, ◌^◌, IfOk, drop, length, map};
ghost use Rattle.std.specs.List.{AllByRecursion};
ghost use Rattle.store_model.specs.Store.{overtaker_from};
ghost use Rattle.snapshot_store.specs.Kept.{HasTerms, told};

use crate::finds::FindSet;
use crate::kept::KeptCommit;
use rdf_model::Pattern;
use std::alloc::{AllocError, Global};
use store_model::Overtaker;
use term_dict::Dict;

// The first of the commits, numbered from `first` on, that changed what a find asks for.
fn first_overtaker<'a>(
    first: u64,
    finds: &FindSet<'a>,
    commits: &[KeptCommit],
) -> Result<Option<Overtaker>, AllocError>
    requires few { first + length commits.now < 2 ^ 64 }
    requires terms { AllByRecursion (HasTerms finds.now.names) commits.now }
    ensures { IfOk result (λ found. found ≡ overtaker_from first finds.now.finds (map (told finds.now.names) commits.now)) }
{
    let mut commit = first;
    for kept in commits {
        if let Some(triple) = finds.first_found(kept.changed.as_slice())? {
            return Ok(Some(Overtaker { commit, triple }));
        }
        commit += 1;
    }
    Ok(None)
}

/// The first of the commits, numbered from `first` on, that changed what a pattern asks for. Where there is none nothing is done
/// with the patterns.
pub(crate) fn overtaker_among(
    alloc: Global,
    names: &Dict,
    first: u64,
    patterns: &[Pattern],
    commits: &[KeptCommit],
) -> Result<Option<Overtaker>, AllocError>
    requires few { first + length commits.now < 2 ^ 64 }
    requires terms { AllByRecursion (HasTerms names.now.terms) commits.now }
    ensures { IfOk result (λ found. found ≡ overtaker_from first patterns.now (map (told names.now.terms) commits.now)) }
{
    if commits.is_empty() {
        return Ok(None);
    }
    let finds = FindSet::new(alloc, names, patterns)?;
    first_overtaker(first, &finds, commits)
}
