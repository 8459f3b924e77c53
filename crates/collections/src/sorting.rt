//! Lists that are sorted, each item once.
ghost use Rattle.std.specs.Prelude.{IfOk};
ghost use Rattle.std.specs.List.{Contains};
ghost use Rattle.collections.specs.Listings.{IsListing};

use crate::ExactOrder;
use std::alloc::AllocError;

/// The items in their order, each once.
pub fn sorted_once<T: ExactOrder + Drop>(items: Vec<T>) -> Result<Vec<T>, AllocError>
    ensures { IfOk result (λ sorted. IsListing T.cmp (Contains items.items) sorted.items) }
{
    let mut sorted = items;
    sorted.sort()?;
    sorted.dedup();
    Ok(sorted)
}
