//! Keys that stand side by side in one order.
ghost use Rattle.std.specs.Prelude.{◌≡◌, ◌∷◌, ◌++◌, IfOk, OnOk, Some, filter};
ghost use Rattle.std.specs.declared.cmp.Ordering.TheVariants.{Less};
ghost use Rattle.collections.specs.Ordered.{IsAscending};
ghost use Rattle.page_index.specs.Reading.{keys_above};
ghost use Rattle.triple_index.specs.Keys.{key_cmp};
ghost use Rattle.triple_index.specs.Patterns.{begins_with, prefix_cmp};

use crate::key::Key;
use crate::prefix::Prefix;
use page_index::Pages;
use std::alloc::{AllocError, Global};

// Adds the keys that begin so, of one that isn't below them and those above it.
fn add_from(
    pages: &Pages<Key>,
    start: &Key,
    prefix: Prefix,
    into: &mut Vec<Key>,
) -> Result<(), AllocError>
    requires ascending { IsAscending key_cmp (start.now ∷ keys_above key_cmp (Some start.now) pages.now) }
    requires reached { prefix_cmp prefix start.now ≡ Less → ⊥ }
    ensures { OnOk result (into.new.items ≡ into.old.items ++ filter (begins_with prefix) (start.now ∷ keys_above key_cmp (Some start.now) pages.now)) }
{
    if !prefix.begins(start) {
        return Ok(());
    }
    into.push(*start)?;
    for key in pages.iter_above(start) {
        if !prefix.begins(key) {
            return Ok(());
        }
        into.push(*key)?;
    }
    Ok(())
}

// The keys that begin so, ascending.
pub(crate) fn keys_with(
    alloc: Global,
    pages: &Pages<Key>,
    prefix: Prefix,
) -> Result<Vec<Key>, AllocError>
    requires { IsAscending key_cmp pages.now }
    ensures { IfOk result (λ keys. keys.items ≡ filter (begins_with prefix) pages.now) }
{
    let mut keys = Vec::new(alloc);
    match pages.seek(|key| prefix.place(key)) {
        None => Ok(keys),
        Some(start) => {
            add_from(pages, start, prefix, &mut keys)?;
            Ok(keys)
        }
    }
}
