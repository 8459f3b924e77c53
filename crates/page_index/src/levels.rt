//! Pages that are built from sorted keys, level by level from the leaves up.
ghost use Rattle.std.specs.Prelude.{◌≡◌, [], ◌+◌, ◌<◌, ◌≤◌, length, IfOk, OnOk};
ghost use Rattle.std.specs.Arc.{arc_value};
ghost use Rattle.collections.specs.Ordered.{IsAscending};
ghost use Rattle.page_tree.specs.Blocks.{AreSound, keys_of, height_of, least, most};
ghost use Rattle.page_index.specs.Levels.{AddsPages};

use collections::{ExactClone, Sequence};
use page_tree::{Entry, MOST, Page, inner_entry, leaf_entry};
use std::alloc::{AllocError, Global};
use std::sync::Arc;

// Adds one leaf with these keys.
fn add_leaf<K: Ord + ExactClone + Drop>(
    alloc: Global,
    keys: &[K],
    into: &mut Vec<Entry<K>>,
) -> Result<(), AllocError>
    requires ascending { IsAscending K.cmp keys.now }
    requires size { (least ≤ length keys.now) × (length keys.now ≤ most) }
    ensures { OnOk result (AddsPages 1 keys.now (length keys.now) into.old.items into.new.items) }
{
    into.push(leaf_entry(alloc, keys)?)?;
    Ok(())
}

// Adds one page over these entries.
fn add_inner_page<K: Ord + ExactClone + Drop>(
    alloc: Global,
    entries: &[Entry<K>],
    into: &mut Vec<Entry<K>>,
) -> Result<(), AllocError>
    requires sound { AreSound K.cmp (height_of entries.now) entries.now }
    requires size { (least ≤ length entries.now) × (length entries.now ≤ most) }
    ensures { OnOk result (AddsPages (height_of entries.now + 1) (keys_of entries.now) (length entries.now) into.old.items into.new.items) }
{
    into.push(inner_entry(alloc, entries)?)?;
    Ok(())
}

// Adds leaves with these keys, each about as wide as the others.
fn add_leaves<K: Ord + ExactClone + Drop>(
    alloc: Global,
    keys: &[K],
    into: &mut Vec<Entry<K>>,
) -> Result<(), AllocError>
    requires ascending { IsAscending K.cmp keys.now }
    requires many { least + least ≤ length keys.now }
    ensures { OnOk result (AddsPages 1 keys.now (length keys.now) into.old.items into.new.items) }
{
    if keys.len() <= MOST {
        return add_leaf(alloc, keys, into);
    }
    let (front, back) = keys.split_at(keys.len() / 2);
    add_leaves(alloc, front, into)?;
    add_leaves(alloc, back, into)
}

// Adds pages over these entries, each about as wide as the others.
fn add_inner_pages<K: Ord + ExactClone + Drop>(
    alloc: Global,
    entries: &[Entry<K>],
    into: &mut Vec<Entry<K>>,
) -> Result<(), AllocError>
    requires sound { AreSound K.cmp (height_of entries.now) entries.now }
    requires many { least + least ≤ length entries.now }
    ensures { OnOk result (AddsPages (height_of entries.now + 1) (keys_of entries.now) (length entries.now) into.old.items into.new.items) }
{
    if entries.len() <= MOST {
        return add_inner_page(alloc, entries, into);
    }
    let (front, back) = entries.split_at(entries.len() / 2);
    add_inner_pages(alloc, front, into)?;
    add_inner_pages(alloc, back, into)
}

// Leaves with these keys, side by side.
fn leaves<K: Ord + ExactClone + Drop>(
    alloc: Global,
    keys: &[K],
) -> Result<Vec<Entry<K>>, AllocError>
    requires ascending { IsAscending K.cmp keys.now }
    requires many { most < length keys.now }
    ensures { IfOk result (λ entries. AddsPages 1 keys.now (length keys.now) [] entries.items) }
{
    let mut entries = Vec::new(alloc);
    add_leaves(alloc, keys, &mut entries)?;
    Ok(entries)
}

// Pages over these entries, side by side.
fn level_above<K: Ord + ExactClone + Drop>(
    alloc: Global,
    entries: &[Entry<K>],
) -> Result<Vec<Entry<K>>, AllocError>
    requires sound { AreSound K.cmp (height_of entries.now) entries.now }
    requires many { most < length entries.now }
    ensures { IfOk result (λ above. AddsPages (height_of entries.now + 1) (keys_of entries.now) (length entries.now) [] above.items) }
{
    let mut above = Vec::new(alloc);
    add_inner_pages(alloc, entries, &mut above)?;
    Ok(above)
}

// A root over pages that stand side by side.
fn root_over<K: Ord + ExactClone + Drop>(
    alloc: Global,
    entries: Vec<Entry<K>>,
) -> Result<Arc<Page<K>>, AllocError>
    requires sound { AreSound K.cmp (height_of entries.items) entries.items }
    requires some { 0 < length entries.items }
    ensures { IfOk result (λ root. (arc_value root).keys ≡ keys_of entries.items) }
{
    let mut level = entries;
    while level.len() > MOST {
        level = level_above(alloc, &level)?;
    }
    Ok(Arc::new(alloc, Page::over(level))?)
}

// A root with these keys.
pub(crate) fn root_of<K: Ord + ExactClone + Drop>(
    alloc: Global,
    keys: &[K],
) -> Result<Arc<Page<K>>, AllocError>
    requires { IsAscending K.cmp keys.now }
    ensures { IfOk result (λ root. (arc_value root).keys ≡ keys.now) }
{
    if keys.len() <= MOST {
        let copies = Sequence::copied_from(alloc, keys)?;
        return Ok(Arc::new(alloc, Page::leaf(copies.into_vec()))?);
    }
    root_over(alloc, leaves(alloc, keys)?)
}
