//! Pages split and merged.
ghost use Rattle.std.specs.Prelude.{◌≡◌, [], ◌∷◌, ◌+◌, ◌<◌, ◌≤◌, ◌++◌, length, IfOk, OnOk};
ghost use Rattle.collections.specs.Ordered.{IsAscending};
ghost use Rattle.page_tree.specs.Blocks.{AreSound, AreBelow, IsParted, keys_of, height_of, pair_blocks, least, most};

use crate::page::{Entry, MOST, Node, Page};
use collections::ExactClone;
use std::alloc::{AllocError, Global};
use std::sync::Arc;

// One page in the place of one or two, or two of them.
pub(crate) type Pair<K> = (Entry<K>, Option<Entry<K>>);

// Adds clones of the items.
pub(crate) fn add_clones<T: ExactClone + Drop>(
    into: &mut Vec<T>,
    items: &[T],
) -> Result<(), AllocError>
    ensures { OnOk result (into.new.items ≡ into.old.items ++ items.now) }
{
    for item in items {
        into.push(item.clone()?)?;
    }
    Ok(())
}

// A vector of clones.
pub(crate) fn copied<T: ExactClone + Drop>(alloc: Global, items: &[T]) -> Result<Vec<T>, AllocError>
    ensures { IfOk result (λ copy. copy.items ≡ items.now) }
{
    let mut copy = Vec::with_capacity(alloc, items.len())?;
    add_clones(&mut copy, items)?;
    Ok(copy)
}

// A vector of clones of two lists, one after the other.
fn joined<T: ExactClone + Drop>(
    alloc: Global,
    first: &[T],
    second: &[T],
) -> Result<Vec<T>, AllocError>
    requires { length first.now + length second.now < 1000 }
    ensures { IfOk result (λ all. all.items ≡ first.now ++ second.now) }
{
    let mut all = Vec::with_capacity(alloc, first.len() + second.len())?;
    add_clones(&mut all, first)?;
    add_clones(&mut all, second)?;
    Ok(all)
}

// A page of its own, with its first key.
fn entry_of<K: Ord + ExactClone + Drop>(
    alloc: Global,
    low: &K,
    page: Page<K>,
) -> Result<Entry<K>, AllocError>
    ensures { IfOk result (λ entry. (entry.low ≡ low.now) × (entry.page ≡ page)) }
{
    let page = Arc::new(alloc, page)?;
    Ok(Entry {
        low: low.clone()?,
        page,
    })
}

/// A leaf of its own with clones of these keys.
pub fn leaf_entry<K: Ord + ExactClone + Drop>(
    alloc: Global,
    keys: &[K],
) -> Result<Entry<K>, AllocError>
    requires ascending { IsAscending K.cmp keys.now }
    requires size { (least ≤ length keys.now) × (length keys.now ≤ most) }
    ensures keys { IfOk result (λ entry. entry.page.keys ≡ keys.now) }
    ensures below { IfOk result (λ entry. AreBelow 1 (entry ∷ [])) }
    ensures width { IfOk result (λ entry. entry.page.width ≡ length keys.now) }
{
    let copies = copied(alloc, keys)?;
    entry_of(alloc, &keys[0], Page::leaf(copies))
}

/// A page of its own over these entries, which share their pages with it.
pub fn inner_entry<K: Ord + ExactClone + Drop>(
    alloc: Global,
    entries: &[Entry<K>],
) -> Result<Entry<K>, AllocError>
    requires sound { AreSound K.cmp (height_of entries.now) entries.now }
    requires size { (least ≤ length entries.now) × (length entries.now ≤ most) }
    ensures keys { IfOk result (λ entry. entry.page.keys ≡ keys_of entries.now) }
    ensures below { IfOk result (λ entry. AreBelow (height_of entries.now + 1) (entry ∷ [])) }
    ensures width { IfOk result (λ entry. entry.page.width ≡ length entries.now) }
{
    let first = &entries[0];
    let copies = copied(alloc, entries)?;
    entry_of(alloc, &first.low, Page::over(copies))
}

// Leaves with these keys: two of them where they would fill one.
fn leaf_pair<K: Ord + ExactClone + Drop>(alloc: Global, keys: &[K]) -> Result<Pair<K>, AllocError>
    requires ascending { IsAscending K.cmp keys.now }
    requires size { (least + least ≤ length keys.now) × (length keys.now ≤ most + least) }
    ensures { IfOk result (λ pair. IsParted K.cmp 1 keys.now (pair_blocks pair)) }
{
    if keys.len() < MOST {
        return Ok((leaf_entry(alloc, keys)?, None));
    }
    let (first, second) = keys.split_at(keys.len() / 2);
    Ok((leaf_entry(alloc, first)?, Some(leaf_entry(alloc, second)?)))
}

// Pages over these entries: two of them where they would fill one.
fn inner_pair<K: Ord + ExactClone + Drop>(
    alloc: Global,
    entries: &[Entry<K>],
) -> Result<Pair<K>, AllocError>
    requires sound { AreSound K.cmp (height_of entries.now) entries.now }
    requires size { (least + least ≤ length entries.now) × (length entries.now ≤ most + least) }
    ensures { IfOk result (λ pair. IsParted K.cmp (height_of entries.now + 1) (keys_of entries.now) (pair_blocks pair)) }
{
    if entries.len() < MOST {
        return Ok((inner_entry(alloc, entries)?, None));
    }
    let (first, second) = entries.split_at(entries.len() / 2);
    Ok((
        inner_entry(alloc, first)?,
        Some(inner_entry(alloc, second)?),
    ))
}

// The two halves of a full page.
pub(crate) fn halves<K: Ord + ExactClone + Drop>(
    alloc: Global,
    page: &Page<K>,
) -> Result<Pair<K>, AllocError>
    requires { page.now.width ≡ most }
    ensures { IfOk result (λ pair. IsParted K.cmp (page.now.height + 1) page.now.keys (pair_blocks pair)) }
{
    match &page.node {
        Node::Leaf(keys) => leaf_pair(alloc, keys),
        Node::Inner(entries) => inner_pair(alloc, entries),
    }
}

// One or two pages with the keys of two that stand side by side.
pub(crate) fn merged<K: Ord + ExactClone + Drop>(
    alloc: Global,
    left: &Page<K>,
    right: &Page<K>,
) -> Result<Pair<K>, AllocError>
    requires ascending { IsAscending K.cmp (left.now.keys ++ right.now.keys) }
    requires height { left.now.height ≡ right.now.height }
    requires size { (least + least ≤ left.now.width + right.now.width) × (left.now.width + right.now.width ≤ most + least) }
    ensures { IfOk result (λ pair. IsParted K.cmp (left.now.height + 1) (left.now.keys ++ right.now.keys) (pair_blocks pair)) }
{
    match (&left.node, &right.node) {
        (Node::Leaf(first), Node::Leaf(second)) => leaf_pair(alloc, &joined(alloc, first, second)?),
        (Node::Inner(first), Node::Inner(second)) => {
            inner_pair(alloc, &joined(alloc, first, second)?)
        }
        _ => unreachable!(),
    }
}

// A vector of the one or two.
fn pair_entries<K: Ord + Drop>(alloc: Global, pair: Pair<K>) -> Result<Vec<Entry<K>>, AllocError>
    ensures { IfOk result (λ entries. entries.items ≡ pair_blocks pair) }
{
    let (first, second) = pair;
    let mut entries = Vec::with_capacity(alloc, 2)?;
    entries.push(first)?;
    match second {
        Some(second) => entries.push(second)?,
        None => {}
    }
    Ok(entries)
}

/// A page over the two halves of a full one.
pub fn over_halves<K: Ord + ExactClone + Drop>(
    alloc: Global,
    page: &Page<K>,
) -> Result<Page<K>, AllocError>
    requires { page.now.width ≡ most }
    ensures keys { IfOk result (λ over. over.keys ≡ page.now.keys) }
    ensures room { IfOk result (λ over. over.width < most) }
{
    let pair = halves(alloc, page)?;
    let entries = pair_entries(alloc, pair)?;
    Ok(Page::over(entries))
}
