//! A key taken out of a page.
ghost use Rattle.std.specs.Prelude.{◌≡◌, ◌⊎◌, ◌+◌, ◌<◌, ◌≤◌, length, IfOk, MatchOption, MatchResult, None, Some};
ghost use Rattle.collections.specs.Ordered.{without_item, has_item};
ghost use Rattle.page_tree.specs.Blocks.{AreSound, IsPlace, IsLowWithout, IsAs, AreAs, width_at, height_of, second_of, IsRemovable, least, most};

use crate::leaf::remove_key;
use crate::page::{Entry, LEAST, Node, Page, set_low};
use crate::parts::merged;
use crate::place::{place_of, put_for_two, side_of};
use collections::ExactClone;
use std::alloc::{AllocError, Global};
use std::sync::Arc;

// The first of two places side by side, one of which is the one given.
fn left_of(at: usize, len: usize) -> usize
    requires { (at < len) × (2 ≤ len) }
    ensures within { result + 1 < len }
    ensures near { (at ≡ result) ⊎ (at ≡ result + 1) }
{
    if at + 1 < len { at } else { at - 1 }
}

// The entry for a key, with one to spare in its page: a page of the fewest is merged first.
fn spare_for<K: Ord + ExactClone + Drop>(
    alloc: Global,
    entries: &mut Vec<Entry<K>>,
    key: &K,
) -> Result<usize, AllocError>
    requires sound { AreSound K.cmp (height_of entries.old.items) entries.old.items }
    requires size { (2 ≤ length entries.old.items) × (length entries.old.items ≤ most) }
    ensures kept { AreAs K.cmp 1 entries.old.items entries.new.items }
    ensures place { IfOk result (λ at. IsPlace K.cmp key.now entries.new.items at × (least < width_at entries.new.items at)) }
{
    let at = place_of(entries, key);
    let entry = &entries[at];
    if entry.page.width() > LEAST {
        return Ok(at);
    }
    let first = left_of(at, entries.len());
    let (left, right) = (&entries[first], &entries[first + 1]);
    let pair = merged(alloc, &left.page, &right.page)?;
    let side = side_of(&pair, key);
    put_for_two(entries, first, pair);
    Ok(first + side)
}

// The key that will be the first of a page once a key is gone, where that is the first.
fn next_low<K: Ord + ExactClone>(entry: &Entry<K>, key: &K) -> Result<Option<K>, AllocError>
    requires { 1 < entry.now.page.width }
    ensures { IfOk result (IsLowWithout K.cmp key.now entry.now) }
{
    if key.cmp(&entry.low).is_ne() {
        return Ok(None);
    }
    match entry.page.second() {
        Some(second) => Ok(Some(second.clone()?)),
        None => unreachable!(),
    }
}

impl<K: Ord> Page<K> {
    // The second of the keys.
    fn second(&self) -> Option<&K>
        ensures value { MatchOption result (second_of self.now.keys ≡ None) (λ key. second_of self.now.keys ≡ Some key.now) }
        ensures keys { self.now.width ≤ length self.now.keys }
    {
        match &self.node {
            Node::Leaf(keys) => keys.get(1),
            Node::Inner(entries) => {
                let entry = &entries[0];
                match entry.page.second() {
                    Some(key) => Some(key),
                    None => entries.get(1).map(|entry| &entry.low),
                }
            }
        }
    }
}

impl<K: Ord + ExactClone + Drop> Page<K> {
    /// Takes a key out of a leaf, or of a page with two entries or more, and says whether it was there.
    /// After an error the page has the keys that it had.
    pub fn remove(&mut self, alloc: Global, key: &K) -> Result<bool, AllocError>
        requires { IsRemovable self.old }
        ensures { MatchResult result
            (λ removed. IsAs (without_item K.cmp key.now self.old.keys) 1 self.old self.new × (removed ≡ has_item K.cmp key.now self.old.keys))
            (λ _. IsAs self.old.keys 1 self.old self.new) }
    {
        match &mut self.node {
            Node::Leaf(keys) => return Ok(remove_key(keys, key)),
            Node::Inner(entries) => {
                let at = spare_for(alloc, entries, key)?;
                let entry = &mut entries[at];
                let low = next_low(entry, key)?;
                let removed = Arc::make_mut(&mut entry.page)?.remove(alloc, key)?;
                set_low(entry, low);
                return Ok(removed);
            }
        }
    }
}
