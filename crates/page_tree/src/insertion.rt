//! A key put into a page.
ghost use Rattle.std.specs.Prelude.{◌≡◌, ◌<◌, length, not, IfOk, MatchResult};
ghost use Rattle.collections.specs.Ordered.{with_item, has_item};
ghost use Rattle.page_tree.specs.Blocks.{AreSound, IsPlace, IsLowFor, IsAs, AreAs, width_at, height_of, most};

use crate::leaf::insert_key;
use crate::page::{Entry, MOST, Node, Page, set_low};
use crate::parts::halves;
use crate::place::{place_of, put_for_one, side_of};
use collections::ExactClone;
use std::alloc::{AllocError, Global};
use std::sync::Arc;

// The entry for a key, with room in its page: a full page is split first.
fn room_for<K: Ord + ExactClone + Drop>(
    alloc: Global,
    entries: &mut Vec<Entry<K>>,
    key: &K,
) -> Result<usize, AllocError>
    requires sound { AreSound K.cmp (height_of entries.old.items) entries.old.items }
    requires size { (0 < length entries.old.items) × (length entries.old.items < most) }
    ensures kept { AreAs K.cmp 0 entries.old.items entries.new.items }
    ensures place { IfOk result (λ at. IsPlace K.cmp key.now entries.new.items at × (width_at entries.new.items at < most)) }
{
    let at = place_of(entries, key);
    let entry = &entries[at];
    if entry.page.width() < MOST {
        return Ok(at);
    }
    let pair = halves(alloc, &entry.page)?;
    let side = side_of(&pair, key);
    put_for_one(entries, at, pair)?;
    Ok(at + side)
}

// The key as the first of a page, where it comes before the one that is.
fn new_low<K: Ord + ExactClone>(entry: &Entry<K>, key: &K) -> Result<Option<K>, AllocError>
    ensures { IfOk result (IsLowFor K.cmp key.now entry.now.low) }
{
    if key.cmp(&entry.low).is_lt() {
        return Ok(Some(key.clone()?));
    }
    Ok(None)
}

impl<K: Ord + ExactClone + Drop> Page<K> {
    /// Puts a key into a page that is not full, and says whether it is new: a key that ties with one that
    /// is there changes nothing. After an error the page has the keys that it had.
    pub fn insert(&mut self, alloc: Global, key: K) -> Result<bool, AllocError>
        requires { self.old.width < most }
        ensures { MatchResult result
            (λ added. IsAs (with_item K.cmp key self.old.keys) 0 self.old self.new × (added ≡ not (has_item K.cmp key self.old.keys)))
            (λ _. IsAs self.old.keys 0 self.old self.new) }
    {
        match &mut self.node {
            Node::Leaf(keys) => return insert_key(keys, key),
            Node::Inner(entries) => {
                let at = room_for(alloc, entries, &key)?;
                let entry = &mut entries[at];
                let low = new_low(entry, &key)?;
                let added = Arc::make_mut(&mut entry.page)?.insert(alloc, key)?;
                set_low(entry, low);
                return Ok(added);
            }
        }
    }
}
