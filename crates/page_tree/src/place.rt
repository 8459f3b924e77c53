//! The entry below which a key belongs.
ghost use Rattle.std.specs.Prelude.{◌≡◌, ◌+◌, ◌<◌, ◌≤◌, ◌++◌, length, take, drop, OnOk, OnErr};
ghost use Rattle.page_tree.specs.Blocks.{AreSound, IsPlace, IsSide, height_of, pair_blocks};

use crate::page::Entry;
use crate::parts::Pair;
use std::alloc::AllocError;

// The entry below which a key belongs: each key of an earlier page is below it, and each key of a
// later page above it.
pub(crate) fn place_of<K: Ord>(entries: &[Entry<K>], key: &K) -> usize
    requires sound { AreSound K.cmp (height_of entries.now) entries.now }
    requires some { 0 < length entries.now }
    ensures { IsPlace K.cmp key.now entries.now result }
{
    let after = entries.partition_point(|entry| key.cmp(&entry.low).is_ge());
    after.saturating_sub(1)
}

// On which side of a pair a key belongs.
pub(crate) fn side_of<K: Ord>(pair: &Pair<K>, key: &K) -> usize
    ensures { IsSide K.cmp key.now (pair_blocks pair.now) result }
{
    match &pair.1 {
        Some(second) if key.cmp(&second.low).is_ge() => 1,
        _ => 0,
    }
}

// Puts a pair in the place of one entry.
pub(crate) fn put_for_one<K: Ord + Drop>(
    entries: &mut Vec<Entry<K>>,
    at: usize,
    pair: Pair<K>,
) -> Result<(), AllocError>
    requires { at < length entries.old.items }
    ensures ok { OnOk result (entries.new.items ≡ take at entries.old.items ++ (pair_blocks pair ++ drop (at + 1) entries.old.items)) }
    ensures err { OnErr result (entries.new.items ≡ entries.old.items) }
{
    let (first, second) = pair;
    match second {
        Some(second) => entries.insert(at + 1, second)?,
        None => {}
    }
    entries[at] = first;
    Ok(())
}

// Puts a pair in the place of two entries.
pub(crate) fn put_for_two<K: Ord + Drop>(entries: &mut Vec<Entry<K>>, at: usize, pair: Pair<K>)
    requires { at + 1 < length entries.old.items }
    ensures { entries.new.items ≡ take at entries.old.items ++ (pair_blocks pair ++ drop (at + 2) entries.old.items) }
{
    let (first, second) = pair;
    entries[at] = first;
    match second {
        Some(second) => entries[at + 1] = second,
        None => {
            let _ = entries.remove(at + 1);
        }
    }
}
