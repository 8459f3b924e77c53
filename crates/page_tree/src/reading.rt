//! What is read of a page: keys, the first key that isn't less, and runs of leaves.
ghost use Rattle.std.specs.Prelude.{◌≡◌, ◌≤◌, length, drop, MatchOption, None, Some, true, false};
ghost use Rattle.std.specs.List.Sorted.{IsPartitionedBy, IsPartitionPoint};
ghost use Rattle.std.specs.Ordering.{is_lt};
ghost use Rattle.std.specs.declared.cmp.Ordering.{Ordering};
ghost use Rattle.std.specs.Fn.{ComputesKey};
ghost use Rattle.collections.specs.Ordered.{has_item};
ghost use Rattle.page_tree.specs.Blocks.{Block, AreSound, keys_of, height_of, first_of};
ghost use Rattle.page_tree.specs.Reading.{IsRising, first_reached};

use crate::page::{Entry, Node, Page};
use crate::place::place_of;
use std::cmp::Ordering;

impl<K: Ord> Page<K> {
    /// Whether a key stands in the page or below it, by the order of its type.
    pub fn contains(&self, key: &K) -> bool
        ensures { result ≡ has_item K.cmp key.now self.now.keys }
    {
        match &self.node {
            Node::Leaf(keys) => keys.binary_search(key).is_ok(),
            Node::Inner(entries) => {
                let at = place_of(entries, key);
                let entry = &entries[at];
                entry.page.contains(key)
            }
        }
    }

    /// The first key at which the order given is not `Less`, and `None` where there is none.
    pub fn seek<F: Fn(&K) -> Ordering>(&self, order: &F) -> Option<&K>
        requires { F.IsAlwaysCallable order.now }
        ensures { (of : K → Ordering) → ComputesKey F.FnMut of order.now → IsRising of self.now.keys → MatchOption result (first_reached of self.now.keys ≡ None) (λ key. first_reached of self.now.keys ≡ Some key.now) }
    {
        match &self.node {
            Node::Leaf(keys) => {
                let at = keys_before(keys, order);
                if at == keys.len() {
                    return None;
                }
                Some(&keys[at])
            }
            Node::Inner(entries) => {
                let after = lows_before(entries, order);
                let next = low_at(entries, after);
                if after == 0 {
                    return next;
                }
                let entry = &entries[after - 1];
                match entry.page.seek(order) {
                    Some(key) => Some(key),
                    None => next,
                }
            }
        }
    }
}

// How many keys come before the first at which the order is not `Less`.
fn keys_before<K, F: Fn(&K) -> Ordering>(keys: &[K], order: &F) -> usize
    requires { F.IsAlwaysCallable order.now }
    ensures bound { result ≤ length keys.now }
    ensures point { (of : K → Ordering) → ComputesKey F.FnMut of order.now → IsPartitionedBy (λ k. is_lt (of k)) keys.now → IsPartitionPoint (λ k. is_lt (of k) ≡ true) (λ k. is_lt (of k) ≡ false) keys.now result }
{
    keys.partition_point(
        |key: &K| -> bool
            requires { F.IsAlwaysCallable order.now }
            ensures value { (of : K → Ordering) → ComputesKey F.FnMut of order.entry.now → result ≡ is_lt (of key.now) }
            ensures same { order.exit ≡ order.entry }
        { order(key).is_lt() },
    )
}

// How many entries come before the first at whose first key the order is not `Less`.
fn lows_before<K: Ord, F: Fn(&K) -> Ordering>(entries: &[Entry<K>], order: &F) -> usize
    requires { F.IsAlwaysCallable order.now }
    ensures bound { result ≤ length entries.now }
    ensures point { (of : K → Ordering) → ComputesKey F.FnMut of order.now → IsPartitionedBy (λ (b : Block K). is_lt (of b.low)) entries.now → IsPartitionPoint (λ (b : Block K). is_lt (of b.low) ≡ true) (λ (b : Block K). is_lt (of b.low) ≡ false) entries.now result }
{
    entries.partition_point(
        |entry: &Entry<K>| -> bool
            requires { F.IsAlwaysCallable order.now }
            ensures value { (of : K → Ordering) → ComputesKey F.FnMut of order.entry.now → result ≡ is_lt (of entry.now.low) }
            ensures same { order.exit ≡ order.entry }
        { order(&entry.low).is_lt() },
    )
}

// The first key of an entry, where there is one.
fn low_at<K: Ord>(entries: &[Entry<K>], at: usize) -> Option<&K>
    requires sound { AreSound K.cmp (height_of entries.now) entries.now }
    requires within { at ≤ length entries.now }
    ensures { MatchOption result (first_of (keys_of (drop at entries.now)) ≡ None) (λ key. first_of (keys_of (drop at entries.now)) ≡ Some key.now) }
{
    if at == entries.len() {
        return None;
    }
    let entry = &entries[at];
    Some(&entry.low)
}
