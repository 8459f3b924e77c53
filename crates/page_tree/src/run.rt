//! Keys side by side in one leaf.
ghost use Rattle.std.specs.Prelude.{◌≡◌, Some};
ghost use Rattle.collections.specs.Ordered.{IsAscending};
ghost use Rattle.page_tree.specs.Reading.{IsRun, keys_above};

use crate::page::{Node, Page};
use crate::place::place_of;

// The keys of a leaf above another.
fn leaf_above<'a, K: Ord>(keys: &'a [K], key: &K) -> &'a [K]
    requires { IsAscending K.cmp keys.now }
    ensures { result.now ≡ keys_above K.cmp (Some key.now) keys.now }
{
    let after = keys.partition_point(|other| other.cmp(key).is_le());
    &keys[after..]
}

impl<K: Ord> Page<K> {
    /// The keys of the first leaf.
    pub fn first_run(&self) -> &[K]
        ensures { IsRun result.now self.now.keys }
    {
        match &self.node {
            Node::Leaf(keys) => keys,
            Node::Inner(entries) => {
                let entry = &entries[0];
                entry.page.first_run()
            }
        }
    }

    /// The keys of one leaf that come first above the one given.
    pub fn run_above(&self, key: &K) -> &[K]
        ensures { IsRun result.now (keys_above K.cmp (Some key.now) self.now.keys) }
    {
        match &self.node {
            Node::Leaf(keys) => leaf_above(keys, key),
            Node::Inner(entries) => {
                let at = place_of(entries, key);
                let entry = &entries[at];
                let run = entry.page.run_above(key);
                if run.len() > 0 {
                    return run;
                }
                if at + 1 == entries.len() {
                    return run;
                }
                let entry = &entries[at + 1];
                entry.page.first_run()
            }
        }
    }
}
