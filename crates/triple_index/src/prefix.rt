//! The first numbers of keys.
ghost use Rattle.std.specs.Prelude.{◌≡◌};
ghost use Rattle.triple_index.specs.Patterns.{begins_with, prefix_cmp};

use crate::key::Key;
use std::cmp::Ordering;

// The first numbers of keys that are asked for.
#[derive(Clone, Copy)]
pub(crate) enum Prefix {
    All,
    One(u32),
    Two(u32, u32),
}

impl Prefix {
    // How a key stands to those that are asked for.
    pub(crate) fn place(&self, key: &Key) -> Ordering
        ensures { result ≡ prefix_cmp self.now key.now }
    {
        match self {
            Prefix::All => Ordering::Equal,
            Prefix::One(first) => key.first.cmp(first),
            Prefix::Two(first, second) => key.first.cmp(first).then(key.second.cmp(second)),
        }
    }

    // Whether a key is asked for.
    pub(crate) fn begins(&self, key: &Key) -> bool
        ensures { result ≡ begins_with self.now key.now }
    {
        self.place(key).is_eq()
    }
}
