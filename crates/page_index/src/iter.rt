//! The keys of a set, page by page.
ghost use Rattle.std.specs.Prelude.{◌≡◌, [], ◌∷◌, ◌++◌, MatchOption, Some};
ghost use Rattle.std.specs.Option.{option_map};
ghost use Rattle.std.specs.Iterator.{YieldsFirstRef, item_count};
ghost use Rattle.page_index.specs.Reading.{keys_above};

use crate::pages::Pages;
use std::marker::Model;

/// The keys of a set that are left to a loop over it, in ascending order.
///
/// Contracts see it as the list of those keys.
#[derive(Drop)]
pub struct Iter<'a, K: Ord> {
    pages: &'a Pages<K>,
    // The keys left in the leaf that it came to.
    run: &'a [K],
    // The last key of that leaf.
    last: Option<&'a K>,
}

impl<'a, K: Ord> Model for Iter<'a, K> {
    ghost use Rattle.std.specs.Prelude.{List, ◌++◌};
    ghost use Rattle.std.specs.Option.{option_map};
    ghost use Rattle.page_index.specs.Reading.{keys_above};

    ghost Value = { List K };

    ghost view = { λ it. it.run.now ++ keys_above K.cmp (option_map (λ key. key.now) it.last) it.pages.now };
}

impl<K: Ord> Pages<K> {
    /// All keys, ascending, for a loop over them. Neither it nor a step of it takes memory, and a step
    /// walks down from the root only where a leaf ends.
    pub fn iter(&self) -> Iter<'_, K>
        ensures { result ≡ self.now }
    {
        Iter {
            pages: self,
            run: &[],
            last: None,
        }
    }

    /// The keys above one, ascending, for a loop over them, as `iter` gives them.
    pub fn iter_above<'a>(&'a self, key: &'a K) -> Iter<'a, K>
        ensures { result ≡ keys_above K.cmp (Some key.now) self.now }
    {
        Iter {
            pages: self,
            run: &[],
            last: Some(key),
        }
    }
}

// The first key above the one given, or of all, the keys after it in its leaf, and the last key of that leaf.
fn next_keys<'a, K: Ord>(pages: &'a Pages<K>, above: Option<&K>) -> Option<(&'a K, &'a [K], &'a K)>
    ensures { MatchOption result (keys_above K.cmp (option_map (λ key. key.now) above.entry) pages.now ≡ []) (λ found. keys_above K.cmp (option_map (λ key. key.now) above.entry) pages.now ≡ found.0.now ∷ (found.1.now ++ keys_above K.cmp (Some found.2.now) pages.now)) }
{
    let run = pages.run_above(above)?;
    let (first, rest) = run.split_first()?;
    let (last, _) = run.split_last()?;
    Some((first, rest, last))
}

impl<'a, K: Ord> Iterator for Iter<'a, K> {
    type Item = &'a K;

    ghost next_gives = { YieldsFirstRef (λ left. left) };

    ghost remaining = { item_count (λ left. left) };

    fn next(&mut self) -> Option<&'a K> {
        if let Some((key, rest)) = self.run.split_first() {
            self.run = rest;
            return Some(key);
        }
        let (key, rest, last) = next_keys(self.pages, self.last)?;
        self.run = rest;
        self.last = Some(last);
        Some(key)
    }
}
