//! A sorted set of keys in shared pages.
ghost use Rattle.std.specs.Prelude.{◌≡◌, ◌<◌, [], ◌∷◌, ◌++◌, length, not, IfOk, OnOk, OnErr, MatchOption, MatchResult, None, Some, filter};
ghost use Rattle.std.specs.declared.cmp.Ordering.{Ordering};
ghost use Rattle.std.specs.Ordering.{is_lt};
ghost use Rattle.std.specs.Fn.{ComputesKey};
ghost use Rattle.collections.specs.Ordered.{IsAscending, with_item, without_item, has_item};
ghost use Rattle.page_index.specs.Reading.{IsRising, IsRun, first_reached, is_within, keys_above};
ghost use Rattle.std.specs.Arc.{arc_value};
ghost use Rattle.std.specs.Option.{option_map};
ghost use Rattle.page_index.specs.Root.{root_keys};
ghost use Rattle.page_tree.specs.Blocks.{IsRemovable, most};

use crate::iter::Iter;
use crate::levels::root_of;
use collections::ExactClone;
use page_tree::{MOST, Page, over_halves};
use std::alloc::{AllocError, Global};
use std::cmp::Ordering;
use std::marker::Model;
use std::sync::Arc;

/// A sorted set of keys, in pages that other sets may share.
///
/// Contracts see it as the list of its keys, which ascends strictly in their order.
pub struct Pages<K: Ord> {
    alloc: Global,
    root: Option<Arc<Page<K>>>,
    len: usize,
}

// Written by hand, so that what owns one calls it in place of having it written out.
impl<K: Ord + Drop> Drop for Pages<K> {
    fn drop(self) {
        let Pages {
            alloc: _,
            root: _,
            len: _,
        } = self;
    }
}

impl<K: Ord> Model for Pages<K> {
    ghost use Rattle.std.specs.Prelude.{List};
    ghost use Rattle.std.specs.Option.{option_map};
    ghost use Rattle.std.specs.Arc.{arc_value};
    ghost use Rattle.page_index.specs.Root.{root_keys, IsRoot};

    ghost Value = { List K };

    ghost view = { λ p. root_keys (option_map arc_value p.root) };

    ghost invariant = { λ p. IsRoot K.cmp p.len (option_map arc_value p.root) };
}

impl<K: Ord> Pages<K> {
    /// A set with no key. It takes no memory.
    pub fn new(alloc: Global) -> Pages<K>
        ensures { result ≡ [] }
    {
        Pages {
            alloc,
            root: None,
            len: 0,
        }
    }

    /// How many keys there are. It takes no memory.
    pub fn len(&self) -> usize
        ensures { result ≡ length self.now }
    {
        self.len
    }

    /// The first key at which the order given is not `Less`, and `None` exactly where there is none: so it
    /// is where the order computes one answer for each key, and those at which it is `Less` come first.
    pub fn seek<F: Fn(&K) -> Ordering>(&self, order: F) -> Option<&K>
        requires { F.IsAlwaysCallable order }
        ensures { (of : K → Ordering) → ComputesKey F.FnMut of order → IsRising of self.now → MatchOption result (first_reached of self.now ≡ None) (λ key. first_reached of self.now ≡ Some key.now) }
    {
        match &self.root {
            None => None,
            Some(root) => root.seek(&order),
        }
    }

    /// The keys ascend strictly. It does nothing: its contract is what the type keeps.
    pub fn recall_ascending(&self)
        ensures { IsAscending K.cmp self.now }
    {
        let _ = &self.len;
    }

    // The keys of one leaf that come first above the one given, or first of all.
    pub(crate) fn run_above(&self, last: Option<&K>) -> Option<&[K]>
        ensures run { MatchOption result (keys_above K.cmp (option_map (λ key. key.now) last.entry) self.now ≡ []) (λ run. IsRun run.now (keys_above K.cmp (option_map (λ key. key.now) last.entry) self.now)) }
        ensures ascending { IsAscending K.cmp self.now }
    {
        match &self.root {
            None => None,
            Some(root) => match last {
                None => Some(root.first_run()),
                Some(last) => Some(root.run_above(last)),
            },
        }
    }

    /// Whether a key is in the set, by the order of its type. It takes no memory.
    pub fn contains(&self, key: &K) -> bool
        ensures { result ≡ has_item K.cmp key.now self.now }
    {
        match &self.root {
            None => false,
            Some(root) => root.contains(key),
        }
    }

    /// Another set with the same keys. It copies no key, and neither set sees a later change of the
    /// other. It fails only where the owners of one page can't be counted.
    pub fn share(&self) -> Result<Pages<K>, AllocError>
        ensures { IfOk result (λ share. share ≡ self.now) }
    {
        let root = match &self.root {
            None => None,
            Some(root) => Some(Arc::try_clone(root)?),
        };
        Ok(Pages {
            alloc: self.alloc,
            root,
            len: self.len,
        })
    }
}

impl<K: Ord + ExactClone + Drop> Pages<K> {
    /// A set with clones of these keys, which ascend strictly. Its pages are built from the leaves up, in
    /// time that is linear in the keys.
    pub fn from_sorted(alloc: Global, keys: &[K]) -> Result<Pages<K>, AllocError>
        requires { IsAscending K.cmp keys.now }
        ensures { IfOk result (λ pages. pages ≡ keys.now) }
    {
        Ok(Pages {
            alloc,
            root: Some(root_of(alloc, keys)?),
            len: keys.len(),
        })
    }

    /// Puts a key into the set, and says whether it is new: a key that ties with one that is there
    /// changes nothing. It fails where no memory is left, and where no more keys can be counted; the set
    /// is then as it was.
    pub fn insert(&mut self, key: K) -> Result<bool, AllocError>
        ensures ok { OnOk result (self.new ≡ with_item K.cmp key self.old) }
        ensures added { IfOk result (λ added. added ≡ not (has_item K.cmp key self.old)) }
        ensures err { OnErr result (self.new ≡ self.old) }
    {
        if self.len == usize::MAX {
            return Err(AllocError);
        }
        let added = insert_into(self.alloc, &mut self.root, key)?;
        if added {
            self.len += 1;
        }
        Ok(added)
    }

    /// Takes a key out of the set, and says whether it was there. It may want memory, for a copy of the
    /// pages that other sets share. After an error the set is as it was.
    pub fn remove(&mut self, key: &K) -> Result<bool, AllocError>
        ensures ok { OnOk result (self.new ≡ without_item K.cmp key.now self.old) }
        ensures removed { IfOk result (λ removed. removed ≡ has_item K.cmp key.now self.old) }
        ensures err { OnErr result (self.new ≡ self.old) }
    {
        let removed = remove_from(self.alloc, &mut self.root, key)?;
        if removed {
            self.len -= 1;
        }
        Ok(removed)
    }

    /// Clones of the keys from one up to another, and without that one, in their order.
    pub fn range(&self, from: &K, to: &K) -> Result<Vec<K>, AllocError>
        ensures keys { IfOk result (λ keys. keys.items ≡ filter (is_within K.cmp from.now to.now) self.now) }
    {
        let mut keys = Vec::new(self.alloc);
        match first_from(self, from) {
            None => Ok(keys),
            Some(first) => {
                add_from(self, first, to, &mut keys)?;
                Ok(keys)
            }
        }
    }

    /// Clones of all keys, in their order.
    pub fn keys(&self) -> Result<Vec<K>, AllocError>
        ensures keys { IfOk result (λ keys. keys.items ≡ self.now) }
        ensures ascending { IsAscending K.cmp self.now }
    {
        let mut keys = Vec::with_capacity(self.alloc, self.len)?;
        for key in self.iter() {
            keys.push(key.clone()?)?;
        }
        Ok(keys)
    }
}

// Adds clones of the ascending keys up to another, and without that one.
fn add_until<K: Ord + ExactClone + Drop>(
    keys: Iter<'_, K>,
    to: &K,
    into: &mut Vec<K>,
) -> Result<(), AllocError>
    requires { IsAscending K.cmp keys }
    ensures { OnOk result (into.new.items ≡ into.old.items ++ filter (λ k. is_lt (K.cmp k to.now)) keys.entry) }
{
    for key in keys {
        if key.cmp(to).is_ge() {
            return Ok(());
        }
        into.push(key.clone()?)?;
    }
    Ok(())
}

// The first key that is not below the one given.
fn first_from<'a, K: Ord>(pages: &'a Pages<K>, from: &K) -> Option<&'a K>
    ensures { MatchOption result (first_reached (λ k. K.cmp k from.now) pages.now ≡ None) (λ key. first_reached (λ k. K.cmp k from.now) pages.now ≡ Some key.now) }
{
    pages.recall_ascending();
    pages.seek(|key| key.cmp(from))
}

// Adds clones of a key and of those above it up to another, and without that one.
fn add_from<K: Ord + ExactClone + Drop>(
    pages: &Pages<K>,
    first: &K,
    to: &K,
    into: &mut Vec<K>,
) -> Result<(), AllocError>
    ensures { OnOk result (into.new.items ≡ into.old.items ++ filter (λ k. is_lt (K.cmp k to.now)) (first.now ∷ keys_above K.cmp (Some first.now) pages.now)) }
{
    if first.cmp(to).is_ge() {
        return Ok(());
    }
    pages.recall_ascending();
    into.push(first.clone()?)?;
    add_until(pages.iter_above(first), to, into)
}

// Splits the root where it is full, so that a key has room below it.
fn room_at_root<K: Ord + ExactClone + Drop>(
    alloc: Global,
    root: &mut Arc<Page<K>>,
) -> Result<(), AllocError>
    ensures keys { (arc_value root.new).keys ≡ (arc_value root.old).keys }
    ensures room { OnOk result ((arc_value root.new).width < most) }
{
    if root.width() < MOST {
        return Ok(());
    }
    *root = Arc::new(alloc, over_halves(alloc, root)?)?;
    Ok(())
}

// Puts the one page below the root in its place, where it has but one.
fn settle_root<K: Ord + Drop>(root: &mut Arc<Page<K>>) -> Result<(), AllocError>
    ensures keys { (arc_value root.new).keys ≡ (arc_value root.old).keys }
    ensures wide { OnOk result (IsRemovable (arc_value root.new)) }
{
    let below = match root.only_below() {
        None => return Ok(()),
        Some(page) => Arc::try_clone(page)?,
    };
    *root = below;
    Ok(())
}

// Puts a key below the root, and says whether it is new.
fn insert_below<K: Ord + ExactClone + Drop>(
    alloc: Global,
    root: &mut Arc<Page<K>>,
    key: K,
) -> Result<bool, AllocError>
    ensures { MatchResult result
        (λ added. ((arc_value root.new).keys ≡ with_item K.cmp key (arc_value root.old).keys) × (added ≡ not (has_item K.cmp key (arc_value root.old).keys)))
        (λ _. (arc_value root.new).keys ≡ (arc_value root.old).keys) }
{
    room_at_root(alloc, root)?;
    Arc::make_mut(root)?.insert(alloc, key)
}

// A root with one key.
fn first_page<K: Ord + Drop>(alloc: Global, key: K) -> Result<Arc<Page<K>>, AllocError>
    ensures { IfOk result (λ root. (arc_value root).keys ≡ key ∷ []) }
{
    let mut keys = Vec::new(alloc);
    keys.push(key)?;
    Ok(Arc::new(alloc, Page::leaf(keys))?)
}

// Puts a key below a root, or makes one of it, and says whether it is new.
fn insert_into<K: Ord + ExactClone + Drop>(
    alloc: Global,
    root: &mut Option<Arc<Page<K>>>,
    key: K,
) -> Result<bool, AllocError>
    ensures { MatchResult result
        (λ added. (root_keys (option_map arc_value root.new) ≡ with_item K.cmp key (root_keys (option_map arc_value root.old))) × (added ≡ not (has_item K.cmp key (root_keys (option_map arc_value root.old)))))
        (λ _. root_keys (option_map arc_value root.new) ≡ root_keys (option_map arc_value root.old)) }
{
    match root {
        Some(root) => insert_below(alloc, root, key),
        None => {
            *root = Some(first_page(alloc, key)?);
            Ok(true)
        }
    }
}

// Takes a key out from below the root, and says whether it was there.
fn remove_below<K: Ord + ExactClone + Drop>(
    alloc: Global,
    root: &mut Arc<Page<K>>,
    key: &K,
) -> Result<bool, AllocError>
    ensures { MatchResult result
        (λ removed. ((arc_value root.new).keys ≡ without_item K.cmp key.now (arc_value root.old).keys) × (removed ≡ has_item K.cmp key.now (arc_value root.old).keys))
        (λ _. (arc_value root.new).keys ≡ (arc_value root.old).keys) }
{
    settle_root(root)?;
    Arc::make_mut(root)?.remove(alloc, key)
}

// Takes a key out from below a root, if there is one, and says whether it was there.
fn remove_from<K: Ord + ExactClone + Drop>(
    alloc: Global,
    root: &mut Option<Arc<Page<K>>>,
    key: &K,
) -> Result<bool, AllocError>
    ensures { MatchResult result
        (λ removed. (root_keys (option_map arc_value root.new) ≡ without_item K.cmp key.now (root_keys (option_map arc_value root.old))) × (removed ≡ has_item K.cmp key.now (root_keys (option_map arc_value root.old))))
        (λ _. root_keys (option_map arc_value root.new) ≡ root_keys (option_map arc_value root.old)) }
{
    match root {
        Some(root) => remove_below(alloc, root, key),
        None => Ok(false),
    }
}
