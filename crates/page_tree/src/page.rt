//! A page of the tree and its entries.
ghost use Rattle.std.specs.Prelude.{◌≡◌, ◌<◌, ◌≤◌, length, IfOk, MatchOption};
ghost use Rattle.page_tree.specs.Blocks.{AreSound, IsRemovable, height_of, inner_image, leaf_image, with_low, most};
ghost use Rattle.std.specs.Arc.{arc_value};
ghost use Rattle.collections.specs.Ordered.{IsAscending};

use crate::parts::add_clones;
use collections::ExactClone;
use std::alloc::{AllocError, Global};
use std::marker::Model;
use std::sync::Arc;

/// The most keys of a leaf, and the most pages below an inner page.
pub const MOST: usize = 32;

/// The fewest keys or pages of a page that is not the root.
pub(crate) const LEAST: usize = 8;

/// A page of the tree: a leaf of keys, or the pages below it.
///
/// Contracts see its keys in order, its height over the leaves, and its width: the number of its own
/// keys or entries.
#[cycle(page)]
#[derive(Drop)]
pub struct Page<K: Ord> {
    pub(crate) node: Node<K>,
}

#[cycle(page)]
#[derive(Drop)]
pub(crate) enum Node<K: Ord> {
    Leaf(Vec<K>),
    Inner(Vec<Entry<K>>),
}

/// A page below another, with the first of its keys.
#[cycle(page)]
pub struct Entry<K: Ord> {
    pub(crate) low: K,
    pub(crate) page: Arc<Page<K>>,
}

// Written by hand, so that what owns one calls it in place of having it written out.
impl<K: Ord + Drop> Drop for Entry<K> {
    #[cycle(page)]
    fn drop(self) {
        let Entry { low: _, page: _ } = self;
    }
}

impl<K: Ord> Model for Page<K> {
    ghost use Rattle.std.specs.Prelude.{◌+◌};
    ghost use Rattle.page_tree.specs.Blocks.{Image};

    ghost Value = { Image K };

    ghost use Rattle.page_tree.specs.Pages.{image_of, IsPage};

    ghost view = { λ p. image_of p.node };

    ghost invariant = { λ p. IsPage K.cmp p.node };

    ghost size = { λ d. d.height + d.height };

    ghost use Rattle.page_tree.specs.PageFalls.{page_falls};

    ghost size_decreases = { λ p h. page_falls K.Ord K.PartialEq K.PartialOrd K.cmp p.node h };
}

impl<K: Ord> Model for Entry<K> {
    ghost use Rattle.std.specs.Prelude.{◌+◌};
    ghost use Rattle.page_tree.specs.Blocks.{Block};

    ghost Value = { Block K };

    ghost use Rattle.page_tree.specs.Pages.{block_of};

    ghost view = { block_of };

    ghost size = { λ d. d.page.height + d.page.height + 1 };

    ghost use Rattle.std.proofs.Common.{arith};

    ghost size_decreases = { λ e h. Prim.omega arith };
}

impl<K: Ord> Page<K> {
    /// A leaf of these keys. It takes no memory.
    pub fn leaf(keys: Vec<K>) -> Page<K>
        requires ascending { IsAscending K.cmp keys.items }
        requires size { length keys.items ≤ most }
        ensures { result ≡ leaf_image keys.items }
    {
        Page {
            node: Node::Leaf(keys),
        }
    }

    /// A page over these entries. It takes no memory.
    pub fn over(entries: Vec<Entry<K>>) -> Page<K>
        requires sound { AreSound K.cmp (height_of entries.items) entries.items }
        requires size { (0 < length entries.items) × (length entries.items ≤ most) }
        ensures { result ≡ inner_image entries.items }
    {
        Page {
            node: Node::Inner(entries),
        }
    }

    /// How many keys or entries stand right in the page.
    pub fn width(&self) -> usize
        ensures value { result ≡ self.now.width }
        ensures most { self.now.width ≤ most }
        ensures keys { self.now.width ≤ length self.now.keys }
    {
        match &self.node {
            Node::Leaf(keys) => keys.len(),
            Node::Inner(entries) => entries.len(),
        }
    }

    /// The page below, where it is the only one.
    pub fn only_below(&self) -> Option<&Arc<Page<K>>>
        ensures { MatchOption result (IsRemovable self.now) (λ below. ((arc_value below.now).keys ≡ self.now.keys) × IsRemovable (arc_value below.now)) }
    {
        match &self.node {
            Node::Inner(entries) if entries.len() == 1 => {
                let entry = &entries[0];
                Some(&entry.page)
            }
            _ => None,
        }
    }
}

// Notes another first key, if there is one.
pub(crate) fn set_low<K: Ord + Drop>(entry: &mut Entry<K>, low: Option<K>)
    ensures { entry.new ≡ with_low entry.old low }
{
    if let Some(low) = low {
        entry.low = low;
    }
}

impl<K: Ord + ExactClone> Clone for Entry<K> {
    ghost is_clone = { λ source copy. copy ≡ source };

    fn clone(&self) -> Result<Entry<K>, AllocError> {
        Ok(Entry {
            low: self.low.clone()?,
            page: Arc::try_clone(&self.page)?,
        })
    }
}

impl<K: Ord + ExactClone> ExactClone for Entry<K> {
    ghost clone_is_equal = { λ source copy is_copy. is_copy };
}

// Clones of keys, with room for as many as a leaf may have: a leaf that is shared is cloned so that a key can be put into it.
fn copied_with_room<K: ExactClone + Drop>(keys: &Vec<K>) -> Result<Vec<K>, AllocError>
    ensures { IfOk result (λ copy. copy.items ≡ keys.now.items) }
{
    let mut copy = Vec::with_capacity(*keys.allocator(), MOST)?;
    add_clones(&mut copy, keys)?;
    Ok(copy)
}

impl<K: Ord + ExactClone + Drop> Clone for Page<K> {
    ghost is_clone = { λ source copy. copy ≡ source };

    fn clone(&self) -> Result<Page<K>, AllocError> {
        let node = match &self.node {
            Node::Leaf(keys) => Node::Leaf(copied_with_room(keys)?),
            Node::Inner(entries) => Node::Inner(entries.clone()?),
        };
        Ok(Page { node })
    }
}
