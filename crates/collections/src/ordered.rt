//! Sets as ascending vectors.
ghost use Rattle.std.specs.Prelude.{◌≡◌, ◌<◌, ◌≤◌, length, OnOk, OnErr, MatchOption, insert, remove};
ghost use Rattle.collections.specs.Ordered.{with_item, without_item, has_item};

use std::alloc::AllocError;
use std::cmp::Ordering;

// Where an item belongs, unless it is there.
fn free_place<T: Ord>(items: &[T], item: &T) -> Option<usize>
    ensures { MatchOption result (with_item T.cmp item.now items.now ≡ items.now)
        (λ at. (at ≤ length items.now) × (with_item T.cmp item.now items.now ≡ insert items.now at item.now)) }
{
    for (i, other) in items.iter().enumerate() {
        match item.cmp(other) {
            Ordering::Less => return Some(i),
            Ordering::Equal => return None,
            Ordering::Greater => {}
        }
    }
    Some(items.len())
}

// Where an item stands, if it is there.
fn taken_place<T: Ord>(items: &[T], item: &T) -> Option<usize>
    ensures { MatchOption result (without_item T.cmp item.now items.now ≡ items.now)
        (λ at. (at < length items.now) × (without_item T.cmp item.now items.now ≡ remove items.now at)) }
{
    for (i, other) in items.iter().enumerate() {
        match item.cmp(other) {
            Ordering::Less => return None,
            Ordering::Equal => return Some(i),
            Ordering::Greater => {}
        }
    }
    None
}

/// Puts an item into its place in an ascending vector, unless it is there.
pub fn insert_item<T: Ord + Drop>(items: &mut Vec<T>, item: T) -> Result<(), AllocError>
    ensures ok { OnOk result (items.new.items ≡ with_item T.cmp item items.old.items) }
    ensures err { OnErr result (items.new.items ≡ items.old.items) }
{
    if let Some(at) = free_place(items, &item) {
        items.insert(at, item)?;
    }
    Ok(())
}

/// Takes an item out of an ascending vector, if it is there.
pub fn remove_item<T: Ord + Drop>(items: &mut Vec<T>, item: &T)
    ensures { items.new.items ≡ without_item T.cmp item.now items.old.items }
{
    if let Some(at) = taken_place(items, item) {
        let _ = items.remove(at);
    }
}

/// Whether a list has an item, by the order of its type.
pub fn contains_item<T: Ord>(items: &[T], item: &T) -> bool
    ensures { result ≡ has_item T.cmp item.now items.now }
{
    items.iter().any(|other| other.cmp(item) == Ordering::Equal)
}
