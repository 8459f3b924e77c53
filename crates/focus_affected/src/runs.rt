//! Items in the order of their predicates: those with one predicate stand side by side.
ghost use Rattle.std.specs.Prelude.{◌≡◌, ◌↔◌, ◌<◌, ◌≤◌, ◌-◌, drop, leb, length, ltb, take};
ghost use Rattle.std.specs.List.{Contains};
ghost use Rattle.std.specs.List.Sorted.{IsNonDecreasingBy, IsPartitionPoint};

use rdf_model::Ids;

/// An item that stands under a predicate, by its number.
pub(crate) trait UnderPredicate {
    ghost use Rattle.std.specs.Prelude.{ℕ};

    ghost under: { Self → ℕ };

    /// The number of the predicate.
    fn predicate(&self) -> u32
        ensures { result ≡ under self.now };
}

impl UnderPredicate for Ids {
    ghost under = { λ i. i.predicate };

    fn predicate(&self) -> u32 {
        self.predicate
    }
}

// How many of the items have a lower predicate.
fn count_below<T: UnderPredicate>(items: &[T], predicate: u32) -> usize
    requires { IsNonDecreasingBy T.under items.now }
    ensures bound { result ≤ length items.now }
    ensures split { IsPartitionPoint (λ (i : T). T.under i < predicate) (λ i. predicate ≤ T.under i) items.now result }
{
    items.partition_point(
        |item: &T| -> bool
            ensures { result ≡ ltb (T.under item.now) predicate }
        { item.predicate() < predicate },
    )
}

// How many of them have the predicate or a lower one.
fn count_up_to<T: UnderPredicate>(items: &[T], predicate: u32) -> usize
    requires { IsNonDecreasingBy T.under items.now }
    ensures bound { result ≤ length items.now }
    ensures split { IsPartitionPoint (λ (i : T). T.under i ≤ predicate) (λ i. predicate < T.under i) items.now result }
{
    items.partition_point(
        |item: &T| -> bool
            ensures { result ≡ leb (T.under item.now) predicate }
        { item.predicate() <= predicate },
    )
}

// The items from a place up to another.
fn part_of<T>(items: &[T], start: usize, end: usize) -> &[T]
    requires { (start ≤ end) × (end ≤ length items.now) }
    ensures { result.now ≡ take (end - start) (drop start items.now) }
{
    &items[start..end]
}

/// The items under the predicate. They are found by binary search.
pub(crate) fn with_predicate<T: UnderPredicate>(items: &[T], predicate: u32) -> &[T]
    requires { IsNonDecreasingBy T.under items.now }
    ensures { (i : T) → Contains result.now i ↔ (Contains items.now i × (T.under i ≡ predicate)) }
{
    let start = count_below(items, predicate);
    let end = count_up_to(items, predicate);
    part_of(items, start, end)
}
