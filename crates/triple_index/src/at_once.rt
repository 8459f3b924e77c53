//! An index of a list of triples, built at once.
ghost use Rattle.std.specs.Prelude.{◌≡◌, IfOk, map};
ghost use Rattle.std.specs.List.{Contains};
ghost use Rattle.collections.specs.Listings.{IsListing};
ghost use Rattle.triple_index.specs.Keys.{ids_cmp, ids_of, key_cmp};
ghost use Rattle.triple_index.specs.Rotations.{AreKeysIn, by_order};
ghost use Rattle.triple_index.specs.Sets.{AreOne};

use crate::index::Index;
use crate::key::Key;
use crate::order::Order;
use collections::sorted_once;
use page_index::Pages;
use rdf_model::Ids;
use std::alloc::{AllocError, Global};
use std::marker::Model;

/// Triples of term numbers that are sorted in one order, each once: a third of an index.
///
/// Contracts see it as the list of its keys, which are the numbers of the triples in that order.
#[derive(Drop)]
pub struct OrderedTriples {
    keys: Pages<Key>,
}

impl Model for OrderedTriples {
    ghost use Rattle.std.specs.Prelude.{List};
    ghost use Rattle.triple_index.specs.declared.key.Key.{Key};

    ghost Value = { List Key };

    ghost view = { λ x. x.keys };
}

// The key of a triple in an order.
fn key_in(order: Order, triple: Ids) -> Key
    ensures { result ≡ by_order order triple }
{
    match order {
        Order::Subjects => Key::by_subject(triple),
        Order::Predicates => Key::by_predicate(triple),
        Order::Objects => Key::by_object(triple),
    }
}

// The keys of the triples in an order.
fn keys_of(alloc: Global, order: Order, triples: &[Ids]) -> Result<Vec<Key>, AllocError>
    ensures { IfOk result (λ keys. keys.items ≡ map (by_order order) triples.now) }
{
    let mut keys = Vec::with_capacity(alloc, triples.len())?;
    for triple in triples {
        keys.push(key_in(order, *triple))?;
    }
    Ok(keys)
}

// The triples of keys, which may stand in any order and more than once. Their pages are built at once.
fn order_of(alloc: Global, keys: Vec<Key>) -> Result<OrderedTriples, AllocError>
    ensures { IfOk result (λ order. IsListing key_cmp (Contains keys.items) order) }
{
    let keys = sorted_once(keys)?;
    Ok(OrderedTriples {
        keys: Pages::from_sorted(alloc, &keys)?,
    })
}

impl OrderedTriples {
    /// The triples of a list, which may stand in any order and more than once, sorted in an order. Their pages are
    /// built at once.
    pub fn sorted(
        alloc: Global,
        order: Order,
        triples: &[Ids],
    ) -> Result<OrderedTriples, AllocError>
        ensures { IfOk result (AreKeysIn order triples.now) }
    {
        order_of(alloc, keys_of(alloc, order, triples)?)
    }

    // As `sorted`, of a list that is let go before the pages are built.
    fn sorted_last(
        alloc: Global,
        order: Order,
        triples: Vec<Ids>,
    ) -> Result<OrderedTriples, AllocError>
        ensures { IfOk result (AreKeysIn order triples.items) }
    {
        let keys = keys_of(alloc, order, &triples)?;
        drop(triples);
        order_of(alloc, keys)
    }
}

impl Index {
    /// The set of triples that stand in these orders, of which the first is by subject, the second by predicate and the
    /// third by object. It takes no memory.
    pub fn from_orders(
        alloc: Global,
        subjects: OrderedTriples,
        predicates: OrderedTriples,
        objects: OrderedTriples,
    ) -> Index
        requires { AreOne subjects predicates objects }
        ensures { result ≡ ids_of subjects }
    {
        Index {
            alloc,
            subjects: subjects.keys,
            predicates: predicates.keys,
            objects: objects.keys,
        }
    }

    /// The set of the triples of a list, which may stand in any order and more than once. Each of its
    /// orders is sorted, and its pages are built at once.
    pub fn from_triples(alloc: Global, triples: &[Ids]) -> Result<Index, AllocError>
        ensures { IfOk result (λ index. IsListing ids_cmp (Contains triples.now) index) }
    {
        let subjects = OrderedTriples::sorted(alloc, Order::Subjects, triples)?;
        let predicates = OrderedTriples::sorted(alloc, Order::Predicates, triples)?;
        let objects = OrderedTriples::sorted(alloc, Order::Objects, triples)?;
        Ok(Index::from_orders(alloc, subjects, predicates, objects))
    }

    /// The set of the triples of a list, as `from_triples` makes it. The list is let go before the pages of the last order are
    /// built, so that they don't stand in memory beside it.
    pub fn from_list(alloc: Global, triples: Vec<Ids>) -> Result<Index, AllocError>
        ensures { IfOk result (λ index. IsListing ids_cmp (Contains triples.items) index) }
    {
        let subjects = OrderedTriples::sorted(alloc, Order::Subjects, &triples)?;
        let predicates = OrderedTriples::sorted(alloc, Order::Predicates, &triples)?;
        let objects = OrderedTriples::sorted_last(alloc, Order::Objects, triples)?;
        Ok(Index::from_orders(alloc, subjects, predicates, objects))
    }
}
