//! The triples that match a pattern, by the order that serves it.
ghost use Rattle.std.specs.Prelude.{◌≡◌, ◌↔◌, IfOk, filter, map, true};
ghost use Rattle.std.specs.List.{Contains};
ghost use Rattle.collections.specs.Ordered.{IsAscending};
ghost use Rattle.rdf_model.specs.declared.ids.Ids.{Ids as IdsData};
ghost use Rattle.triple_index.specs.Keys.{key_cmp};
ghost use Rattle.triple_index.specs.Rotations.{by_order, from_order};
ghost use Rattle.triple_index.specs.Patterns.{IsMatch, ListsOnce, begins_with, fits_number, matches_ids};

use crate::index::Index;
use crate::key::Key;
use crate::order::Order;
use crate::prefix::Prefix;
use crate::run::keys_with;
use page_index::Pages;
use rdf_model::Ids;
use std::alloc::{AllocError, Global};

// Numbers that are asked for; `None` stands for any.
#[derive(Clone, Copy)]
pub(crate) struct Asked {
    subject: Option<u32>,
    predicate: Option<u32>,
    object: Option<u32>,
}

fn is_asked(asked: Option<u32>, number: u32) -> bool
    ensures { result ≡ fits_number asked number }
{
    match asked {
        Some(wanted) => wanted == number,
        None => true,
    }
}

impl Asked {
    fn matches(&self, triple: Ids) -> bool
        ensures { result ≡ matches_ids self.now.subject self.now.predicate self.now.object triple }
    {
        is_asked(self.subject, triple.subject)
            && is_asked(self.predicate, triple.predicate)
            && is_asked(self.object, triple.object)
    }

    // Where all that is asked for stands side by side: the order, and how its keys begin.
    fn place(&self) -> (Order, Prefix)
        ensures { (t : IdsData) → matches_ids self.now.subject self.now.predicate self.now.object t ≡ true → begins_with result.1 (by_order result.0 t) ≡ true }
    {
        match (self.subject, self.predicate, self.object) {
            (Some(subject), Some(predicate), _) => (
                Order::Subjects,
                Prefix::Two(subject, predicate),
            ),
            (Some(subject), None, _) => (Order::Subjects, Prefix::One(subject)),
            (None, Some(predicate), Some(object)) => (
                Order::Objects,
                Prefix::Two(object, predicate),
            ),
            (None, Some(predicate), None) => (Order::Predicates, Prefix::One(predicate)),
            (None, None, Some(object)) => (Order::Objects, Prefix::One(object)),
            (None, None, None) => (Order::Subjects, Prefix::All),
        }
    }
}

// The triple of a key in an order.
fn triple_of(order: Order, key: Key) -> Ids
    ensures { result ≡ from_order order key }
{
    match order {
        Order::Subjects => key.from_subject(),
        Order::Predicates => key.from_predicate(),
        Order::Objects => key.from_object(),
    }
}

// The triples of keys that are asked for.
fn all_asked(
    alloc: Global,
    order: Order,
    keys: &[Key],
    asked: Asked,
) -> Result<Vec<Ids>, AllocError>
    ensures { IfOk result (λ found. found.items ≡ filter (matches_ids asked.subject asked.predicate asked.object) (map (from_order order) keys.now)) }
{
    let mut found = Vec::new(alloc);
    for key in keys {
        let triple = triple_of(order, *key);
        if asked.matches(triple) {
            found.push(triple)?;
        }
    }
    Ok(found)
}

impl Index {
    // The keys in an order.
    fn keys_in(&self, order: Order) -> &Pages<Key>
        ensures ascending { IsAscending key_cmp result.now }
        ensures same { (t : IdsData) → Contains self.now t ↔ Contains result.now (by_order order t) }
    {
        match order {
            Order::Subjects => &self.subjects,
            Order::Predicates => &self.predicates,
            Order::Objects => &self.objects,
        }
    }

    /// The triples with these numbers at their places, where `None` stands for any number: each once, as
    /// they stand in one of the orders.
    pub fn find_pattern(
        &self,
        subject: Option<u32>,
        predicate: Option<u32>,
        object: Option<u32>,
    ) -> Result<Vec<Ids>, AllocError>
        ensures { IfOk result (λ found. ListsOnce (IsMatch subject predicate object self.now) found.items) }
    {
        let asked = Asked {
            subject,
            predicate,
            object,
        };
        let (order, prefix) = asked.place();
        let keys = keys_with(self.alloc, self.keys_in(order), prefix)?;
        Ok(all_asked(self.alloc, order, &keys, asked)?)
    }
}
