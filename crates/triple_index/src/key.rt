//! The numbers of a triple in one of the orders.
ghost use Rattle.std.specs.Prelude.{◌≡◌};
ghost use Rattle.triple_index.specs.Keys.{by_object, by_predicate, by_subject, from_object, from_predicate, from_subject};

use collections::{ExactClone, ExactOrder};
use rdf_model::Ids;
use std::alloc::AllocError;
use std::cmp::Ordering;

/// The numbers of a triple in one of three orders, compared from the first on.
#[derive(Debug)]
pub(crate) struct Key {
    pub(crate) first: u32,
    pub(crate) second: u32,
    pub(crate) third: u32,
}

impl Key {
    // By subject, predicate, object.
    pub(crate) fn by_subject(triple: Ids) -> Key
        ensures { result ≡ by_subject triple }
    {
        Key {
            first: triple.subject,
            second: triple.predicate,
            third: triple.object,
        }
    }

    // By predicate, subject, object.
    pub(crate) fn by_predicate(triple: Ids) -> Key
        ensures { result ≡ by_predicate triple }
    {
        Key {
            first: triple.predicate,
            second: triple.subject,
            third: triple.object,
        }
    }

    // By object, predicate, subject.
    pub(crate) fn by_object(triple: Ids) -> Key
        ensures { result ≡ by_object triple }
    {
        Key {
            first: triple.object,
            second: triple.predicate,
            third: triple.subject,
        }
    }

    pub(crate) fn from_subject(self) -> Ids
        ensures { result ≡ from_subject self }
    {
        Ids {
            subject: self.first,
            predicate: self.second,
            object: self.third,
        }
    }

    pub(crate) fn from_predicate(self) -> Ids
        ensures { result ≡ from_predicate self }
    {
        Ids {
            subject: self.second,
            predicate: self.first,
            object: self.third,
        }
    }

    pub(crate) fn from_object(self) -> Ids
        ensures { result ≡ from_object self }
    {
        Ids {
            subject: self.third,
            predicate: self.second,
            object: self.first,
        }
    }
}

impl Ord for Key {
    ghost use Rattle.std.proofs.Common.{refl};
    ghost use Rattle.triple_index.specs.Keys.{key_cmp};
    ghost use Rattle.triple_index.specs.Orders.{key_total};

    ghost cmp = { key_cmp };

    ghost total = { key_total };

    ghost matches_partial_cmp = { λ x y. refl };

    ghost matches_eq = { λ x y. refl };

    fn cmp(&self, other: &Key) -> Ordering {
        self.first
            .cmp(&other.first)
            .then(self.second.cmp(&other.second))
            .then(self.third.cmp(&other.third))
    }
}

impl PartialOrd for Key {
    ghost use Rattle.std.specs.Ordering.{as_partial_cmp};
    ghost use Rattle.std.specs.Cmp.{partial_order_from_total};
    ghost use Rattle.triple_index.specs.Keys.{key_cmp};
    ghost use Rattle.triple_index.specs.Orders.{key_total};

    ghost partial_cmp = { as_partial_cmp key_cmp };

    ghost laws = { partial_order_from_total key_total };

    fn partial_cmp(&self, other: &Key) -> Option<Ordering> {
        Some(self.cmp(other))
    }
}

impl PartialEq for Key {
    ghost use Rattle.std.specs.Ordering.{eq_by_cmp};
    ghost use Rattle.std.specs.Cmp.{partial_equiv_from_equiv, eq_by_cmp_equiv};
    ghost use Rattle.triple_index.specs.Keys.{key_cmp};
    ghost use Rattle.triple_index.specs.Orders.{key_total};

    ghost eq = { eq_by_cmp key_cmp };

    ghost laws = { partial_equiv_from_equiv (eq_by_cmp_equiv key_total) };

    fn eq(&self, other: &Key) -> bool {
        self.cmp(other) == Ordering::Equal
    }
}

impl Eq for Key {
    ghost use Rattle.std.specs.Cmp.{eq_by_cmp_equiv};
    ghost use Rattle.triple_index.specs.Orders.{key_total};

    ghost laws = { eq_by_cmp_equiv key_total };
}

impl Copy for Key {}

impl Clone for Key {
    ghost is_clone = { λ source copy. copy ≡ source };

    fn clone(&self) -> Result<Key, AllocError> {
        Ok(*self)
    }
}

impl ExactClone for Key {
    ghost clone_is_equal = { λ source copy is_copy. is_copy };
}

impl ExactOrder for Key {
    ghost use Rattle.triple_index.specs.Orders.{key_exact};

    ghost tied_is_equal = { key_exact };
}
