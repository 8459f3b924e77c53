//! A named term in the list of the terms, and its number among the others by hash.
ghost use Rattle.std.specs.Prelude.{◌≡◌};

use collections::ExactClone;
use rdf_model::Term;
use std::alloc::AllocError;
use std::cmp::Ordering;
use std::marker::Model;
use std::sync::Arc;

// A named term, among others by its number, which is its place.
#[derive(Drop)]
pub(crate) struct NamedTerm {
    pub(crate) term: Arc<Term>,
}

impl Model for NamedTerm {
    ghost use Rattle.std.specs.Arc.{arc_value};
    ghost use Rattle.rdf_model.specs.declared.term.Term.{Term};

    ghost Value = { Term };

    ghost view = { λ n. arc_value n.term };
}

impl Clone for NamedTerm {
    ghost is_clone = { λ source copy. copy ≡ source };

    fn clone(&self) -> Result<NamedTerm, AllocError> {
        Ok(NamedTerm {
            term: Arc::try_clone(&self.term)?,
        })
    }
}

impl ExactClone for NamedTerm {
    ghost clone_is_equal = { λ source copy is_copy. is_copy };
}

// The number of a named term, among others by the hashes of their terms. It holds no term, so that a page of such is
// copied as plain numbers are.
pub(crate) struct ByHash {
    pub(crate) hash: u64,
    pub(crate) number: usize,
}

impl Ord for ByHash {
    ghost use Rattle.std.proofs.Common.{refl};
    ghost use Rattle.term_dict.specs.Entries.{entry_cmp};
    ghost use Rattle.term_dict.specs.Orders.{entry_total};

    ghost cmp = { entry_cmp };

    ghost total = { entry_total };

    ghost matches_partial_cmp = { λ x y. refl };

    ghost matches_eq = { λ x y. refl };

    fn cmp(&self, other: &ByHash) -> Ordering {
        self.hash
            .cmp(&other.hash)
            .then(self.number.cmp(&other.number))
    }
}

impl PartialOrd for ByHash {
    ghost use Rattle.std.specs.Ordering.{as_partial_cmp};
    ghost use Rattle.std.specs.Cmp.{partial_order_from_total};
    ghost use Rattle.term_dict.specs.Entries.{entry_cmp};
    ghost use Rattle.term_dict.specs.Orders.{entry_total};

    ghost partial_cmp = { as_partial_cmp entry_cmp };

    ghost laws = { partial_order_from_total entry_total };

    fn partial_cmp(&self, other: &ByHash) -> Option<Ordering> {
        Some(self.cmp(other))
    }
}

impl PartialEq for ByHash {
    ghost use Rattle.std.specs.Ordering.{eq_by_cmp};
    ghost use Rattle.std.specs.Cmp.{partial_equiv_from_equiv, eq_by_cmp_equiv};
    ghost use Rattle.term_dict.specs.Entries.{entry_cmp};
    ghost use Rattle.term_dict.specs.Orders.{entry_total};

    ghost eq = { eq_by_cmp entry_cmp };

    ghost laws = { partial_equiv_from_equiv (eq_by_cmp_equiv entry_total) };

    fn eq(&self, other: &ByHash) -> bool {
        self.cmp(other) == Ordering::Equal
    }
}

impl Eq for ByHash {
    ghost use Rattle.std.specs.Cmp.{eq_by_cmp_equiv};
    ghost use Rattle.term_dict.specs.Orders.{entry_total};

    ghost laws = { eq_by_cmp_equiv entry_total };
}

impl Copy for ByHash {}

impl Clone for ByHash {
    ghost is_clone = { λ source copy. copy ≡ source };

    fn clone(&self) -> Result<ByHash, AllocError> {
        Ok(*self)
    }
}

impl ExactClone for ByHash {
    ghost clone_is_equal = { λ source copy is_copy. is_copy };
}
