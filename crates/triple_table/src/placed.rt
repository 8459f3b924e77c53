//! A term with its key and its place among others, in the order of the terms.
ghost use Rattle.std.specs.Prelude.{◌≡◌};

use collections::ExactOrder;
use rdf_model::Term;
use std::cmp::Ordering;
use std::marker::Model;

// A term, its key and its place among others.
#[derive(Drop)]
pub(crate) struct PlacedTerm<'a> {
    pub(crate) key: u64,
    pub(crate) term: &'a Term,
    pub(crate) place: u32,
}

impl<'a> Model for PlacedTerm<'a> {
    ghost use Rattle.triple_table.specs.Ranks.{Placed};

    ghost Value = { Placed };

    ghost view = { λ p. record { key = p.key; term = p.term.now; place = p.place } };
}

impl<'a> Ord for PlacedTerm<'a> {
    ghost use Rattle.std.proofs.Common.{refl};
    ghost use Rattle.triple_table.specs.Ranks.{placed_cmp};
    ghost use Rattle.triple_table.specs.Orders.{placed_total};

    ghost cmp = { placed_cmp };

    ghost total = { placed_total };

    ghost matches_partial_cmp = { λ x y. refl };

    ghost matches_eq = { λ x y. refl };

    fn cmp(&self, other: &PlacedTerm<'a>) -> Ordering {
        self.key
            .cmp(&other.key)
            .then_with(|| self.term.cmp(other.term))
            .then(self.place.cmp(&other.place))
    }
}

impl<'a> PartialOrd for PlacedTerm<'a> {
    ghost use Rattle.std.specs.Ordering.{as_partial_cmp};
    ghost use Rattle.std.specs.Cmp.{partial_order_from_total};
    ghost use Rattle.triple_table.specs.Ranks.{placed_cmp};
    ghost use Rattle.triple_table.specs.Orders.{placed_total};

    ghost partial_cmp = { as_partial_cmp placed_cmp };

    ghost laws = { partial_order_from_total placed_total };

    fn partial_cmp(&self, other: &PlacedTerm<'a>) -> Option<Ordering> {
        Some(self.cmp(other))
    }
}

impl<'a> PartialEq for PlacedTerm<'a> {
    ghost use Rattle.std.specs.Ordering.{eq_by_cmp};
    ghost use Rattle.std.specs.Cmp.{partial_equiv_from_equiv, eq_by_cmp_equiv};
    ghost use Rattle.triple_table.specs.Ranks.{placed_cmp};
    ghost use Rattle.triple_table.specs.Orders.{placed_total};

    ghost eq = { eq_by_cmp placed_cmp };

    ghost laws = { partial_equiv_from_equiv (eq_by_cmp_equiv placed_total) };

    fn eq(&self, other: &PlacedTerm<'a>) -> bool {
        self.cmp(other) == Ordering::Equal
    }
}

impl<'a> Eq for PlacedTerm<'a> {
    ghost use Rattle.std.specs.Cmp.{eq_by_cmp_equiv};
    ghost use Rattle.triple_table.specs.Orders.{placed_total};

    ghost laws = { eq_by_cmp_equiv placed_total };
}

impl<'a> ExactOrder for PlacedTerm<'a> {
    ghost use Rattle.triple_table.specs.Orders.{placed_exact};

    ghost tied_is_equal = { placed_exact };
}
