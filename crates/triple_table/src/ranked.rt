//! A triple by the ranks of its subject and predicate, in the order of the triples.
ghost use Rattle.std.specs.Prelude.{◌≡◌};

use collections::ExactOrder;
use rdf_model::Term;
use std::cmp::Ordering;
use std::marker::Model;

// A triple by the ranks of its subject and predicate, with its object and that one's number.
#[derive(Drop)]
pub(crate) struct RankedTriple<'a> {
    pub(crate) subject: u32,
    pub(crate) predicate: u32,
    pub(crate) object: &'a Term,
    pub(crate) number: u32,
}

impl<'a> Model for RankedTriple<'a> {
    ghost use Rattle.triple_table.specs.Ranks.{Ranked};

    ghost Value = { Ranked };

    ghost view = { λ r. record { subject = r.subject; predicate = r.predicate; object = r.object.now; number = r.number } };
}

impl<'a> Ord for RankedTriple<'a> {
    ghost use Rattle.std.proofs.Common.{refl};
    ghost use Rattle.triple_table.specs.Ranks.{ranked_cmp};
    ghost use Rattle.triple_table.specs.Orders.{ranked_total};

    ghost cmp = { ranked_cmp };

    ghost total = { ranked_total };

    ghost matches_partial_cmp = { λ x y. refl };

    ghost matches_eq = { λ x y. refl };

    fn cmp(&self, other: &RankedTriple<'a>) -> Ordering {
        let (object, others) = (self.object, other.object);
        self.subject
            .cmp(&other.subject)
            .then(self.predicate.cmp(&other.predicate))
            .then_with(|| object.cmp(others))
            .then(self.number.cmp(&other.number))
    }
}

impl<'a> PartialOrd for RankedTriple<'a> {
    ghost use Rattle.std.specs.Ordering.{as_partial_cmp};
    ghost use Rattle.std.specs.Cmp.{partial_order_from_total};
    ghost use Rattle.triple_table.specs.Ranks.{ranked_cmp};
    ghost use Rattle.triple_table.specs.Orders.{ranked_total};

    ghost partial_cmp = { as_partial_cmp ranked_cmp };

    ghost laws = { partial_order_from_total ranked_total };

    fn partial_cmp(&self, other: &RankedTriple<'a>) -> Option<Ordering> {
        Some(self.cmp(other))
    }
}

impl<'a> PartialEq for RankedTriple<'a> {
    ghost use Rattle.std.specs.Ordering.{eq_by_cmp};
    ghost use Rattle.std.specs.Cmp.{partial_equiv_from_equiv, eq_by_cmp_equiv};
    ghost use Rattle.triple_table.specs.Ranks.{ranked_cmp};
    ghost use Rattle.triple_table.specs.Orders.{ranked_total};

    ghost eq = { eq_by_cmp ranked_cmp };

    ghost laws = { partial_equiv_from_equiv (eq_by_cmp_equiv ranked_total) };

    fn eq(&self, other: &RankedTriple<'a>) -> bool {
        self.cmp(other) == Ordering::Equal
    }
}

impl<'a> Eq for RankedTriple<'a> {
    ghost use Rattle.std.specs.Cmp.{eq_by_cmp_equiv};
    ghost use Rattle.triple_table.specs.Orders.{ranked_total};

    ghost laws = { eq_by_cmp_equiv ranked_total };
}

impl<'a> ExactOrder for RankedTriple<'a> {
    ghost use Rattle.triple_table.specs.Orders.{ranked_exact};

    ghost tied_is_equal = { ranked_exact };
}
