//! A look by its terms, with its order.
ghost use Rattle.std.specs.Prelude.{◌≡◌};

use collections::ExactOrder;
use rdf_model::{Look, Term};
use std::cmp::Ordering;
use std::marker::Model;

/// A look by its terms, in the order of evidence: the looks of a subject and a predicate first, then those of a predicate and
/// an object, then those of a subject alone, each by its terms from left to right.
#[derive(Debug)]
pub struct ListedLook {
    pub look: Look<Term>,
}

// By hand, so that whoever lets go of one makes one call.
impl Drop for ListedLook {
    fn drop(self) {
        let ListedLook { look: _ } = self;
    }
}

impl Model for ListedLook {
    ghost use Rattle.rdf_model.specs.declared.look.Look.{Look};
    ghost use Rattle.rdf_model.specs.declared.term.Term.{Term};

    ghost Value = { Look Term };

    ghost view = { λ l. l.look };
}

impl Ord for ListedLook {
    ghost use Rattle.std.proofs.Common.{refl};
    ghost use Rattle.evidence_blocks.specs.LookOrder.{look_cmp};
    ghost use Rattle.evidence_blocks.specs.LookOrders.{look_total};

    ghost cmp = { look_cmp };

    ghost total = { look_total };

    ghost matches_partial_cmp = { λ x y. refl };

    ghost matches_eq = { λ x y. refl };

    fn cmp(&self, other: &ListedLook) -> Ordering {
        match (&self.look, &other.look) {
            (Look::Out(x, p), Look::Out(y, q)) => x.cmp(y).then(p.cmp(q)),
            (Look::Out(_, _), _) => Ordering::Less,
            (Look::In(_, _), Look::Out(_, _)) => Ordering::Greater,
            (Look::In(p, x), Look::In(q, y)) => p.cmp(q).then(x.cmp(y)),
            (Look::In(_, _), Look::OutAny(_)) => Ordering::Less,
            (Look::OutAny(x), Look::OutAny(y)) => x.cmp(y),
            (Look::OutAny(_), _) => Ordering::Greater,
        }
    }
}

impl PartialOrd for ListedLook {
    ghost use Rattle.std.specs.Ordering.{as_partial_cmp};
    ghost use Rattle.std.specs.Cmp.{partial_order_from_total};
    ghost use Rattle.evidence_blocks.specs.LookOrder.{look_cmp};
    ghost use Rattle.evidence_blocks.specs.LookOrders.{look_total};

    ghost partial_cmp = { as_partial_cmp look_cmp };

    ghost laws = { partial_order_from_total look_total };

    fn partial_cmp(&self, other: &ListedLook) -> Option<Ordering> {
        Some(self.cmp(other))
    }
}

impl PartialEq for ListedLook {
    ghost use Rattle.std.specs.Ordering.{eq_by_cmp};
    ghost use Rattle.std.specs.Cmp.{partial_equiv_from_equiv, eq_by_cmp_equiv};
    ghost use Rattle.evidence_blocks.specs.LookOrder.{look_cmp};
    ghost use Rattle.evidence_blocks.specs.LookOrders.{look_total};

    ghost eq = { eq_by_cmp look_cmp };

    ghost laws = { partial_equiv_from_equiv (eq_by_cmp_equiv look_total) };

    fn eq(&self, other: &ListedLook) -> bool {
        self.cmp(other) == Ordering::Equal
    }
}

impl Eq for ListedLook {
    ghost use Rattle.std.specs.Cmp.{eq_by_cmp_equiv};
    ghost use Rattle.evidence_blocks.specs.LookOrders.{look_total};

    ghost laws = { eq_by_cmp_equiv look_total };
}

impl ExactOrder for ListedLook {
    ghost use Rattle.evidence_blocks.specs.LookOrders.{look_exact};

    ghost tied_is_equal = { look_exact };
}
