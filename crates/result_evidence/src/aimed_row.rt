//! A result with a shape and a focus node that give it, and their order.
use collections::ExactOrder;
use rdf_model::Term;
use shape_model::ResultRow;
use std::cmp::Ordering;

/// A result, with the place of a shape that gives it and the focus node at which it does, which is one of the shape's targets
/// (SHACL section 3.4). They are in the order of results, then by their shapes, then by their focus nodes.
#[derive(Debug)]
pub struct AimedRow {
    pub row: ResultRow,
    /// The place of the shape.
    pub place: usize,
    pub focus: Term,
    /// The number of the focus node.
    pub number: u32,
}

// By hand, so that whoever lets go of one makes one call.
impl Drop for AimedRow {
    fn drop(self) {
        let AimedRow {
            row: _,
            place: _,
            focus: _,
            number: _,
        } = self;
    }
}

impl Ord for AimedRow {
    ghost use Rattle.std.proofs.Common.{refl};
    ghost use Rattle.result_evidence.specs.AimedOrder.{aimed_cmp, aimed_total};

    ghost cmp = { aimed_cmp };

    ghost total = { aimed_total };

    ghost matches_partial_cmp = { λ x y. refl };

    ghost matches_eq = { λ x y. refl };

    fn cmp(&self, other: &AimedRow) -> Ordering {
        let by_focus = self
            .focus
            .cmp(&other.focus)
            .then(self.number.cmp(&other.number));
        let by_aim = self.place.cmp(&other.place).then(by_focus);
        self.row.cmp(&other.row).then(by_aim)
    }
}

impl PartialOrd for AimedRow {
    ghost use Rattle.std.specs.Ordering.{as_partial_cmp};
    ghost use Rattle.std.specs.Cmp.{partial_order_from_total};
    ghost use Rattle.result_evidence.specs.AimedOrder.{aimed_cmp, aimed_total};

    ghost partial_cmp = { as_partial_cmp aimed_cmp };

    ghost laws = { partial_order_from_total aimed_total };

    fn partial_cmp(&self, other: &AimedRow) -> Option<Ordering> {
        Some(self.cmp(other))
    }
}

impl PartialEq for AimedRow {
    ghost use Rattle.std.specs.Ordering.{eq_by_cmp};
    ghost use Rattle.std.specs.Cmp.{partial_equiv_from_equiv, eq_by_cmp_equiv};
    ghost use Rattle.result_evidence.specs.AimedOrder.{aimed_cmp, aimed_total};

    ghost eq = { eq_by_cmp aimed_cmp };

    ghost laws = { partial_equiv_from_equiv (eq_by_cmp_equiv aimed_total) };

    fn eq(&self, other: &AimedRow) -> bool {
        self.cmp(other) == Ordering::Equal
    }
}

impl Eq for AimedRow {
    ghost use Rattle.std.specs.Cmp.{eq_by_cmp_equiv};
    ghost use Rattle.result_evidence.specs.AimedOrder.{aimed_total};

    ghost laws = { eq_by_cmp_equiv aimed_total };
}

impl ExactOrder for AimedRow {
    ghost use Rattle.result_evidence.specs.AimedOrder.{aimed_exact};

    ghost tied_is_equal = { aimed_exact };
}
