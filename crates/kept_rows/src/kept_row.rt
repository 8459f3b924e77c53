//! A result with the pair that gives it.
ghost use Rattle.std.specs.Prelude.{◌≡◌};

use collections::{ExactClone, ExactOrder};
use shape_model::ResultRow;
use std::alloc::AllocError;
use std::cmp::Ordering;

/// A result with the pair that gives it: a shape and a focus node, by the numbers of their terms.
#[derive(Debug, Drop)]
pub struct KeptRow {
    pub shape: u32,
    pub focus: u32,
    pub row: ResultRow,
}

impl Ord for KeptRow {
    ghost use Rattle.std.proofs.Common.{refl};
    ghost use Rattle.kept_rows.specs.Kept.{kept_cmp};
    ghost use Rattle.kept_rows.specs.Orders.{kept_total};

    ghost cmp = { kept_cmp };

    ghost total = { kept_total };

    ghost matches_partial_cmp = { λ x y. refl };

    ghost matches_eq = { λ x y. refl };

    /// By shape, focus node and result.
    fn cmp(&self, other: &KeptRow) -> Ordering {
        self.shape
            .cmp(&other.shape)
            .then_with(|| self.focus.cmp(&other.focus))
            .then_with(|| self.row.cmp(&other.row))
    }
}

impl PartialOrd for KeptRow {
    ghost use Rattle.std.specs.Ordering.{as_partial_cmp};
    ghost use Rattle.std.specs.Cmp.{partial_order_from_total};
    ghost use Rattle.kept_rows.specs.Kept.{kept_cmp};
    ghost use Rattle.kept_rows.specs.Orders.{kept_total};

    ghost partial_cmp = { as_partial_cmp kept_cmp };

    ghost laws = { partial_order_from_total kept_total };

    fn partial_cmp(&self, other: &KeptRow) -> Option<Ordering> {
        Some(self.cmp(other))
    }
}

impl PartialEq for KeptRow {
    ghost use Rattle.std.specs.Ordering.{eq_by_cmp};
    ghost use Rattle.std.specs.Cmp.{partial_equiv_from_equiv, eq_by_cmp_equiv};
    ghost use Rattle.kept_rows.specs.Kept.{kept_cmp};
    ghost use Rattle.kept_rows.specs.Orders.{kept_total};

    ghost eq = { eq_by_cmp kept_cmp };

    ghost laws = { partial_equiv_from_equiv (eq_by_cmp_equiv kept_total) };

    fn eq(&self, other: &KeptRow) -> bool {
        self.cmp(other) == Ordering::Equal
    }
}

impl Eq for KeptRow {
    ghost use Rattle.std.specs.Cmp.{eq_by_cmp_equiv};
    ghost use Rattle.kept_rows.specs.Orders.{kept_total};

    ghost laws = { eq_by_cmp_equiv kept_total };
}

impl Clone for KeptRow {
    ghost is_clone = { λ source copy. copy ≡ source };

    fn clone(&self) -> Result<KeptRow, AllocError> {
        Ok(KeptRow {
            shape: self.shape,
            focus: self.focus,
            row: self.row.clone()?,
        })
    }
}

impl ExactClone for KeptRow {
    ghost clone_is_equal = { λ source copy is_copy. is_copy };
}

impl ExactOrder for KeptRow {
    ghost use Rattle.kept_rows.specs.Orders.{kept_exact};

    ghost tied_is_equal = { kept_exact };
}
