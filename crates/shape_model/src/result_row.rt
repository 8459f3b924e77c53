//! Validation results and their order.
ghost use Rattle.std.specs.Prelude.{◌≡◌};

use crate::Component;
use crate::optional_term::{compare_optional, optional_clone};
use collections::{ExactClone, ExactOrder};
use rdf_model::Term;
use std::alloc::AllocError;
use std::cmp::Ordering;

/// One validation result (SHACL section 3.6.2). Equal rows are one result.
#[derive(Debug)]
pub struct ResultRow {
    pub source_shape: Term,
    pub focus_node: Term,
    pub component: Component,
    /// The parameter's value that isn't met.
    pub parameter: Option<Term>,
    /// The value node that the result is about.
    pub about: Option<Term>,
    /// The value that the report names.
    pub value: Option<Term>,
    /// What else tells two results at one value apart.
    pub other: Option<Term>,
}

// By hand, so that whoever lets go of a row makes one call.
impl Drop for ResultRow {
    fn drop(self) {
        let ResultRow {
            source_shape: _,
            focus_node: _,
            component: _,
            parameter: _,
            about: _,
            value: _,
            other: _,
        } = self;
    }
}

impl Ord for ResultRow {
    ghost use Rattle.std.proofs.Common.{refl};
    ghost use Rattle.shape_model.specs.Rows.{result_row_cmp};
    ghost use Rattle.shape_model.specs.Orders.{result_row_total};

    ghost cmp = { result_row_cmp };

    ghost total = { result_row_total };

    ghost matches_partial_cmp = { λ x y. refl };

    ghost matches_eq = { λ x y. refl };

    /// From the left, terms in the order of terms, an absent term before a present one.
    #[tactic(auto, using(crate::proofs::Chains::then_assoc))]
    fn cmp(&self, other: &ResultRow) -> Ordering {
        self.source_shape
            .cmp(&other.source_shape)
            .then(self.focus_node.cmp(&other.focus_node))
            .then(self.component.cmp(&other.component))
            .then(compare_optional(&self.parameter, &other.parameter))
            .then(compare_optional(&self.about, &other.about))
            .then(compare_optional(&self.value, &other.value))
            .then(compare_optional(&self.other, &other.other))
    }
}

impl PartialOrd for ResultRow {
    ghost use Rattle.std.specs.Ordering.{as_partial_cmp};
    ghost use Rattle.std.specs.Cmp.{partial_order_from_total};
    ghost use Rattle.shape_model.specs.Rows.{result_row_cmp};
    ghost use Rattle.shape_model.specs.Orders.{result_row_total};

    ghost partial_cmp = { as_partial_cmp result_row_cmp };

    ghost laws = { partial_order_from_total result_row_total };

    fn partial_cmp(&self, other: &ResultRow) -> Option<Ordering> {
        Some(self.cmp(other))
    }
}

impl PartialEq for ResultRow {
    ghost use Rattle.std.specs.Ordering.{eq_by_cmp};
    ghost use Rattle.std.specs.Cmp.{partial_equiv_from_equiv, eq_by_cmp_equiv};
    ghost use Rattle.shape_model.specs.Rows.{result_row_cmp};
    ghost use Rattle.shape_model.specs.Orders.{result_row_total};

    ghost eq = { eq_by_cmp result_row_cmp };

    ghost laws = { partial_equiv_from_equiv (eq_by_cmp_equiv result_row_total) };

    fn eq(&self, other: &ResultRow) -> bool {
        self.cmp(other) == Ordering::Equal
    }
}

impl Eq for ResultRow {
    ghost use Rattle.std.specs.Cmp.{eq_by_cmp_equiv};
    ghost use Rattle.shape_model.specs.Orders.{result_row_total};

    ghost laws = { eq_by_cmp_equiv result_row_total };
}

impl Clone for ResultRow {
    ghost is_clone = { λ source copy. copy ≡ source };

    fn clone(&self) -> Result<ResultRow, AllocError> {
        Ok(ResultRow {
            source_shape: self.source_shape.clone()?,
            focus_node: self.focus_node.clone()?,
            component: self.component,
            parameter: optional_clone(&self.parameter)?,
            about: optional_clone(&self.about)?,
            value: optional_clone(&self.value)?,
            other: optional_clone(&self.other)?,
        })
    }
}

impl ExactClone for ResultRow {
    ghost clone_is_equal = { λ source copy is_copy. is_copy };
}

impl ExactOrder for ResultRow {
    ghost use Rattle.shape_model.specs.Orders.{result_row_exact};

    ghost tied_is_equal = { result_row_exact };
}
