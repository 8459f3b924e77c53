//! The triples of RDF and their order.
ghost use Rattle.std.specs.Prelude.{◌≡◌};

use crate::Term;
use collections::{ExactClone, ExactOrder};
use std::alloc::AllocError;
use std::cmp::Ordering;

/// An RDF triple (RDF 1.1 Concepts, section 3.1).
#[derive(Debug)]
pub struct Triple {
    pub subject: Term,
    pub predicate: Term,
    pub object: Term,
}

// Written by hand, so that what owns a triple calls it in place of having it written out.
impl Drop for Triple {
    fn drop(self) {
        let Triple {
            subject: _,
            predicate: _,
            object: _,
        } = self;
    }
}

impl Triple {
    /// Subject, predicate and object; no term is copied.
    pub fn into_terms(self) -> (Term, Term, Term)
        ensures subject { result.0 ≡ self.subject }
        ensures predicate { result.1 ≡ self.predicate }
        ensures object { result.2 ≡ self.object }
    {
        let Triple {
            subject,
            predicate,
            object,
        } = self;
        (subject, predicate, object)
    }
}

impl Ord for Triple {
    ghost use Rattle.std.proofs.Common.{refl};
    ghost use Rattle.rdf_model.specs.Terms.{triple_cmp};
    ghost use Rattle.rdf_model.specs.Orders.{triple_total};

    ghost cmp = { triple_cmp };

    ghost total = { triple_total };

    ghost matches_partial_cmp = { λ x y. refl };

    ghost matches_eq = { λ x y. refl };

    /// By subject, predicate and object.
    fn cmp(&self, other: &Triple) -> Ordering {
        self.subject
            .cmp(&other.subject)
            .then_with(|| self.predicate.cmp(&other.predicate))
            .then_with(|| self.object.cmp(&other.object))
    }
}

impl PartialOrd for Triple {
    ghost use Rattle.std.specs.Ordering.{as_partial_cmp};
    ghost use Rattle.std.specs.Cmp.{partial_order_from_total};
    ghost use Rattle.rdf_model.specs.Terms.{triple_cmp};
    ghost use Rattle.rdf_model.specs.Orders.{triple_total};

    ghost partial_cmp = { as_partial_cmp triple_cmp };

    ghost laws = { partial_order_from_total triple_total };

    fn partial_cmp(&self, other: &Triple) -> Option<Ordering> {
        Some(self.cmp(other))
    }
}

impl PartialEq for Triple {
    ghost use Rattle.std.specs.Ordering.{eq_by_cmp};
    ghost use Rattle.std.specs.Cmp.{partial_equiv_from_equiv, eq_by_cmp_equiv};
    ghost use Rattle.rdf_model.specs.Terms.{triple_cmp};
    ghost use Rattle.rdf_model.specs.Orders.{triple_total};

    ghost eq = { eq_by_cmp triple_cmp };

    ghost laws = { partial_equiv_from_equiv (eq_by_cmp_equiv triple_total) };

    fn eq(&self, other: &Triple) -> bool {
        self.cmp(other) == Ordering::Equal
    }
}

impl Eq for Triple {
    ghost use Rattle.std.specs.Cmp.{eq_by_cmp_equiv};
    ghost use Rattle.rdf_model.specs.Orders.{triple_total};

    ghost laws = { eq_by_cmp_equiv triple_total };
}

impl Clone for Triple {
    ghost is_clone = { λ source copy. copy ≡ source };

    fn clone(&self) -> Result<Triple, AllocError> {
        Ok(Triple {
            subject: self.subject.clone()?,
            predicate: self.predicate.clone()?,
            object: self.object.clone()?,
        })
    }
}

impl ExactClone for Triple {
    ghost clone_is_equal = { λ source copy is_copy. is_copy };
}

impl ExactOrder for Triple {
    ghost use Rattle.rdf_model.specs.Orders.{triple_exact};

    ghost tied_is_equal = { triple_exact };
}
