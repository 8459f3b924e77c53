// Terms that may be absent.
ghost use Rattle.std.specs.Prelude.{◌≡◌, IfOk};
ghost use Rattle.shape_model.specs.Rows.{optional_term_cmp};

use rdf_model::Term;
use std::alloc::AllocError;
use std::cmp::Ordering;

// An absent term before a present one.
pub(crate) fn compare_optional(term: &Option<Term>, other: &Option<Term>) -> Ordering
    ensures { result ≡ optional_term_cmp term.now other.now }
{
    match (term, other) {
        (None, None) => Ordering::Equal,
        (None, Some(_)) => Ordering::Less,
        (Some(_), None) => Ordering::Greater,
        (Some(term), Some(other)) => term.cmp(other),
    }
}

// A clone of a term that may be absent.
pub(crate) fn optional_clone(term: &Option<Term>) -> Result<Option<Term>, AllocError>
    ensures { IfOk result (λ copy. copy ≡ term.now) }
{
    match term {
        Some(term) => Ok(Some(term.clone()?)),
        None => Ok(None),
    }
}
