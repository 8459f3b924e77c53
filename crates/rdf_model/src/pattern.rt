//! Which triples a find asks for.
ghost use Rattle.std.specs.Prelude.{◌≡◌, IfOk};
ghost use Rattle.rdf_model.specs.Matching;
ghost use Rattle.rdf_model.specs.Matching.{fits};

use crate::{Term, Triple};
use collections::ExactClone;
use std::alloc::AllocError;

/// Which triples a find asks for; `None` stands for any term.
#[derive(Debug, Drop)]
pub struct Pattern {
    pub subject: Option<Term>,
    pub predicate: Option<Term>,
    pub object: Option<Term>,
}

// Whether a term is the one that is asked for, if one is.
fn is_wanted(wanted: &Option<Term>, term: &Term) -> bool
    ensures { result ≡ fits wanted.now term.now }
{
    match wanted {
        Some(wanted) => wanted == term,
        None => true,
    }
}

fn copy_of(wanted: &Option<Term>) -> Result<Option<Term>, AllocError>
    ensures { IfOk result (λ copy. copy ≡ wanted.now) }
{
    match wanted {
        Some(term) => Ok(Some(term.clone()?)),
        None => Ok(None),
    }
}

impl Clone for Pattern {
    ghost is_clone = { λ source copy. copy ≡ source };

    fn clone(&self) -> Result<Pattern, AllocError> {
        Ok(Pattern {
            subject: copy_of(&self.subject)?,
            predicate: copy_of(&self.predicate)?,
            object: copy_of(&self.object)?,
        })
    }
}

impl ExactClone for Pattern {
    ghost clone_is_equal = { λ source copy is_copy. is_copy };
}

impl Pattern {
    /// Whether the triple of three terms has the pattern's terms at their places.
    pub fn matches_terms(&self, subject: &Term, predicate: &Term, object: &Term) -> bool
        ensures { result ≡ Matching.matches self.now (record { subject = subject.now; predicate = predicate.now; object = object.now }) }
    {
        is_wanted(&self.subject, subject)
            && is_wanted(&self.predicate, predicate)
            && is_wanted(&self.object, object)
    }

    /// Whether the triple has the pattern's terms at their places.
    pub fn matches(&self, triple: &Triple) -> bool
        ensures { result ≡ Matching.matches self.now triple.now }
    {
        self.matches_terms(&triple.subject, &triple.predicate, &triple.object)
    }
}
