//! Which triples one step of a validation reads.
ghost use Rattle.std.specs.Prelude.{◌≡◌};
ghost use Rattle.rdf_model.specs.Matching.{is_read_by};
ghost use Rattle.rdf_model.specs.Numbers.{reads_numbers};

use crate::{Ids, Term, Triple};

/// Which triples one step of a validation reads, by their terms or by the numbers of their terms.
#[derive(Debug, Drop)]
pub enum Look<T> {
    /// The objects of this subject and this predicate.
    Out(T, T),
    /// The subjects of this predicate and this object.
    In(T, T),
    /// All triples of this subject.
    OutAny(T),
}

impl Look<Term> {
    /// Whether the look reads the triple.
    pub fn reads(&self, triple: &Triple) -> bool
        ensures { result ≡ is_read_by self.now triple.now }
    {
        match self {
            Look::Out(subject, predicate) => {
                *subject == triple.subject && *predicate == triple.predicate
            }
            Look::In(predicate, object) => {
                *predicate == triple.predicate && *object == triple.object
            }
            Look::OutAny(subject) => *subject == triple.subject,
        }
    }
}

impl Look<u32> {
    /// Whether the look reads the triple of these numbers.
    pub fn reads_ids(&self, triple: Ids) -> bool
        ensures { result ≡ reads_numbers self.now triple }
    {
        match self {
            Look::Out(subject, predicate) => {
                *subject == triple.subject && *predicate == triple.predicate
            }
            Look::In(predicate, object) => {
                *predicate == triple.predicate && *object == triple.object
            }
            Look::OutAny(subject) => *subject == triple.subject,
        }
    }
}
