//! Terms that pass a test.
ghost use Rattle.std.specs.Prelude.{◌≡◌, ◌↔◌, IfOk, IsTrue};
ghost use Rattle.std.specs.List.{Contains};
ghost use Rattle.rdf_model.specs.declared.term.Term.{Term as TermData};
ghost use Rattle.plain_terms.specs.Finds.{Finds};

use collections::Sequence;
use rdf_model::Term;
use std::alloc::{AllocError, Global};

/// A test of a term.
pub trait TermTest {
    ghost accepts: { Self → TermData → Type 0 };

    /// Whether the term passes. It takes no memory.
    fn passes(&self, term: &Term) -> bool
        ensures { IsTrue result ↔ accepts self.now term.now };
}

/// The terms that pass the test, in their order.
pub fn chosen<T: TermTest>(
    alloc: Global,
    terms: &[Term],
    test: &T,
) -> Result<Sequence<Term>, AllocError>
    ensures { IfOk result (λ found. Finds (λ term. Contains terms.now term × T.accepts test.now term) found) }
{
    let mut found = Sequence::new(alloc);
    for term in terms {
        if test.passes(term) {
            found.push(term.clone()?)?;
        }
    }
    Ok(found)
}
