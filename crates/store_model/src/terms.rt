//! The terms of triples, as naming a block names them.
ghost use Rattle.std.specs.Prelude.{◌≡◌, ◌++◌, OnOk};
ghost use Rattle.std.specs.List.{flat_map};
ghost use Rattle.store_model.specs.Store.{terms_of};

use rdf_model::{Term, Triple};
use std::alloc::AllocError;

// Adds subject, predicate and object of a triple.
fn push_terms(terms: &mut Vec<Term>, triple: &Triple) -> Result<(), AllocError>
    ensures { OnOk result (terms.new.items ≡ terms.old.items ++ terms_of triple.now) }
{
    terms.push(triple.subject.clone()?)?;
    terms.push(triple.predicate.clone()?)?;
    terms.push(triple.object.clone()?)?;
    Ok(())
}

/// Adds subject, predicate and object of each triple, in order.
pub fn push_all_terms(terms: &mut Vec<Term>, triples: &[Triple]) -> Result<(), AllocError>
    ensures { OnOk result (terms.new.items ≡ terms.old.items ++ flat_map terms_of triples.now) }
{
    for triple in triples {
        push_terms(terms, triple)?;
    }
    Ok(())
}
