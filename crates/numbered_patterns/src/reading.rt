//! Terms, triples and changes, read by their numbers.
ghost use Rattle.std.specs.Prelude.{◌≡◌, ◌<◌, IfOk, length};
ghost use Rattle.rdf_model.specs.Numbers.{term_at, triple_at};
ghost use Rattle.triple_index.specs.Changes.{IsNumbered, IsNumberedChange, change_at};

use rdf_model::{Change, Ids, Names, Term, Triple};
use std::alloc::AllocError;
use term_dict::Dict;
use triple_index::NumberedChange;

/// A clone of the term of a number.
pub fn read_term(names: &Dict, number: u32) -> Result<Term, AllocError>
    requires { number < length names.now.terms }
    ensures { IfOk result (λ term. term ≡ term_at names.now.terms number) }
{
    match names.term(number) {
        Some(term) => term.clone(),
        None => unreachable!(),
    }
}

/// The triple of three numbers.
pub fn read_triple(names: &Dict, ids: Ids) -> Result<Triple, AllocError>
    requires { IsNumbered names.now.terms ids }
    ensures { IfOk result (λ triple. triple ≡ triple_at names.now.terms ids) }
{
    Ok(Triple {
        subject: read_term(names, ids.subject)?,
        predicate: read_term(names, ids.predicate)?,
        object: read_term(names, ids.object)?,
    })
}

/// The change of a triple of three numbers.
pub fn read_change(names: &Dict, change: &NumberedChange) -> Result<Change, AllocError>
    requires { IsNumberedChange names.now.terms change.now }
    ensures { IfOk result (λ read. read ≡ change_at names.now.terms change.now) }
{
    match change {
        NumberedChange::Add(triple) => Ok(Change::Add(read_triple(names, *triple)?)),
        NumberedChange::Remove(triple) => Ok(Change::Remove(read_triple(names, *triple)?)),
    }
}
