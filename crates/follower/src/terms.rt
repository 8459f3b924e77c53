// The terms of a record.
ghost use Rattle.std.specs.Prelude.{◌≡◌, ◌++◌, IfOk, OnOk};
ghost use Rattle.std.specs.List.{flat_map};
ghost use Rattle.follower.specs.Records;
ghost use Rattle.follower.specs.Records.{staged_terms, triple_terms};

use collections::Sequence;
use rdf_model::{Term, Triple};
use record_text::Record;
use std::alloc::{AllocError, Global};

fn push_triple(terms: &mut Vec<Term>, triple: &Triple) -> Result<(), AllocError>
    ensures { OnOk result (terms.new.items ≡ terms.old.items ++ triple_terms triple.now) }
{
    terms.push(triple.subject.clone()?)?;
    terms.push(triple.predicate.clone()?)?;
    terms.push(triple.object.clone()?)?;
    Ok(())
}

fn push_triples(terms: &mut Vec<Term>, triples: &[Triple]) -> Result<(), AllocError>
    ensures { OnOk result (terms.new.items ≡ terms.old.items ++ flat_map triple_terms triples.now) }
{
    for triple in triples {
        push_triple(terms, triple)?;
    }
    Ok(())
}

fn push_staged(terms: &mut Vec<Term>, staged: &Option<Sequence<Triple>>) -> Result<(), AllocError>
    ensures { OnOk result (terms.new.items ≡ terms.old.items ++ staged_terms staged.now) }
{
    if let Some(triples) = staged {
        push_triples(terms, triples.as_slice())?;
    }
    Ok(())
}

/// The terms of a record, in the order in which they stand.
pub(crate) fn terms_of(alloc: Global, next: &Record) -> Result<Vec<Term>, AllocError>
    ensures { IfOk result (λ terms. terms.items ≡ Records.terms_of next.now) }
{
    let mut terms = Vec::new(alloc);
    push_triples(&mut terms, next.removed.as_slice())?;
    push_triples(&mut terms, next.added.as_slice())?;
    push_staged(&mut terms, &next.shapes)?;
    Ok(terms)
}
