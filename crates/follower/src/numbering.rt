// Triples and changes by the numbers of their terms.
ghost use Rattle.std.specs.Prelude.{◌≡◌, ◌<◌, IfOk, length, map};
ghost use Rattle.std.specs.List.{Contains};
ghost use Rattle.rdf_model.specs.declared.change.Change.TheVariants.{Add, Remove};
ghost use Rattle.rdf_model.specs.Numbers.{AreNumbered, term_at, triple_at};
ghost use Rattle.triple_index.specs.Changes.{IsNumbered};
ghost use Rattle.follower.specs.Numbered.{AreNamedTriples, IsNamedRecord, IsNamedTriple, KeepsIndex, StandFor};
ghost use Rattle.follower.specs.Records.{changes_of};

use rdf_model::{Ids, Names, Term, Triple};
use record_text::Record;
use std::alloc::{AllocError, Global};
use term_dict::Dict;
use triple_index::{Index, NumberedChange};

// The number of a term that has one.
fn number_of(names: &Dict, term: &Term) -> u32
    requires { Contains names.now.terms term.now }
    ensures bound { result < length names.now.terms }
    ensures term { term_at names.now.terms result ≡ term.now }
{
    names.id(term).unwrap()
}

/// The numbers of a triple's terms.
pub(crate) fn number_triple(names: &Dict, triple: &Triple) -> Ids
    requires { IsNamedTriple names.now.terms triple.now }
    ensures bound { IsNumbered names.now.terms result }
    ensures triple { triple_at names.now.terms result ≡ triple.now }
{
    Ids {
        subject: number_of(names, &triple.subject),
        predicate: number_of(names, &triple.predicate),
        object: number_of(names, &triple.object),
    }
}

// The removals of triples by the numbers of their terms, in their order.
fn removals(
    alloc: Global,
    names: &Dict,
    triples: &[Triple],
) -> Result<Vec<NumberedChange>, AllocError>
    requires { AreNamedTriples names.now.terms triples.now }
    ensures { IfOk result (λ changes. StandFor names.now.terms changes.items (map Remove triples.now)) }
{
    let mut changes = Vec::with_capacity(alloc, triples.len())?;
    for triple in triples {
        changes.push(NumberedChange::Remove(number_triple(names, triple)))?;
    }
    Ok(changes)
}

// The additions of the triples, by number.
fn additions(
    alloc: Global,
    names: &Dict,
    triples: &[Triple],
) -> Result<Vec<NumberedChange>, AllocError>
    requires { AreNamedTriples names.now.terms triples.now }
    ensures { IfOk result (λ changes. StandFor names.now.terms changes.items (map Add triples.now)) }
{
    let mut changes = Vec::with_capacity(alloc, triples.len())?;
    for triple in triples {
        changes.push(NumberedChange::Add(number_triple(names, triple)))?;
    }
    Ok(changes)
}

// The changes of a record by the numbers of its terms.
fn number_changes(
    alloc: Global,
    names: &Dict,
    next: &Record,
) -> Result<Vec<NumberedChange>, AllocError>
    requires { IsNamedRecord names.now.terms next.now }
    ensures { IfOk result (λ changes. StandFor names.now.terms changes.items (changes_of next.now)) }
{
    let mut changes = removals(alloc, names, next.removed.as_slice())?;
    let added = additions(alloc, names, next.added.as_slice())?;
    changes.extend_from_slice(&added)?;
    Ok(changes)
}

/// The index after a record. It shares with the index what the record leaves.
pub(crate) fn index_after(
    alloc: Global,
    names: &Dict,
    index: &Index,
    next: &Record,
) -> Result<Index, AllocError>
    requires named { IsNamedRecord names.now.terms next.now }
    requires numbered { AreNumbered names.now.terms index.now }
    ensures index { IfOk result (KeepsIndex names.now.terms index.now next.now) }
    ensures numbered { IfOk result (AreNumbered names.now.terms) }
{
    names.recall_numbering();
    index.recall_ascending();
    let changes = number_changes(alloc, names, next)?;
    let mut later = index.share()?;
    later.apply(&changes)?;
    Ok(later)
}
