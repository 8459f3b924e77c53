//! The numbers of the blank nodes in records.
ghost use Rattle.std.specs.Prelude.{◌≡◌, ◌<◌, ◌≤◌, ◌^◌, false, IfOk, Option, None, Some, List};
ghost use Rattle.std.specs.List.{AllByRecursion, flat_map, list_any};
ghost use Rattle.store_model.specs.Store.{terms_of};
ghost use Rattle.commit_core.specs.Restored.{record_terms, shapes_terms};
ghost use Rattle.log_command.specs.Nodes;

use collections::Sequence;
use rdf_model::{Term, Triple};
use record_text::Record;
use std::alloc::{AllocError, Global};

// A session numbers the blank nodes of a file from its first number on. Above this one there may not be enough numbers left.
const MOST_NUMBER: u32 = 4_278_190_078;

fn is_past_most(term: &Term) -> bool
    ensures { result ≡ Nodes.is_past_most term.now }
{
    match term {
        Term::Blank { session: _, number } => *number > MOST_NUMBER,
        Term::Iri(_) => false,
        Term::Literal { .. } => false,
    }
}

fn has_one_past_most(triple: &Triple) -> bool
    ensures { result ≡ list_any Nodes.is_past_most (terms_of triple.now) }
{
    is_past_most(&triple.subject) || is_past_most(&triple.predicate) || is_past_most(&triple.object)
}

fn have_one_past_most(triples: &[Triple]) -> bool
    ensures { result ≡ Nodes.have_past_most triples.now }
{
    triples.iter().any(|triple| has_one_past_most(triple))
}

fn have_shapes_past_most(shapes: &Option<Sequence<Triple>>) -> bool
    ensures { result ≡ Nodes.have_shapes_past_most shapes.now }
{
    match shapes {
        Some(triples) => have_one_past_most(triples.as_slice()),
        None => false,
    }
}

fn has_record_past_most(entry: &Record) -> bool
    ensures { result ≡ Nodes.has_record_past_most entry.now }
{
    have_one_past_most(entry.removed.as_slice())
        || have_one_past_most(entry.added.as_slice())
        || have_shapes_past_most(&entry.shapes)
}

fn have_record_past_most(records: &[Record]) -> bool
    ensures { result ≡ list_any Nodes.has_record_past_most records.now }
{
    records.iter().any(|entry| has_record_past_most(entry))
}

/// Whether a blank node of the records has a number over 4,278,190,078.
pub(crate) fn is_spent(records: &[Record]) -> bool
    ensures { result ≡ Nodes.is_spent records.now }
{
    have_record_past_most(records)
}

fn number_in(session: u32, term: &Term) -> u32
    ensures { result ≡ Nodes.number_in session term.now }
{
    match term {
        Term::Blank {
            session: other,
            number,
        } => { if *other == session { *number } else { 0 } }
        Term::Iri(_) => 0,
        Term::Literal { .. } => 0,
    }
}

fn larger(a: u32, b: u32) -> u32
    ensures { result ≡ Nodes.larger a b }
{
    if a < b { b } else { a }
}

fn greatest_in_triple(session: u32, triple: &Triple) -> u32
    ensures { result ≡ Nodes.greatest session (terms_of triple.now) }
{
    let of_object = larger(number_in(session, &triple.object), 0);
    let of_both = larger(number_in(session, &triple.predicate), of_object);
    larger(number_in(session, &triple.subject), of_both)
}

fn greatest_in_triples(session: u32, triples: &[Triple]) -> u32
    ensures { result ≡ Nodes.greatest session (flat_map terms_of triples.now) }
{
    let mut greatest = 0;
    for triple in triples {
        greatest = larger(greatest, greatest_in_triple(session, triple));
    }
    greatest
}

fn greatest_in_shapes(session: u32, shapes: &Option<Sequence<Triple>>) -> u32
    ensures { result ≡ Nodes.greatest session (shapes_terms shapes.now) }
{
    match shapes {
        Some(triples) => greatest_in_triples(session, triples.as_slice()),
        None => 0,
    }
}

fn greatest_in_record(session: u32, entry: &Record) -> u32
    ensures { result ≡ Nodes.greatest session (record_terms entry.now) }
{
    let in_added = greatest_in_triples(session, entry.added.as_slice());
    let in_shapes = greatest_in_shapes(session, &entry.shapes);
    let in_both = larger(in_added, in_shapes);
    larger(
        greatest_in_triples(session, entry.removed.as_slice()),
        in_both,
    )
}

fn greatest_in(session: u32, records: &[Record]) -> u32
    ensures { result ≡ Nodes.greatest session (Nodes.terms_in records.now) }
{
    let mut greatest = 0;
    for entry in records {
        greatest = larger(greatest, greatest_in_record(session, entry));
    }
    greatest
}

// The first number that a session may give to a blank node.
fn first_number(session: u32, records: &[Record]) -> u32
    requires { Nodes.is_spent records.now ≡ false }
    ensures { result ≡ Nodes.first_number records.now session }
{
    greatest_in(session, records) + 1
}

/// The first numbers that the sessions up to this one may give to a blank node.
pub(crate) fn first_numbers(
    alloc: Global,
    records: &[Record],
    sessions: u32,
) -> Result<Sequence<u32>, AllocError>
    requires unspent { Nodes.is_spent records.now ≡ false }
    requires few { sessions ≤ 64 }
    ensures numbers { IfOk result (λ numbers. numbers ≡ Nodes.first_numbers records.now sessions) }
    ensures within { IfOk result (AllByRecursion Nodes.IsFirstNumber) }
{
    let mut numbers = Sequence::new(alloc);
    for before in 0..sessions {
        numbers.push(first_number(before + 1, records))?;
    }
    Ok(numbers)
}
