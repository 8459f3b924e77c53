//! The triples of a log's records by the numbers of their terms.
ghost use Rattle.std.specs.Prelude.{◌≡◌, ◌+◌, ◌<◌, ◌≤◌, ◌^◌, ◌++◌, IfErr, IfOk, OnOk, length};
ghost use Rattle.commit_core.specs.RestoredParts.{AreNamedRecords, AreRecordIds, HaveTooMany, all_triples, record_triples, staged_triples, triples_in};

use crate::name_list::name_fresh;
use collections::Sequence;
use data_graph::ValidatedGraph;
use numbered_lists::TripleList;
use page_index::Pages;
use rdf_model::{Ids, Term, Triple};
use record_text::Record;
use std::alloc::{AllocError, Global};
use term_dict::NameFault;
use triple_table::TripleTable;

fn push_triples(table: &mut TripleTable, triples: &[Triple]) -> Result<(), AllocError>
    ensures { OnOk result (table.new ≡ table.old ++ triples.now) }
{
    for triple in triples {
        table.push_terms(&triple.subject, &triple.predicate, triple.object.clone()?)?;
    }
    Ok(())
}

fn push_staged(table: &mut TripleTable, shapes: &Option<Sequence<Triple>>) -> Result<(), AllocError>
    ensures { OnOk result (table.new ≡ table.old ++ staged_triples shapes.now) }
{
    match shapes {
        Some(triples) => push_triples(table, triples.as_slice()),
        None => Ok(()),
    }
}

// Adds the triples of a record.
fn push_record(table: &mut TripleTable, entry: &Record) -> Result<(), AllocError>
    ensures { OnOk result (table.new ≡ table.old ++ record_triples entry.now) }
{
    push_triples(table, entry.removed.as_slice())?;
    push_triples(table, entry.added.as_slice())?;
    push_staged(table, &entry.shapes)?;
    Ok(())
}

// The triples of the records, in the order in which their terms are named.
fn list_triples(alloc: Global, records: &[Record]) -> Result<TripleList, AllocError>
    ensures { IfOk result (λ list. list ≡ all_triples records.now) }
{
    let mut table = TripleTable::new(alloc);
    for entry in records {
        push_record(&mut table, entry)?;
    }
    let (terms, triples) = table.into_terms();
    Ok(TripleList::from_parts(terms.into_list(), triples))
}

// The triples of the numbers of their terms, one after the other.
fn triples_of(alloc: Global, numbers: &[u32]) -> Result<Sequence<Ids>, AllocError>
    ensures { IfOk result (λ ids. ids ≡ triples_in numbers.now) }
{
    let mut ids = Vec::with_capacity(alloc, numbers.len() / 3)?;
    let mut rest = numbers;
    while let [subject, predicate, object, behind @ ..] = rest {
        ids.push(Ids {
            subject: *subject,
            predicate: *predicate,
            object: *object,
        })?;
        rest = behind;
    }
    Ok(Sequence::from_vec(ids))
}

/// The terms of some records, named in a graph with no triple, the blank nodes among them, and the triples of all records by the
/// numbers of their terms, in their order.
pub(crate) struct NamedRecords {
    pub(crate) graph: ValidatedGraph,
    pub(crate) given: Pages<Term>,
    pub(crate) ids: Sequence<Ids>,
}

// Written by hand, so that what owns such records calls it in place of having it written out.
impl Drop for NamedRecords {
    fn drop(self) {
        let NamedRecords {
            graph: _,
            given: _,
            ids: _,
        } = self;
    }
}

impl NamedRecords {
    /// The blank nodes alone.
    pub(crate) fn into_given(self) -> Pages<Term>
        ensures { result ≡ self.given }
    {
        let NamedRecords {
            graph: _,
            given,
            ids: _,
        } = self;
        given
    }
}

/// Names the terms of the records, of which there may be as many beside the first two as the limit says.
pub(crate) fn name_records(
    alloc: Global,
    limit: usize,
    records: &[Record],
) -> Result<NamedRecords, NameFault>
    requires { limit + 2 < 2 ^ 32 }
    ensures named { IfOk result (AreNamedRecords limit records.now) }
    ensures cause { IfErr result (HaveTooMany limit records.now) }
{
    let list = list_triples(alloc, records)?;
    let graph = ValidatedGraph::new(alloc, limit)?;
    let (named, numbers) = name_fresh(alloc, &graph, &list)?;
    let ids = triples_of(alloc, numbers.as_slice())?;
    let (graph, given, _) = named.into_parts();
    Ok(NamedRecords { graph, given, ids })
}

/// The triples that a record removed and those that it added by number, and the numbers of what comes behind the record.
#[derive(Clone, Copy)]
pub(crate) struct RecordIds<'a> {
    pub(crate) removed: &'a [Ids],
    pub(crate) added: &'a [Ids],
    pub(crate) rest: &'a [Ids],
}

// How many triples were staged.
fn count_staged(shapes: &Option<Sequence<Triple>>) -> usize
    ensures { result ≡ length (staged_triples shapes.now) }
{
    match shapes {
        Some(triples) => triples.len(),
        None => 0,
    }
}

/// The numbers of the record's triples, which stand first among these.
pub(crate) fn split_record<'a>(entry: &Record, ids: &'a [Ids]) -> RecordIds<'a>
    requires { length (record_triples entry.now) ≤ length ids.now }
    ensures { AreRecordIds entry.now ids.now result }
{
    let (removed, behind) = ids.split_at(entry.removed.len());
    let (added, behind) = behind.split_at(entry.added.len());
    let (_, rest) = behind.split_at(count_staged(&entry.shapes));
    RecordIds {
        removed,
        added,
        rest,
    }
}
