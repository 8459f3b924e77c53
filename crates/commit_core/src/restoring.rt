//! A store restored from the records of a log.
ghost use Rattle.std.specs.Prelude.{◌≡◌, ◌≤◌, ◌<◌, ◌+◌, ◌^◌, ◌∷◌, ◌++◌, [], IfOk, MatchOption, MatchResult, OnOk, length, map, not};
ghost use Rattle.std.specs.List.{list_all};
ghost use Rattle.rdf_model.specs.Numbers.{AreNumbered, graph_of};
ghost use Rattle.rdf_model.specs.Terms.{triple_cmp};
ghost use Rattle.record_text.specs.declared.record.Record.{Record as RecordData};
ghost use Rattle.collections.specs.Ordered.{IsAscending, has_item};
ghost use Rattle.parallel_validate.specs.Counting.{GrowsByCount, IsTargetPair};
ghost use Rattle.commit_log.specs.Format.{AreRecordsFrom};
ghost use Rattle.store_model.specs.declared.event.Limits.{Limits as LimitsData};
ghost use Rattle.store_model.specs.Store.{shapes_under};
ghost use Rattle.triple_index.specs.declared.change.NumberedChange.TheVariants.{Add, Remove};
ghost use Rattle.commit_core.specs.Restored.{IsRestoreFault, IsRestored, accepted_by, fits_record, restored};
ghost use Rattle.commit_core.specs.RestoredParts.{AreNamedRecords, IsAfterRecord, IsGraphWithin, IsLastGraph, IsMisfit, IsRecordOf, StandFor, all_triples};

use crate::bounds::Bounds;
use crate::outcome::Outcome;
use crate::recorded::{NamedRecords, name_records, split_record};
use crate::store::{Core, new_history};
use data_graph::DataGraph;
use rdf_model::Ids;
use record_text::Record;
use shape_eval::Steps;
use shapes_graph::ShapesGraph;
use snapshot_store::Commits;
use std::alloc::{AllocError, Global};
use std::sync::ledger::Ledger;
use std::thread::Threads;
use store_model::Limits;
use term_dict::{Dict, NameFault};
use triple_index::NumberedChange;

/// Why no store was restored.
#[derive(Clone, Copy, Debug, PartialEq, Eq)]
pub enum RestoreFault {
    /// The record with this number removes a triple that is absent, or adds one that is present; it is
    /// the first such.
    Misfit { record: u64 },
    /// The terms of the records, or the triples of the last graph, are more than the limit.
    TooLarge,
    /// The last graph has a result that blocks.
    Blocked,
    Memory,
}

impl From<AllocError> for RestoreFault {
    ghost use Rattle.commit_core.specs.declared.restoring.RestoreFault.TheVariants as faults;
    ghost use Rattle.std.specs.Prelude.{◌≡◌};

    ghost from_gives = { λ _ e. e ≡ faults.Memory };

    fn from(_error: AllocError) -> Self {
        RestoreFault::Memory
    }
}

/// The last record that staged a shapes graph: that is the shapes graph that the records lead to, or the empty one where none
/// did.
pub fn last_staged(records: &[Record]) -> Option<&Record>
    ensures { MatchOption result ((restored records.now).shapes ≡ []) (λ entry. (restored records.now).shapes ≡ shapes_under [] entry.now.shapes) }
{
    let mut last = None;
    for entry in records {
        match &entry.shapes {
            Some(_) => last = Some(entry),
            None => {}
        }
    }
    last
}

// Whether the graph has each of the triples.
fn has_each(graph: &DataGraph, triples: &[Ids]) -> bool
    requires { AreNumbered graph.now.terms triples.now }
    ensures { result ≡ list_all (λ t. has_item triple_cmp t graph.now.triples) (graph_of graph.now.terms triples.now) }
{
    for ids in triples {
        if !graph.contains_numbers(*ids) {
            return false;
        }
    }
    true
}

// Whether the graph has none of the triples.
fn has_none(graph: &DataGraph, triples: &[Ids]) -> bool
    requires { AreNumbered graph.now.terms triples.now }
    ensures { result ≡ list_all (λ t. not (has_item triple_cmp t graph.now.triples)) (graph_of graph.now.terms triples.now) }
{
    for ids in triples {
        if graph.contains_numbers(*ids) {
            return false;
        }
    }
    true
}

// The removals of some triples, then the additions of others.
fn changes_of(
    alloc: Global,
    removed: &[Ids],
    added: &[Ids],
) -> Result<Vec<NumberedChange>, AllocError>
    ensures { IfOk result (λ changes. changes.items ≡ map Remove removed.now ++ map Add added.now) }
{
    let mut changes = Vec::new(alloc);
    for ids in removed {
        changes.push(NumberedChange::Remove(*ids))?;
    }
    for ids in added {
        changes.push(NumberedChange::Add(*ids))?;
    }
    Ok(changes)
}

// Whether a record fits that removed and added the triples of these numbers.
fn does_fit(graph: &DataGraph, removed: &[Ids], added: &[Ids]) -> bool
    requires removed { AreNumbered graph.now.terms removed.now }
    requires added { AreNumbered graph.now.terms added.now }
    ensures { (entry : RecordData) → IsRecordOf graph.now.terms removed.now added.now entry → result ≡ fits_record graph.now.triples entry }
{
    has_each(graph, removed) && has_none(graph, added)
}

// The graph after a record that removed and added the triples of these numbers.
fn after_record(
    alloc: Global,
    graph: &DataGraph,
    removed: &[Ids],
    added: &[Ids],
) -> Result<DataGraph, AllocError>
    requires removed { AreNumbered graph.now.terms removed.now }
    requires added { AreNumbered graph.now.terms added.now }
    ensures { IfOk result (λ next. (entry : RecordData) → IsRecordOf graph.now.terms removed.now added.now entry → IsAfterRecord graph.now entry next) }
{
    let changes = changes_of(alloc, removed, added)?;
    graph.after_numbers(&changes)
}

// The graph that the records lead to, where each fits. The numbers are those of their triples.
fn last_graph(
    alloc: Global,
    named: &DataGraph,
    numbers: &[Ids],
    records: &[Record],
) -> Result<DataGraph, RestoreFault>
    requires numbered { AreRecordsFrom 1 records.now }
    requires empty { named.now.triples ≡ [] }
    requires numbers { StandFor named.now.terms numbers.now (all_triples records.now) }
    ensures { MatchResult result (IsLastGraph named.now records.now) (IsMisfit records.now) }
{
    let mut graph = named.share()?;
    let mut rest = numbers;
    for entry in records {
        let ids = split_record(entry, rest);
        if !does_fit(&graph, ids.removed, ids.added) {
            return Err(RestoreFault::Misfit {
                record: entry.number,
            });
        }
        graph = after_record(alloc, &graph, ids.removed, ids.added)?;
        rest = ids.rest;
    }
    Ok(graph)
}

// How many terms may be named beside the first two, at most.
const MOST_TERMS: usize = 4294967293;

// The first record that doesn't fit, where the terms of the records are more than the limit; or else that they are.
fn fault_of_many(alloc: Global, records: &[Record]) -> RestoreFault
    requires { AreRecordsFrom 1 records.now }
    ensures { (limits : LimitsData) → limits.terms + 2 < length (restored records.now).named → IsRestoreFault limits records.now result }
{
    let Ok(named) = name_records(alloc, MOST_TERMS, records) else {
        return RestoreFault::Memory;
    };
    match last_graph(alloc, named.graph.graph(), named.ids.as_slice(), records) {
        Ok(_) => RestoreFault::TooLarge,
        Err(fault) => fault,
    }
}

// The terms of the records, named within the limit; else why there is no store.
fn named_within(
    alloc: Global,
    limits: Limits,
    records: &[Record],
) -> Result<NamedRecords, RestoreFault>
    requires small { limits.terms + 2 < 2 ^ 32 }
    requires numbered { AreRecordsFrom 1 records.now }
    ensures { MatchResult result (AreNamedRecords limits.terms records.now) (IsRestoreFault limits records.now) }
{
    match name_records(alloc, limits.terms, records) {
        Ok(named) => Ok(named),
        Err(NameFault::Full { count: _ }) => Err(fault_of_many(alloc, records)),
        Err(NameFault::Memory) => Err(RestoreFault::Memory),
    }
}

// The graph that the records lead to, with the shapes graph that they lead to; else why there is no store.
fn graph_within(
    alloc: Global,
    limits: Limits,
    named: &NamedRecords,
    records: &[Record],
    shapes: ShapesGraph,
) -> Result<DataGraph, RestoreFault>
    requires numbered { AreRecordsFrom 1 records.now }
    requires named { AreNamedRecords limits.terms records.now named.now }
    requires shapes { shapes ≡ (restored records.now).shapes }
    ensures { MatchResult result (IsGraphWithin limits records.now) (IsRestoreFault limits records.now) }
{
    let mut graph = last_graph(alloc, named.graph.graph(), named.ids.as_slice(), records)?;
    if graph.len() > limits.triples {
        return Err(RestoreFault::TooLarge);
    }
    graph.replace_shapes(shapes)?;
    Ok(graph)
}

// The numbers of the triples that a record changed.
fn changed_by(alloc: Global, removed: &[Ids], added: &[Ids]) -> Result<Vec<Ids>, AllocError>
    ensures { IfOk result (λ changed. changed.items ≡ removed.now ++ added.now) }
{
    let mut changed = Vec::new(alloc);
    changed.extend_from_slice(removed)?;
    changed.extend_from_slice(added)?;
    Ok(changed)
}

// Adds the commit of a record, which changed the triples of these numbers, as a store keeps it.
fn add_commit(
    names: &Dict,
    commits: &mut Commits,
    entry: &Record,
    changed: Vec<Ids>,
) -> Result<(), AllocError>
    requires removed { IsAscending triple_cmp entry.now.removed }
    requires changed { StandFor names.now.terms changed.items (entry.now.removed ++ entry.now.added) }
    requires names { commits.old.names ≡ names.now.terms }
    ensures { OnOk result ((commits.new.commits ≡ commits.old.commits ++ accepted_by entry.now ∷ []) × (commits.new.names ≡ names.now.terms)) }
{
    let share = names.share()?;
    commits.make_room()?;
    commits.push_reserved(share, changed, entry.shapes.is_some());
    Ok(())
}

// The commits of the records. The numbers are those of their triples.
fn commits_of(
    alloc: Global,
    names: &Dict,
    numbers: &[Ids],
    records: &[Record],
) -> Result<Commits, AllocError>
    requires numbered { AreRecordsFrom 1 records.now }
    requires numbers { StandFor names.now.terms numbers.now (all_triples records.now) }
    ensures { IfOk result (λ commits. (commits.commits ≡ (restored records.now).commits) × (commits.names ≡ names.now.terms)) }
{
    let mut commits = Commits::new(alloc, names.share()?);
    let mut rest = numbers;
    for entry in records {
        let ids = split_record(entry, rest);
        let changed = changed_by(alloc, ids.removed, ids.added)?;
        add_commit(names, &mut commits, entry, changed)?;
        rest = ids.rest;
    }
    Ok(commits)
}

impl Core {
    /// The store that the records of a log lead to: their graphs and commits, their terms named, and their blank nodes given
    /// out. No session is, and the history is empty. The shapes graph is the last that a record
    /// staged, or the empty one.
    ///
    /// `Misfit` comes before the other faults, and `TooLarge` before `Blocked`. The last graph is validated whole; the
    /// evaluations are counted in `steps`, one for each pair of a shape and its target, and threads share them out among each
    /// other.
    pub fn restore<L: Ledger, T: Threads + Sync>(
        rt: &T,
        alloc: Global,
        limits: Limits,
        records: Vec<Record>,
        shapes: ShapesGraph,
        steps: &mut Steps<L>,
    ) -> Result<Core, RestoreFault>
        requires small { limits.terms + 2 < 2 ^ 32 }
        requires numbered { AreRecordsFrom 1 records.items }
        requires shapes { shapes ≡ (restored records.items).shapes }
        ensures store { MatchResult result (IsRestored limits records.items) (IsRestoreFault limits records.items) }
        ensures steps { OnOk result (GrowsByCount (IsTargetPair (restored records.items).graph (restored records.items).shapes) steps.old steps.new) }
        ensures counted { steps.old ≤ steps.new }
    {
        let named = named_within(alloc, limits, &records)?;
        let graph = graph_within(alloc, limits, &named, &records, shapes)?;
        let outcome = Outcome::whole(rt, limits.mode, graph, steps)?;
        let blocks = outcome.blocks;
        if blocks {
            return Err(RestoreFault::Blocked);
        }
        let graph = outcome.into_graph();
        let commits = commits_of(alloc, graph.names(), named.ids.as_slice(), &records)?;
        let history = new_history(&graph)?;
        Ok(Core {
            alloc,
            bounds: Bounds {
                triples: limits.triples,
                mode: limits.mode,
            },
            records,
            graph,
            commits,
            given: named.into_given(),
            opened: 0,
            stopped: false,
            history,
        })
    }

    /// The records that the store was restored from.
    pub fn records(&self) -> &[Record]
        ensures { self.now.start ≡ restored result.now }
    {
        &self.records
    }
}
