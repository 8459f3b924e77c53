//! A commit that is appended to a log before it is answered.
ghost use Rattle.std.specs.Prelude.{false, ◌≡◌, IfOk, MatchBool, List, not};
ghost use Rattle.std.specs.List.{filter};
ghost use Rattle.collections.specs.Ordered.{has_item};
ghost use Rattle.rdf_model.specs.Terms.{triple_cmp};
ghost use Rattle.disk.specs.Crashes.{Throughout};
ghost use Rattle.commit_log.specs.Log.{IsSameLater, OpensOneOf};
ghost use Rattle.record_text.specs.declared.record.Record.{Record as RecordData};
ghost use Rattle.record_text.specs.Records.{IsReadableRecord};
ghost use Rattle.store_model.specs.Store.{IsCommittable, IsOpened, version};
ghost use Rattle.commit_core.specs.Commits.{Answers, AreChanged, IsPlan, data_of};
ghost use Rattle.commit_core.specs.Logged.{IsBeside, IsInStep, IsLoggable, IsRecordOf, LogsCommit, logged, record_of};
ghost use Rattle.commit_core.specs.Verdicts.{AreOfVerdict, AreReasons, IsHeld};
ghost use Rattle.commit_core.specs.Work.{AnswerSteps, CommitSteps, IsByResults, is_no};

use crate::commit::{Acceptance, CheckedTransaction, Commit, Plan, ReasonedTransaction, Reasons};
use crate::reasons::{find_reasons, has_held};
use crate::store::{Core, room_for, slip};
use collections::Sequence;
use commit_log::{AppendFault, Log};
use data_graph::DataGraph;
use disk::Disk;
use event_history::{AcceptedCommit, Slip};
use rdf_model::Triple;
use record_text::Record;
use shape_eval::Steps;
use shapes_graph::ShapesGraph;
use std::alloc::{AllocError, Global};
use std::sync::ledger::Ledger;
use std::thread::Threads;
use store_model::{Action, Event, Overtaker, Reply, Transaction};

// Those of the triples that are in the graph, and those that aren't.
fn parted(
    alloc: Global,
    graph: &DataGraph,
    triples: &[Triple],
) -> Result<(Vec<Triple>, Vec<Triple>), AllocError>
    ensures { IfOk result (λ parts. (parts.0.items ≡ filter (λ t. has_item triple_cmp t graph.now.triples) triples.now) × (parts.1.items ≡ filter (λ t. not (has_item triple_cmp t graph.now.triples)) triples.now)) }
{
    let mut there = Vec::new(alloc);
    let mut absent = Vec::new(alloc);
    for triple in triples {
        if graph.contains(triple) {
            there.push(triple.clone()?)?;
        } else {
            absent.push(triple.clone()?)?;
        }
    }
    Ok((there, absent))
}

// The triples of the staged shapes graph, if there is one.
fn staged_triples(
    alloc: Global,
    staged: &Option<ShapesGraph>,
) -> Result<Option<Sequence<Triple>>, AllocError>
    ensures { IfOk result (λ triples. triples ≡ staged.now) }
{
    match staged {
        Some(shapes) => Ok(Some(Sequence::copied_from(alloc, shapes.triples())?)),
        None => Ok(None),
    }
}

// The record of a commit with this number, by the graph before it and the triples that it changes.
fn record_of_changes(
    alloc: Global,
    number: u64,
    graph: &DataGraph,
    changed: &[Triple],
    staged: &Option<ShapesGraph>,
) -> Result<Record, AllocError>
    ensures { IfOk result (IsRecordOf number graph.now.triples changed.now staged.now) }
{
    let (removed, added) = parted(alloc, graph, changed)?;
    Ok(Record {
        number,
        removed: Sequence::from_vec(removed),
        added: Sequence::from_vec(added),
        shapes: staged_triples(alloc, staged)?,
    })
}

impl Core {
    // The record of a commit that is accepted.
    fn record_of_commit(
        &self,
        transaction: &Transaction,
        acceptance: &Acceptance,
    ) -> Result<Record, AllocError>
        requires loggable { IsLoggable transaction.now }
        requires changed { AreChanged (data_of self.now) transaction.now.net acceptance.now.changed.items }
        ensures is { IfOk result (λ entry. entry ≡ record_of self.now.state.graph (version self.now.state) transaction.now) }
        ensures readable { IfOk result IsReadableRecord }
    {
        self.recall_consistent();
        let number = self.commits.version() + 1;
        let graph = self.graph.graph();
        let changed = graph.triples_of(&acceptance.changed)?;
        let entry = record_of_changes(self.alloc, number, graph, &changed, &transaction.staged)?;
        Ok(entry)
    }

    // Appends the record of a commit, then puts the next graphs in place, and records the commit that makes them. Where the log
    // fails, the core is stopped.
    fn accept_logged<D: Disk>(
        &mut self,
        slip: Slip,
        session: u32,
        checked: CheckedTransaction,
        acceptance: Acceptance,
        reasons: Reasons,
        log: &mut Log<D>,
    ) -> Commit
        requires running { self.old.state.stopped ≡ false }
        requires opened { IsOpened self.old.state session }
        requires committable { IsCommittable self.old.state checked.transaction }
        requires plan { IsPlan self.old.limits (data_of self.old) self.old.state.commits checked.transaction (Plan.Accept acceptance) }
        requires reasons { AreReasons self.old.state.commits checked.transaction reasons }
        requires beside { IsBeside self.old log.old }
        requires loggable { IsLoggable checked.transaction }
        ensures answer { Answers result self.old self.new session checked }
        ensures by_results { IsByResults reasons.answer result }
        ensures log { LogsCommit D.tells D.bytes D.history D.faults (record_of self.old.state.graph (version self.old.state) checked.transaction) log.old log.new result }
        ensures same { IsSameLater D.chosen D.faults log.old.disk log.new.disk }
    {
        let Ok(entry) = self.record_of_commit(&checked.transaction, &acceptance) else {
            return Commit::Memory(checked);
        };
        let Ok(names) = room_for(&mut self.commits, &self.graph) else {
            return Commit::Memory(checked);
        };
        match log.append(self.alloc, &entry) {
            Err(AppendFault::Closed) => unreachable!(),
            Err(AppendFault::Memory) => Commit::Memory(checked),
            Err(AppendFault::Failed) => {
                self.stopped = true;
                self.history.push(
                    slip,
                    Event {
                        session,
                        action: Action::Commit(checked.into_transaction()),
                        reply: Reply::LogFault,
                    },
                );
                Commit::LogFault
            }
            Ok(()) => {
                let (graph, changed, staged, net) = acceptance.into_parts();
                self.commits.push_reserved(names, changed, staged);
                let number = self.commits.version();
                let (again, recorded) = reasons.into_parts();
                self.history.push_accepted(
                    slip,
                    AcceptedCommit {
                        session,
                        transaction: checked.without_changes(self.alloc),
                        net: Sequence::from_vec(net),
                        reply: Reply::Done(number, recorded),
                    },
                );
                self.graph = graph;
                Commit::Done { number, again }
            }
        }
    }

    // Carries out the plan of a commit to a log.
    fn commit_logged_by_plan<D: Disk, L: Ledger, T: Threads + Sync>(
        &mut self,
        rt: &T,
        slip: Slip,
        session: u32,
        reasoned: ReasonedTransaction,
        log: &mut Log<D>,
        steps: &mut Steps<L>,
    ) -> Commit
        requires running { self.old.state.stopped ≡ false }
        requires opened { IsOpened self.old.state session }
        requires committable { IsCommittable self.old.state reasoned.checked.transaction }
        requires reasons { AreReasons self.old.state.commits reasoned.checked.transaction reasoned.reasons }
        requires found { MatchBool (is_no reasoned.reasons.answer) (IsHeld self.old reasoned.checked.transaction reasoned.checked.pairs) (Unit {0}) }
        requires beside { IsBeside self.old log.old }
        requires loggable { IsLoggable reasoned.checked.transaction }
        ensures answer { Answers result self.old self.new session reasoned.checked }
        ensures steps { AnswerSteps (is_no reasoned.reasons.answer) reasoned.reasons.answer self.old.state reasoned.checked.transaction steps.old steps.new result }
        ensures log { LogsCommit D.tells D.bytes D.history D.faults (record_of self.old.state.graph (version self.old.state) reasoned.checked.transaction) log.old log.new result }
        ensures same { IsSameLater D.chosen D.faults log.old.disk log.new.disk }
    {
        let ReasonedTransaction { checked, reasons } = reasoned;
        let held = has_held(&reasons.answer);
        match self.plan(rt, &checked, held, steps) {
            Err(_) => Commit::Memory(checked),
            Ok(Plan::Overtaken(overtaker, triple)) => {
                let Overtaker {
                    commit,
                    triple: first,
                } = overtaker;
                let reply = Reply::Conflict(commit, first);
                self.refuse(slip, session, checked.into_transaction(), reply);
                Commit::Conflict { commit, triple }
            }
            Ok(Plan::TooLarge(count)) => {
                let reply = Reply::FullTriples(count);
                self.refuse(slip, session, checked.into_transaction(), reply);
                Commit::FullTriples { count }
            }
            Ok(Plan::Refuse(refusal)) => {
                self.refuse_invalid(slip, session, checked, refusal, reasons)
            }
            Ok(Plan::Accept(acceptance)) => {
                self.accept_logged(slip, session, checked, acceptance, reasons, log)
            }
        }
    }

    // The commit of a transaction, by its answer.
    fn commit_to_log<D: Disk, L: Ledger, T: Threads + Sync>(
        &mut self,
        rt: &T,
        session: u32,
        checked: CheckedTransaction,
        log: &mut Log<D>,
        steps: &mut Steps<L>,
    ) -> Commit
        requires opened { IsOpened self.old.state session }
        requires committable { IsCommittable self.old.state checked.transaction }
        requires verdict { AreOfVerdict self.old checked.transaction.net checked.transaction.verdict checked.pairs }
        requires beside { IsBeside self.old log.old }
        requires loggable { IsLoggable checked.transaction }
        ensures answer { Answers result self.old self.new session checked }
        ensures steps { CommitSteps result self.old.state checked.transaction steps.old steps.new }
        ensures log { LogsCommit D.tells D.bytes D.history D.faults (record_of self.old.state.graph (version self.old.state) checked.transaction) log.old log.new result }
        ensures same { IsSameLater D.chosen D.faults log.old.disk log.new.disk }
    {
        let Ok(slip) = slip(self.alloc) else {
            return Commit::Memory(checked);
        };
        if self.stopped {
            let version = self.commits.version();
            let reply = Reply::Stopped(version);
            self.refuse(slip, session, checked.into_transaction(), reply);
            return Commit::Stopped { version };
        }
        let Ok(reasons) = find_reasons(&self.commits, &checked.transaction) else {
            return Commit::Memory(checked);
        };
        let reasoned = ReasonedTransaction { checked, reasons };
        self.commit_logged_by_plan(rt, slip, session, reasoned, log, steps)
    }

    /// Commits a transaction as `commit` does, and appends its record to the log of this core, after all memory is taken and
    /// before its graph is in place. Until the log fails its last number is the core's version; what the record has to give back
    /// can be read.
    ///
    /// Where the log fails, for which its disk is to blame, nothing is committed, and the core is stopped. `Done` is answered
    /// only where each crash leaves the record; at each moment of the call a crash leaves the records that there were, or these
    /// and the new one. After all other answers the log is as it was.
    pub fn commit_logged<D: Disk, L: Ledger, T: Threads + Sync>(
        &mut self,
        rt: &T,
        session: u32,
        checked: CheckedTransaction,
        log: &mut Log<D>,
        steps: &mut Steps<L>,
    ) -> Commit
        requires opened { IsOpened self.old.state session }
        requires committable { IsCommittable self.old.state checked.transaction }
        requires verdict { AreOfVerdict self.old checked.transaction.net checked.transaction.verdict checked.pairs }
        requires beside { IsBeside self.old log.old }
        requires loggable { IsLoggable checked.transaction }
        ensures answer { Answers result self.old self.new session checked }
        ensures steps { CommitSteps result self.old.state checked.transaction steps.old steps.new }
        ensures log { LogsCommit D.tells D.bytes D.history D.faults (record_of self.old.state.graph (version self.old.state) checked.transaction) log.old log.new result }
        ensures step { (base : List RecordData) → IsInStep D.tells D.bytes D.history base self.old log.old → IsInStep D.tells D.bytes D.history base self.new log.new }
        ensures crash { (base : List RecordData) → IsInStep D.tells D.bytes D.history base self.old log.old → self.old.state.stopped ≡ false → D.tells →
            Throughout (D.history log.old.disk) (D.history log.new.disk) (OpensOneOf (logged base self.old) (record_of self.old.state.graph (version self.old.state) checked.transaction)) }
        ensures same { IsSameLater D.chosen D.faults log.old.disk log.new.disk }
    {
        self.recall_consistent();
        self.commit_to_log(rt, session, checked, log, steps)
    }
}
