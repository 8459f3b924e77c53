//! The store with its history, step by step.
ghost use Rattle.std.specs.Prelude.{false, ◌≡◌, ◌+◌, ◌≤◌, ◌<◌, ◌^◌, [], MatchBool, length, map, IfOk, OnOk, OnErr, MatchResult};
ghost use Rattle.store_model.specs.Store.{RecordedStore, empty_store, Step, TakesStep, IsOpened, IsCommittable, NetNamed, numbers_of, version};
ghost use Rattle.store_model.specs.Snapshots.{snapshot_of};
ghost use Rattle.store_model.specs.Nodes.{unknown_by};
ghost use Rattle.std.specs.List.{AllByRecursion};
ghost use Rattle.event_history.specs.Named.{terms_at};
ghost use Rattle.parallel_validate.specs.Counting.{GrowsByCount};
ghost use Rattle.parallel_validate.specs.Verdicts.{IsEvaluated};
ghost use Rattle.shape_model.specs.Validation.{Listing};
ghost use Rattle.data_graph.specs.DataGraphs.{with_changes};
ghost use Rattle.data_graph.specs.Pairs.{IsAfterCheck};
ghost use Rattle.commit_core.specs.Commits.{Answers, AreChanged, AreNumberedChanges, HasNoFault, IsJudged, IsPlan, IsRefusal, TakesCommit, committed_graph, data_of};
ghost use Rattle.commit_core.specs.Verdicts.{AreOfVerdict, AreReasons, IsHeld};
ghost use Rattle.commit_core.specs.Work.{AnswerSteps, CommitSteps, IsByResults, PlanSteps, ResultSteps};
ghost use Rattle.commit_core.specs.Consistent.{IsConsistent};
ghost use Rattle.commit_core.specs.Outcomes.{IsOutcome};
ghost use Rattle.commit_core.specs.Faults.{OpensNone, NamesNone};
ghost use Rattle.commit_core.specs.Naming.{IsNaming};

use crate::bounds::Bounds;
use crate::commit::{
    Acceptance, CheckedTransaction, Commit, NumberedChanges, Plan, ReasonedTransaction, Reasons,
    Refusal, accepting, refusing, stage_shapes,
};
use crate::naming::{NamedTerms, NamingFault, name_terms, unknown_node};
use crate::outcome::Outcome;
use crate::reasons::{find_reasons, has_held};
use crate::snapshot::Snap;
use blocking::pairs_block;
use collections::Sequence;
use data_graph::{DataGraph, NumberHints, ValidatedGraph};
use event_history::{AcceptedCommit, History, NamedBlock, Slip};
use kept_rows::PairRows;
use numbered_lists::Net;
use page_index::Pages;
use rdf_model::{Ids, Term};
use record_text::Record;
use shape_eval::Steps;
use shape_model::ResultRow;
use snapshot_store::Commits;
use std::alloc::{AllocError, Global};
use std::marker::Model;
use std::sync::ledger::Ledger;
use std::thread::Threads;
use store_model::{Action, Event, Limits, NameKind, Overtaker, Reply, Transaction};
use term_dict::{Dict, NameFault};
use triple_index::NumberedChange;

pub(crate) const MOST_SESSIONS: u32 = 64;

/// Why no session was given out.
#[derive(Clone, Copy, Debug, PartialEq, Eq)]
pub enum SessionFault {
    /// 64 sessions were given out before.
    SessionsFull,
    Memory,
}

impl From<AllocError> for SessionFault {
    ghost use Rattle.commit_core.specs.declared.store.SessionFault.TheVariants as faults;
    ghost use Rattle.std.specs.Prelude.{◌≡◌};

    ghost from_gives = { λ _ e. e ≡ faults.Memory };

    fn from(_error: AllocError) -> Self {
        SessionFault::Memory
    }
}

/// Makes room for one event.
pub fn slip(alloc: Global) -> Result<Slip, AllocError> {
    Slip::new(alloc)
}

// A history without events, by the names of the graph.
pub(crate) fn new_history(graph: &ValidatedGraph) -> Result<History, AllocError>
    ensures { IfOk result (λ history. history ≡ record { events = []; names = graph.now.terms }) }
{
    Ok(History::new(graph.names().share()?))
}

// No commit, by the names of the graph.
fn new_commits(alloc: Global, graph: &ValidatedGraph) -> Result<Commits, AllocError>
    ensures { IfOk result (λ commits. (commits.commits ≡ []) × (commits.names ≡ graph.now.terms)) }
{
    let names = graph.names().share()?;
    Ok(Commits::new(alloc, names))
}

// Room for one commit, and the names of its terms.
pub(crate) fn room_for(commits: &mut Commits, graph: &ValidatedGraph) -> Result<Dict, AllocError>
    ensures same { (commits.new.commits ≡ commits.old.commits) × (commits.new.names ≡ commits.old.names) }
    ensures room { OnOk result (length commits.new.commits < commits.new.room) }
    ensures names { IfOk result (λ names. names.terms ≡ graph.now.terms) }
{
    commits.make_room()?;
    let names = graph.names().share()?;
    Ok(names)
}

/// The store with its history. It begins empty, or at what the records of a log restore. Contracts see its limits, the state
/// that its history begins at, its state and its events. The data graph keeps the shapes graph, the terms that are named, and
/// their limit.
pub struct Core {
    pub(crate) alloc: Global,
    pub(crate) bounds: Bounds,
    // The records that it was restored from.
    pub(crate) records: Vec<Record>,
    // With its results, by the pairs that give them.
    pub(crate) graph: ValidatedGraph,
    pub(crate) commits: Commits,
    // The blank nodes that were given out.
    pub(crate) given: Pages<Term>,
    pub(crate) opened: u32,
    // Whether its log failed.
    pub(crate) stopped: bool,
    pub(crate) history: History,
}

impl Model for Core {
    ghost use Rattle.std.specs.Prelude.{◌≡◌};
    ghost use Rattle.store_model.specs.Store.{RecordedStore};
    ghost use Rattle.commit_core.specs.Consistent.{IsConsistent};
    ghost use Rattle.commit_core.specs.Restored.{restored};
    ghost use Rattle.event_history.specs.Named.{IsBeginning};

    ghost Value = { RecordedStore };

    ghost view = { λ c. record { limits = record { terms = c.graph.limit; triples = c.bounds.triples; mode = c.bounds.mode }; start = restored c.records.items; state = record { graph = c.graph.triples; shapes = c.graph.shapes; commits = c.commits.commits; named = c.graph.terms; given = c.given; opened = c.opened; stopped = c.stopped }; history = c.history.events } };

    ghost invariant = { λ c. IsConsistent (record { limits = record { terms = c.graph.limit; triples = c.bounds.triples; mode = c.bounds.mode }; start = restored c.records.items; state = record { graph = c.graph.triples; shapes = c.graph.shapes; commits = c.commits.commits; named = c.graph.terms; given = c.given; opened = c.opened; stopped = c.stopped }; history = c.history.events }) × (c.history.names ≡ c.graph.terms) × IsBeginning c.commits.names c.graph.terms };
}

// Written by hand, so that what owns a core calls it in place of having it written out.
impl Drop for Core {
    fn drop(self) {
        let Core {
            alloc: _,
            bounds: _,
            records: _,
            graph: _,
            commits: _,
            given: _,
            opened: _,
            stopped: _,
            history: _,
        } = self;
    }
}

impl Core {
    /// An empty store.
    pub fn open(alloc: Global, limits: Limits) -> Result<Core, AllocError>
        requires { limits.terms + 2 < 2 ^ 32 }
        ensures { IfOk result (λ core. core ≡ record { limits = limits; start = empty_store; state = empty_store; history = [] }) }
    {
        let graph = ValidatedGraph::new(alloc, limits.terms)?;
        let history = new_history(&graph)?;
        let commits = new_commits(alloc, &graph)?;
        Ok(Core {
            alloc,
            bounds: Bounds {
                triples: limits.triples,
                mode: limits.mode,
            },
            records: Vec::new(alloc),
            graph,
            commits,
            given: Pages::new(alloc),
            opened: 0,
            stopped: false,
            history,
        })
    }

    /// What every core keeps, for a caller that rests on it. It does nothing.
    pub fn recall_consistent(&self)
        ensures { IsConsistent self.now }
    {
        let _ = &self.opened;
    }

    /// Gives out the next session, from 1.
    pub fn session(&mut self) -> Result<u32, SessionFault>
        ensures { MatchResult result
            (λ session. TakesStep self.old self.new (record { session = session; action = Action.Open; reply = Reply.Session session }))
            (λ fault. OpensNone fault self.old self.new) }
    {
        let slip = slip(self.alloc)?;
        if self.opened >= MOST_SESSIONS {
            self.history.push(
                slip,
                Event {
                    session: 0,
                    action: Action::Open,
                    reply: Reply::SessionsFull,
                },
            );
            return Err(SessionFault::SessionsFull);
        }
        let session = self.opened + 1;
        self.history.push(
            slip,
            Event {
                session,
                action: Action::Open,
                reply: Reply::Session(session),
            },
        );
        self.opened = session;
        Ok(session)
    }

    // The store as it is now.
    fn newest(&self) -> Result<Snap, AllocError>
        ensures { IfOk result (λ snap. snap ≡ snapshot_of self.now.limits.mode self.now.state) }
    {
        Snap::sharing(self.commits.version(), self.bounds.mode, &self.graph)
    }

    /// The newest snapshot, at which a transaction begins.
    pub fn begin(&mut self, session: u32) -> Result<Snap, AllocError>
        requires { IsOpened self.old.state session }
        ensures step { IfOk result (λ snap. TakesStep self.old self.new (record { session = session; action = Action.Begin; reply = Reply.Version snap.number })) }
        ensures snapshot { IfOk result (λ snap. snap ≡ snapshot_of self.old.limits.mode self.old.state) }
        ensures memory { OnErr result (self.new ≡ self.old) }
    {
        let slip = slip(self.alloc)?;
        let snap = self.newest()?;
        self.history.push(
            slip,
            Event {
                session,
                action: Action::Begin,
                reply: Reply::Version(snap.number()),
            },
        );
        Ok(snap)
    }

    /// The newest snapshot, against which a commit is checked beforehand.
    pub fn head(&mut self, session: u32) -> Result<Snap, AllocError>
        requires { IsOpened self.old.state session }
        ensures step { IfOk result (λ snap. TakesStep self.old self.new (record { session = session; action = Action.Head; reply = Reply.Version snap.number })) }
        ensures snapshot { IfOk result (λ snap. snap ≡ snapshot_of self.old.limits.mode self.old.state) }
        ensures memory { OnErr result (self.new ≡ self.old) }
    {
        let slip = slip(self.alloc)?;
        let snap = self.newest()?;
        self.history.push(
            slip,
            Event {
                session,
                action: Action::Head,
                reply: Reply::Version(snap.number()),
            },
        );
        Ok(snap)
    }

    // Puts the names of a block in place, and records it.
    pub(crate) fn put_named(&mut self, slip: Slip, block: NamedBlock, named: NamedTerms)
        requires opened { IsOpened self.old.state block.session }
        requires known { unknown_by block.kind self.old.state.given (terms_at named.names.terms block.numbers) ≡ [] }
        requires named { IsNaming block.kind (data_of self.old) self.old.state.given (terms_at named.names.terms block.numbers) named }
        requires numbers { AllByRecursion (λ n. n < length named.names.terms) block.numbers }
        ensures step { TakesStep self.old self.new (record { session = block.session; action = Action.Name block.kind (terms_at named.names.terms block.numbers); reply = Reply.Named }) }
        ensures named { self.new.state.named ≡ named.names.terms }
    {
        let (graph, given, names) = named.into_parts();
        self.history.push_named(slip, block, names);
        self.graph = graph;
        self.given = given;
    }

    // Names the terms of a block for which no blank node stands in the way.
    fn name_known(
        &mut self,
        slip: Slip,
        session: u32,
        kind: NameKind,
        terms: &[Term],
    ) -> Result<Vec<u32>, NamingFault>
        requires opened { IsOpened self.old.state session }
        requires known { unknown_by kind self.old.state.given terms.now ≡ [] }
        ensures step { MatchResult result
            (λ _. TakesStep self.old self.new (record { session = session; action = Action.Name kind terms.now; reply = Reply.Named }))
            (λ fault. NamesNone fault self.old self.new session kind terms.now) }
        ensures numbers { IfOk result (λ numbers. numbers.items ≡ numbers_of self.new.state.named terms.now) }
    {
        match name_terms(&self.graph, kind, &self.given, terms) {
            Ok((named, numbers)) => {
                let kept = Vec::from_slice(self.alloc, &numbers)?;
                let block = NamedBlock {
                    session,
                    kind,
                    numbers: Sequence::from_vec(kept),
                };
                self.put_named(slip, block, named);
                Ok(numbers)
            }
            Err(NameFault::Full { count }) => {
                let asked = Sequence::copied_from(self.alloc, terms)?;
                self.history.push(
                    slip,
                    Event {
                        session,
                        action: Action::Name(kind, asked),
                        reply: Reply::Full(count),
                    },
                );
                Err(NamingFault::Full { count })
            }
            Err(NameFault::Memory) => Err(NamingFault::Memory),
        }
    }

    /// Names the terms of a block, all or none; a term's number is its place in the order of naming. The blank nodes of a
    /// fresh block are given out with it. A block to be attached may have only nodes that were given out: else the answer is
    /// the least that wasn't, whatever the limit, and nothing is named.
    pub fn name(
        &mut self,
        session: u32,
        kind: NameKind,
        terms: &[Term],
    ) -> Result<Vec<u32>, NamingFault>
        requires { IsOpened self.old.state session }
        ensures step { MatchResult result
            (λ _. TakesStep self.old self.new (record { session = session; action = Action.Name kind terms.now; reply = Reply.Named }))
            (λ fault. NamesNone fault self.old self.new session kind terms.now) }
        ensures numbers { IfOk result (λ numbers. numbers.items ≡ numbers_of self.new.state.named terms.now) }
    {
        let slip = slip(self.alloc)?;
        let Some(node) = unknown_node(self.alloc, kind, &self.given, terms)? else {
            return self.name_known(slip, session, kind, terms);
        };
        let asked = Sequence::copied_from(self.alloc, terms)?;
        let reply = Reply::Unknown(node.clone()?);
        self.history.push(
            slip,
            Event {
                session,
                action: Action::Name(kind, asked),
                reply,
            },
        );
        Err(NamingFault::Unknown { node })
    }

    // The next graph with its results: those of the pairs that the changes touch are told, and all others are kept. Since none of
    // those blocks, it is enough to ask the told ones.
    fn merged(&self, next: DataGraph, pairs: &[PairRows]) -> Result<Outcome, AllocError>
        requires { IsAfterCheck (data_of self.now) next pairs.now }
        ensures { IfOk result (IsOutcome self.now.limits.mode next) }
    {
        self.recall_consistent();
        let blocks = pairs_block(self.bounds.mode, self.graph.shapes(), pairs);
        let graph = self.graph.with_pairs(next, pairs)?;
        graph.recall_listing();
        Ok(Outcome { graph, blocks })
    }

    // The next graph with its results, where no shapes are staged: those of what the changes touch by an evaluation, all others as
    // they are kept.
    fn changed<L: Ledger, T: Threads + Sync>(
        &self,
        rt: &T,
        next: DataGraph,
        net: &Net,
        hints: &NumberHints,
        steps: &mut Steps<L>,
    ) -> Result<Outcome, AllocError>
        requires named { NetNamed self.now.state.named net.now }
        requires next { next ≡ with_changes (data_of self.now) net.now }
        ensures outcome { IfOk result (IsOutcome self.now.limits.mode next) }
        ensures steps { OnOk result (GrowsByCount (IsEvaluated self.now.state.graph self.now.state.shapes net.now) steps.old steps.new) }
        ensures counted { steps.old ≤ steps.new }
    {
        let graph = self.graph.graph();
        let pairs = graph.pairs_after(rt, net, hints, &next, steps)?;
        let outcome = self.merged(next, pairs.as_slice())?;
        Ok(outcome)
    }

    // The next graph with its results by an evaluation: of each shape at its targets under staged shapes, else of what the changes
    // touch.
    fn evaluated<L: Ledger, T: Threads + Sync>(
        &self,
        rt: &T,
        next: DataGraph,
        checked: &CheckedTransaction,
        steps: &mut Steps<L>,
    ) -> Result<Outcome, AllocError>
        requires committable { IsCommittable self.now.state checked.now.transaction }
        requires next { next ≡ committed_graph (data_of self.now) checked.now.transaction }
        ensures outcome { IfOk result (IsOutcome self.now.limits.mode next) }
        ensures steps { OnOk result (ResultSteps false self.now.state checked.now.transaction steps.old steps.new) }
        ensures counted { steps.old ≤ steps.new }
    {
        self.recall_consistent();
        let transaction = &checked.transaction;
        match &transaction.staged {
            Some(_) => Outcome::whole(rt, self.bounds.mode, next, steps),
            None => self.changed(rt, next, &transaction.net, &checked.hints, steps),
        }
    }

    // The next graph with its results, and whether one blocks: by the pairs that a verdict found, where it held, else by an
    // evaluation.
    fn validated<L: Ledger, T: Threads + Sync>(
        &self,
        rt: &T,
        next: DataGraph,
        checked: &CheckedTransaction,
        held: bool,
        steps: &mut Steps<L>,
    ) -> Result<Outcome, AllocError>
        requires committable { IsCommittable self.now.state checked.now.transaction }
        requires next { next ≡ committed_graph (data_of self.now) checked.now.transaction }
        requires found { MatchBool held (IsHeld self.now checked.now.transaction checked.now.pairs) (Unit {0}) }
        ensures outcome { IfOk result (IsOutcome self.now.limits.mode next) }
        ensures steps { OnOk result (ResultSteps held self.now.state checked.now.transaction steps.old steps.new) }
        ensures counted { steps.old ≤ steps.new }
    {
        if held {
            let outcome = self.merged(next, checked.pairs.as_slice())?;
            return Ok(outcome);
        }
        self.evaluated(rt, next, checked, steps)
    }

    // What a commit that nothing overtook and whose graph is within the limit is going to do; it makes these changes. The listing
    // is made only where a result blocks.
    fn judge<L: Ledger, T: Threads + Sync>(
        &self,
        rt: &T,
        next: DataGraph,
        changes: NumberedChanges,
        checked: &CheckedTransaction,
        held: bool,
        steps: &mut Steps<L>,
    ) -> Result<Plan, AllocError>
        requires committable { IsCommittable self.now.state checked.now.transaction }
        requires next { next ≡ with_changes (data_of self.now) checked.now.transaction.net }
        requires changed { AreChanged (data_of self.now) checked.now.transaction.net changes.triples.items }
        requires net { AreNumberedChanges (data_of self.now) checked.now.transaction.net changes.net.items }
        requires found { MatchBool held (IsHeld self.now checked.now.transaction checked.now.pairs) (Unit {0}) }
        ensures judged { IfOk result (IsJudged self.now.limits.mode (data_of self.now) checked.now.transaction) }
        ensures steps { IfOk result (PlanSteps held self.now.state checked.now.transaction steps.old steps.new) }
        ensures counted { steps.old ≤ steps.new }
    {
        let mut next = next;
        let staged = &checked.transaction.staged;
        stage_shapes(&mut next, staged)?;
        let outcome = self.validated(rt, next, checked, held, steps)?;
        let blocks = outcome.blocks;
        if blocks {
            let refusal = refusing(self.alloc, &outcome.graph)?;
            return Ok(Plan::Refuse(refusal));
        }
        let validated = outcome.into_graph();
        validated.recall_listing();
        Ok(Plan::Accept(accepting(validated, changes, staged)))
    }

    // What the commit of the transaction does to this store; a verdict may have held.
    pub(crate) fn plan<L: Ledger, T: Threads + Sync>(
        &self,
        rt: &T,
        checked: &CheckedTransaction,
        held: bool,
        steps: &mut Steps<L>,
    ) -> Result<Plan, AllocError>
        requires committable { IsCommittable self.now.state checked.now.transaction }
        requires found { MatchBool held (IsHeld self.now checked.now.transaction checked.now.pairs) (Unit {0}) }
        ensures plan { IfOk result (IsPlan self.now.limits (data_of self.now) self.now.state.commits checked.now.transaction) }
        ensures steps { IfOk result (PlanSteps held self.now.state checked.now.transaction steps.old steps.new) }
        ensures counted { steps.old ≤ steps.new }
    {
        let transaction = &checked.transaction;
        let finds = transaction.finds.as_slice();
        if let Some(overtaker) = self.commits.overtaker(transaction.base, finds)? {
            let triple = overtaker.triple.clone()?;
            return Ok(Plan::Overtaken(overtaker, triple));
        }
        let (next, changed, net) = self
            .graph
            .graph()
            .after_with_changed(&transaction.net, &checked.hints)?;
        let count = next.len();
        if count > self.bounds.triples {
            return Ok(Plan::TooLarge(count));
        }
        let changes = NumberedChanges {
            triples: changed,
            net,
        };
        self.judge(rt, next, changes, checked, held, steps)
    }

    // Records a commit that changes nothing.
    pub(crate) fn refuse(
        &mut self,
        slip: Slip,
        session: u32,
        transaction: Transaction,
        reply: Reply,
    )
        requires { Step self.old.limits self.old.state (record { session = session; action = Action.Commit transaction; reply = reply }) self.old.state }
        ensures { TakesCommit self.old self.new session transaction reply }
    {
        self.history.push(
            slip,
            Event {
                session,
                action: Action::Commit(transaction),
                reply,
            },
        );
    }

    // Records a commit whose graph would have a result that blocks.
    pub(crate) fn refuse_invalid(
        &mut self,
        slip: Slip,
        session: u32,
        checked: CheckedTransaction,
        refusal: Refusal,
        reasons: Reasons,
    ) -> Commit
        requires running { self.old.state.stopped ≡ false }
        requires opened { IsOpened self.old.state session }
        requires committable { IsCommittable self.old.state checked.transaction }
        requires plan { IsPlan self.old.limits (data_of self.old) self.old.state.commits checked.transaction (Plan.Refuse refusal) }
        requires reasons { AreReasons self.old.state.commits checked.transaction reasons }
        ensures answer { Answers result self.old self.new session checked }
        ensures by_results { IsByResults reasons.answer result }
        ensures no_fault { HasNoFault result }
        ensures refused { IsRefusal result }
    {
        let (rows, recorded, shapes) = refusal.into_parts();
        let (again, why) = reasons.into_parts();
        let reply = Reply::Refused(recorded, why);
        self.refuse(slip, session, checked.into_transaction(), reply);
        Commit::Refused {
            rows,
            again,
            shapes,
        }
    }

    // Puts the next graphs in place, and records the commit that makes them.
    fn accept(
        &mut self,
        slip: Slip,
        session: u32,
        checked: CheckedTransaction,
        acceptance: Acceptance,
        reasons: Reasons,
    ) -> Commit
        requires running { self.old.state.stopped ≡ false }
        requires opened { IsOpened self.old.state session }
        requires committable { IsCommittable self.old.state checked.transaction }
        requires plan { IsPlan self.old.limits (data_of self.old) self.old.state.commits checked.transaction (Plan.Accept acceptance) }
        requires reasons { AreReasons self.old.state.commits checked.transaction reasons }
        ensures answer { Answers result self.old self.new session checked }
        ensures by_results { IsByResults reasons.answer result }
        ensures no_fault { HasNoFault result }
    {
        let Ok(names) = room_for(&mut self.commits, &self.graph) else {
            return Commit::Memory(checked);
        };
        let (graph, changed, staged, net) = acceptance.into_parts();
        self.commits.push_reserved(names, changed, staged);
        let number = self.commits.version();
        let (again, recorded) = reasons.into_parts();
        self.history.push_accepted(
            slip,
            AcceptedCommit {
                session,
                transaction: checked.without_changes(self.alloc),
                net: Sequence::from_vec(net),
                reply: Reply::Done(number, recorded),
            },
        );
        self.graph = graph;
        Commit::Done { number, again }
    }

    // Carries out the plan of a commit; its verdict may have held.
    fn commit_by_plan<L: Ledger, T: Threads + Sync>(
        &mut self,
        rt: &T,
        slip: Slip,
        session: u32,
        reasoned: ReasonedTransaction,
        held: bool,
        steps: &mut Steps<L>,
    ) -> Commit
        requires running { self.old.state.stopped ≡ false }
        requires opened { IsOpened self.old.state session }
        requires committable { IsCommittable self.old.state reasoned.checked.transaction }
        requires reasons { AreReasons self.old.state.commits reasoned.checked.transaction reasoned.reasons }
        requires found { MatchBool held (IsHeld self.old reasoned.checked.transaction reasoned.checked.pairs) (Unit {0}) }
        ensures answer { Answers result self.old self.new session reasoned.checked }
        ensures steps { AnswerSteps held reasoned.reasons.answer self.old.state reasoned.checked.transaction steps.old steps.new result }
        ensures no_fault { HasNoFault result }
    {
        let ReasonedTransaction { checked, reasons } = reasoned;
        match self.plan(rt, &checked, held, steps) {
            Err(_) => Commit::Memory(checked),
            Ok(Plan::Overtaken(overtaker, triple)) => {
                let Overtaker {
                    commit,
                    triple: first,
                } = overtaker;
                let reply = Reply::Conflict(commit, first);
                self.refuse(slip, session, checked.into_transaction(), reply);
                Commit::Conflict { commit, triple }
            }
            Ok(Plan::TooLarge(count)) => {
                let reply = Reply::FullTriples(count);
                self.refuse(slip, session, checked.into_transaction(), reply);
                Commit::FullTriples { count }
            }
            Ok(Plan::Refuse(refusal)) => {
                self.refuse_invalid(slip, session, checked, refusal, reasons)
            }
            Ok(Plan::Accept(acceptance)) => {
                self.accept(slip, session, checked, acceptance, reasons)
            }
        }
    }

    /// Commits a transaction that changes something or stages shapes, whose terms are named and whose
    /// base is a version of this store. The graph that it would make is validated whole under staged shapes; else just those
    /// pairs of a shape and a node are evaluated that the changes touch, since the results of all others are kept; and none
    /// where a verdict held: then its pairs have theirs. The evaluations are counted in `steps`, and threads share them out among
    /// each other. No log is written to, so that none fails. A store that is stopped answers so, and nothing else.
    pub fn commit<L: Ledger, T: Threads + Sync>(
        &mut self,
        rt: &T,
        session: u32,
        checked: CheckedTransaction,
        steps: &mut Steps<L>,
    ) -> Commit
        requires opened { IsOpened self.old.state session }
        requires committable { IsCommittable self.old.state checked.transaction }
        requires verdict { AreOfVerdict self.old checked.transaction.net checked.transaction.verdict checked.pairs }
        ensures answer { Answers result self.old self.new session checked }
        ensures steps { CommitSteps result self.old.state checked.transaction steps.old steps.new }
        ensures no_fault { HasNoFault result }
    {
        let Ok(slip) = slip(self.alloc) else {
            return Commit::Memory(checked);
        };
        if self.stopped {
            let version = self.commits.version();
            let reply = Reply::Stopped(version);
            self.refuse(slip, session, checked.into_transaction(), reply);
            return Commit::Stopped { version };
        }
        let Ok(reasons) = find_reasons(&self.commits, &checked.transaction) else {
            return Commit::Memory(checked);
        };
        let held = has_held(&reasons.answer);
        let reasoned = ReasonedTransaction { checked, reasons };
        self.commit_by_plan(rt, slip, session, reasoned, held, steps)
    }

    // Commits a transaction whose graph is evaluated, whatever its verdict says, to a store that isn't stopped.
    pub(crate) fn commit_anew<L: Ledger, T: Threads + Sync>(
        &mut self,
        rt: &T,
        session: u32,
        checked: CheckedTransaction,
        steps: &mut Steps<L>,
    ) -> Commit
        requires running { self.old.state.stopped ≡ false }
        requires opened { IsOpened self.old.state session }
        requires committable { IsCommittable self.old.state checked.transaction }
        ensures answer { Answers result self.old self.new session checked }
        ensures no_fault { HasNoFault result }
    {
        let Ok(slip) = slip(self.alloc) else {
            return Commit::Memory(checked);
        };
        let Ok(reasons) = find_reasons(&self.commits, &checked.transaction) else {
            return Commit::Memory(checked);
        };
        let reasoned = ReasonedTransaction { checked, reasons };
        self.commit_by_plan(rt, slip, session, reasoned, false, steps)
    }

    /// Records a step that ran out of memory. It takes none itself.
    pub fn void(&mut self, session: u32, slip: Slip)
        requires { session ≤ self.old.state.opened }
        ensures { TakesStep self.old self.new (record { session = session; action = Action.Void; reply = Reply.Nothing }) }
    {
        self.history.push(
            slip,
            Event {
                session,
                action: Action::Void,
                reply: Reply::Nothing,
            },
        );
    }

    /// The sessions of the history's events, in order.
    pub fn order(&self) -> Result<Vec<u32>, AllocError>
        ensures { IfOk result (λ v. v.items ≡ map (λ e. e.session) self.now.history) }
    {
        self.history.sessions(self.alloc)
    }

    /// The events of the history, in order. Where there is no memory for them, the core is handed
    /// back.
    pub fn into_events(self) -> Result<Vec<Event>, (Core, AllocError)>
        ensures { MatchResult result (λ events. events.items ≡ self.history) (λ fault. fault.0 ≡ self) }
    {
        let Core {
            alloc,
            bounds,
            records,
            graph,
            commits,
            given,
            opened,
            stopped,
            history,
        } = self;
        match history.into_events(alloc) {
            Ok(events) => Ok(events),
            Err((history, error)) => {
                let core = Core {
                    alloc,
                    bounds,
                    records,
                    graph,
                    commits,
                    given,
                    opened,
                    stopped,
                    history,
                };
                Err((core, error))
            }
        }
    }

    /// The results of validating the graph by its shapes graph (SHACL section 3.6), each once, in the order of results. None of
    /// them blocks. Nothing is evaluated: its cost is theirs.
    pub fn listing(&self) -> Result<Vec<ResultRow>, AllocError>
        ensures { IfOk result (λ rows. Listing self.now.state.graph self.now.state.shapes rows.items) }
    {
        self.graph.listing()
    }

    /// The newest version: how many commits there were.
    pub fn version(&self) -> u64
        ensures { result ≡ version self.now.state }
    {
        self.commits.version()
    }

    /// Whether its log failed.
    pub fn is_stopped(&self) -> bool
        ensures { result ≡ self.now.state.stopped }
    {
        self.stopped
    }

    /// How many triples the data graph has.
    pub fn triples(&self) -> usize
        ensures { result ≡ length self.now.state.graph }
    {
        self.graph.len()
    }
}
