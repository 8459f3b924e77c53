//! What a commit hands in, is planned as and is answered.
ghost use Rattle.std.specs.Prelude.{◌≡◌, [], IfOk, OnOk};
ghost use Rattle.store_model.specs.Store.{StagedNamed, is_staged, shapes_under};
ghost use Rattle.shape_model.specs.Validation.{Listing};
ghost use Rattle.data_graph.specs.DataGraphs.{with_shapes};

use collections::Sequence;
use data_graph::{DataGraph, NumberHints, ValidatedGraph};
use kept_rows::PairRows;
use numbered_lists::Net;
use rdf_model::{Ids, Triple};
use shape_model::ResultRow;
use shapes_graph::ShapesGraph;
use std::alloc::{AllocError, Global};
use store_model::{Again, Overtaker, Transaction};
use triple_index::NumberedChange;

/// A transaction with the pairs that its verdict found, each with its results; where it has no verdict, they count for
/// nothing.
pub struct CheckedTransaction {
    pub transaction: Transaction,
    /// Of the terms of its changes.
    pub hints: NumberHints,
    pub pairs: Sequence<PairRows>,
}

// Written by hand, so that what owns one calls it in place of having it written out.
impl Drop for CheckedTransaction {
    fn drop(self) {
        let CheckedTransaction {
            transaction: _,
            hints: _,
            pairs: _,
        } = self;
    }
}

impl CheckedTransaction {
    /// A transaction that nothing was checked of.
    pub fn unchecked(alloc: Global, transaction: Transaction) -> CheckedTransaction
        ensures { result ≡ record { transaction = transaction; hints = tt; pairs = [] } }
    {
        CheckedTransaction {
            transaction,
            hints: NumberHints::new(alloc),
            pairs: Sequence::new(alloc),
        }
    }

    /// The transaction, the hints, and the pairs.
    pub fn into_parts(self) -> (Transaction, NumberHints, Sequence<PairRows>)
        ensures { result ≡ (self.transaction, self.hints, self.pairs) }
    {
        let CheckedTransaction {
            transaction,
            hints,
            pairs,
        } = self;
        (transaction, hints, pairs)
    }

    // The transaction alone, but for its changes, which are let go.
    pub(crate) fn without_changes(self, alloc: Global) -> Transaction
        ensures { result ≡ record self.transaction { net = [] } }
    {
        let mut transaction = self.into_transaction();
        transaction.net = Net::new(alloc);
        transaction
    }

    /// The transaction alone.
    pub fn into_transaction(self) -> Transaction
        ensures { result ≡ self.transaction }
    {
        let CheckedTransaction {
            transaction,
            hints: _,
            pairs: _,
        } = self;
        transaction
    }
}

/// What a commit is answered.
#[derive(Drop)]
pub enum Commit {
    /// The commit's number, the version that it made, and why it evaluated in its step.
    Done {
        number: u64,
        again: Again,
    },
    /// The overtaking commit, and the first triple of it that a find asked for.
    Conflict {
        commit: u64,
        triple: Triple,
    },
    /// The graph would have so many triples, more than the limit.
    FullTriples {
        count: usize,
    },
    /// The graph would have these results, under these shapes, and one of them blocks.
    Refused {
        rows: Sequence<ResultRow>,
        again: Again,
        shapes: ShapesGraph,
    },
    /// The store's log failed where the commit would have been accepted; from here on the store is
    /// stopped.
    LogFault,
    /// The version of a store that is stopped.
    Stopped {
        version: u64,
    },
    /// Want of memory; the transaction is handed back.
    Memory(CheckedTransaction),
}

/// Why a commit evaluated in its step, for the answer and for the history.
pub struct Reasons {
    pub answer: Again,
    pub recorded: Again,
}

// Written by hand, so that what owns one calls it in place of having it written out.
impl Drop for Reasons {
    fn drop(self) {
        let Reasons {
            answer: _,
            recorded: _,
        } = self;
    }
}

impl Reasons {
    /// The one for the answer, and the one for the history.
    pub fn into_parts(self) -> (Again, Again)
        ensures { result ≡ (self.answer, self.recorded) }
    {
        let Reasons { answer, recorded } = self;
        (answer, recorded)
    }
}

/// A transaction that is committed, and why it is evaluated in its step.
#[derive(Drop)]
pub struct ReasonedTransaction {
    pub checked: CheckedTransaction,
    pub reasons: Reasons,
}

/// A commit whose graph would have a result that blocks: all its results, for the answer and for the history, and the shapes.
pub struct Refusal {
    pub rows: Sequence<ResultRow>,
    pub recorded: Sequence<ResultRow>,
    pub shapes: ShapesGraph,
}

// Written by hand, so that what owns one calls it in place of having it written out.
impl Drop for Refusal {
    fn drop(self) {
        let Refusal {
            rows: _,
            recorded: _,
            shapes: _,
        } = self;
    }
}

impl Refusal {
    /// The rows for the answer, those for the history, and the shapes.
    pub fn into_parts(self) -> (Sequence<ResultRow>, Sequence<ResultRow>, ShapesGraph)
        ensures { result ≡ (self.rows, self.recorded, self.shapes) }
    {
        let Refusal {
            rows,
            recorded,
            shapes,
        } = self;
        (rows, recorded, shapes)
    }
}

/// What a commit changes, by the numbers of terms: the triples, in any order and maybe more than once, and its changes.
#[derive(Drop)]
pub struct NumberedChanges {
    pub triples: Vec<Ids>,
    pub net: Vec<NumberedChange>,
}

/// A commit whose graph has no result that blocks: the next graph with its shapes and its results, the numbers of the triples that it
/// changes, in any order and maybe more than once, whether it stages shapes, and its changes by the numbers of their terms.
pub struct Acceptance {
    pub graph: ValidatedGraph,
    pub changed: Vec<Ids>,
    pub staged: bool,
    pub net: Vec<NumberedChange>,
}

// Written by hand, so that what owns one calls it in place of having it written out.
impl Drop for Acceptance {
    fn drop(self) {
        let Acceptance {
            graph: _,
            changed: _,
            staged: _,
            net: _,
        } = self;
    }
}

impl Acceptance {
    /// The next graph, the numbers of what it changes, whether it stages shapes, and its changes by number.
    pub fn into_parts(self) -> (ValidatedGraph, Vec<Ids>, bool, Vec<NumberedChange>)
        ensures { result ≡ (self.graph, self.changed, self.staged, self.net) }
    {
        let Acceptance {
            graph,
            changed,
            staged,
            net,
        } = self;
        (graph, changed, staged, net)
    }
}

/// What a commit is going to do.
#[derive(Drop)]
pub enum Plan {
    /// Nothing: it was overtaken. The triple stands once for the answer and once for the history.
    Overtaken(Overtaker, Triple),
    /// Nothing: the graph would have so many triples.
    TooLarge(usize),
    Refuse(Refusal),
    Accept(Acceptance),
}

/// Puts the staged shapes graph, if there is one, in the place of the graph's own.
pub fn stage_shapes(graph: &mut DataGraph, staged: &Option<ShapesGraph>) -> Result<(), AllocError>
    requires { StagedNamed graph.old.terms staged.now }
    ensures { OnOk result (graph.new ≡ with_shapes graph.old (shapes_under graph.old.shapes staged.now)) }
{
    match staged {
        Some(staged) => graph.replace_shapes(staged.share()?),
        None => Ok(()),
    }
}

fn stages_shapes(staged: &Option<ShapesGraph>) -> bool
    ensures { result ≡ is_staged staged.now }
{
    match staged {
        Some(_) => true,
        None => false,
    }
}

/// All results of the graph, and its shapes.
pub fn refusing(alloc: Global, graph: &ValidatedGraph) -> Result<Refusal, AllocError>
    ensures listing { IfOk result (λ p. Listing graph.now.triples graph.now.shapes p.rows) }
    ensures same { IfOk result (λ p. (p.recorded ≡ p.rows) × (p.shapes ≡ graph.now.shapes)) }
{
    let rows = Sequence::from_vec(graph.listing()?);
    let recorded = Sequence::copied_from(alloc, rows.as_slice())?;
    Ok(Refusal {
        rows,
        recorded,
        shapes: graph.shapes().share()?,
    })
}

/// The plan of a commit whose graph, after its changes, has no result that blocks: the triples that it changes are in exactly one
/// of the graph before and that one. It takes no memory.
pub fn accepting(
    next: ValidatedGraph,
    changes: NumberedChanges,
    staged: &Option<ShapesGraph>,
) -> Acceptance
    ensures { (result.graph ≡ next) × (result.changed.items ≡ changes.triples.items) × (result.staged ≡ is_staged staged.now) × (result.net.items ≡ changes.net.items) }
{
    let NumberedChanges { triples, net } = changes;
    Acceptance {
        graph: next,
        changed: triples,
        staged: stages_shapes(staged),
        net,
    }
}
