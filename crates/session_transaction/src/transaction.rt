//! The open transaction, and what a block does to its triples.
ghost use Rattle.std.specs.Prelude.{◌≡◌, ◌≤◌, ◌∷◌, ◌++◌, [], MatchBool, None, Some, IfOk, OnErr, OnOk};
ghost use Rattle.store_model.specs.Store.{HasChange, NetNamed};
ghost use Rattle.session_model.specs.Sessions.{found_by};
ghost use Rattle.session_transaction.specs.Checks.{CheckSteps, Checks, checked_of, handed_back, handed_in, pairs_of, verdict_of};
ghost use Rattle.session_transaction.specs.Transactions;
ghost use Rattle.session_transaction.specs.Transactions.{begun_at, changes_of, name_kind_of, plain};

use collections::Sequence;
use commit_core::{CheckedNet, CheckedTransaction, NumberHints, Snap, Transaction, Verdict};
use kept_rows::PairRows;
use numbered_lists::{Net, TripleList};
use rdf_model::{Pattern, Triple};
use session_model::{Report, SessionReply};
use shape_eval::Steps;
use shapes_graph::ShapesGraph;
use std::alloc::{AllocError, Global};
use std::sync::ledger::Ledger;
use std::thread::Threads;
use store_model::NameKind;

/// A session's open transaction, with the snapshot of its begin, and with what was checked of its changes since the last of them.
pub struct OpenTransaction {
    // It has no verdict itself.
    pub(crate) transaction: Transaction,
    checked: Option<CheckedNet>,
    // Of the terms of its changes.
    hints: NumberHints,
    pub(crate) snap: Snap,
}

// Written by hand, so that what owns one calls it in place of having it written out.
impl Drop for OpenTransaction {
    fn drop(self) {
        let OpenTransaction {
            transaction: _,
            checked: _,
            hints: _,
            snap: _,
        } = self;
    }
}

/// What a block does to its triples.
#[derive(Clone, Copy, Debug, PartialEq, Eq)]
pub enum ChangeKind {
    Addition,
    Removal,
    /// An addition about stored blank nodes.
    Attachment,
}

impl ChangeKind {
    // Puts a change of this kind of each triple at the end of the changes, or leaves them as they were.
    fn stage(self, alloc: Global, net: &mut Net, block: TripleList) -> Result<(), AllocError>
        ensures ok { OnOk result (net.new ≡ net.old ++ changes_of self block) }
        ensures err { OnErr result (net.new ≡ net.old) }
    {
        match self {
            ChangeKind::Addition | ChangeKind::Attachment => net.add_all(alloc, block),
            ChangeKind::Removal => net.remove_all(alloc, block),
        }
    }

    /// The reply to a block with so many triples.
    pub fn reply(self, count: usize) -> SessionReply
        ensures { result ≡ Transactions.reply_of self count }
    {
        match self {
            ChangeKind::Addition => SessionReply::Added(count),
            ChangeKind::Removal => SessionReply::Removed(count),
            ChangeKind::Attachment => SessionReply::Attached(count),
        }
    }

    /// Whose the blank nodes of a block are.
    pub fn name_kind(self) -> NameKind
        ensures { result ≡ name_kind_of self }
    {
        match self {
            ChangeKind::Addition => NameKind::Fresh,
            ChangeKind::Removal => NameKind::Known,
            ChangeKind::Attachment => NameKind::Attach,
        }
    }
}

fn record_find(finds: &mut Sequence<Pattern>, pattern: &Pattern) -> Result<(), AllocError>
    ensures ok { OnOk result (finds.new ≡ finds.old ++ pattern.now ∷ []) }
    ensures err { OnErr result (finds.new ≡ finds.old) }
{
    let pattern = pattern.clone()?;
    finds.push(pattern)?;
    Ok(())
}

// A verdict and its results apart; without one there is no result.
fn parts_of(alloc: Global, checked: Option<CheckedNet>) -> (Option<Verdict>, Sequence<PairRows>)
    ensures { result ≡ (verdict_of checked, pairs_of checked) }
{
    match checked {
        Some(checked) => {
            let (verdict, pairs) = checked.into_parts();
            (Some(verdict), pairs)
        }
        None => (None, Sequence::new(alloc)),
    }
}

// A verdict with its results; without one they count for nothing.
fn checked_with(verdict: Option<Verdict>, pairs: Sequence<PairRows>) -> Option<CheckedNet>
    ensures { result ≡ checked_of verdict pairs }
{
    match verdict {
        Some(verdict) => Some(CheckedNet { verdict, pairs }),
        None => None,
    }
}

impl OpenTransaction {
    /// The transaction that begins at the snapshot.
    pub fn new(alloc: Global, snap: Snap) -> OpenTransaction
        ensures { result ≡ begun_at snap }
    {
        let transaction = Transaction {
            base: snap.number(),
            net: Net::new(alloc),
            staged: None,
            finds: Sequence::new(alloc),
            verdict: None,
        };
        OpenTransaction {
            transaction,
            checked: None,
            hints: NumberHints::new(alloc),
            snap,
        }
    }

    /// The version at its begin.
    pub fn base(&self) -> u64
        ensures { result ≡ self.now.transaction.base }
    {
        self.transaction.base
    }

    /// Whether it neither changes a triple nor stages shapes.
    pub fn only_reads(&self) -> bool
        ensures { MatchBool result ((self.now.transaction.net ≡ []) × (self.now.transaction.staged ≡ None)) (HasChange self.now.transaction.net self.now.transaction.staged) }
    {
        match self.transaction.staged {
            Some(_) => false,
            None => self.transaction.net.is_empty(),
        }
    }

    // The transaction with nothing checked.
    fn unchecked(self) -> OpenTransaction
        ensures { result ≡ record self { checked = None } }
    {
        let OpenTransaction {
            transaction,
            checked: _,
            hints,
            snap,
        } = self;
        OpenTransaction {
            transaction,
            checked: None,
            hints,
            snap,
        }
    }

    /// The transaction with a change of each triple of the block, which is moved into it, and nothing checked; without the memory
    /// for them, as it was. The hints are those that naming the block gave.
    pub fn with_block(
        self,
        alloc: Global,
        kind: ChangeKind,
        block: TripleList,
        hints: NumberHints,
    ) -> (OpenTransaction, bool)
        ensures { MatchBool result.1 (result.0 ≡ Transactions.with_changes self (changes_of kind block)) (result.0 ≡ self) }
    {
        let mut open = self;
        let Ok(()) = kind.stage(alloc, &mut open.transaction.net, block) else {
            return (open, false);
        };
        open.hints.append(hints);
        (open.unchecked(), true)
    }

    /// The transaction with these shapes staged, and nothing checked.
    pub fn with_shapes(self, shapes: ShapesGraph) -> OpenTransaction
        ensures { result ≡ Transactions.with_shapes self shapes }
    {
        let mut open = self.unchecked();
        open.transaction.staged = Some(shapes);
        open
    }

    /// The triples that the pattern asks for in its graph with its changes, in their order. The pattern is recorded.
    pub fn find(&mut self, alloc: Global, pattern: &Pattern) -> Result<Vec<Triple>, AllocError>
        ensures found { IfOk result (λ v. v.items ≡ found_by (plain self.old) pattern.now) }
        ensures recorded { OnOk result (self.new ≡ Transactions.with_find self.old pattern.now) }
        ensures same { OnErr result (self.new ≡ self.old) }
    {
        let found = self.snap.find(alloc, &self.transaction.net, pattern)?;
        record_find(&mut self.transaction.finds, pattern)?;
        Ok(found)
    }

    /// The report of the graph at its begin by the shapes graph there. Its own changes are left out, and nothing is evaluated.
    pub fn report(&self) -> Result<Report, AllocError>
        ensures { IfOk result (λ report. report ≡ record { graph = self.now.snap.graph; shapes = self.now.snap.shapes }) }
    {
        let rows = Sequence::from_vec(self.snap.listing()?);
        let names = self.snap.names().share()?;
        let numbers = self.snap.numbers().share()?;
        let shapes = self.snap.shapes().share()?;
        Ok(Report::new(names, numbers, shapes, rows))
    }

    /// Checks its changes at the head, a version of the store in which all their terms are named, and keeps the verdict with its
    /// results until a change is staged. Of a transaction that stages shapes nothing is kept, and false is answered. The
    /// evaluations are counted in `steps`, and threads share them out among each other. After an error it is as it was, and the
    /// count is what it was, or more.
    pub fn check<L: Ledger, T: Threads + Sync>(
        &mut self,
        rt: &T,
        head: &Snap,
        steps: &mut Steps<L>,
    ) -> Result<bool, AllocError>
        requires { NetNamed head.now.named self.old.transaction.net }
        ensures checks { IfOk result (λ kept. Checks kept head.now self.old self.new) }
        ensures same { OnErr result (self.new ≡ self.old) }
        ensures steps { OnOk result (CheckSteps head.now self.old.transaction steps.old steps.new) }
        ensures counted { steps.old ≤ steps.new }
    {
        if self.transaction.staged.is_some() {
            self.checked = None;
            return Ok(false);
        }
        let found = head.check(rt, &self.transaction.net, &self.hints, steps)?;
        self.checked = Some(found);
        Ok(true)
    }

    /// What its commit hands in, and the snapshot of its begin.
    pub fn into_parts(self, alloc: Global) -> (CheckedTransaction, Snap)
        ensures { result ≡ (handed_in self, self.snap) }
    {
        let OpenTransaction {
            transaction,
            checked,
            hints,
            snap,
        } = self;
        let mut transaction = transaction;
        let (verdict, pairs) = parts_of(alloc, checked);
        transaction.verdict = verdict;
        let handed = CheckedTransaction {
            transaction,
            hints,
            pairs,
        };
        (handed, snap)
    }

    /// The transaction that handed this in, and began at the snapshot.
    pub fn from_parts(handed: CheckedTransaction, snap: Snap) -> OpenTransaction
        ensures { result ≡ handed_back handed snap }
    {
        let (transaction, hints, pairs) = handed.into_parts();
        let mut transaction = transaction;
        let verdict = transaction.verdict.take();
        OpenTransaction {
            transaction,
            checked: checked_with(verdict, pairs),
            hints,
            snap,
        }
    }
}
