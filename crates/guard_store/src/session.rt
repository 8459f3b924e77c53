//! The callers of a shared store.
ghost use Rattle.std.specs.Prelude.{◌≡◌, ◌≢◌, None, Some, MatchBool, MatchResult};
ghost use Rattle.session_transaction.specs.declared.transaction.OpenTransaction.{OpenTransaction};
ghost use Rattle.session_transaction.specs.Transactions;
ghost use Rattle.session_transaction.specs.Transactions.{changes_of};
ghost use Rattle.guard_store.specs.Callers.{HasWork, OnlyReads};
ghost use Rattle.guard_store.specs.Answers.{EndsReading};

use crate::faults::{AttachFault, CommitFault};
use crate::shared::Shared;
use collections::let_go;
use commit_core::{NumberHints, Snap};
use disk::Disk;
use numbered_lists::TripleList;
use session_transaction::{ChangeKind, Committed, OpenTransaction};
use shapes_graph::ShapesGraph;
use std::alloc::Global;
use std::marker::Model;
use turn_lock::Pass;

/// The first caller, which opens sessions and meets them again. It isn't to be dropped where `close` is to follow.
pub struct Keeper<D: Disk> {
    pass: Pass<Shared<D>>,
    // How many sessions it opened.
    opened: u32,
}

impl<D: Disk> Model for Keeper<D> {
    ghost use Rattle.guard_store.specs.Sessions.{StoreKeeper};

    ghost Value = { StoreKeeper };

    ghost view = { λ k. record { pass = k.pass; opened = k.opened } };
}

// Written by hand, so that what owns one calls it in place of having it written out.
impl<D: Disk + Drop> Drop for Keeper<D> {
    fn drop(self) {
        let Keeper { pass: _, opened: _ } = self;
    }
}

impl<D: Disk> Keeper<D> {
    // Its pass, and how many sessions it opened.
    pub(crate) fn into_parts(self) -> (Pass<Shared<D>>, u32)
        ensures { result ≡ (self.pass, self.opened) }
    {
        let Keeper { pass, opened } = self;
        (pass, opened)
    }

    // The keeper of these parts.
    pub(crate) fn from_parts(pass: Pass<Shared<D>>, opened: u32) -> Keeper<D>
        ensures { result ≡ record { pass = pass; opened = opened } }
    {
        Keeper { pass, opened }
    }
}

/// A caller with a number of its own, and with its open transaction. The snapshot of its last head is kept until a
/// transaction begins or a change is staged.
pub struct Session<D: Disk> {
    pass: Pass<Shared<D>>,
    number: u32,
    pub(crate) current: Option<OpenTransaction>,
    pub(crate) head: Option<Snap>,
}

impl<D: Disk> Model for Session<D> {
    ghost use Rattle.guard_store.specs.Sessions.{StoreSession};

    ghost Value = { StoreSession };

    ghost view = { λ s. record { pass = s.pass; number = s.number; current = s.current; head = s.head } };
}

// Written by hand, so that what owns one calls it in place of having it written out.
impl<D: Disk + Drop> Drop for Session<D> {
    fn drop(self) {
        let Session {
            pass: _,
            number: _,
            current: _,
            head: _,
        } = self;
    }
}

impl<D: Disk> Session<D> {
    /// Its number, from 1.
    pub fn number(&self) -> u32
        ensures { result ≡ self.now.number }
    {
        self.number
    }

    /// Whether a transaction is open.
    pub fn is_open(&self) -> bool
        ensures { MatchBool result ((w : OpenTransaction) × (self.now.current ≡ Some w)) (self.now.current ≡ None) }
    {
        self.current.is_some()
    }

    /// Whether a transaction is open that changes a triple or stages shapes, so that its commit is an event.
    pub fn has_work(&self) -> bool
        ensures { MatchBool result (HasWork self.now.current) (OnlyReads self.now.current) }
    {
        match &self.current {
            Some(open) => !open.only_reads(),
            None => false,
        }
    }

    // Its pass, its number, its open transaction, and the snapshot of its last head.
    pub(crate) fn into_parts(self) -> (Pass<Shared<D>>, u32, Option<OpenTransaction>, Option<Snap>)
        ensures { result ≡ (self.pass, self.number, self.current, self.head) }
    {
        let Session {
            pass,
            number,
            current,
            head,
        } = self;
        (pass, number, current, head)
    }

    // The session of these parts.
    pub(crate) fn from_parts(
        pass: Pass<Shared<D>>,
        number: u32,
        current: Option<OpenTransaction>,
        head: Option<Snap>,
    ) -> Session<D>
        ensures { result ≡ record { pass = pass; number = number; current = current; head = head } }
    {
        Session {
            pass,
            number,
            current,
            head,
        }
    }

    // Its pass alone.
    pub(crate) fn into_pass(self) -> Pass<Shared<D>>
        ensures { result ≡ self.pass }
    {
        let Session {
            pass,
            number: _,
            current: _,
            head: _,
        } = self;
        pass
    }

    // Stages the changes of a block in the open transaction. The hints are those that naming it gave.
    pub(crate) fn with_block(
        self,
        alloc: Global,
        kind: ChangeKind,
        block: TripleList,
        hints: NumberHints,
    ) -> (Session<D>, Result<(), AttachFault>)
        requires { self.current ≢ None }
        ensures { MatchResult result.1
            (λ _. (w : OpenTransaction) → self.current ≡ Some w → result.0 ≡ record self { current = Some (Transactions.with_changes w (changes_of kind block)); head = None })
            (λ fault. (fault ≡ AttachFault.Memory) × (result.0 ≡ self)) }
    {
        let (pass, number, current, head) = self.into_parts();
        let Some(open) = current else { unreachable!() };
        let (open, staged) = open.with_block(alloc, kind, block, hints);
        if staged {
            return (Session::from_parts(pass, number, Some(open), None), Ok(()));
        }
        let session = Session::from_parts(pass, number, Some(open), head);
        (session, Err(AttachFault::Memory))
    }

    // Stages a shapes graph in the open transaction.
    pub(crate) fn with_shapes(self, shapes: ShapesGraph) -> Session<D>
        requires { self.current ≢ None }
        ensures { (w : OpenTransaction) → self.current ≡ Some w → result ≡ record self { current = Some (Transactions.with_shapes w shapes); head = None } }
    {
        let (pass, number, current, head) = self.into_parts();
        let_go(head);
        let Some(open) = current else { unreachable!() };
        Session::from_parts(pass, number, Some(open.with_shapes(shapes)), None)
    }

    // Commits a transaction that changes nothing and stages no shapes, where one is open.
    pub(crate) fn end_reading(self) -> (Session<D>, Result<Committed, CommitFault>)
        requires { OnlyReads self.current }
        ensures { EndsReading self result.0 result.1 }
    {
        let (pass, number, current, head) = self.into_parts();
        let Some(open) = current else {
            let session = Session::from_parts(pass, number, None, head);
            return (session, Err(CommitFault::NoTransaction));
        };
        let version = open.base();
        let_go(open);
        let_go(head);
        (
            Session::from_parts(pass, number, None, None),
            Ok(Committed::ReadOnly { version }),
        )
    }
}
