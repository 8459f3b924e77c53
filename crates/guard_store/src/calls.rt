//! The calls of a session that are events.
ghost use Rattle.std.specs.Prelude.{◌≡◌, ◌≢◌, Err, None, MatchResult};
ghost use Rattle.rdf_model.specs.declared.term.Term.{Term};
ghost use Rattle.std.specs.List.{AllByRecursion};
ghost use Rattle.ntriples_text.specs.Laws.{IsReadable, IsStored};
ghost use Rattle.record_text.specs.Records.{IsReadableGraph};
ghost use Rattle.session_model.specs.Sessions.{additions, removals};
ghost use Rattle.session_transaction.specs.Transactions;
ghost use Rattle.session_transaction.specs.Transactions.{changes_of, name_kind_of};
ghost use Rattle.guard_store.specs.Callers.{HasWork, IsSession};
ghost use Rattle.guard_store.specs.Answers.{Attaches, AttachesNot, Begins, BeginsNot, CommitCounts, Commits, CommitsNot, Heads, HeadsNot, NamesFor, NamesForNot, Stages, StagesBlock, StagesBlockNot, StagesNot, attach_answer};

use crate::faults::{AttachFault, BeginFault, CommitFault, HeadFault, StageFault};
use crate::session::Session;
use crate::store::Store;
use commit_core::{NamingFault, NumberHints};
use disk::Disk;
use numbered_lists::TripleList;
use rdf_model::Triple;
use session_model::Block;
use session_transaction::{ChangeKind, Committed, OpenTransaction};
use shape_eval::Steps;
use shapes_graph::ShapesGraph;
use std::sync::Wait;
use std::sync::ledger::Ledger;
use std::thread::Threads;
use store_model::NameKind;

// The answer to a block whose blank nodes need not have been given out.
fn stage_answer<T: Drop>(answer: Result<T, AttachFault>) -> Result<T, StageFault>
    requires { (node : Term) → answer ≢ Err (AttachFault.Unknown node) }
    ensures { answer ≡ attach_answer result }
{
    match answer {
        Ok(value) => Ok(value),
        Err(AttachFault::NoTransaction) => Err(StageFault::NoTransaction),
        Err(AttachFault::Unknown { node: _ }) => unreachable!(),
        Err(AttachFault::Full { count }) => Err(StageFault::Full { count }),
        Err(AttachFault::Memory) => Err(StageFault::Memory),
    }
}

impl<D: Disk> Store<D> {
    /// Begins a transaction, and answers its version: the newest one. AlreadyOpen comes where one is open; it is no event.
    pub fn begin<R: Wait>(
        &self,
        rt: &R,
        session: Session<D>,
    ) -> (Session<D>, Result<u64, BeginFault>)
        requires { IsSession self.now session }
        ensures session { IsSession self.now result.0 }
        ensures begins { MatchResult result.1 (λ version. Begins self.now session result.0 version) (λ fault. BeginsNot fault self.now session result.0) }
    {
        if session.is_open() {
            return (session, Err(BeginFault::AlreadyOpen));
        }
        let (pass, number, current, head) = session.into_parts();
        let (pass, answer) = self.take_begin(rt, pass, number);
        match answer {
            Ok(snap) => {
                let version = snap.number();
                let open = OpenTransaction::new(self.alloc, snap);
                (
                    Session::from_parts(pass, number, Some(open), None),
                    Ok(version),
                )
            }
            Err(_) => {
                let session = Session::from_parts(pass, number, current, head);
                (session, Err(BeginFault::Memory))
            }
        }
    }

    // Names the terms of the block, which is of this kind, that the open transaction is to stage, and gives the hints for their
    // numbers.
    fn name_for<R: Wait>(
        &self,
        rt: &R,
        session: Session<D>,
        kind: NameKind,
        block: &TripleList,
    ) -> (Session<D>, Result<NumberHints, AttachFault>)
        requires session { IsSession self.now session }
        requires open { session.current ≢ None }
        ensures { MatchResult result.1
            (λ _. NamesFor self.now session result.0 kind block.now)
            (λ fault. NamesForNot fault self.now session result.0 kind block.now) }
    {
        let (pass, number, current, head) = session.into_parts();
        let (pass, answer) = self.take_names(rt, pass, number, kind, block);
        let session = Session::from_parts(pass, number, current, head);
        match answer {
            Ok(hints) => (session, Ok(hints)),
            Err(NamingFault::Unknown { node }) => (session, Err(AttachFault::Unknown { node })),
            Err(NamingFault::Full { count }) => (session, Err(AttachFault::Full { count })),
            Err(NamingFault::Memory) => (session, Err(AttachFault::Memory)),
        }
    }

    // Stages a change of this kind of each of these triples in the open transaction. Unknown comes of an attachment alone.
    fn stage_list<R: Wait>(
        &self,
        rt: &R,
        session: Session<D>,
        kind: ChangeKind,
        block: TripleList,
    ) -> (Session<D>, Result<(), AttachFault>)
        requires session { IsSession self.now session }
        requires open { session.current ≢ None }
        requires readable { AllByRecursion (IsReadable IsStored) block }
        ensures session { IsSession self.now result.0 }
        ensures stages { MatchResult result.1
            (λ _. Stages self.now session result.0 (name_kind_of kind) block (λ w. Transactions.with_changes w (changes_of kind block)))
            (λ fault. NamesForNot fault self.now session result.0 (name_kind_of kind) block) }
    {
        let (session, answer) = self.name_for(rt, session, kind.name_kind(), &block);
        match answer {
            Ok(hints) => session.with_block(self.alloc, kind, block, hints),
            Err(fault) => (session, Err(fault)),
        }
    }

    // Stages a change of this kind of each of the triples, whose terms are copied. Unknown comes of an attachment alone.
    fn stage_copied<R: Wait>(
        &self,
        rt: &R,
        session: Session<D>,
        kind: ChangeKind,
        triples: &[Triple],
    ) -> (Session<D>, Result<(), AttachFault>)
        requires session { IsSession self.now session }
        requires readable { AllByRecursion (IsReadable IsStored) triples.now }
        ensures session { IsSession self.now result.0 }
        ensures stages { MatchResult result.1
            (λ _. Stages self.now session result.0 (name_kind_of kind) triples.now (λ w. Transactions.with_changes w (changes_of kind triples.now)))
            (λ fault. NamesForNot fault self.now session result.0 (name_kind_of kind) triples.now) }
    {
        if !session.is_open() {
            return (session, Err(AttachFault::NoTransaction));
        }
        let Ok(block) = TripleList::copied_from(self.alloc, triples) else {
            return (session, Err(AttachFault::Memory));
        };
        self.stage_list(rt, session, kind, block)
    }

    /// Stages an addition of each triple, whose terms it names and whose blank nodes it gives out. NoTransaction comes where
    /// none is open; it is no event.
    pub fn stage_add<R: Wait>(
        &self,
        rt: &R,
        session: Session<D>,
        triples: &[Triple],
    ) -> (Session<D>, Result<(), StageFault>)
        requires session { IsSession self.now session }
        requires readable { AllByRecursion (IsReadable IsStored) triples.now }
        ensures session { IsSession self.now result.0 }
        ensures stages { MatchResult result.1
            (λ _. Stages self.now session result.0 NameKind.Fresh triples.now (λ w. Transactions.with_changes w (additions triples.now)))
            (λ fault. StagesNot fault self.now session result.0 NameKind.Fresh triples.now) }
    {
        let (session, answer) = self.stage_copied(rt, session, ChangeKind::Addition, triples);
        (session, stage_answer(answer))
    }

    /// Stages a removal of each triple, whose terms it names. NoTransaction comes where none is open; it is no event.
    pub fn stage_remove<R: Wait>(
        &self,
        rt: &R,
        session: Session<D>,
        triples: &[Triple],
    ) -> (Session<D>, Result<(), StageFault>)
        requires session { IsSession self.now session }
        requires readable { AllByRecursion (IsReadable IsStored) triples.now }
        ensures session { IsSession self.now result.0 }
        ensures stages { MatchResult result.1
            (λ _. Stages self.now session result.0 NameKind.Known triples.now (λ w. Transactions.with_changes w (removals triples.now)))
            (λ fault. StagesNot fault self.now session result.0 NameKind.Known triples.now) }
    {
        let (session, answer) = self.stage_copied(rt, session, ChangeKind::Removal, triples);
        (session, stage_answer(answer))
    }

    /// Stages an addition of each triple about blank nodes that were given out, be it to another session that hasn't
    /// committed, and names its terms. Unknown comes, before Full, exactly where a blank node of the triples wasn't given
    /// out, and tells the least; then nothing is named. NoTransaction comes where none is open; it is no event. After a
    /// fault the transaction is as it was.
    pub fn stage_attach<R: Wait>(
        &self,
        rt: &R,
        session: Session<D>,
        triples: &[Triple],
    ) -> (Session<D>, Result<(), AttachFault>)
        requires session { IsSession self.now session }
        requires readable { AllByRecursion (IsReadable IsStored) triples.now }
        ensures session { IsSession self.now result.0 }
        ensures attaches { MatchResult result.1 (λ _. Attaches self.now session result.0 triples.now) (λ fault. AttachesNot fault self.now session result.0 triples.now) }
    {
        self.stage_copied(rt, session, ChangeKind::Attachment, triples)
    }

    /// Does with the triples of a block what `stage_add`, `stage_remove` or `stage_attach` does, by the kind. The block is moved into
    /// the transaction: no term of it is copied. Unknown comes of an attachment alone. After a fault the block is dropped.
    pub fn stage_block<R: Wait>(
        &self,
        rt: &R,
        session: Session<D>,
        kind: ChangeKind,
        block: Block,
    ) -> (Session<D>, Result<(), AttachFault>)
        requires { IsSession self.now session }
        ensures session { IsSession self.now result.0 }
        ensures stages { MatchResult result.1
            (λ _. StagesBlock kind self.now session result.0 block)
            (λ fault. StagesBlockNot kind fault self.now session result.0 block) }
    {
        if !session.is_open() {
            return (session, Err(AttachFault::NoTransaction));
        }
        self.stage_list(rt, session, kind, block.into_list())
    }

    /// Stages a shapes graph in place of the store's, names its terms, and gives out its blank nodes. Where it is refused,
    /// the shapes graph is dropped. NoTransaction comes where no transaction is open; it is no event.
    pub fn stage_shapes<R: Wait>(
        &self,
        rt: &R,
        session: Session<D>,
        shapes: ShapesGraph,
    ) -> (Session<D>, Result<(), StageFault>)
        requires session { IsSession self.now session }
        requires readable { IsReadableGraph shapes }
        ensures session { IsSession self.now result.0 }
        ensures stages { MatchResult result.1
            (λ _. Stages self.now session result.0 NameKind.Fresh shapes (λ w. Transactions.with_shapes w shapes))
            (λ fault. StagesNot fault self.now session result.0 NameKind.Fresh shapes) }
    {
        if !session.is_open() {
            return (session, Err(StageFault::NoTransaction));
        }
        let Ok(block) = TripleList::copied_from(self.alloc, shapes.triples()) else {
            return (session, Err(StageFault::Memory));
        };
        let (session, answer) = self.name_for(rt, session, NameKind::Fresh, &block);
        match stage_answer(answer) {
            Ok(_) => (session.with_shapes(shapes), Ok(())),
            Err(fault) => (session, Err(fault)),
        }
    }

    /// Takes the newest snapshot, which the session keeps, and answers its version. NoTransaction comes where none is
    /// open; it is no event.
    pub fn head<R: Wait>(&self, rt: &R, session: Session<D>) -> (Session<D>, Result<u64, HeadFault>)
        requires { IsSession self.now session }
        ensures session { IsSession self.now result.0 }
        ensures heads { MatchResult result.1 (λ version. Heads self.now session result.0 version) (λ fault. HeadsNot fault self.now session result.0) }
    {
        if !session.is_open() {
            return (session, Err(HeadFault::NoTransaction));
        }
        let (pass, number, current, head) = session.into_parts();
        let (pass, answer) = self.take_head(rt, pass, number);
        match answer {
            Ok(snap) => {
                let newest = snap.number();
                let session = Session::from_parts(pass, number, current, Some(snap));
                (session, Ok(newest))
            }
            Err(_) => (
                Session::from_parts(pass, number, current, head),
                Err(HeadFault::Memory),
            ),
        }
    }

    // Commits the open transaction, which changes something or stages shapes.
    fn commit_work<L: Ledger, R: Threads + Wait + Sync>(
        &self,
        rt: &R,
        session: Session<D>,
        steps: &mut Steps<L>,
    ) -> (Session<D>, Result<Committed, CommitFault>)
        requires session { IsSession self.now session }
        requires work { HasWork session.current }
        ensures session { IsSession self.now result.0 }
        ensures commits { MatchResult result.1 (Commits self.now session result.0) (λ fault. CommitsNot fault self.now session result.0) }
        ensures steps { CommitCounts self.now session result.0 steps.old steps.new result.1 }
    {
        let (pass, number, current, head) = session.into_parts();
        let Some(open) = current else { unreachable!() };
        let (handed, snap) = open.into_parts(self.alloc);
        let (pass, answer) = self.take_commit(rt, pass, number, handed, steps);
        match answer {
            Ok(committed) => (Session::from_parts(pass, number, None, None), Ok(committed)),
            Err(handed) => {
                let open = OpenTransaction::from_parts(handed, snap);
                let session = Session::from_parts(pass, number, Some(open), head);
                (session, Err(CommitFault::Memory))
            }
        }
    }

    /// Commits the open transaction. One that changes nothing and stages no shapes is answered ReadOnly, which is no
    /// event; nor is NoTransaction, which comes where none is open. Each answer ends the transaction. Its evaluations are
    /// counted in `steps`, by why it was evaluated, and threads share them out among each other.
    pub fn commit<L: Ledger, R: Threads + Wait + Sync>(
        &self,
        rt: &R,
        session: Session<D>,
        steps: &mut Steps<L>,
    ) -> (Session<D>, Result<Committed, CommitFault>)
        requires { IsSession self.now session }
        ensures session { IsSession self.now result.0 }
        ensures commits { MatchResult result.1 (Commits self.now session result.0) (λ fault. CommitsNot fault self.now session result.0) }
        ensures steps { CommitCounts self.now session result.0 steps.old steps.new result.1 }
    {
        if session.has_work() {
            return self.commit_work(rt, session, steps);
        }
        session.end_reading()
    }
}
