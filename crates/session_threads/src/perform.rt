//! What one command does.
ghost use Rattle.std.specs.Prelude.{◌≡◌, OnOk};
ghost use Rattle.record_text.specs.Records.{IsReadableGraph};
ghost use Rattle.session_transaction.specs.Transactions.{command_of, plain_in};
ghost use Rattle.guard_store.specs.Callers.{HasWork, IsSession, OnlyReads};
ghost use Rattle.session_transaction.specs.Replies.{IsRefusedBlock, answer_in};
ghost use Rattle.session_threads.specs.Playing.{Plays};
ghost use Rattle.session_threads.specs.Replies.{Tells};

use crate::replies::{
    abort_reply, begin_reply, block_reply, commit_reply, find_reply, report_reply, select_reply,
    stage_reply,
};
use crate::watch::{Watch, is_ready, next_event};
use bgp_query::JoinPattern;
use collections::Sequence;
use disk::Disk;
use guard_store::{AttachFault, BeginFault, CommitFault, Session, StageFault, Store};
use outside::{EventKind, Gate};
use rdf_model::{Pattern, Term};
use session_model::{Block, Command, SessionReply};
use session_transaction::{ChangeKind, block_refusal, is_refused, take_block};
use shape_eval::Steps;
use shapes_graph::ShapesGraph;
use std::alloc::AllocError;
use std::sync::Wait;
use std::sync::ledger::Ledger;
use std::thread::Threads;

// Adds the reply that an answer gives. There may be no memory for it.
fn tell(
    replies: &mut Sequence<SessionReply>,
    reply: Result<SessionReply, AllocError>,
) -> Result<(), AllocError>
    ensures { OnOk result (Tells reply replies.old replies.new) }
{
    let reply = reply?;
    replies.push(reply)?;
    Ok(())
}

fn begin<D: Disk, R: Wait, G: Gate>(
    rt: &R,
    store: &Store<D>,
    watch: &mut Watch<G>,
    session: Session<D>,
    replies: &mut Sequence<SessionReply>,
) -> (Session<D>, Result<(), AllocError>)
    requires { IsSession store.now session }
    ensures lock { result.0.pass.lock ≡ store.now.id }
    ensures plays { OnOk result.1 (Plays store.now session result.0 Command.Begin replies.old replies.new) }
{
    let (session, answer) = store.begin(rt, session);
    watch.after(answer == Err(BeginFault::Memory), false);
    let reply = begin_reply(answer);
    (session, tell(replies, reply))
}

// Adds the triples, removes them, or attaches them to stored blank nodes. They are moved out of the command's block.
fn change<D: Disk, R: Wait, G: Gate>(
    rt: &R,
    store: &Store<D>,
    watch: &mut Watch<G>,
    session: Session<D>,
    kind: ChangeKind,
    block: &mut Block,
    replies: &mut Sequence<SessionReply>,
) -> (Session<D>, Result<(), AllocError>)
    requires { IsSession store.now session }
    ensures lock { result.0.pass.lock ≡ store.now.id }
    ensures plays { OnOk result.1 (Plays store.now session result.0 (command_of kind block.old) replies.old replies.new) }
{
    let block = take_block(store.allocator(), block);
    let count = block.len();
    let (session, answer) = store.stage_block(rt, session, kind, block);
    let ran_out = matches!(&answer, Err(AttachFault::Memory));
    watch.after(ran_out, false);
    let reply = block_reply(answer, kind.reply(count));
    (session, tell(replies, reply))
}

fn stage<D: Disk, R: Wait, G: Gate>(
    rt: &R,
    store: &Store<D>,
    watch: &mut Watch<G>,
    session: Session<D>,
    shapes: &ShapesGraph,
    replies: &mut Sequence<SessionReply>,
) -> (Session<D>, Result<(), AllocError>)
    requires session { IsSession store.now session }
    requires readable { IsReadableGraph shapes.now }
    ensures lock { result.0.pass.lock ≡ store.now.id }
    ensures plays { OnOk result.1 (Plays store.now session result.0 (Command.Shapes shapes.now) replies.old replies.new) }
{
    let count = shapes.triples().len();
    let Ok(copy) = shapes.share() else {
        watch.after(true, false);
        return (session, Err(AllocError));
    };
    let (session, answer) = store.stage_shapes(rt, session, copy);
    watch.after(answer == Err(StageFault::Memory), false);
    let reply = stage_reply(answer, SessionReply::ShapesStaged(count));
    (session, tell(replies, reply))
}

// The reply to a command that changes nothing.
fn local_reply<D: Disk>(session: &Session<D>, reply: SessionReply) -> SessionReply
    ensures { result ≡ answer_in (plain_in session.now.current) reply }
{
    if session.is_open() {
        reply
    } else {
        SessionReply::NoTransaction
    }
}

fn find<D: Disk>(
    store: &Store<D>,
    session: Session<D>,
    pattern: &Pattern,
    replies: &mut Sequence<SessionReply>,
) -> (Session<D>, Result<(), AllocError>)
    requires { IsSession store.now session }
    ensures lock { result.0.pass.lock ≡ store.now.id }
    ensures plays { OnOk result.1 (Plays store.now session result.0 (Command.Find pattern.now) replies.old replies.new) }
{
    let alloc = store.allocator();
    let mut session = session;
    let answer = session.find(alloc, pattern);
    let reply = find_reply(alloc, answer);
    (session, tell(replies, reply))
}

fn select<D: Disk>(
    store: &Store<D>,
    session: Session<D>,
    patterns: &Sequence<JoinPattern<Term>>,
    replies: &mut Sequence<SessionReply>,
) -> (Session<D>, Result<(), AllocError>)
    requires { IsSession store.now session }
    ensures lock { result.0.pass.lock ≡ store.now.id }
    ensures plays { OnOk result.1 (Plays store.now session result.0 (Command.Select patterns.now) replies.old replies.new) }
{
    let alloc = store.allocator();
    let mut session = session;
    let answer = session.select(alloc, patterns.as_slice());
    let reply = select_reply(alloc, answer);
    (session, tell(replies, reply))
}

fn report<D: Disk>(
    store: &Store<D>,
    session: Session<D>,
    replies: &mut Sequence<SessionReply>,
) -> (Session<D>, Result<(), AllocError>)
    requires { IsSession store.now session }
    ensures lock { result.0.pass.lock ≡ store.now.id }
    ensures plays { OnOk result.1 (Plays store.now session result.0 Command.Report replies.old replies.new) }
{
    let _ = store;
    let answer = session.report();
    let reply = report_reply(answer);
    (session, tell(replies, reply))
}

fn abort<D: Disk>(
    store: &Store<D>,
    session: Session<D>,
    replies: &mut Sequence<SessionReply>,
) -> (Session<D>, Result<(), AllocError>)
    requires { IsSession store.now session }
    ensures lock { result.0.pass.lock ≡ store.now.id }
    ensures plays { OnOk result.1 (Plays store.now session result.0 Command.Abort replies.old replies.new) }
{
    let _ = store;
    let mut session = session;
    let reply = abort_reply(session.abort());
    (session, tell(replies, Ok(reply)))
}

// Commits where that is no event.
fn end_reading<D: Disk, L: Ledger, R: Threads + Wait + Sync>(
    rt: &R,
    store: &Store<D>,
    session: Session<D>,
    replies: &mut Sequence<SessionReply>,
    steps: &mut Steps<L>,
) -> (Session<D>, Result<(), AllocError>)
    requires session { IsSession store.now session }
    requires reads { OnlyReads session.current }
    ensures lock { result.0.pass.lock ≡ store.now.id }
    ensures plays { OnOk result.1 (Plays store.now session result.0 Command.Commit replies.old replies.new) }
{
    let (session, answer) = store.commit(rt, session, steps);
    let reply = commit_reply(store.allocator(), answer);
    (session, tell(replies, reply))
}

// Takes the newest version, checks the changes there beside the turns of others, then commits.
fn commit_work<D: Disk, L: Ledger, R: Threads + Wait + Sync, G: Gate>(
    rt: &R,
    store: &Store<D>,
    watch: &mut Watch<G>,
    session: Session<D>,
    replies: &mut Sequence<SessionReply>,
    steps: &mut Steps<L>,
) -> (Session<D>, Result<(), AllocError>)
    requires session { IsSession store.now session }
    requires work { HasWork session.current }
    ensures lock { result.0.pass.lock ≡ store.now.id }
    ensures plays { OnOk result.1 (Plays store.now session result.0 Command.Commit replies.old replies.new) }
{
    let (session, answer) = store.head(rt, session);
    watch.after(answer.is_err(), false);
    let Ok(_) = answer else {
        return (session, Err(AllocError));
    };
    let mut session = session;
    let checked = session.check(rt, steps);
    let Ok(_) = checked else {
        return (session, Err(AllocError));
    };
    watch.before(Some(EventKind::Commit));
    let (session, answer) = store.commit(rt, session, steps);
    let ran_out = matches!(answer, Err(CommitFault::Memory));
    watch.after(ran_out, is_ready(&answer));
    let reply = commit_reply(store.allocator(), answer);
    (session, tell(replies, reply))
}

fn commit<D: Disk, L: Ledger, R: Threads + Wait + Sync, G: Gate>(
    rt: &R,
    store: &Store<D>,
    watch: &mut Watch<G>,
    session: Session<D>,
    replies: &mut Sequence<SessionReply>,
    steps: &mut Steps<L>,
) -> (Session<D>, Result<(), AllocError>)
    requires { IsSession store.now session }
    ensures lock { result.0.pass.lock ≡ store.now.id }
    ensures plays { OnOk result.1 (Plays store.now session result.0 Command.Commit replies.old replies.new) }
{
    if session.has_work() {
        commit_work(rt, store, watch, session, replies, steps)
    } else {
        end_reading(rt, store, session, replies, steps)
    }
}

// Does a command whose block is refused: it changes nothing.
fn refuse<D: Disk>(
    store: &Store<D>,
    session: Session<D>,
    command: &Command,
    replies: &mut Sequence<SessionReply>,
) -> (Session<D>, Result<(), AllocError>)
    requires session { IsSession store.now session }
    requires refused { IsRefusedBlock command.now }
    ensures lock { result.0.pass.lock ≡ store.now.id }
    ensures plays { OnOk result.1 (Plays store.now session result.0 command.now replies.old replies.new) }
{
    let _ = store;
    let Ok(refusal) = block_refusal(command) else {
        return (session, Err(AllocError));
    };
    let reply = local_reply(&session, refusal);
    (session, tell(replies, Ok(reply)))
}

/// Does one command of a session, and adds its reply. The gate is told of each of its events. Threads share out the evaluations of
/// a commit among each other. Where memory runs out the session may still be met.
pub fn perform<D: Disk, L: Ledger, R: Threads + Wait + Sync, G: Gate>(
    rt: &R,
    store: &Store<D>,
    watch: &mut Watch<G>,
    session: Session<D>,
    command: Command,
    replies: &mut Sequence<SessionReply>,
    steps: &mut Steps<L>,
) -> (Session<D>, Result<(), AllocError>)
    requires { IsSession store.now session }
    ensures lock { result.0.pass.lock ≡ store.now.id }
    ensures plays { OnOk result.1 (Plays store.now session result.0 command replies.old replies.new) }
{
    watch.before(next_event(&session, &command));
    if is_refused(&command) {
        return refuse(store, session, &command, replies);
    }
    let mut command = command;
    match &mut command {
        Command::Begin => begin(rt, store, watch, session, replies),
        Command::Add(block) => {
            let kind = ChangeKind::Addition;
            change(rt, store, watch, session, kind, block, replies)
        }
        Command::Remove(block) => {
            let kind = ChangeKind::Removal;
            change(rt, store, watch, session, kind, block, replies)
        }
        Command::Attach(block) => {
            let kind = ChangeKind::Attachment;
            change(rt, store, watch, session, kind, block, replies)
        }
        Command::Shapes(block) => {
            block.recall_readable();
            stage(rt, store, watch, session, block.graph(), replies)
        }
        Command::Commit => commit(rt, store, watch, session, replies, steps),
        Command::Find(pattern) => find(store, session, pattern, replies),
        Command::Select(patterns) => select(store, session, patterns, replies),
        Command::Report => report(store, session, replies),
        Command::Abort => abort(store, session, replies),
        Command::BadAdd { line: _, kind: _ }
        | Command::BadRemove { line: _, kind: _ }
        | Command::BadAttach { line: _, kind: _ }
        | Command::BadShapes { line: _, kind: _ }
        | Command::BrokenShapes { rule: _, node: _ }
        | Command::RefusedPattern { node: _ }
        | Command::BadSelect { line: _ } => unreachable!(),
    }
}
