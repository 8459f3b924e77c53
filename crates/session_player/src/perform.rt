// What one command does.
ghost use Rattle.std.specs.Prelude.{◌≡◌, None, IfOk, OnOk};
ghost use Rattle.store_model.specs.Store.{HasChange, IsOpened};
ghost use Rattle.session_transaction.specs.Checks.{KeepsIn};
ghost use Rattle.session_transaction.specs.Transactions.{FitsState, plain, plain_in};
ghost use Rattle.session_player.specs.Ready.{CommitsWith, IsReady, Performs, TakesHead};

use crate::find::{abort, find, report, select};
use crate::resources::Resources;
use crate::stage::{change, refuse, stage};
use collections::{Sequence, let_go};
use commit_core::Core;
use session_model::{Command, SessionReply};
use session_transaction::{ChangeKind, OpenTransaction, commit, is_refused, reply_of_commit};
use shape_eval::Steps;
use std::alloc::{AllocError, Global};
use std::sync::ledger::Ledger;
use std::thread::Threads;

fn begin(
    alloc: Global,
    core: &mut Core,
    session: u32,
    current: Option<OpenTransaction>,
    replies: &mut Sequence<SessionReply>,
) -> Result<Option<OpenTransaction>, AllocError>
    requires { IsReady core.old session (plain_in current) }
    ensures { IfOk result (λ next. Performs session core.old core.new (plain_in current) (plain_in next) Command.Begin replies.old replies.new) }
{
    if let Some(open) = current {
        replies.push(SessionReply::AlreadyOpen)?;
        return Ok(Some(open));
    }
    let snap = core.begin(session)?;
    replies.push(SessionReply::Begun(snap.number()))?;
    Ok(Some(OpenTransaction::new(alloc, snap)))
}

// Commits the transaction, and gives the session's reply.
pub fn commit_reply<L: Ledger, T: Threads + Sync>(
    resources: &Resources<'_, T>,
    core: &mut Core,
    session: u32,
    open: OpenTransaction,
    steps: &mut Steps<L>,
) -> Result<SessionReply, AllocError>
    requires opened { IsOpened core.old.state session }
    requires fits { FitsState open.transaction core.old.state }
    requires change { HasChange open.transaction.net open.transaction.staged }
    requires kept { KeepsIn core.old.limits core.old.start core.old.history open.transaction.net open.checked }
    ensures { IfOk result (CommitsWith session core.old core.new open.transaction) }
{
    core.recall_consistent();
    let (handed, snap) = open.into_parts(resources.alloc);
    let_go(snap);
    match commit(resources.rt, core, session, handed, steps) {
        Ok(committed) => reply_of_commit(resources.alloc, committed),
        Err(handed) => {
            let_go(handed);
            Err(AllocError)
        }
    }
}

// Takes the newest version for the commit of the transaction, and checks its changes there.
pub fn take_head<L: Ledger, T: Threads + Sync>(
    rt: &T,
    core: &mut Core,
    session: u32,
    open: &mut OpenTransaction,
    steps: &mut Steps<L>,
) -> Result<(), AllocError>
    requires opened { IsOpened core.old.state session }
    requires fits { FitsState open.old.transaction core.old.state }
    ensures head { OnOk result (TakesHead session core.old core.new) }
    ensures same { OnOk result (plain open.new ≡ plain open.old) }
    ensures kept { OnOk result (KeepsIn core.new.limits core.new.start core.new.history open.old.transaction.net open.new.checked) }
{
    core.recall_consistent();
    let head = core.head(session)?;
    open.check(rt, &head, steps)?;
    Ok(())
}

fn commit_open<L: Ledger, T: Threads + Sync>(
    resources: &Resources<'_, T>,
    core: &mut Core,
    session: u32,
    current: Option<OpenTransaction>,
    replies: &mut Sequence<SessionReply>,
    steps: &mut Steps<L>,
) -> Result<(), AllocError>
    requires { IsReady core.old session (plain_in current) }
    ensures { OnOk result (Performs session core.old core.new (plain_in current) None Command.Commit replies.old replies.new) }
{
    let Some(open) = current else {
        return replies.push(SessionReply::NoTransaction);
    };
    if open.only_reads() {
        return replies.push(SessionReply::ReadOnly(open.base()));
    }
    let mut open = open;
    take_head(resources.rt, core, session, &mut open, steps)?;
    let reply = commit_reply(resources, core, session, open, steps)?;
    replies.push(reply)?;
    Ok(())
}

/// Does one command of a session, adds its reply, and gives the transaction that is open then. Threads share out the evaluations
/// of a commit among each other.
pub fn perform<L: Ledger, T: Threads + Sync>(
    resources: &Resources<'_, T>,
    core: &mut Core,
    session: u32,
    current: Option<OpenTransaction>,
    command: Command,
    replies: &mut Sequence<SessionReply>,
    steps: &mut Steps<L>,
) -> Result<Option<OpenTransaction>, AllocError>
    requires { IsReady core.old session (plain_in current) }
    ensures { IfOk result (λ next. Performs session core.old core.new (plain_in current) (plain_in next) command replies.old replies.new) }
{
    if is_refused(&command) {
        return refuse(core, session, current, &command, replies);
    }
    let alloc = resources.alloc;
    let mut command = command;
    match &mut command {
        Command::Begin => begin(alloc, core, session, current, replies),
        Command::Add(block) => {
            let kind = ChangeKind::Addition;
            change(alloc, core, session, current, kind, block, replies)
        }
        Command::Remove(block) => {
            let kind = ChangeKind::Removal;
            change(alloc, core, session, current, kind, block, replies)
        }
        Command::Attach(block) => {
            let kind = ChangeKind::Attachment;
            change(alloc, core, session, current, kind, block, replies)
        }
        Command::Shapes(shapes) => stage(alloc, core, session, current, shapes, replies),
        Command::Commit => {
            commit_open(resources, core, session, current, replies, steps)?;
            Ok(None)
        }
        Command::Find(pattern) => find(alloc, core, session, current, pattern, replies),
        Command::Select(patterns) => select(alloc, core, session, current, patterns, replies),
        Command::Report => report(core, session, current, replies),
        Command::Abort => {
            abort(core, session, current, replies)?;
            Ok(None)
        }
        Command::BadAdd { line: _, kind: _ }
        | Command::BadRemove { line: _, kind: _ }
        | Command::BadAttach { line: _, kind: _ }
        | Command::BadShapes { line: _, kind: _ }
        | Command::BrokenShapes { rule: _, node: _ }
        | Command::RefusedPattern { node: _ }
        | Command::BadSelect { line: _ } => unreachable!(),
    }
}
