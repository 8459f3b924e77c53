// What the commands do that are no events: a find, a select, a report and an abort.
ghost use Rattle.std.specs.Prelude.{◌≡◌, None, IfOk, OnOk, map};
ghost use Rattle.bgp_query.specs.TermBindings.{opened};
ghost use Rattle.session_model.specs.Sessions.{select_reply, selected_by};
ghost use Rattle.session_transaction.specs.Transactions.{plain, plain_in, with_finds};
ghost use Rattle.session_player.specs.Ready.{IsReady, Performs};

use bgp_query::{JoinFault, JoinPattern};
use collections::{Sequence, let_go};
use commit_core::Core;
use rdf_model::{Pattern, Term};
use session_model::{Command, SessionReply};
use session_transaction::{OpenTransaction, reply_of_find, reply_of_select};
use std::alloc::{AllocError, Global};

/// Answers the triples that the pattern asks for, and records the pattern.
pub fn find(
    alloc: Global,
    core: &Core,
    session: u32,
    current: Option<OpenTransaction>,
    pattern: &Pattern,
    replies: &mut Sequence<SessionReply>,
) -> Result<Option<OpenTransaction>, AllocError>
    requires { IsReady core.now session (plain_in current) }
    ensures { IfOk result (λ next. Performs session core.now core.now (plain_in current) (plain_in next) (Command.Find pattern.now) replies.old replies.new) }
{
    let Some(open) = current else {
        replies.push(SessionReply::NoTransaction)?;
        return Ok(None);
    };
    let mut open = open;
    let triples = open.find(alloc, pattern)?;
    let reply = reply_of_find(alloc, &triples)?;
    replies.push(reply)?;
    Ok(Some(open))
}

// What a select is answered, within a transaction, which records its patterns.
fn answer_select(
    alloc: Global,
    transaction: &mut OpenTransaction,
    patterns: &[JoinPattern<Term>],
) -> Result<SessionReply, AllocError>
    ensures reply { IfOk result (λ reply. select_reply (selected_by (plain transaction.old) patterns.now) ≡ reply) }
    ensures recorded { OnOk result (transaction.new ≡ with_finds transaction.old (map opened patterns.now)) }
{
    match transaction.select(alloc, patterns) {
        Ok(bindings) => reply_of_select(alloc, &bindings),
        Err(JoinFault::TooMany) => Ok(SessionReply::SelectFull),
        Err(JoinFault::Memory) => Err(AllocError),
    }
}

/// Answers the bindings that the patterns ask for, and records the patterns.
pub fn select(
    alloc: Global,
    core: &Core,
    session: u32,
    current: Option<OpenTransaction>,
    patterns: &Sequence<JoinPattern<Term>>,
    replies: &mut Sequence<SessionReply>,
) -> Result<Option<OpenTransaction>, AllocError>
    requires { IsReady core.now session (plain_in current) }
    ensures { IfOk result (λ next. Performs session core.now core.now (plain_in current) (plain_in next) (Command.Select patterns.now) replies.old replies.new) }
{
    let Some(open) = current else {
        replies.push(SessionReply::NoTransaction)?;
        return Ok(None);
    };
    let mut open = open;
    let reply = answer_select(alloc, &mut open, patterns.as_slice())?;
    replies.push(reply)?;
    Ok(Some(open))
}

/// Answers the results of the graph at the begin.
pub fn report(
    core: &Core,
    session: u32,
    current: Option<OpenTransaction>,
    replies: &mut Sequence<SessionReply>,
) -> Result<Option<OpenTransaction>, AllocError>
    requires { IsReady core.now session (plain_in current) }
    ensures { IfOk result (λ next. Performs session core.now core.now (plain_in current) (plain_in next) Command.Report replies.old replies.new) }
{
    let Some(open) = current else {
        replies.push(SessionReply::NoTransaction)?;
        return Ok(None);
    };
    let report = open.report()?;
    replies.push(SessionReply::Reported(report))?;
    Ok(Some(open))
}

/// Drops the open transaction.
pub fn abort(
    core: &Core,
    session: u32,
    current: Option<OpenTransaction>,
    replies: &mut Sequence<SessionReply>,
) -> Result<(), AllocError>
    requires { IsReady core.now session (plain_in current) }
    ensures { OnOk result (Performs session core.now core.now (plain_in current) None Command.Abort replies.old replies.new) }
{
    match current {
        Some(open) => {
            let_go(open);
            replies.push(SessionReply::Aborted)?;
            Ok(())
        }
        None => {
            replies.push(SessionReply::NoTransaction)?;
            Ok(())
        }
    }
}
