// What the commands do that change a transaction.
ghost use Rattle.std.specs.Prelude.{◌≡◌, [], ◌∷◌, ◌++◌, IfOk, MatchResult, None, OnOk, Some};
ghost use Rattle.store_model.specs.Store.{IsOpened};
ghost use Rattle.session_transaction.specs.Replies.{IsRefusedBlock, answer_in};
ghost use Rattle.session_transaction.specs.Transactions.{command_of, plain_in};
ghost use Rattle.session_player.specs.Ready.{IsReady, NamesAll, Performs};

use collections::Sequence;
use commit_core::{Core, NameKind, NamingFault, NumberHints};
use numbered_lists::TripleList;
use session_model::{Block, Command, SessionReply, ShapesBlock};
use session_transaction::{ChangeKind, OpenTransaction, block_refusal, take_block};
use std::alloc::{AllocError, Global};

// Names the terms of a block of this kind, and gives the hints for their numbers, or else the reply to a block whose terms may
// not be named.
fn name_terms(
    core: &mut Core,
    session: u32,
    kind: NameKind,
    block: &TripleList,
) -> Result<Result<NumberHints, SessionReply>, AllocError>
    requires { IsOpened core.old.state session }
    ensures { IfOk result (λ named. MatchResult named
        (λ _. NamesAll None core.old core.new session kind block.now)
        (λ reply. NamesAll (Some reply) core.old core.new session kind block.now)) }
{
    match core.name_list(session, kind, block) {
        Ok(hints) => Ok(Ok(hints)),
        Err(NamingFault::Unknown { node }) => Ok(Err(SessionReply::UnknownNode(node))),
        Err(NamingFault::Full { count: _ }) => Ok(Err(SessionReply::FullTerms)),
        Err(NamingFault::Memory) => Err(AllocError),
    }
}

/// Adds the triples in the open transaction, removes them, or attaches them to stored blank nodes. They are moved out of the
/// command's block.
pub fn change(
    alloc: Global,
    core: &mut Core,
    session: u32,
    current: Option<OpenTransaction>,
    kind: ChangeKind,
    block: &mut Block,
    replies: &mut Sequence<SessionReply>,
) -> Result<Option<OpenTransaction>, AllocError>
    requires { IsReady core.old session (plain_in current) }
    ensures { IfOk result (λ next. Performs session core.old core.new (plain_in current) (plain_in next) (command_of kind block.old) replies.old replies.new) }
{
    let Some(open) = current else {
        replies.push(SessionReply::NoTransaction)?;
        return Ok(None);
    };
    let block = take_block(alloc, block);
    let count = block.len();
    let list = block.into_list();
    let named = name_terms(core, session, kind.name_kind(), &list)?;
    let hints = match named {
        Ok(hints) => hints,
        Err(reply) => {
            replies.push(reply)?;
            return Ok(Some(open));
        }
    };
    let (open, staged) = open.with_block(alloc, kind, list, hints);
    if !staged {
        return Err(AllocError);
    }
    replies.push(kind.reply(count))?;
    Ok(Some(open))
}

/// Stages the shapes graph in the open transaction.
pub fn stage(
    alloc: Global,
    core: &mut Core,
    session: u32,
    current: Option<OpenTransaction>,
    shapes: &ShapesBlock,
    replies: &mut Sequence<SessionReply>,
) -> Result<Option<OpenTransaction>, AllocError>
    requires { IsReady core.old session (plain_in current) }
    ensures { IfOk result (λ next. Performs session core.old core.new (plain_in current) (plain_in next) (Command.Shapes shapes.now) replies.old replies.new) }
{
    let Some(open) = current else {
        replies.push(SessionReply::NoTransaction)?;
        return Ok(None);
    };
    let graph = shapes.graph();
    let block = TripleList::copied_from(alloc, graph.triples())?;
    let named = name_terms(core, session, NameKind::Fresh, &block)?;
    match named {
        Ok(_) => {}
        Err(reply) => {
            replies.push(reply)?;
            return Ok(Some(open));
        }
    }
    let copy = graph.share()?;
    let open = open.with_shapes(copy);
    replies.push(SessionReply::ShapesStaged(graph.triples().len()))?;
    Ok(Some(open))
}

// Answers a command that changes nothing: by this reply within a transaction.
fn answer_only(
    current: &Option<OpenTransaction>,
    reply: SessionReply,
    replies: &mut Sequence<SessionReply>,
) -> Result<(), AllocError>
    ensures { OnOk result (replies.new ≡ replies.old ++ answer_in (plain_in current.now) reply ∷ []) }
{
    match current {
        Some(_) => replies.push(reply),
        None => replies.push(SessionReply::NoTransaction),
    }
}

/// Does a command whose block is refused: it changes nothing.
pub fn refuse(
    core: &Core,
    session: u32,
    current: Option<OpenTransaction>,
    command: &Command,
    replies: &mut Sequence<SessionReply>,
) -> Result<Option<OpenTransaction>, AllocError>
    requires ready { IsReady core.now session (plain_in current) }
    requires refused { IsRefusedBlock command.now }
    ensures { IfOk result (λ next. Performs session core.now core.now (plain_in current) (plain_in next) command.now replies.old replies.new) }
{
    let reply = block_refusal(command)?;
    answer_only(&current, reply, replies)?;
    Ok(current)
}
