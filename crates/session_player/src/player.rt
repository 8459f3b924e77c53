// A session that is played event by event.
ghost use Rattle.std.specs.Prelude.{◌≡◌, ◌≢◌, [], MatchBool, MatchOption, None, Some, true, false, IfOk, OnOk};
ghost use Rattle.store_model.specs.Store.{IsOpened};
ghost use Rattle.session_transaction.specs.Transactions.{plain, plain_in};
ghost use Rattle.session_player.specs.Players;
ghost use Rattle.session_player.specs.Players.{DoesFirst, IsEvent, MayGoOn, Settles, TakesEvent, new_player, state_of};
ghost use Rattle.session_player.specs.Ready;

use crate::perform::{commit_reply, perform, take_head};
use crate::resources::Resources;
use collections::Sequence;
use commit_core::Core;
use session_model::{Command, SessionReply};
use session_transaction::OpenTransaction;
use shape_eval::Steps;
use std::alloc::{AllocError, Global};
use std::collections::VecDeque;
use std::marker::Model;
use std::sync::ledger::Ledger;
use std::thread::Threads;

/// The commands that are left of a session's file, its open transaction, and what it was answered.
pub struct Player {
    commands: VecDeque<Command>,
    current: Option<OpenTransaction>,
    // Whether the open transaction's commit has the newest version already.
    head_taken: bool,
    replies: Sequence<SessionReply>,
}

impl Model for Player {
    ghost use Rattle.session_transaction.specs.Checks.{checked_in};
    ghost use Rattle.session_transaction.specs.Transactions.{plain_in};
    ghost use Rattle.session_player.specs.Players;

    ghost Value = { Players.Player };

    ghost view = { λ p. record { commands = p.commands.items; current = plain_in p.current; head_taken = p.head_taken; checked = checked_in p.current; replies = p.replies } };
}

// Written by hand, so that what owns one calls it in place of having it written out.
impl Drop for Player {
    fn drop(self) {
        let Player {
            commands: _,
            current: _,
            head_taken: _,
            replies: _,
        } = self;
    }
}

// Whether a command of a session within a transaction is an event of the store.
fn is_event_within(transaction: &OpenTransaction, command: &Command) -> bool
    ensures { IsEvent result (Some (plain transaction.now)) command.now }
{
    match command {
        Command::Add(_) | Command::Remove(_) | Command::Attach(_) | Command::Shapes(_) => true,
        Command::Commit => !transaction.only_reads(),
        Command::Begin
        | Command::BadAdd { .. }
        | Command::BadRemove { .. }
        | Command::BadAttach { .. }
        | Command::BadShapes { .. }
        | Command::BrokenShapes { .. }
        | Command::RefusedPattern { .. }
        | Command::Find(_)
        | Command::Select(_)
        | Command::BadSelect { .. }
        | Command::Report
        | Command::Abort => false,
    }
}

// Whether a session's command is an event of the store.
fn is_event(current: &Option<OpenTransaction>, command: &Command) -> bool
    ensures { IsEvent result (plain_in current.now) command.now }
{
    match current {
        Some(open) => is_event_within(open, command),
        None => matches!(command, Command::Begin),
    }
}

fn is_commit(command: &Command) -> bool
    ensures { result ≡ Ready.is_commit command.now }
{
    matches!(command, Command::Commit)
}

// Does the player's first command.
fn play_command<L: Ledger, T: Threads + Sync>(
    resources: &Resources<'_, T>,
    core: &mut Core,
    session: u32,
    player: &mut Player,
    steps: &mut Steps<L>,
) -> Result<(), AllocError>
    requires opened { IsOpened core.old.state session }
    requires ready { MayGoOn core.old player.old }
    requires free { player.old.head_taken ≡ false }
    requires some { player.old.commands ≢ [] }
    ensures first { OnOk result (DoesFirst session core.old core.new player.old player.new) }
    ensures free { OnOk result (player.new.head_taken ≡ false) }
{
    let Some(command) = player.commands.pop_front() else {
        unreachable!()
    };
    let current = player.current.take();
    player.current = perform(
        resources,
        core,
        session,
        current,
        command,
        &mut player.replies,
        steps,
    )?;
    Ok(())
}

// Does the commands that are no events, up to the next event or the end.
fn settle<L: Ledger, T: Threads + Sync>(
    resources: &Resources<'_, T>,
    core: &mut Core,
    session: u32,
    player: &mut Player,
    steps: &mut Steps<L>,
) -> Result<(), AllocError>
    requires opened { IsOpened core.old.state session }
    requires ready { MayGoOn core.old player.old }
    ensures same { OnOk result (core.new ≡ core.old) }
    ensures settles { OnOk result (Settles core.old player.old player.new) }
{
    if player.head_taken {
        return Ok(());
    }
    while let Some(command) = player.commands.front() {
        if is_event(&player.current, command) {
            return Ok(());
        }
        play_command(resources, core, session, player, steps)?;
    }
    Ok(())
}

// Takes the newest version for the commit of the open transaction, which is the next command, and checks its changes there.
fn take_version<L: Ledger, T: Threads + Sync>(
    rt: &T,
    core: &mut Core,
    session: u32,
    player: &mut Player,
    steps: &mut Steps<L>,
) -> Result<(), AllocError>
    requires opened { IsOpened core.old.state session }
    requires ready { MayGoOn core.old player.old }
    requires free { player.old.head_taken ≡ false }
    requires next { Players.IsCommitNext player.old.current player.old.commands }
    ensures { OnOk result (TakesEvent session core.old core.new player.old player.new) }
{
    let Some(open) = player.current.take() else {
        unreachable!()
    };
    let mut open = open;
    take_head(rt, core, session, &mut open, steps)?;
    player.current = Some(open);
    player.head_taken = true;
    Ok(())
}

// Commits the open transaction, whose commit has the newest version.
fn finish_commit<L: Ledger, T: Threads + Sync>(
    resources: &Resources<'_, T>,
    core: &mut Core,
    session: u32,
    player: &mut Player,
    steps: &mut Steps<L>,
) -> Result<(), AllocError>
    requires opened { IsOpened core.old.state session }
    requires ready { MayGoOn core.old player.old }
    requires held { player.old.head_taken ≡ true }
    requires some { player.old.commands ≢ [] }
    ensures { OnOk result (TakesEvent session core.old core.new player.old player.new) }
{
    let Some(open) = player.current.take() else {
        unreachable!()
    };
    let reply = commit_reply(resources, core, session, open, steps)?;
    player.replies.push(reply)?;
    player.head_taken = false;
    player.commands.pop_front();
    Ok(())
}

impl Player {
    /// A session that has done nothing yet.
    pub fn new(alloc: Global, commands: Sequence<Command>) -> Player
        ensures { result ≡ new_player commands }
    {
        Player {
            commands: VecDeque::from_vec(commands.into_vec()),
            current: None,
            head_taken: false,
            replies: Sequence::new(alloc),
        }
    }

    /// Takes the session's next event, with the commands before it that are no events. Answers whether
    /// one was left.
    pub fn take_event<L: Ledger, T: Threads + Sync>(
        &mut self,
        resources: &Resources<'_, T>,
        core: &mut Core,
        session: u32,
        steps: &mut Steps<L>,
    ) -> Result<bool, AllocError>
        requires opened { IsOpened core.old.state session }
        requires ready { MayGoOn core.old self.old }
        ensures { IfOk result (λ taken. MatchBool taken (TakesEvent session core.old core.new self.old self.new) ((state_of self.old).commands ≡ [])) }
    {
        settle(resources, core, session, self, steps)?;
        let Some(command) = self.commands.front() else {
            return Ok(false);
        };
        if !is_commit(command) {
            play_command(resources, core, session, self, steps)?;
        } else if self.head_taken {
            finish_commit(resources, core, session, self, steps)?;
        } else {
            take_version(resources.rt, core, session, self, steps)?;
        }
        Ok(true)
    }

    /// The replies of the session, with the commands after its last event, where no event is left.
    pub fn finish<L: Ledger, T: Threads + Sync>(
        self,
        resources: &Resources<'_, T>,
        core: &mut Core,
        session: u32,
        steps: &mut Steps<L>,
    ) -> Result<Option<Sequence<SessionReply>>, AllocError>
        requires opened { IsOpened core.old.state session }
        requires ready { MayGoOn core.old self }
        ensures same { OnOk result (core.new ≡ core.old) }
        ensures replies { IfOk result (λ all. Players.Finishes self all) }
    {
        let mut player = self;
        settle(resources, core, session, &mut player, steps)?;
        Ok(player.into_replies())
    }

    // The replies, where no command is left.
    fn into_replies(self) -> Option<Sequence<SessionReply>>
        ensures { MatchOption result (self.commands ≢ []) (λ all. (self.commands ≡ []) × (all ≡ self.replies)) }
    {
        let Player {
            commands,
            current: _,
            head_taken: _,
            replies,
        } = self;
        if commands.is_empty() {
            Some(replies)
        } else {
            None
        }
    }
}
