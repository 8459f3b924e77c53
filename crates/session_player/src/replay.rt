// Session files in the order of a history that is handed in.
ghost use Rattle.std.specs.Prelude.{◌≡◌, ◌∷◌, [], ◌+◌, ◌≤◌, ◌<◌, ◌^◌, ℕ, IfOk, OnOk, IsTrue, MatchBool, MatchOption, MatchResult, length, map};
ghost use Rattle.std.specs.List.{AllByRecursion};
ghost use Rattle.store_model.specs.declared.event.Action.{Action};
ghost use Rattle.store_model.specs.declared.event.Reply.{Reply};
ghost use Rattle.store_model.specs.Store.{TakesStep, empty_store};
ghost use Rattle.session_model.specs.Sessions.{world};
ghost use Rattle.session_player.specs.Histories.{IsReplayed, MayTake};
ghost use Rattle.session_player.specs.Players.{AreReady, EndsAll, Plays, PlaysAll, new_player, states_of};
ghost use Rattle.session_player.specs.Refused.{RefusesFrom, RefusesHistory};

use crate::player::Player;
use crate::resources::Resources;
use crate::run::Run;
use collections::Sequence;
use commit_core::{Core, Limits, SessionFault};
use session_model::{Command, SessionReply};
use shape_eval::Steps;
use std::alloc::{AllocError, Global};
use std::marker::Brand;
use std::sync::ledger::{Blank, Ledger};
use std::thread::Threads;

/// Why a history gave no run.
#[derive(Clone, Copy, Debug, PartialEq, Eq)]
pub enum HistoryFault {
    /// The first place that isn't valid, from 1; one more than there are where the history ends early.
    Place(usize),
    /// Memory ran out.
    Memory,
}

impl From<AllocError> for HistoryFault {
    ghost use Rattle.session_player.specs.declared.replay.HistoryFault.TheVariants.{Memory};

    ghost from_gives = { λ _ fault. fault ≡ Memory };

    fn from(_: AllocError) -> HistoryFault {
        HistoryFault::Memory
    }
}

// A player for each file.
fn players_of(alloc: Global, files: Vec<Sequence<Command>>) -> Result<Vec<Player>, AllocError>
    ensures { IfOk result (λ players. players.items ≡ map new_player files.items) }
{
    let mut players = Vec::new(alloc);
    for commands in files {
        players.push(Player::new(alloc, commands))?;
    }
    Ok(players)
}

// Opens the next session.
fn open_next(core: &mut Core) -> Result<(), AllocError>
    requires { core.old.state.opened < 64 }
    ensures { OnOk result ((i : ℕ) × TakesStep core.old core.new (record { session = i; action = Action.Open; reply = Reply.Session i })) }
{
    match core.session() {
        Ok(_) => Ok(()),
        Err(SessionFault::SessionsFull) => unreachable!(),
        Err(SessionFault::Memory) => Err(AllocError),
    }
}

// Takes the place of a session, if it may have the next one. So many sessions are open.
fn take_place<L: Ledger, T: Threads + Sync>(
    resources: &Resources<'_, T>,
    core: &mut Core,
    players: &mut [Player],
    opened: &mut u32,
    session: u32,
    steps: &mut Steps<L>,
) -> Result<bool, AllocError>
    requires ready { AreReady core.old players.old }
    requires opened { opened.old ≡ core.old.state.opened }
    ensures taken { IfOk result (λ taken. MatchBool taken (Plays (session ∷ []) core.old core.new players.old players.new × (core.new.state.opened ≤ length players.new)) (MayTake (world core.old.state (states_of players.old)) session → ⊥)) }
    ensures opened { IfOk result (λ taken. IsTrue taken → opened.new ≡ core.new.state.opened) }
{
    if session == *opened + 1 {
        if session as usize > players.len() {
            return Ok(false);
        }
        open_next(core)?;
        *opened = session;
        return Ok(true);
    }
    if session == 0 || session > *opened {
        return Ok(false);
    }
    let player = &mut players[session as usize - 1];
    player.take_event(resources, core, session, steps)
}

// Takes all places, in order, and answers how many sessions are open then.
fn play_places<L: Ledger, T: Threads + Sync>(
    resources: &Resources<'_, T>,
    core: &mut Core,
    players: &mut [Player],
    places: &[Option<u32>],
    steps: &mut Steps<L>,
) -> Result<u32, HistoryFault>
    requires ready { AreReady core.old players.old }
    requires none { core.old.state.opened ≡ 0 }
    ensures { MatchResult result (λ opened. PlaysAll places.now core.old core.new players.old players.new × (opened ≡ core.new.state.opened)) (RefusesFrom core.old players.old places.now) }
{
    let mut opened = 0;
    for (i, place) in places.iter().enumerate() {
        let Some(session) = place else {
            return Err(HistoryFault::Place(i + 1));
        };
        if !take_place(resources, core, players, &mut opened, *session, steps)? {
            return Err(HistoryFault::Place(i + 1));
        }
    }
    Ok(opened)
}

// The replies of the sessions, which are all open, with the commands after their last events, where no
// event is left.
fn finish_all<L: Ledger, T: Threads + Sync>(
    resources: &Resources<'_, T>,
    core: &mut Core,
    players: Vec<Player>,
    steps: &mut Steps<L>,
) -> Result<Option<Vec<Sequence<SessionReply>>>, AllocError>
    requires ready { AreReady core.old players.items }
    requires all { core.old.state.opened ≡ length players.items }
    ensures same { OnOk result (core.new ≡ core.old) }
    ensures ends { IfOk result (λ r. MatchOption r (AllByRecursion (λ s. s.commands ≡ []) (states_of players.items) → ⊥) (λ all. EndsAll (states_of players.items) all.items)) }
{
    let mut all = Vec::new(resources.alloc);
    let mut session = 0;
    for player in players {
        session += 1;
        match player.finish(resources, core, session, steps)? {
            Some(replies) => all.push(replies)?,
            None => return Ok(None),
        }
    }
    Ok(Some(all))
}

// Plays the files over a new store, in an own ledger of evaluations.
fn replay_in<L: Ledger, T: Threads + Sync>(
    rt: &T,
    alloc: Global,
    limits: Limits,
    files: Vec<Sequence<Command>>,
    places: &[Option<u32>],
    blank: Blank,
) -> Result<Run, HistoryFault>
    requires small { limits.terms + 2 < 2 ^ 32 }
    requires few { length files.items ≤ 64 }
    requires name { blank.name ≡ L.name }
    requires parts { blank.parts ≡ L.parts }
    requires some { 0 < L.parts }
    ensures { MatchResult result (λ run. IsReplayed files.items limits empty_store places.now run.order.items run.replies.items) (RefusesHistory files.items limits empty_store places.now) }
{
    let count = files.len();
    let mut core = Core::open(alloc, limits)?;
    let mut steps = Steps::<L>::begin(blank);
    let mut players = players_of(alloc, files)?;
    let resources = Resources { rt, alloc };
    let opened = match play_places(&resources, &mut core, &mut players, places, &mut steps) {
        Ok(opened) => opened,
        Err(fault) => return Err(fault),
    };
    if (opened as usize) < count {
        return Err(HistoryFault::Place(places.len() + 1));
    }
    let Some(replies) = finish_all(&resources, &mut core, players, &mut steps)? else {
        return Err(HistoryFault::Place(places.len() + 1));
    };
    let order = core.order()?;
    Ok(Run { replies, order })
}

/// Plays session files beside each other over a new store, in the order of the places of a history; the
/// I-th file is session I. Threads share out the evaluations of each commit among each other.
///
/// # Errors
///
/// The first place that isn't valid: it is an opening other than the next, no number of a session, or it
/// names a session without an event left. Where the history ends before the sessions do, that is the
/// place after its last.
pub fn replay_all<T: Threads + Sync>(
    rt: &T,
    alloc: Global,
    limits: Limits,
    files: Vec<Sequence<Command>>,
    places: &[Option<u32>],
) -> Result<Run, HistoryFault>
    requires small { limits.terms + 2 < 2 ^ 32 }
    requires few { length files.items ≤ 64 }
    ensures { MatchResult result (λ run. IsReplayed files.items limits empty_store places.now run.order.items run.replies.items) (RefusesHistory files.items limits empty_store places.now) }
{
    replay_in::<Brand, T>(rt, alloc, limits, files, places, Blank::new(1))
}
