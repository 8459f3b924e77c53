//! Sessions that run beside each other.
ghost use Rattle.std.specs.Prelude.{◌≡◌, ◌+◌, ◌^◌, ◌<◌, ◌≤◌, [], false, None, IfErr, IfOk, OnOk, All, length, vec_len, reverse};
ghost use Rattle.std.specs.Vec.{vec_capacity};
ghost use Rattle.session_transaction.specs.Logging.{StandsBeside};
ghost use Rattle.store_model.specs.Store.{RecordedStore, empty_store};
ghost use Rattle.guard_store.specs.Callers.{IsKeeper};
ghost use Rattle.session_threads.specs.Ends.{EndsNewRun, EndsRun, LeavesStore};
ghost use Rattle.session_threads.specs.Team.{AreNumbered, HasEnded, HasLock, HasPlayedFile, IsSound, IsStarting, Met, files_of};

use crate::play::play_file;
use collections::Sequence;
use commit_core::Core;
use commit_log::Log;
use disk::{Disk, MemDisk};
use guard_store::{Keeper, Session, Store};
use outside::Gate;
use session_model::{Command, SessionReply};
use session_player::Run;
use std::alloc::{AllocError, Global};
use std::marker::Model;
use std::sync::Wait;
use std::thread::Threads;
use std::{mem, thread};
use store_model::Limits;

// How many threads there are at most.
const THREADS: usize = 64;

/// A session with the number of its file, and the commands of the file until it plays them.
pub struct Player<D: Disk> {
    session: Option<Session<D>>,
    number: u32,
    commands: Sequence<Command>,
    // What it was answered, once it has played its file.
    replies: Option<Sequence<SessionReply>>,
}

impl<D: Disk> Model for Player<D> {
    ghost use Rattle.session_threads.specs.Team.{TeamPlayer};

    ghost Value = { TeamPlayer };

    ghost view = { λ p. record { session = p.session; number = p.number; commands = p.commands; replies = p.replies } };
}

// Written by hand, so that what owns one calls it in place of having it written out.
impl<D: Disk + Drop> Drop for Player<D> {
    fn drop(self) {
        let Player {
            session: _,
            number: _,
            commands: _,
            replies: _,
        } = self;
    }
}

impl<D: Disk + Drop> Player<D> {
    // Plays its file. Without the memory for it the player has no replies.
    fn work<R: Threads + Wait + Sync, G: Gate>(
        &mut self,
        rt: &R,
        alloc: Global,
        store: &Store<D>,
        gate: &G,
    )
        requires { IsStarting store.now self.old }
        ensures ended { HasPlayedFile store.now self.old.commands self.new }
        ensures number { self.new.number ≡ self.old.number }
    {
        let session = self.session.take().unwrap();
        let commands = mem::replace(&mut self.commands, Sequence::new(alloc));
        let (session, played) = play_file(rt, alloc, store, session, commands, gate);
        self.session = Some(session);
        if let Ok(replies) = played {
            self.replies = Some(replies);
        }
    }

    // Its session and what it was answered.
    fn into_parts(self) -> (Option<Session<D>>, Option<Sequence<SessionReply>>)
        ensures { result ≡ (self.session, self.replies) }
    {
        let Player {
            session,
            number: _,
            commands: _,
            replies,
        } = self;
        (session, replies)
    }
}

// Meets all sessions that are left, the last first, where memory ran out.
fn meet_all<D: Disk>(store: &Store<D>, keeper: Keeper<D>, players: Vec<Player<D>>) -> Keeper<D>
where
    D: Drop,
    requires keeper { IsKeeper store.now keeper }
    requires players { All (HasLock store.now) players.items }
    ensures keeper { IsKeeper store.now result }
    ensures spare { result.pass.spare ≡ keeper.pass.spare + vec_len players }
{
    let mut keeper = keeper;
    let mut players = players;
    while let Some(player) = players.pop() {
        let (session, _) = player.into_parts();
        keeper = store.meet(keeper, session.unwrap());
    }
    keeper
}

// Makes room for one player.
fn make_room<D: Disk>(players: &mut Vec<Player<D>>) -> Result<(), AllocError>
    ensures items { players.new.items ≡ players.old.items }
    ensures room { OnOk result (vec_len players.new < vec_capacity players.new) }
{
    players.reserve(1)?;
    Ok(())
}

// Opens a session for each file. Where memory runs out all that were opened are met.
fn open_all<D: Disk, R: Wait>(
    rt: &R,
    alloc: Global,
    store: &Store<D>,
    keeper: Keeper<D>,
    files: Vec<Sequence<Command>>,
) -> Result<(Keeper<D>, Vec<Player<D>>), Keeper<D>>
where
    D: Drop,
    requires keeper { IsSound store.now keeper }
    requires none { keeper.opened ≡ 0 }
    requires room { keeper.pass.spare ≡ 64 }
    ensures keeper { IfOk result (λ r. IsSound store.now r.0) }
    ensures opened { IfOk result (λ r. r.0.opened ≡ length files.items) }
    ensures spare { IfOk result (λ r. r.0.pass.spare + length files.items ≡ 64) }
    ensures players { IfOk result (λ r. All (IsStarting store.now) r.1.items) }
    ensures numbers { IfOk result (λ r. AreNumbered r.1.items) }
    ensures files { IfOk result (λ r. files_of r.1.items ≡ files.items) }
    ensures met { IfErr result (λ kept. IsKeeper store.now kept × (kept.pass.spare ≡ 64)) }
{
    let mut keeper = keeper;
    let mut players = Vec::new(alloc);
    for commands in files {
        let Ok(()) = make_room(&mut players) else {
            return Err(meet_all(store, keeper, players));
        };
        match store.open(rt, keeper) {
            Err((kept, _)) => return Err(meet_all(store, kept, players)),
            Ok((kept, session)) => {
                keeper = kept;
                let number = session.number();
                players.push_reserved(Player {
                    session: Some(session),
                    number,
                    commands,
                    replies: None,
                });
            }
        }
    }
    Ok((keeper, players))
}

// Lets all players play, each in a thread of its own.
fn play_all<D: Disk + Drop + Send, R: Threads + Wait + Sync, G: Gate>(
    rt: &R,
    alloc: Global,
    store: &Store<D>,
    players: &mut [Player<D>],
    gate: &G,
)
    requires players { All (IsStarting store.now) players.old }
    requires numbers { AreNumbered players.old }
    ensures players { All (HasEnded store.now (files_of players.old)) players.new }
    ensures numbers { AreNumbered players.new }
    ensures count { length players.new ≡ length players.old }
{
    thread::for_each_mut(
        rt,
        players,
        THREADS,
        &|_, player: &mut Player<D>|
            requires { IsStarting store.now player.old }
            ensures ended { HasPlayedFile store.entry.now player.old.commands player.new }
            ensures number { player.new.number ≡ player.old.number }
        {
            player.work(rt, alloc, store, gate);
        },
    );
}

/// A run of session files that has ended.
#[derive(Drop)]
pub struct EndedRun<D: Disk> {
    pub run: Run,
    /// The store's core as the last session left it.
    pub core: Core,
    /// The store's log, where it has one.
    pub log: Option<Log<D>>,
}

// Opens, plays and meets all sessions, the last first: the keeper that met them, and what they were answered, the last first. One
// that has no replies ran out of memory; then no replies are given.
fn play_files<D: Disk + Drop + Send, R: Threads + Wait + Sync, G: Gate>(
    rt: &R,
    alloc: Global,
    store: &Store<D>,
    keeper: Keeper<D>,
    files: Vec<Sequence<Command>>,
    gate: &G,
) -> Result<(Keeper<D>, Vec<Sequence<SessionReply>>), Keeper<D>>
    requires keeper { IsSound store.now keeper }
    requires none { keeper.opened ≡ 0 }
    requires room { keeper.pass.spare ≡ 64 }
    ensures keeper { IfOk result (λ r. IsSound store.now r.0) }
    ensures opened { IfOk result (λ r. r.0.opened ≡ length files.items) }
    ensures spare { IfOk result (λ r. r.0.pass.spare ≡ 64) }
    ensures met { IfOk result (λ r. Met files.items store.now 0 r.0.pass (reverse r.1.items)) }
    ensures kept { IfErr result (λ kept. IsKeeper store.now kept × (kept.pass.spare ≡ 64)) }
{
    let (mut keeper, mut players) = open_all(rt, alloc, store, keeper, files)?;
    play_all(rt, alloc, store, &mut players, gate);
    let mut all = Vec::new(alloc);
    while let Some(player) = players.pop() {
        let (session, replies) = player.into_parts();
        keeper = store.meet(keeper, session.unwrap());
        let Some(replies) = replies else {
            return Err(meet_all(store, keeper, players));
        };
        let Ok(()) = all.push(replies) else {
            return Err(meet_all(store, keeper, players));
        };
    }
    Ok((keeper, all))
}

/// Runs session files beside each other over a store of this core, which has no event yet, and of its log, if it has one; each
/// file in a thread of its own, the I-th being session I. The gate is told of each event but the openings, in the session's
/// thread, outside turns. The log is given back, also where memory runs out.
pub fn run_all<D: Disk + Drop + Send, R: Threads + Wait + Sync, G: Gate>(
    rt: &R,
    alloc: Global,
    core: Core,
    log: Option<Log<D>>,
    files: Vec<Sequence<Command>>,
    gate: &G,
) -> Result<EndedRun<D>, (AllocError, Option<Log<D>>)>
    requires fresh { core.history ≡ [] }
    requires unopened { core.start.opened ≡ 0 }
    requires running { core.state.stopped ≡ false }
    requires beside { StandsBeside core log }
    requires few { length files.items ≤ 64 }
    ensures ends { IfOk result (λ ended. EndsRun D.tells D.bytes D.history D.chosen D.faults files.items core log ended.run.order.items ended.run.replies.items ended.core ended.log) }
    ensures back { IfErr result (λ e. (last : RecordedStore) × LeavesStore D.tells D.bytes D.history D.chosen D.faults core log last e.1) }
{
    core.recall_consistent();
    let (store, keeper) = match Store::over(alloc, core, log) {
        Ok(made) => made,
        Err((_, log, error)) => return Err((error, log)),
    };
    let (keeper, all) = match play_files(rt, alloc, &store, keeper, files, gate) {
        Ok(played) => played,
        Err(keeper) => {
            let (_, log) = store.close(keeper);
            return Err((AllocError, log));
        }
    };
    let mut replies = all;
    replies.reverse();
    let (core, log) = store.close(keeper);
    match core.order() {
        Ok(order) => Ok(EndedRun {
            run: Run { replies, order },
            core,
            log,
        }),
        Err(error) => Err((error, log)),
    }
}

/// Runs session files beside each other over a new store without a log.
pub fn run_new<R: Threads + Wait + Sync, G: Gate>(
    rt: &R,
    alloc: Global,
    limits: Limits,
    files: Vec<Sequence<Command>>,
    gate: &G,
) -> Result<EndedRun<MemDisk>, AllocError>
    requires small { limits.terms + 2 < 2 ^ 32 }
    requires few { length files.items ≤ 64 }
    ensures { IfOk result (λ ended. EndsNewRun files.items limits empty_store ended.run.order.items ended.run.replies.items ended.core) }
{
    let core = Core::open(alloc, limits)?;
    match run_all(rt, alloc, core, None::<Log<MemDisk>>, files, gate) {
        Ok(ended) => Ok(ended),
        Err((error, _)) => Err(error),
    }
}
