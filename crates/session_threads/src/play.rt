//! A session that plays its file.
ghost use Rattle.std.specs.Prelude.{◌≡◌, ◌<◌, None, IfOk};
ghost use Rattle.guard_store.specs.Callers.{IsSession};
ghost use Rattle.session_threads.specs.Playing.{PlaysAll};

use crate::perform::perform;
use crate::watch::Watch;
use collections::Sequence;
use disk::Disk;
use guard_store::{Session, Store};
use outside::Gate;
use session_model::{Command, SessionReply};
use shape_eval::Steps;
use std::alloc::{AllocError, Global};
use std::marker::Brand;
use std::sync::Wait;
use std::sync::ledger::{Blank, Ledger};
use std::thread::Threads;

// Plays all commands of a file, in an own ledger of evaluations.
fn play_in<D: Disk, L: Ledger, R: Threads + Wait + Sync, G: Gate>(
    rt: &R,
    alloc: Global,
    store: &Store<D>,
    session: Session<D>,
    commands: Sequence<Command>,
    gate: &G,
    blank: Blank,
) -> (Session<D>, Result<Sequence<SessionReply>, AllocError>)
    requires session { IsSession store.now session }
    requires free { session.current ≡ None }
    requires name { blank.name ≡ L.name }
    requires parts { blank.parts ≡ L.parts }
    requires some { 0 < L.parts }
    ensures lock { result.0.pass.lock ≡ store.now.id }
    ensures plays { IfOk result.1 (PlaysAll store.now session result.0 commands) }
{
    let mut steps = Steps::<L>::begin(blank);
    let mut replies = Sequence::new(alloc);
    let mut watch = Watch::new(gate, session.number());
    let mut session = session;
    for command in commands.into_vec() {
        let (next, done) = perform(
            rt,
            store,
            &mut watch,
            session,
            command,
            &mut replies,
            &mut steps,
        );
        session = next;
        let Ok(()) = done else {
            return (session, Err(AllocError));
        };
    }
    (session, Ok(replies))
}

/// Plays all commands of a file. The gate is told of the session's events but its opening. More threads share out the evaluations
/// of each commit among each other. Where memory runs out the session may still be met.
pub fn play_file<D: Disk, R: Threads + Wait + Sync, G: Gate>(
    rt: &R,
    alloc: Global,
    store: &Store<D>,
    session: Session<D>,
    commands: Sequence<Command>,
    gate: &G,
) -> (Session<D>, Result<Sequence<SessionReply>, AllocError>)
    requires session { IsSession store.now session }
    requires free { session.current ≡ None }
    ensures lock { result.0.pass.lock ≡ store.now.id }
    ensures plays { IfOk result.1 (PlaysAll store.now session result.0 commands) }
{
    play_in::<D, Brand, R, G>(rt, alloc, store, session, commands, gate, Blank::new(1))
}
