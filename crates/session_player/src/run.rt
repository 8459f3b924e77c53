//! Session files run one after another.
ghost use Rattle.std.specs.Prelude.{◌≡◌, [], ◌+◌, ◌≤◌, ◌<◌, ◌^◌, length, IfOk, OnOk};
ghost use Rattle.store_model.specs.Store.{IsOpened, empty_store};
ghost use Rattle.session_model.specs.Sessions.{HasReplies};
ghost use Rattle.session_player.specs.Progress.{HasRun, OpensSessions};
ghost use Rattle.session_player.specs.Ready.{PerformsAll};

use crate::perform::perform;
use crate::resources::Resources;
use collections::Sequence;
use commit_core::{Core, Limits, SessionFault};
use session_model::{Command, SessionReply};
use shape_eval::Steps;
use std::alloc::{AllocError, Global};
use std::marker::Brand;
use std::sync::ledger::{Blank, Ledger};
use std::thread::Threads;

// Runs the commands of a session that was given out.
fn perform_all<L: Ledger, T: Threads + Sync>(
    resources: &Resources<'_, T>,
    core: &mut Core,
    session: u32,
    commands: Sequence<Command>,
    steps: &mut Steps<L>,
) -> Result<Sequence<SessionReply>, AllocError>
    requires { IsOpened core.old.state session }
    ensures { IfOk result (PerformsAll session core.old core.new commands) }
{
    let mut replies = Sequence::new(resources.alloc);
    let mut current = None;
    for command in commands.into_vec() {
        current = perform(
            resources,
            core,
            session,
            current,
            command,
            &mut replies,
            steps,
        )?;
    }
    Ok(replies)
}

// Opens so many sessions.
fn open_all(core: &mut Core, count: usize) -> Result<(), AllocError>
    requires { core.old.state.opened + count ≤ 64 }
    ensures { OnOk result (OpensSessions core.old core.new count) }
{
    for _i in 0..count {
        match core.session() {
            Ok(_) => {}
            Err(SessionFault::SessionsFull) => unreachable!(),
            Err(SessionFault::Memory) => return Err(AllocError),
        }
    }
    Ok(())
}

/// What the sessions of a run were answered, and the sessions of its events, in order.
#[derive(Drop)]
pub struct Run {
    pub replies: Vec<Sequence<SessionReply>>,
    pub order: Vec<u32>,
}

// Runs the files, whose sessions were opened, one after another.
fn play_all<L: Ledger, T: Threads + Sync>(
    resources: &Resources<'_, T>,
    core: &mut Core,
    files: Vec<Sequence<Command>>,
    steps: &mut Steps<L>,
) -> Result<Vec<Sequence<SessionReply>>, AllocError>
    requires opened { HasRun files.items core.old.limits empty_store core.old 0 [] }
    requires few { length files.items ≤ 64 }
    ensures { IfOk result (λ all. HasRun files.items core.old.limits empty_store core.new (length files.items) all.items) }
{
    let mut all = Vec::new(resources.alloc);
    let mut session = 0;
    for commands in files {
        session += 1;
        let replies = perform_all(resources, core, session, commands, steps)?;
        all.push(replies)?;
    }
    Ok(all)
}

// Runs the files over a new store, in an own ledger of evaluations.
fn run_in<L: Ledger, T: Threads + Sync>(
    rt: &T,
    alloc: Global,
    limits: Limits,
    files: Vec<Sequence<Command>>,
    blank: Blank,
) -> Result<Run, AllocError>
    requires small { limits.terms + 2 < 2 ^ 32 }
    requires few { length files.items ≤ 64 }
    requires name { blank.name ≡ L.name }
    requires parts { blank.parts ≡ L.parts }
    requires some { 0 < L.parts }
    ensures { IfOk result (λ run. HasReplies files.items limits empty_store run.order.items None run.replies.items) }
{
    let mut core = Core::open(alloc, limits)?;
    let mut steps = Steps::<L>::begin(blank);
    open_all(&mut core, files.len())?;
    let resources = Resources { rt, alloc };
    let replies = play_all(&resources, &mut core, files, &mut steps)?;
    let order = core.order()?;
    Ok(Run { replies, order })
}

/// Runs session files one after another over a new store; the I-th file is session I. Threads share out the evaluations of each
/// commit among each other.
pub fn run_all<T: Threads + Sync>(
    rt: &T,
    alloc: Global,
    limits: Limits,
    files: Vec<Sequence<Command>>,
) -> Result<Run, AllocError>
    requires small { limits.terms + 2 < 2 ^ 32 }
    requires few { length files.items ≤ 64 }
    ensures { IfOk result (λ run. HasReplies files.items limits empty_store run.order.items None run.replies.items) }
{
    run_in::<Brand, T>(rt, alloc, limits, files, Blank::new(1))
}
