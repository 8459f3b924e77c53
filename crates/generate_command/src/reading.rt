//! The session files of a load, read.
ghost use Rattle.std.specs.Prelude.{◌≡◌, ◌≤◌, IfOk, length};
ghost use Rattle.session_reader.specs.Checking.{OnlyGrows};
ghost use Rattle.session_reader.specs.SessionFile.{IsSession};
ghost use Rattle.load_maker.specs.Workload;
ghost use Rattle.generate_command.specs.Load.{AreSessions};

use collections::Sequence;
use load_maker::workload;
use outside::Maker;
use session_model::Command;
use session_reader::{PrepareFault, prepare};
use std::alloc::{AllocError, Global};

// How many sessions a load has.
const SESSIONS: u32 = 4;

// The commands of a session of the load.
fn read_session<M: Maker>(
    alloc: Global,
    n: u32,
    session: u32,
    maker: &mut M,
) -> Result<Sequence<Command>, AllocError>
    requires n { (1 ≤ n) × (n ≤ 100000) }
    requires session { (1 ≤ session) × (session ≤ 4) }
    ensures session { IfOk result (λ commands. IsSession session 1 (Workload.workload n session) commands (M.refused maker.old) (M.refused maker.new)) }
    ensures refused { OnlyGrows (M.refused maker.old) (M.refused maker.new) }
{
    let text = workload(alloc, n, session)?;
    match prepare(alloc, maker, session, 1, &text) {
        Ok(commands) => Ok(commands),
        Err(PrepareFault::Line(_)) => unreachable!(),
        Err(PrepareFault::Memory) => Err(AllocError),
    }
}

/// The commands of all sessions of a load.
pub(crate) fn read_sessions<M: Maker>(
    alloc: Global,
    n: u32,
    maker: &mut M,
) -> Result<Sequence<Sequence<Command>>, AllocError>
    requires { (1 ≤ n) × (n ≤ 100000) }
    ensures sessions { IfOk result (λ all. AreSessions n 1 all (M.refused maker.old) (M.refused maker.new)) }
    ensures four { IfOk result (λ all. length all ≡ 4) }
    ensures refused { OnlyGrows (M.refused maker.old) (M.refused maker.new) }
{
    let mut all = Sequence::new(alloc);
    for before in 0..SESSIONS {
        let commands = read_session(alloc, n, before + 1, maker)?;
        all.push(commands)?;
    }
    Ok(all)
}
