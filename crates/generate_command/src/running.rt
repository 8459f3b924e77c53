//! A load run, and its counts told.
ghost use Rattle.std.specs.Prelude.{◌≡◌, ◌≤◌, IfOk, length, string_bytes};
ghost use Rattle.session_reader.specs.Checking.{OnlyGrows};
ghost use Rattle.generate_command.specs.Load;
ghost use Rattle.generate_command.specs.Load.{IsLoad};

use crate::counting::count_replies;
use crate::reading::read_sessions;
use collections::Sequence;
use outside::{Gate, Maker};
use session_model::SessionReply;
use session_threads::{EndedRun, run_new};
use std::alloc::{AllocError, Global};
use std::mem;
use std::sync::Wait;
use std::thread::Threads;
use store_model::{BlockMode, Limits};

// As an option that isn't given has them.
const LIMITS: Limits = Limits {
    terms: 1_000_000,
    triples: 1_000_000,
    mode: BlockMode::All,
};

// What is told of a load that was run.
fn load_text(
    alloc: Global,
    n: u32,
    all: &[Sequence<SessionReply>],
    triples: usize,
) -> Result<String, AllocError>
    requires { length all.now ≤ 4 }
    ensures { IfOk result (λ text. string_bytes text ≡ Load.load_text n all.now triples) }
{
    let counts = count_replies(all);
    let commits = counts.commits;
    let refused = counts.refused;
    Ok(format!(in alloc;
        "generate {n}\ncommits {commits}\nrefused {refused}\ntriples {triples}\n"
    )?)
}

/// Runs the four session files of the load of the numbers from 1 to n beside each other, and tells how many of their replies
/// say that a transaction was committed, how many that it was refused, and how many triples the data graph has at the end.
/// The gate is told of each step of a session but its opening, before it and after it.
pub fn run_load<R: Threads + Wait + Sync, M: Maker, G: Gate>(
    rt: &R,
    alloc: Global,
    n: u32,
    maker: &mut M,
    gate: &G,
) -> Result<String, AllocError>
    requires { (1 ≤ n) × (n ≤ 100000) }
    ensures load { IfOk result (λ text. IsLoad n (M.refused maker.old) (M.refused maker.new) (string_bytes text)) }
    ensures refused { OnlyGrows (M.refused maker.old) (M.refused maker.new) }
{
    let all = read_sessions(alloc, n, maker)?;
    let EndedRun { run, core, log: _ } = run_new(rt, alloc, LIMITS, all.into_vec(), gate)?;
    let triples = core.triples();
    // The command ends with it: its many terms aren't let go one by one.
    mem::forget(core);
    load_text(alloc, n, &run.replies, triples)
}
