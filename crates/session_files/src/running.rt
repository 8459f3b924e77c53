//! Session files run beside each other, or in the order of a history.
ghost use Rattle.std.specs.Prelude.{◌≡◌, ◌≢◌, ◌⊎◌, ℕ, List, None, Some, [], ◌∷◌, ◌≤◌, false, IfErr, MatchResult, length, map, string_bytes};
ghost use Rattle.std.specs.List.{AllByRecursion};
ghost use Rattle.store_model.specs.Store.{RecordedStore, empty_store};
ghost use Rattle.session_model.specs.Print.{IsPrint, IsRunText};
ghost use Rattle.history_reader.specs.History.{history_of};
ghost use Rattle.session_reader.specs.Checking.{OnlyGrows};
ghost use Rattle.input_files.specs.Loads.{Loads};
ghost use Rattle.session_files.specs.declared.session_run.SessionRun.{SessionRun};
ghost use Rattle.session_files.specs.Faults;
ghost use Rattle.session_files.specs.Faults.{Stops, StopsRun, Unplayed};
ghost use Rattle.session_transaction.specs.Logging.{StandsBeside};
ghost use Rattle.session_threads.specs.Ends.{LeavesStore};
ghost use Rattle.session_files.specs.Loading.{HoldSessions, IsFirstNumber};
ghost use Rattle.session_files.specs.Logged.{AreLogged, PrintsRun, run_over};
ghost use Rattle.session_files.specs.Runs.{AreRun, IsBadPlace, IsRun, LoadsAll, empty_start};

use crate::loading::{load_all, run_fault};
use crate::{RunFault, Stored};
use collections::Sequence;
use commit_core::Core;
use commit_log::Log;
use disk::Disk;
use history_reader::read_history;
use input_files::load_file;
use outside::{Files, Gate, Maker};
use rdf_text::Text;
use session_model::Command;
use session_player::{HistoryFault, Run, replay_all, text_of};
use session_threads::{EndedRun, run_all};
use std::alloc::Global;
use std::mem;
use std::sync::Wait;
use std::thread::Threads;
use store_model::Limits;

// So many sessions may run.
const MOST_FILES: usize = 64;

// What a run prints.
fn run_text(alloc: Global, run: &Run) -> Result<String, RunFault>
    ensures { MatchResult result (λ text. IsRunText run.now.replies.items run.now.order.items (string_bytes text)) (λ fault. fault ≡ RunFault.Memory) }
{
    match text_of(alloc, run) {
        Ok(text) => Ok(text),
        Err(_) => Err(RunFault::Memory),
    }
}

// What a run of these sessions over a core and its log prints, and the log.
fn run_sessions<D: Disk + Drop + Send, R: Threads + Wait + Sync, G: Gate>(
    rt: &R,
    alloc: Global,
    core: Core,
    log: Option<Log<D>>,
    all: Sequence<Sequence<Command>>,
    gate: &G,
) -> (Result<String, RunFault>, Option<Log<D>>)
    requires fresh { core.history ≡ [] }
    requires unopened { core.start.opened ≡ 0 }
    requires running { core.state.stopped ≡ false }
    requires beside { StandsBeside core log }
    requires few { length all ≤ 64 }
    ensures prints { MatchResult result.0 (λ text. PrintsRun D.tells D.bytes D.history D.chosen D.faults all core log (string_bytes text) result.1) (λ fault. fault ≡ RunFault.Memory) }
    ensures back { IfErr result.0 (λ _. (last : RecordedStore) × LeavesStore D.tells D.bytes D.history D.chosen D.faults core log last result.1) }
{
    match run_all(rt, alloc, core, log, all.into_vec(), gate) {
        Ok(ended) => {
            let EndedRun { run, core, log } = ended;
            // The command ends with it: to let a million terms go one by one takes longer than the rest of the end.
            mem::forget(core);
            (run_text(alloc, &run), log)
        }
        Err((_, log)) => (Err(RunFault::Memory), log),
    }
}

// All that the sessions print in the order of a history.
fn print_replay<R: Threads + Sync>(
    rt: &R,
    alloc: Global,
    limits: Limits,
    history: &[u8],
    all: Sequence<Sequence<Command>>,
) -> Result<String, RunFault>
    requires terms { limits.terms ≤ 2000000 }
    requires few { length all ≤ 64 }
    ensures { MatchResult result (λ text. (order : List ℕ) × (history_of history.now ≡ Some (map Some order)) × IsPrint all limits empty_store order None (string_bytes text))
        (λ fault. Unplayed fault (IsBadPlace all limits (history_of history.now))) }
{
    let places = match read_history(alloc, history) {
        Ok(Some(places)) => places,
        Ok(None) => return Err(RunFault::BadHistory { place: 0 }),
        Err(_) => return Err(RunFault::Memory),
    };
    match replay_all(rt, alloc, limits, all.into_vec(), places.as_slice()) {
        Ok(run) => match text_of(alloc, &run) {
            Ok(text) => Ok(text),
            Err(_) => Err(RunFault::Memory),
        },
        Err(HistoryFault::Place(place)) => Err(RunFault::BadHistory {
            place: place as u64,
        }),
        Err(HistoryFault::Memory) => Err(RunFault::Memory),
    }
}

// The fault of a session file that comes behind a history, which is file 1.
fn behind_history(fault: RunFault) -> RunFault
    requires { (file : ℕ) → fault ≡ RunFault.TooLong file → file ≤ 64 }
    ensures { result ≡ Faults.behind_history fault }
{
    match fault {
        RunFault::TooLong { file } => RunFault::TooLong { file: file + 1 },
        _ => fault,
    }
}

// The commands of the session files behind a history.
fn load_behind<T: Threads + Sync, F: Files, M: Maker>(
    rt: &T,
    alloc: Global,
    names: &[Text],
    files: &mut F,
    maker: &mut M,
) -> Result<Sequence<Sequence<Command>>, RunFault>
    requires { length names.now ≤ 64 }
    ensures answer { let before : Loads = record { loaded = F.loaded files.old; failed = F.failed files.old; refused = M.refused maker.old } in
        let after : Loads = record { loaded = F.loaded files.new; failed = F.failed files.new; refused = M.refused maker.new } in
        MatchResult result (λ all. HoldSessions (F.holds files.old) [] 1 names.now all before.refused after.refused × LoadsAll names.now before after)
        (λ fault. (other : RunFault) × (fault ≡ Faults.behind_history other) × Stops other (F.holds files.old) [] names.now before after) }
    ensures refused { OnlyGrows (M.refused maker.old) (M.refused maker.new) }
{
    match load_all(rt, alloc, files, maker, &[], names) {
        Ok(all) => Ok(all),
        Err(fault) => Err(behind_history(fault)),
    }
}

// What the session files print in the order of a history.
fn replay_sessions<R: Threads + Sync, F: Files, M: Maker>(
    rt: &R,
    alloc: Global,
    limits: Limits,
    history: &str,
    names: &[Text],
    files: &mut F,
    maker: &mut M,
) -> Result<String, RunFault>
    requires terms { limits.terms ≤ 2000000 }
    requires few { length names.now ≤ 64 }
    ensures answer { let before : Loads = record { loaded = F.loaded files.old; failed = F.failed files.old; refused = M.refused maker.old } in
        let after : Loads = record { loaded = F.loaded files.new; failed = F.failed files.new; refused = M.refused maker.new } in
        let asked : SessionRun = record { limits = limits; history = Some history.now; files = names.now } in
        MatchResult result (λ text. IsRun (F.holds files.old) empty_start asked None before.refused after.refused (string_bytes text) × LoadsAll (history.now ∷ names.now) before after)
        (λ fault. StopsRun fault (F.holds files.old) [] asked before after) }
    ensures refused { OnlyGrows (M.refused maker.old) (M.refused maker.new) }
{
    let text = match load_file(alloc, files, history) {
        Ok(text) => text,
        Err(fault) => return Err(run_fault(fault, 1)),
    };
    let all = match load_behind(rt, alloc, names, files, maker) {
        Ok(all) => all,
        Err(fault) => return Err(fault),
    };
    print_replay(rt, alloc, limits, &text, all)
}

/// What at most 64 session files print in the order of a history, over an empty store: what a plain store gives, asked one step
/// at a time in that order, which is valid for them. Threads share out the evaluations of each commit among each other.
pub fn replay_files<R: Threads + Sync, F: Files, M: Maker>(
    rt: &R,
    alloc: Global,
    limits: Limits,
    history: &str,
    names: &[Text],
    files: &mut F,
    maker: &mut M,
) -> Result<String, RunFault>
    requires terms { limits.terms ≤ 2000000 }
    ensures answer { let before : Loads = record { loaded = F.loaded files.old; failed = F.failed files.old; refused = M.refused maker.old } in
        let after : Loads = record { loaded = F.loaded files.new; failed = F.failed files.new; refused = M.refused maker.new } in
        let asked : SessionRun = record { limits = limits; history = Some history.now; files = names.now } in
        MatchResult result (λ text. AreRun (F.holds files.old) empty_start asked None before after (string_bytes text)) (λ fault. StopsRun fault (F.holds files.old) [] asked before after) }
    ensures refused { OnlyGrows (M.refused maker.old) (M.refused maker.new) }
{
    if names.len() > MOST_FILES {
        return Err(RunFault::TooManyFiles);
    }
    replay_sessions(rt, alloc, limits, history, names, files, maker)
}

/// What at most 64 session files print, run beside each other in threads over a core and its log, if it has one: what a plain
/// store gives, asked one step at a time in an order that is valid for them; and the log, whatever comes. Where the files are
/// refused or can't be read, it is the log as it was handed in. The gate is told of each step of a session but its opening,
/// before it and after it.
pub fn run_files<D: Disk + Drop + Send, R: Threads + Wait + Sync, F: Files, M: Maker, G: Gate>(
    rt: &R,
    alloc: Global,
    stored: Stored<D>,
    names: &[Text],
    files: &mut F,
    maker: &mut M,
    gate: &G,
) -> (Result<String, RunFault>, Option<Log<D>>)
    requires fresh { stored.core.history ≡ [] }
    requires unopened { stored.core.start.opened ≡ 0 }
    requires running { stored.core.state.stopped ≡ false }
    requires beside { StandsBeside stored.core stored.log }
    requires numbers { AllByRecursion IsFirstNumber stored.first_numbers }
    ensures answer { let before : Loads = record { loaded = F.loaded files.old; failed = F.failed files.old; refused = M.refused maker.old } in
        let after : Loads = record { loaded = F.loaded files.new; failed = F.failed files.new; refused = M.refused maker.new } in
        MatchResult result.0 (λ text. AreLogged D.tells D.bytes D.history D.chosen D.faults (F.holds files.old) stored.first_numbers stored.core stored.log names.now before after (string_bytes text) result.1)
        (λ fault. StopsRun fault (F.holds files.old) stored.first_numbers (run_over stored.core names.now) before after) }
    ensures back { IfErr result.0 (λ _. (result.1 ≡ stored.log) ⊎ ((last : RecordedStore) × LeavesStore D.tells D.bytes D.history D.chosen D.faults stored.core stored.log last result.1)) }
    ensures log_kept { IfErr result.0 (λ fault. fault ≢ RunFault.Memory → result.1 ≡ stored.log) }
    ensures refused { OnlyGrows (M.refused maker.old) (M.refused maker.new) }
{
    let Stored {
        core,
        log,
        first_numbers,
    } = stored;
    if names.len() > MOST_FILES {
        return (Err(RunFault::TooManyFiles), log);
    }
    match load_all(rt, alloc, files, maker, first_numbers.as_slice(), names) {
        Ok(all) => run_sessions(rt, alloc, core, log, all, gate),
        Err(fault) => (Err(fault), log),
    }
}
