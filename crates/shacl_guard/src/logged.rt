//! Requests with a log: one is made, or session files are run over the store of one.
ghost use Rattle.std.specs.Prelude.{◌≡◌, ◌≢◌, ◌≤◌, [], false, IfErr, IsErrOf, MatchResult, Option, Some, string_bytes};
ghost use Rattle.std.specs.List.{AllByRecursion};
ghost use Rattle.commit_core.specs.Logged.{IsBeside};
ghost use Rattle.session_reader.specs.Checking.{OnlyGrows};
ghost use Rattle.outside.specs.Files.{Contents};
ghost use Rattle.input_files.specs.Loads.{Loads};
ghost use Rattle.session_files.specs.Faults.{StopsRun};
ghost use Rattle.session_files.specs.Loading.{IsFirstNumber};
ghost use Rattle.session_files.specs.Logged.{AreLogged, run_over};
ghost use Rattle.log_command.specs.Devices.{seen};
ghost use Rattle.shacl_guard.specs.LogRuns.{FailsOfLog, GivesOfLog, IsDueOfLog, StopsOfLog};
ghost use Rattle.shacl_guard.specs.Requests.{IsLogWithin};
ghost use Rattle.shacl_guard.specs.Statuses.{of_fault, of_run};
ghost use Rattle.shacl_guard.specs.declared.request.LogRequest.TheVariants as requests;

use crate::Status;
use crate::answer::{Answer, told};
use crate::request::{LogRequest, LoggedRun};
use commit_log::Log;
use disk::Disk;
use log_command::{StoredLog, create_log, open_log};
use outside::{Files, Gate, Maker};
use rdf_text::Text;
use session_files::{RunFault, Stored, run_files};
use std::alloc::Global;
use std::sync::Wait;
use std::thread::Threads;

// So many sessions may run.
const MOST_FILES: usize = 64;

// Makes a log.
fn answer_creation<D: Disk>(alloc: Global, name: &str, disk: D) -> (Result<Answer, Status>, D)
    ensures answer { let was = seen D.bytes D.history D.chosen D.faults disk in
        let is = seen D.bytes D.history D.chosen D.faults result.1 in
        (held : Option Contents) (loads : Loads) → MatchResult result.0 (λ a. GivesOfLog D.tells held (requests.Create name.now) a.status loads loads was is a.text)
        (λ s. StopsOfLog D.tells held (requests.Create name.now) s loads loads was is) }
{
    let Ok(text) = Text::new(alloc, "") else {
        return (Err(Status::Memory), disk);
    };
    match create_log(alloc, disk, name) {
        (Ok(()), disk) => (
            Ok(Answer {
                status: Status::Done,
                text,
            }),
            disk,
        ),
        (Err(fault), disk) => (Err(Status::from(fault)), disk),
    }
}

// The status of a run whose log failed or didn't.
fn log_status(is_closed: bool) -> Status
    ensures { result ≡ of_fault is_closed }
{
    if is_closed {
        Status::LogStopped
    } else {
        Status::Done
    }
}

// What a run printed with this status, if there is memory for its text.
fn run_answer(text: Result<String, RunFault>, status: Status) -> Result<Answer, Status>
    ensures { MatchResult text (λ printed. MatchResult result (λ a. (a.status ≡ status) × (a.text ≡ string_bytes printed)) (λ s. s ≡ Status.Memory))
        (λ fault. IsErrOf result (of_run fault)) }
{
    match text {
        Ok(text) => match Text::from_string(text) {
            Ok(text) => Ok(Answer { status, text }),
            Err(_) => Err(Status::Memory),
        },
        Err(fault) => Err(Status::from(fault)),
    }
}

// What session files print over a store that was opened; and its log, as it was opened where the files are refused or can't be
// read.
fn run_stored<D: Disk + Drop + Send, R: Threads + Wait + Sync, F: Files, M: Maker, G: Gate>(
    rt: &R,
    alloc: Global,
    stored: StoredLog<D>,
    names: &[Text],
    files: &mut F,
    maker: &mut M,
    gate: &G,
) -> (Result<String, RunFault>, Log<D>)
    requires fresh { stored.core.history ≡ [] }
    requires unopened { stored.core.start.opened ≡ 0 }
    requires running { stored.core.state.stopped ≡ false }
    requires beside { IsBeside stored.core stored.log }
    requires numbers { AllByRecursion IsFirstNumber stored.first_numbers }
    ensures answer { let before : Loads = record { loaded = F.loaded files.old; failed = F.failed files.old; refused = M.refused maker.old } in
        let after : Loads = record { loaded = F.loaded files.new; failed = F.failed files.new; refused = M.refused maker.new } in
        MatchResult result.0 (λ text. AreLogged D.tells D.bytes D.history D.chosen D.faults (F.holds files.old) stored.first_numbers stored.core (Some stored.log) names.now before after (string_bytes text) (Some result.1))
        (λ fault. StopsRun fault (F.holds files.old) stored.first_numbers (run_over stored.core names.now) before after) }
    ensures chosen { D.chosen result.1.disk ≡ D.chosen stored.log.disk }
    ensures log_kept { IfErr result.0 (λ fault. fault ≢ RunFault.Memory → result.1 ≡ stored.log) }
    ensures refused { OnlyGrows (M.refused maker.old) (M.refused maker.new) }
{
    let StoredLog {
        core,
        log,
        first_numbers,
    } = stored;
    let stored = Stored {
        core,
        log: Some(log),
        first_numbers,
    };
    match run_files(rt, alloc, stored, names, files, maker, gate) {
        (text, Some(log)) => (text, log),
        (_, None) => unreachable!(),
    }
}

// Runs session files over the store of a log.
fn answer_logged<D: Disk + Drop + Send, R: Threads + Wait + Sync, F: Files, M: Maker, G: Gate>(
    rt: &R,
    alloc: Global,
    logged: &LoggedRun,
    files: &mut F,
    maker: &mut M,
    gate: &G,
    disk: D,
) -> (Result<Answer, Status>, D)
    requires { IsLogWithin (requests.Logged logged.now) }
    ensures answer { let before : Loads = record { loaded = F.loaded files.old; failed = F.failed files.old; refused = M.refused maker.old } in
        let after : Loads = record { loaded = F.loaded files.new; failed = F.failed files.new; refused = M.refused maker.new } in
        let was = seen D.bytes D.history D.chosen D.faults disk in
        let is = seen D.bytes D.history D.chosen D.faults result.1 in
        MatchResult result.0 (λ a. GivesOfLog D.tells (F.holds files.old) (requests.Logged logged.now) a.status before after was is a.text)
        (λ s. StopsOfLog D.tells (F.holds files.old) (requests.Logged logged.now) s before after was is) }
    ensures refused { OnlyGrows (M.refused maker.old) (M.refused maker.new) }
{
    let count = logged.run.files.len();
    if count > MOST_FILES {
        return (Err(Status::TooManyFiles), disk);
    }
    match open_log(
        rt,
        alloc,
        disk,
        logged.run.limits,
        logged.log.as_str(),
        count as u32,
        maker,
    ) {
        Ok(stored) => {
            let names = logged.run.files.as_slice();
            let (text, log) = run_stored(rt, alloc, stored, names, files, maker, gate);
            let status = log_status(log.is_closed());
            (run_answer(text, status), log.into_disk())
        }
        Err((fault, disk)) => (Err(Status::from(fault)), disk),
    }
}

// What a request with a log gives, or why it gives nothing; and the disk.
fn give_with_log<D: Disk + Drop + Send, R: Threads + Wait + Sync, F: Files, M: Maker, G: Gate>(
    rt: &R,
    alloc: Global,
    request: &LogRequest,
    files: &mut F,
    maker: &mut M,
    gate: &G,
    disk: D,
) -> (Result<Answer, Status>, D)
    requires { IsLogWithin request.now }
    ensures answer { let before : Loads = record { loaded = F.loaded files.old; failed = F.failed files.old; refused = M.refused maker.old } in
        let after : Loads = record { loaded = F.loaded files.new; failed = F.failed files.new; refused = M.refused maker.new } in
        let was = seen D.bytes D.history D.chosen D.faults disk in
        let is = seen D.bytes D.history D.chosen D.faults result.1 in
        MatchResult result.0 (λ a. GivesOfLog D.tells (F.holds files.old) request.now a.status before after was is a.text)
        (λ s. StopsOfLog D.tells (F.holds files.old) request.now s before after was is) }
    ensures refused { OnlyGrows (M.refused maker.old) (M.refused maker.new) }
{
    match request {
        LogRequest::Create { name } => answer_creation(alloc, name.as_str(), disk),
        LogRequest::Logged(logged) => answer_logged(rt, alloc, logged, files, maker, gate, disk),
    }
}

/// What is due for a request with a log, or why nothing is; and the disk.
pub fn answer_with_log<
    D: Disk + Drop + Send,
    R: Threads + Wait + Sync,
    F: Files,
    M: Maker,
    G: Gate,
>(
    rt: &R,
    alloc: Global,
    request: &LogRequest,
    files: &mut F,
    maker: &mut M,
    gate: &G,
    disk: D,
) -> (Result<Answer, Status>, D)
    requires { IsLogWithin request.now }
    ensures answer { let before : Loads = record { loaded = F.loaded files.old; failed = F.failed files.old; refused = M.refused maker.old } in
        let after : Loads = record { loaded = F.loaded files.new; failed = F.failed files.new; refused = M.refused maker.new } in
        let was = seen D.bytes D.history D.chosen D.faults disk in
        let is = seen D.bytes D.history D.chosen D.faults result.1 in
        MatchResult result.0 (λ a. IsDueOfLog D.tells (F.holds files.old) request.now a.status before after was is a.text)
        (λ s. FailsOfLog s D.tells (F.holds files.old) request.now before after was is) }
    ensures refused { OnlyGrows (M.refused maker.old) (M.refused maker.new) }
{
    let (answer, disk) = give_with_log(rt, alloc, request, files, maker, gate, disk);
    match answer {
        Ok(answer) => (Ok(answer), disk),
        Err(status) => (told(alloc, status), disk),
    }
}
