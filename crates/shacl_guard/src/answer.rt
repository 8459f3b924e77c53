//! The text and the status that are due for a request.
ghost use Rattle.std.specs.Prelude.{◌≡◌, ◌≢◌, ◌≤◌, ◌++◌, [], List, None, Some, codes, string_bytes, IfErr, IfOk, MatchResult};
ghost use Rattle.std.specs.Fmt.{decimal};
ghost use Rattle.session_model.specs.Print.{line};
ghost use Rattle.session_reader.specs.Checking.{OnlyGrows};
ghost use Rattle.outside.specs.Faults.{Refusal};
ghost use Rattle.input_files.specs.Loads.{Loads};
ghost use Rattle.generate_command.specs.Load.{IsLoad};
ghost use Rattle.validate_command.specs.Lines.{bad_input_text};
ghost use Rattle.session_files.specs.Faults.{StopsRun};
ghost use Rattle.session_files.specs.Runs.{AreRun, empty_start};
ghost use Rattle.shacl_guard.specs.Due.{Fails, Gives, IsRequestDue, IsTold, StopsRequest, TellsNone, TellsNothing};
ghost use Rattle.shacl_guard.specs.Requests.{IsWithin};
ghost use Rattle.shacl_guard.specs.Statuses.{error_line};

use crate::Status;
use crate::request::PlainRequest;
use collections::Sequence;
use commit_core::Core;
use commit_log::Log;
use disk::MemDisk;
use follow_command::{FollowedFiles, follow_files};
use generate_command::run_load;
use outside::{Files, Gate, Maker};
use rdf_text::Text;
use session_files::{RunFault, SessionRun, Stored, replay_files, run_files};
use std::alloc::{AllocError, Global};
use std::sync::Wait;
use std::thread::Threads;
use validate_command::{
    BadInput, EvidenceVerdict, ValidatedFiles, VerifiedFiles, explain_files, validate_files,
    verify_files,
};

/// A text that is due, and its status.
#[derive(Drop)]
pub struct Answer {
    pub status: Status,
    pub text: Text,
}

// What session files print, run over an empty store.
fn run_unlogged<R: Threads + Wait + Sync, F: Files, M: Maker, G: Gate>(
    rt: &R,
    alloc: Global,
    run: &SessionRun,
    files: &mut F,
    maker: &mut M,
    gate: &G,
) -> Result<String, RunFault>
    requires terms { run.now.limits.terms ≤ 2000000 }
    requires unordered { run.now.history ≡ None }
    ensures answer { let before : Loads = record { loaded = F.loaded files.old; failed = F.failed files.old; refused = M.refused maker.old } in
        let after : Loads = record { loaded = F.loaded files.new; failed = F.failed files.new; refused = M.refused maker.new } in
        MatchResult result (λ text. AreRun (F.holds files.old) empty_start run.now None before after (string_bytes text)) (λ fault. StopsRun fault (F.holds files.old) [] run.now before after) }
    ensures refused { OnlyGrows (M.refused maker.old) (M.refused maker.new) }
{
    let core = Core::open(alloc, run.limits)?;
    let stored = Stored {
        core,
        log: None::<Log<MemDisk>>,
        first_numbers: Sequence::new(alloc),
    };
    let (text, _) = run_files(rt, alloc, stored, run.files.as_slice(), files, maker, gate);
    text
}

// What session files print, run in the order of a history where one is handed in.
fn run_sessions<R: Threads + Wait + Sync, F: Files, M: Maker, G: Gate>(
    rt: &R,
    alloc: Global,
    run: &SessionRun,
    files: &mut F,
    maker: &mut M,
    gate: &G,
) -> Result<String, RunFault>
    requires terms { run.now.limits.terms ≤ 2000000 }
    ensures answer { let before : Loads = record { loaded = F.loaded files.old; failed = F.failed files.old; refused = M.refused maker.old } in
        let after : Loads = record { loaded = F.loaded files.new; failed = F.failed files.new; refused = M.refused maker.new } in
        MatchResult result (λ text. AreRun (F.holds files.old) empty_start run.now None before after (string_bytes text)) (λ fault. StopsRun fault (F.holds files.old) [] run.now before after) }
    ensures refused { OnlyGrows (M.refused maker.old) (M.refused maker.new) }
{
    match &run.history {
        Some(history) => replay_files(
            rt,
            alloc,
            run.limits,
            history.as_str(),
            run.files.as_slice(),
            files,
            maker,
        ),
        None => run_unlogged(rt, alloc, run, files, maker, gate),
    }
}

// What session files give.
fn answer_sessions<R: Threads + Wait + Sync, F: Files, M: Maker, G: Gate>(
    rt: &R,
    alloc: Global,
    run: &SessionRun,
    files: &mut F,
    maker: &mut M,
    gate: &G,
) -> Result<Answer, Status>
    requires terms { run.now.limits.terms ≤ 2000000 }
    ensures answer { let before : Loads = record { loaded = F.loaded files.old; failed = F.failed files.old; refused = M.refused maker.old } in
        let after : Loads = record { loaded = F.loaded files.new; failed = F.failed files.new; refused = M.refused maker.new } in
        MatchResult result (λ a. Gives (F.holds files.old) (PlainRequest.Sessions run.now) a.status before after a.text)
        (λ s. StopsRequest s (F.holds files.old) (PlainRequest.Sessions run.now) before after) }
    ensures refused { OnlyGrows (M.refused maker.old) (M.refused maker.new) }
{
    let text = match run_sessions(rt, alloc, run, files, maker, gate) {
        Ok(text) => text,
        Err(fault) => return Err(Status::from(fault)),
    };
    match Text::from_string(text) {
        Ok(text) => Ok(Answer {
            status: Status::Done,
            text,
        }),
        Err(_) => Err(Status::Memory),
    }
}

// What a validation gives.
fn answer_validation<R: Threads + Sync, F: Files, M: Maker>(
    rt: &R,
    alloc: Global,
    validated: &ValidatedFiles,
    files: &mut F,
    maker: &mut M,
) -> Result<Answer, Status>
    ensures answer { let before : Loads = record { loaded = F.loaded files.old; failed = F.failed files.old; refused = M.refused maker.old } in
        let after : Loads = record { loaded = F.loaded files.new; failed = F.failed files.new; refused = M.refused maker.new } in
        MatchResult result (λ a. Gives (F.holds files.old) (PlainRequest.Validation validated.now) a.status before after a.text)
        (λ s. StopsRequest s (F.holds files.old) (PlainRequest.Validation validated.now) before after) }
    ensures refused { OnlyGrows (M.refused maker.old) (M.refused maker.new) }
{
    match validate_files(rt, alloc, validated, files, maker) {
        Ok(validation) => Ok(Answer {
            status: Status::of_conforms(validation.conforms),
            text: validation.report,
        }),
        Err(fault) => Err(Status::from(fault)),
    }
}

// What the explanation of a validation gives.
fn answer_explanation<F: Files, M: Maker>(
    alloc: Global,
    explained: &ValidatedFiles,
    files: &mut F,
    maker: &mut M,
) -> Result<Answer, Status>
    ensures answer { let before : Loads = record { loaded = F.loaded files.old; failed = F.failed files.old; refused = M.refused maker.old } in
        let after : Loads = record { loaded = F.loaded files.new; failed = F.failed files.new; refused = M.refused maker.new } in
        MatchResult result (λ a. Gives (F.holds files.old) (PlainRequest.Explanation explained.now) a.status before after a.text)
        (λ s. StopsRequest s (F.holds files.old) (PlainRequest.Explanation explained.now) before after) }
    ensures refused { OnlyGrows (M.refused maker.old) (M.refused maker.new) }
{
    match explain_files(alloc, explained, files, maker) {
        Ok(explanation) => Ok(Answer {
            status: Status::of_conforms(explanation.conforms),
            text: explanation.blocks,
        }),
        Err(fault) => Err(Status::from(fault)),
    }
}

// The line that evidence is verified.
fn verified_line(alloc: Global, blocks: u32) -> Result<Text, AllocError>
    ensures { IfOk result (λ text. text ≡ line (codes "valid " ++ decimal blocks)) }
{
    Ok(Text::from_string(format!(in alloc; "valid {blocks}\n")?)?)
}

// The text of a verdict, if it has one.
fn told_verdict(alloc: Global, verdict: &EvidenceVerdict) -> Result<Answer, Status>
    ensures { MatchResult result (λ a. IsTold verdict.now a.status a.text) (λ s. TellsNone verdict.now s) }
{
    match verdict {
        EvidenceVerdict::Verified { blocks } => match verified_line(alloc, *blocks) {
            Ok(text) => Ok(Answer {
                status: Status::Done,
                text,
            }),
            Err(_) => Err(Status::Memory),
        },
        EvidenceVerdict::Wrong { block } => Err(Status::BadEvidence { block: *block }),
    }
}

// What the verification of evidence gives.
fn answer_verification<F: Files, M: Maker>(
    alloc: Global,
    verified: &VerifiedFiles,
    files: &mut F,
    maker: &mut M,
) -> Result<Answer, Status>
    ensures answer { let before : Loads = record { loaded = F.loaded files.old; failed = F.failed files.old; refused = M.refused maker.old } in
        let after : Loads = record { loaded = F.loaded files.new; failed = F.failed files.new; refused = M.refused maker.new } in
        MatchResult result (λ a. Gives (F.holds files.old) (PlainRequest.Verification verified.now) a.status before after a.text)
        (λ s. StopsRequest s (F.holds files.old) (PlainRequest.Verification verified.now) before after) }
    ensures refused { OnlyGrows (M.refused maker.old) (M.refused maker.new) }
{
    match verify_files(alloc, verified, files, maker) {
        Ok(verdict) => told_verdict(alloc, &verdict),
        Err(fault) => Err(Status::from(fault)),
    }
}

// What a follower of a log gives.
fn answer_following<F: Files>(
    alloc: Global,
    followed: &FollowedFiles,
    files: &mut F,
) -> Result<Answer, Status>
    ensures { (refused : List Refusal) → let before : Loads = record { loaded = F.loaded files.old; failed = F.failed files.old; refused = refused } in
        let after : Loads = record { loaded = F.loaded files.new; failed = F.failed files.new; refused = refused } in
        MatchResult result (λ a. Gives (F.holds files.old) (PlainRequest.Following followed.now) a.status before after a.text)
        (λ s. StopsRequest s (F.holds files.old) (PlainRequest.Following followed.now) before after) }
{
    let text = match follow_files(alloc, followed, files) {
        Ok(text) => text,
        Err(fault) => return Err(Status::from(fault)),
    };
    match Text::from_string(text) {
        Ok(text) => Ok(Answer {
            status: Status::Done,
            text,
        }),
        Err(_) => Err(Status::Memory),
    }
}

// What a generated load gives.
fn answer_load<R: Threads + Wait + Sync, M: Maker, G: Gate>(
    rt: &R,
    alloc: Global,
    n: u32,
    maker: &mut M,
    gate: &G,
) -> Result<Answer, Status>
    requires { (1 ≤ n) × (n ≤ 100000) }
    ensures load { MatchResult result (λ a. (a.status ≡ Status.Done) × IsLoad n (M.refused maker.old) (M.refused maker.new) a.text) (λ s. s ≡ Status.Memory) }
    ensures refused { OnlyGrows (M.refused maker.old) (M.refused maker.new) }
{
    let Ok(text) = run_load(rt, alloc, n, maker, gate) else {
        return Err(Status::Memory);
    };
    match Text::from_string(text) {
        Ok(text) => Ok(Answer {
            status: Status::Done,
            text,
        }),
        Err(_) => Err(Status::Memory),
    }
}

// What a request gives.
fn answer_request<R: Threads + Wait + Sync, F: Files, M: Maker, G: Gate>(
    rt: &R,
    alloc: Global,
    request: &PlainRequest,
    files: &mut F,
    maker: &mut M,
    gate: &G,
) -> Result<Answer, Status>
    requires { IsWithin request.now }
    ensures answer { let before : Loads = record { loaded = F.loaded files.old; failed = F.failed files.old; refused = M.refused maker.old } in
        let after : Loads = record { loaded = F.loaded files.new; failed = F.failed files.new; refused = M.refused maker.new } in
        MatchResult result (λ a. Gives (F.holds files.old) request.now a.status before after a.text)
        (λ s. StopsRequest s (F.holds files.old) request.now before after) }
    ensures refused { OnlyGrows (M.refused maker.old) (M.refused maker.new) }
{
    match request {
        PlainRequest::Sessions(run) => answer_sessions(rt, alloc, run, files, maker, gate),
        PlainRequest::Validation(validated) => answer_validation(
            rt, alloc, validated, files, maker,
        ),
        PlainRequest::Explanation(explained) => answer_explanation(alloc, explained, files, maker),
        PlainRequest::Verification(verified) => answer_verification(alloc, verified, files, maker),
        PlainRequest::Following(followed) => answer_following(alloc, followed, files),
        PlainRequest::Load(n) => answer_load(rt, alloc, *n, maker, gate),
    }
}

fn bad_session_line(alloc: Global, session: u32, number: u64) -> Result<Text, AllocError>
    ensures { IfOk result (λ text. text ≡ line (codes "error session " ++ decimal session ++ codes " line " ++ decimal number)) }
{
    Ok(Text::from_string(format!(in alloc; "error session {session} line {number}\n")?)?)
}

fn long_file_line(alloc: Global, file: u32) -> Result<Text, AllocError>
    ensures { IfOk result (λ text. text ≡ line (codes "error file " ++ decimal file ++ codes " too long")) }
{
    Ok(Text::from_string(format!(in alloc; "error file {file} too long\n")?)?)
}

fn bad_history_line(alloc: Global, place: u64) -> Result<Text, AllocError>
    ensures { IfOk result (λ text. text ≡ line (codes "error history " ++ decimal place)) }
{
    Ok(Text::from_string(format!(in alloc; "error history {place}\n")?)?)
}

fn bad_evidence_line(alloc: Global, block: u32) -> Result<Text, AllocError>
    ensures { IfOk result (λ text. text ≡ line (codes "error evidence " ++ decimal block)) }
{
    Ok(Text::from_string(format!(in alloc; "error evidence {block}\n")?)?)
}

fn bad_log_line(alloc: Global, entry: u64) -> Result<Text, AllocError>
    ensures { IfOk result (λ text. text ≡ line (codes "error log record " ++ decimal entry)) }
{
    Ok(Text::from_string(format!(in alloc; "error log record {entry}\n")?)?)
}

fn bad_order_line(alloc: Global, place: u64) -> Result<Text, AllocError>
    ensures { IfOk result (λ text. text ≡ line (codes "error order " ++ decimal place)) }
{
    Ok(Text::from_string(format!(in alloc; "error order {place}\n")?)?)
}

fn bad_input_line(alloc: Global, bad: &BadInput) -> Result<Text, AllocError>
    ensures { IfOk result (λ text. text ≡ line (codes "error " ++ bad_input_text bad.now)) }
{
    Ok(Text::from_string(format!(in alloc; "error {bad}\n")?)?)
}

// The line of an error that has one.
fn error_text(alloc: Global, status: &Status) -> Result<Option<Text>, AllocError>
    ensures text { IfOk result (λ text. text ≡ error_line status.now) }
    ensures memory { IfErr result (λ _. error_line status.now ≢ None) }
{
    match status {
        Status::Usage => Ok(Some(Text::new(alloc, "error usage\n")?)),
        Status::BadSession { session, line } => Ok(Some(bad_session_line(alloc, *session, *line)?)),
        Status::TooLong { file } => Ok(Some(long_file_line(alloc, *file)?)),
        Status::TooManyFiles => Ok(Some(Text::new(alloc, "error too many files\n")?)),
        Status::BadHistory { place } => Ok(Some(bad_history_line(alloc, *place)?)),
        Status::BadInput(bad) => Ok(Some(bad_input_line(alloc, bad)?)),
        Status::BadLog { entry } => Ok(Some(bad_log_line(alloc, *entry)?)),
        Status::LogSpent => Ok(Some(Text::new(alloc, "error log spent\n")?)),
        Status::LogTooLarge => Ok(Some(Text::new(alloc, "error log too large\n")?)),
        Status::BadOrder { place } => Ok(Some(bad_order_line(alloc, *place)?)),
        Status::BadEvidence { block } => Ok(Some(bad_evidence_line(alloc, *block)?)),
        Status::Done
        | Status::Invalid
        | Status::ReadFault
        | Status::WriteFault
        | Status::Memory
        | Status::LogStopped => Ok(None),
    }
}

/// The text of a status that stops a request: the line of its error, if it has one.
pub(crate) fn told(alloc: Global, status: Status) -> Result<Answer, Status>
    ensures { MatchResult result (λ a. (a.status ≡ status) × (error_line status ≡ Some a.text)) (TellsNothing status) }
{
    match error_text(alloc, &status) {
        Ok(Some(text)) => Ok(Answer { status, text }),
        Ok(None) => Err(status),
        Err(_) => Err(Status::Memory),
    }
}

/// What is due for a request, or why nothing is.
pub fn answer_to<R: Threads + Wait + Sync, F: Files, M: Maker, G: Gate>(
    rt: &R,
    alloc: Global,
    request: &PlainRequest,
    files: &mut F,
    maker: &mut M,
    gate: &G,
) -> Result<Answer, Status>
    requires { IsWithin request.now }
    ensures answer { let before : Loads = record { loaded = F.loaded files.old; failed = F.failed files.old; refused = M.refused maker.old } in
        let after : Loads = record { loaded = F.loaded files.new; failed = F.failed files.new; refused = M.refused maker.new } in
        MatchResult result (λ a. IsRequestDue (F.holds files.old) request.now a.status before after a.text)
        (λ s. Fails s (F.holds files.old) (Some request.now) before after) }
    ensures refused { OnlyGrows (M.refused maker.old) (M.refused maker.new) }
{
    match answer_request(rt, alloc, request, files, maker, gate) {
        Ok(answer) => Ok(answer),
        Err(status) => told(alloc, status),
    }
}
