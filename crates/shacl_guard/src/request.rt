//! What the words ask for, with a log or without.
ghost use Rattle.std.specs.Prelude.{◌≡◌, MatchResult, map};
ghost use Rattle.shacl_guard.specs.Requests;
ghost use Rattle.shacl_guard.specs.Requests.{IsAsked, Unasked, UnaskedOfLog, log_request_of, request_of};

use collections::Sequence;
use command_line::{Block, Call, LimitOptions, WordsFault, read_call};
use follow_command::FollowedFiles;
use rdf_text::Text;
use session_files::SessionRun;
use std::alloc::Global;
use store_model::{BlockMode, Limits};
use validate_command::{ValidatedFiles, VerifiedFiles};

/// What the words ask for.
#[derive(Debug, Drop)]
pub enum PlainRequest {
    /// Session files are run.
    Sessions(SessionRun),
    /// A data graph is validated by a shapes graph.
    Validation(ValidatedFiles),
    /// Such a validation is explained.
    Explanation(ValidatedFiles),
    /// Evidence of the results of such a validation is verified.
    Verification(VerifiedFiles),
    /// A follower is fed records of a log.
    Following(FollowedFiles),
    /// The generated load of so many numbers is run.
    Load(u32),
}

/// What the words ask for, with a log.
#[derive(Debug, Drop)]
pub enum LogRequest {
    /// A log of this name is made.
    Create { name: Text },
    /// Session files are run over the store of a log.
    Logged(LoggedRun),
}

/// Session files that are run over the store of a log.
#[derive(Debug, Drop)]
pub struct LoggedRun {
    /// The name of the log.
    pub log: Text,
    pub run: SessionRun,
}

/// What the words ask for, without a log or with one.
#[derive(Debug, Drop)]
pub enum Asked {
    Plain(PlainRequest),
    WithLog(LogRequest),
}

fn mode_of(block: Block) -> BlockMode
    ensures { result ≡ Requests.mode_of block }
{
    match block {
        Block::All => BlockMode::All,
        Block::Violation => BlockMode::Violation,
    }
}

// The limits of the words as those of a store.
fn limits_of(bounds: LimitOptions) -> Limits
    ensures { result ≡ record { terms = bounds.terms; triples = bounds.triples; mode = Requests.mode_of bounds.block } }
{
    Limits {
        terms: bounds.terms as usize,
        triples: bounds.triples as usize,
        mode: mode_of(bounds.block),
    }
}

// The run of session files, in the order of a history where one is handed in.
fn run_of(bounds: LimitOptions, history: Option<Text>, files: Sequence<Text>) -> SessionRun
    ensures { result ≡ Requests.run_of bounds history files }
{
    SessionRun {
        limits: limits_of(bounds),
        history,
        files,
    }
}

// What a run of session files asks for, over the store of a log if one is named.
fn asked_run(bounds: LimitOptions, log: Option<Text>, files: Sequence<Text>) -> Asked
    ensures { result ≡ Requests.asked_in (Call.Run bounds log files) }
{
    match log {
        Some(log) => Asked::WithLog(LogRequest::Logged(LoggedRun {
            log,
            run: run_of(bounds, None, files),
        })),
        None => Asked::Plain(PlainRequest::Sessions(run_of(bounds, None, files))),
    }
}

// What a call asks for.
fn asked_in(call: Call) -> Asked
    ensures { result ≡ Requests.asked_in call }
{
    match call {
        Call::Run { limits, log, files } => asked_run(limits, log, files),
        Call::Replay {
            limits,
            history,
            files,
        } => Asked::Plain(PlainRequest::Sessions(run_of(limits, Some(history), files))),
        Call::CreateLog { name } => Asked::WithLog(LogRequest::Create { name }),
        Call::Follow {
            log: log_file,
            order,
            version,
        } => Asked::Plain(PlainRequest::Following(FollowedFiles {
            log_file,
            order_file: order,
            version: u64::from(version),
        })),
        Call::Validate {
            data: data_file,
            shapes,
        } => Asked::Plain(PlainRequest::Validation(ValidatedFiles {
            data_file,
            shapes_file: shapes,
        })),
        Call::Explain {
            data: data_file,
            shapes,
        } => Asked::Plain(PlainRequest::Explanation(ValidatedFiles {
            data_file,
            shapes_file: shapes,
        })),
        Call::Verify {
            data: data_file,
            shapes,
            evidence,
        } => Asked::Plain(PlainRequest::Verification(VerifiedFiles {
            graphs: ValidatedFiles {
                data_file,
                shapes_file: shapes,
            },
            evidence_file: evidence,
        })),
        Call::Generate { numbers } => Asked::Plain(PlainRequest::Load(numbers)),
    }
}

/// Reads the words, the first of which is the program's name.
pub fn read_asked(alloc: Global, words: &[&str]) -> Result<Asked, WordsFault>
    ensures { let given = map (λ w. w.now) words.now in
        MatchResult result (IsAsked given) (λ fault. Unasked fault (request_of given) × UnaskedOfLog fault (log_request_of given)) }
{
    match read_call(alloc, words) {
        Ok(call) => Ok(asked_in(call)),
        Err(fault) => Err(fault),
    }
}
