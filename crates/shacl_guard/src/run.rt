//! The top call: the command of the words.
ghost use Rattle.std.specs.Prelude.{◌≡◌, ℕ, List, MatchOption, MatchResult, None, Option, Some, map};
ghost use Rattle.input_files.specs.Loads.{Loads};
ghost use Rattle.outside.specs.Counts.{Rose};
ghost use Rattle.outside.specs.Files.{Contents};
ghost use Rattle.session_reader.specs.Checking.{OnlyGrows};
ghost use Rattle.log_command.specs.Devices.{seen};
ghost use Rattle.shacl_guard.specs.Outcome.{Call, HasFiles, IsAnswered, IsOutcome, IsOutcomeOfLog, IsWritten};
ghost use Rattle.shacl_guard.specs.Requests.{IsLogWithin, IsWithin, log_request_of, request_of};

use crate::Status;
use crate::answer::{Answer, answer_to, told};
use crate::logged::answer_with_log;
use crate::request::{Asked, LogRequest, PlainRequest, read_asked};
use command_line::WordsFault;
use disk::Disk;
use outside::{Files, Gate, Maker, Sink, write_all};
use std::alloc::Global;
use std::sync::Wait;
use std::thread::Threads;

// Writes what is due, and gives the status.
fn finish<K: Sink>(out: &mut K, answer: Result<Answer, Status>) -> Status
    ensures { MatchResult answer (λ a. IsWritten a.status a.text result (K.taken out.old) (K.taken out.new) (Rose (K.faults out.old) (K.faults out.new)))
        (λ s. (result ≡ s) × (K.taken out.new ≡ K.taken out.old)) }
{
    match answer {
        Ok(answer) => match write_all(out, answer.text.as_str().as_bytes()) {
            Ok(()) => answer.status,
            Err(_) => Status::WriteFault,
        },
        Err(status) => status,
    }
}

// Gives what a request without a log gives, and writes it.
fn run_plain<R: Threads + Wait + Sync, F: Files, K: Sink, M: Maker, G: Gate>(
    rt: &R,
    alloc: Global,
    request: &PlainRequest,
    files: &mut F,
    out: &mut K,
    maker: &mut M,
    gate: &G,
) -> Status
    requires { IsWithin request.now }
    ensures outcome { (given : List (List ℕ)) → let call : Call = record {
      words = given;
      held = F.holds files.old;
      before = record { loads = record { loaded = F.loaded files.old; failed = F.failed files.old; refused = M.refused maker.old }; taken = K.taken out.old };
      after = record { loads = record { loaded = F.loaded files.new; failed = F.failed files.new; refused = M.refused maker.new }; taken = K.taken out.new };
    } in
        request_of given ≡ Some request.now → IsOutcome result call }
    ensures write_fault { result ≡ Status.WriteFault → Rose (K.faults out.old) (K.faults out.new) }
    ensures complete { (given : List (List ℕ)) → request_of given ≡ Some request.now → HasFiles (F.holds files.old) (request_of given) → F.failed files.new ≡ F.failed files.old
        → (Rose (K.faults out.old) (K.faults out.new) → ⊥) → IsAnswered (request_of given) result }
    ensures refused { OnlyGrows (M.refused maker.old) (M.refused maker.new) }
{
    let answer = answer_to(rt, alloc, request, files, maker, gate);
    finish(out, answer)
}

// Gives what a request with a log gives, and writes it; and the disk.
fn run_logged<
    D: Disk + Drop + Send,
    R: Threads + Wait + Sync,
    F: Files,
    K: Sink,
    M: Maker,
    G: Gate,
>(
    rt: &R,
    alloc: Global,
    request: &LogRequest,
    files: &mut F,
    out: &mut K,
    maker: &mut M,
    gate: &G,
    disk: D,
) -> (Status, D)
    requires { IsLogWithin request.now }
    ensures outcome { (given : List (List ℕ)) → let call : Call = record {
      words = given;
      held = F.holds files.old;
      before = record { loads = record { loaded = F.loaded files.old; failed = F.failed files.old; refused = M.refused maker.old }; taken = K.taken out.old };
      after = record { loads = record { loaded = F.loaded files.new; failed = F.failed files.new; refused = M.refused maker.new }; taken = K.taken out.new };
    } in
        IsOutcomeOfLog D.tells request.now result.0 call (seen D.bytes D.history D.chosen D.faults disk) (seen D.bytes D.history D.chosen D.faults result.1) }
    ensures write_fault { result.0 ≡ Status.WriteFault → Rose (K.faults out.old) (K.faults out.new) }
    ensures refused { OnlyGrows (M.refused maker.old) (M.refused maker.new) }
{
    let (answer, disk) = answer_with_log(rt, alloc, request, files, maker, gate, disk);
    (finish(out, answer), disk)
}

// Says that words are no call.
fn refuse_words<K: Sink>(alloc: Global, out: &mut K) -> Status
    ensures outcome { (given : List (List ℕ)) (held : Option Contents) (loads : Loads) → let call : Call = record {
      words = given;
      held = held;
      before = record { loads = loads; taken = K.taken out.old };
      after = record { loads = loads; taken = K.taken out.new };
    } in
        request_of given ≡ None → IsOutcome result call }
    ensures write_fault { result ≡ Status.WriteFault → Rose (K.faults out.old) (K.faults out.new) }
{
    let answer = told(alloc, Status::Usage);
    finish(out, answer)
}

/// Runs the command of the words, the first of which is the program's name.
///
/// `run FILES..` runs up to 64 session files beside each other: the sink takes what a plain store gives,
/// asked one step at a time in the history that is printed, which holds the steps of each session once
/// and in its file's order. The gate is told of each step of a session but its opening, before it and after it.
/// `replay HISTORY FILES..` does the same in the history that is handed in, and tells no gate.
/// `validate DATA SHAPES` validates the data file's graph by the shapes file's graph: the sink takes the report.
/// `explain DATA SHAPES` does the same, and the sink takes the evidence of each result in place of the report.
/// `verify DATA SHAPES EVIDENCE` says how many blocks of evidence the third file has, where each shows its result of that validation.
/// `create-log NAME` makes a log on the disk: the sink takes nothing, and each crash afterwards leaves a log without a record.
/// `run --log NAME FILES..` runs session files over the store of that log, which takes each commit before it is told: each crash
/// leaves an image that opens to the records that were found, then to one for each commit that was printed. Where the disk fails
/// at a commit, that is told, the store stops, and a crash may leave that commit too, or not. Where no session is run because the log
/// or a file is refused or can't be read, a read of the log gives what it gave, and once it was opened each crash leaves just the
/// records that were found.
/// `follow LOG ORDER V` feeds a follower records of the first file's log, in the order of the second file: the sink takes each answer,
/// the version that the follower has come to, and the data graph of version V.
/// `generate N` runs the four session files of a generated load as `run` does, and loads no file: the sink takes N, how many
/// transactions were committed and how many refused, and how many triples the data graph has at the end.
pub fn run_command<
    D: Disk + Drop + Send,
    R: Threads + Wait + Sync,
    F: Files,
    K: Sink,
    M: Maker,
    G: Gate,
>(
    rt: &R,
    alloc: Global,
    words: &[&str],
    files: &mut F,
    out: &mut K,
    maker: &mut M,
    gate: &G,
    disk: D,
) -> (Status, D)
    // By the status: what the words and the files are, which files were loaded, which patterns were refused, and exactly what
    // the sink took.
    // Without a log the disk isn't called; with one, what it says of the log too.
    ensures outcome { let given = map (λ w. w.now) words.now in
        let call : Call = record {
          words = given;
          held = F.holds files.old;
          before = record { loads = record { loaded = F.loaded files.old; failed = F.failed files.old; refused = M.refused maker.old }; taken = K.taken out.old };
          after = record { loads = record { loaded = F.loaded files.new; failed = F.failed files.new; refused = M.refused maker.new }; taken = K.taken out.new };
        } in
        MatchOption (log_request_of given) (IsOutcome result.0 call × (result.1 ≡ disk))
        (λ q. IsOutcomeOfLog D.tells q result.0 call (seen D.bytes D.history D.chosen D.faults disk) (seen D.bytes D.history D.chosen D.faults result.1)) }
    ensures write_fault { result.0 ≡ Status.WriteFault → Rose (K.faults out.old) (K.faults out.new) }

    // Up to 64 session files within their length are run, or the history that was handed in isn't valid for them, and two files
    // within their length are validated, and that is explained where it is asked for, or its evidence is verified or isn't, or their
    // texts are refused, and a log is followed or the first of its records or places that is wrong is told, and a generated load is
    // run; unless a load or a write failed or memory ran out.
    ensures complete { HasFiles (F.holds files.old) (request_of (map (λ w. w.now) words.now)) → F.failed files.new ≡ F.failed files.old
        → (Rose (K.faults out.old) (K.faults out.new) → ⊥) → IsAnswered (request_of (map (λ w. w.now) words.now)) result.0 }

    // The patterns that the maker refused stay, and those of the files join them.
    ensures refused { OnlyGrows (M.refused maker.old) (M.refused maker.new) }
{
    match read_asked(alloc, words) {
        Ok(Asked::Plain(request)) => {
            (
                run_plain(rt, alloc, &request, files, out, maker, gate),
                disk,
            )
        }
        Ok(Asked::WithLog(request)) => {
            run_logged(rt, alloc, &request, files, out, maker, gate, disk)
        }
        Err(WordsFault::Usage) => (refuse_words(alloc, out), disk),
        Err(WordsFault::Memory) => (Status::Memory, disk),
    }
}
