//! Session files loaded in order, and prepared.
ghost use Rattle.std.specs.Prelude.{◌≡◌, ◌<◌, ◌≤◌, [], ◌∷◌, ◌++◌, MatchResult, length};
ghost use Rattle.std.specs.List.{AllByRecursion};
ghost use Rattle.session_reader.specs.Checking.{OnlyGrows};
ghost use Rattle.input_files.specs.Lengths.{room};
ghost use Rattle.input_files.specs.Loads.{Loads, LoadsOne, NoneFailed};
ghost use Rattle.session_files.specs.Faults.{Stops, Unloaded, Unread, of_file};
ghost use Rattle.session_files.specs.declared.reading.LoadedFile.{LoadedFile as FileData};
ghost use Rattle.session_files.specs.Loading.{AreSession, HoldSessions, IsFirstNumber, first_of};
ghost use Rattle.session_files.specs.Reading.{HoldFiles, HoldsFile, IsLoaded, of_session};
ghost use Rattle.session_files.specs.Runs.{LoadsAll};

use crate::RunFault;
use crate::reading::{LoadedFile, SessionText, prepare_files};
use collections::Sequence;
use input_files::{FileFault, load_file};
use outside::{Files, Maker};
use rdf_text::Text;
use session_model::Command;
use session_reader::{PrepareFault, check_lines, prepare};
use std::alloc::Global;
use std::thread::Threads;

/// Why a file of this number gave no text.
pub(crate) fn run_fault(fault: FileFault, file: u32) -> RunFault
    ensures { result ≡ of_file fault file }
{
    match fault {
        FileFault::Failed => RunFault::ReadFault,
        FileFault::TooLong => RunFault::TooLong { file },
        FileFault::Memory => RunFault::Memory,
    }
}

// The number of the first blank node of a session.
fn first_number(first_numbers: &[u32], session: u32) -> u32
    requires session { 1 ≤ session }
    requires numbers { AllByRecursion IsFirstNumber first_numbers.now }
    ensures first { result ≡ first_of first_numbers.now session }
    ensures number { IsFirstNumber result }
{
    match first_numbers.get(session as usize - 1) {
        Some(first) => *first,
        None => 1,
    }
}

// Why the bytes of a session's file gave no commands.
fn session_fault(fault: PrepareFault, session: u32) -> RunFault
    ensures { result ≡ of_session fault session }
{
    match fault {
        PrepareFault::Line(line) => RunFault::BadSession { session, line },
        PrepareFault::Memory => RunFault::Memory,
    }
}

// The commands of the bytes of a session's file, whose first blank node has this number.
fn session_in<M: Maker>(
    alloc: Global,
    maker: &mut M,
    session: u32,
    first: u32,
    bytes: &[u8],
) -> Result<Sequence<Command>, RunFault>
    requires session { (1 ≤ session) × (session ≤ 64) }
    requires first { IsFirstNumber first }
    requires room { length bytes.now < room }
    ensures answer { MatchResult result (λ commands. AreSession session first bytes.now commands (M.refused maker.old) (M.refused maker.new))
        (λ fault. Unread fault session first bytes.now (M.refused maker.old) (M.refused maker.new)) }
    ensures refused { OnlyGrows (M.refused maker.old) (M.refused maker.new) }
{
    match prepare(alloc, maker, session, first, bytes) {
        Ok(commands) => Ok(commands),
        Err(fault) => Err(session_fault(fault, session)),
    }
}

// A session's file with these bytes, whose first blank node has this number. Where a shapes graph is among its commands it is
// prepared at once: so the maker is asked for no pattern of a file behind one that is refused.
fn loaded_file<M: Maker>(
    alloc: Global,
    maker: &mut M,
    session: u32,
    first: u32,
    bytes: Vec<u8>,
) -> Result<LoadedFile, RunFault>
    requires session { (1 ≤ session) × (session ≤ 64) }
    requires first { IsFirstNumber first }
    requires room { length bytes.items < room }
    ensures answer { MatchResult result (λ file. IsLoaded file session first bytes.items (M.refused maker.old) (M.refused maker.new))
        (λ fault. Unread fault session first bytes.items (M.refused maker.old) (M.refused maker.new)) }
    ensures refused { OnlyGrows (M.refused maker.old) (M.refused maker.new) }
{
    match check_lines(alloc, &bytes) {
        Ok(true) => {
            let commands = session_in(alloc, maker, session, first, &bytes)?;
            Ok(LoadedFile::Prepared(commands))
        }
        Ok(false) => Ok(LoadedFile::Unread(SessionText {
            session,
            first,
            bytes,
        })),
        Err(fault) => Err(session_fault(fault, session)),
    }
}

// A session's file.
fn load_session<F: Files, M: Maker>(
    alloc: Global,
    files: &mut F,
    maker: &mut M,
    first_numbers: &[u32],
    session: u32,
    name: &str,
) -> Result<LoadedFile, RunFault>
    requires session { (1 ≤ session) × (session ≤ 64) }
    requires numbers { AllByRecursion IsFirstNumber first_numbers.now }
    ensures answer { let before : Loads = record { loaded = F.loaded files.old; failed = F.failed files.old; refused = M.refused maker.old } in
        let after : Loads = record { loaded = F.loaded files.new; failed = F.failed files.new; refused = M.refused maker.new } in
        MatchResult result (λ file. HoldsFile (F.holds files.old) first_numbers.now session name.now file before.refused after.refused × LoadsOne name.now before after × NoneFailed before after)
        (λ fault. Unloaded fault (F.holds files.old) first_numbers.now session name.now before after) }
    ensures holds { F.holds files.new ≡ F.holds files.old }
    ensures refused { OnlyGrows (M.refused maker.old) (M.refused maker.new) }
{
    match load_file(alloc, files, name) {
        Ok(bytes) => {
            let first = first_number(first_numbers, session);
            loaded_file(alloc, maker, session, first, bytes)
        }
        Err(fault) => Err(run_fault(fault, session)),
    }
}

// Adds one more session's file.
fn load_next<F: Files, M: Maker>(
    alloc: Global,
    files: &mut F,
    maker: &mut M,
    first_numbers: &[u32],
    session: u32,
    name: &str,
    all: &mut Sequence<LoadedFile>,
) -> Result<(), RunFault>
    requires session { (1 ≤ session) × (session ≤ 64) }
    requires numbers { AllByRecursion IsFirstNumber first_numbers.now }
    ensures answer { let before : Loads = record { loaded = F.loaded files.old; failed = F.failed files.old; refused = M.refused maker.old } in
        let after : Loads = record { loaded = F.loaded files.new; failed = F.failed files.new; refused = M.refused maker.new } in
        MatchResult result (λ _. (file : FileData) × (all.new ≡ all.old ++ file ∷ []) × HoldsFile (F.holds files.old) first_numbers.now session name.now file before.refused after.refused × LoadsOne name.now before after × NoneFailed before after)
        (λ fault. Unloaded fault (F.holds files.old) first_numbers.now session name.now before after) }
    ensures holds { F.holds files.new ≡ F.holds files.old }
    ensures refused { OnlyGrows (M.refused maker.old) (M.refused maker.new) }
{
    let file = load_session(alloc, files, maker, first_numbers, session, name)?;
    all.push(file)?;
    Ok(())
}

// Each session's file, in order up to the first that gives no session.
fn load_files<F: Files, M: Maker>(
    alloc: Global,
    files: &mut F,
    maker: &mut M,
    first_numbers: &[u32],
    names: &[Text],
) -> Result<Sequence<LoadedFile>, RunFault>
    requires few { length names.now ≤ 64 }
    requires numbers { AllByRecursion IsFirstNumber first_numbers.now }
    ensures answer { let before : Loads = record { loaded = F.loaded files.old; failed = F.failed files.old; refused = M.refused maker.old } in
        let after : Loads = record { loaded = F.loaded files.new; failed = F.failed files.new; refused = M.refused maker.new } in
        MatchResult result (λ all. HoldFiles (F.holds files.old) first_numbers.now 1 names.now all before.refused after.refused × LoadsAll names.now before after)
        (λ fault. Stops fault (F.holds files.old) first_numbers.now names.now before after) }
    ensures refused { OnlyGrows (M.refused maker.old) (M.refused maker.new) }
{
    let mut all = Sequence::new(alloc);
    let mut session = 0;
    for name in names {
        session += 1;
        let name = name.as_str();
        match load_next(alloc, files, maker, first_numbers, session, name, &mut all) {
            Ok(()) => {}
            Err(fault) => return Err(fault),
        }
    }
    Ok(all)
}

/// The commands of each session's file, which are loaded in order up to the first that gives none. The blank nodes of a
/// session begin at its number among these, at 1 where it has none. The blocks of files without a shapes graph are read beside
/// each other.
pub(crate) fn load_all<T: Threads + Sync, F: Files, M: Maker>(
    rt: &T,
    alloc: Global,
    files: &mut F,
    maker: &mut M,
    first_numbers: &[u32],
    names: &[Text],
) -> Result<Sequence<Sequence<Command>>, RunFault>
    requires few { length names.now ≤ 64 }
    requires numbers { AllByRecursion IsFirstNumber first_numbers.now }
    ensures answer { let before : Loads = record { loaded = F.loaded files.old; failed = F.failed files.old; refused = M.refused maker.old } in
        let after : Loads = record { loaded = F.loaded files.new; failed = F.failed files.new; refused = M.refused maker.new } in
        MatchResult result (λ all. HoldSessions (F.holds files.old) first_numbers.now 1 names.now all before.refused after.refused × LoadsAll names.now before after)
        (λ fault. Stops fault (F.holds files.old) first_numbers.now names.now before after) }
    ensures refused { OnlyGrows (M.refused maker.old) (M.refused maker.new) }
{
    let loaded = load_files(alloc, files, maker, first_numbers, names)?;
    let all = prepare_files(rt, alloc, maker, loaded)?;
    Ok(all)
}
