//! What the words ask for.
ghost use Rattle.std.specs.Prelude.{◌≡◌, ◌≢◌, [], IfErr, IfOk, MatchResult, Some, map, option_map};
ghost use Rattle.clap.specs.Words.{all_of, fault_of, first_of, found_of, kind_of, rows_of, subcommand_of, subcommand_rows_of};
ghost use Rattle.command_line.specs.CommandLine;
ghost use Rattle.command_line.specs.Faults.{Lacks, Refuses};
ghost use Rattle.command_line.specs.Words;

use crate::commands::command_line;
use crate::number::{limit, size, version};
use clap::error::ErrorKind;
use clap::{ArgMatches, Error};
use collections::Sequence;
use rdf_text::Text;
use std::alloc::{AllocError, Global};

// An option that isn't given.
const DEFAULT: u32 = 1_000_000;

/// Which results keep a commit from being accepted, by the severity of their shape (SHACL section 2.1.4).
#[derive(Clone, Copy, Debug, PartialEq, Eq)]
pub enum Block {
    /// Every result.
    All,
    /// Every result but those of `sh:Warning` and of `sh:Info`.
    Violation,
}

/// How many terms a store may name, how many triples its data graph may have, and which results it may not.
#[derive(Clone, Copy, Debug, PartialEq, Eq)]
pub struct LimitOptions {
    pub terms: u32,
    pub triples: u32,
    pub block: Block,
}

/// What the words ask for. The names of files are as the words have them.
#[derive(Debug, Drop)]
pub enum Call {
    /// Runs session files, with the store of the log of this name if one is named.
    Run {
        limits: LimitOptions,
        log: Option<Text>,
        files: Sequence<Text>,
    },
    /// Runs session files in the order of a history.
    Replay {
        limits: LimitOptions,
        history: Text,
        files: Sequence<Text>,
    },
    /// Makes a log of this name.
    CreateLog {
        name: Text,
    },
    /// Feeds a follower records of a log, and prints its answers and a version.
    Follow {
        log: Text,
        order: Text,
        version: u32,
    },
    /// Validates a data graph by a shapes graph.
    Validate {
        data: Text,
        shapes: Text,
    },
    /// Explains the validation of a data graph by a shapes graph.
    Explain {
        data: Text,
        shapes: Text,
    },
    /// Verifies evidence of the results of a data graph by a shapes graph.
    Verify {
        data: Text,
        shapes: Text,
        evidence: Text,
    },
    /// Runs a generated load of the numbers from 1 on.
    Generate {
        numbers: u32,
    },
}

/// Why words are no call.
#[derive(Clone, Copy, Debug, PartialEq, Eq)]
pub enum WordsFault {
    /// They aren't those of a command.
    Usage,
    /// Memory ran out.
    Memory,
}

impl From<AllocError> for WordsFault {
    ghost use Rattle.command_line.specs.declared.call.WordsFault.TheVariants.{Memory};

    ghost from_gives = { λ _ fault. fault ≡ Memory };

    fn from(_: AllocError) -> WordsFault {
        WordsFault::Memory
    }
}

// The number of an option.
fn limit_or_default(text: Option<&str>) -> Option<u32>
    ensures { result ≡ Words.limit_or_default (option_map (λ t. t.now) text.entry) }
{
    match text {
        Some(text) => limit(text),
        None => Some(DEFAULT),
    }
}

// The results that a word names.
fn named_block(text: &str) -> Option<Block>
    ensures { result ≡ Words.named_block text.now }
{
    if text == "all" {
        Some(Block::All)
    } else if text == "violation" {
        Some(Block::Violation)
    } else {
        None
    }
}

// The results that an option names.
fn block_or_default(text: Option<&str>) -> Option<Block>
    ensures { result ≡ Words.block_or_default (option_map (λ t. t.now) text.entry) }
{
    match text {
        Some(text) => named_block(text),
        None => Some(Block::All),
    }
}

// The first value of an argument, as its rows have it.
fn text_at<'a>(found: &ArgMatches<'a>, id: &str) -> Option<&'a str>
    ensures { option_map (λ t. t.now) result ≡ first_of id.now (rows_of (found_of found.now)) }
{
    found.get_str(id)
}

// All values of an argument, as its rows have them.
fn texts_at<'b, 'a>(found: &'b ArgMatches<'a>, id: &str) -> Option<&'b [&'a str]>
    ensures { option_map (λ ts. map (λ t. t.now) ts.now) result ≡ all_of id.now (rows_of (found_of found.now)) }
{
    found.get_strs(id)
}

fn limits_in(found: &ArgMatches<'_>) -> Option<LimitOptions>
    ensures { result ≡ Words.limits_in (rows_of (found_of found.now)) }
{
    let terms = limit_or_default(text_at(found, "max-terms"));
    let triples = limit_or_default(text_at(found, "max-triples"));
    let block = block_or_default(text_at(found, "block"));
    match (terms, triples, block) {
        (Some(terms), Some(triples), Some(block)) => Some(LimitOptions {
            terms,
            triples,
            block,
        }),
        _ => None,
    }
}

// The words as texts of their own.
fn texts_of(alloc: Global, words: &[&str]) -> Result<Sequence<Text>, AllocError>
    ensures { IfOk result (λ texts. texts ≡ map (λ w. w.now) words.now) }
{
    let mut texts = Sequence::new(alloc);
    for word in words {
        texts.push(Text::new(alloc, word)?)?;
    }
    Ok(texts)
}

// The value of an option as a text of its own, if it is given.
fn option_at(alloc: Global, found: &ArgMatches<'_>, id: &str) -> Result<Option<Text>, AllocError>
    ensures { IfOk result (λ text. text ≡ first_of id.now (rows_of (found_of found.now))) }
{
    match text_at(found, id) {
        Some(text) => Ok(Some(Text::new(alloc, text)?)),
        None => Ok(None),
    }
}

fn run_in(alloc: Global, found: &ArgMatches<'_>) -> Result<Call, WordsFault>
    ensures { let rows = rows_of (found_of found.now) in
        let call = Words.run_of (Words.limits_in rows) (Words.log_in rows) (Words.files_in rows) in
        MatchResult result (λ c. call ≡ Some c) (λ fault. Refuses fault call) }
{
    let Some(limits) = limits_in(found) else {
        return Err(WordsFault::Usage);
    };
    let Some(files) = texts_at(found, "files") else {
        return Err(WordsFault::Usage);
    };
    let files = texts_of(alloc, files)?;
    let log = option_at(alloc, found, "log")?;
    Ok(Call::Run { limits, log, files })
}

fn replay_in(alloc: Global, found: &ArgMatches<'_>) -> Result<Call, WordsFault>
    ensures { let rows = rows_of (found_of found.now) in
        let call = Words.replay_of (Words.limits_in rows) (Words.history_in rows) (Words.files_in rows) in
        MatchResult result (λ c. call ≡ Some c) (λ fault. Refuses fault call) }
{
    let Some(limits) = limits_in(found) else {
        return Err(WordsFault::Usage);
    };
    let Some(history) = text_at(found, "history") else {
        return Err(WordsFault::Usage);
    };
    let Some(files) = texts_at(found, "files") else {
        return Err(WordsFault::Usage);
    };
    let files = texts_of(alloc, files)?;
    let history = Text::new(alloc, history)?;
    Ok(Call::Replay {
        limits,
        history,
        files,
    })
}

fn create_log_in(alloc: Global, found: &ArgMatches<'_>) -> Result<Call, WordsFault>
    ensures { let call = Words.create_log_of (Words.name_in (rows_of (found_of found.now))) in
        MatchResult result (λ c. call ≡ Some c) (λ fault. Refuses fault call) }
{
    let Some(name) = text_at(found, "name") else {
        return Err(WordsFault::Usage);
    };
    let name = Text::new(alloc, name)?;
    Ok(Call::CreateLog { name })
}

fn follow_in(alloc: Global, found: &ArgMatches<'_>) -> Result<Call, WordsFault>
    ensures { let rows = rows_of (found_of found.now) in
        let call = Words.follow_of (Words.log_in rows) (Words.order_in rows) (Words.version_in rows) in
        MatchResult result (λ c. call ≡ Some c) (λ fault. Refuses fault call) }
{
    let Some(log) = text_at(found, "log") else {
        return Err(WordsFault::Usage);
    };
    let Some(order) = text_at(found, "order") else {
        return Err(WordsFault::Usage);
    };
    let Some(text) = text_at(found, "number") else {
        return Err(WordsFault::Usage);
    };
    let Some(version) = version(text) else {
        return Err(WordsFault::Usage);
    };
    let log = Text::new(alloc, log)?;
    let order = Text::new(alloc, order)?;
    Ok(Call::Follow {
        log,
        order,
        version,
    })
}

// The names of a data graph and a shapes graph.
fn graphs_in(alloc: Global, found: &ArgMatches<'_>) -> Result<(Text, Text), WordsFault>
    ensures { let rows = rows_of (found_of found.now) in
        let names = Words.names_of (Words.data_in rows) (Words.shapes_in rows) in
        MatchResult result (λ both. names ≡ Some both) (λ fault. Lacks fault names) }
{
    let Some(graph) = text_at(found, "data") else {
        return Err(WordsFault::Usage);
    };
    let Some(shapes) = text_at(found, "shapes") else {
        return Err(WordsFault::Usage);
    };
    let graph = Text::new(alloc, graph)?;
    let shapes = Text::new(alloc, shapes)?;
    Ok((graph, shapes))
}

fn validate_in(alloc: Global, found: &ArgMatches<'_>) -> Result<Call, WordsFault>
    ensures { let rows = rows_of (found_of found.now) in
        let call = Words.validate_of (Words.names_of (Words.data_in rows) (Words.shapes_in rows)) in
        MatchResult result (λ c. call ≡ Some c) (λ fault. Refuses fault call) }
{
    match graphs_in(alloc, found) {
        Ok((graph, shapes)) => Ok(Call::Validate {
            data: graph,
            shapes,
        }),
        Err(fault) => Err(fault),
    }
}

fn explain_in(alloc: Global, found: &ArgMatches<'_>) -> Result<Call, WordsFault>
    ensures { let rows = rows_of (found_of found.now) in
        let call = Words.explain_of (Words.names_of (Words.data_in rows) (Words.shapes_in rows)) in
        MatchResult result (λ c. call ≡ Some c) (λ fault. Refuses fault call) }
{
    match graphs_in(alloc, found) {
        Ok((graph, shapes)) => Ok(Call::Explain {
            data: graph,
            shapes,
        }),
        Err(fault) => Err(fault),
    }
}

fn verify_in(alloc: Global, found: &ArgMatches<'_>) -> Result<Call, WordsFault>
    ensures { let rows = rows_of (found_of found.now) in
        let call = Words.verify_of (Words.names_of (Words.data_in rows) (Words.shapes_in rows)) (Words.evidence_in rows) in
        MatchResult result (λ c. call ≡ Some c) (λ fault. Refuses fault call) }
{
    let Some(evidence) = text_at(found, "evidence") else {
        return Err(WordsFault::Usage);
    };
    let evidence = Text::new(alloc, evidence)?;
    match graphs_in(alloc, found) {
        Ok((graph, shapes)) => Ok(Call::Verify {
            data: graph,
            shapes,
            evidence,
        }),
        Err(fault) => Err(fault),
    }
}

fn generate_in(found: &ArgMatches<'_>) -> Result<Call, WordsFault>
    ensures { let call = Words.generate_of (Words.size_in (rows_of (found_of found.now))) in
        MatchResult result (λ c. call ≡ Some c) (λ fault. Refuses fault call) }
{
    let Some(text) = text_at(found, "numbers") else {
        return Err(WordsFault::Usage);
    };
    let Some(numbers) = size(text) else {
        return Err(WordsFault::Usage);
    };
    Ok(Call::Generate { numbers })
}

fn call_in(alloc: Global, name: &str, found: &ArgMatches<'_>) -> Result<Call, WordsFault>
    ensures { let call = Words.call_in (Some (name.now, rows_of (found_of found.now))) in
        MatchResult result (λ c. call ≡ Some c) (λ fault. Refuses fault call) }
{
    if name == "run" {
        run_in(alloc, found)
    } else if name == "replay" {
        replay_in(alloc, found)
    } else if name == "create-log" {
        create_log_in(alloc, found)
    } else if name == "follow" {
        follow_in(alloc, found)
    } else if name == "validate" {
        validate_in(alloc, found)
    } else if name == "explain" {
        explain_in(alloc, found)
    } else if name == "verify" {
        verify_in(alloc, found)
    } else {
        generate_in(found)
    }
}

// Want of memory is the one error that says nothing of the words.
fn words_fault(error: &Error) -> WordsFault
    ensures { result ≡ WordsFault.Usage → kind_of error.now ≢ ErrorKind.OutOfMemory }
{
    match error.kind() {
        ErrorKind::OutOfMemory => WordsFault::Memory,
        _ => WordsFault::Usage,
    }
}

// What `clap` finds in the words.
fn matches_of<'a>(alloc: Global, words: &'a [&'a str]) -> Result<ArgMatches<'a>, WordsFault>
    ensures taken { IfOk result (λ m. fault_of CommandLine.command_line (map (λ w. w.now) words.now) ≡ []) }
    ensures rows { IfOk result (λ m. subcommand_rows_of m ≡ subcommand_of CommandLine.command_line (map (λ w. w.now) words.now)) }
    ensures usage { IfErr result (λ e. e ≡ WordsFault.Usage → fault_of CommandLine.command_line (map (λ w. w.now) words.now) ≢ []) }
{
    let command = match command_line(alloc) {
        Ok(command) => command,
        Err(_) => return Err(WordsFault::Memory),
    };
    match command.try_get_matches_from(words) {
        Ok(found) => Ok(found),
        Err(error) => Err(words_fault(&error)),
    }
}

/// Reads the words, the first of which is the program's name.
pub fn read_call<'a>(alloc: Global, words: &'a [&'a str]) -> Result<Call, WordsFault>
    ensures { let call = Words.call_of (map (λ w. w.now) words.now) in
        MatchResult result (λ c. call ≡ Some c) (λ fault. Refuses fault call) }
{
    let found = matches_of(alloc, words)?;
    match found.subcommand() {
        Some((name, rows)) => call_in(alloc, name, rows),
        None => Err(WordsFault::Usage),
    }
}
