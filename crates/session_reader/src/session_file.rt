//! The commands of a session file's bytes.
ghost use Rattle.std.specs.Prelude.{◌≡◌, ℕ, ◌+◌, ◌<◌, ◌≤◌, ◌^◌, [], List, Result, Ok, drop, IfOk, MatchResult, OnErr, length};
ghost use Rattle.rdf_lexical.specs.Refusals.{Refuses};
ghost use Rattle.rdf_model.specs.Graphs.{with_each};
ghost use Rattle.record_text.specs.Records.{IsReadableGraph};
ghost use Rattle.session_reader.specs.declared.line.LineKind.TheVariants as kinds;
ghost use Rattle.session_reader.specs.declared.read_command.ReadCommand.{ReadCommand as CommandData};
ghost use Rattle.session_reader.specs.SessionFile;
ghost use Rattle.session_reader.specs.SessionFile.{IsSession, session_of, block_command, block_reading, new_reading, block_text, next_after, block_after, header_lines, lines_of_block, with_command, with_item};
ghost use Rattle.session_reader.specs.Progress.{with_commands};
ghost use Rattle.session_reader.specs.Asked.{AsksInVain, AsksOfSession};
ghost use Rattle.session_reader.specs.Checking.{OnlyGrows};
ghost use Rattle.session_reader.specs.Faults.{Fails, MakesNone};

use crate::checking::check_commands;
use crate::line::{BlockKind, Language, LineKind, Syntax, kind_of, trimmed};
use crate::line_cursor::LineCursor;
use crate::prepare_fault::PrepareFault;
use crate::read_command::{ReadCommand, ShapesTriples};
use crate::select_block::read_select;
use collections::Sequence;
use ntriples_text::{ReadFault, RefusalKind, TripleTable};
use outside::Maker;
use session_model::{Block, Command};
use std::alloc::{AllocError, Global};

// The command of a block of this kind with the triples of a table.
fn accepted_block(
    alloc: Global,
    kind: BlockKind,
    table: TripleTable,
) -> Result<ReadCommand, AllocError>
    requires { IsReadableGraph (with_each [] table) }
    ensures { (next : ℕ) → IfOk result (λ command. command ≡ block_command kind (Ok (with_each [] table, next))) }
{
    match kind {
        BlockKind::Add(_) => Ok(ReadCommand::Add(Block::from_table(alloc, table)?)),
        BlockKind::Remove => Ok(ReadCommand::Remove(Block::from_table(alloc, table)?)),
        BlockKind::Attach => Ok(ReadCommand::Attach(Block::from_table(alloc, table)?)),
        BlockKind::Shapes(_) => Ok(ReadCommand::Shapes(ShapesTriples::from_table(table)?)),
    }
}

// The command of a block of this kind that can't be read.
fn refused_block(kind: BlockKind, line: u64, refusal: RefusalKind) -> ReadCommand
    ensures { result ≡ block_command kind (Err (line, refusal)) }
{
    let number = refusal.number();
    match kind {
        BlockKind::Add(_) => ReadCommand::BadAdd { line, kind: number },
        BlockKind::Remove => ReadCommand::BadRemove { line, kind: number },
        BlockKind::Attach => ReadCommand::BadAttach { line, kind: number },
        BlockKind::Shapes(_) => ReadCommand::BadShapes { line, kind: number },
    }
}

// The triples of a text in this language in their order there, whose blank nodes are new.
fn read_new(
    alloc: Global,
    session: u32,
    next: &mut u32,
    syntax: Syntax,
    text: &[u8],
) -> Result<TripleTable, ReadFault>
    requires session { (1 ≤ session) × (session ≤ 64) }
    requires next { 1 ≤ next.old }
    requires room { next.old + length text.now < 2 ^ 32 }
    ensures reads { let reading = new_reading syntax text.now session next.old in
        MatchResult result (λ table. reading ≡ Ok (with_each [] table, next.new)) (λ fault. Refuses fault reading) }
    ensures unchanged { OnErr result (next.new ≡ next.old) }
    ensures room { (next.old ≤ next.new) × (next.new ≤ next.old + length text.now) }
{
    match syntax {
        Syntax::NTriples => ntriples_text::read_numbered(alloc, session, next, text),
        Syntax::Turtle => turtle_reader::read_numbered(alloc, session, next, text),
    }
}

// The triples of a block of this kind in the order of its text. The blank nodes of a removal and of an attachment are those of
// the store; those of the others are new.
fn read_kind(
    alloc: Global,
    session: u32,
    next: &mut u32,
    kind: BlockKind,
    text: &[u8],
) -> Result<TripleTable, ReadFault>
    requires session { (1 ≤ session) × (session ≤ 64) }
    requires next { 1 ≤ next.old }
    requires room { next.old + length text.now < 2 ^ 32 }
    ensures reads { let reading = block_reading kind text.now session next.old in
        MatchResult result (λ table. reading ≡ Ok (with_each [] table, next.new)) (λ fault. Refuses fault reading) }
    ensures unchanged { OnErr result (next.new ≡ next.old) }
    ensures room { (next.old ≤ next.new) × (next.new ≤ next.old + length text.now) }
{
    match kind {
        BlockKind::Remove | BlockKind::Attach => ntriples_text::read_named_numbered(alloc, text),
        BlockKind::Add(syntax) | BlockKind::Shapes(syntax) => {
            read_new(alloc, session, next, syntax, text)
        }
    }
}

// The command of a block of this kind with this text.
fn read_block(
    alloc: Global,
    session: u32,
    next: &mut u32,
    kind: BlockKind,
    text: &[u8],
) -> Result<ReadCommand, AllocError>
    requires session { (1 ≤ session) × (session ≤ 64) }
    requires next { 1 ≤ next.old }
    requires room { next.old + length text.now < 2 ^ 32 }
    ensures command { let reading = block_reading kind text.now session next.old in
        IfOk result (λ command. (command ≡ block_command kind reading) × (next.new ≡ next_after next.old reading)) }
    ensures within { (next.old ≤ next.new) × (next.new ≤ next.old + length text.now) }
{
    match read_kind(alloc, session, next, kind, text) {
        Ok(table) => accepted_block(alloc, kind, table),
        Err(
            ReadFault::Refusal {
                line,
                kind: refusal,
            },
        ) => Ok(refused_block(kind, line, refusal)),
        Err(ReadFault::Memory) => Err(AllocError),
    }
}

/// A line between commands without its end, which it has where lines follow.
pub fn command_text<'a>(line: &'a [u8], after: &LineCursor<'_>) -> &'a [u8]
    ensures { result.now ≡ SessionFile.command_text line.now after.now }
{
    if after.is_empty() {
        line
    } else {
        trimmed(line)
    }
}

/// The language of a file with these lines, of which its header is then behind the cursor.
pub fn take_header(lines: &mut LineCursor<'_>) -> Language
    ensures language { result ≡ SessionFile.language_of lines.old }
    ensures lines { lines.new ≡ drop (header_lines result) lines.old }
{
    let mut after = lines.whole();
    let Some(first) = after.take_line() else {
        return Language::One;
    };
    let language = Language::of_first_line(command_text(first, &after));
    match language {
        Language::One => {}
        Language::Two => *lines = after,
    }
    language
}

// Reads the block of the command in line `number`, and gives how many lines it has with the one that ends it.
fn read_block_item(
    alloc: Global,
    session: u32,
    next: &mut u32,
    number: u64,
    block: BlockKind,
    after: &mut LineCursor<'_>,
    commands: &mut Sequence<ReadCommand>,
) -> Result<usize, PrepareFault>
    requires session { (1 ≤ session) × (session ≤ 64) }
    requires next { 1 ≤ next.old }
    requires room { next.old + length (block_text after.old) < 2 ^ 32 }
    ensures item { (more : ℕ → Result (List CommandData) ℕ) → let lines = block_after (kinds.Block block) after.old in
        let before = with_commands commands.old (with_item session next.old number (kinds.Block block) lines more) in
        MatchResult result (λ taken. (taken ≡ lines_of_block lines) × (before ≡ with_commands commands.new (more next.new))) (λ fault. Fails fault before) }
    ensures next { IfOk result (λ taken. (next.old ≤ next.new) × (next.new + length (block_text after.new) ≤ next.old + length (block_text after.old))) }
    ensures rest { IfOk result (λ taken. (after.new ≡ drop taken after.old) × (taken ≤ length after.old)) }
{
    let Some((text, count)) = after.take_block() else {
        return Err(PrepareFault::Line(number));
    };
    let command = read_block(alloc, session, next, block, text)?;
    commands.push(command)?;
    Ok(count + 1)
}

// Reads the block of the select in line `number`, and gives how many lines it has with the one that ends it.
fn read_select_item(
    alloc: Global,
    number: u64,
    after: &mut LineCursor<'_>,
    commands: &mut Sequence<ReadCommand>,
) -> Result<usize, PrepareFault>
    requires room { length (block_text after.old) < 2 ^ 32 }
    ensures item { (session next : ℕ) (more : ℕ → Result (List CommandData) ℕ) → let lines = block_after kinds.SelectBlock after.old in
        let before = with_commands commands.old (with_item session next number kinds.SelectBlock lines more) in
        MatchResult result (λ taken. (taken ≡ lines_of_block lines) × (before ≡ with_commands commands.new (more next))) (λ fault. Fails fault before) }
    ensures rest { IfOk result (λ taken. (after.new ≡ drop taken after.old) × (taken ≤ length after.old)) }
{
    let Some(lines) = after.take_block_lines(alloc)? else {
        return Err(PrepareFault::Line(number));
    };
    let command = read_select(alloc, &lines)?;
    commands.push(command)?;
    Ok(lines.len() + 1)
}

// Adds the command of a line that no block follows.
fn push_command(
    commands: &mut Sequence<ReadCommand>,
    command: ReadCommand,
) -> Result<usize, PrepareFault>
    ensures item { (more : Result (List CommandData) ℕ) → let before = with_commands commands.old (with_command command more) in
        MatchResult result (λ taken. (taken ≡ 0) × (before ≡ with_commands commands.new more)) (λ fault. Fails fault before) }
    ensures none { IfOk result (λ taken. taken ≡ 0) }
{
    commands.push(command)?;
    Ok(0)
}

// Reads the item whose first line, `number`, is of this kind, and gives how many of the lines after it belong to it.
fn read_item(
    alloc: Global,
    session: u32,
    next: &mut u32,
    number: u64,
    kind: LineKind,
    after: &mut LineCursor<'_>,
    commands: &mut Sequence<ReadCommand>,
) -> Result<usize, PrepareFault>
    requires session { (1 ≤ session) × (session ≤ 64) }
    requires next { 1 ≤ next.old }
    requires room { next.old + length (block_text after.old) < 2 ^ 32 }
    ensures item { (more : ℕ → Result (List CommandData) ℕ) → let lines = block_after kind after.old in
        let before = with_commands commands.old (with_item session next.old number kind lines more) in
        MatchResult result (λ taken. (taken ≡ lines_of_block lines) × (before ≡ with_commands commands.new (more next.new))) (λ fault. Fails fault before) }
    ensures next { IfOk result (λ taken. (next.old ≤ next.new) × (next.new + length (block_text after.new) ≤ next.old + length (block_text after.old))) }
    ensures rest { IfOk result (λ taken. (after.new ≡ drop taken after.old) × (taken ≤ length after.old)) }
{
    match kind {
        LineKind::Skipped => Ok(0),
        LineKind::BeginCommand => push_command(commands, ReadCommand::Begin),
        LineKind::CommitCommand => push_command(commands, ReadCommand::Commit),
        LineKind::ReportCommand => push_command(commands, ReadCommand::Report),
        LineKind::AbortCommand => push_command(commands, ReadCommand::Abort),
        LineKind::FindCommand(pattern) => push_command(commands, ReadCommand::Find(pattern)),
        LineKind::Block(block) => {
            read_block_item(alloc, session, next, number, block, after, commands)
        }
        LineKind::SelectBlock => read_select_item(alloc, number, after, commands),
        LineKind::Other => Err(PrepareFault::Line(number)),
    }
}

/// The commands of the file of a session, 1 to 64, as its lines are read, before a shapes graph is judged. Its first blank node
/// has this number, and those of its blocks go on from there.
///
/// The error is the number of the first line that is no command, or of the command of a block that
/// doesn't end, or memory.
pub fn read_session(
    alloc: Global,
    session: u32,
    first: u32,
    bytes: &[u8],
) -> Result<Sequence<ReadCommand>, PrepareFault>
    requires session { (1 ≤ session) × (session ≤ 64) }
    requires first { 1 ≤ first }
    requires room { first + length bytes.now < 2 ^ 32 }
    ensures { MatchResult result (λ commands. session_of session first bytes.now ≡ Ok commands) (λ fault. Fails fault (session_of session first bytes.now)) }
{
    let mut lines = LineCursor::of_file(bytes);
    let language = take_header(&mut lines);
    let mut commands = Sequence::new(alloc);
    let mut next = first;
    let mut number = language.header_lines() as u64 + 1;
    while let Some(line) = lines.take_line() {
        let kind = kind_of(alloc, language, command_text(line, &lines))?;
        let taken = read_item(
            alloc,
            session,
            &mut next,
            number,
            kind,
            &mut lines,
            &mut commands,
        )?;
        number += 1 + taken as u64;
    }
    Ok(commands)
}

/// The commands of the file of a session, 1 to 64. A file whose first line is `%session 2` is of language 2, which has
/// `attach ntriples` and `select`; any other is of language 1, which hasn't. A block that can't be read in its language,
/// N-Triples 1.1 or Turtle 1.1, gives a command that tells its refusal, and so does a shapes graph that isn't well-formed (SHACL section
/// 3.4.2), by the broken rule that is reported, or that has a pattern which the maker refuses (SHACL section 4.4.3); and so does
/// a select with a line that is no pattern, by that line. The numbers of blank nodes begin at `first`, and go on from block to
/// block.
///
/// The error is the number of the first line that is no command, or of the command of a block that
/// doesn't end, or memory. No pattern is made before the whole file is read; then those of one block after another are asked
/// of the maker, shape by shape in the order of nodes, up to the first of a block that it refuses.
pub fn prepare<M: Maker>(
    alloc: Global,
    maker: &mut M,
    session: u32,
    first: u32,
    bytes: &[u8],
) -> Result<Sequence<Command>, PrepareFault>
    requires session { (1 ≤ session) × (session ≤ 64) }
    requires first { 1 ≤ first }
    requires room { first + length bytes.now < 2 ^ 32 }
    ensures answer { MatchResult result (λ commands. IsSession session first bytes.now commands (M.refused maker.old) (M.refused maker.new))
        (λ fault. Fails fault (session_of session first bytes.now) × MakesNone fault (M.refused maker.old) (M.refused maker.new)) }
    ensures refused { OnlyGrows (M.refused maker.old) (M.refused maker.new) }
    ensures asked { MatchResult result (λ commands. AsksOfSession session first bytes.now commands (M.asked maker.old) (M.asked maker.new))
        (λ fault. AsksInVain session first bytes.now fault (M.refused maker.old) (M.refused maker.new) (M.asked maker.old) (M.asked maker.new)) }
{
    let read = read_session(alloc, session, first, bytes)?;
    let commands = check_commands(alloc, maker, read)?;
    Ok(commands)
}
