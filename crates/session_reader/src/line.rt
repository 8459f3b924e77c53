//! The kinds of lines of a session file.
ghost use Rattle.std.specs.Prelude.{◌≡◌, IfOk};
ghost use Rattle.session_reader.specs.FindLine.{find_of};
ghost use Rattle.session_reader.specs.SessionFile;
ghost use Rattle.session_reader.specs.LineCheck.{is_shapes_line};
ghost use Rattle.session_reader.specs.LineEnds.{without_cr};
ghost use Rattle.session_reader.specs.SessionFile.{is_skipped};

use crate::find_line::find_pattern;
use rdf_model::Pattern;
use std::alloc::{AllocError, Global};

/// The language of a session file.
#[derive(Clone, Copy, Debug, PartialEq, Eq)]
pub enum Language {
    /// That of a file without a header.
    One,
    /// That of a file with the header `%session 2`: it has `attach ntriples` and `select` too.
    Two,
}

/// The language of a block.
#[derive(Clone, Copy, Debug, PartialEq, Eq)]
pub enum Syntax {
    NTriples,
    Turtle,
}

/// What the block of a command is.
#[derive(Clone, Copy, Debug, PartialEq, Eq)]
pub enum BlockKind {
    /// The triples of `add ntriples` or `add turtle`.
    Add(Syntax),
    /// The triples of `remove ntriples`.
    Remove,
    /// The triples of `attach ntriples`.
    Attach,
    /// The shapes graph of `shapes ntriples` or `shapes turtle`.
    Shapes(Syntax),
}

/// What a line between commands is.
#[derive(Debug, Drop)]
pub enum LineKind {
    /// Nothing, or a comment.
    Skipped,
    BeginCommand,
    CommitCommand,
    ReportCommand,
    AbortCommand,
    /// A find of these triples.
    FindCommand(Pattern),
    /// A command that a block of triples follows.
    Block(BlockKind),
    /// A select, which a block of patterns follows.
    SelectBlock,
    /// No command.
    Other,
}

/// A line without the CR at its end.
pub fn trimmed(line: &[u8]) -> &[u8]
    ensures { result.now ≡ without_cr line.entry.now }
{
    if !line.is_empty() && line[line.len() - 1] == b'\r' {
        &line[..line.len() - 1]
    } else {
        line
    }
}

fn is_empty_or_comment(line: &[u8]) -> bool
    ensures { result ≡ is_skipped line.now }
{
    line.is_empty() || line[0] == b'#'
}

impl Language {
    /// The language of a file by its first line, without the CR before its LF.
    pub fn of_first_line(line: &[u8]) -> Language
        ensures { result ≡ SessionFile.language_by line.now }
    {
        if line == b"%session 2".as_slice() {
            Language::Two
        } else {
            Language::One
        }
    }

    /// How many lines a file of this language has before those of its commands.
    pub fn header_lines(self) -> usize
        ensures { result ≡ SessionFile.header_lines self }
    {
        match self {
            Language::One => 0,
            Language::Two => 1,
        }
    }
}

impl LineKind {
    /// Whether it is the command of a shapes graph.
    pub fn is_shapes(&self) -> bool
        ensures { result ≡ is_shapes_line self.now }
    {
        match self {
            LineKind::Block(BlockKind::Shapes(_)) => true,
            _ => false,
        }
    }
}

// The kind of block that follows a line in each language, if one does.
fn common_block_kind(line: &[u8]) -> Option<BlockKind>
    ensures { result ≡ SessionFile.common_block_kind line.now }
{
    if line == b"add ntriples".as_slice() {
        Some(BlockKind::Add(Syntax::NTriples))
    } else if line == b"add turtle".as_slice() {
        Some(BlockKind::Add(Syntax::Turtle))
    } else if line == b"remove ntriples".as_slice() {
        Some(BlockKind::Remove)
    } else if line == b"shapes ntriples".as_slice() {
        Some(BlockKind::Shapes(Syntax::NTriples))
    } else if line == b"shapes turtle".as_slice() {
        Some(BlockKind::Shapes(Syntax::Turtle))
    } else {
        None
    }
}

// The kind of block that follows a line, if one does.
fn block_kind(language: Language, line: &[u8]) -> Option<BlockKind>
    ensures { result ≡ SessionFile.block_kind language line.now }
{
    match language {
        Language::One => common_block_kind(line),
        Language::Two => {
            if line == b"attach ntriples".as_slice() {
                Some(BlockKind::Attach)
            } else {
                common_block_kind(line)
            }
        }
    }
}

// Whether a line is a select, in language 2 alone.
fn is_select(language: Language, line: &[u8]) -> bool
    ensures { result ≡ SessionFile.is_select language line.now }
{
    match language {
        Language::One => false,
        Language::Two => line == b"select".as_slice(),
    }
}

// A line that no block follows, and that is no single word: a find, or no command.
fn find_or_other(alloc: Global, line: &[u8]) -> Result<LineKind, AllocError>
    ensures { IfOk result (λ kind. kind ≡ SessionFile.find_or_other (find_of line.now)) }
{
    match find_pattern(alloc, line)? {
        Some(pattern) => Ok(LineKind::FindCommand(pattern)),
        None => Ok(LineKind::Other),
    }
}

// A line with more than one word.
fn kind_of_words(alloc: Global, language: Language, line: &[u8]) -> Result<LineKind, AllocError>
    ensures { IfOk result (λ kind. kind ≡ SessionFile.kind_of_words (SessionFile.block_kind language line.now) (find_of line.now)) }
{
    match block_kind(language, line) {
        Some(kind) => Ok(LineKind::Block(kind)),
        None => find_or_other(alloc, line),
    }
}

/// What a line between commands is in a language, without its end.
pub fn kind_of(alloc: Global, language: Language, line: &[u8]) -> Result<LineKind, AllocError>
    ensures { IfOk result (λ kind. kind ≡ SessionFile.kind_of language line.now) }
{
    if is_empty_or_comment(line) {
        Ok(LineKind::Skipped)
    } else if line == b"begin".as_slice() {
        Ok(LineKind::BeginCommand)
    } else if line == b"commit".as_slice() {
        Ok(LineKind::CommitCommand)
    } else if line == b"report".as_slice() {
        Ok(LineKind::ReportCommand)
    } else if line == b"abort".as_slice() {
        Ok(LineKind::AbortCommand)
    } else if is_select(language, line) {
        Ok(LineKind::SelectBlock)
    } else {
        kind_of_words(alloc, language, line)
    }
}

/// Whether a line ends its block.
pub fn is_block_end(line: &[u8]) -> bool
    ensures { result ≡ SessionFile.is_block_end line.now }
{
    trimmed(line) == b"%%".as_slice()
}
