//! The block of a select.
ghost use Rattle.std.specs.Prelude.{◌≡◌, ◌≤◌, ◌<◌, ◌^◌, [], IfOk, IfSome, List, MatchResult, Ok, Result, length, map, ℕ};
ghost use Rattle.std.specs.List.{list_all, list_any};
ghost use Rattle.std.specs.Option.{option_copied};
ghost use Rattle.std.specs.Prelude.{bytes_eq};
ghost use Rattle.bgp_query.specs.declared.pattern.JoinPattern.{JoinPattern as PatternData};
ghost use Rattle.session_reader.specs.FindLine.{parts};
ghost use Rattle.session_reader.specs.SelectBlock;
ghost use Rattle.session_reader.specs.SelectBlock.{block_names, command_of, patterns_from, select_of, with_names};
ghost use Rattle.session_reader.specs.SessionFile.{block_text};
ghost use Rattle.session_reader.specs.Faults.{RefusesLine};
ghost use Rattle.session_reader.specs.Progress.{with_patterns};

use crate::find_line::{Role, has_blank_end, parts_of};
use crate::line::trimmed;
use crate::read_command::ReadCommand;
use bgp_query::{JoinPattern, Part};
use collections::{Sequence, let_go};
use rdf_model::Term;
use std::alloc::{AllocError, Global};

/// Why the lines of a block gave no patterns.
#[derive(Clone, Copy, Debug, PartialEq, Eq)]
pub enum SelectLineFault {
    /// The first line, from 1, that is no pattern or one too many.
    Refused(u64),
    Memory,
}

impl From<AllocError> for SelectLineFault {
    ghost use Rattle.session_reader.specs.declared.select_block.SelectLineFault.TheVariants as faults;
    ghost use Rattle.std.specs.Prelude.{◌≡◌};

    ghost from_gives = { λ _ e. e ≡ faults.Memory };

    fn from(_error: AllocError) -> Self {
        SelectLineFault::Memory
    }
}

// A block has no more patterns.
const MOST_PATTERNS: u64 = 8;

fn is_letter_or_digit(byte: u8) -> bool
    ensures { result ≡ SelectBlock.is_letter_or_digit byte }
{
    byte.is_ascii_alphanumeric()
}

fn are_letters_and_digits(text: &[u8]) -> bool
    ensures { result ≡ list_all SelectBlock.is_letter_or_digit text.now }
{
    text.iter().all(|byte| is_letter_or_digit(*byte))
}

// Whether a text is a letter, and then letters and digits.
fn is_name(text: &[u8]) -> bool
    ensures { result ≡ SelectBlock.is_name text.now }
{
    match text {
        [] => false,
        [first, rest @ ..] => first.is_ascii_alphabetic() && are_letters_and_digits(rest),
    }
}

// The name of the variable that a part is, if it is one.
fn name_of(part: &[u8]) -> Option<&[u8]>
    ensures { option_copied result ≡ SelectBlock.name_of part.now }
{
    match part {
        [] => None,
        [first, name @ ..] => {
            if *first == b'?' && is_name(name) {
                Some(name)
            } else {
                None
            }
        }
    }
}

fn has_name(names: &[&[u8]], name: &[u8]) -> bool
    ensures { result ≡ list_any (λ n. bytes_eq n name.now) (map (λ n. n.now) names.now) }
{
    for other in names {
        if *other == name {
            return true;
        }
    }
    false
}

// The names with that of a part, where it is a new variable.
fn with_name<'a>(names: Vec<&'a [u8]>, part: &'a [u8]) -> Result<Vec<&'a [u8]>, AllocError>
    ensures { IfOk result (λ all. map (λ n. n.now) all.items ≡ SelectBlock.with_name (map (λ n. n.now) names.entry.items) (SelectBlock.name_of part.now)) }
{
    let Some(name) = name_of(part) else {
        return Ok(names);
    };
    if has_name(&names, name) {
        return Ok(names);
    }
    let mut names = names;
    names.push(name)?;
    Ok(names)
}

// The names with those of the variables of a line.
fn with_line<'a>(
    alloc: Global,
    names: Vec<&'a [u8]>,
    line: &'a [u8],
) -> Result<Vec<&'a [u8]>, AllocError>
    ensures { IfOk result (λ all. map (λ n. n.now) all.items ≡ with_names (map (λ n. n.now) names.entry.items) (parts line.now)) }
{
    let parts = parts_of(alloc, line)?;
    let mut names = names;
    for part in &parts {
        names = with_name(names, part)?;
    }
    Ok(names)
}

// The names of the variables of a block.
fn names_of<'a>(alloc: Global, lines: &[&'a [u8]]) -> Result<Vec<&'a [u8]>, AllocError>
    ensures { IfOk result (λ names. map (λ n. n.now) names.items ≡ block_names (map (λ l. l.now) lines.now)) }
{
    let mut names = Vec::new(alloc);
    for line in lines {
        names = with_line(alloc, names, trimmed(line))?;
    }
    Ok(names)
}

// The number of the variable with this name.
fn number_of(names: &[&[u8]], name: &[u8]) -> usize
    ensures number { result ≡ SelectBlock.number_of (map (λ n. n.now) names.now) name.now }
    ensures within { result ≤ length names.now }
{
    for (i, other) in names.iter().enumerate() {
        if *other == name {
            return i;
        }
    }
    names.len()
}

// The constant that a part asks for.
fn constant_of(asked: Option<Option<Term>>) -> Option<Part<Term>>
    ensures { result ≡ SelectBlock.constant_of asked }
{
    match asked {
        Some(Some(term)) => Some(Part::Constant(term)),
        Some(None) => None,
        None => None,
    }
}

// What a part is in its role, where the variables of its block have these names.
fn part_of(
    alloc: Global,
    names: &[&[u8]],
    role: Role,
    text: &[u8],
) -> Result<Option<Part<Term>>, AllocError>
    requires { length names.now < 2 ^ 32 }
    ensures { IfOk result (λ part. part ≡ SelectBlock.part_of (map (λ n. n.now) names.now) role text.now) }
{
    if let Some(name) = name_of(text) {
        return Ok(Some(Part::Variable(number_of(names, name) as u32)));
    }
    Ok(constant_of(role.asked(alloc, text)?))
}

fn pattern_from(
    subject: Option<Part<Term>>,
    predicate: Option<Part<Term>>,
    object: Option<Part<Term>>,
) -> Option<JoinPattern<Term>>
    ensures { result ≡ SelectBlock.pattern_from subject predicate object }
{
    match (subject, predicate, object) {
        (Some(subject), Some(predicate), Some(object)) => Some(JoinPattern {
            subject,
            predicate,
            object,
        }),
        _ => None,
    }
}

// The pattern of these parts, if they are three.
fn pattern_by(
    alloc: Global,
    names: &[&[u8]],
    parts: &[&[u8]],
) -> Result<Option<JoinPattern<Term>>, AllocError>
    requires { length names.now < 2 ^ 32 }
    ensures { IfOk result (λ pattern. pattern ≡ SelectBlock.pattern_by (map (λ n. n.now) names.now) (map (λ p. p.now) parts.now)) }
{
    match parts {
        [subject, predicate, object] => {
            let subject = part_of(alloc, names, Role::Subject, subject)?;
            let predicate = part_of(alloc, names, Role::Predicate, predicate)?;
            let object = part_of(alloc, names, Role::Object, object)?;
            Ok(pattern_from(subject, predicate, object))
        }
        _ => Ok(None),
    }
}

// The pattern of a line, if it is one.
fn pattern_of(
    alloc: Global,
    names: &[&[u8]],
    line: &[u8],
) -> Result<Option<JoinPattern<Term>>, AllocError>
    requires { length names.now < 2 ^ 32 }
    ensures { IfOk result (λ pattern. pattern ≡ SelectBlock.pattern_of (map (λ n. n.now) names.now) line.now) }
{
    if has_blank_end(line) {
        return Ok(None);
    }
    let parts = parts_of(alloc, line)?;
    pattern_by(alloc, names, &parts)
}

// Adds the pattern of a line, which has this number in its block.
fn push_pattern(
    alloc: Global,
    names: &[&[u8]],
    number: u64,
    line: &[u8],
    patterns: &mut Sequence<JoinPattern<Term>>,
) -> Result<(), SelectLineFault>
    requires { length names.now < 2 ^ 32 }
    ensures { (more : Result (List (PatternData Term)) ℕ) → let before = with_patterns patterns.old (SelectBlock.with_line (map (λ n. n.now) names.now) number line.now more) in
        MatchResult result (λ _. before ≡ with_patterns patterns.new more) (RefusesLine before) }
{
    if number > MOST_PATTERNS {
        return Err(SelectLineFault::Refused(number));
    }
    let Some(pattern) = pattern_of(alloc, names, trimmed(line))? else {
        return Err(SelectLineFault::Refused(number));
    };
    patterns.push(pattern)?;
    Ok(())
}

// The pattern of each line.
fn patterns_of(
    alloc: Global,
    names: &[&[u8]],
    lines: &[&[u8]],
) -> Result<Sequence<JoinPattern<Term>>, SelectLineFault>
    requires { length names.now < 2 ^ 32 }
    ensures { let reading = patterns_from (map (λ n. n.now) names.now) 1 (map (λ l. l.now) lines.now) in MatchResult result (λ patterns. reading ≡ Ok patterns) (RefusesLine reading) }
{
    let mut patterns = Sequence::new(alloc);
    for (i, line) in lines.iter().enumerate() {
        push_pattern(alloc, names, i as u64 + 1, line, &mut patterns)?;
    }
    Ok(patterns)
}

// The first line that is refused, if one is, whatever the names of the variables are.
fn refused_line(alloc: Global, lines: &[&[u8]]) -> Result<Option<u64>, AllocError>
    ensures { IfOk result (λ refused. IfSome refused (λ line. patterns_from [] 1 (map (λ l. l.now) lines.now) ≡ Err line)) }
{
    let none = Vec::new(alloc);
    match patterns_of(alloc, &none, lines) {
        Ok(patterns) => {
            let_go(patterns);
            Ok(None)
        }
        Err(SelectLineFault::Refused(line)) => Ok(Some(line)),
        Err(SelectLineFault::Memory) => Err(AllocError),
    }
}

// The command of a select with these lines, where the variables have these names.
fn command_with(alloc: Global, names: &[&[u8]], lines: &[&[u8]]) -> Result<ReadCommand, AllocError>
    requires { length names.now < 2 ^ 32 }
    ensures { IfOk result (λ command. command ≡ command_of (patterns_from (map (λ n. n.now) names.now) 1 (map (λ l. l.now) lines.now))) }
{
    match patterns_of(alloc, names, lines) {
        Ok(patterns) => Ok(ReadCommand::Select(patterns)),
        Err(SelectLineFault::Refused(line)) => Ok(ReadCommand::BadSelect { line }),
        Err(SelectLineFault::Memory) => Err(AllocError),
    }
}

/// The command of a select with this block: in each line a pattern, three parts as a find has them, where `?` and a name is a
/// variable, and a bare `?` stands for nothing. The first line that is no pattern, or is the ninth, is refused, and line 1 of an
/// empty block.
pub fn read_select(alloc: Global, lines: &[&[u8]]) -> Result<ReadCommand, AllocError>
    requires { length (block_text (map (λ l. l.now) lines.now)) < 2 ^ 32 }
    ensures { IfOk result (λ command. command ≡ select_of (map (λ l. l.now) lines.now)) }
{
    if lines.is_empty() {
        return Ok(ReadCommand::BadSelect { line: 1 });
    }
    // A block that is refused may have very many names: it is told before they are gathered.
    if let Some(line) = refused_line(alloc, lines)? {
        return Ok(ReadCommand::BadSelect { line });
    }
    let names = names_of(alloc, lines)?;
    command_with(alloc, &names, lines)
}
