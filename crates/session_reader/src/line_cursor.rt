//! The lines of a file that are still to be read.

ghost use Rattle.std.specs.Prelude.{◌≡◌, ◌+◌, ◌<◌, ◌≤◌, ◌==◌, [], ◌∷◌, None, Some, IfOk, IfSome, MatchOption, drop, length, map, position, take};
ghost use Rattle.std.specs.Option.{option_copied};
ghost use Rattle.session_reader.specs.Progress.{lines_left};
ghost use Rattle.session_reader.specs.SessionFile.{block_length, block_text, file_lines};

use crate::line::is_block_end;
use std::alloc::{AllocError, Global};
use std::marker::Model;

/// The lines of a file from one of them on, each without its LF. Contracts see the list of them.
#[derive(Debug, Drop)]
pub struct LineCursor<'a> {
    // (what begins with the first of them)
    rest: Option<&'a [u8]>,
}

impl<'a> Model for LineCursor<'a> {
    ghost use Rattle.std.specs.Prelude.{List, ℕ};
    ghost use Rattle.std.specs.Option.{option_copied};
    ghost use Rattle.session_reader.specs.Progress.{lines_left};

    ghost Value = { List (List ℕ) };

    ghost view = { λ c. lines_left (option_copied c.rest) };
}

// Where the first LF of a text is, if there is one.
fn line_feed(bytes: &[u8]) -> Option<usize>
    ensures { result ≡ position (λ c. c == 10) bytes.now }
{
    bytes.iter().position(|byte| *byte == b'\n')
}

// The first line of a text without its LF, and what stands behind that, if it has one.
fn split_line(bytes: &[u8]) -> (&[u8], Option<&[u8]>)
    ensures { file_lines bytes.now ≡ result.0.now ∷ lines_left (option_copied result.1) }
{
    match line_feed(bytes) {
        Some(end) => (&bytes[..end], Some(&bytes[end + 1..])),
        None => (bytes, None),
    }
}

// The lines of a text up to the one that ends a block: how many bytes and how many lines they have, and the lines behind that one.
fn split_block(bytes: &[u8]) -> Option<(usize, usize, LineCursor<'_>)>
    ensures length { MatchOption result (block_length (file_lines bytes.now) ≡ None) (λ block. block_length (file_lines bytes.now) ≡ Some block.1) }
    ensures text { IfSome result (λ block. (block.0 ≤ length bytes.now) × (take block.0 bytes.now ≡ block_text (take block.1 (file_lines bytes.now)))) }
    ensures rest { IfSome result (λ block. (block.2 ≡ drop (block.1 + 1) (file_lines bytes.now)) × (block.1 < length (file_lines bytes.now))) }
{
    let mut rest = LineCursor::of_file(bytes);
    let mut size = 0;
    let mut count = 0;
    while let Some(line) = rest.take_line() {
        if is_block_end(line) {
            return Some((size, count, rest));
        }
        size += line.len() + 1;
        count += 1;
    }
    None
}

impl<'a> LineCursor<'a> {
    /// The lines of a file.
    pub fn of_file(bytes: &'a [u8]) -> LineCursor<'a>
        ensures { result ≡ file_lines bytes.now }
    {
        LineCursor { rest: Some(bytes) }
    }

    /// These lines, once more.
    pub fn whole(&self) -> LineCursor<'a>
        ensures { result ≡ self.now }
    {
        LineCursor { rest: self.rest }
    }

    /// Whether no line is left.
    pub fn is_empty(&self) -> bool
        ensures { result ≡ (length self.now == 0) }
    {
        match self.rest {
            Some(_) => false,
            None => true,
        }
    }

    /// The first line, which is then behind the cursor.
    pub fn take_line(&mut self) -> Option<&'a [u8]>
        ensures { MatchOption result ((self.old ≡ []) × (self.new ≡ [])) (λ line. self.old ≡ line.now ∷ self.new) }
    {
        match self.rest {
            Some(bytes) => {
                let (line, behind) = split_line(bytes);
                self.rest = behind;
                Some(line)
            }
            None => None,
        }
    }

    /// The text of the lines up to the first that ends a block, and how many they are; that one is then behind the cursor too.
    pub fn take_block(&mut self) -> Option<(&'a [u8], usize)>
        ensures length { MatchOption result (block_length self.old ≡ None) (λ block. block_length self.old ≡ Some block.1) }
        ensures text { IfSome result (λ block. block.0.now ≡ block_text (take block.1 self.old)) }
        ensures rest { IfSome result (λ block. (self.new ≡ drop (block.1 + 1) self.old) × (block.1 < length self.old)) }
    {
        let bytes = self.rest?;
        let (size, count, behind) = split_block(bytes)?;
        *self = behind;
        Some((&bytes[..size], count))
    }

    /// The lines up to the first that ends a block; that one is then behind the cursor too.
    pub fn take_block_lines(&mut self, alloc: Global) -> Result<Option<Vec<&'a [u8]>>, AllocError>
        ensures length { IfOk result (λ found. MatchOption found (block_length self.old ≡ None) (λ lines. block_length self.old ≡ Some (length lines.items))) }
        ensures lines { IfOk result (λ found. IfSome found (λ lines. map (λ l. l.now) lines.items ≡ take (length lines.items) self.old)) }
        ensures rest { IfOk result (λ found. IfSome found (λ lines. (self.new ≡ drop (length lines.items + 1) self.old) × (length lines.items < length self.old))) }
    {
        let mut lines = Vec::new(alloc);
        while let Some(line) = self.take_line() {
            if is_block_end(line) {
                return Ok(Some(lines));
            }
            lines.push(line)?;
        }
        Ok(None)
    }
}
