//! What the lines of a session file tell, with none of its blocks read.
ghost use Rattle.std.specs.Prelude.{◌≡◌, ◌^◌, ◌<◌, ◌≤◌, false, true, drop, IfOk, MatchResult, length};
ghost use Rattle.session_reader.specs.declared.prepare_fault.PrepareFault.TheVariants as faults;
ghost use Rattle.session_reader.specs.LineCheck.{HasCommands, HasNoCommands, is_bad, is_open};
ghost use Rattle.session_reader.specs.SessionFile.{block_after, block_lines, lines_of_block};

use crate::line::{LineKind, kind_of};
use crate::line_cursor::LineCursor;
use crate::prepare_fault::PrepareFault;
use crate::session_file::{command_text, take_header};
use std::alloc::Global;

// Goes over the block of the command in line `number`, and gives how many lines it has with the one that ends it.
fn skip_block(number: u64, after: &mut LineCursor<'_>) -> Result<usize, PrepareFault>
    requires { length after.old < 2 ^ 64 }
    ensures block { let lines = block_lines after.old in
        MatchResult result (λ taken. (taken ≡ lines_of_block lines) × (is_open lines ≡ false)) (λ fault. (fault ≡ faults.Line number) × (is_open lines ≡ true)) }
    ensures rest { IfOk result (λ taken. (after.new ≡ drop taken after.old) × (taken ≤ length after.old)) }
{
    let Some((_, count)) = after.take_block() else {
        return Err(PrepareFault::Line(number));
    };
    Ok(count + 1)
}

// Goes over the lines of the item whose first line, `number`, is of this kind, and gives how many of the lines after it belong
// to it.
fn skip_item(number: u64, kind: LineKind, after: &mut LineCursor<'_>) -> Result<usize, PrepareFault>
    requires { length after.old < 2 ^ 64 }
    ensures item { let lines = block_after kind after.old in
        MatchResult result (λ taken. (taken ≡ lines_of_block lines) × (is_bad kind lines ≡ false)) (λ fault. (fault ≡ faults.Line number) × (is_bad kind lines ≡ true)) }
    ensures rest { IfOk result (λ taken. (after.new ≡ drop taken after.old) × (taken ≤ length after.old)) }
{
    match kind {
        LineKind::Block(_) | LineKind::SelectBlock => skip_block(number, after),
        LineKind::Other => Err(PrepareFault::Line(number)),
        _ => Ok(0),
    }
}

/// Whether a session file has the command of a shapes graph, where its lines are commands; or the number of the first line that
/// is none, or of the command of a block that doesn't end. No block is read: it may be one that can't be.
pub fn check_lines(alloc: Global, bytes: &[u8]) -> Result<bool, PrepareFault>
    requires { length bytes.now < 2 ^ 32 }
    ensures { MatchResult result (λ shapes. HasCommands shapes bytes.now) (λ fault. HasNoCommands fault bytes.now) }
{
    let mut lines = LineCursor::of_file(bytes);
    let language = take_header(&mut lines);
    let mut number = language.header_lines() as u64 + 1;
    let mut shapes = false;
    while let Some(line) = lines.take_line() {
        let kind = kind_of(alloc, language, command_text(line, &lines))?;
        shapes |= kind.is_shapes();
        let taken = skip_item(number, kind, &mut lines)?;
        number += 1 + taken as u64;
    }
    Ok(shapes)
}
