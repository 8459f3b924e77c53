//! The lines of a result.
ghost use Rattle.std.specs.Prelude.{IfOk, IsNone};
ghost use Rattle.rdf_model.specs.NTriples.{term_text};
ghost use Rattle.evidence_blocks.specs.BlockText.{row_text};
ghost use Rattle.evidence_blocks.specs.Readable.{IsReadableOption, IsReadableRow, IsReadableTerm};
ghost use Rattle.evidence_reader.specs.Finding.{Anything, Finds, FollowsRow, HasNot, marked_line};
ghost use Rattle.evidence_reader.specs.RowLines.{AreReadable, FindsOption, FindsTerms, IsReadableHead, component_line, head_text, two_lines};

use crate::components::component_of;
use crate::lines::line_behind;
use crate::terms::term_of;
use rdf_model::Term;
use shape_model::{Component, ResultRow};
use std::alloc::{AllocError, Global};

// The source shape and the focus node of a result, and its component.
type Head = ((Term, Term), Component);

// The term of the first line behind its mark, and what follows the line.
fn term_line<'a>(
    alloc: Global,
    mark: &[u8],
    text: &'a [u8],
) -> Result<Option<(Term, &'a [u8])>, AllocError>
    ensures term { IfOk result (Finds IsReadableTerm (λ t. marked_line mark.now (term_text t)) Anything text.now) }
    ensures none { IfOk result (λ found. HasNot mark.now text.now → IsNone found) }
{
    let Some((line, rest)) = line_behind(mark, text) else {
        return Ok(None);
    };
    match term_of(alloc, line)? {
        Some(term) => Ok(Some((term, rest))),
        None => Ok(None),
    }
}

/// The terms of the first two lines behind their marks, and what follows these.
pub(crate) fn two_terms<'a>(
    alloc: Global,
    mark: &[u8],
    second_mark: &[u8],
    text: &'a [u8],
) -> Result<Option<((Term, Term), &'a [u8])>, AllocError>
    ensures { IfOk result (Finds AreReadable (two_lines mark.now second_mark.now) Anything text.now) }
{
    let Some((term, behind)) = term_line(alloc, mark, text)? else {
        return Ok(None);
    };
    match term_line(alloc, second_mark, behind)? {
        Some((second, rest)) => Ok(Some(((term, second), rest))),
        None => Ok(None),
    }
}

// The term of the first line, if that has the mark, and what follows.
fn optional_line<'a>(
    alloc: Global,
    mark: &[u8],
    text: &'a [u8],
) -> Result<(Option<Term>, &'a [u8]), AllocError>
    ensures { IfOk result (λ r. FindsOption mark.now text.now r.0 r.1.now) }
{
    match term_line(alloc, mark, text)? {
        Some((term, rest)) => Ok((Some(term), rest)),
        None => Ok((None, text)),
    }
}

// The component of the first line, and what follows the line.
fn component_of_line(text: &[u8]) -> Option<(Component, &[u8])>
    ensures { Finds (λ _. Unit {0}) component_line Anything text.now result }
{
    let Some((line, rest)) = line_behind(b"component ", text) else {
        return None;
    };
    match component_of(line) {
        Some(component) => Some((component, rest)),
        None => None,
    }
}

// The lines that each result has: those of the shape, of the focus node and of the component.
fn head_lines<'a>(alloc: Global, text: &'a [u8]) -> Result<Option<(Head, &'a [u8])>, AllocError>
    ensures { IfOk result (Finds IsReadableHead head_text Anything text.now) }
{
    let Some((terms, behind)) = two_terms(alloc, b"source ", b"focus ", text)? else {
        return Ok(None);
    };
    match component_of_line(behind) {
        Some((component, rest)) => Ok(Some(((terms, component), rest))),
        None => Ok(None),
    }
}

// A result of these terms and a component, with those of the lines that may follow.
fn with_optional_lines<'a>(
    alloc: Global,
    head: Head,
    text: &'a [u8],
) -> Result<(ResultRow, &'a [u8]), AllocError>
    requires { IsReadableHead head }
    ensures { IfOk result (λ r. FindsTerms head text.entry.now r.0 r.1.now) }
{
    let (parameter, text) = optional_line(alloc, b"parameter ", text)?;
    let (about, text) = optional_line(alloc, b"about ", text)?;
    let (value, text) = optional_line(alloc, b"value ", text)?;
    let (other, text) = optional_line(alloc, b"other ", text)?;
    let ((source_shape, focus_node), component) = head;
    let row = ResultRow {
        source_shape,
        focus_node,
        component,
        parameter,
        about,
        value,
        other,
    };
    Ok((row, text))
}

/// The result of the first lines, and what follows these.
pub(crate) fn row_lines<'a>(
    alloc: Global,
    text: &'a [u8],
) -> Result<Option<(ResultRow, &'a [u8])>, AllocError>
    ensures { IfOk result (Finds IsReadableRow row_text FollowsRow text.now) }
{
    let Some((head, behind)) = head_lines(alloc, text)? else {
        return Ok(None);
    };
    let (row, rest) = with_optional_lines(alloc, head, behind)?;
    Ok(Some((row, rest)))
}
