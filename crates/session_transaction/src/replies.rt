//! What a session is told of a find, of a select, of a refused block and of a commit.
ghost use Rattle.std.specs.Prelude.{◌≡◌, ◌≤◌, ◌∷◌, ◌++◌, List, IfOk, OnOk, MatchBool, length, string_bytes};
ghost use Rattle.bgp_query.specs.Bindings.{most_bindings};
ghost use Rattle.rdf_model.specs.declared.triple.Triple.{Triple};
ghost use Rattle.report_writer.specs.Report.{report_text};
ghost use Rattle.shape_model.specs.Validation.{Listing};
ghost use Rattle.session_model.specs.Sessions.{binding_text, find_reply, select_reply};
ghost use Rattle.session_transaction.specs.Replies.{IsCommitReply, IsListed, IsRefused, IsRefusedBlock};

use crate::committing::Committed;
use collections::Sequence;
use rdf_model::{Term, Text, Triple};
use report_writer::report;
use session_model::{Command, SessionReply};
use shape_model::ResultRow;
use shapes_graph::ShapesGraph;
use std::alloc::{AllocError, Global};

/// The reply to a find that gave these triples.
pub fn reply_of_find(alloc: Global, triples: &[Triple]) -> Result<SessionReply, AllocError>
    ensures { IfOk result (λ reply. reply ≡ find_reply triples.now) }
{
    let mut lines = String::new(alloc);
    for triple in triples {
        write!(lines, "\n{triple}")?;
    }
    Ok(SessionReply::Found {
        count: triples.len(),
        lines: Text::from_string(lines)?,
    })
}

// Adds the line of a binding, an LF before it.
fn push_binding(lines: &mut String, binding: &[Term]) -> Result<(), AllocError>
    ensures { OnOk result (string_bytes lines.new ≡ string_bytes lines.old ++ 10 ∷ binding_text binding.now) }
{
    lines.push('\n')?;
    for term in binding {
        write!(lines, "{term} ")?;
    }
    lines.push('.')?;
    Ok(())
}

/// The reply to a select that gave these bindings.
pub fn reply_of_select(
    alloc: Global,
    bindings: &[Sequence<Term>],
) -> Result<SessionReply, AllocError>
    requires { length bindings.now ≤ most_bindings }
    ensures { IfOk result (λ reply. reply ≡ select_reply bindings.now) }
{
    let mut lines = String::new(alloc);
    for binding in bindings {
        push_binding(&mut lines, binding.as_slice())?;
    }
    Ok(SessionReply::Selected {
        count: bindings.len(),
        lines: Text::from_string(lines)?,
    })
}

/// Whether a command's block can't be read, isn't well-formed, has a pattern that was refused, or has a line that is no pattern of
/// a select.
pub fn is_refused(command: &Command) -> bool
    ensures { MatchBool result (IsRefusedBlock command.now) (IsRefusedBlock command.now → ⊥) }
{
    match command {
        Command::BadAdd { line: _, kind: _ }
        | Command::BadRemove { line: _, kind: _ }
        | Command::BadAttach { line: _, kind: _ }
        | Command::BadShapes { line: _, kind: _ }
        | Command::BrokenShapes { rule: _, node: _ }
        | Command::RefusedPattern { node: _ }
        | Command::BadSelect { line: _ } => true,
        Command::Begin
        | Command::Add(_)
        | Command::Remove(_)
        | Command::Attach(_)
        | Command::Shapes(_)
        | Command::Commit
        | Command::Find(_)
        | Command::Select(_)
        | Command::Report
        | Command::Abort => false,
    }
}

/// The reply, within a transaction, to a command whose block can't be read, isn't well-formed, has a pattern that was refused, or
/// has a line that is no pattern of a select.
pub fn block_refusal(command: &Command) -> Result<SessionReply, AllocError>
    requires { IsRefusedBlock command.now }
    ensures { IfOk result (IsRefused command.now) }
{
    match command {
        Command::BadAdd { line, kind } => Ok(SessionReply::AddRefused {
            line: *line,
            kind: *kind,
        }),
        Command::BadRemove { line, kind } => Ok(SessionReply::RemoveRefused {
            line: *line,
            kind: *kind,
        }),
        Command::BadAttach { line, kind } => Ok(SessionReply::AttachRefused {
            line: *line,
            kind: *kind,
        }),
        Command::BadShapes { line, kind } => Ok(SessionReply::ShapesRefused {
            line: *line,
            kind: *kind,
        }),
        Command::BrokenShapes { rule, node } => Ok(SessionReply::ShapesBroken {
            rule: *rule,
            node: node.clone()?,
        }),
        Command::RefusedPattern { node } => Ok(SessionReply::PatternRefused {
            node: node.clone()?,
        }),
        Command::BadSelect { line } => Ok(SessionReply::SelectRefused { line: *line }),
        _ => unreachable!(),
    }
}

// The reply to a commit whose graph has these results under the shapes.
fn refusal(
    alloc: Global,
    rows: &Sequence<ResultRow>,
    shapes: &ShapesGraph,
) -> Result<SessionReply, AllocError>
    requires { (graph : List Triple) × Listing graph shapes.now rows.now }
    ensures { IfOk result (λ reply. reply ≡ SessionReply.Refused (length rows.now) (report_text shapes.now rows.now)) }
{
    let text = report(alloc, rows.as_slice(), shapes.shapes())?;
    Ok(SessionReply::Refused {
        count: rows.len(),
        report: Text::from_string(text)?,
    })
}

/// The reply to the answer of a commit.
pub fn reply_of_commit(alloc: Global, committed: Committed) -> Result<SessionReply, AllocError>
    requires { IsListed committed }
    ensures { IfOk result (IsCommitReply committed) }
{
    match &committed {
        Committed::ReadOnly { version } => Ok(SessionReply::ReadOnly(*version)),
        Committed::Done { number, again: _ } => Ok(SessionReply::Committed(*number)),
        Committed::Conflict { commit, triple } => {
            Ok(SessionReply::Overtaken(*commit, triple.clone()?))
        }
        Committed::FullTriples { count: _ } => Ok(SessionReply::FullGraph),
        Committed::Refused {
            rows,
            again: _,
            shapes,
        } => refusal(alloc, rows, shapes),
        Committed::LogFault => Ok(SessionReply::LogFailed),
        Committed::Stopped { version } => Ok(SessionReply::Stopped(*version)),
    }
}
