//! The replies to commands.
use crate::report::Report;
use rdf_model::{Term, Text, Triple};
use std::fmt;

/// What a session is answered on one command.
#[derive(Debug)]
pub enum SessionReply {
    /// `begin` within a transaction.
    AlreadyOpen,
    /// Any other command outside of one.
    NoTransaction,
    /// The version at which the transaction begins.
    Begun(u64),
    /// How many triples the block of an addition had.
    Added(usize),
    /// The block of an addition can't be read: its line, from 1, and the number of the refusal's kind.
    AddRefused { line: u64, kind: u8 },
    /// How many triples the block of a removal had.
    Removed(usize),
    /// The block of a removal can't be read: its line, from 1, and the number of the refusal's kind.
    RemoveRefused { line: u64, kind: u8 },
    /// How many triples the block of an attachment had.
    Attached(usize),
    /// The block of an attachment can't be read: its line, from 1, and the number of the refusal's kind.
    AttachRefused { line: u64, kind: u8 },
    /// The least blank node of an attachment's block that no block of the store was given.
    UnknownNode(Term),
    /// How many triples the shapes graph has that is staged.
    ShapesStaged(usize),
    /// The block of shapes can't be read: its line, from 1, and the number of the refusal's kind.
    ShapesRefused { line: u64, kind: u8 },
    /// The shapes graph isn't well-formed: the number of the rule that is reported, and the node that breaks it.
    ShapesBroken { rule: u8, node: Term },
    /// The shapes graph is well-formed, but the pattern of the shape at this node was refused.
    PatternRefused { node: Term },
    /// The block would name more terms than the limit allows.
    FullTerms,
    /// The number of the accepted commit.
    Committed(u64),
    /// A commit without changes, at its transaction's version.
    ReadOnly(u64),
    /// The overtaking commit, and its first triple that a find asked for.
    Overtaken(u64, Triple),
    /// The graph would have more triples than the limit allows.
    FullGraph,
    /// The graph would have so many results, and the report of them.
    Refused { count: usize, report: Text },
    /// How many triples a find gave, and a line of each, an LF before it.
    Found { count: usize, lines: Text },
    /// How many bindings a select gave, and a line of each, an LF before it.
    Selected { count: usize, lines: Text },
    /// A select has more bindings than are answered.
    SelectFull,
    /// The first line of a select's block, from 1, that is refused.
    SelectRefused { line: u64 },
    /// The results of the graph at the transaction's begin.
    Reported(Report),
    /// The transaction was dropped.
    Aborted,
    /// The store's log failed at the commit.
    LogFailed,
    /// The store is stopped, at this version.
    Stopped(u64),
}

// Written by hand, so that what owns one calls it in place of having it written out.
impl Drop for SessionReply {
    fn drop(self) {
        match self {
            SessionReply::AlreadyOpen => {}
            SessionReply::NoTransaction => {}
            SessionReply::Begun(_) => {}
            SessionReply::Added(_) => {}
            SessionReply::AddRefused { line: _, kind: _ } => {}
            SessionReply::Removed(_) => {}
            SessionReply::RemoveRefused { line: _, kind: _ } => {}
            SessionReply::Attached(_) => {}
            SessionReply::AttachRefused { line: _, kind: _ } => {}
            SessionReply::UnknownNode(_) => {}
            SessionReply::ShapesStaged(_) => {}
            SessionReply::ShapesRefused { line: _, kind: _ } => {}
            SessionReply::ShapesBroken { rule: _, node: _ } => {}
            SessionReply::PatternRefused { node: _ } => {}
            SessionReply::FullTerms => {}
            SessionReply::Committed(_) => {}
            SessionReply::ReadOnly(_) => {}
            SessionReply::Overtaken(_, _) => {}
            SessionReply::FullGraph => {}
            SessionReply::Refused {
                count: _,
                report: _,
            } => {}
            SessionReply::Found { count: _, lines: _ } => {}
            SessionReply::Selected { count: _, lines: _ } => {}
            SessionReply::SelectFull => {}
            SessionReply::SelectRefused { line: _ } => {}
            SessionReply::Reported(_) => {}
            SessionReply::Aborted => {}
            SessionReply::LogFailed => {}
            SessionReply::Stopped(_) => {}
        }
    }
}

impl fmt::Display for SessionReply {
    ghost use Rattle.session_model.specs.Print.{shown};

    ghost output = { λ reply. shown reply };

    /// The reply's line, without its end; a refusal's report has lines of its own, and so has a
    /// find or a select. A report is printed by its own text.
    fn fmt<W: fmt::Write>(&self, f: &mut fmt::Formatter<W>) -> fmt::Result {
        match self {
            SessionReply::AlreadyOpen => f.write_str("already open"),
            SessionReply::NoTransaction => f.write_str("no transaction"),
            SessionReply::Begun(version) => write!(f, "begin {version}"),
            SessionReply::Added(count) => write!(f, "add {count}"),
            SessionReply::AddRefused { line, kind } => write!(f, "bad add {line} {kind}"),
            SessionReply::Removed(count) => write!(f, "remove {count}"),
            SessionReply::RemoveRefused { line, kind } => write!(f, "bad remove {line} {kind}"),
            SessionReply::Attached(count) => write!(f, "attach {count}"),
            SessionReply::AttachRefused { line, kind } => write!(f, "bad attach {line} {kind}"),
            SessionReply::UnknownNode(node) => write!(f, "unknown {node}"),
            SessionReply::ShapesStaged(count) => write!(f, "shapes {count}"),
            SessionReply::ShapesRefused { line, kind } => {
                write!(f, "bad shapes line {line} {kind}")
            }
            SessionReply::ShapesBroken { rule, node } => write!(f, "bad shapes {rule} {node}"),
            SessionReply::PatternRefused { node } => write!(f, "bad shapes pattern {node}"),
            SessionReply::FullTerms => f.write_str("full terms"),
            SessionReply::Committed(number) => write!(f, "commit {number}"),
            SessionReply::ReadOnly(version) => write!(f, "read only {version}"),
            SessionReply::Overtaken(commit, triple) => write!(f, "conflict {commit} {triple}"),
            SessionReply::FullGraph => f.write_str("full triples"),
            SessionReply::Refused { count, report } => write!(f, "refused {count}\n{report}end"),
            SessionReply::Found { count, lines } => write!(f, "find {count}{lines}"),
            SessionReply::Selected { count, lines } => write!(f, "select {count}{lines}"),
            SessionReply::SelectFull => f.write_str("select full"),
            SessionReply::SelectRefused { line } => write!(f, "bad select {line}"),
            SessionReply::Reported(report) => write!(f, "{report:?}"),
            SessionReply::Aborted => f.write_str("abort"),
            SessionReply::LogFailed => f.write_str("log fault"),
            SessionReply::Stopped(version) => write!(f, "stopped {version}"),
        }
    }
}
