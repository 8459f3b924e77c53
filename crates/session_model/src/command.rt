//! The commands of a session.
use crate::block::{Block, ShapesBlock};
use bgp_query::JoinPattern;
use collections::Sequence;
use rdf_model::{Pattern, Term};

/// A command of a session.
#[derive(Debug)]
pub enum Command {
    Begin,
    /// Adds the triples of its block, each once, ascending.
    Add(Block),
    /// An addition whose block can't be read: the line of the block, from 1, and the number of the refusal's kind.
    BadAdd { line: u64, kind: u8 },
    /// Removes the triples of its block, each once, ascending.
    Remove(Block),
    /// A removal whose block can't be read: the line of the block, from 1, and the number of the refusal's kind.
    BadRemove { line: u64, kind: u8 },
    /// Adds the triples of its block, each once, ascending, whose blank nodes are stored ones.
    Attach(Block),
    /// An attachment whose block can't be read: the line of the block, from 1, and the number of the refusal's kind.
    BadAttach { line: u64, kind: u8 },
    /// Stages the shapes graph of its block.
    Shapes(ShapesBlock),
    /// Shapes whose block can't be read: the line of the block, from 1, and the number of the refusal's kind.
    BadShapes { line: u64, kind: u8 },
    /// Shapes whose graph isn't well-formed: the number of the rule that is reported, and the node that breaks it.
    BrokenShapes { rule: u8, node: Term },
    /// Shapes whose graph is well-formed, but has a shape whose pattern was refused: that shape's node.
    RefusedPattern { node: Term },
    Commit,
    /// Asks for the triples that the pattern has.
    Find(Pattern),
    /// Asks for the bindings of the patterns.
    Select(Sequence<JoinPattern<Term>>),
    /// A select whose block has a line that is no pattern, more than eight lines, or none: the first line of the block, from 1,
    /// that is refused.
    BadSelect { line: u64 },
    /// Asks for the results of the graph at the transaction's begin.
    Report,
    /// Drops the transaction.
    Abort,
}

// Written by hand, so that what owns one calls it in place of having it written out.
impl Drop for Command {
    fn drop(self) {
        match self {
            Command::Begin => {}
            Command::Add(_) => {}
            Command::BadAdd { line: _, kind: _ } => {}
            Command::Remove(_) => {}
            Command::BadRemove { line: _, kind: _ } => {}
            Command::Attach(_) => {}
            Command::BadAttach { line: _, kind: _ } => {}
            Command::Shapes(_) => {}
            Command::BadShapes { line: _, kind: _ } => {}
            Command::BrokenShapes { rule: _, node: _ } => {}
            Command::RefusedPattern { node: _ } => {}
            Command::Commit => {}
            Command::Find(_) => {}
            Command::Select(_) => {}
            Command::BadSelect { line: _ } => {}
            Command::Report => {}
            Command::Abort => {}
        }
    }
}
