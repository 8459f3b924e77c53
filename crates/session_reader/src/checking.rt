//! Commands whose shapes graphs are judged.
ghost use Rattle.std.specs.Prelude.{◌≡◌, IfOk, MatchResult};
ghost use Rattle.shape_reader.specs.Asked.{AsksSome};
ghost use Rattle.session_reader.specs.Asked.{AsksFirst, AsksOf, AsksOfEach, AsksOfGraph, AsksPart};
ghost use Rattle.session_reader.specs.Checking.{AreChecked, IsChecked, IsCheckedGraph, OnlyGrows};

use crate::read_command::{ReadCommand, ShapesTriples};
use collections::Sequence;
use outside::Maker;
use session_model::{Command, ShapesBlock};
use shape_reader::{ShapeFault, read_shapes};
use shapes_graph::ShapesGraph;
use std::alloc::{AllocError, Global};

// The command of a shapes graph that was read.
fn check_graph<M: Maker>(
    alloc: Global,
    maker: &mut M,
    block: ShapesTriples,
) -> Result<Command, AllocError>
    ensures command { IfOk result (λ command. IsCheckedGraph block command (M.refused maker.old) (M.refused maker.new)) }
    ensures refused { OnlyGrows (M.refused maker.old) (M.refused maker.new) }
    ensures asked { MatchResult result (λ command. AsksOfGraph block command (M.asked maker.old) (M.asked maker.new))
        (λ _. (M.refused maker.new ≡ M.refused maker.old) × AsksSome block (M.asked maker.old) (M.asked maker.new)) }
{
    let triples = block.into_triples();
    match read_shapes(alloc, maker, triples.as_slice()) {
        Ok(shapes) => {
            let graph = ShapesGraph::new(alloc, triples, shapes)?;
            Ok(Command::Shapes(ShapesBlock::new(graph)))
        }
        Err(ShapeFault::Rule(row)) => Ok(Command::BrokenShapes {
            rule: row.rule,
            node: row.node.clone()?,
        }),
        Err(ShapeFault::Pattern { node }) => Ok(Command::RefusedPattern { node }),
        Err(ShapeFault::Memory) => Err(AllocError),
    }
}

// The command that a read one becomes.
fn check_command<M: Maker>(
    alloc: Global,
    maker: &mut M,
    read: ReadCommand,
) -> Result<Command, AllocError>
    ensures command { IfOk result (λ command. IsChecked read command (M.refused maker.old) (M.refused maker.new)) }
    ensures refused { OnlyGrows (M.refused maker.old) (M.refused maker.new) }
    ensures asked { MatchResult result (λ command. AsksOf read command (M.asked maker.old) (M.asked maker.new))
        (λ _. (M.refused maker.new ≡ M.refused maker.old) × AsksPart read (M.asked maker.old) (M.asked maker.new)) }
{
    match read {
        ReadCommand::Begin => Ok(Command::Begin),
        ReadCommand::Add(block) => Ok(Command::Add(block)),
        ReadCommand::BadAdd { line, kind } => Ok(Command::BadAdd { line, kind }),
        ReadCommand::Remove(block) => Ok(Command::Remove(block)),
        ReadCommand::BadRemove { line, kind } => Ok(Command::BadRemove { line, kind }),
        ReadCommand::Attach(block) => Ok(Command::Attach(block)),
        ReadCommand::BadAttach { line, kind } => Ok(Command::BadAttach { line, kind }),
        ReadCommand::Shapes(block) => check_graph(alloc, maker, block),
        ReadCommand::BadShapes { line, kind } => Ok(Command::BadShapes { line, kind }),
        ReadCommand::Commit => Ok(Command::Commit),
        ReadCommand::Find(pattern) => Ok(Command::Find(pattern)),
        ReadCommand::Select(patterns) => Ok(Command::Select(patterns)),
        ReadCommand::BadSelect { line } => Ok(Command::BadSelect { line }),
        ReadCommand::Report => Ok(Command::Report),
        ReadCommand::Abort => Ok(Command::Abort),
    }
}

/// The commands that the read ones become, one by one: shapes graphs are judged, and their patterns are asked of the maker, in
/// the order of the commands. It fails only for want of memory.
pub fn check_commands<M: Maker>(
    alloc: Global,
    maker: &mut M,
    read: Sequence<ReadCommand>,
) -> Result<Sequence<Command>, AllocError>
    ensures commands { IfOk result (λ commands. AreChecked read commands (M.refused maker.old) (M.refused maker.new)) }
    ensures refused { OnlyGrows (M.refused maker.old) (M.refused maker.new) }
    ensures asked { MatchResult result (λ commands. AsksOfEach read commands (M.asked maker.old) (M.asked maker.new))
        (λ _. AsksFirst read (M.refused maker.old) (M.refused maker.new) (M.asked maker.old) (M.asked maker.new)) }
{
    let mut commands = Sequence::new(alloc);
    for command in read.into_vec() {
        commands.push(check_command(alloc, maker, command)?)?;
    }
    Ok(commands)
}
