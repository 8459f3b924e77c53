//! The last shapes graph that records staged.
ghost use Rattle.std.specs.Prelude.{◌≡◌, IfOk, MatchOption, MatchResult, None};
ghost use Rattle.std.specs.List.{AllByRecursion};
ghost use Rattle.collections.specs.Ordered.{IsAscending};
ghost use Rattle.rdf_model.specs.Terms.{triple_cmp};
ghost use Rattle.shape_rules.specs.Broken.{IsWellFormed};
ghost use Rattle.shape_reader.specs.Faults as reader;
ghost use Rattle.commit_log.specs.Format.{AreRecordsFrom};
ghost use Rattle.log_command.specs.Restoring.{IsLastStaged, StopsShapes, last_shapes, of_shapes};

use crate::LogFault;
use collections::Sequence;
use outside::Maker;
use rdf_model::Triple;
use record_text::Record;
use shape_reader::{ShapeFault, read_shapes};
use shapes_graph::ShapesGraph;
use std::alloc::Global;

// The number and the triples of the last shapes graph that a record staged.
fn last_staged(records: &[Record]) -> Option<(u64, &[Triple])>
    ensures { MatchOption result (AllByRecursion (λ r. r.shapes ≡ None) records.now) (λ last. IsLastStaged records.now last.0 last.1.now) }
{
    let mut last = None;
    for entry in records {
        match &entry.shapes {
            Some(triples) => last = Some((entry.number, triples.as_slice())),
            None => {}
        }
    }
    last
}

// The shapes graph of the triples, if they are well-formed and the maker builds their patterns.
fn shapes_of<M: Maker>(
    alloc: Global,
    maker: &mut M,
    triples: &[Triple],
) -> Result<ShapesGraph, ShapeFault>
    requires { IsAscending triple_cmp triples.now }
    ensures answer { MatchResult result
        (λ graph. IsWellFormed triples.now × (graph ≡ triples.now))
        (λ fault. reader.IsCause triples.now fault (M.refused maker.old) (M.refused maker.new)) }
    ensures refused { IfOk result (λ _. M.refused maker.new ≡ M.refused maker.old) }
{
    let shapes = read_shapes(alloc, maker, triples)?;
    let triples = Sequence::copied_from(alloc, triples)?;
    Ok(ShapesGraph::new(alloc, triples, shapes)?)
}

// A fault of the shapes that a record staged, as one of the log.
fn shapes_fault(fault: ShapeFault, number: u64) -> LogFault
    ensures { result ≡ of_shapes fault number }
{
    match fault {
        ShapeFault::Rule(_) => LogFault::BadLog { record: number },
        ShapeFault::Pattern { node } => LogFault::Pattern { node },
        ShapeFault::Memory => LogFault::Memory,
    }
}

/// The last shapes graph that the records staged, or the empty one where none did.
pub(crate) fn last_graph<M: Maker>(
    alloc: Global,
    maker: &mut M,
    records: &[Record],
) -> Result<ShapesGraph, LogFault>
    requires { AreRecordsFrom 1 records.now }
    ensures answer { MatchResult result (λ graph. IsWellFormed (last_shapes records.now) × (graph ≡ last_shapes records.now))
        (λ fault. StopsShapes records.now (M.refused maker.old) (M.refused maker.new) fault) }
    ensures refused { IfOk result (λ _. M.refused maker.new ≡ M.refused maker.old) }
{
    match last_staged(records) {
        None => Ok(ShapesGraph::empty(alloc)?),
        Some((number, triples)) => match shapes_of(alloc, maker, triples) {
            Ok(shapes) => Ok(shapes),
            Err(fault) => Err(shapes_fault(fault, number)),
        },
    }
}
