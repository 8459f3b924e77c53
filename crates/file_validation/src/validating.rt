//! The three calls on two texts, and what they answer.
ghost use Rattle.std.specs.Prelude.{◌≡◌, ℕ, List, ◌<◌, ◌^◌, length, IfOk, MatchResult};
ghost use Rattle.collections.specs.Ordered.{IsAscending};
ghost use Rattle.data_graph.specs.DataGraphs.{IsIndexOf};
ghost use Rattle.rdf_model.specs.Numbers.{AreNumbered};
ghost use Rattle.rdf_model.specs.declared.triple.Triple.{Triple as TripleData};
ghost use Rattle.rdf_model.specs.Terms.{triple_cmp};
ghost use Rattle.file_validation.specs.Asked.{AsksInVain, AsksOfText};
ghost use Rattle.file_validation.specs.Readings.{AreGraphs, AreReadings, both_read, of_data, of_shapes};
ghost use Rattle.file_validation.specs.Validations.{AreRead, IsCause, IsExplained, IsExplanationOf, IsReported, IsValidation, IsVerdictOn};

use crate::InputFault;
use crate::indexing::index_beside_shapes;
use crate::naming::{IndexedTriples, indexed};
use crate::reading::{TextReadings, readings_by_threads, readings_in_turn, shapes_of};
use crate::results::{explanation, listing, verdict};
use collections::Sequence;
use outside::Maker;
use rdf_lexical::ReadFault;
use rdf_model::{Text, Triple};
use report_writer::report;
use shapes_graph::ShapesGraph;
use std::alloc::{AllocError, Global};
use std::thread::Threads;
use turtle_reader::TripleTable;

/// The outcome of a validation.
#[derive(Debug, Drop)]
pub struct Validation {
    /// Whether there is no result (SHACL section 3.6.1.1).
    pub conforms: bool,
    /// The text of the report (SHACL section 3.6), in Turtle.
    pub report: Text,
}

/// The outcome of a validation, with the evidence of its results.
#[derive(Debug, Drop)]
pub struct Explanation {
    /// Whether there is no result (SHACL section 3.6.1.1).
    pub conforms: bool,
    /// The evidence of each result (SHACL section 3.6) behind its number, in their order; empty where there is none.
    pub blocks: Text,
}

/// The verdict on a text of evidence.
#[derive(Clone, Copy, Debug, PartialEq, Eq)]
pub enum EvidenceVerdict {
    /// All of it is spelled as evidence is, and each block shows its result; it has so many blocks.
    Verified { blocks: u32 },
    /// The first block, from 1, that isn't spelled so or doesn't show its result.
    Wrong { block: u32 },
}

// The validation of a graph by a shapes graph.
fn validation_of<R: Threads + Sync>(
    rt: &R,
    alloc: Global,
    graph: IndexedTriples,
    shapes: &ShapesGraph,
) -> Result<Validation, AllocError>
    requires { AreNumbered graph.names graph.triples }
    ensures { IfOk result (λ validation. (g : List TripleData) → IsIndexOf graph.names graph.triples g → IsReported g shapes.now validation) }
{
    let rows = listing(rt, alloc, graph, shapes)?;
    let text = report(alloc, rows.as_slice(), shapes.shapes())?;
    Ok(Validation {
        conforms: rows.is_empty(),
        report: Text::from_string(text)?,
    })
}

// The explanation of the validation of a graph by a shapes graph.
fn explanation_of(
    alloc: Global,
    graph: IndexedTriples,
    shapes: &ShapesGraph,
) -> Result<Explanation, AllocError>
    requires { AreNumbered graph.names graph.triples }
    ensures { IfOk result (λ explanation. (g : List TripleData) → IsIndexOf graph.names graph.triples g → IsExplained g shapes.now explanation) }
{
    let text = explanation(alloc, graph, shapes)?;
    Ok(Explanation {
        conforms: text.as_str().is_empty(),
        blocks: Text::from_string(text)?,
    })
}

// Why there is no graph of the data.
fn data_fault(fault: ReadFault) -> InputFault
    ensures { result ≡ of_data fault }
{
    match fault {
        ReadFault::Refusal { line, kind } => InputFault::Data { line, kind },
        ReadFault::Memory => InputFault::Memory,
    }
}

// Why there are no shapes.
fn shapes_fault(fault: ReadFault) -> InputFault
    ensures { result ≡ of_shapes fault }
{
    match fault {
        ReadFault::Refusal { line, kind } => InputFault::Shapes { line, kind },
        ReadFault::Memory => InputFault::Memory,
    }
}

// What the data and the shapes were read to, or the refusal that is told: that of the data before that of the shapes.
fn both_of(readings: TextReadings) -> Result<(TripleTable, Sequence<Triple>), InputFault>
    ensures { result ≡ both_read readings.table readings.triples }
{
    let TextReadings { table, triples } = readings;
    let table = match table {
        Ok(table) => table,
        Err(fault) => return Err(data_fault(fault)),
    };
    match triples {
        Ok(triples) => Ok((table, triples)),
        Err(fault) => Err(shapes_fault(fault)),
    }
}

// The data graph and the shapes graph of two texts that were read.
fn graphs_in_turn<M: Maker>(
    alloc: Global,
    maker: &mut M,
    readings: TextReadings,
) -> Result<(IndexedTriples, ShapesGraph), InputFault>
    requires { IfOk readings.triples (IsAscending triple_cmp) }
    ensures answer { (data_text shapes_text : List ℕ) → AreReadings data_text shapes_text readings
        → MatchResult result (AreGraphs data_text shapes_text) (IsCause data_text shapes_text (M.refused maker.old) (M.refused maker.new)) }
    ensures numbered { IfOk result (λ both. AreNumbered both.0.names both.0.triples) }
    ensures refused { IfOk result (λ _. M.refused maker.new ≡ M.refused maker.old) }
    ensures asked { (data_text shapes_text : List ℕ) → AreReadings data_text shapes_text readings
        → MatchResult result (λ _. AsksOfText shapes_text (M.asked maker.old) (M.asked maker.new)) (λ fault. AsksInVain shapes_text fault (M.asked maker.old) (M.asked maker.new)) }
{
    let (table, triples) = match both_of(readings) {
        Ok(both) => both,
        Err(fault) => return Err(fault),
    };
    let shapes_graph = shapes_of(alloc, maker, triples)?;
    let graph = indexed(alloc, table)?;
    Ok((graph, shapes_graph))
}

// The data graph and the shapes graph of two texts that were read; the index of the data is made beside the shapes.
fn graphs_by_threads<M: Maker, R: Threads + Sync>(
    rt: &R,
    alloc: Global,
    maker: &mut M,
    readings: TextReadings,
) -> Result<(IndexedTriples, ShapesGraph), InputFault>
    requires { IfOk readings.triples (IsAscending triple_cmp) }
    ensures answer { (data_text shapes_text : List ℕ) → AreReadings data_text shapes_text readings
        → MatchResult result (AreGraphs data_text shapes_text) (IsCause data_text shapes_text (M.refused maker.old) (M.refused maker.new)) }
    ensures numbered { IfOk result (λ both. AreNumbered both.0.names both.0.triples) }
    ensures refused { IfOk result (λ _. M.refused maker.new ≡ M.refused maker.old) }
    ensures asked { (data_text shapes_text : List ℕ) → AreReadings data_text shapes_text readings
        → MatchResult result (λ _. AsksOfText shapes_text (M.asked maker.old) (M.asked maker.new)) (λ fault. AsksInVain shapes_text fault (M.asked maker.old) (M.asked maker.new)) }
{
    let (table, triples) = match both_of(readings) {
        Ok(both) => both,
        Err(fault) => return Err(fault),
    };
    let (names, found) = table.into_terms();
    let (index, shapes) = index_beside_shapes(rt, alloc, maker, &found, triples.as_slice());
    let shapes = shapes?;
    let shapes_graph = ShapesGraph::new(alloc, triples, shapes)?;
    let index = index?;
    let graph = IndexedTriples {
        names,
        triples: index,
    };
    Ok((graph, shapes_graph))
}

/// Validates a data graph by a shapes graph (SHACL section 3.4), both Turtle texts, and writes the report. Blank nodes of
/// the data belong to session 1 and those of the shapes to session 2, each numbered from 1. The maker builds the patterns,
/// shape by shape in the order of nodes, up to the first that it refuses. The texts are read beside each other, the
/// data is indexed beside the shapes, and as many threads as there are processors share out the evaluations among each other. The
/// texts are let go once they are read.
///
/// A fault tells its cause: the data is refused first, then the shapes, then a broken rule, then a pattern.
pub fn validate<M: Maker, R: Threads + Sync>(
    rt: &R,
    alloc: Global,
    maker: &mut M,
    data_text: Vec<u8>,
    shapes_text: Vec<u8>,
) -> Result<Validation, InputFault>
    requires data { length data_text.items < 2 ^ 31 }
    requires shapes { length shapes_text.items < 2 ^ 31 }
    ensures answer { MatchResult result (IsValidation data_text.items shapes_text.items) (IsCause data_text.items shapes_text.items (M.refused maker.old) (M.refused maker.new)) }
    ensures refused { IfOk result (λ _. M.refused maker.new ≡ M.refused maker.old) }
    ensures asked { MatchResult result (λ _. AsksOfText shapes_text.items (M.asked maker.old) (M.asked maker.new))
        (λ fault. AsksInVain shapes_text.items fault (M.asked maker.old) (M.asked maker.new)) }
{
    let readings = readings_by_threads(rt, alloc, &data_text, &shapes_text);
    drop(data_text);
    drop(shapes_text);
    let (graph, shapes_graph) = match graphs_by_threads(rt, alloc, maker, readings) {
        Ok(both) => both,
        Err(fault) => return Err(fault),
    };
    Ok(validation_of(rt, alloc, graph, &shapes_graph)?)
}

/// Explains the validation of a data graph by a shapes graph, both Turtle texts: the evidence of each of its results, in their
/// order. All else is as `validate` has it.
pub fn explain<M: Maker>(
    alloc: Global,
    maker: &mut M,
    data_text: &[u8],
    shapes_text: &[u8],
) -> Result<Explanation, InputFault>
    requires data { length data_text.now < 2 ^ 31 }
    requires shapes { length shapes_text.now < 2 ^ 31 }
    ensures answer { MatchResult result (IsExplanationOf data_text.now shapes_text.now) (IsCause data_text.now shapes_text.now (M.refused maker.old) (M.refused maker.new)) }
    ensures refused { IfOk result (λ _. M.refused maker.new ≡ M.refused maker.old) }
    ensures asked { MatchResult result (λ _. AsksOfText shapes_text.now (M.asked maker.old) (M.asked maker.new))
        (λ fault. AsksInVain shapes_text.now fault (M.asked maker.old) (M.asked maker.new)) }
{
    let readings = readings_in_turn(alloc, data_text, shapes_text);
    let (graph, shapes_graph) = match graphs_in_turn(alloc, maker, readings) {
        Ok(both) => both,
        Err(fault) => return Err(fault),
    };
    Ok(explanation_of(alloc, graph, &shapes_graph)?)
}

/// Says whether a text is evidence of results of validating a data graph by a shapes graph, both Turtle texts. Each of its blocks
/// shows that its result is one (SHACL section 3.6); not every result has a block. All else is as `validate` has it.
pub fn verify<M: Maker>(
    alloc: Global,
    maker: &mut M,
    data_text: &[u8],
    shapes_text: &[u8],
    evidence_text: &[u8],
) -> Result<EvidenceVerdict, InputFault>
    requires data { length data_text.now < 2 ^ 31 }
    requires shapes { length shapes_text.now < 2 ^ 31 }
    requires evidence { length evidence_text.now < 2 ^ 32 }
    ensures answer { MatchResult result (IsVerdictOn data_text.now shapes_text.now evidence_text.now) (IsCause data_text.now shapes_text.now (M.refused maker.old) (M.refused maker.new)) }
    ensures refused { IfOk result (λ _. M.refused maker.new ≡ M.refused maker.old) }
    ensures asked { MatchResult result (λ _. AsksOfText shapes_text.now (M.asked maker.old) (M.asked maker.new))
        (λ fault. AsksInVain shapes_text.now fault (M.asked maker.old) (M.asked maker.new)) }
{
    let readings = readings_in_turn(alloc, data_text, shapes_text);
    let (graph, shapes_graph) = match graphs_in_turn(alloc, maker, readings) {
        Ok(both) => both,
        Err(fault) => return Err(fault),
    };
    Ok(verdict(alloc, graph, &shapes_graph, evidence_text)?)
}
