//! The texts of the data and of the shapes, read.
ghost use Rattle.std.specs.Prelude.{◌≡◌, ◌≤◌, ◌<◌, ◌^◌, [], length, IfOk, MatchResult};
ghost use Rattle.collections.specs.Ordered.{IsAscending};
ghost use Rattle.rdf_lexical.specs.Refusals.{Refuses};
ghost use Rattle.rdf_model.specs.Graphs.{with_each};
ghost use Rattle.rdf_model.specs.Terms.{triple_cmp};
ghost use Rattle.shape_reader.specs.Asked.{AsksAll, AsksBeforeFault};
ghost use Rattle.shape_reader.specs.Faults as reader;
ghost use Rattle.shape_rules.specs.Broken.{IsWellFormed};
ghost use Rattle.turtle_reader.specs.Document.{reads};
ghost use Rattle.file_validation.specs.Readings.{AreReadings};
ghost use Rattle.file_validation.specs.Validations.{IsRead};

use collections::Sequence;
use outside::Maker;
use rdf_lexical::ReadFault;
use rdf_model::Triple;
use shape_reader::{ShapeFault, read_shapes};
use shapes_graph::ShapesGraph;
use std::alloc::Global;
use std::thread::{Threads, join};
use turtle_reader::{TripleTable, read, read_numbered};

// The sessions of the blank nodes of the two texts.
const DATA_SESSION: u32 = 1;

const SHAPES_SESSION: u32 = 2;

/// What the texts of the data and of the shapes were read to, each by itself.
#[derive(Drop)]
pub(crate) struct TextReadings {
    /// The triples of the data, as they were found.
    pub(crate) table: Result<TripleTable, ReadFault>,
    /// The triples of the shapes, each once, in their order.
    pub(crate) triples: Result<Sequence<Triple>, ReadFault>,
}

// The triples of a Turtle text, by the numbers of their terms, as they were found. Its blank nodes belong to the session and are
// numbered from 1.
fn table_of(alloc: Global, session: u32, text: &[u8]) -> Result<TripleTable, ReadFault>
    requires session { (1 ≤ session) × (session ≤ 64) }
    requires room { length text.now < 2 ^ 31 }
    ensures { MatchResult result (λ table. IsRead session text.now (with_each [] table)) (λ fault. Refuses fault (reads text.now session 1)) }
{
    let mut next = 1;
    let table = read_numbered(alloc, session, &mut next, text)?;
    Ok(table)
}

// The triples of a Turtle text, each once, in their order. Its blank nodes belong to the session and are numbered from 1.
fn triples_of(alloc: Global, session: u32, text: &[u8]) -> Result<Sequence<Triple>, ReadFault>
    requires session { (1 ≤ session) × (session ≤ 64) }
    requires room { length text.now < 2 ^ 31 }
    ensures read { MatchResult result (IsRead session text.now) (λ fault. Refuses fault (reads text.now session 1)) }
    ensures ascending { IfOk result (IsAscending triple_cmp) }
{
    let mut next = 1;
    let triples = read(alloc, session, &mut next, text)?;
    Ok(triples)
}

/// The readings of the two texts, one after the other.
pub(crate) fn readings_in_turn(alloc: Global, data_text: &[u8], shapes_text: &[u8]) -> TextReadings
    requires data { length data_text.now < 2 ^ 31 }
    requires shapes { length shapes_text.now < 2 ^ 31 }
    ensures readings { AreReadings data_text.now shapes_text.now result }
    ensures ascending { IfOk result.triples (IsAscending triple_cmp) }
{
    let table = table_of(alloc, DATA_SESSION, data_text);
    let triples = triples_of(alloc, SHAPES_SESSION, shapes_text);
    TextReadings { table, triples }
}

/// The readings of the two texts, beside each other: a thread of its own reads the shapes. Where none can be started, the caller
/// reads both.
pub(crate) fn readings_by_threads<R: Threads>(
    rt: &R,
    alloc: Global,
    data_text: &[u8],
    shapes_text: &[u8],
) -> TextReadings
    requires data { length data_text.now < 2 ^ 31 }
    requires shapes { length shapes_text.now < 2 ^ 31 }
    ensures readings { AreReadings data_text.now shapes_text.now result }
    ensures ascending { IfOk result.triples (IsAscending triple_cmp) }
{
    let (triples, table) = join(
        rt,
        || -> Result<Sequence<Triple>, ReadFault>
            requires { length shapes_text.now < 2 ^ 31 }
            ensures { MatchResult result (λ triples. IsRead 2 shapes_text.entry.now triples × IsAscending triple_cmp triples) (λ fault. Refuses fault (reads shapes_text.entry.now 2 1)) }
        { triples_of(alloc, SHAPES_SESSION, shapes_text) },
        || -> Result<TripleTable, ReadFault>
            requires { length data_text.now < 2 ^ 31 }
            ensures { MatchResult result (λ table. IsRead 1 data_text.entry.now (with_each [] table)) (λ fault. Refuses fault (reads data_text.entry.now 1 1)) }
        { table_of(alloc, DATA_SESSION, data_text) },
    );
    TextReadings { table, triples }
}

/// The shapes graph of the triples, if they are well-formed and the maker builds their patterns.
pub(crate) fn shapes_of<M: Maker>(
    alloc: Global,
    maker: &mut M,
    triples: Sequence<Triple>,
) -> Result<ShapesGraph, ShapeFault>
    requires { IsAscending triple_cmp triples }
    ensures answer { MatchResult result
        (λ graph. IsWellFormed triples × (graph ≡ triples))
        (λ fault. reader.IsCause triples fault (M.refused maker.old) (M.refused maker.new)) }
    ensures refused { IfOk result (λ _. M.refused maker.new ≡ M.refused maker.old) }
    ensures asked { MatchResult result (λ _. AsksAll triples (M.asked maker.old) (M.asked maker.new))
        (λ fault. AsksBeforeFault triples fault (M.asked maker.old) (M.asked maker.new)) }
{
    let shapes = read_shapes(alloc, maker, triples.as_slice())?;
    Ok(ShapesGraph::new(alloc, triples, shapes)?)
}
