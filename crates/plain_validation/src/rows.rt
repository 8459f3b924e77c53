//! Both listings of two texts.
ghost use Rattle.std.specs.Prelude.{◌≡◌, ◌+◌, ◌*◌, ◌≤◌, ◌<◌, ◌^◌, length, IfOk, MatchResult};
ghost use Rattle.collections.specs.Ordered.{IsAscending};
ghost use Rattle.ntriples_text.specs.Document.{reads};
ghost use Rattle.path_eval.specs.Instances.{AreClassWords};
ghost use Rattle.rdf_lexical.specs.Refusals.{Refuses};
ghost use Rattle.rdf_model.specs.Numbers.{IsNumbering};
ghost use Rattle.rdf_model.specs.Terms.{triple_cmp};
ghost use Rattle.shape_model.specs.Validation.{Listing};
ghost use Rattle.shape_reader.specs.Faults as reader;
ghost use Rattle.shape_rules.specs.Broken.{IsWellFormed};
ghost use Rattle.parallel_validate.specs.Named.{AreNamedTriples};
ghost use Rattle.plain_validation.specs.Rows.{AreListings, IsCause, IsRead};

use crate::names::{class_words, names_of};
use crate::{RowsFault, built_patterns};
use collections::Sequence;
use ntriples_text::{ReadFault, read};
use outside::Maker;
use path_eval::ClassWords;
use rdf_model::{ListNames, Triple};
use shape_eval::Steps;
use shape_model::ResultRow;
use shape_reader::{ShapeFault, read_shapes};
use shapes_graph::ShapesGraph;
use std::alloc::{AllocError, Global};
use std::marker::Brand;
use std::sync::ledger::{Blank, Ledger};

// The sessions of the blank nodes of the two texts.
const DATA_SESSION: u32 = 1;

const SHAPES_SESSION: u32 = 2;

/// The results of one data graph under one shapes graph, each once, in their order.
#[derive(Debug, Drop)]
pub struct BothListings {
    /// As compiled shapes find them, by the numbers of terms.
    pub compiled: Sequence<ResultRow>,
    /// As they are found straight from the triples of both graphs.
    pub plain: Sequence<ResultRow>,
}

/// The triples of a text, whose blank nodes belong to the session and are numbered from 1.
pub fn triples_of(alloc: Global, session: u32, text: &[u8]) -> Result<Sequence<Triple>, ReadFault>
    requires session { (1 ≤ session) × (session ≤ 64) }
    requires room { length text.now < 2 ^ 30 }
    ensures read { MatchResult result (IsRead session text.now) (λ fault. Refuses fault (reads text.now session 1)) }
    ensures few { IfOk result (λ triples. length triples ≤ length text.now) }
    ensures ascending { IfOk result (IsAscending triple_cmp) }
{
    let mut next = 1;
    let triples = read(alloc, session, &mut next, text)?;
    Ok(triples)
}

/// The shapes graph of the triples, if they are well-formed and the maker builds their patterns.
pub fn shapes_of<M: Maker>(
    alloc: Global,
    maker: &mut M,
    triples: Sequence<Triple>,
) -> Result<ShapesGraph, ShapeFault>
    requires { IsAscending triple_cmp triples }
    ensures answer { MatchResult result
        (λ graph. IsWellFormed triples × (graph ≡ triples))
        (λ fault. reader.IsCause triples fault (M.refused maker.old) (M.refused maker.new)) }
    ensures refused { IfOk result (λ _. M.refused maker.new ≡ M.refused maker.old) }
{
    let shapes = read_shapes(alloc, maker, triples.as_slice())?;
    Ok(ShapesGraph::new(alloc, triples, shapes)?)
}

// The results by compiled shapes, in an own ledger of evaluations.
fn compiled_in<L: Ledger>(
    alloc: Global,
    names: &ListNames,
    words: ClassWords,
    graph: &[Triple],
    shapes: &ShapesGraph,
    blank: Blank,
) -> Result<Vec<ResultRow>, AllocError>
    requires numbering { IsNumbering names.now }
    requires words { AreClassWords names.now words }
    requires graph { AreNamedTriples names.now graph.now }
    requires shapes { AreNamedTriples names.now shapes.now }
    requires name { blank.name ≡ L.name }
    requires parts { blank.parts ≡ L.parts }
    requires some { 0 < L.parts }
    ensures { IfOk result (λ rows. Listing graph.now shapes.now rows.items) }
{
    let mut steps = Steps::<L>::begin(blank);
    let rows = parallel_validate::listing(alloc, names, words, graph, shapes, &mut steps)?;
    Ok(rows)
}

// The results by compiled shapes.
fn compiled_listing(
    alloc: Global,
    graph: &[Triple],
    shapes: &ShapesGraph,
) -> Result<Vec<ResultRow>, AllocError>
    requires { 3 * (length graph.now + length shapes.now) + 2 < 2 ^ 32 }
    ensures { IfOk result (λ rows. Listing graph.now shapes.now rows.items) }
{
    let names = names_of(alloc, graph, shapes.triples())?;
    let names = ListNames::from_terms(Sequence::from_vec(names));
    let words = class_words(alloc, &names)?;
    compiled_in::<Brand>(alloc, &names, words, graph, shapes, Blank::new(1))
}

// The results straight from the triples.
fn plain_listing(
    alloc: Global,
    graph: &[Triple],
    shapes: &ShapesGraph,
) -> Result<Vec<ResultRow>, AllocError>
    ensures { IfOk result (λ rows. Listing graph.now shapes.now rows.items) }
{
    let patterns = built_patterns(alloc, shapes)?;
    let rows = crate::listing(alloc, graph, shapes.triples(), &patterns)?;
    Ok(rows)
}

// The results in both ways.
fn listings(
    alloc: Global,
    graph: &[Triple],
    shapes: &ShapesGraph,
) -> Result<BothListings, AllocError>
    requires few { 3 * (length graph.now + length shapes.now) + 2 < 2 ^ 32 }
    ensures compiled { IfOk result (λ both. Listing graph.now shapes.now both.compiled) }
    ensures plain { IfOk result (λ both. Listing graph.now shapes.now both.plain) }
{
    let compiled = compiled_listing(alloc, graph, shapes)?;
    let plain = plain_listing(alloc, graph, shapes)?;
    Ok(BothListings {
        compiled: Sequence::from_vec(compiled),
        plain: Sequence::from_vec(plain),
    })
}

/// The results of validating a data graph by a shapes graph (SHACL section 3.6), both N-Triples texts, found in two ways: by
/// compiled shapes, and straight from the triples. The two lists are one. Blank nodes of the data belong to session 1 and those
/// of the shapes to session 2, each numbered from 1.
///
/// A fault tells its cause: the data is refused first, then the shapes, then a broken rule, then a pattern. It takes time
/// with the square of the texts' sizes and more, and is meant for small ones.
pub fn both_listings<M: Maker>(
    alloc: Global,
    maker: &mut M,
    data_text: &[u8],
    shapes_text: &[u8],
) -> Result<BothListings, RowsFault>
    requires { length data_text.now + length shapes_text.now < 2 ^ 30 }
    ensures answer { MatchResult result (AreListings data_text.now shapes_text.now) (IsCause data_text.now shapes_text.now (M.refused maker.old) (M.refused maker.new)) }
    ensures one { IfOk result (λ both. both.plain ≡ both.compiled) }
    ensures refused { IfOk result (λ _. M.refused maker.new ≡ M.refused maker.old) }
{
    let graph = match triples_of(alloc, DATA_SESSION, data_text) {
        Ok(triples) => triples,
        Err(ReadFault::Refusal { line, kind }) => return Err(RowsFault::Data { line, kind }),
        Err(ReadFault::Memory) => return Err(RowsFault::Memory),
    };
    let triples = match triples_of(alloc, SHAPES_SESSION, shapes_text) {
        Ok(triples) => triples,
        Err(ReadFault::Refusal { line, kind }) => return Err(RowsFault::Shapes { line, kind }),
        Err(ReadFault::Memory) => return Err(RowsFault::Memory),
    };
    let shapes_graph = shapes_of(alloc, maker, triples)?;
    Ok(listings(alloc, graph.as_slice(), &shapes_graph)?)
}
