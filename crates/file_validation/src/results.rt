//! The listing of two graphs, its explanation, and the verdict on evidence.
ghost use Rattle.std.specs.Prelude.{◌≡◌, ◌<◌, ◌^◌, List, IfOk, length, string_bytes};
ghost use Rattle.graph_explanation.specs.Explanations.{IsExplanation};
ghost use Rattle.data_graph.specs.DataGraphs.{IsIndexOf};
ghost use Rattle.rdf_model.specs.Numbers.{AreNumbered, graph_of};
ghost use Rattle.rdf_model.specs.declared.triple.Triple.{Triple as TripleData};
ghost use Rattle.shape_model.specs.Validation.{Listing};
ghost use Rattle.path_eval.specs.Instances.{AreClassWords};
ghost use Rattle.parallel_validate.specs.Named.{AreNamedTriples};
ghost use Rattle.file_validation.specs.Validations.{IsVerdict};

use crate::EvidenceVerdict;
use crate::naming::{IndexedTriples, NumberedGraph};
use collections::Sequence;
use evidence_verdict::{VerdictFault, verdict_over};
use graph_explanation::{NumberedData, explanation_over};
use shape_eval::Steps;
use shape_model::ResultRow;
use shapes_graph::ShapesGraph;
use std::alloc::{AllocError, Global};
use std::marker::Brand;
use std::sync::ledger::{Blank, Ledger};
use std::thread::Threads;
use threaded_listing::listing_by_threads;
use triple_index::Index;
use triple_table::NumberedTerms;

// The results, in an own ledger of evaluations.
fn listing_in<L: Ledger, R: Threads + Sync>(
    rt: &R,
    alloc: Global,
    graph: &NumberedGraph,
    shapes: &ShapesGraph,
    blank: Blank,
) -> Result<Vec<ResultRow>, AllocError>
    requires words { AreClassWords graph.now.names graph.now.words }
    requires graph { AreNumbered graph.now.names graph.now.triples }
    requires shapes { AreNamedTriples graph.now.names shapes.now }
    requires name { blank.name ≡ L.name }
    requires parts { blank.parts ≡ L.parts }
    requires some { 0 < L.parts }
    ensures { IfOk result (λ rows. Listing (graph_of graph.now.names graph.now.triples) shapes.now rows.items) }
{
    let mut steps = Steps::<L>::begin(blank);
    let names = &graph.names;
    names.recall_numbering();
    let rows = listing_by_threads(
        rt,
        alloc,
        &graph.triples,
        names,
        graph.words,
        shapes,
        &mut steps,
    )?;
    Ok(rows)
}

/// The results of validating the graph by the shapes graph (SHACL section 3.6), each once, in the order of results. Threads share
/// out the evaluations among each other.
pub(crate) fn listing<R: Threads + Sync>(
    rt: &R,
    alloc: Global,
    graph: IndexedTriples,
    shapes: &ShapesGraph,
) -> Result<Sequence<ResultRow>, AllocError>
    requires { AreNumbered graph.names graph.triples }
    ensures { IfOk result (λ rows. (g : List TripleData) → IsIndexOf graph.names graph.triples g → Listing g shapes.now rows) }
{
    let numbered = graph.with_shapes(alloc, shapes.triples())?;
    let rows = listing_in::<Brand, R>(rt, alloc, &numbered, shapes, Blank::new(1))?;
    Ok(Sequence::from_vec(rows))
}

// The graph as its results are explained and evidence is judged.
fn numbered_data(alloc: Global, graph: &NumberedGraph) -> NumberedData<'_, Index, NumberedTerms>
    requires words { AreClassWords graph.now.names graph.now.words }
    requires graph { AreNumbered graph.now.names graph.now.triples }
    ensures terms { result.terms ≡ graph.entry.now.names }
    ensures ids { result.ids ≡ graph.entry.now.triples }
{
    let names = &graph.names;
    names.recall_numbering();
    NumberedData::new(alloc, &graph.triples, names, graph.words)
}

// The text that explains the validation, in an own ledger of evaluations.
fn explanation_in<L: Ledger>(
    alloc: Global,
    graph: &NumberedGraph,
    shapes: &ShapesGraph,
    blank: Blank,
) -> Result<String, AllocError>
    requires words { AreClassWords graph.now.names graph.now.words }
    requires graph { AreNumbered graph.now.names graph.now.triples }
    requires shapes { AreNamedTriples graph.now.names shapes.now }
    requires name { blank.name ≡ L.name }
    requires parts { blank.parts ≡ L.parts }
    requires some { 0 < L.parts }
    ensures { IfOk result (λ text. IsExplanation (graph_of graph.now.names graph.now.triples) shapes.now (string_bytes text)) }
{
    let mut steps = Steps::<L>::begin(blank);
    let data = numbered_data(alloc, graph);
    explanation_over(&data, shapes, &mut steps)
}

/// The text that explains the validation of the graph by the shapes graph (SHACL section 3.6).
pub(crate) fn explanation(
    alloc: Global,
    graph: IndexedTriples,
    shapes: &ShapesGraph,
) -> Result<String, AllocError>
    requires { AreNumbered graph.names graph.triples }
    ensures { IfOk result (λ text. (g : List TripleData) → IsIndexOf graph.names graph.triples g → IsExplanation g shapes.now (string_bytes text)) }
{
    let numbered = graph.with_shapes(alloc, shapes.triples())?;
    let text = explanation_in::<Brand>(alloc, &numbered, shapes, Blank::new(1))?;
    Ok(text)
}

// The verdict on a text of evidence, in an own ledger of evaluations.
fn verdict_in<L: Ledger>(
    alloc: Global,
    graph: &NumberedGraph,
    shapes: &ShapesGraph,
    evidence: &[u8],
    blank: Blank,
) -> Result<EvidenceVerdict, AllocError>
    requires words { AreClassWords graph.now.names graph.now.words }
    requires graph { AreNumbered graph.now.names graph.now.triples }
    requires shapes { AreNamedTriples graph.now.names shapes.now }
    requires evidence { length evidence.now < 2 ^ 32 }
    requires name { blank.name ≡ L.name }
    requires parts { blank.parts ≡ L.parts }
    requires some { 0 < L.parts }
    ensures { IfOk result (IsVerdict (graph_of graph.now.names graph.now.triples) shapes.now evidence.now) }
{
    let mut steps = Steps::<L>::begin(blank);
    let data = numbered_data(alloc, graph);
    match verdict_over(&data, shapes, evidence, &mut steps) {
        Ok(blocks) => Ok(EvidenceVerdict::Verified { blocks }),
        Err(VerdictFault::Block { number }) => Ok(EvidenceVerdict::Wrong { block: number }),
        Err(VerdictFault::Memory) => Err(AllocError),
    }
}

/// The verdict on a text of evidence of results of validating the graph by the shapes graph (SHACL section 3.6).
pub(crate) fn verdict(
    alloc: Global,
    graph: IndexedTriples,
    shapes: &ShapesGraph,
    evidence: &[u8],
) -> Result<EvidenceVerdict, AllocError>
    requires graph { AreNumbered graph.names graph.triples }
    requires evidence { length evidence.now < 2 ^ 32 }
    ensures { IfOk result (λ verdict. (g : List TripleData) → IsIndexOf graph.names graph.triples g → IsVerdict g shapes.now evidence.now verdict) }
{
    let numbered = graph.with_shapes(alloc, shapes.triples())?;
    let verdict = verdict_in::<Brand>(alloc, &numbered, shapes, evidence, Blank::new(1))?;
    Ok(verdict)
}
