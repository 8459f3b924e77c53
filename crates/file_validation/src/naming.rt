//! A data graph by the numbers that its terms were read with, and the terms of a shapes graph behind them.
ghost use Rattle.std.specs.Prelude.{IfOk, OnOk};
ghost use Rattle.path_eval.specs.Instances.{AreClassWords};
ghost use Rattle.parallel_validate.specs.Named.{AreNamedTriples, IsNamedTriple};
ghost use Rattle.triple_table.specs.Tables.{HasGrown, IsPlaceOf};
ghost use Rattle.rdf_model.specs.Numbers.{AreNumbered, graph_of};
ghost use Rattle.data_graph.specs.DataGraphs.{IsIndexOf};
ghost use Rattle.file_validation.specs.Numbering.{IsNumberedGraph};

use path_eval::ClassWords;
use rdf_model::{Term, Text, Triple};
use std::alloc::{AllocError, Global};
use triple_index::Index;
use triple_table::NumberedTerms;
use turtle_reader::TripleTable;
use vocabulary::{RDF_TYPE, RDFS_SUB_CLASS_OF};

/// A data graph by the numbers of its terms, with the numbers of rdf:type and rdfs:subClassOf.
#[derive(Drop)]
pub(crate) struct NumberedGraph {
    pub(crate) names: NumberedTerms,
    pub(crate) words: ClassWords,
    pub(crate) triples: Index,
}

/// A data graph so, before the two numbers are known.
#[derive(Drop)]
pub(crate) struct IndexedTriples {
    pub(crate) names: NumberedTerms,
    pub(crate) triples: Index,
}

// The number of an IRI.
fn add_iri(alloc: Global, names: &mut NumberedTerms, iri: &str) -> Result<u32, AllocError>
    ensures grown { OnOk result (HasGrown names.old names.new) }
    ensures number { IfOk result (λ number. IsPlaceOf names.new number (Term.Iri iri.now)) }
{
    let term = Term::Iri(Text::new(alloc, iri)?);
    Ok(names.add(&term)?)
}

// The numbers of rdf:type and rdfs:subClassOf.
fn add_words(alloc: Global, names: &mut NumberedTerms) -> Result<ClassWords, AllocError>
    ensures grown { OnOk result (HasGrown names.old names.new) }
    ensures words { IfOk result (AreClassWords names.new) }
{
    let rdf_type = add_iri(alloc, names, RDF_TYPE)?;
    let sub_class_of = add_iri(alloc, names, RDFS_SUB_CLASS_OF)?;
    Ok(ClassWords {
        rdf_type,
        sub_class_of,
    })
}

// Adds the terms of a triple.
fn add_triple(names: &mut NumberedTerms, triple: &Triple) -> Result<(), AllocError>
    ensures grown { OnOk result (HasGrown names.old names.new) }
    ensures named { OnOk result (IsNamedTriple names.new triple.now) }
{
    let _ = names.add(&triple.subject)?;
    let _ = names.add(&triple.predicate)?;
    let _ = names.add(&triple.object)?;
    Ok(())
}

// Adds the terms of triples.
fn add_triples(names: &mut NumberedTerms, triples: &[Triple]) -> Result<(), AllocError>
    ensures grown { OnOk result (HasGrown names.old names.new) }
    ensures named { OnOk result (AreNamedTriples names.new triples.now) }
{
    for triple in triples {
        add_triple(names, triple)?;
    }
    Ok(())
}

impl IndexedTriples {
    /// The graph with the numbers of rdf:type and rdfs:subClassOf, and with the terms of a shapes graph behind its own. It fails for
    /// want of memory, or of numbers for the terms.
    pub(crate) fn with_shapes(
        self,
        alloc: Global,
        shapes: &[Triple],
    ) -> Result<NumberedGraph, AllocError>
        requires { AreNumbered self.names self.triples }
        ensures { IfOk result (IsNumberedGraph (graph_of self.names self.triples) shapes.now) }
    {
        let IndexedTriples { names, triples } = self;
        let mut names = names;
        let words = add_words(alloc, &mut names)?;
        add_triples(&mut names, shapes)?;
        Ok(NumberedGraph {
            names,
            words,
            triples,
        })
    }
}

/// A data graph, as its triples were found, by the numbers of its terms.
pub(crate) fn indexed(alloc: Global, graph: TripleTable) -> Result<IndexedTriples, AllocError>
    ensures { IfOk result (λ indexed. IsIndexOf indexed.names indexed.triples graph) }
{
    let (names, found) = graph.into_terms();
    let triples = Index::from_triples(alloc, &found)?;
    Ok(IndexedTriples { names, triples })
}
