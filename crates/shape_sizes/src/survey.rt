// What the rules ask of a shapes graph again and again.
ghost use Rattle.std.specs.Prelude.{IfOk};
ghost use Rattle.collections.specs.Ordered.{IsAscending};
ghost use Rattle.rdf_model.specs.Terms.{triple_cmp};
ghost use Rattle.shape_sizes.specs.Surveys.{IsSurvey};

use crate::path_looks::path_places;
use crate::referring::references;
use collections::Sequence;
use rdf_model::{Term, Triple};
use reference_totals::WeightedPlace;
use shape_properties::shapes::shape_nodes;
use shape_references::{ReferenceGraph, reversed_properties};
use shape_syntax::IndexedGraph;
use shape_syntax::paths::path_nodes;
use std::alloc::{AllocError, Global};
use std::collections::BTreeSet;

/// What several rules ask of a shapes graph, and what its shapes are compiled by.
#[derive(Drop)]
pub struct Survey {
    /// The blank nodes that stand for paths.
    pub paths: BTreeSet<Term>,
    /// The values that stand for paths, each with those of whose paths its path is made.
    pub places: Sequence<WeightedPlace>,
    /// The nodes that are shapes, in order.
    pub shapes: Vec<Term>,
    /// The references between shapes.
    pub references: ReferenceGraph,
    /// The triples with sh:property, reversed and in order.
    pub reversed: Vec<Triple>,
}

/// The survey of the graph.
pub fn survey_of(alloc: Global, graph: &IndexedGraph) -> Result<Survey, AllocError>
    requires { IsAscending triple_cmp graph.now }
    ensures { IfOk result (λ survey. IsSurvey graph.now survey) }
{
    let paths = path_nodes(alloc, graph)?;
    let places = path_places(alloc, graph, &paths)?;
    let shapes = shape_nodes(alloc, graph)?;
    let bundles = references(alloc, graph)?;
    let references = ReferenceGraph::new(alloc, bundles)?;
    let reversed = reversed_properties(alloc, graph)?;
    Ok(Survey {
        paths,
        places,
        shapes,
        references,
        reversed,
    })
}
