//! The listing of a data graph by numbers, or by terms.
ghost use Rattle.std.specs.Prelude.{◌≡◌, ◌≤◌, ◌↔◌, [], IfOk, IsTrue, OnOk};
ghost use Rattle.rdf_model.specs.Numbers.{AreNumbered, IsNumbering, graph_of};
ghost use Rattle.rdf_model.specs.declared.term.Term.{Term as TermData};
ghost use Rattle.shape_model.specs.ShapeSyntax.{IsShape};
ghost use Rattle.shape_model.specs.Validation.{Listing};
ghost use Rattle.path_eval.specs.Instances.{AreClassWords};
ghost use Rattle.parallel_validate.specs.Counting.{GrowsByCount, IsTargetPair};
ghost use Rattle.parallel_validate.specs.Named.{AreNamedTriples};

use crate::numbering::number_triples;
use crate::whole;
use path_eval::ClassWords;
use rdf_model::{Names, Term, Triple, Triples};
use shape_ast::{Shape, bind};
use shape_eval::Steps;
use shape_model::ResultRow;
use shapes_graph::ShapesGraph;
use std::alloc::{AllocError, Global};
use std::sync::ledger::Ledger;
use triple_index::Index;

fn is_nothing(shapes: &[Shape<Term>]) -> bool
    ensures { IsTrue result ↔ (shapes.now ≡ []) }
{
    shapes.is_empty()
}

/// Whether a shapes graph has no shape: then no graph has a result under it.
pub fn is_without_shapes(shapes: &ShapesGraph) -> bool
    ensures { IsTrue result ↔ ((shape : TermData) → IsShape shapes.now shape → ⊥) }
{
    is_nothing(shapes.shapes().shapes.as_slice())
}

/// The results of validating the data graph by the shapes graph (SHACL section 3.6), each once, in
/// the order of results. The graph is given by the numbers of its terms; all terms of the shapes, rdf:type
/// and rdfs:subClassOf are among the names. The evaluations are counted in `steps`: there are as many as there are pairs
/// of a shape and its target. It fails only for want of memory, and then the count is what it was, or more.
pub fn listing_over<R: Triples, N: Names, L: Ledger>(
    alloc: Global,
    graph: &R,
    names: &N,
    words: ClassWords,
    shapes: &ShapesGraph,
    steps: &mut Steps<L>,
) -> Result<Vec<ResultRow>, AllocError>
    requires numbering { IsNumbering (N.terms names.now) }
    requires words { AreClassWords (N.terms names.now) words }
    requires graph { AreNumbered (N.terms names.now) (R.triples graph.now) }
    requires shapes { AreNamedTriples (N.terms names.now) shapes.now }
    ensures rows { IfOk result (λ rows. Listing (graph_of (N.terms names.now) (R.triples graph.now)) shapes.now rows.items) }
    ensures steps { OnOk result (GrowsByCount (IsTargetPair (graph_of (N.terms names.now) (R.triples graph.now)) shapes.now) steps.old steps.new) }
    ensures counted { steps.old ≤ steps.new }
{
    let bound = bind(alloc, shapes.shapes(), names)?;
    Ok(whole(alloc, graph, names, words, &bound, steps)?)
}

/// The listing of a data graph that is given by its terms, which are all among the names. Without shapes
/// nothing is numbered.
pub fn listing<N: Names, L: Ledger>(
    alloc: Global,
    names: &N,
    words: ClassWords,
    graph: &[Triple],
    shapes: &ShapesGraph,
    steps: &mut Steps<L>,
) -> Result<Vec<ResultRow>, AllocError>
    requires numbering { IsNumbering (N.terms names.now) }
    requires words { AreClassWords (N.terms names.now) words }
    requires graph { AreNamedTriples (N.terms names.now) graph.now }
    requires shapes { AreNamedTriples (N.terms names.now) shapes.now }
    ensures rows { IfOk result (λ rows. Listing graph.now shapes.now rows.items) }
    ensures steps { OnOk result (GrowsByCount (IsTargetPair graph.now shapes.now) steps.old steps.new) }
    ensures counted { steps.old ≤ steps.new }
{
    if is_without_shapes(shapes) {
        return Ok(Vec::new(alloc));
    }
    let ids = number_triples(alloc, names, graph)?;
    let index = Index::from_triples(alloc, ids.as_slice())?;
    Ok(listing_over(alloc, &index, names, words, shapes, steps)?)
}
