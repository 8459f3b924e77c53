//! The listing of a graph.
ghost use Rattle.std.specs.Prelude.{◌≤◌, IfOk, OnOk};
ghost use Rattle.rdf_model.specs.Numbers.{AreNumbered, IsNumbering, graph_of};
ghost use Rattle.shape_model.specs.Validation.{Listing};
ghost use Rattle.path_eval.specs.Instances.{AreClassWords};
ghost use Rattle.parallel_validate.specs.Counting.{GrowsByCount, IsTargetPair};
ghost use Rattle.parallel_validate.specs.Named.{AreNamedTriples};

use crate::shapes::all_rows;
use collections::sorted_once;
use path_eval::ClassWords;
use rdf_model::{Names, Triples};
use shape_ast::bind;
use shape_eval::{Evaluation, Steps};
use shape_model::ResultRow;
use shapes_graph::ShapesGraph;
use std::alloc::{AllocError, Global};
use std::sync::ledger::Ledger;
use std::thread::Threads;

/// The results of validating the data graph by the shapes graph (SHACL section 3.6), each once, in the order of results,
/// whichever thread found which. The graph is given by the numbers of its terms; all terms of the shapes, rdf:type and
/// rdfs:subClassOf are among the names. The targets of each shape are shared out among as many threads as there are
/// processors; where none can be started, the caller does all.
///
/// The evaluations are counted in `steps`: there are as many as there are pairs of a shape and its target. It fails only for
/// want of memory, and then the count is what it was, or more.
pub fn listing_by_threads<R: Triples + Sync, N: Names + Sync, L: Ledger, T: Threads + Sync>(
    rt: &T,
    alloc: Global,
    graph: &R,
    names: &N,
    words: ClassWords,
    shapes: &ShapesGraph,
    steps: &mut Steps<L>,
) -> Result<Vec<ResultRow>, AllocError>
    requires numbering { IsNumbering (N.terms names.now) }
    requires words { AreClassWords (N.terms names.now) words }
    requires graph { AreNumbered (N.terms names.now) (R.triples graph.now) }
    requires shapes { AreNamedTriples (N.terms names.now) shapes.now }
    ensures rows { IfOk result (λ rows. Listing (graph_of (N.terms names.now) (R.triples graph.now)) shapes.now rows.items) }
    ensures steps { OnOk result (GrowsByCount (IsTargetPair (graph_of (N.terms names.now) (R.triples graph.now)) shapes.now) steps.old steps.new) }
    ensures counted { steps.old ≤ steps.new }
{
    let bound = bind(alloc, shapes.shapes(), names)?;
    let evaluation = Evaluation::new(alloc, graph, names, words, &bound);
    let rows = all_rows(rt, &evaluation, steps)?;
    Ok(sorted_once(rows)?)
}
