//! The results of each shape at each of its targets, with the pair.
ghost use Rattle.std.specs.Prelude.{◌≡◌, ◌+◌, ◌<◌, ◌≤◌, ◌↔◌, IfOk, OnOk, length};
ghost use Rattle.std.specs.List.{All, Contains};
ghost use Rattle.rdf_model.specs.Numbers.{AreNumbered, IsNumbering, term_at};
ghost use Rattle.path_eval.specs.Instances.{AreClassWords};
ghost use Rattle.shape_ast.specs.Readings.{AreBound};
ghost use Rattle.shape_ast.specs.Standing.{AreBuilt};
ghost use Rattle.shape_eval.specs.Told.{node_at};
ghost use Rattle.parallel_validate.specs.Counting.{StepsOfFirst, StepsOfGraph, StepsOfShape};
ghost use Rattle.kept_rows.specs.declared.kept_row.KeptRow.{KeptRow as KeptData};
ghost use Rattle.kept_validation.specs.Keeping.{IsOfPair, IsOfSomeNode, KeepsAtNodes, KeepsGraph, KeepsOfFirst, KeepsOfShape};

use kept_rows::{KeptRow, KeptRows};
use parallel_validate::targets_of;
use path_eval::ClassWords;
use rdf_model::{Names, Triples};
use shape_ast::Bound;
use shape_eval::{Evaluation, Steps};
use shape_model::ResultRow;
use std::alloc::{AllocError, Global};
use std::sync::ledger::Ledger;
use std::thread::Threads;
use threaded_listing::{NodeRows, rows_by_node};

// Results with the pair that gives them.
fn with_pair(
    alloc: Global,
    shape: u32,
    focus: u32,
    rows: Vec<ResultRow>,
) -> Result<Vec<KeptRow>, AllocError>
    ensures { IfOk result (λ kept. (k : KeptData) → IsOfPair shape focus rows.items k ↔ Contains kept.items k) }
{
    let mut kept = Vec::with_capacity(alloc, rows.len())?;
    let mut rest = rows;
    while let Some(row) = rest.pop() {
        kept.push(KeptRow { shape, focus, row })?;
    }
    Ok(kept)
}

// The results at some nodes with the pairs that give them.
fn with_pairs(alloc: Global, shape: u32, found: Vec<NodeRows>) -> Result<Vec<KeptRow>, AllocError>
    ensures { IfOk result (λ kept. (k : KeptData) → IsOfSomeNode shape found.items k ↔ Contains kept.items k) }
{
    let mut kept = Vec::new(alloc);
    for node in found {
        let mut more = with_pair(alloc, shape, node.node, node.rows.into_vec())?;
        kept.append(&mut more)?;
    }
    Ok(kept)
}

// The results of a shape at some focus nodes, whichever thread found which.
fn rows_at<R: Triples + Sync, N: Names + Sync, L: Ledger, T: Threads + Sync>(
    rt: &T,
    evaluation: &Evaluation<'_, R, N>,
    shape: usize,
    node: u32,
    nodes: &[u32],
    steps: &mut Steps<L>,
) -> Result<Vec<KeptRow>, AllocError>
    requires shape { shape < length evaluation.now.shapes }
    requires node { node ≡ node_at evaluation.now.shapes shape }
    requires nodes { All (λ n. n < length evaluation.now.terms) nodes.now }
    ensures rows { IfOk result (λ rows. KeepsAtNodes evaluation.now.terms evaluation.now.ids evaluation.now.shapes shape nodes.now rows.items) }
    ensures steps { OnOk result (steps.new ≡ steps.old + length nodes.now) }
    ensures counted { steps.old ≤ steps.new }
{
    evaluation.recall();
    let found = rows_by_node(rt, evaluation, shape, nodes, steps)?;
    Ok(with_pairs(evaluation.alloc(), node, found)?)
}

// The number of a shape's node.
fn node_of(bound: &Bound, shape: usize) -> u32
    requires { shape < length bound.now.shapes }
    ensures { result ≡ node_at bound.now.shapes shape }
{
    bound.shapes.as_slice()[shape].node
}

// The results of a shape at all its targets.
fn rows_of_shape<R: Triples + Sync, N: Names + Sync, L: Ledger, T: Threads + Sync>(
    rt: &T,
    evaluation: &Evaluation<'_, R, N>,
    shape: usize,
    steps: &mut Steps<L>,
) -> Result<Vec<KeptRow>, AllocError>
    requires { shape < length evaluation.now.shapes }
    ensures rows { IfOk result (λ rows. KeepsOfShape evaluation.now.terms evaluation.now.ids evaluation.now.shapes shape rows.items) }
    ensures steps { OnOk result (StepsOfShape evaluation.now.terms evaluation.now.ids evaluation.now.shapes shape steps.old steps.new) }
    ensures counted { steps.old ≤ steps.new }
{
    evaluation.recall();
    let bound = evaluation.bound();
    let node = node_of(bound, shape);
    let nodes = targets_of(evaluation, shape)?;
    Ok(rows_at(rt, evaluation, shape, node, &nodes, steps)?)
}

// The results of all shapes at their targets.
fn all_rows<R: Triples + Sync, N: Names + Sync, L: Ledger, T: Threads + Sync>(
    rt: &T,
    evaluation: &Evaluation<'_, R, N>,
    steps: &mut Steps<L>,
) -> Result<Vec<KeptRow>, AllocError>
    ensures rows { IfOk result (λ rows. KeepsOfFirst evaluation.now.terms evaluation.now.ids evaluation.now.shapes (length evaluation.now.shapes) rows.items) }
    ensures steps { OnOk result (StepsOfFirst evaluation.now.terms evaluation.now.ids evaluation.now.shapes (length evaluation.now.shapes) steps.old steps.new) }
    ensures counted { steps.old ≤ steps.new }
{
    let bound = evaluation.bound();
    let mut rows = Vec::new(evaluation.alloc());
    for shape in 0..bound.shapes.len() {
        let mut more = rows_of_shape(rt, evaluation, shape, steps)?;
        rows.append(&mut more)?;
    }
    Ok(rows)
}

/// The results of validating the data graph (SHACL section 3.6), each with the pair of a shape and a focus node that gives it.
/// They are those of each shapes graph that the shapes stand for, where no shape refers to itself and no chain of references
/// is longer than 256. The targets of each shape are shared out among as many threads as there are processors; where none can
/// be started, the caller does all.
///
/// Each evaluation, of one shape at one of its targets, is counted in `steps`: there are as many as there are pairs of a shape
/// and its target. It fails only for want of memory, and then the count is what it was, or more.
pub fn whole_kept<R: Triples + Sync, N: Names + Sync, L: Ledger, T: Threads + Sync>(
    rt: &T,
    alloc: Global,
    graph: &R,
    names: &N,
    words: ClassWords,
    bound: &Bound,
    steps: &mut Steps<L>,
) -> Result<KeptRows, AllocError>
    requires numbering { IsNumbering (N.terms names.now) }
    requires graph { AreNumbered (N.terms names.now) (R.triples graph.now) }
    requires words { AreClassWords (N.terms names.now) words }
    requires bound { AreBound (N.terms names.now) bound.now.shapes }
    requires built { AreBuilt (term_at (N.terms names.now)) bound.now.shapes }
    ensures rows { IfOk result (λ kept. KeepsGraph (N.terms names.now) (R.triples graph.now) bound.now.shapes kept) }
    ensures steps { OnOk result (StepsOfGraph (N.terms names.now) (R.triples graph.now) bound.now.shapes steps.old steps.new) }
    ensures counted { steps.old ≤ steps.new }
{
    let evaluation = Evaluation::new(alloc, graph, names, words, bound);
    let rows = all_rows(rt, &evaluation, steps)?;
    Ok(KeptRows::from_rows(alloc, rows)?)
}
