//! The results of each shape at each of its targets.
ghost use Rattle.std.specs.Prelude.{◌≡◌, ◌+◌, ◌<◌, ◌≤◌, IfOk, OnOk, length};
ghost use Rattle.std.specs.List.{All};
ghost use Rattle.rdf_model.specs.Numbers.{AreNumbered, IsNumbering, term_at};
ghost use Rattle.path_eval.specs.Instances.{AreClassWords};
ghost use Rattle.shape_ast.specs.Readings.{AreBound};
ghost use Rattle.shape_ast.specs.Standing.{AreBuilt};
ghost use Rattle.shape_eval.specs.Results.{ListsResults};
ghost use Rattle.target_nodes.specs.ShapeTargets.{AreTargets, AtShape};
ghost use Rattle.parallel_validate.specs.Counting.{StepsOfFirst, StepsOfGraph, StepsOfShape};
ghost use Rattle.parallel_validate.specs.Whole.{CollectsAtNodes, CollectsOfShape, CollectsResults, ListsGraph};

use collections::sorted_once;
use path_eval::ClassWords;
use rdf_model::{Footprint, Names, Triples};
use shape_ast::Bound;
use shape_eval::{Evaluation, Matchers, Permit, Steps, eval, permit};
use shape_model::ResultRow;
use std::alloc::{AllocError, Global};
use std::sync::ledger::Ledger;
use target_nodes::targets;

// The results of a shape at a focus node. How they were found is not kept.
fn rows_at_node<'a, R: Triples, N: Names>(
    evaluation: &Evaluation<'a, R, N>,
    shape: usize,
    focus: u32,
    matchers: &mut Matchers<'a>,
    allowed: Permit,
) -> Result<Vec<ResultRow>, AllocError>
    requires shape { shape < length evaluation.now.shapes }
    requires focus { focus < length evaluation.now.terms }
    ensures { IfOk result (λ rows. ListsResults evaluation.now.terms evaluation.now.ids evaluation.now.shapes shape focus rows.items) }
{
    let mut looks = Footprint::new(evaluation.alloc());
    Ok(eval(evaluation, shape, focus, &mut looks, matchers, allowed)?)
}

// The results of a shape at some focus nodes.
fn rows_at<R: Triples, N: Names, L: Ledger>(
    evaluation: &Evaluation<'_, R, N>,
    shape: usize,
    nodes: &[u32],
    steps: &mut Steps<L>,
) -> Result<Vec<ResultRow>, AllocError>
    requires shape { shape < length evaluation.now.shapes }
    requires nodes { All (λ n. n < length evaluation.now.terms) nodes.now }
    ensures rows { IfOk result (λ rows. CollectsAtNodes evaluation.now.terms evaluation.now.ids evaluation.now.shapes shape nodes.now rows.items) }
    ensures steps { OnOk result (steps.new ≡ steps.old + length nodes.now) }
    ensures counted { steps.old ≤ steps.new }
{
    let mut rows = Vec::new(evaluation.alloc());
    let mut matchers = Matchers::new(evaluation.alloc());
    for node in nodes {
        let allowed = permit(steps);
        let mut more = rows_at_node(evaluation, shape, *node, &mut matchers, allowed)?;
        rows.append(&mut more)?;
    }
    Ok(rows)
}

/// The targets of a shape (SHACL section 2.1.3), by its place among the compiled shapes: each once, ascending by number.
pub fn targets_of<R: Triples, N: Names>(
    evaluation: &Evaluation<'_, R, N>,
    shape: usize,
) -> Result<Vec<u32>, AllocError>
    requires { shape < length evaluation.now.shapes }
    ensures targets { IfOk result (λ found. AtShape evaluation.now.terms evaluation.now.shapes shape (λ s own. AreTargets evaluation.now.terms evaluation.now.ids s own found.items)) }
    ensures numbers { IfOk result (λ found. All (λ n. n < length evaluation.now.terms) found.items) }
{
    evaluation.recall();
    let (graph, words, bound) = (evaluation.graph(), evaluation.words(), evaluation.bound());
    targets(evaluation.alloc(), graph, words, bound, shape)
}

// The results of a shape at all its targets.
fn rows_of_shape<R: Triples, N: Names, L: Ledger>(
    evaluation: &Evaluation<'_, R, N>,
    shape: usize,
    steps: &mut Steps<L>,
) -> Result<Vec<ResultRow>, AllocError>
    requires { shape < length evaluation.now.shapes }
    ensures rows { IfOk result (λ rows. CollectsOfShape evaluation.now.terms evaluation.now.ids evaluation.now.shapes shape rows.items) }
    ensures steps { OnOk result (StepsOfShape evaluation.now.terms evaluation.now.ids evaluation.now.shapes shape steps.old steps.new) }
    ensures counted { steps.old ≤ steps.new }
{
    evaluation.recall();
    let nodes = targets_of(evaluation, shape)?;
    Ok(rows_at(evaluation, shape, &nodes, steps)?)
}

// The results of all shapes at their targets.
fn all_rows<R: Triples, N: Names, L: Ledger>(
    evaluation: &Evaluation<'_, R, N>,
    steps: &mut Steps<L>,
) -> Result<Vec<ResultRow>, AllocError>
    ensures rows { IfOk result (λ rows. CollectsResults evaluation.now.terms evaluation.now.ids evaluation.now.shapes (length evaluation.now.shapes) rows.items) }
    ensures steps { OnOk result (StepsOfFirst evaluation.now.terms evaluation.now.ids evaluation.now.shapes (length evaluation.now.shapes) steps.old steps.new) }
    ensures counted { steps.old ≤ steps.new }
{
    let bound = evaluation.bound();
    let mut rows = Vec::new(evaluation.alloc());
    for shape in 0..bound.shapes.len() {
        let mut more = rows_of_shape(evaluation, shape, steps)?;
        rows.append(&mut more)?;
    }
    Ok(rows)
}

/// The results of validating the data graph (SHACL section 3.6), each once, in the order of results. They are the
/// listing under each shapes graph that the shapes stand for, where no shape refers to itself and no chain of references
/// is longer than 256. Each evaluation, of one shape at one of its targets, is counted in `steps`: there are as many as
/// there are pairs of a shape and its target. After an error the count is what it was, or more.
pub fn whole<R: Triples, N: Names, L: Ledger>(
    alloc: Global,
    graph: &R,
    names: &N,
    words: ClassWords,
    bound: &Bound,
    steps: &mut Steps<L>,
) -> Result<Vec<ResultRow>, AllocError>
    requires numbering { IsNumbering (N.terms names.now) }
    requires graph { AreNumbered (N.terms names.now) (R.triples graph.now) }
    requires words { AreClassWords (N.terms names.now) words }
    requires bound { AreBound (N.terms names.now) bound.now.shapes }
    requires built { AreBuilt (term_at (N.terms names.now)) bound.now.shapes }
    ensures rows { IfOk result (λ rows. ListsGraph (N.terms names.now) (R.triples graph.now) bound.now.shapes rows.items) }
    ensures steps { OnOk result (StepsOfGraph (N.terms names.now) (R.triples graph.now) bound.now.shapes steps.old steps.new) }
    ensures counted { steps.old ≤ steps.new }
{
    let evaluation = Evaluation::new(alloc, graph, names, words, bound);
    let rows = all_rows(&evaluation, steps)?;
    Ok(sorted_once(rows)?)
}
