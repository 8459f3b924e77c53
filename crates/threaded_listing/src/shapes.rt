//! The results of shapes at their targets.
ghost use Rattle.std.specs.Prelude.{◌<◌, ◌≤◌, IfOk, OnOk, length};
ghost use Rattle.parallel_validate.specs.Counting.{StepsOfFirst, StepsOfShape};
ghost use Rattle.parallel_validate.specs.Whole.{CollectsOfShape, CollectsResults};

use crate::nodes::rows_at;
use parallel_validate::targets_of;
use rdf_model::{Names, Triples};
use shape_eval::{Evaluation, Steps};
use shape_model::ResultRow;
use std::alloc::AllocError;
use std::sync::ledger::Ledger;
use std::thread::Threads;

// The results of a shape at all its targets.
fn rows_of_shape<R: Triples + Sync, N: Names + Sync, L: Ledger, T: Threads + Sync>(
    rt: &T,
    evaluation: &Evaluation<'_, R, N>,
    shape: usize,
    steps: &mut Steps<L>,
) -> Result<Vec<ResultRow>, AllocError>
    requires { shape < length evaluation.now.shapes }
    ensures rows { IfOk result (λ rows. CollectsOfShape evaluation.now.terms evaluation.now.ids evaluation.now.shapes shape rows.items) }
    ensures steps { OnOk result (StepsOfShape evaluation.now.terms evaluation.now.ids evaluation.now.shapes shape steps.old steps.new) }
    ensures counted { steps.old ≤ steps.new }
{
    evaluation.recall();
    let nodes = targets_of(evaluation, shape)?;
    Ok(rows_at(rt, evaluation, shape, &nodes, steps)?)
}

/// The results of all shapes at their targets. Each evaluation is counted.
pub(crate) fn all_rows<R: Triples + Sync, N: Names + Sync, L: Ledger, T: Threads + Sync>(
    rt: &T,
    evaluation: &Evaluation<'_, R, N>,
    steps: &mut Steps<L>,
) -> Result<Vec<ResultRow>, AllocError>
    ensures rows { IfOk result (λ rows. CollectsResults evaluation.now.terms evaluation.now.ids evaluation.now.shapes (length evaluation.now.shapes) rows.items) }
    ensures steps { OnOk result (StepsOfFirst evaluation.now.terms evaluation.now.ids evaluation.now.shapes (length evaluation.now.shapes) steps.old steps.new) }
    ensures counted { steps.old ≤ steps.new }
{
    let bound = evaluation.bound();
    let mut rows = Vec::new(evaluation.alloc());
    for shape in 0..bound.shapes.len() {
        let mut more = rows_of_shape(rt, evaluation, shape, steps)?;
        rows.append(&mut more)?;
    }
    Ok(rows)
}
