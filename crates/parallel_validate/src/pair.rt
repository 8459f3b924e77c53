//! The results of one pair of a shape and a node.
ghost use Rattle.std.specs.Prelude.{◌<◌, ◌≤◌, IfOk, OnOk, length};
ghost use Rattle.parallel_validate.specs.PairResults.{AddsPairLooks, ListsPair, StepsOfPair};

use rdf_model::{Footprint, Names, Triples};
use shape_eval::{Evaluation, Matchers, Steps, eval, permit};
use shape_model::ResultRow;
use std::alloc::AllocError;
use std::sync::ledger::Ledger;
use target_nodes::is_target;

/// The results of the shape at the pair's place at its node, where it is a target of the shape; none where it isn't. Where it
/// is, one evaluation is counted. The footprint takes the looks that decide it, and those of the results.
pub(crate) fn rows_of_pair<'a, R: Triples, N: Names, L: Ledger>(
    evaluation: &Evaluation<'a, R, N>,
    pair: (u32, u32),
    footprint: &mut Footprint,
    matchers: &mut Matchers<'a>,
    steps: &mut Steps<L>,
) -> Result<Vec<ResultRow>, AllocError>
    requires shape { pair.0 < length evaluation.now.shapes }
    requires focus { pair.1 < length evaluation.now.terms }
    ensures rows { IfOk result (λ rows. ListsPair evaluation.now.terms evaluation.now.ids evaluation.now.shapes pair.0 pair.1 rows.items) }
    ensures looks { OnOk result (AddsPairLooks evaluation.now.terms evaluation.now.ids evaluation.now.shapes pair.0 pair.1 footprint.old footprint.new) }
    ensures steps { OnOk result (StepsOfPair evaluation.now.terms evaluation.now.ids evaluation.now.shapes pair.0 pair.1 steps.old steps.new) }
    ensures counted { steps.old ≤ steps.new }
{
    evaluation.recall();
    let alloc = evaluation.alloc();
    let (place, focus) = pair;
    let shape = place as usize;
    let (graph, words, bound) = (evaluation.graph(), evaluation.words(), evaluation.bound());
    let aim = is_target(alloc, graph, words, bound, shape, focus, footprint)?;
    if !aim {
        return Ok(Vec::new(alloc));
    }
    let allowed = permit(steps);
    let rows = eval(evaluation, shape, focus, footprint, matchers, allowed)?;
    Ok(rows)
}
