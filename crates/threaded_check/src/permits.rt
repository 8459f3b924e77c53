//! The permits of touched pairs: of each it is found whether it is one of a shape and its target, and where it is, its
//! evaluation is counted.
ghost use Rattle.std.specs.Prelude.{[], ◌≡◌, ◌+◌, ◌<◌, ◌≤◌, ◌∷◌, IfOk, OnOk, if◌then◌else◌, is_some, length};
ghost use Rattle.parallel_validate.specs.PairResults.{TellsTarget};
ghost use Rattle.parallel_validate.specs.PairsResults.{ArePlacedPairs, StepsOfPairs};
ghost use Rattle.threaded_check.specs.Findings.{AddsAimLooks};
ghost use Rattle.threaded_check.specs.PermittedPairs.{ArePermitted, permitted_in};

use crate::pairs::{PermittedPair, Share};
use rdf_model::{Footprint, Names, Triples};
use shape_eval::{Evaluation, Permit, Steps, permit};
use std::alloc::AllocError;
use std::sync::ledger::Ledger;
use target_nodes::is_target;

// How many pairs a share has at most. One thread evaluates it, by matchers of its own; where there is one share alone, no
// thread is started for it.
const SHARE: usize = 64;

// A permit for one evaluation, which is counted, where the node is a target.
fn permit_at<L: Ledger>(aim: bool, steps: &mut Steps<L>) -> Option<Permit>
    ensures allowed { is_some result ≡ aim }
    ensures steps { steps.new ≡ (if aim then steps.old + 1 else steps.old) }
    ensures counted { steps.old ≤ steps.new }
{
    if aim { Some(permit(steps)) } else { None }
}

// Whether the node of the pair is a target of its shape. The footprint takes the looks that decide it.
fn is_aim<R: Triples, N: Names>(
    evaluation: &Evaluation<'_, R, N>,
    pair: (u32, u32),
    footprint: &mut Footprint,
) -> Result<bool, AllocError>
    requires shape { pair.0 < length evaluation.now.shapes }
    requires focus { pair.1 < length evaluation.now.terms }
    ensures { IfOk result (λ aim. TellsTarget evaluation.now.terms evaluation.now.ids evaluation.now.shapes pair.0 pair.1 aim footprint.old footprint.new) }
{
    evaluation.recall();
    let (shape, focus) = pair;
    let (graph, words, bound) = (evaluation.graph(), evaluation.words(), evaluation.bound());
    let aim = is_target(
        evaluation.alloc(),
        graph,
        words,
        bound,
        shape as usize,
        focus,
        footprint,
    )?;
    Ok(aim)
}

// The pair with its permit.
fn permitted<R: Triples, N: Names, L: Ledger>(
    evaluation: &Evaluation<'_, R, N>,
    pair: (u32, u32),
    footprint: &mut Footprint,
    steps: &mut Steps<L>,
) -> Result<PermittedPair, AllocError>
    requires { (pair.0 < length evaluation.now.shapes) × (pair.1 < length evaluation.now.terms) }
    ensures permitted { IfOk result (λ permitted. ArePermitted evaluation.now.terms evaluation.now.ids evaluation.now.shapes (pair ∷ []) (permitted ∷ [])) }
    ensures looks { OnOk result (AddsAimLooks evaluation.now.terms evaluation.now.ids evaluation.now.shapes (pair ∷ []) footprint.old footprint.new) }
    ensures steps { OnOk result (StepsOfPairs evaluation.now.terms evaluation.now.ids evaluation.now.shapes (pair ∷ []) steps.old steps.new) }
    ensures counted { steps.old ≤ steps.new }
{
    let (shape, focus) = pair;
    let aim = is_aim(evaluation, pair, footprint)?;
    let allowed = permit_at(aim, steps);
    Ok(PermittedPair {
        shape,
        focus,
        allowed,
    })
}

// The pairs with their permits.
fn permitted_pairs<R: Triples, N: Names, L: Ledger>(
    evaluation: &Evaluation<'_, R, N>,
    pairs: &[(u32, u32)],
    footprint: &mut Footprint,
    steps: &mut Steps<L>,
) -> Result<Vec<PermittedPair>, AllocError>
    requires { ArePlacedPairs evaluation.now.terms evaluation.now.shapes pairs.now }
    ensures permitted { IfOk result (λ permitted. ArePermitted evaluation.now.terms evaluation.now.ids evaluation.now.shapes pairs.now permitted.items) }
    ensures looks { OnOk result (AddsAimLooks evaluation.now.terms evaluation.now.ids evaluation.now.shapes pairs.now footprint.old footprint.new) }
    ensures steps { OnOk result (StepsOfPairs evaluation.now.terms evaluation.now.ids evaluation.now.shapes pairs.now steps.old steps.new) }
    ensures counted { steps.old ≤ steps.new }
{
    let mut allowed = Vec::with_capacity(evaluation.alloc(), pairs.len())?;
    for pair in pairs {
        let next = permitted(evaluation, *pair, footprint, steps)?;
        allowed.push(next)?;
    }
    Ok(allowed)
}

/// The pairs with their permits in their order, in shares. The footprint takes the looks that decide which are targets.
pub(crate) fn shares_of<R: Triples, N: Names, L: Ledger>(
    evaluation: &Evaluation<'_, R, N>,
    pairs: &[(u32, u32)],
    footprint: &mut Footprint,
    steps: &mut Steps<L>,
) -> Result<Vec<Share>, AllocError>
    requires { ArePlacedPairs evaluation.now.terms evaluation.now.shapes pairs.now }
    ensures permitted { IfOk result (λ shares. ArePermitted evaluation.now.terms evaluation.now.ids evaluation.now.shapes pairs.now (permitted_in shares.items)) }
    ensures looks { OnOk result (AddsAimLooks evaluation.now.terms evaluation.now.ids evaluation.now.shapes pairs.now footprint.old footprint.new) }
    ensures steps { OnOk result (StepsOfPairs evaluation.now.terms evaluation.now.ids evaluation.now.shapes pairs.now steps.old steps.new) }
    ensures counted { steps.old ≤ steps.new }
{
    let mut shares = Vec::new(evaluation.alloc());
    for chunk in pairs.chunks(SHARE) {
        let next = permitted_pairs(evaluation, chunk, footprint, steps)?;
        shares.push(Share { pairs: next })?;
    }
    Ok(shares)
}
