//! Pairs of a shape and a node with their results.
ghost use Rattle.std.specs.Prelude.{◌≡◌, ◌<◌, ◌≤◌, IfOk, OnOk, length};
ghost use Rattle.rdf_model.specs.Numbers.{AreNumbered, IsNumbering};
ghost use Rattle.shape_plans.specs.Planned.{ArePlanned};
ghost use Rattle.parallel_validate.specs.PairResults.{AddsPairLooks, ListsPair, StepsOfPair};
ghost use Rattle.parallel_validate.specs.PairsResults.{AddsLooksOfPairs, ArePlacedPairs, HaveRows, StepsOfPairs, pair_of};

use crate::pair::rows_of_pair;
use collections::Sequence;
use rdf_model::{Footprint, Names, Triples};
use shape_eval::{Evaluation, Matchers, Steps};
use shape_model::ResultRow;
use shape_plans::PlannedShapes;
use std::alloc::{AllocError, Global};
use std::sync::ledger::Ledger;

/// A pair of a shape, by its place, and a focus node with its results: none where it is no target of the shape.
#[derive(Debug, Drop)]
pub struct CheckedRows {
    pub shape: u32,
    pub focus: u32,
    pub rows: Sequence<ResultRow>,
}

// A pair with its results.
fn checked_rows<'a, R: Triples, N: Names, L: Ledger>(
    evaluation: &Evaluation<'a, R, N>,
    pair: (u32, u32),
    footprint: &mut Footprint,
    matchers: &mut Matchers<'a>,
    steps: &mut Steps<L>,
) -> Result<CheckedRows, AllocError>
    requires { (pair.0 < length evaluation.now.shapes) × (pair.1 < length evaluation.now.terms) }
    ensures pair { IfOk result (λ checked. pair_of checked ≡ pair) }
    ensures rows { IfOk result (λ checked. ListsPair evaluation.now.terms evaluation.now.ids evaluation.now.shapes pair.0 pair.1 checked.rows) }
    ensures looks { OnOk result (AddsPairLooks evaluation.now.terms evaluation.now.ids evaluation.now.shapes pair.0 pair.1 footprint.old footprint.new) }
    ensures steps { OnOk result (StepsOfPair evaluation.now.terms evaluation.now.ids evaluation.now.shapes pair.0 pair.1 steps.old steps.new) }
    ensures counted { steps.old ≤ steps.new }
{
    let (shape, focus) = pair;
    let rows = rows_of_pair(evaluation, pair, footprint, matchers, steps)?;
    Ok(CheckedRows {
        shape,
        focus,
        rows: Sequence::from_vec(rows),
    })
}

// The pairs with their results.
fn checked_pairs<R: Triples, N: Names, L: Ledger>(
    evaluation: &Evaluation<'_, R, N>,
    pairs: &[(u32, u32)],
    footprint: &mut Footprint,
    steps: &mut Steps<L>,
) -> Result<Vec<CheckedRows>, AllocError>
    requires { ArePlacedPairs evaluation.now.terms evaluation.now.shapes pairs.now }
    ensures rows { IfOk result (λ checked. HaveRows evaluation.now.terms evaluation.now.ids evaluation.now.shapes pairs.now checked.items) }
    ensures looks { OnOk result (AddsLooksOfPairs evaluation.now.terms evaluation.now.ids evaluation.now.shapes pairs.now footprint.old footprint.new) }
    ensures steps { OnOk result (StepsOfPairs evaluation.now.terms evaluation.now.ids evaluation.now.shapes pairs.now steps.old steps.new) }
    ensures counted { steps.old ≤ steps.new }
{
    let mut matchers = Matchers::new(evaluation.alloc());
    let mut checked = Vec::new(evaluation.alloc());
    for pair in pairs {
        let rows = checked_rows(evaluation, *pair, footprint, &mut matchers, steps)?;
        checked.push(rows)?;
    }
    Ok(checked)
}

/// The pairs with their results.
pub(crate) fn rows_of_pairs<R: Triples, N: Names, L: Ledger>(
    alloc: Global,
    graph: &R,
    names: &N,
    planned: &PlannedShapes,
    pairs: &[(u32, u32)],
    footprint: &mut Footprint,
    steps: &mut Steps<L>,
) -> Result<Vec<CheckedRows>, AllocError>
    requires numbering { IsNumbering (N.terms names.now) }
    requires graph { AreNumbered (N.terms names.now) (R.triples graph.now) }
    requires planned { ArePlanned (N.terms names.now) planned.now }
    requires placed { ArePlacedPairs (N.terms names.now) planned.now.bound.shapes pairs.now }
    ensures rows { IfOk result (λ checked. HaveRows (N.terms names.now) (R.triples graph.now) planned.now.bound.shapes pairs.now checked.items) }
    ensures looks { OnOk result (AddsLooksOfPairs (N.terms names.now) (R.triples graph.now) planned.now.bound.shapes pairs.now footprint.old footprint.new) }
    ensures steps { OnOk result (StepsOfPairs (N.terms names.now) (R.triples graph.now) planned.now.bound.shapes pairs.now steps.old steps.new) }
    ensures counted { steps.old ≤ steps.new }
{
    let evaluation = Evaluation::new(alloc, graph, names, planned.words, &planned.bound);
    checked_pairs(&evaluation, pairs, footprint, steps)
}
