//! The check of changes.
ghost use Rattle.std.specs.Prelude.{◌≤◌, IfOk, OnOk, map};
ghost use Rattle.rdf_model.specs.Numbers.{AreNumbered, IsNumbering};
ghost use Rattle.shape_plans.specs.Planned.{ArePlanned};
ghost use Rattle.parallel_validate.specs.PairsResults.{ArePlacedPairs, pair_of};
ghost use Rattle.parallel_validate.specs.Verdicts.{AreBoundLooks, CountsEvaluated, KeepsChecked, KeepsLooks, StandsBeside, WhereChecked};

use crate::evaluating::rows_of_pairs;
use collections::Sequence;
use focus_affected::touched;
use parallel_validate::Checked;
use rdf_model::{Footprint, Ids, Names, Triples};
use shape_eval::{Evaluation, Steps};
use shape_plans::PlannedShapes;
use std::alloc::{AllocError, Global};
use std::sync::ledger::Ledger;
use std::thread::Threads;

/// Finds the pairs that the changes touch, and evaluates those that are targets after them, whichever thread evaluates
/// which. `before` has the graph's triples before the changes, `later` after them, `changed` those that are added or removed,
/// whether the graph has them or not. The pairs are shared out among as many threads as there are processors; where they are
/// few, or none can be started, the caller does all.
///
/// Each evaluation is counted in `steps`; after an error the count is what it was, or more. It fails only for want of memory.
pub fn check_by_threads<
    R: Triples + Sync,
    S: Triples + Sync,
    N: Names + Sync,
    L: Ledger,
    T: Threads + Sync,
>(
    rt: &T,
    alloc: Global,
    before: &R,
    later: &S,
    names: &N,
    planned: &PlannedShapes,
    changed: &[Ids],
    steps: &mut Steps<L>,
) -> Result<Checked, AllocError>
    requires numbering { IsNumbering (N.terms names.now) }
    requires before { AreNumbered (N.terms names.now) (R.triples before.now) }
    requires later { AreNumbered (N.terms names.now) (S.triples later.now) }
    requires changed { AreNumbered (N.terms names.now) changed.now }
    requires planned { ArePlanned (N.terms names.now) planned.now }
    ensures checked { IfOk result (λ checked. WhereChecked (N.terms names.now) (R.triples before.now) (S.triples later.now) planned.now.bound.shapes changed.now (KeepsChecked (N.terms names.now) planned.now.bound.shapes checked.pairs)) }
    ensures placed { IfOk result (λ checked. ArePlacedPairs (N.terms names.now) planned.now.bound.shapes (map pair_of checked.pairs)) }
    ensures looks { IfOk result (λ checked. WhereChecked (N.terms names.now) (R.triples before.now) (S.triples later.now) planned.now.bound.shapes changed.now (KeepsLooks (N.terms names.now) checked.looks)) }
    ensures bound { IfOk result (λ checked. WhereChecked (N.terms names.now) (R.triples before.now) (S.triples later.now) planned.now.bound.shapes changed.now (λ g s net. AreBoundLooks (N.terms names.now) checked.looks)) }
    ensures beside { IfOk result (λ checked. WhereChecked (N.terms names.now) (R.triples before.now) (S.triples later.now) planned.now.bound.shapes changed.now (StandsBeside (N.terms names.now) planned.now.bound.shapes checked.pairs checked.looks)) }
    ensures steps { OnOk result (WhereChecked (N.terms names.now) (R.triples before.now) (S.triples later.now) planned.now.bound.shapes changed.now (CountsEvaluated steps.old steps.new)) }
    ensures counted { steps.old ≤ steps.new }
{
    let mut looks = Footprint::new(alloc);
    let pairs = touched(alloc, before, &planned.plans, changed, &mut looks)?;
    let evaluation = Evaluation::new(alloc, later, names, planned.words, &planned.bound);
    let checked = rows_of_pairs(rt, &evaluation, &pairs, &mut looks, steps)?;
    Ok(Checked {
        pairs: Sequence::from_vec(checked),
        looks,
    })
}
