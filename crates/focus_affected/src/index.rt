//! The rows of plans by the predicates that they ask of.
ghost use Rattle.std.specs.Prelude.{◌≡◌, ◌↔◌, ◌⊎◌, ◌<◌, ◌+◌, ◌++◌, [], IfOk, OnOk, length, map};
ghost use Rattle.std.specs.List.{Contains};
ghost use Rattle.std.specs.List.Sorted.{IsNonDecreasingBy};
ghost use Rattle.focus_affected.specs.declared.plan.NumberedKind.{NumberedKind as KindData};
ghost use Rattle.focus_affected.specs.declared.index.IndexedRow.{IndexedRow as RowData};
ghost use Rattle.focus_affected.specs.declared.index.RowPlace.{RowPlace as PlaceData};
ghost use Rattle.focus_affected.specs.Index.{IsAskedOf, IsBefore, IsKindAt, ListsRows, any_added, indexed, rows_added};

use crate::runs::{UnderPredicate, with_predicate};
use crate::{NumberedKind, ShapePlan};
use std::alloc::{AllocError, Global};
use std::marker::Model;

/// Where a row of looks stands: the place of its plan among the plans, and its own among the rows of the plan.
#[derive(Clone, Copy, Debug)]
pub(crate) struct RowPlace {
    pub(crate) plan: usize,
    pub(crate) look: usize,
}

/// The place of a row that asks triples with one predicate alone.
#[derive(Clone, Copy, Debug)]
pub(crate) struct IndexedRow {
    pub(crate) predicate: u32,
    pub(crate) at: RowPlace,
}

impl UnderPredicate for IndexedRow {
    ghost under = { λ r. r.predicate };

    fn predicate(&self) -> u32 {
        self.predicate
    }
}

/// Plans whose rows are found by the predicates that they ask of. Contracts see the list of the plans.
#[derive(Debug, Drop)]
pub struct IndexedPlans {
    plans: Vec<ShapePlan>,
    // The places of the rows that ask triples with one predicate, in the order of their predicates.
    rows: Vec<IndexedRow>,
    // Those of the rows that ask all triples of a node.
    any: Vec<RowPlace>,
}

impl Model for IndexedPlans {
    ghost use Rattle.std.specs.Prelude.{List};
    ghost use Rattle.std.specs.List.Sorted.{IsNonDecreasingBy};
    ghost use Rattle.focus_affected.specs.declared.plan.ShapePlan.{ShapePlan as PlanData};
    ghost use Rattle.focus_affected.specs.declared.index.IndexedRow.{IndexedRow as RowData};
    ghost use Rattle.focus_affected.specs.Index.{IsKindAt, ListsRows};

    ghost Value = { List PlanData };

    ghost use Rattle.std.specs.Coded.{codes};
    ghost use Rattle.focus_affected.specs.contracts.plan.ShapePlan as plan_rows;

    ghost coded = { Prim.hlevel (codes, plan_rows.the_row.coded) };

    ghost view = { λ p. p.plans.items };

    ghost invariant = { λ p. IsNonDecreasingBy (λ (r : RowData). r.predicate) p.rows.items × ListsRows (IsKindAt p.plans.items) p.rows.items p.any.items };
}

// Adds the place of a row under what it asks of.
fn push_row(
    rows: &mut Vec<IndexedRow>,
    any: &mut Vec<RowPlace>,
    kind: NumberedKind,
    at: RowPlace,
) -> Result<(), AllocError>
    ensures rows { OnOk result (rows.new.items ≡ rows.old.items ++ rows_added kind at) }
    ensures any { OnOk result (any.new.items ≡ any.old.items ++ any_added kind at) }
{
    match kind {
        NumberedKind::Out(predicate) => rows.push(IndexedRow { predicate, at })?,
        NumberedKind::In(predicate) => rows.push(IndexedRow { predicate, at })?,
        NumberedKind::OutAny => any.push(at)?,
    }
    Ok(())
}

// Adds the places of all rows of a plan.
fn push_plan(
    rows: &mut Vec<IndexedRow>,
    any: &mut Vec<RowPlace>,
    plans: &[ShapePlan],
    plan: usize,
) -> Result<(), AllocError>
    requires { plan < length plans.now }
    ensures { OnOk result (ListsRows (λ at kind. IsBefore plan 0 at × IsKindAt plans.now at kind) rows.old.items any.old.items → ListsRows (λ at kind. IsBefore (plan + 1) 0 at × IsKindAt plans.now at kind) rows.new.items any.new.items) }
{
    let looks = plans[plan].looks.as_slice();
    for look in 0..looks.len() {
        push_row(rows, any, looks[look].kind, RowPlace { plan, look })?;
    }
    Ok(())
}

// Adds the places of all rows of all plans.
fn push_plans(
    rows: &mut Vec<IndexedRow>,
    any: &mut Vec<RowPlace>,
    plans: &[ShapePlan],
) -> Result<(), AllocError>
    requires { (rows.old.items ≡ []) × (any.old.items ≡ []) }
    ensures { OnOk result (ListsRows (IsKindAt plans.now) rows.new.items any.new.items) }
{
    for plan in 0..plans.len() {
        push_plan(rows, any, plans, plan)?;
    }
    Ok(())
}

// The rows in the order of their predicates.
fn in_order(rows: Vec<IndexedRow>) -> Result<Vec<IndexedRow>, AllocError>
    ensures same { IfOk result (λ sorted. (r : RowData) → Contains sorted.items r ↔ Contains rows.items r) }
    ensures ordered { IfOk result (λ sorted. IsNonDecreasingBy (λ (r : RowData). r.predicate) sorted.items) }
{
    let mut sorted = rows;
    sorted.sort_by_key(
        |row: &IndexedRow| -> u32
            ensures { result ≡ row.now.predicate }
        { row.predicate },
    )?;
    Ok(sorted)
}

// The places of rows in a list of their own.
fn copied(alloc: Global, places: &[RowPlace]) -> Result<Vec<RowPlace>, AllocError>
    ensures { IfOk result (λ copy. copy.items ≡ places.now) }
{
    let mut copy = Vec::new(alloc);
    copy.extend_from_slice(places)?;
    Ok(copy)
}

// Adds the places of the rows.
fn push_places(places: &mut Vec<RowPlace>, rows: &[IndexedRow]) -> Result<(), AllocError>
    ensures { OnOk result (places.new.items ≡ places.old.items ++ map (λ (r : RowData). r.at) rows.now) }
{
    for row in rows {
        places.push(row.at)?;
    }
    Ok(())
}

// Adds the places of the rows under the predicate.
fn push_under(
    places: &mut Vec<RowPlace>,
    rows: &[IndexedRow],
    predicate: u32,
) -> Result<(), AllocError>
    requires { IsNonDecreasingBy (λ (r : RowData). r.predicate) rows.now }
    ensures { OnOk result ((at : PlaceData) → Contains places.new.items at ↔ (Contains places.old.items at ⊎ Contains rows.now (indexed predicate at))) }
{
    push_places(places, with_predicate(rows, predicate))?;
    Ok(())
}

impl IndexedPlans {
    /// The plans. An index of their rows is made. It fails only for want of memory.
    pub fn new(alloc: Global, plans: Vec<ShapePlan>) -> Result<IndexedPlans, AllocError>
        ensures { IfOk result (λ indexed. indexed ≡ plans.items) }
    {
        let mut rows = Vec::new(alloc);
        let mut any = Vec::new(alloc);
        push_plans(&mut rows, &mut any, &plans)?;
        let sorted = in_order(rows)?;
        Ok(IndexedPlans {
            plans,
            rows: sorted,
            any,
        })
    }

    /// The plans. It takes no memory.
    pub fn as_slice(&self) -> &[ShapePlan]
        ensures { result.now ≡ self.now }
    {
        self.plans.as_slice()
    }

    /// The places of just the rows that a triple with one of the predicates can match. It passes over no other row.
    pub(crate) fn rows_under(
        &self,
        alloc: Global,
        predicates: &[u32],
    ) -> Result<Vec<RowPlace>, AllocError>
        ensures { IfOk result (λ places. (at : PlaceData) → Contains places.items at ↔ ((kind : KindData) × IsKindAt self.now at kind × IsAskedOf predicates.now kind)) }
    {
        let mut places = copied(alloc, &self.any)?;
        for predicate in predicates {
            push_under(&mut places, &self.rows, *predicate)?;
        }
        Ok(places)
    }
}
