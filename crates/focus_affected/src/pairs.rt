//! The pairs that changes touch.
ghost use Rattle.std.specs.Prelude.{◌≡◌, IfOk, OnOk, map};
ghost use Rattle.std.specs.List.{Contains};
ghost use Rattle.collections.specs.Listings.{Keeps};
ghost use Rattle.focus_affected.specs.declared.index.RowPlace.{RowPlace as PlaceData};
ghost use Rattle.focus_affected.specs.Finding.{FindsAt, FindsAtSome, WherePlans};
ghost use Rattle.focus_affected.specs.Index.{HasRow};
ghost use Rattle.focus_affected.specs.Touched.{AddsTouchLooks, ArePlaced, ListsTouched};

use crate::ShapePlan;
use crate::changes::ChangedTriples;
use crate::finding::found_by;
use crate::index::{IndexedPlans, RowPlace};
use collections::sorted_once;
use rdf_model::{Footprint, Ids, Triples};
use std::alloc::{AllocError, Global};

// The pairs of the place with each of the nodes.
fn pairs_of(alloc: Global, place: u32, nodes: &[u32]) -> Result<Vec<(u32, u32)>, AllocError>
    ensures { IfOk result (λ pairs. pairs.items ≡ map (λ n. (place, n)) nodes.now) }
{
    let mut pairs = Vec::new(alloc);
    for node in nodes {
        pairs.push((place, *node))?;
    }
    Ok(pairs)
}

// The pairs of the place of a row's plan and the nodes that are found by the row.
fn found_at<R: Triples>(
    alloc: Global,
    graph: &R,
    plans: &[ShapePlan],
    at: &RowPlace,
    changed: &ChangedTriples,
    footprint: &mut Footprint,
) -> Result<Vec<(u32, u32)>, AllocError>
    requires { HasRow plans.now at.now }
    ensures found { IfOk result (λ pairs. WherePlans (R.triples graph.now) plans.now changed.now (λ terms. FindsAt terms (R.triples graph.now) changed.now plans.now at.now pairs.items footprint.old footprint.new)) }
    ensures kept { Keeps footprint.old footprint.new }
{
    let plan = &plans[at.plan];
    let look = &plan.looks.as_slice()[at.look];
    let nodes = found_by(alloc, graph, look, changed, footprint)?;
    Ok(pairs_of(alloc, plan.place, &nodes)?)
}

// The pairs that are found by the rows at the places.
fn found_pairs<R: Triples>(
    alloc: Global,
    graph: &R,
    plans: &[ShapePlan],
    places: &[RowPlace],
    changed: &ChangedTriples,
    footprint: &mut Footprint,
) -> Result<Vec<(u32, u32)>, AllocError>
    requires { (at : PlaceData) → Contains places.now at → HasRow plans.now at }
    ensures found { IfOk result (λ pairs. WherePlans (R.triples graph.now) plans.now changed.now (λ terms. FindsAtSome terms (R.triples graph.now) changed.now plans.now places.now pairs.items footprint.old footprint.new)) }
    ensures kept { Keeps footprint.old footprint.new }
{
    let mut pairs = Vec::new(alloc);
    for place in places {
        let mut more = found_at(alloc, graph, plans, place, changed, footprint)?;
        pairs.append(&mut more)?;
    }
    Ok(pairs)
}

/// The touched pairs of a shape, by its place, and a focus node: those for which a changed triple, which the graph may have
/// or not, matches a row of the shape's looks at a node to which the focus node walks in the graph. Each stands once,
/// ascending. `changed` has the triples of the changes, `plans` the looks of each shape with a target declaration: of their
/// rows those alone are passed over that ask of the predicate of a changed triple, or of any predicate.
/// The footprint takes exactly the looks of each row's way reversed, from each node at which a changed triple
/// matches the row; it keeps what it had, also where memory runs out.
pub fn touched<R: Triples>(
    alloc: Global,
    graph: &R,
    plans: &IndexedPlans,
    changed: &[Ids],
    footprint: &mut Footprint,
) -> Result<Vec<(u32, u32)>, AllocError>
    ensures pairs { IfOk result (λ pairs. ListsTouched (R.triples graph.now) plans.now changed.now pairs.items) }
    ensures placed { IfOk result (λ pairs. ArePlaced (R.triples graph.now) plans.now changed.now pairs.items) }
    ensures looks { OnOk result (AddsTouchLooks (R.triples graph.now) plans.now changed.now footprint.old footprint.new) }
    ensures kept { Keeps footprint.old footprint.new }
{
    let triples = ChangedTriples::new(alloc, changed)?;
    let places = plans.rows_under(alloc, triples.predicates())?;
    let pairs = found_pairs(alloc, graph, plans.as_slice(), &places, &triples, footprint)?;
    Ok(sorted_once(pairs)?)
}
