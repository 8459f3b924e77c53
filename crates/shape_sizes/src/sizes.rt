//! The sizes of shapes, and which shapes are too large (rule 42).
ghost use Rattle.std.specs.Prelude.{◌≡◌, ◌↔◌, ◌<◌, ◌+◌, ◌^◌, IsTrue, IfOk};
ghost use Rattle.collections.specs.Listings.{IsListing};
ghost use Rattle.collections.specs.Ordered.{IsAscending};
ghost use Rattle.rdf_model.specs.Terms.{term_cmp, triple_cmp};
ghost use Rattle.shape_references.specs.Siblings.{IsReversed};
ghost use Rattle.shape_sizes.specs.Counted.{ArePlaces, AreShapePlaces, AreWeights, HaveNames, IsPlaceOf};
ghost use Rattle.shape_sizes.specs.Sizes.{IsTooLarge, size_limit};
ghost use Rattle.shape_sizes.specs.Surveys.{IsSurvey};
ghost use Rattle.shape_properties.specs.Syntax.{IsShape};

use crate::Survey;
use crate::counted::referred_shapes;
use crate::stand_ins::{named_parents, push_stand_ins};
use collections::Sequence;
use rdf_model::{Term, Triple};
use reference_totals::{WeightedPlace, total_of, totals};
use shape_syntax::IndexedGraph;
use std::alloc::{AllocError, Global};
use std::collections::BTreeMap;

fn place_of(
    alloc: Global,
    graph: &IndexedGraph,
    reversed: &[Triple],
    parents: &[Term],
    node: &Term,
) -> Result<WeightedPlace, AllocError>
    requires graph { IsAscending triple_cmp graph.now }
    requires reversed { IsListing triple_cmp (IsReversed graph.now) reversed.now }
    requires parents { HaveNames graph.now parents.now }
    requires node { IsShape graph.now node.now }
    ensures { IfOk result (λ place. IsPlaceOf graph.now (λ m w. w ≡ 1) parents.now place × (place.node ≡ node.now)) }
{
    let to = referred_shapes(alloc, graph, reversed, parents, node)?;
    Ok(WeightedPlace {
        node: node.clone()?,
        own: 1,
        to,
    })
}

// The places of the nodes.
fn places_of(
    alloc: Global,
    graph: &IndexedGraph,
    reversed: &[Triple],
    parents: &[Term],
    nodes: &[Term],
) -> Result<Sequence<WeightedPlace>, AllocError>
    requires graph { IsAscending triple_cmp graph.now }
    requires reversed { IsListing triple_cmp (IsReversed graph.now) reversed.now }
    requires parents { HaveNames graph.now parents.now }
    requires nodes { IsListing term_cmp (IsShape graph.now) nodes.now }
    ensures { IfOk result (λ places. AreShapePlaces graph.now (λ m w. w ≡ 1) parents.now places) }
{
    let mut places = Sequence::new(alloc);
    for node in nodes {
        places.push(place_of(alloc, graph, reversed, parents, node)?)?;
    }
    Ok(places)
}

// The places of the shapes, with those that stand in for what is under the parents.
fn all_places(
    alloc: Global,
    graph: &IndexedGraph,
    parents: &[Term],
    survey: &Survey,
) -> Result<Sequence<WeightedPlace>, AllocError>
    requires graph { IsAscending triple_cmp graph.now }
    requires parents { HaveNames graph.now parents.now }
    requires survey { IsSurvey graph.now survey.now }
    ensures { IfOk result (λ places. ArePlaces graph.now (λ m w. w ≡ 1) parents.now places) }
{
    let mut places = places_of(
        alloc,
        graph,
        survey.reversed.as_slice(),
        parents,
        survey.shapes.as_slice(),
    )?;
    push_stand_ins(alloc, graph, parents, &mut places)?;
    Ok(places)
}

#[tactic(auto, unfolding(crate::specs::Sizes::size_limit))]
fn most() -> u64
    ensures limit { result ≡ size_limit }
    ensures small { result + 1 < 2 ^ 64 }
{
    65_536
}

/// The sizes of the shapes, as far as they are counted: one more than the limit stands for all over it.
pub fn sizes_of(
    alloc: Global,
    graph: &IndexedGraph,
    survey: &Survey,
) -> Result<BTreeMap<Term, u64>, AllocError>
    requires graph { IsAscending triple_cmp graph.now }
    requires survey { IsSurvey graph.now survey.now }
    ensures { IfOk result (λ table. AreWeights graph.now (λ m w. w ≡ 1) size_limit table) }
{
    let parents = named_parents(alloc, graph, survey.shapes.as_slice())?;
    let places = all_places(alloc, graph, parents.as_slice(), survey)?;
    let table = totals(alloc, places.as_slice(), most())?;
    Ok(table)
}

/// Whether the shape is too large, by the table of sizes.
pub fn is_too_large(graph: &IndexedGraph, table: &BTreeMap<Term, u64>, node: &Term) -> bool
    requires table { AreWeights graph.now (λ m w. w ≡ 1) size_limit table.now }
    requires node { IsShape graph.now node.now }
    ensures { IsTrue result ↔ IsTooLarge graph.now node.now }
{
    match total_of(table, node) {
        Some(total) => total > most(),
        None => false,
    }
}
