//! The looks of shapes, and which shapes have too many (rule 40).
ghost use Rattle.std.specs.Prelude.{◌≡◌, ◌↔◌, ◌<◌, ◌+◌, ◌*◌, ℕ, IsTrue, IfOk, length};
ghost use Rattle.std.specs.List.{Contains};
ghost use Rattle.collections.specs.Listings.{IsListing};
ghost use Rattle.collections.specs.Ordered.{IsAscending};
ghost use Rattle.rdf_model.specs.declared.triple.Triple.{Triple as TripleData};
ghost use Rattle.rdf_model.specs.Terms.{term_cmp, triple_cmp};
ghost use Rattle.shape_model.specs.Instances.{Instance};
ghost use Rattle.shape_model.specs.Triples.{IsMember};
ghost use Rattle.shape_model.specs.Vocabulary.{rdfs_class, true_literal};
ghost use Rattle.shape_references.specs.Siblings.{IsReversed};
ghost use Rattle.reference_totals.specs.Totals.{SumBy, capped};
ghost use Rattle.shape_properties.specs.declared.property.ShapeProperty.TheVariants as property_data;
ghost use Rattle.shape_sizes.specs.Counted.{ArePlaces, AreShapePlaces, AreWeights, HaveNames, IsPlaceOf};
ghost use Rattle.shape_sizes.specs.PathLooks.{ArePathLooks, IsCappedLook};
ghost use Rattle.shape_model.specs.Limits.{looks_limit};
ghost use Rattle.shape_sizes.specs.Sizes.{CountsIf, HasOwnLooks, HasPathLooks, HasTargetLooks, HasTooManyLooks, IsLookWeight};
ghost use Rattle.shape_sizes.specs.Sizes as sizes;
ghost use Rattle.shape_sizes.specs.Surveys.{IsSurvey};
ghost use Rattle.shape_properties.specs.Syntax.{HasProperty, IsShape};

use crate::Survey;
use crate::counted::{is_deactivated, is_true_at, referred_shapes, values_at};
use crate::path_looks::{most_looks, path_looks, path_looks_at};
use crate::stand_ins::{named_parents, push_stand_ins};
use collections::Sequence;
use rdf_model::{Term, Triple};
use reference_totals::{WeightedPlace, capped_sum, total_of, totals};
use shape_properties::ShapeProperty;
use shape_properties::terms::has_class;
use shape_syntax::IndexedGraph;
use shape_syntax::instance::classes_of;
use shape_syntax::lookup::triples_of;
use std::alloc::{AllocError, Global};
use std::collections::BTreeMap;
use vocabulary::RDFS_CLASS;

fn count_at(
    alloc: Global,
    graph: &[Triple],
    node: &Term,
    property: ShapeProperty,
) -> Result<u64, AllocError>
    requires { IsAscending triple_cmp graph.now }
    ensures { IfOk result (λ count. count ≡ length (sizes.values graph.now node.now property)) }
{
    let found = values_at(alloc, graph, node, property)?;
    Ok(found.len() as u64)
}

// The sum, and one for each value of the property.
fn with_one_each(
    alloc: Global,
    graph: &[Triple],
    node: &Term,
    property: ShapeProperty,
    sum: u64,
) -> Result<u64, AllocError>
    requires { IsAscending triple_cmp graph.now }
    ensures { IfOk result (λ more. more ≡ capped looks_limit (sum + length (sizes.values graph.now node.now property))) }
{
    let count = count_at(alloc, graph, node, property)?;
    Ok(capped_sum(sum, count, most_looks()))
}

// The sum, and two for each value of the property.
fn with_two_each(
    alloc: Global,
    graph: &[Triple],
    node: &Term,
    property: ShapeProperty,
    sum: u64,
) -> Result<u64, AllocError>
    requires { IsAscending triple_cmp graph.now }
    ensures { IfOk result (λ more. more ≡ capped looks_limit (sum + 2 * length (sizes.values graph.now node.now property))) }
{
    let count = count_at(alloc, graph, node, property)?;
    let once = capped_sum(sum, count, most_looks());
    Ok(capped_sum(once, count, most_looks()))
}

// The sum, and one for each property that is compared.
fn with_compared(alloc: Global, graph: &[Triple], node: &Term, sum: u64) -> Result<u64, AllocError>
    requires { IsAscending triple_cmp graph.now }
    ensures { IfOk result (λ more. more ≡ capped looks_limit (sum
        + length (sizes.values graph.now node.now property_data.Equals) + length (sizes.values graph.now node.now property_data.Disjoint)
        + length (sizes.values graph.now node.now property_data.LessThan) + length (sizes.values graph.now node.now property_data.LessThanOrEquals))) }
{
    let equal = with_one_each(alloc, graph, node, ShapeProperty::Equals, sum)?;
    let apart = with_one_each(alloc, graph, node, ShapeProperty::Disjoint, equal)?;
    let less = with_one_each(alloc, graph, node, ShapeProperty::LessThan, apart)?;
    let all = with_one_each(alloc, graph, node, ShapeProperty::LessThanOrEquals, less)?;
    Ok(all)
}

fn closed_looks(graph: &[Triple], node: &Term) -> u64
    requires { IsAscending triple_cmp graph.now }
    ensures { CountsIf (HasProperty graph.now node.now property_data.Closed true_literal) 1 result }
{
    if is_true_at(graph, node, ShapeProperty::Closed) {
        1
    } else {
        0
    }
}

// The looks of the node's path. The node's triples are given.
fn looks_of_paths(
    alloc: Global,
    graph: &IndexedGraph,
    paths: &BTreeMap<Term, u64>,
    own: &[Triple],
    node: &Term,
) -> Result<u64, AllocError>
    requires graph { IsAscending triple_cmp graph.now }
    requires paths { ArePathLooks graph.now looks_limit paths.now }
    requires own { IsAscending triple_cmp own.now }
    requires members { (t : TripleData) → Contains own.now t ↔ (Contains graph.now t × (t.subject ≡ node.now)) }
    ensures { IfOk result (λ sum. (k : ℕ) × SumBy (HasPathLooks graph.now) (sizes.values own.now node.now property_data.Path) k
        × (sum ≡ capped looks_limit k)) }
{
    let found = values_at(alloc, own, node, ShapeProperty::Path)?;
    let mut sum = 0;
    for value in found.as_slice() {
        sum = capped_sum(sum, path_looks_at(graph, paths, value), most_looks());
    }
    Ok(sum)
}

// The looks of a node that isn't deactivated, without those of the shapes to which it refers. Its triples are given.
fn own_looks(
    alloc: Global,
    graph: &IndexedGraph,
    paths: &BTreeMap<Term, u64>,
    own: &[Triple],
    node: &Term,
) -> Result<u64, AllocError>
    requires graph { IsAscending triple_cmp graph.now }
    requires paths { ArePathLooks graph.now looks_limit paths.now }
    requires own { IsAscending triple_cmp own.now }
    requires members { (t : TripleData) → Contains own.now t ↔ (Contains graph.now t × (t.subject ≡ node.now)) }
    ensures { IfOk result (λ sum. (k : ℕ) × HasOwnLooks graph.now node.now k × (sum ≡ capped looks_limit k)) }
{
    let path = looks_of_paths(alloc, graph, paths, own, node)?;
    let classes = with_two_each(alloc, own, node, ShapeProperty::Class, path)?;
    let compared = with_compared(alloc, own, node, classes)?;
    Ok(capped_sum(compared, closed_looks(own, node), most_looks()))
}

fn look_weight(
    alloc: Global,
    graph: &IndexedGraph,
    paths: &BTreeMap<Term, u64>,
    node: &Term,
) -> Result<u64, AllocError>
    requires graph { IsAscending triple_cmp graph.now }
    requires paths { ArePathLooks graph.now looks_limit paths.now }
    ensures { IfOk result (λ own. IsCappedLook graph.now node.now own) }
{
    let own = triples_of(graph, node);
    if is_deactivated(own, node) {
        return Ok(0);
    }
    let looks = own_looks(alloc, graph, paths, own, node)?;
    Ok(looks)
}

fn look_place(
    alloc: Global,
    graph: &IndexedGraph,
    reversed: &[Triple],
    parents: &[Term],
    paths: &BTreeMap<Term, u64>,
    node: &Term,
) -> Result<WeightedPlace, AllocError>
    requires graph { IsAscending triple_cmp graph.now }
    requires reversed { IsListing triple_cmp (IsReversed graph.now) reversed.now }
    requires parents { HaveNames graph.now parents.now }
    requires paths { ArePathLooks graph.now looks_limit paths.now }
    requires node { IsShape graph.now node.now }
    ensures { IfOk result (λ place. IsPlaceOf graph.now (IsCappedLook graph.now) parents.now place × (place.node ≡ node.now)) }
{
    let to = referred_shapes(alloc, graph, reversed, parents, node)?;
    let own = look_weight(alloc, graph, paths, node)?;
    Ok(WeightedPlace {
        node: node.clone()?,
        own,
        to,
    })
}

// The places of the nodes.
fn look_places(
    alloc: Global,
    graph: &IndexedGraph,
    reversed: &[Triple],
    parents: &[Term],
    paths: &BTreeMap<Term, u64>,
    nodes: &[Term],
) -> Result<Sequence<WeightedPlace>, AllocError>
    requires graph { IsAscending triple_cmp graph.now }
    requires reversed { IsListing triple_cmp (IsReversed graph.now) reversed.now }
    requires parents { HaveNames graph.now parents.now }
    requires paths { ArePathLooks graph.now looks_limit paths.now }
    requires nodes { IsListing term_cmp (IsShape graph.now) nodes.now }
    ensures { IfOk result (λ places. AreShapePlaces graph.now (IsCappedLook graph.now) parents.now places) }
{
    let mut places = Sequence::new(alloc);
    for node in nodes {
        places.push(look_place(alloc, graph, reversed, parents, paths, node)?)?;
    }
    Ok(places)
}

// The places of the shapes alone.
fn all_look_places(
    alloc: Global,
    graph: &IndexedGraph,
    parents: &[Term],
    survey: &Survey,
) -> Result<Sequence<WeightedPlace>, AllocError>
    requires graph { IsAscending triple_cmp graph.now }
    requires parents { HaveNames graph.now parents.now }
    requires survey { IsSurvey graph.now survey.now }
    ensures { IfOk result (λ places. AreShapePlaces graph.now (IsCappedLook graph.now) parents.now places) }
{
    let paths = path_looks(alloc, graph, survey.places.as_slice(), most_looks())?;
    let places = look_places(
        alloc,
        graph,
        survey.reversed.as_slice(),
        parents,
        &paths,
        survey.shapes.as_slice(),
    )?;
    Ok(places)
}

// The places of looks with those that stand in for what is under the parents.
fn with_stand_ins(
    alloc: Global,
    graph: &IndexedGraph,
    parents: &[Term],
    survey: &Survey,
) -> Result<Sequence<WeightedPlace>, AllocError>
    requires graph { IsAscending triple_cmp graph.now }
    requires parents { HaveNames graph.now parents.now }
    requires survey { IsSurvey graph.now survey.now }
    ensures { IfOk result (λ places. ArePlaces graph.now (IsCappedLook graph.now) parents.now places) }
{
    let mut places = all_look_places(alloc, graph, parents, survey)?;
    push_stand_ins(alloc, graph, parents, &mut places)?;
    Ok(places)
}

/// The looks of the shapes without those of their targets, as far as they are counted.
pub fn looks_of_results(
    alloc: Global,
    graph: &IndexedGraph,
    survey: &Survey,
) -> Result<BTreeMap<Term, u64>, AllocError>
    requires graph { IsAscending triple_cmp graph.now }
    requires survey { IsSurvey graph.now survey.now }
    ensures { IfOk result (λ table. AreWeights graph.now (IsLookWeight graph.now) looks_limit table) }
{
    let parents = named_parents(alloc, graph, survey.shapes.as_slice())?;
    let places = with_stand_ins(alloc, graph, parents.as_slice(), survey)?;
    let table = totals(alloc, places.as_slice(), most_looks())?;
    Ok(table)
}

#[tactic(auto, unfolding(shape_model::specs::Vocabulary::rdfs_class))]
fn is_class(classes: &[Term]) -> bool
    ensures { IsTrue result ↔ IsMember classes.now rdfs_class }
{
    has_class(classes, RDFS_CLASS)
}

fn implicit_looks(alloc: Global, graph: &IndexedGraph, node: &Term) -> Result<u64, AllocError>
    requires { IsAscending triple_cmp graph.now }
    ensures { IfOk result (λ looks. CountsIf (Instance graph.now node.now rdfs_class) 2 looks) }
{
    let classes = classes_of(alloc, graph, node)?;
    if is_class(classes.as_slice()) {
        return Ok(2);
    }
    Ok(0)
}

// The sum, and the looks of the node's targets.
fn with_targets(
    alloc: Global,
    graph: &IndexedGraph,
    node: &Term,
    sum: u64,
) -> Result<u64, AllocError>
    requires { IsAscending triple_cmp graph.now }
    ensures { IfOk result (λ more. (k : ℕ) × HasTargetLooks graph.now node.now k × (more ≡ capped looks_limit (sum + k))) }
{
    let own = triples_of(graph, node);
    let implicit = implicit_looks(alloc, graph, node)?;
    let classes = with_two_each(alloc, own, node, ShapeProperty::TargetClass, sum)?;
    let both = capped_sum(classes, implicit, most_looks());
    let subjects = with_one_each(alloc, own, node, ShapeProperty::TargetSubjectsOf, both)?;
    let all = with_one_each(alloc, own, node, ShapeProperty::TargetObjectsOf, subjects)?;
    Ok(all)
}

/// Whether the shape has too many looks, those of its targets included, by the table of its looks.
pub fn has_too_many_looks(
    alloc: Global,
    graph: &IndexedGraph,
    table: &BTreeMap<Term, u64>,
    node: &Term,
) -> Result<bool, AllocError>
    requires graph { IsAscending triple_cmp graph.now }
    requires table { AreWeights graph.now (IsLookWeight graph.now) looks_limit table.now }
    requires node { IsShape graph.now node.now }
    ensures { IfOk result (λ many. IsTrue many ↔ HasTooManyLooks graph.now node.now) }
{
    match total_of(table, node) {
        Some(total) => {
            let looks = with_targets(alloc, graph, node, total)?;
            Ok(looks > most_looks())
        }
        None => Ok(false),
    }
}
