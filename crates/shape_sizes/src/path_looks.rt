//! The looks of paths. They are counted by the nodes that stand for paths, and not along the paths: a node that stands
//! in a path many times, or in many paths, is asked once.
ghost use Rattle.std.specs.Prelude.{◌≡◌, ◌⊎◌, ◌↔◌, ◌<◌, ◌+◌, ◌^◌, ◌∷◌, [], ◌++◌, ℕ, IsTrue, IfOk, OnOk, codes};
ghost use Rattle.std.specs.List.{Contains};
ghost use Rattle.collections.specs.Ordered.{IsAscending};
ghost use Rattle.rdf_model.specs.declared.term.Term.{Term as TermData};
ghost use Rattle.rdf_model.specs.Terms.{triple_cmp};
ghost use Rattle.shape_model.specs.Triples.{Has};
ghost use Rattle.shape_model.specs.Vocabulary.{rdf_first, sh};
ghost use Rattle.shape_syntax.specs.PathNodes.{ArePathNodes, IsPath};
ghost use Rattle.reference_totals.specs.declared.place.WeightedPlace.{WeightedPlace as PlaceData};
ghost use Rattle.reference_totals.specs.Totals.{capped};
ghost use Rattle.shape_properties.specs.declared.property.ShapeProperty.TheVariants as property_data;
ghost use Rattle.shape_properties.specs.Properties.{property_iri};
ghost use Rattle.shape_sizes.specs.PathLooks.{ArePathLooks, ArePathPlaces, IsMadeBy, IsMadeOf, IsPathPlace, LeadsToPath, MayBePath};
ghost use Rattle.shape_model.specs.Limits.{looks_limit};
ghost use Rattle.shape_sizes.specs.Sizes.{HasPathLooks};

use crate::counted::members_at;
use collections::{Sequence, sorted_once};
use rdf_model::{Term, Triple};
use reference_totals::{WeightedPlace, total_of, totals};
use shape_properties::ShapeProperty;
use shape_syntax::list::list_members;
use shape_syntax::lookup::triples_of;
use shape_syntax::paths::is_path;
use shape_syntax::terms::{is_iri, is_named};
use shape_syntax::{IndexedGraph, modifies_path};
use std::alloc::{AllocError, Global};
use std::collections::{BTreeMap, BTreeSet};
use vocabulary::{RDF_FIRST, SH_ALTERNATIVE_PATH};

#[tactic(auto, unfolding(shape_model::specs::Vocabulary::sh))]
fn is_alternative(predicate: &Term) -> bool
    ensures { IsTrue result ↔ (predicate.now ≡ sh (codes "alternativePath")) }
{
    is_named(predicate, SH_ALTERNATIVE_PATH)
}

#[tactic(auto, unfolding(shape_model::specs::Vocabulary::rdf, shape_model::specs::Vocabulary::rdf_first))]
fn is_first(predicate: &Term) -> bool
    ensures { IsTrue result ↔ (predicate.now ≡ rdf_first) }
{
    is_named(predicate, RDF_FIRST)
}

fn is_sh_path(predicate: &Term) -> bool
    ensures { IsTrue result ↔ (predicate.now ≡ property_iri property_data.Path) }
{
    is_named(predicate, ShapeProperty::Path.iri())
}

fn leads_to_path(predicate: &Term) -> bool
    ensures { IsTrue result ↔ LeadsToPath predicate.now }
{
    is_sh_path(predicate) || is_first(predicate) || modifies_path(predicate)
}

fn only(alloc: Global, node: &Term) -> Result<Sequence<Term>, AllocError>
    ensures { IfOk result (λ nodes. nodes ≡ node.now ∷ []) }
{
    let mut nodes = Sequence::new(alloc);
    nodes.push(node.clone()?)?;
    Ok(nodes)
}

// The nodes of whose paths the triple makes that of its subject.
fn made_by(
    alloc: Global,
    graph: &IndexedGraph,
    triple: &Triple,
) -> Result<Sequence<Term>, AllocError>
    requires { IsAscending triple_cmp graph.now }
    ensures { IfOk result (λ nodes. IsMadeBy graph.now triple.now.predicate triple.now.object nodes) }
{
    if is_alternative(&triple.predicate) {
        let members = members_at(alloc, graph, &triple.object)?;
        return Ok(members);
    }
    let value = only(alloc, &triple.object)?;
    Ok(value)
}

fn made_of_triple(
    alloc: Global,
    graph: &IndexedGraph,
    node: &Term,
) -> Result<Sequence<Term>, AllocError>
    requires { IsAscending triple_cmp graph.now }
    ensures { IfOk result (λ nodes. ((p : TermData) × (m : TermData) × Has graph.now node.now p m × IsMadeBy graph.now p m nodes)
        ⊎ (((p m : TermData) → Has graph.now node.now p m → ⊥) × (nodes ≡ []))) }
{
    match triples_of(graph, node).first() {
        Some(triple) => {
            let nodes = made_by(alloc, graph, triple)?;
            Ok(nodes)
        }
        None => Ok(Sequence::new(alloc)),
    }
}

// The nodes of whose paths that of the node is made.
fn made_of(alloc: Global, graph: &IndexedGraph, node: &Term) -> Result<Sequence<Term>, AllocError>
    requires { IsAscending triple_cmp graph.now }
    ensures { IfOk result (λ nodes. IsMadeOf graph.now node.now nodes) }
{
    match list_members(alloc, graph, node)? {
        Some(members) => Ok(members),
        None => {
            let nodes = made_of_triple(alloc, graph, node)?;
            Ok(nodes)
        }
    }
}

fn blank_place(
    alloc: Global,
    graph: &IndexedGraph,
    node: &Term,
) -> Result<WeightedPlace, AllocError>
    requires { IsAscending triple_cmp graph.now }
    ensures { IfOk result (λ place. (place.node ≡ node.now) × (place.own ≡ 0) × IsMadeOf graph.now node.now place.to) }
{
    let to = made_of(alloc, graph, node)?;
    Ok(WeightedPlace {
        node: node.clone()?,
        own: 0,
        to,
    })
}

fn iri_place(alloc: Global, node: &Term) -> Result<WeightedPlace, AllocError>
    ensures { IfOk result (λ place. (place.node ≡ node.now) × (place.own ≡ 1) × (place.to ≡ [])) }
{
    Ok(WeightedPlace {
        node: node.clone()?,
        own: 1,
        to: Sequence::new(alloc),
    })
}

fn path_place(alloc: Global, graph: &IndexedGraph, node: &Term) -> Result<WeightedPlace, AllocError>
    requires graph { IsAscending triple_cmp graph.now }
    requires path { IsPath graph.now node.now }
    ensures { IfOk result (λ place. IsPathPlace graph.now place × (place.node ≡ node.now)) }
{
    if is_iri(node) {
        let place = iri_place(alloc, node)?;
        return Ok(place);
    }
    let place = blank_place(alloc, graph, node)?;
    Ok(place)
}

// Adds the place of the node, if it stands for a path.
fn push_path_place(
    alloc: Global,
    graph: &IndexedGraph,
    paths: &BTreeSet<Term>,
    node: &Term,
    places: &mut Sequence<WeightedPlace>,
) -> Result<(), AllocError>
    requires graph { IsAscending triple_cmp graph.now }
    requires paths { ArePathNodes graph.now paths.now.keys }
    ensures { OnOk result (((p : PlaceData) × IsPathPlace graph.now p × (p.node ≡ node.now) × (places.new ≡ places.old ++ p ∷ []))
        ⊎ ((IsPath graph.now node.now → ⊥) × (places.new ≡ places.old))) }
{
    if is_path(graph, paths, node) {
        places.push(path_place(alloc, graph, node)?)?;
        return Ok(());
    }
    Ok(())
}

fn places_of(
    alloc: Global,
    graph: &IndexedGraph,
    paths: &BTreeSet<Term>,
    nodes: &[Term],
) -> Result<Sequence<WeightedPlace>, AllocError>
    requires graph { IsAscending triple_cmp graph.now }
    requires paths { ArePathNodes graph.now paths.now.keys }
    requires nodes { (n : TermData) → Contains nodes.now n ↔ MayBePath graph.now n }
    ensures { IfOk result (λ places. ArePathPlaces graph.now places) }
{
    let mut places = Sequence::new(alloc);
    for node in nodes {
        push_path_place(alloc, graph, paths, node, &mut places)?;
    }
    Ok(places)
}

fn push_path_value(triple: &Triple, nodes: &mut Sequence<Term>) -> Result<(), AllocError>
    ensures { OnOk result ((n : TermData) → Contains nodes.new n
        ↔ (Contains nodes.old n ⊎ (LeadsToPath triple.now.predicate × (triple.now.object ≡ n)))) }
{
    if leads_to_path(&triple.predicate) {
        nodes.push(triple.object.clone()?)?;
        return Ok(());
    }
    Ok(())
}

// The values that may stand for paths, each once.
fn path_values(alloc: Global, graph: &IndexedGraph) -> Result<Vec<Term>, AllocError>
    ensures { IfOk result (λ nodes. (n : TermData) → Contains nodes.items n ↔ MayBePath graph.now n) }
{
    let mut nodes = Sequence::new(alloc);
    for triple in graph.as_slice() {
        push_path_value(triple, &mut nodes)?;
    }
    let sorted = sorted_once(nodes.into_vec())?;
    Ok(sorted)
}

/// The limit of rule 40.
#[tactic(auto, unfolding(shape_model::specs::Limits::looks_limit))]
pub(crate) fn most_looks() -> u64
    ensures limit { result ≡ looks_limit }
    ensures small { result + 1 < 2 ^ 64 }
{
    4096
}

/// The places of the values that stand for paths. The graph's `path_nodes` are given.
pub(crate) fn path_places(
    alloc: Global,
    graph: &IndexedGraph,
    paths: &BTreeSet<Term>,
) -> Result<Sequence<WeightedPlace>, AllocError>
    requires graph { IsAscending triple_cmp graph.now }
    requires paths { ArePathNodes graph.now paths.now.keys }
    ensures { IfOk result (λ places. ArePathPlaces graph.now places) }
{
    let nodes = path_values(alloc, graph)?;
    let places = places_of(alloc, graph, paths, nodes.as_slice())?;
    Ok(places)
}

/// The looks of the paths for which values stand (one for each predicate in them), as far as they are counted: one more
/// than `most` stands for all that are over it. The places of these values are given, as a `Survey` has them.
pub fn path_looks(
    alloc: Global,
    graph: &IndexedGraph,
    places: &[WeightedPlace],
    most: u64,
) -> Result<BTreeMap<Term, u64>, AllocError>
    requires places { ArePathPlaces graph.now places.now }
    requires most { most + 1 < 2 ^ 64 }
    ensures { IfOk result (λ table. ArePathLooks graph.now most table) }
{
    let table = totals(alloc, places, most)?;
    Ok(table)
}

/// The looks of the path for which the value stands, as far as they are counted; none where it stands for none.
pub(crate) fn path_looks_at(graph: &IndexedGraph, table: &BTreeMap<Term, u64>, node: &Term) -> u64
    requires table { ArePathLooks graph.now looks_limit table.now }
    requires node { MayBePath graph.now node.now }
    ensures { (k : ℕ) × HasPathLooks graph.now node.now k × (result ≡ capped looks_limit k) }
{
    match total_of(table, node) {
        Some(total) => total,
        None => 0,
    }
}
