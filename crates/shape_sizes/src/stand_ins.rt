//! Places that stand in for the qualified value shapes under a parent (SHACL section 4.7.3): each that may have siblings
//! there counts all of them, and they are summed up once.
ghost use Rattle.std.specs.Prelude.{◌≡◌, ◌≢◌, ℕ, IsTrue, IfOk, OnOk, length};
ghost use Rattle.std.specs.List.{Contains};
ghost use Rattle.collections.specs.Listings.{IsListing};
ghost use Rattle.collections.specs.Ordered.{IsAscending};
ghost use Rattle.rdf_model.specs.declared.term.Term.{Term as TermData};
ghost use Rattle.rdf_model.specs.declared.term.Term.TheVariants.{Blank};
ghost use Rattle.rdf_model.specs.Terms.{term_cmp, triple_cmp};
ghost use Rattle.shape_references.specs.Siblings.{IsQualifiedUnder};
ghost use Rattle.shape_properties.specs.Syntax.{IsShape};
ghost use Rattle.shape_sizes.specs.Counted.{HaveNames, HaveStandIns};

use collections::{Sequence, sorted_once};
use rdf_model::{Term, Triple};
use reference_totals::WeightedPlace;
use shape_references::{may_share, name_at, parent_nodes, qualified_under};
use shape_syntax::IndexedGraph;
use std::alloc::{AllocError, Global};

// Whether the node is none of the names, which are blank nodes of session 0.
fn is_apart(node: &Term) -> bool
    ensures { IsTrue result → (i : ℕ) → node.now ≢ Blank 0 i }
{
    match node {
        Term::Blank { session, number: _ } => *session != 0,
        _ => true,
    }
}

fn are_apart(nodes: &[Term]) -> bool
    ensures { IsTrue result → (n : TermData) → Contains nodes.now n → (i : ℕ) → n ≢ Blank 0 i }
{
    for node in nodes {
        if !is_apart(node) {
            return false;
        }
    }
    true
}

// Those of the nodes under which property shapes may have siblings.
fn parents_among(
    alloc: Global,
    graph: &IndexedGraph,
    nodes: &[Term],
) -> Result<Sequence<Term>, AllocError>
    requires { IsAscending triple_cmp graph.now }
{
    let mut parents = Sequence::new(alloc);
    for node in nodes {
        if may_share(graph, node) {
            parents.push(node.clone()?)?;
        }
    }
    Ok(parents)
}

fn all_parents(alloc: Global, graph: &IndexedGraph) -> Result<Vec<Term>, AllocError>
    requires { IsAscending triple_cmp graph.now }
    ensures { IfOk result (λ parents. IsAscending term_cmp parents.items) }
{
    let nodes = parent_nodes(alloc, graph)?;
    let sharing = parents_among(alloc, graph, nodes.as_slice())?;
    let sorted = sorted_once(sharing.into_vec())?;
    Ok(sorted)
}

/// The parents for which a place stands in, in order; none where a shape has the name of one, as no reader gives it. The
/// shapes are given.
pub(crate) fn named_parents(
    alloc: Global,
    graph: &IndexedGraph,
    shapes: &[Term],
) -> Result<Vec<Term>, AllocError>
    requires graph { IsAscending triple_cmp graph.now }
    requires shapes { IsListing term_cmp (IsShape graph.now) shapes.now }
    ensures { IfOk result (λ parents. HaveNames graph.now parents.items) }
{
    if are_apart(shapes) {
        let parents = all_parents(alloc, graph)?;
        return Ok(parents);
    }
    Ok(Vec::new(alloc))
}

// The place that stands in for what is under the parent with the number.
fn stand_in(
    alloc: Global,
    graph: &IndexedGraph,
    number: usize,
    parent: &Term,
) -> Result<WeightedPlace, AllocError>
    requires { IsAscending triple_cmp graph.now }
    ensures { IfOk result (λ made. (made.node ≡ Blank 0 number) × (made.own ≡ 0) × IsListing term_cmp (IsQualifiedUnder graph.now parent.now) made.to) }
{
    let to = qualified_under(alloc, graph, parent)?;
    Ok(WeightedPlace {
        node: name_at(0, number)?,
        own: 0,
        to: Sequence::from_vec(to),
    })
}

/// Adds the places that stand in for what is under the parents.
pub(crate) fn push_stand_ins(
    alloc: Global,
    graph: &IndexedGraph,
    parents: &[Term],
    places: &mut Sequence<WeightedPlace>,
) -> Result<(), AllocError>
    requires { IsAscending triple_cmp graph.now }
    ensures { OnOk result (HaveStandIns graph.now parents.now (length parents.now) places.old places.new) }
{
    for (number, parent) in parents.iter().enumerate() {
        places.push(stand_in(alloc, graph, number, parent)?)?;
    }
    Ok(())
}
