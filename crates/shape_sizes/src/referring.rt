//! References between shapes, the shapes from which they lead to themselves (SHACL section 3.4.3), and those from which
//! too many lead in a row.
ghost use Rattle.std.specs.Prelude.{◌≡◌, ◌⊎◌, ◌↔◌, ◌<◌, ◌+◌, ◌^◌, IfOk, OnOk, MatchOption};
ghost use Rattle.collections.specs.Ordered.{IsAscending};
ghost use Rattle.rdf_model.specs.declared.term.Term.{Term as TermData};
ghost use Rattle.rdf_model.specs.Terms.{triple_cmp};
ghost use Rattle.shape_references.specs.Bundles.{HasBound, IsBound};
ghost use Rattle.shape_references.specs.Siblings.{AreUnder};
ghost use Rattle.shape_model.specs.Limits.{levels_limit};
ghost use Rattle.shape_sizes.specs.References.{AreReferences, HasLongChain, IsLeastRecursive, IsLeastWithLongChain, IsRecursive};
ghost use Rattle.shape_sizes.specs.Referring.{IsReferredBy};

use collections::Sequence;
use rdf_model::{Term, Triple};
use shape_properties::shapes::push_taken;
use shape_references::{Bundle, ReferenceGraph, parent_nodes, push_sibling_bundle};
use shape_syntax::IndexedGraph;
use std::alloc::{AllocError, Global};

// Adds the references of the triple's subject by it.
fn push_direct(
    alloc: Global,
    graph: &IndexedGraph,
    triple: &Triple,
    bundles: &mut Sequence<Bundle>,
) -> Result<(), AllocError>
    requires { IsAscending triple_cmp graph.now }
    ensures { OnOk result ((a b : TermData) → IsBound bundles.new a b ↔ (IsBound bundles.old a b ⊎ IsReferredBy graph.now triple.now a b)) }
{
    let mut to = Sequence::new(alloc);
    push_taken(alloc, graph, triple, &mut to)?;
    if to.is_empty() {
        return Ok(());
    }
    let mut from = Sequence::new(alloc);
    from.push(triple.subject.clone()?)?;
    bundles.push(Bundle { from, to })?;
    Ok(())
}

// Adds the references by the triples.
fn push_all_direct(
    alloc: Global,
    graph: &IndexedGraph,
    bundles: &mut Sequence<Bundle>,
) -> Result<(), AllocError>
    requires { IsAscending triple_cmp graph.now }
    ensures { OnOk result (HasBound (IsReferredBy graph.now) graph.now bundles.old bundles.new) }
{
    for triple in graph.as_slice() {
        push_direct(alloc, graph, triple, bundles)?;
    }
    Ok(())
}

// Adds the references to siblings under the parents: one bundle for each, however many there are.
fn push_all_siblings(
    alloc: Global,
    graph: &IndexedGraph,
    parents: &[Term],
    bundles: &mut Sequence<Bundle>,
) -> Result<(), AllocError>
    requires { IsAscending triple_cmp graph.now }
    ensures { OnOk result (HasBound (AreUnder graph.now) parents.now bundles.old bundles.new) }
{
    for parent in parents {
        push_sibling_bundle(alloc, graph, parent, bundles)?;
    }
    Ok(())
}

/// The references between the shapes of the graph, in bundles.
pub fn references(alloc: Global, graph: &IndexedGraph) -> Result<Vec<Bundle>, AllocError>
    requires { IsAscending triple_cmp graph.now }
    ensures { IfOk result (λ references. AreReferences graph.now references.items) }
{
    let nodes = parent_nodes(alloc, graph)?;
    let mut bundles = Sequence::new(alloc);
    push_all_direct(alloc, graph, &mut bundles)?;
    push_all_siblings(alloc, graph, nodes.as_slice(), &mut bundles)?;
    Ok(bundles.into_vec())
}

/// The least shape from which a chain of references leads to itself, if there is one. The graph's `references` are given.
pub fn least_recursive(
    alloc: Global,
    graph: &IndexedGraph,
    references: &ReferenceGraph,
) -> Result<Option<Term>, AllocError>
    requires { AreReferences graph.now references.now }
    ensures { IfOk result (λ found. MatchOption found ((n : TermData) → IsRecursive graph.now n → ⊥) (λ n. IsLeastRecursive graph.now n)) }
{
    let found = references.least_on_loop(alloc)?;
    Ok(found)
}

// So many references in a row are too many.
#[tactic(auto, unfolding(shape_model::specs::Limits::levels_limit))]
fn too_many() -> usize
    ensures limit { result ≡ levels_limit }
    ensures some { 0 < result }
    ensures few { result + result < 2 ^ 64 }
{
    257
}

/// The least shape from which a chain of more than 256 references leads, if there is one. The graph's `references` are given.
pub fn least_with_long_chain(
    alloc: Global,
    graph: &IndexedGraph,
    references: &ReferenceGraph,
) -> Result<Option<Term>, AllocError>
    requires { AreReferences graph.now references.now }
    ensures { IfOk result (λ found. MatchOption found ((n : TermData) → HasLongChain graph.now n → ⊥) (λ n. IsLeastWithLongChain graph.now n)) }
{
    let found = references.least_with_chain(alloc, too_many())?;
    Ok(found)
}
