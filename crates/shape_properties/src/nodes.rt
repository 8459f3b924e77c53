//! One node of a shapes graph: whether it is a shape, and its parameters (SHACL section 2.1).
ghost use Rattle.std.specs.Prelude.{◌≡◌, ◌⊎◌, ◌↔◌, IsTrue, IfOk, OnOk, map};
ghost use Rattle.std.specs.List.{Contains};
ghost use Rattle.collections.specs.Ordered.{IsAscending};
ghost use Rattle.rdf_model.specs.declared.term.Term.{Term as TermData};
ghost use Rattle.rdf_model.specs.Terms.{triple_cmp};
ghost use Rattle.shape_model.specs.Parameters.{Param};
ghost use Rattle.shape_model.specs.ShapeSyntax.{IsShape};
ghost use Rattle.shape_properties.specs.Adding.{MayAdd};
ghost use Rattle.shape_properties.specs.Params.{OfParam, SaysParam, is_param, param_triple};

use crate::shapes::shape_nodes;
use crate::{Role, property_of};
use rdf_model::{Term, Triple};
use shape_syntax::IndexedGraph;
use shape_syntax::lookup::{is_listed, triples_of};
use std::alloc::{AllocError, Global};

/// Whether the node is a shape (SHACL section 2.1).
pub fn is_shape(alloc: Global, graph: &IndexedGraph, node: &Term) -> Result<bool, AllocError>
    requires { IsAscending triple_cmp graph.now }
    ensures { IfOk result (λ shape. IsTrue shape ↔ IsShape graph.now node.now) }
{
    let nodes = shape_nodes(alloc, graph)?;
    Ok(is_listed(nodes.as_slice(), node))
}

fn is_param_by(role: Role) -> bool
    ensures { result ≡ is_param role }
{
    match role {
        Role::ExpectsShape | Role::TakesShapes | Role::Parameter => true,
        Role::DeclaresTargets | Role::Other => false,
    }
}

fn has_param(triple: &Triple) -> bool
    ensures { IsTrue result ↔ OfParam triple.now }
{
    match property_of(&triple.predicate) {
        Some(property) => is_param_by(property.role()),
        None => false,
    }
}

// Adds the parameter that the triple says, if it says one.
fn push_param(triple: &Triple, params: &mut Vec<(Term, Term)>) -> Result<(), AllocError>
    ensures said { OnOk result ((x : TermData × TermData) → Contains params.new.items x ↔ (Contains params.old.items x ⊎ SaysParam triple.now x)) }
    ensures by { OnOk result (MayAdd triple.now (map (param_triple triple.now.subject) params.old.items) (map (param_triple triple.now.subject) params.new.items)) }
{
    if has_param(triple) {
        params.push((triple.predicate.clone()?, triple.object.clone()?))?;
        return Ok(());
    }
    Ok(())
}

/// The parameters of the node, each with its value (SHACL section 2.1), in the order of the triples that say them.
pub fn params(
    alloc: Global,
    graph: &IndexedGraph,
    node: &Term,
) -> Result<Vec<(Term, Term)>, AllocError>
    requires { IsAscending triple_cmp graph.now }
    ensures params { IfOk result (λ params. (p v : TermData) → Contains params.items (p, v) ↔ Param graph.now node.now p v) }
    ensures order { IfOk result (λ params. IsAscending triple_cmp (map (param_triple node.now) params.items)) }
{
    let own = triples_of(graph, node);
    let mut params = Vec::new(alloc);
    for triple in own {
        push_param(triple, &mut params)?;
    }
    Ok(params)
}
