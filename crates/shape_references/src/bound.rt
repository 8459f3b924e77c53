//! Chains of references that stand in bundles.
ghost use Rattle.std.specs.Prelude.{◌≡◌, ◌+◌, ◌<◌, ◌^◌, ℕ, Some, None, IfOk, MatchOption};
ghost use Rattle.rdf_model.specs.declared.term.Term.{Term as TermData};
ghost use Rattle.shape_references.specs.Bundles.{IsBound, IsFoundNode, IsLeastNode};
ghost use Rattle.shape_references.specs.Chains.{HasChain, IsOnLoop};

use crate::Bundle;
use crate::chains::least_with_chain;
use crate::edges::edges_of;
use crate::loops::least_on_loop;
use crate::names::{node_named, nodes_of};
use rdf_model::{Term, Triple};
use std::alloc::{AllocError, Global};
use std::marker::Model;

// The node that has the name, if there is a name and a node has it.
fn found_node(nodes: &[Term], name: Option<Term>) -> Result<Option<Term>, AllocError>
    ensures { IfOk result (λ found. IsFoundNode nodes.now name found) }
{
    match name {
        Some(known) => {
            let node = node_named(nodes, &known)?;
            Ok(node)
        }
        None => Ok(None),
    }
}

/// Bundles of references, with the graph of the names of their nodes, by which chains of references are found. Contracts see
/// the bundles.
#[derive(Drop)]
pub struct ReferenceGraph {
    bundles: Vec<Bundle>,
    // The nodes of the bundles, each once and in order: by its place here a node has its name.
    nodes: Vec<Term>,
    // The triples of all the bundles, in order.
    edges: Vec<Triple>,
}

impl Model for ReferenceGraph {
    ghost use Rattle.std.specs.Prelude.{List};
    ghost use Rattle.shape_references.specs.declared.bundle.Bundle.{Bundle as BundleData};
    ghost use Rattle.shape_references.specs.Bundles.{IsNamedGraph};

    ghost Value = { List BundleData };

    ghost view = { λ g. g.bundles.items };

    ghost invariant = { λ g. IsNamedGraph g.bundles.items g.nodes.items g.edges.items };
}

impl ReferenceGraph {
    /// The graph of the bundles.
    pub fn new(alloc: Global, bundles: Vec<Bundle>) -> Result<ReferenceGraph, AllocError>
        ensures { IfOk result (λ graph. graph ≡ bundles.items) }
    {
        let nodes = nodes_of(alloc, bundles.as_slice())?;
        let edges = edges_of(alloc, nodes.as_slice(), bundles.as_slice())?;
        Ok(ReferenceGraph {
            bundles,
            nodes,
            edges,
        })
    }

    /// The least node from which a chain of references leads to itself, if there is one.
    pub fn least_on_loop(&self, alloc: Global) -> Result<Option<Term>, AllocError>
        ensures { IfOk result (λ found. MatchOption found ((n : TermData) → IsOnLoop (IsBound self.now) n → ⊥)
            (λ n. IsLeastNode (IsOnLoop (IsBound self.now)) n)) }
    {
        let name = least_on_loop(alloc, self.edges.as_slice())?;
        let found = found_node(self.nodes.as_slice(), name)?;
        Ok(found)
    }

    /// The least node from which a chain of so many references leads, if there is one.
    pub fn least_with_chain(&self, alloc: Global, count: usize) -> Result<Option<Term>, AllocError>
        requires some { 0 < count }
        requires few { count + count < 2 ^ 64 }
        ensures { IfOk result (λ found. MatchOption found ((n : TermData) → HasChain (IsBound self.now) count n → ⊥)
            (λ n. IsLeastNode (HasChain (IsBound self.now) count) n)) }
    {
        let name = least_with_chain(alloc, self.edges.as_slice(), count + count)?;
        let found = found_node(self.nodes.as_slice(), name)?;
        Ok(found)
    }
}
