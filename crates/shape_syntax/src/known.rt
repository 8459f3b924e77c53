// The nodes that are known to stand for paths, and for lists of paths.
ghost use Rattle.std.specs.Prelude.{◌≡◌, ◌⊎◌, ◌↔◌, [], IsTrue, OnOk};
ghost use Rattle.std.specs.List.{Contains};
ghost use Rattle.shape_syntax.specs.declared.claim.Claim.{Claim as ClaimData};
ghost use Rattle.shape_syntax.specs.PathSteps.{Adds, IsKnown, Knows};

use crate::claim::Claim;
use crate::terms::is_iri;
use rdf_model::Term;
use std::alloc::{AllocError, Global};
use std::collections::BTreeSet;

#[derive(Drop)]
pub(crate) struct KnownClaims {
    pub(crate) paths: BTreeSet<Term>,
    pub(crate) lists: BTreeSet<Term>,
}

/// Whether the node is in the set.
fn is_in(nodes: &BTreeSet<Term>, node: &Term) -> bool
    ensures { IsTrue result ↔ Contains nodes.now.keys node.now }
{
    nodes.contains(node)
}

/// Whether the node is known to stand for a path: it is an IRI, or among those that were gathered.
pub(crate) fn is_known(paths: &BTreeSet<Term>, node: &Term) -> bool
    ensures { IsTrue result ↔ IsKnown paths.now.keys node.now }
{
    is_iri(node) || is_in(paths, node)
}

/// Puts the node into the set.
fn put(nodes: &mut BTreeSet<Term>, node: &Term) -> Result<(), AllocError>
    ensures { OnOk result (Adds nodes.old.keys node.now nodes.new.keys) }
{
    let _ = nodes.insert(node.clone()?)?;
    Ok(())
}

impl KnownClaims {
    pub(crate) fn new(alloc: Global) -> KnownClaims
        ensures paths { result.paths.keys ≡ [] }
        ensures lists { result.lists.keys ≡ [] }
    {
        KnownClaims {
            paths: BTreeSet::new(alloc),
            lists: BTreeSet::new(alloc),
        }
    }

    pub(crate) fn into_paths(self) -> BTreeSet<Term>
        ensures { result.keys ≡ self.paths.keys }
    {
        let KnownClaims { paths, lists: _ } = self;
        paths
    }

    /// Whether the node is known to stand for a path.
    pub(crate) fn has_path(&self, node: &Term) -> bool
        ensures { IsTrue result ↔ IsKnown self.now.paths.keys node.now }
    {
        is_known(&self.paths, node)
    }

    /// Whether the node is known to be the head of a list of paths.
    pub(crate) fn has_list(&self, node: &Term) -> bool
        ensures { IsTrue result ↔ Contains self.now.lists.keys node.now }
    {
        is_in(&self.lists, node)
    }

    /// Whether the first is known to stand for a path, and the rest to be the head of a list of paths.
    pub(crate) fn has_both(&self, first: &Term, rest: &Term) -> bool
        ensures { IsTrue result ↔ (IsKnown self.now.paths.keys first.now × Contains self.now.lists.keys rest.now) }
    {
        self.has_path(first) && self.has_list(rest)
    }

    /// Takes down what was shown of a node.
    pub(crate) fn note(&mut self, claim: &Claim) -> Result<(), AllocError>
        ensures { OnOk result ((c : ClaimData) → Knows self.new.paths.keys self.new.lists.keys c
            ↔ (Knows self.old.paths.keys self.old.lists.keys c ⊎ (claim.now ≡ c))) }
    {
        match claim {
            Claim::Path(node) => {
                put(&mut self.paths, node)?;
                Ok(())
            }
            Claim::List(node) => {
                put(&mut self.lists, node)?;
                Ok(())
            }
        }
    }
}
