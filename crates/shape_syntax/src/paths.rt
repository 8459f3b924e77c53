//! The nodes that stand for paths (SHACL section 2.3.1).
//!
//! They are gathered from below: a node is asked again until what is known of the others shows that it stands
//! for a path, or until nothing more is shown of any. So a path that leads back to itself is never gathered.
ghost use Rattle.std.specs.Prelude.{◌≡◌, ◌⊎◌, ◌↔◌, IsTrue, IfOk, OnOk, length};
ghost use Rattle.std.specs.List.{Contains};
ghost use Rattle.collections.specs.Ordered.{IsAscending};
ghost use Rattle.rdf_model.specs.Terms.{triple_cmp};
ghost use Rattle.shape_model.specs.Triples.{IsBlank};
ghost use Rattle.shape_syntax.specs.declared.claim.Claim.{Claim as ClaimData};
ghost use Rattle.shape_syntax.specs.declared.claim.Claim.TheVariants as ClaimVariants;
ghost use Rattle.shape_syntax.specs.PathNodes.{ArePathNodes, IsPath};
ghost use Rattle.shape_syntax.specs.PathSteps.{HasOneTriple, MayStand, WasAsked, WereAsked, node_of};

use crate::IndexedGraph;
use crate::below::from_below;
use crate::claim::Claim;
use crate::known::{KnownClaims, is_known};
use crate::list::cell;
use crate::steps::{is_shown, only_triple};
use crate::terms::is_blank;
use collections::Sequence;
use rdf_model::{Term, Triple};
use std::alloc::{AllocError, Global};
use std::collections::BTreeSet;

// Adds the claim that the node stands for a path, if it is blank.
fn push_path_claim(node: &Term, claims: &mut Sequence<Claim>) -> Result<(), AllocError>
    ensures kept { OnOk result ((c : ClaimData) → Contains claims.old c → Contains claims.new c) }
    ensures new { OnOk result (IsBlank node.now → Contains claims.new (ClaimVariants.Path node.now)) }
{
    if is_blank(node) {
        claims.push(Claim::Path(node.clone()?))?;
        return Ok(());
    }
    Ok(())
}

// Adds what is asked of a cell.
fn push_cell_claims(node: &Term, claims: &mut Sequence<Claim>) -> Result<(), AllocError>
    ensures kept { OnOk result ((c : ClaimData) → Contains claims.old c → Contains claims.new c) }
    ensures list { OnOk result (Contains claims.new (ClaimVariants.List node.now)) }
    ensures path { OnOk result (IsBlank node.now → Contains claims.new (ClaimVariants.Path node.now)) }
{
    claims.push(Claim::List(node.clone()?))?;
    push_path_claim(node, claims)?;
    Ok(())
}

// Adds what may be shown of the node, where it is no cell.
fn push_other_claim(
    graph: &IndexedGraph,
    node: &Term,
    claims: &mut Sequence<Claim>,
) -> Result<(), AllocError>
    requires { IsAscending triple_cmp graph.now }
    ensures kept { OnOk result ((c : ClaimData) → Contains claims.old c → Contains claims.new c) }
    ensures path { OnOk result (IsBlank node.now → HasOneTriple graph.now node.now → Contains claims.new (ClaimVariants.Path node.now)) }
{
    match only_triple(graph, node) {
        Some(_) => push_path_claim(node, claims),
        None => Ok(()),
    }
}

// Adds what may be shown of the node.
fn push_claims(
    graph: &IndexedGraph,
    node: &Term,
    claims: &mut Sequence<Claim>,
) -> Result<(), AllocError>
    requires { IsAscending triple_cmp graph.now }
    ensures kept { OnOk result ((c : ClaimData) → Contains claims.old c → Contains claims.new c) }
    ensures new { OnOk result ((c : ClaimData) → node.now ≡ node_of c → MayStand graph.now c → Contains claims.new c) }
{
    match cell(graph, node) {
        Some(_) => {
            push_cell_claims(node, claims)?;
            Ok(())
        }
        None => {
            push_other_claim(graph, node, claims)?;
            Ok(())
        }
    }
}

// What may be shown of the nodes.
fn claims_of(
    alloc: Global,
    graph: &IndexedGraph,
    nodes: &[Term],
) -> Result<Sequence<Claim>, AllocError>
    requires { IsAscending triple_cmp graph.now }
    ensures { IfOk result (λ claims. (c : ClaimData) → Contains nodes.now (node_of c) → MayStand graph.now c → Contains claims c) }
{
    let mut claims = Sequence::new(alloc);
    for node in nodes {
        push_claims(graph, node, &mut claims)?;
    }
    Ok(claims)
}

// Notes the claim where it is shown, and else leaves it.
fn ask(
    graph: &IndexedGraph,
    claim: &Claim,
    known: &mut KnownClaims,
    left: &mut Sequence<Claim>,
) -> Result<(), AllocError>
    requires { IsAscending triple_cmp graph.now }
    ensures { OnOk result (WasAsked graph.now claim.now known.old.paths.keys known.old.lists.keys
        known.new.paths.keys known.new.lists.keys left.old left.new) }
{
    if is_shown(graph, known, claim) {
        known.note(claim)?;
        return Ok(());
    }
    left.push(claim.copied()?)?;
    Ok(())
}

// Asks each of the claims, and gives those that are left.
fn ask_each(
    alloc: Global,
    graph: &IndexedGraph,
    waiting: &[Claim],
    known: &mut KnownClaims,
) -> Result<Sequence<Claim>, AllocError>
    requires { IsAscending triple_cmp graph.now }
    ensures { IfOk result (λ left. WereAsked graph.now (length waiting.now) waiting.now known.old.paths.keys
        known.old.lists.keys known.new.paths.keys known.new.lists.keys left) }
{
    let mut left = Sequence::new(alloc);
    for claim in waiting {
        ask(graph, claim, known, &mut left)?;
    }
    Ok(left)
}

// Asks the claims again until nothing more is shown.
fn ask_all(
    alloc: Global,
    graph: &IndexedGraph,
    claims: Sequence<Claim>,
) -> Result<BTreeSet<Term>, AllocError>
    requires graph { IsAscending triple_cmp graph.now }
    requires claims { (c : ClaimData) → MayStand graph.now c → Contains claims c }
    ensures { IfOk result (λ nodes. ArePathNodes graph.now nodes.keys) }
{
    let mut known = KnownClaims::new(alloc);
    let mut waiting = claims;
    loop {
        let left = ask_each(alloc, graph, waiting.as_slice(), &mut known)?;
        if left.len() == waiting.len() {
            return Ok(known.into_paths());
        }
        waiting = left;
    }
}

/// The blank nodes that stand for a path. Each node is asked behind those that it needs, so that one round shows all
/// that are paths, and a second shows no more.
pub fn path_nodes(alloc: Global, graph: &IndexedGraph) -> Result<BTreeSet<Term>, AllocError>
    requires { IsAscending triple_cmp graph.now }
    ensures { IfOk result (λ nodes. ArePathNodes graph.now nodes.keys) }
{
    let nodes = from_below(alloc, graph)?;
    let claims = claims_of(alloc, graph, nodes.as_slice())?;
    ask_all(alloc, graph, claims)
}

/// Whether the node stands for a path: it is an IRI, or one of the graph's `path_nodes`.
pub fn is_path(graph: &IndexedGraph, nodes: &BTreeSet<Term>, node: &Term) -> bool
    requires { ArePathNodes graph.now nodes.now.keys }
    ensures { IsTrue result ↔ IsPath graph.now node.now }
{
    is_known(nodes, node)
}
