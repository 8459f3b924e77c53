//! The results of a shape at some focus nodes, which threads share out among each other.
ghost use Rattle.std.specs.Prelude.{◌≡◌, ◌+◌, ◌<◌, ◌≤◌, IfOk, OnOk, length};
ghost use Rattle.std.specs.List.{All, AllZip, flat_map};
ghost use Rattle.parallel_validate.specs.Whole.{CollectsAtNodes};
ghost use Rattle.threaded_listing.specs.ByNode.{HasResults, HaveResults};
ghost use Rattle.threaded_listing.specs.Shares.{nodes_of, nodes_of_shares};

use crate::visit::{NodeRows, PermittedVisit, Share};
use collections::Sequence;
use rayon::prelude::*;
use rdf_model::{Footprint, Names, Triples};
use shape_eval::{Evaluation, Matchers, Steps, eval, permit};
use shape_model::ResultRow;
use std::alloc::{AllocError, Global};
use std::sync::ledger::Ledger;
use std::thread::Threads;

// How many nodes a share has at most. One thread evaluates it, by matchers of its own.
const SHARE: usize = 64;

// A visit of each node, each of which is counted.
fn visits_of<L: Ledger>(
    alloc: Global,
    nodes: &[u32],
    steps: &mut Steps<L>,
) -> Result<Vec<PermittedVisit>, AllocError>
    ensures nodes { IfOk result (λ visits. nodes_of visits.items ≡ nodes.now) }
    ensures steps { OnOk result (steps.new ≡ steps.old + length nodes.now) }
    ensures counted { steps.old ≤ steps.new }
{
    let mut visits = Vec::with_capacity(alloc, nodes.len())?;
    for node in nodes {
        visits.push(PermittedVisit {
            node: *node,
            allowed: permit(steps),
        })?;
    }
    Ok(visits)
}

// How many of some nodes the next share has.
fn share_len(count: usize) -> usize
    requires { 0 < count }
    ensures some { 0 < result }
    ensures within { result ≤ count }
{
    if count < SHARE { count } else { SHARE }
}

// The visits of the nodes in their order, in shares, each of which is counted.
fn shares_of<L: Ledger>(
    alloc: Global,
    nodes: &[u32],
    steps: &mut Steps<L>,
) -> Result<Vec<Share>, AllocError>
    ensures nodes { IfOk result (λ shares. nodes_of_shares shares.items ≡ nodes.now) }
    ensures steps { OnOk result (steps.new ≡ steps.old + length nodes.now) }
    ensures counted { steps.old ≤ steps.new }
{
    let mut shares = Vec::new(alloc);
    let mut rest = nodes;
    while !rest.is_empty() {
        let (front, back) = rest.split_at(share_len(rest.len()));
        let visits = visits_of(alloc, front, steps)?;
        shares.push(Share { visits })?;
        rest = back;
    }
    Ok(shares)
}

// The node of a visit with the results of the shape there. How they were found is not kept.
fn rows_at_visit<'a, R: Triples, N: Names>(
    evaluation: &Evaluation<'a, R, N>,
    shape: usize,
    visit: PermittedVisit,
    matchers: &mut Matchers<'a>,
) -> Result<NodeRows, AllocError>
    requires shape { shape < length evaluation.now.shapes }
    requires node { visit.node < length evaluation.now.terms }
    ensures { IfOk result (HasResults evaluation.now.terms evaluation.now.ids evaluation.now.shapes shape visit.node) }
{
    let mut looks = Footprint::new(evaluation.alloc());
    let PermittedVisit { node, allowed } = visit;
    let rows = eval(evaluation, shape, node, &mut looks, matchers, allowed)?;
    Ok(NodeRows {
        node,
        rows: Sequence::from_vec(rows),
    })
}

// The nodes of a share with the results of the shape there, one after another.
fn rows_at_share<R: Triples, N: Names>(
    evaluation: &Evaluation<'_, R, N>,
    shape: usize,
    share: Share,
) -> Result<Vec<NodeRows>, AllocError>
    requires shape { shape < length evaluation.now.shapes }
    requires nodes { All (λ v. v.node < length evaluation.now.terms) share.visits.items }
    ensures { IfOk result (λ found. HaveResults evaluation.now.terms evaluation.now.ids evaluation.now.shapes shape (nodes_of share.visits.items) found.items) }
{
    let mut matchers = Matchers::new(evaluation.alloc());
    let mut found = Vec::with_capacity(evaluation.alloc(), share.visits.len())?;
    for visit in share.visits {
        let rows = rows_at_visit(evaluation, shape, visit, &mut matchers)?;
        found.push(rows)?;
    }
    Ok(found)
}

// The nodes of each share with the results of the shape there, in their order, whichever thread found them.
fn rows_at_shares<R: Triples + Sync, N: Names + Sync, T: Threads + Sync>(
    rt: &T,
    evaluation: &Evaluation<'_, R, N>,
    shape: usize,
    shares: Vec<Share>,
) -> Result<Vec<Vec<NodeRows>>, AllocError>
    requires shape { shape < length evaluation.now.shapes }
    requires nodes { All (λ share. All (λ v. v.node < length evaluation.now.terms) share.visits.items) shares.items }
    ensures { IfOk result (λ lists. AllZip (λ share found. HaveResults evaluation.now.terms evaluation.now.ids evaluation.now.shapes shape (nodes_of share.visits.items) found.items) shares.items lists.items) }
{
    let lists: Result<Vec<Vec<NodeRows>>, AllocError> = shares
        .into_par_iter()
        .with_min_len(1)
        .map(
            |share: Share| -> Result<Vec<NodeRows>, AllocError>
                requires { (shape < length evaluation.now.shapes) × All (λ v. v.node < length evaluation.now.terms) share.visits.items }
                ensures { IfOk result (λ found. HaveResults evaluation.entry.now.terms evaluation.entry.now.ids evaluation.entry.now.shapes shape (nodes_of share.visits.items) found.items) }
            { rows_at_share(evaluation, shape, share) },
        )
        .collect::<Result<Vec<Vec<NodeRows>>, AllocError>>(rt, evaluation.alloc())?;
    lists
}

// The lists one after another.
fn joined(alloc: Global, lists: Vec<Vec<NodeRows>>) -> Result<Vec<NodeRows>, AllocError>
    ensures { IfOk result (λ found. found.items ≡ flat_map (λ list. list.items) lists.items) }
{
    let mut found = Vec::new(alloc);
    for list in lists {
        let mut list = list;
        found.append(&mut list)?;
    }
    Ok(found)
}

/// The nodes in their order, each with the results of the shape there (SHACL section 3.4), whichever thread found which. The
/// shape is given by its place among the shapes, a node by its number. The nodes are shared out among as many threads as there
/// are processors; where none can be started, the caller does all.
///
/// Each evaluation, of the shape at one of the nodes, is counted in `steps`. It fails only for want of memory, and then the
/// count is what it was, or more.
pub fn rows_by_node<R: Triples + Sync, N: Names + Sync, L: Ledger, T: Threads + Sync>(
    rt: &T,
    evaluation: &Evaluation<'_, R, N>,
    shape: usize,
    nodes: &[u32],
    steps: &mut Steps<L>,
) -> Result<Vec<NodeRows>, AllocError>
    requires shape { shape < length evaluation.now.shapes }
    requires nodes { All (λ n. n < length evaluation.now.terms) nodes.now }
    ensures rows { IfOk result (λ found. HaveResults evaluation.now.terms evaluation.now.ids evaluation.now.shapes shape nodes.now found.items) }
    ensures steps { OnOk result (steps.new ≡ steps.old + length nodes.now) }
    ensures counted { steps.old ≤ steps.new }
{
    let shares = shares_of(evaluation.alloc(), nodes, steps)?;
    let lists = rows_at_shares(rt, evaluation, shape, shares)?;
    joined(evaluation.alloc(), lists)
}

// The results alone, node after node.
fn without_nodes(alloc: Global, found: Vec<NodeRows>) -> Result<Vec<ResultRow>, AllocError>
    ensures { IfOk result (λ rows. rows.items ≡ flat_map (λ node. node.rows) found.items) }
{
    let mut rows = Vec::new(alloc);
    for node in found {
        let mut more = node.rows.into_vec();
        rows.append(&mut more)?;
    }
    Ok(rows)
}

/// The results of the shape at the nodes, one node after another. Each evaluation is counted, and they are shared out among
/// threads.
pub(crate) fn rows_at<R: Triples + Sync, N: Names + Sync, L: Ledger, T: Threads + Sync>(
    rt: &T,
    evaluation: &Evaluation<'_, R, N>,
    shape: usize,
    nodes: &[u32],
    steps: &mut Steps<L>,
) -> Result<Vec<ResultRow>, AllocError>
    requires shape { shape < length evaluation.now.shapes }
    requires nodes { All (λ n. n < length evaluation.now.terms) nodes.now }
    ensures rows { IfOk result (λ rows. CollectsAtNodes evaluation.now.terms evaluation.now.ids evaluation.now.shapes shape nodes.now rows.items) }
    ensures steps { OnOk result (steps.new ≡ steps.old + length nodes.now) }
    ensures counted { steps.old ≤ steps.new }
{
    let found = rows_by_node(rt, evaluation, shape, nodes, steps)?;
    without_nodes(evaluation.alloc(), found)
}
