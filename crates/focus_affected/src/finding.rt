//! The nodes that walk to where rows match changed triples.
ghost use Rattle.std.specs.Prelude.{IfOk};
ghost use Rattle.collections.specs.Listings.{Keeps};
ghost use Rattle.focus_affected.specs.Finding.{FindsBy, FindsFrom, WhereNodes};

use crate::NumberedLook;
use crate::changes::ChangedTriples;
use path_ast::Path;
use rdf_model::{Footprint, Triples};
use reverse_walk::back_from;
use std::alloc::{AllocError, Global};

// The nodes that walk to some nodes along the way, and the looks of the way back, in one walk. From no node none is made.
fn found_from<R: Triples>(
    alloc: Global,
    graph: &R,
    way: &Option<Path<u32>>,
    nodes: Vec<u32>,
    footprint: &mut Footprint,
) -> Result<Vec<u32>, AllocError>
    ensures found { IfOk result (λ found. WhereNodes (R.triples graph.now) way.now nodes.items (λ terms. FindsFrom terms (R.triples graph.now) way.now nodes.items found.items footprint.old footprint.new)) }
    ensures kept { Keeps footprint.old footprint.new }
{
    if nodes.is_empty() {
        return Ok(nodes);
    }
    match way {
        None => Ok(nodes),
        Some(path) => Ok(back_from(alloc, graph, path, &nodes, footprint)?),
    }
}

/// The nodes that walk along the row's way to a node at which a changed triple matches the row.
pub(crate) fn found_by<R: Triples>(
    alloc: Global,
    graph: &R,
    look: &NumberedLook,
    changed: &ChangedTriples,
    footprint: &mut Footprint,
) -> Result<Vec<u32>, AllocError>
    ensures found { IfOk result (λ found. FindsBy (R.triples graph.now) look.now changed.now found.items footprint.old footprint.new) }
    ensures kept { Keeps footprint.old footprint.new }
{
    let nodes = changed.matched(alloc, look.kind)?;
    Ok(found_from(alloc, graph, &look.way, nodes, footprint)?)
}
