//! The nodes at which triples match what is asked.
ghost use Rattle.std.specs.Prelude.{◌≡◌, IfOk, Some};
ghost use Rattle.std.specs.List.{filter_map};
ghost use Rattle.focus_affected.specs.Plans.{node_in};

use crate::NumberedKind;
use rdf_model::Ids;
use std::alloc::{AllocError, Global};

// The node at which what is asked matches the triple.
fn node_of(kind: NumberedKind, triple: Ids) -> Option<u32>
    ensures { result ≡ node_in kind triple }
{
    match kind {
        NumberedKind::Out(predicate) if predicate == triple.predicate => Some(triple.subject),
        NumberedKind::In(predicate) if predicate == triple.predicate => Some(triple.object),
        NumberedKind::OutAny => Some(triple.subject),
        _ => None,
    }
}

/// The nodes at which it matches one of the triples, in their order.
#[tactic(auto, using(std::proofs::lemmas::Grind::common_steps, rdf_model::proofs::Finding::filter_map_append))]
pub(crate) fn nodes_of(
    alloc: Global,
    kind: NumberedKind,
    triples: &[Ids],
) -> Result<Vec<u32>, AllocError>
    ensures { IfOk result (λ nodes. nodes.items ≡ filter_map (node_in kind) triples.now) }
{
    let mut nodes = Vec::new(alloc);
    for triple in triples {
        if let Some(node) = node_of(kind, *triple) {
            nodes.push(node)?;
        }
    }
    Ok(nodes)
}
