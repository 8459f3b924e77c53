//! One step along a predicate, with the looks that it makes.
ghost use Rattle.std.specs.Prelude.{◌≡◌, IfOk};
ghost use Rattle.rdf_model.specs.Numbers.{AsksForOne, IsFound};
ghost use Rattle.collections.specs.Listings.{Keeps};
ghost use Rattle.path_eval.specs.Relations.{IsFollowed};
ghost use Rattle.path_eval.specs.NumberedWalks.{look_from};

use collections::sorted_once;
use rdf_model::{Footprint, Look, Triples};
use std::alloc::{AllocError, Global};

// The look that finds the values of a predicate at a node, or the nodes that have it as value.
fn look_for(reversed: bool, predicate: u32, node: u32) -> Look<u32>
    ensures look { result ≡ look_from reversed predicate node }
    ensures one { AsksForOne result }
{
    if reversed {
        Look::In(predicate, node)
    } else {
        Look::Out(node, predicate)
    }
}

// One step along a predicate from each start.
pub(crate) fn edges<R: Triples>(
    alloc: Global,
    graph: &R,
    predicate: u32,
    reversed: bool,
    starts: &[u32],
    footprint: &mut Footprint,
) -> Result<Vec<u32>, AllocError>
    ensures followed { IfOk result (λ ends. IsFollowed starts.now (λ x y. IsFound (look_from reversed predicate x) (R.triples graph.now) y) (λ x look. look ≡ look_from reversed predicate x) footprint.old footprint.new ends.items) }
    ensures kept { Keeps footprint.old footprint.new }
{
    let mut found = Vec::new(alloc);
    for start in starts {
        let look = look_for(reversed, predicate, *start);
        graph.add_found(&look, &mut found)?;
        footprint.add(look)?;
    }
    Ok(sorted_once(found)?)
}
