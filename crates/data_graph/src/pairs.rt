//! Pairs of a shape and a focus node by the numbers of their terms.
ghost use Rattle.std.specs.Prelude.{◌≡◌, ◌<◌, ◌↔◌, IfOk, length, map};
ghost use Rattle.std.specs.List.{Contains};
ghost use Rattle.parallel_validate.specs.declared.pairs.CheckedRows.{CheckedRows as CheckedData};
ghost use Rattle.kept_rows.specs.declared.pair_rows.PairRows.{PairRows as PairData};
ghost use Rattle.data_graph.specs.Pairs.{numbered};

use collections::Sequence;
use kept_rows::PairRows;
use parallel_validate::CheckedRows;
use shape_plans::PlannedShapes;
use std::alloc::{AllocError, Global};

// A pair whose shape is told by the number of its node, and not by its place.
fn numbered_pair(planned: &PlannedShapes, pair: CheckedRows) -> PairRows
    requires { pair.shape < length planned.now.bound.shapes }
    ensures { result ≡ numbered planned.now.bound.shapes pair }
{
    let CheckedRows { shape, focus, rows } = pair;
    PairRows {
        shape: planned.bound.shapes.as_slice()[shape as usize].node,
        focus,
        rows,
    }
}

/// The pairs, each with the number of its shape's node in the place of the shape's place, in any order.
pub(crate) fn numbered_pairs(
    alloc: Global,
    planned: &PlannedShapes,
    pairs: Sequence<CheckedRows>,
) -> Result<Vec<PairRows>, AllocError>
    requires { (c : CheckedData) → Contains pairs c → c.shape < length planned.now.bound.shapes }
    ensures { IfOk result (λ found. (p : PairData) → Contains (map (numbered planned.now.bound.shapes) pairs) p ↔ Contains found.items p) }
{
    let mut found = Vec::with_capacity(alloc, pairs.len())?;
    let mut rest = pairs.into_vec();
    while let Some(pair) = rest.pop() {
        found.push(numbered_pair(planned, pair))?;
    }
    Ok(found)
}
