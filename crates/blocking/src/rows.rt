//! Whether one of some results blocks.
ghost use Rattle.std.specs.Prelude.{◌≡◌};
ghost use Rattle.store_model.specs.Blocking.{has_blocking as has_blocking_row};
ghost use Rattle.blocking.specs.Sources.{HaveShapes, PairsHaveShapes, some_blocks};

use crate::severity::does_block;
use kept_rows::PairRows;
use shape_model::ResultRow;
use shapes_graph::ShapesGraph;
use store_model::BlockMode;

/// Whether one of the results blocks under the shapes graph, whose shapes gave them.
pub fn has_blocking(mode: BlockMode, graph: &ShapesGraph, rows: &[ResultRow]) -> bool
    requires { HaveShapes graph.now rows.now }
    ensures { result ≡ has_blocking_row mode graph.now rows.now }
{
    for row in rows {
        if does_block(mode, graph, row) {
            return true;
        }
    }
    false
}

/// Whether a result of one of the pairs does.
pub fn pairs_block(mode: BlockMode, graph: &ShapesGraph, pairs: &[PairRows]) -> bool
    requires { PairsHaveShapes graph.now pairs.now }
    ensures { result ≡ some_blocks mode graph.now pairs.now }
{
    for pair in pairs {
        if has_blocking(mode, graph, pair.rows.as_slice()) {
            return true;
        }
    }
    false
}
