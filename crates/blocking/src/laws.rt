//! Whether changes leave a graph with a result that blocks is seen from the pairs that they touch.
ghost use Rattle.blocking.specs.Laws.{NothingBlocksLaw, SomethingBlocksLaw};

/// Where none of the touched pairs' results blocks, none of the graph's does.
pub fn nothing_blocks_law()
    ensures { NothingBlocksLaw }
{}

/// Where one of them blocks, one of the listing's does.
pub fn something_blocks_law()
    ensures { SomethingBlocksLaw }
{}
