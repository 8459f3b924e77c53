//! What a core holds its graph to.
use store_model::BlockMode;

/// How many triples the graph has, at most, and which results it has none of. The data graph keeps the limit on terms.
#[derive(Clone, Copy)]
pub struct Bounds {
    pub triples: usize,
    pub mode: BlockMode,
}
