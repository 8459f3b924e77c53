//! The pairs of a shape and a node that threads evaluate, and what a thread found.
use parallel_validate::CheckedRows;
use rdf_model::Footprint;
use shape_eval::Permit;

/// A pair of a shape, by its place, and a focus node, with the permit for one evaluation where the node is a target of the
/// shape.
#[derive(Drop)]
pub struct PermittedPair {
    pub shape: u32,
    pub focus: u32,
    pub allowed: Option<Permit>,
}

/// Pairs that one thread evaluates, one after another.
#[derive(Drop)]
pub struct Share {
    pub pairs: Vec<PermittedPair>,
}

/// What a thread found: the pairs of its share, each with its results, and the looks that gave them.
#[derive(Drop)]
pub struct Found {
    pub pairs: Vec<CheckedRows>,
    pub looks: Footprint,
}
