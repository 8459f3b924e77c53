//! What the components of a shape read at a focus node.
use rdf_model::{Term, Triple};
use shape_model::ResultRow;

/// A result that a shape gives at a node.
#[derive(Debug, Drop)]
pub struct ToldRow {
    pub shape: Term,
    pub node: Term,
    pub row: ResultRow,
}

/// All that the components of a shape read at a focus node.
#[derive(Drop)]
pub struct PlainSite<'a> {
    pub graph: &'a [Triple],
    pub shapes: &'a [Triple],
    /// The results, at the value nodes, of the shapes that the shape refers to.
    pub told: &'a [ToldRow],
    pub shape: &'a Term,
    pub focus: &'a Term,
    pub values: &'a [Term],
}
