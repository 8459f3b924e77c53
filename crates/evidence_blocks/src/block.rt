//! What evidence holds.
use crate::ListedLook;
use collections::Sequence;
use rdf_model::{Term, Triple};
use shape_model::ResultRow;

/// A look of evidence, with the triples of the data graph that match it.
#[derive(Debug)]
pub struct ShownLook {
    pub look: ListedLook,
    /// In the order of triples.
    pub triples: Sequence<Triple>,
}

// By hand, so that whoever lets go of one makes one call.
impl Drop for ShownLook {
    fn drop(self) {
        let ShownLook {
            look: _,
            triples: _,
        } = self;
    }
}

/// The evidence of one result (SHACL section 3.6).
#[derive(Debug)]
pub struct Block {
    /// The shape that gives the result at the focus node, which is one of its targets.
    pub shape: Term,
    /// The focus node.
    pub focus: Term,
    pub row: ResultRow,
    /// All looks of the shape at the focus node, in order.
    pub looks: Sequence<ShownLook>,
}

// By hand, so that whoever lets go of one makes one call.
impl Drop for Block {
    fn drop(self) {
        let Block {
            shape: _,
            focus: _,
            row: _,
            looks: _,
        } = self;
    }
}
