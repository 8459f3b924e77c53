//! References that stand together.
use collections::Sequence;
use rdf_model::Term;

/// References that stand together: each node of `from` refers to each of `to`.
#[derive(Debug)]
pub struct Bundle {
    pub from: Sequence<Term>,
    pub to: Sequence<Term>,
}

impl Drop for Bundle {
    fn drop(self) {
        let Bundle { from: _, to: _ } = self;
    }
}
