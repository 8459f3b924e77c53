//! A commit as it is kept.
use collections::Sequence;
use rdf_model::Ids;

/// An accepted commit: the numbers of what it changed, in any order and maybe more than once, and whether it staged shapes.
pub(crate) struct KeptCommit {
    pub(crate) changed: Sequence<Ids>,
    pub(crate) staged: bool,
}

// Written by hand, so that what owns one calls it in place of having it written out.
impl Drop for KeptCommit {
    fn drop(self) {
        let KeptCommit {
            changed: _,
            staged: _,
        } = self;
    }
}
