//! A pair of a shape and a focus node with its results.
ghost use Rattle.std.specs.Prelude.{◌≡◌};

use collections::Sequence;
use shape_model::ResultRow;

/// A pair of a shape and a focus node, by the numbers of their terms, with its results: none where it is no target of the shape.
#[derive(Debug)]
pub struct PairRows {
    pub shape: u32,
    pub focus: u32,
    pub rows: Sequence<ResultRow>,
}

// Written by hand, so that what owns one calls it in place of having it written out.
impl Drop for PairRows {
    fn drop(self) {
        let PairRows {
            shape: _,
            focus: _,
            rows: _,
        } = self;
    }
}

impl PairRows {
    /// The results alone.
    pub fn into_rows(self) -> Sequence<ResultRow>
        ensures { result ≡ self.rows }
    {
        let PairRows {
            shape: _,
            focus: _,
            rows,
        } = self;
        rows
    }
}
