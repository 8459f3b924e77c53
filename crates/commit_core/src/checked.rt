//! What a check of changes beside the store found.
ghost use Rattle.std.specs.Prelude.{◌≡◌};

use collections::Sequence;
use kept_rows::PairRows;
use store_model::Verdict;

/// The verdict of some changes at its head, with the pairs that they touch there, each with its results after them.
pub struct CheckedNet {
    pub verdict: Verdict,
    pub pairs: Sequence<PairRows>,
}

// Written by hand, so that what owns one calls it in place of having it written out.
impl Drop for CheckedNet {
    fn drop(self) {
        let CheckedNet {
            verdict: _,
            pairs: _,
        } = self;
    }
}

impl CheckedNet {
    /// The verdict, and its pairs.
    pub fn into_parts(self) -> (Verdict, Sequence<PairRows>)
        ensures { result ≡ (self.verdict, self.pairs) }
    {
        let CheckedNet { verdict, pairs } = self;
        (verdict, pairs)
    }
}
