//! Evaluations counted.
ghost use Rattle.std.specs.Prelude.{◌≡◌, ◌+◌, ◌<◌};

use crate::rights;
use std::marker::Model;
use std::sync::ledger::{Blank, Book, Ledger, Share};

/// How many evaluations were allowed. Contracts see the number; it takes no memory.
#[derive(Drop)]
pub struct Steps<L: Ledger> {
    book: Book<L>,
    share: Share<L>,
}

impl<L: Ledger> Model for Steps<L> {
    ghost use Rattle.std.specs.Prelude.{◌<◌, ℕ};

    ghost Value = { ℕ };

    ghost view = { λ s. s.book.total };

    ghost invariant = { λ s. 0 < s.share.parts };
}

impl<L: Ledger> Steps<L> {
    /// No evaluation so far, in a new ledger.
    pub fn begin(blank: Blank) -> Steps<L>
        requires name { blank.name ≡ L.name }
        requires parts { blank.parts ≡ L.parts }
        requires some { 0 < L.parts }
        ensures { result ≡ 0 }
    {
        let (book, share) = blank.open::<L>();
        Steps { book, share }
    }
}

/// Allows one evaluation, and counts it.
pub fn permit<L: Ledger>(steps: &mut Steps<L>) -> rights::Permit
    ensures { steps.new ≡ steps.old + 1 }
{
    steps.book.add(&mut steps.share, 1);
    rights::grant()
}
