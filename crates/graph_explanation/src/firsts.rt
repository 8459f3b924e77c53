//! The first of each result among aimed rows.
ghost use Rattle.std.specs.Prelude.{◌≡◌, ◌↔◌, ◌<◌, IsTrue, length, true, false};
ghost use Rattle.std.specs.declared.cmp.Ordering.TheVariants.{Less};
ghost use Rattle.collections.specs.Ordered.{IsAscending};
ghost use Rattle.shape_model.specs.Rows.{result_row_cmp};
ghost use Rattle.result_evidence.specs.AimedOrder.{aimed_cmp};
ghost use Rattle.graph_explanation.specs.Firsts.{IsNewAt, IsOldAt};

use result_evidence::AimedRow;
use shape_model::ResultRow;
use std::cmp::Ordering;

// Whether the first row stands before the second in the order of results.
fn is_before(first: &ResultRow, second: &ResultRow) -> bool
    ensures { IsTrue result ↔ (result_row_cmp first.now second.now ≡ Less) }
{
    match first.cmp(second) {
        Ordering::Less => true,
        _ => false,
    }
}

/// Whether the row at the place stands there for the first time.
pub(crate) fn is_first(aimed: &[AimedRow], place: usize) -> bool
    requires place { place < length aimed.now }
    requires order { IsAscending aimed_cmp aimed.now }
    ensures new { result ≡ true → IsNewAt aimed.now place }
    ensures old { result ≡ false → IsOldAt aimed.now place }
{
    if place == 0 {
        return true;
    }
    is_before(&aimed[place - 1].row, &aimed[place].row)
}
