//! The rows of one pair among those that are kept.
ghost use Rattle.std.specs.Prelude.{◌≡◌, ◌++◌, ◌∷◌, Some, IfOk, OnOk, filter};
ghost use Rattle.std.specs.declared.cmp.Ordering.TheVariants.{Less};
ghost use Rattle.collections.specs.Ordered.{IsAscending};
ghost use Rattle.page_index.specs.Reading.{keys_above};
ghost use Rattle.kept_rows.specs.Kept.{kept_cmp};
ghost use Rattle.kept_rows.specs.Merging.{is_of, pair_cmp, pair_of, with_rows, without_pair};

use crate::kept_row::KeptRow;
use crate::pair_rows::PairRows;
use page_index::Pages;
use std::alloc::{AllocError, Global};
use std::cmp::Ordering;

// How a row stands to those of a pair.
fn place(row: &KeptRow, pair: (u32, u32)) -> Ordering
    ensures { result ≡ pair_cmp pair row.now }
{
    row.shape.cmp(&pair.0).then(row.focus.cmp(&pair.1))
}

// Whether a row is one of a pair.
fn is_of_pair(row: &KeptRow, pair: (u32, u32)) -> bool
    ensures { result ≡ is_of pair row.now }
{
    place(row, pair).is_eq()
}

// Adds the rows of a pair from one on that stands at their beginning, or above it.
fn add_from(
    rows: &Pages<KeptRow>,
    start: &KeptRow,
    pair: (u32, u32),
    into: &mut Vec<KeptRow>,
) -> Result<(), AllocError>
    requires ascending { IsAscending kept_cmp (start.now ∷ keys_above kept_cmp (Some start.now) rows.now) }
    requires reached { pair_cmp pair start.now ≡ Less → ⊥ }
    ensures { OnOk result (into.new.items ≡ into.old.items ++ filter (is_of pair) (start.now ∷ keys_above kept_cmp (Some start.now) rows.now)) }
{
    if !is_of_pair(start, pair) {
        return Ok(());
    }
    into.push(start.clone()?)?;
    for row in rows.iter_above(start) {
        if !is_of_pair(row, pair) {
            return Ok(());
        }
        into.push(row.clone()?)?;
    }
    Ok(())
}

// The rows of a pair.
fn rows_of_pair(
    alloc: Global,
    rows: &Pages<KeptRow>,
    pair: (u32, u32),
) -> Result<Vec<KeptRow>, AllocError>
    requires { IsAscending kept_cmp rows.now }
    ensures { IfOk result (λ found. found.items ≡ filter (is_of pair) rows.now) }
{
    let mut found = Vec::new(alloc);
    match rows.seek(|row| place(row, pair)) {
        None => Ok(found),
        Some(start) => {
            add_from(rows, start, pair, &mut found)?;
            Ok(found)
        }
    }
}

/// Takes the rows of a pair out. It looks at no others.
pub(crate) fn take_out(
    alloc: Global,
    rows: &mut Pages<KeptRow>,
    pair: (u32, u32),
) -> Result<(), AllocError>
    ensures { OnOk result (rows.new ≡ without_pair pair rows.old) }
{
    rows.recall_ascending();
    let found = rows_of_pair(alloc, rows, pair)?;
    for row in &found {
        rows.remove(row)?;
    }
    Ok(())
}

/// Puts the rows of a checked pair in.
pub(crate) fn put_in(rows: &mut Pages<KeptRow>, checked: &PairRows) -> Result<(), AllocError>
    ensures { OnOk result (rows.new ≡ with_rows (pair_of checked.now) checked.now.rows rows.old) }
{
    for row in checked.rows.as_slice() {
        rows.insert(KeptRow {
            shape: checked.shape,
            focus: checked.focus,
            row: row.clone()?,
        })?;
    }
    Ok(())
}
