//! The results that a store keeps.
ghost use Rattle.std.specs.Prelude.{◌≡◌, ◌↔◌, [], IfOk, OnErr, OnOk, length};
ghost use Rattle.std.specs.List.{Contains};
ghost use Rattle.collections.specs.Listings.{IsListing};
ghost use Rattle.collections.specs.Ordered.{IsAscending};
ghost use Rattle.shape_model.specs.Rows.{result_row_cmp};
ghost use Rattle.kept_rows.specs.declared.kept_row.KeptRow.{KeptRow as KeptData};
ghost use Rattle.kept_rows.specs.Kept.{IsRowOf, Merges, kept_cmp};
ghost use Rattle.kept_rows.specs.Merging.{with_checked, without_checked};

use crate::kept_row::KeptRow;
use crate::pair::{put_in, take_out};
use crate::pair_rows::PairRows;
use collections::sorted_once;
use page_index::Pages;
use shape_model::ResultRow;
use std::alloc::{AllocError, Global};
use std::marker::Model;

/// Results, each with the pair that gives it. Contracts see the list of them, ascending.
#[derive(Drop)]
pub struct KeptRows {
    alloc: Global,
    rows: Pages<KeptRow>,
}

impl Model for KeptRows {
    ghost use Rattle.std.specs.Prelude.{List};
    ghost use Rattle.kept_rows.specs.declared.kept_row.KeptRow.{KeptRow};

    ghost Value = { List KeptRow };

    ghost view = { λ k. k.rows };
}

// Takes the rows of the checked pairs out.
fn take_all_out(
    alloc: Global,
    rows: &mut Pages<KeptRow>,
    checked: &[PairRows],
) -> Result<(), AllocError>
    ensures { OnOk result (rows.new ≡ without_checked checked.now rows.old) }
{
    for pair in checked {
        take_out(alloc, rows, (pair.shape, pair.focus))?;
    }
    Ok(())
}

// Puts the rows of the checked pairs in.
fn put_all_in(rows: &mut Pages<KeptRow>, checked: &[PairRows]) -> Result<(), AllocError>
    ensures { OnOk result (rows.new ≡ with_checked checked.now rows.old) }
{
    for pair in checked {
        put_in(rows, pair)?;
    }
    Ok(())
}

impl KeptRows {
    /// No result. It takes no memory.
    pub fn new(alloc: Global) -> KeptRows
        ensures { result ≡ [] }
    {
        KeptRows {
            alloc,
            rows: Pages::new(alloc),
        }
    }

    /// These results, each once. Its time is linear in them, but for their order.
    pub fn from_rows(alloc: Global, rows: Vec<KeptRow>) -> Result<KeptRows, AllocError>
        ensures { IfOk result (λ kept. (k : KeptData) → Contains kept k ↔ Contains rows.items k) }
    {
        let sorted = sorted_once(rows)?;
        let pages = Pages::from_sorted(alloc, &sorted)?;
        Ok(KeptRows { alloc, rows: pages })
    }

    /// Another that is the same. It copies no result, and neither sees a later change of the other. It fails only where the
    /// owners of one page can't be counted.
    pub fn share(&self) -> Result<KeptRows, AllocError>
        ensures { IfOk result (λ share. share ≡ self.now) }
    {
        Ok(KeptRows {
            alloc: self.alloc,
            rows: self.rows.share()?,
        })
    }

    /// How many there are.
    pub fn len(&self) -> usize
        ensures { result ≡ length self.now }
    {
        self.rows.len()
    }

    /// They ascend by shape, focus node and result. It does nothing: its contract is what the type keeps.
    pub fn recall_ascending(&self)
        ensures { IsAscending kept_cmp self.now }
    {
        self.rows.recall_ascending();
    }

    /// Puts the results of the checked pairs in the place of those that these pairs had. It looks at no other pair's. After
    /// an error they are as they were.
    pub fn merge(&mut self, checked: &[PairRows]) -> Result<(), AllocError>
        ensures ok { OnOk result (Merges self.old checked.now self.new) }
        ensures err { OnErr result (self.new ≡ self.old) }
    {
        self.rows.recall_ascending();
        let mut next = self.rows.share()?;
        take_all_out(self.alloc, &mut next, checked)?;
        put_all_in(&mut next, checked)?;
        self.rows = next;
        Ok(())
    }

    /// The results alone, each once, in the order of results. Its cost is theirs.
    pub fn listing(&self) -> Result<Vec<ResultRow>, AllocError>
        ensures { IfOk result (λ rows. IsListing result_row_cmp (IsRowOf self.now) rows.items) }
    {
        let mut rows = Vec::with_capacity(self.alloc, self.rows.len())?;
        for kept in self.rows.iter() {
            rows.push(kept.row.clone()?)?;
        }
        Ok(sorted_once(rows)?)
    }
}
