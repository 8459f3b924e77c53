//! Bindings while they are collected.
ghost use Rattle.std.specs.Prelude.{◌≡◌, ◌∷◌, ◌++◌, IfOk, OnOk, [], map};
ghost use Rattle.std.specs.Cmp.{partial_equiv_from_equiv, eq_by_cmp_equiv, partial_order_from_total};
ghost use Rattle.std.specs.Cmp.Lexicographic.{slice_cmp, nat_list_cmp_total};
ghost use Rattle.std.specs.FinMap.{slice_cmp-IsAntisymmetric, nat_cmp-IsAntisymmetric};
ghost use Rattle.std.specs.Ordering.{nat_cmp, as_partial_cmp, eq_by_cmp};

use collections::ExactOrder;
use std::alloc::{AllocError, Global};
use std::cmp::Ordering;
use std::marker::Model;

/// The numbers of the variables, in their order. Rows are compared from the first number on.
#[derive(Debug, Drop)]
pub(crate) struct Row {
    pub(crate) numbers: Vec<u32>,
}

impl Model for Row {
    ghost use Rattle.std.specs.Prelude.{List, ℕ};

    ghost Value = { List ℕ };

    ghost view = { λ r. r.numbers.items };
}

impl Ord for Row {
    ghost use Rattle.std.proofs.Common.{refl};

    ghost cmp = { slice_cmp nat_cmp };

    ghost total = { nat_list_cmp_total };

    ghost matches_partial_cmp = { λ x y. refl };

    ghost matches_eq = { λ x y. refl };

    fn cmp(&self, other: &Row) -> Ordering {
        self.numbers.as_slice().cmp(&other.numbers.as_slice())
    }
}

impl PartialOrd for Row {
    ghost partial_cmp = { as_partial_cmp (slice_cmp nat_cmp) };

    ghost laws = { partial_order_from_total nat_list_cmp_total };

    fn partial_cmp(&self, other: &Row) -> Option<Ordering> {
        Some(self.cmp(other))
    }
}

impl PartialEq for Row {
    ghost eq = { eq_by_cmp (slice_cmp nat_cmp) };

    ghost laws = { partial_equiv_from_equiv (eq_by_cmp_equiv nat_list_cmp_total) };

    fn eq(&self, other: &Row) -> bool {
        self.cmp(other) == Ordering::Equal
    }
}

impl Eq for Row {
    ghost laws = { eq_by_cmp_equiv nat_list_cmp_total };
}

impl ExactOrder for Row {
    ghost tied_is_equal = { slice_cmp-IsAntisymmetric nat_cmp-IsAntisymmetric };
}

impl Row {
    fn as_slice(&self) -> &[u32]
        ensures { result.now ≡ self.now }
    {
        self.numbers.as_slice()
    }
}

// Adds a vector of the numbers at the end.
fn push_vector(
    alloc: Global,
    vectors: &mut Vec<Vec<u32>>,
    numbers: &[u32],
) -> Result<(), AllocError>
    ensures { OnOk result (map (λ v. v.items) vectors.new.items ≡ map (λ v. v.items) vectors.old.items ++ numbers.now ∷ []) }
{
    vectors.push(Vec::from_slice(alloc, numbers)?)?;
    Ok(())
}

/// The numbers of rows.
pub(crate) fn vectors_of(alloc: Global, rows: &[Row]) -> Result<Vec<Vec<u32>>, AllocError>
    ensures { IfOk result (λ vectors. map (λ v. v.items) vectors.items ≡ rows.now) }
{
    let mut vectors = Vec::new(alloc);
    for row in rows {
        push_vector(alloc, &mut vectors, row.as_slice())?;
    }
    Ok(vectors)
}
