//! Rows of terms while they are put in order.
ghost use Rattle.std.specs.Prelude.{◌≡◌, ◌<◌, IfOk, length, map};
ghost use Rattle.std.specs.Cmp.{partial_equiv_from_equiv, eq_by_cmp_equiv, partial_order_from_total};
ghost use Rattle.std.specs.Ordering.{as_partial_cmp, eq_by_cmp};
ghost use Rattle.rdf_model.specs.Numbers.{term_at};
ghost use Rattle.term_joins.specs.Numbered.{AreBelow, AreRowsBelow};
ghost use Rattle.term_joins.specs.Orders.{row_cmp, row_exact, row_total};

use collections::{ExactOrder, Sequence};
use rdf_model::{Names, Term};
use std::alloc::{AllocError, Global};
use std::cmp::Ordering;
use std::marker::Model;

/// The terms of the variables, in their order. Rows are compared from the first term on.
#[derive(Debug)]
pub(crate) struct TermRow {
    terms: Sequence<Term>,
}

impl Model for TermRow {
    ghost use Rattle.std.specs.Prelude.{List};
    ghost use Rattle.rdf_model.specs.declared.term.Term.{Term};

    ghost Value = { List Term };

    ghost view = { λ r. r.terms };
}

// Written by hand, so that what owns one calls it in place of having it written out.
impl Drop for TermRow {
    fn drop(self) {
        let TermRow { terms: _ } = self;
    }
}

impl Ord for TermRow {
    ghost use Rattle.std.proofs.Common.{refl};

    ghost cmp = { row_cmp };

    ghost total = { row_total };

    ghost matches_partial_cmp = { λ x y. refl };

    ghost matches_eq = { λ x y. refl };

    fn cmp(&self, other: &TermRow) -> Ordering {
        self.terms.as_slice().cmp(&other.terms.as_slice())
    }
}

impl PartialOrd for TermRow {
    ghost partial_cmp = { as_partial_cmp row_cmp };

    ghost laws = { partial_order_from_total row_total };

    fn partial_cmp(&self, other: &TermRow) -> Option<Ordering> {
        Some(self.cmp(other))
    }
}

impl PartialEq for TermRow {
    ghost eq = { eq_by_cmp row_cmp };

    ghost laws = { partial_equiv_from_equiv (eq_by_cmp_equiv row_total) };

    fn eq(&self, other: &TermRow) -> bool {
        self.cmp(other) == Ordering::Equal
    }
}

impl Eq for TermRow {
    ghost laws = { eq_by_cmp_equiv row_total };
}

impl ExactOrder for TermRow {
    ghost tied_is_equal = { row_exact };
}

impl TermRow {
    // Its terms. It takes no memory.
    fn into_terms(self) -> Sequence<Term>
        ensures { result ≡ self }
    {
        let TermRow { terms } = self;
        terms
    }
}

// A clone of the term of a number.
fn term_of<N: Names>(names: &N, number: u32) -> Result<Term, AllocError>
    requires { number < length (N.terms names.now) }
    ensures { IfOk result (λ term. term ≡ term_at (N.terms names.now) number) }
{
    match names.term(number) {
        Some(term) => term.clone(),
        None => unreachable!(),
    }
}

// The row of the terms of numbers.
fn read_row<N: Names>(alloc: Global, names: &N, numbers: &[u32]) -> Result<TermRow, AllocError>
    requires { AreBelow (N.terms names.now) numbers.now }
    ensures { IfOk result (λ row. row ≡ map (term_at (N.terms names.now)) numbers.now) }
{
    let mut terms = Vec::with_capacity(alloc, numbers.len())?;
    for number in numbers {
        terms.push(term_of(names, *number)?)?;
    }
    Ok(TermRow {
        terms: Sequence::from_vec(terms),
    })
}

/// The rows of the terms of numbers, in their order.
pub(crate) fn read_rows<N: Names>(
    alloc: Global,
    names: &N,
    rows: &[Vec<u32>],
) -> Result<Vec<TermRow>, AllocError>
    requires { AreRowsBelow (N.terms names.now) (map (λ v. v.items) rows.now) }
    ensures { IfOk result (λ named. named.items ≡ map (map (term_at (N.terms names.now))) (map (λ v. v.items) rows.now)) }
{
    let mut named = Vec::with_capacity(alloc, rows.len())?;
    for row in rows {
        named.push(read_row(alloc, names, row)?)?;
    }
    Ok(named)
}

/// The terms of rows, in their order.
pub(crate) fn terms_of(alloc: Global, rows: Vec<TermRow>) -> Result<Vec<Sequence<Term>>, AllocError>
    ensures { IfOk result (λ terms. terms.items ≡ rows.items) }
{
    let mut rest = rows;
    rest.reverse();
    let mut terms = Vec::with_capacity(alloc, rest.len())?;
    while let Some(row) = rest.pop() {
        terms.push(row.into_terms())?;
    }
    Ok(terms)
}
