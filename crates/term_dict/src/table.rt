//! Named terms by their numbers, and their numbers by hash.
ghost use Rattle.std.specs.Prelude.{◌≡◌, ◌<◌, ◌≤◌, [], ◌∷◌, ◌++◌, IfOk, MatchOption, OnOk, get_or, length, map};
ghost use Rattle.std.specs.List.{AllByRecursion, Contains, IsDistinct};
ghost use Rattle.std.specs.Ordering.{eq_by_cmp};
ghost use Rattle.rdf_model.specs.Matching.{same_term};
ghost use Rattle.rdf_model.specs.Terms.{term_cmp};
ghost use Rattle.rdf_model.specs.Numbers.{IsNumbering, term_at};
ghost use Rattle.term_dict.specs.Entries.{entries_from, entry};
ghost use Rattle.term_dict.specs.Hashes.{term_hash};
ghost use Rattle.term_dict.specs.Names.{AreNumbersOf, IsNumberOf, with_term, with_terms};
ghost use Rattle.term_dict.specs.Tables.{IsNext, IsNoneFrom, NoneHashed};

use crate::entry::{ByHash, NamedTerm};
use crate::met::{MetTerm, MetTerms, hash_of};
use growing_list::GrowingList;
use page_index::Pages;
use rdf_model::Term;
use std::alloc::{AllocError, Global};
use std::marker::Model;
use std::sync::Arc;

// Named terms by their numbers, and their numbers by hash. Contracts see the list of the terms by their numbers.
#[derive(Drop)]
pub(crate) struct TermTable {
    alloc: Global,
    terms: GrowingList<NamedTerm>,
    by_hash: Pages<ByHash>,
}

impl Model for TermTable {
    ghost use Rattle.std.specs.Prelude.{List};
    ghost use Rattle.rdf_model.specs.declared.term.Term.{Term};
    ghost use Rattle.term_dict.specs.Tables.{AreOne};

    ghost Value = { List Term };

    ghost view = { λ t. t.terms };

    ghost invariant = { λ t. AreOne t.terms t.by_hash };
}

impl TermTable {
    pub(crate) fn new(alloc: Global) -> TermTable
        ensures { result ≡ [] }
    {
        TermTable {
            alloc,
            terms: GrowingList::new(alloc),
            by_hash: Pages::new(alloc),
        }
    }

    pub(crate) fn len(&self) -> usize
        ensures { result ≡ length self.now }
    {
        self.terms.len()
    }

    // Another table with the same terms, of which none is copied.
    pub(crate) fn share(&self) -> Result<TermTable, AllocError>
        ensures { IfOk result (λ share. share ≡ self.now) }
    {
        Ok(TermTable {
            alloc: self.alloc,
            terms: self.terms.share()?,
            by_hash: self.by_hash.share()?,
        })
    }

    // No term has two numbers.
    pub(crate) fn recall_numbering(&self)
        ensures { IsNumbering self.now }
    {
        let _ = &self.alloc;
    }

    // The term of a number.
    pub(crate) fn term(&self, number: usize) -> Option<&Term>
        ensures { MatchOption result (length self.now ≤ number) (λ term. (number < length self.now) × (term.now ≡ term_at self.now number)) }
    {
        match self.terms.get(number) {
            Some(named) => Some(&named.term),
            None => None,
        }
    }

    // Whether a number is a term's.
    fn is_at(&self, number: usize, term: &Term) -> bool
        requires { number < length self.now }
        ensures { result ≡ same_term (term_at self.now number) term.now }
    {
        match self.term(number) {
            Some(named) => *named == *term,
            None => false,
        }
    }

    // The next number, from one on, of a term with a hash.
    fn next_with(&self, hash: u64, from: usize) -> Option<usize>
        ensures { MatchOption result (NoneHashed self.now hash from (length self.now)) (λ number. IsNext self.now hash from number) }
    {
        match self
            .by_hash
            .seek(|entry| entry.cmp(&ByHash { hash, number: from }))
        {
            Some(entry) => {
                if entry.hash == hash {
                    return Some(entry.number);
                }
                None
            }
            None => None,
        }
    }

    // The number of a term, where that isn't below one.
    fn number_from(&self, term: &Term, hash: u64, from: usize) -> Option<usize>
        requires { hash ≡ term_hash term.now }
        ensures { MatchOption result (IsNoneFrom self.now from term.now) (λ number. IsNumberOf self.now term.now number) }
    {
        // (a number is below it, so that one more can be told)
        let count = self.len();
        match self.next_with(hash, from) {
            Some(number) => {
                if self.is_at(number, term) {
                    return Some(number);
                }
                self.number_from(term, hash, number + 1)
            }
            None => None,
        }
    }

    // The number of a term, whose hash is given.
    fn number_of(&self, term: &Term, hash: u64) -> Option<usize>
        requires { hash ≡ term_hash term.now }
        ensures { MatchOption result (Contains self.now term.now → ⊥) (λ number. IsNumberOf self.now term.now number) }
    {
        self.number_from(term, hash, 0)
    }

    // The number of a term.
    pub(crate) fn number(&self, term: &Term) -> Option<usize>
        ensures { MatchOption result (Contains self.now term.now → ⊥) (λ number. IsNumberOf self.now term.now number) }
    {
        self.number_of(term, hash_of(term))
    }

    // The table with a term that is new to it, whose hash is given.
    fn with_new(self, term: &Term, hash: u64) -> Result<TermTable, AllocError>
        requires new { Contains self term.now → ⊥ }
        requires hash { hash ≡ term_hash term.now }
        ensures { IfOk result (λ next. next ≡ self ++ term.now ∷ []) }
    {
        let TermTable {
            alloc,
            mut terms,
            mut by_hash,
        } = self;
        let number = terms.len();
        let term = Arc::new(alloc, term.clone()?)?;
        terms.push(NamedTerm { term })?;
        let _ = by_hash.insert(ByHash { hash, number })?;
        Ok(TermTable {
            alloc,
            terms,
            by_hash,
        })
    }

    // The table with a term, and the number of that.
    fn with(self, term: &Term) -> Result<(TermTable, usize), AllocError>
        ensures table { IfOk result (λ next. next.0 ≡ with_term self term.now) }
        ensures number { IfOk result (λ next. IsNumberOf next.0 term.now next.1) }
    {
        let hash = hash_of(term);
        match self.number_of(term, hash) {
            Some(number) => Ok((self, number)),
            None => {
                let number = self.len();
                Ok((self.with_new(term, hash)?, number))
            }
        }
    }
}

// Adds a term, and its entry by hash.
fn push_entry(
    alloc: Global,
    number: usize,
    term: &Term,
    terms: &mut GrowingList<NamedTerm>,
    by_hash: &mut Vec<ByHash>,
) -> Result<(), AllocError>
    ensures terms { OnOk result (terms.new ≡ terms.old ++ term.now ∷ []) }
    ensures entries { OnOk result (by_hash.new.items ≡ by_hash.old.items ++ entry number term.now ∷ []) }
{
    let hash = hash_of(term);
    let term = Arc::new(alloc, term.clone()?)?;
    terms.push(NamedTerm { term })?;
    by_hash.push(ByHash { hash, number })?;
    Ok(())
}

// The terms, and their entries, which are numbered by their places.
fn entries_of(
    alloc: Global,
    terms: &[MetTerm],
) -> Result<(GrowingList<NamedTerm>, Vec<ByHash>), AllocError>
    ensures terms { IfOk result (λ named. named.0 ≡ terms.now) }
    ensures entries { IfOk result (λ named. named.1.items ≡ entries_from 0 terms.now) }
{
    let mut named = GrowingList::new(alloc);
    let mut by_hash = Vec::with_capacity(alloc, terms.len())?;
    for (number, met) in terms.iter().enumerate() {
        push_entry(alloc, number, met.term, &mut named, &mut by_hash)?;
    }
    Ok((named, by_hash))
}

// The table of terms, no two of which are equal.
fn table_of(alloc: Global, terms: &[MetTerm]) -> Result<TermTable, AllocError>
    requires { IsDistinct (eq_by_cmp term_cmp) terms.now }
    ensures { IfOk result (λ table. table ≡ terms.now) }
{
    let (terms, mut by_hash) = entries_of(alloc, terms)?;
    by_hash.sort()?;
    Ok(TermTable {
        alloc,
        terms,
        by_hash: Pages::from_sorted(alloc, &by_hash)?,
    })
}

// The terms of a table, as they are met in the order of their numbers.
fn met_again<'a>(alloc: Global, table: &'a TermTable) -> Result<MetTerms<'a>, AllocError>
    ensures { IfOk result (λ met. met ≡ table.now) }
{
    table.recall_numbering();
    let mut met = MetTerms::new(alloc);
    for number in 0..table.len() {
        match table.term(number) {
            Some(term) => {
                let _ = met.place(term)?;
            }
            None => unreachable!(),
        }
    }
    Ok(met)
}

// The table with each of the terms, built at once, and their numbers.
fn rebuilt_with<'a>(
    alloc: Global,
    table: &'a TermTable,
    terms: &'a [Term],
) -> Result<(TermTable, Vec<usize>), AllocError>
    ensures table { IfOk result (λ next. next.0 ≡ with_terms table.now terms.now) }
    ensures numbers { IfOk result (λ next. AreNumbersOf next.0 terms.now next.1.items) }
{
    let mut met = met_again(alloc, table)?;
    let numbers = met.place_all(terms)?;
    Ok((table_of(alloc, met.terms())?, numbers))
}

// The table with each of the terms, put into it one by one, and their numbers.
fn extended_with(
    alloc: Global,
    table: TermTable,
    terms: &[Term],
) -> Result<(TermTable, Vec<usize>), AllocError>
    ensures table { IfOk result (λ next. next.0 ≡ with_terms table terms.now) }
    ensures numbers { IfOk result (λ next. AreNumbersOf next.0 terms.now next.1.items) }
{
    let mut numbers = Vec::with_capacity(alloc, terms.len())?;
    let mut table = table;
    for term in terms {
        let (next, number) = table.with(term)?;
        table = next;
        numbers.push(number)?;
    }
    Ok((table, numbers))
}

// The table with each of the terms, and their numbers. Where the table has no more terms than the list, it is built anew at once,
// which takes less time than to put the terms into its pages one by one.
pub(crate) fn with_all(
    alloc: Global,
    table: TermTable,
    terms: &[Term],
) -> Result<(TermTable, Vec<usize>), AllocError>
    ensures table { IfOk result (λ next. next.0 ≡ with_terms table terms.now) }
    ensures numbers { IfOk result (λ next. AreNumbersOf next.0 terms.now next.1.items) }
{
    if table.len() <= terms.len() {
        return rebuilt_with(alloc, &table, terms);
    }
    extended_with(alloc, table, terms)
}
