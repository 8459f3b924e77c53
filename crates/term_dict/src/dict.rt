//! Terms and their numbers.
ghost use Rattle.std.specs.Prelude.{◌≡◌, ◌+◌, ◌<◌, ◌≤◌, ◌^◌, IfErr, IfOk, OnErr, OnOk, length};
ghost use Rattle.std.specs.List.{AllByRecursion};
ghost use Rattle.rdf_model.specs.Numbers.{IsNumbering};
ghost use Rattle.term_dict.specs.Faults.{IsCause};
ghost use Rattle.term_dict.specs.Names.{AreNumbersOf, first_terms, named_with, with_terms};

use crate::fault::NameFault;
use crate::table::{TermTable, with_all};
use rdf_model::{Names, Term, Text};
use std::alloc::{AllocError, Global};
use std::marker::Model;
use vocabulary::{RDF_TYPE, RDFS_SUB_CLASS_OF};

/// Terms and their numbers.
///
/// Contracts see the list of its terms, by their numbers, and its limit.
pub struct Dict {
    alloc: Global,
    limit: usize,
    table: TermTable,
}

// Written by hand, so that what owns one calls it in place of having it written out.
impl Drop for Dict {
    fn drop(self) {
        let Dict {
            alloc: _,
            limit: _,
            table: _,
        } = self;
    }
}

impl Model for Dict {
    ghost use Rattle.std.specs.Prelude.{◌+◌, ◌<◌, ◌≤◌, ◌^◌, length};
    ghost use Rattle.term_dict.specs.Names.{Named};

    ghost Value = { Named };

    ghost view = { λ d. record { terms = d.table; limit = d.limit } };

    ghost invariant = { λ d. (2 ≤ length d.table) × (length d.table ≤ d.limit + 2) × (d.limit + 2 < 2 ^ 32) };
}

// The two terms that have a number from the start.
#[tactic(auto, unfolding(crate::specs::Names::first_terms))]
fn first_two(alloc: Global) -> Result<Vec<Term>, AllocError>
    ensures { IfOk result (λ terms. terms.items ≡ first_terms) }
{
    let mut terms = Vec::new(alloc);
    terms.push(Term::Iri(Text::new(alloc, RDF_TYPE)?))?;
    terms.push(Term::Iri(Text::new(alloc, RDFS_SUB_CLASS_OF)?))?;
    Ok(terms)
}

// The numbers, each of which is small.
fn narrowed(alloc: Global, numbers: &[usize]) -> Result<Vec<u32>, AllocError>
    requires { AllByRecursion (λ n. n < 2 ^ 32) numbers.now }
    ensures { IfOk result (λ narrow. narrow.items ≡ numbers.now) }
{
    let mut narrow = Vec::with_capacity(alloc, numbers.len())?;
    for number in numbers {
        narrow.push(*number as u32)?;
    }
    Ok(narrow)
}

impl Dict {
    /// A dictionary of rdf:type and rdfs:subClassOf, which have the numbers 0 and 1, that names as many
    /// terms beside them as the limit says.
    pub fn new(alloc: Global, limit: usize) -> Result<Dict, AllocError>
        requires { limit + 2 < 2 ^ 32 }
        ensures { IfOk result (λ dict. dict ≡ record { terms = first_terms; limit = limit }) }
    {
        let terms = first_two(alloc)?;
        let (table, _) = with_all(alloc, TermTable::new(alloc), &terms)?;
        Ok(Dict {
            alloc,
            limit,
            table,
        })
    }

    /// The numbers of the terms, in their order. Each term that is new gets the next number, in the order
    /// of the list; terms that have one keep it. After an error the dictionary is as it was.
    pub fn name_all(&mut self, terms: &[Term]) -> Result<Vec<u32>, NameFault>
        ensures ok { OnOk result (self.new ≡ named_with self.old terms.now) }
        ensures numbers { IfOk result (λ numbers. AreNumbersOf self.new.terms terms.now numbers.items) }
        ensures fits { OnOk result (length (with_terms self.old.terms terms.now) ≤ self.old.limit + 2) }
        ensures err { OnErr result (self.new ≡ self.old) }
        ensures cause { IfErr result (λ fault. IsCause fault self.old terms.now) }
    {
        let (table, numbers) = with_all(self.alloc, self.table.share()?, terms)?;
        let count = table.len() - 2;
        if count > self.limit {
            return Err(NameFault::Full { count });
        }
        let numbers = narrowed(self.alloc, &numbers)?;
        self.table = table;
        Ok(numbers)
    }

    /// A dictionary that stays as this one is, and sees no later term. It copies no term, and fails only
    /// where the owners of one page can't be counted.
    pub fn share(&self) -> Result<Dict, AllocError>
        ensures { IfOk result (λ share. share ≡ self.now) }
    {
        Ok(Dict {
            alloc: self.alloc,
            limit: self.limit,
            table: self.table.share()?,
        })
    }

    /// No term has two numbers. It does nothing: its contract is what the type keeps.
    pub fn recall_numbering(&self)
        ensures { IsNumbering self.now.terms }
    {
        self.table.recall_numbering();
    }
}

impl Names for Dict {
    ghost terms = { λ dict. dict.terms };

    fn term(&self, number: u32) -> Option<&Term> {
        self.table.term(number as usize)
    }

    fn count(&self) -> u32 {
        self.table.len() as u32
    }

    fn id(&self, term: &Term) -> Option<u32> {
        match self.table.number(term) {
            Some(number) => Some(number as u32),
            None => None,
        }
    }
}
