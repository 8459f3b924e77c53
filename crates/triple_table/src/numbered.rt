//! Terms, each once, by their numbers.
ghost use Rattle.std.specs.Prelude.{◌≡◌, ◌↔◌, ◌+◌, ◌<◌, ◌^◌, [], ◌∷◌, ◌++◌, IfOk, IsTrue, MatchOption, OnErr, OnOk, length};
ghost use Rattle.std.specs.List.{Contains};
ghost use Rattle.rdf_model.specs.Numbers.{IsNumbering, term_at};
ghost use Rattle.triple_table.specs.Hashes.{term_hash};
ghost use Rattle.triple_table.specs.Tables.{HasGrown, IsNewest, IsPlaceOf, IsTripleOf, with_term};

use crate::hashed::hash_of;
use rdf_model::{Ids, Names, Term, Text};
use std::alloc::{AllocError, Global};
use std::collections::HashMap;
use std::marker::Model;

/// Terms, each once, whose numbers are the places of their first appearance. Contracts see the list of the terms.
#[derive(Debug)]
pub struct NumberedTerms {
    terms: Vec<Term>,
    // (the newest number of a term with a hash, and for each number the next older one of a term with its hash)
    newest: HashMap<u64, u32>,
    older: Vec<Option<u32>>,
    // (datatypes and language tags that were met, which the literals share that have them)
    met: Vec<Text>,
}

// So many datatypes and language tags are shared: most graphs have few.
const MOST_SHARED: usize = 16;

// The text, which shares its characters with one that was met, where it is among those; it joins them while there is room.
fn shared(met: &mut Vec<Text>, text: &Text) -> Result<Text, AllocError>
    ensures { IfOk result (λ shared. shared ≡ text.now) }
{
    for other in &*met {
        if *other == *text {
            return other.clone();
        }
    }
    if met.len() < MOST_SHARED {
        met.push(text.clone()?)?;
    }
    text.clone()
}

// Written by hand, so that what owns such terms calls it in place of having it written out.
impl Drop for NumberedTerms {
    fn drop(self) {
        let NumberedTerms {
            terms: _,
            newest: _,
            older: _,
            met: _,
        } = self;
    }
}

impl Model for NumberedTerms {
    ghost use Rattle.std.specs.Prelude.{List, nat_eq};
    ghost use Rattle.std.specs.HashMap.{get};
    ghost use Rattle.rdf_model.specs.declared.term.Term.{Term as TermData};
    ghost use Rattle.triple_table.specs.Tables.{AreOne};

    ghost Value = { List TermData };

    ghost view = { λ t. t.terms.items };

    ghost invariant = { λ t. AreOne t.terms.items (λ h. get nat_eq t.newest h) t.older.items };
}

impl NumberedTerms {
    pub(crate) fn new(alloc: Global) -> NumberedTerms
        ensures { result ≡ [] }
    {
        NumberedTerms {
            terms: Vec::new(alloc),
            newest: HashMap::new(alloc),
            older: Vec::new(alloc),
            met: Vec::new(alloc),
        }
    }

    /// The terms, in the order of their numbers.
    pub fn into_list(self) -> Vec<Term>
        ensures { result.items ≡ self }
    {
        let NumberedTerms {
            terms,
            newest: _,
            older: _,
            met: _,
        } = self;
        terms
    }

    /// No term has two numbers. It does nothing: its contract is what the type keeps.
    pub fn recall_numbering(&self)
        ensures { IsNumbering self.now }
    {
        let _ = &self.terms;
    }

    // Whether a number is a term's.
    fn is_at(&self, number: u32, term: &Term) -> bool
        ensures { IsTrue result ↔ IsPlaceOf self.now number term.now }
    {
        match self.terms.get(number as usize) {
            Some(found) => *found == *term,
            None => false,
        }
    }

    // The newest number of a term with a hash.
    fn newest_with(&self, hash: u64) -> Option<u32>
        ensures { IsNewest self.now hash (length self.now) result }
    {
        self.newest.get(&hash).copied()
    }

    // The next older number of a term with the hash of that of a number.
    fn older_than(&self, number: u32) -> Option<u32>
        requires { number < length self.now }
        ensures { IsNewest self.now (term_hash (term_at self.now number)) number result }
    {
        self.older[number as usize]
    }

    // The number of a term, whose hash is given.
    fn number_of(&self, term: &Term, hash: u64) -> Option<u32>
        requires { hash ≡ term_hash term.now }
        ensures { MatchOption result (Contains self.now term.now → ⊥) (λ number. IsPlaceOf self.now number term.now) }
    {
        let mut next = self.newest_with(hash);
        while let Some(number) = next {
            if self.is_at(number, term) {
                return Some(number);
            }
            next = self.older_than(number);
        }
        None
    }

    // The number that the next new term has. There are 2^32 - 1 in all.
    fn free_number(&self) -> Result<u32, AllocError>
        ensures { IfOk result (λ number. (number ≡ length self.now) × (number + 1 < 2 ^ 32)) }
    {
        let count = self.terms.len();
        if count >= u32::MAX as usize {
            return Err(AllocError);
        }
        Ok(count as u32)
    }

    // Lets a literal share the characters of its datatype and of its language tag with others that have them.
    fn share_parts(&mut self, term: &mut Term) -> Result<(), AllocError>
        ensures term { term.new ≡ term.old }
        ensures terms { self.new ≡ self.old }
    {
        if let Term::Literal {
            datatype,
            language,
            ..
        } = term
        {
            *datatype = shared(&mut self.met, datatype)?;
            if let Some(tag) = language {
                *tag = shared(&mut self.met, tag)?;
            }
        }
        Ok(())
    }

    // Puts a term that is new, whose hash is given, behind the others.
    fn append(&mut self, term: Term, hash: u64) -> Result<u32, AllocError>
        requires new { Contains self.old term → ⊥ }
        requires hash { hash ≡ term_hash term }
        ensures ok { OnOk result (self.new ≡ self.old ++ term ∷ []) }
        ensures number { IfOk result (λ number. IsPlaceOf self.new number term) }
        ensures err { OnErr result (self.new ≡ self.old) }
    {
        let number = self.free_number()?;
        self.terms.reserve(1)?;
        self.older.reserve(1)?;
        let older = self.newest.insert(hash, number)?;
        self.older.push(older).unwrap();
        self.terms.push(term).unwrap();
        Ok(number)
    }

    // Adds a term that is new, whose hash is given.
    fn push(&mut self, term: Term, hash: u64) -> Result<u32, AllocError>
        requires new { Contains self.old term → ⊥ }
        requires hash { hash ≡ term_hash term }
        ensures ok { OnOk result (self.new ≡ self.old ++ term ∷ []) }
        ensures number { IfOk result (λ number. IsPlaceOf self.new number term) }
        ensures err { OnErr result (self.new ≡ self.old) }
    {
        let mut term = term;
        self.share_parts(&mut term)?;
        Ok(self.append(term, hash)?)
    }

    /// The number of a term, which becomes the last one where it has none. It fails for want of memory, or of numbers, and the
    /// terms are then as they were.
    pub fn add(&mut self, term: &Term) -> Result<u32, AllocError>
        ensures ok { OnOk result (self.new ≡ with_term self.old term.now) }
        ensures number { IfOk result (λ number. IsPlaceOf self.new number term.now) }
        ensures err { OnErr result (self.new ≡ self.old) }
    {
        let hash = hash_of(term);
        match self.number_of(term, hash) {
            Some(number) => Ok(number),
            None => Ok(self.push(term.clone()?, hash)?),
        }
    }

    // The place of a term that is given away, which is not copied and becomes the last one where it is new.
    fn place(&mut self, term: Term) -> Result<u32, AllocError>
        ensures grown { HasGrown self.old self.new }
        ensures place { IfOk result (λ place. IsPlaceOf self.new place term) }
    {
        let hash = hash_of(&term);
        match self.number_of(&term, hash) {
            Some(number) => Ok(number),
            None => Ok(self.push(term, hash)?),
        }
    }

    // The number of a term, which may be one that is told, and which becomes the last one where it has none.
    fn place_near(&mut self, near: u32, term: &Term) -> Result<u32, AllocError>
        ensures grown { HasGrown self.old self.new }
        ensures place { IfOk result (λ place. IsPlaceOf self.new place term.now) }
    {
        if self.is_at(near, term) {
            return Ok(near);
        }
        Ok(self.add(term)?)
    }

    // The numbers of the triple of three terms, of which the first two are often those of the numbers that are told.
    pub(crate) fn place_all(
        &mut self,
        near: Ids,
        subject: &Term,
        predicate: &Term,
        object: Term,
    ) -> Result<Ids, AllocError>
        ensures grown { HasGrown self.old self.new }
        ensures ids { IfOk result (λ ids. IsTripleOf self.new ids (record { subject = subject.now; predicate = predicate.now; object = object })) }
    {
        let subject = self.place_near(near.subject, subject)?;
        let predicate = self.place_near(near.predicate, predicate)?;
        let object = self.place(object)?;
        Ok(Ids {
            subject,
            predicate,
            object,
        })
    }
}

impl Names for NumberedTerms {
    ghost terms = { λ names. names };

    fn term(&self, number: u32) -> Option<&Term> {
        self.terms.get(number as usize)
    }

    fn count(&self) -> u32 {
        self.terms.len() as u32
    }

    fn id(&self, term: &Term) -> Option<u32> {
        self.number_of(term, hash_of(term))
    }
}
