//! What the looks of a verdict read, by number.
ghost use Rattle.std.specs.Prelude.{◌≡◌, ◌&&◌, ◌<◌, ◌||◌, ℕ, [], IfOk, MatchOption, OnOk, filter, length};
ghost use Rattle.std.specs.Ordering.{nat_cmp};
ghost use Rattle.collections.specs.Ordered.{IsAscending, has_item};
ghost use Rattle.collections.specs.Pairs.{pair_cmp};
ghost use Rattle.rdf_model.specs.Graphs.{with_each};
ghost use Rattle.rdf_model.specs.Numbers.{AreNumbered, graph_of};
ghost use Rattle.store_model.specs.Store.{first_read};
ghost use Rattle.snapshot_store.specs.Asking.{AddsNumber, AddsPair, AreSorted, IsNumberAlike, IsPairAlike, IsUnnamed, LookAlike, LookSame, LooksBesides, NoneIsPaired, is_looked_at};

use crate::first::first_triple;
use collections::sorted_once;
use rdf_model::{Ids, Look, Names, Term, Triple};
use std::alloc::{AllocError, Global};
use std::marker::Model;
use term_dict::Dict;

// Looks by their kinds: at subject and predicate, at predicate and object, and at a subject.
#[derive(Drop)]
pub(crate) struct LookNumbers {
    out: Vec<(u32, u32)>,
    into: Vec<(u32, u32)>,
    any: Vec<u32>,
}

// The number of a term, by which it is compared.
fn number_of(names: &Dict, term: &Term) -> Option<u32>
    ensures { MatchOption result (IsUnnamed names.now.terms term.now) (IsNumberAlike names.now.terms term.now) }
{
    names.recall_numbering();
    names.id(term)
}

fn pair_of(names: &Dict, first: &Term, second: &Term) -> Option<(u32, u32)>
    ensures { MatchOption result (NoneIsPaired names.now.terms first.now second.now) (IsPairAlike names.now.terms first.now second.now) }
{
    Some((number_of(names, first)?, number_of(names, second)?))
}

// Adds the numbers of two terms. Where one has none nothing is added.
fn add_pair(
    names: &Dict,
    pairs: &mut Vec<(u32, u32)>,
    first: &Term,
    second: &Term,
) -> Result<(), AllocError>
    ensures { OnOk result (AddsPair names.now.terms first.now second.now pairs.old.items pairs.new.items) }
{
    match pair_of(names, first, second) {
        Some(pair) => {
            pairs.push(pair)?;
            Ok(())
        }
        None => Ok(()),
    }
}

fn add_number(names: &Dict, numbers: &mut Vec<u32>, term: &Term) -> Result<(), AllocError>
    ensures { OnOk result (AddsNumber names.now.terms term.now numbers.old.items numbers.new.items) }
{
    match number_of(names, term) {
        Some(number) => {
            numbers.push(number)?;
            Ok(())
        }
        None => Ok(()),
    }
}

// Adds the numbers of a look. One with a term that has no number reads nothing.
fn add_look(names: &Dict, numbers: &mut LookNumbers, look: &Look<Term>) -> Result<(), AllocError>
    ensures { OnOk result (LooksBesides names.now.terms look.now numbers.old numbers.new) }
{
    match look {
        Look::Out(subject, predicate) => {
            add_pair(names, &mut numbers.out, subject, predicate)?;
            Ok(())
        }
        Look::In(predicate, object) => {
            add_pair(names, &mut numbers.into, predicate, object)?;
            Ok(())
        }
        Look::OutAny(subject) => {
            add_number(names, &mut numbers.any, subject)?;
            Ok(())
        }
    }
}

// The numbers of the looks, as they come.
fn numbers_of(alloc: Global, names: &Dict, looks: &[Look<Term>]) -> Result<LookNumbers, AllocError>
    ensures { IfOk result (LookAlike names.now.terms looks.now) }
{
    let mut numbers = LookNumbers {
        out: Vec::new(alloc),
        into: Vec::new(alloc),
        any: Vec::new(alloc),
    };
    for look in looks {
        add_look(names, &mut numbers, look)?;
    }
    Ok(numbers)
}

// These looks in order, each once.
fn sorted(numbers: LookNumbers) -> Result<LookNumbers, AllocError>
    ensures same { IfOk result (LookSame numbers) }
    ensures sorted { IfOk result AreSorted }
{
    let LookNumbers { out, into, any } = numbers;
    Ok(LookNumbers {
        out: sorted_once(out)?,
        into: sorted_once(into)?,
        any: sorted_once(any)?,
    })
}

fn has_pair(pairs: &[(u32, u32)], first: u32, second: u32) -> bool
    requires { IsAscending pair_cmp pairs.now }
    ensures { result ≡ has_item pair_cmp (first, second) pairs.now }
{
    pairs.binary_search(&(first, second)).is_ok()
}

fn has_number(numbers: &[u32], number: u32) -> bool
    requires { IsAscending nat_cmp numbers.now }
    ensures { result ≡ has_item nat_cmp number numbers.now }
{
    numbers.binary_search(&number).is_ok()
}

// Whether one of the looks is at the triple.
fn looks_at(numbers: &LookNumbers, triple: Ids) -> bool
    requires { AreSorted numbers.now }
    ensures { result ≡ is_looked_at numbers.now triple }
{
    has_pair(&numbers.out, triple.subject, triple.predicate)
        || has_pair(&numbers.into, triple.predicate, triple.object)
        || has_number(&numbers.any, triple.subject)
}

// Those of the triples that are looked at.
fn looked_in(alloc: Global, numbers: &LookNumbers, triples: &[Ids]) -> Result<Vec<Ids>, AllocError>
    requires { AreSorted numbers.now }
    ensures { IfOk result (λ found. found.items ≡ filter (is_looked_at numbers.now) triples.now) }
{
    let mut found = Vec::new(alloc);
    for triple in triples {
        if looks_at(numbers, *triple) {
            found.push(*triple)?;
        }
    }
    Ok(found)
}

/// Looks, whose terms were looked up among the names of a store. Contracts see them and the names.
#[derive(Drop)]
pub(crate) struct LookSet<'a> {
    alloc: Global,
    names: &'a Dict,
    looks: &'a [Look<Term>],
    numbers: LookNumbers,
}

impl<'a> Model for LookSet<'a> {
    ghost use Rattle.snapshot_store.specs.Asking.{AreSorted, LookAlike};
    ghost use Rattle.snapshot_store.specs.Named.{NamedLooks};

    ghost Value = { NamedLooks };

    ghost view = { λ s. record { names = s.names.now.terms; looks = s.looks.now } };

    ghost invariant = { λ s. LookAlike s.names.now.terms s.looks.now s.numbers × AreSorted s.numbers };
}

impl<'a> LookSet<'a> {
    /// Looks up the terms of the looks.
    pub(crate) fn new(
        alloc: Global,
        names: &'a Dict,
        looks: &'a [Look<Term>],
    ) -> Result<LookSet<'a>, AllocError>
        ensures { IfOk result (λ set. set ≡ record { names = names.now.terms; looks = looks.now }) }
    {
        let read = numbers_of(alloc, names, looks)?;
        let numbers = sorted(read)?;
        Ok(LookSet {
            alloc,
            names,
            looks,
            numbers,
        })
    }

    /// The first triple that a look reads, by the terms of these triples of numbers.
    pub(crate) fn first_touched(&self, changed: &[Ids]) -> Result<Option<Triple>, AllocError>
        requires { AreNumbered self.now.names changed.now }
        ensures { IfOk result (λ first. first ≡ first_read self.now.looks (with_each [] (graph_of self.now.names changed.now))) }
    {
        let found = looked_in(self.alloc, &self.numbers, changed)?;
        let first = first_triple(self.names, &found)?;
        Ok(first)
    }
}
