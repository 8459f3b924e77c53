//! Naming the terms of a list of triples, each of which is told once.
ghost use Rattle.std.specs.Prelude.{ℕ, ◌≡◌, ◌++◌, [], IfErr, IfOk, IfSome, MatchBool, MatchResult, OnOk};
ghost use Rattle.std.specs.List.{AllByRecursion, flat_map};
ghost use Rattle.rdf_model.specs.Numbers.{AreNumbered, graph_of, triple_at};
ghost use Rattle.store_model.specs.Nodes.{unknown_by};
ghost use Rattle.store_model.specs.Store.{IsOpened, TakesStep, terms_of};
ghost use Rattle.term_dict.specs.Faults.{IsCause};
ghost use Rattle.triple_index.specs.Changes.{IsNumbered};
ghost use Rattle.data_graph.specs.DataGraphs.{names_of};
ghost use Rattle.commit_core.specs.Faults.{NamesNone};
ghost use Rattle.data_graph.specs.Numbering.{HasPlaces};
ghost use Rattle.commit_core.specs.Naming.{AreNamedAlike, IsListNaming, IsMetAt, part_numbers};

use crate::naming::{NamedTerms, NamingFault, name_terms, unknown_node};
use crate::store::{Core, slip};
use collections::Sequence;
use data_graph::{NumberHints, ValidatedGraph};
use event_history::NamedBlock;
use numbered_lists::TripleList;
use page_index::Pages;
use rdf_model::{Ids, Term};
use std::alloc::{AllocError, Global};
use store_model::{Action, NameKind, Reply};
use term_dict::NameFault;

// How many places were met once this one is, after so many; None where one before it was not.
fn met_with(next: usize, place: u32) -> Option<usize>
    ensures { IfSome result (IsMetAt next place) }
{
    let place = place as usize;
    if place < next {
        return Some(next);
    }
    if place == next {
        return Some(next + 1);
    }
    None
}

// How many places were met once those of a triple are, after so many; None where one before one of them was not.
fn met_with_triple(next: usize, ids: &Ids) -> Option<usize>
    ensures { IfSome result (λ later. (s p : ℕ) × IsMetAt next ids.now.subject s × IsMetAt s ids.now.predicate p × IsMetAt p ids.now.object later) }
{
    let subject = met_with(next, ids.subject)?;
    let predicate = met_with(subject, ids.predicate)?;
    met_with(predicate, ids.object)
}

// Whether the terms stand in the order in which the triples have them, each where it is met first. So it is where each was told as
// a triple with it was read.
fn are_met_in_order(terms: &[Term], triples: &[Ids]) -> bool
    requires { AreNumbered terms.now triples.now }
    ensures { MatchBool result (AreNamedAlike terms.now (flat_map terms_of (graph_of terms.now triples.now))) (Unit {0}) }
{
    let mut met = 0;
    for ids in triples {
        match met_with_triple(met, ids) {
            Some(later) => met = later,
            None => return false,
        }
    }
    met == terms.len()
}

// Adds the numbers at the places of a triple.
fn push_numbers(parts: &mut Vec<u32>, numbers: &[u32], ids: &Ids) -> Result<(), AllocError>
    requires { HasPlaces numbers.now ids.now }
    ensures { OnOk result (parts.new.items ≡ parts.old.items ++ part_numbers numbers.now ids.now) }
{
    parts.push(numbers[ids.subject as usize])?;
    parts.push(numbers[ids.predicate as usize])?;
    parts.push(numbers[ids.object as usize])?;
    Ok(())
}

// The numbers of the terms of triples, by those at their places.
fn numbers_of_parts(
    alloc: Global,
    numbers: &[u32],
    triples: &[Ids],
) -> Result<Sequence<u32>, AllocError>
    requires { AllByRecursion (HasPlaces numbers.now) triples.now }
    ensures { IfOk result (λ parts. parts ≡ flat_map (part_numbers numbers.now) triples.now) }
{
    let mut parts = Vec::with_capacity(alloc, triples.len().saturating_mul(3))?;
    for ids in triples {
        push_numbers(&mut parts, numbers, ids)?;
    }
    Ok(Sequence::from_vec(parts))
}

// Adds the terms of a triple.
fn push_parts(parts: &mut Vec<Term>, terms: &[Term], ids: &Ids) -> Result<(), AllocError>
    requires { IsNumbered terms.now ids.now }
    ensures { OnOk result (parts.new.items ≡ parts.old.items ++ terms_of (triple_at terms.now ids.now)) }
{
    parts.push(terms[ids.subject as usize].clone()?)?;
    parts.push(terms[ids.predicate as usize].clone()?)?;
    parts.push(terms[ids.object as usize].clone()?)?;
    Ok(())
}

// The terms of the triples, in order.
fn parts_of(alloc: Global, list: &TripleList) -> Result<Vec<Term>, AllocError>
    ensures { IfOk result (λ parts. parts.items ≡ flat_map terms_of list.now) }
{
    let (terms, triples) = list.parts();
    let mut parts = Vec::new(alloc);
    for ids in triples {
        push_parts(&mut parts, terms, ids)?;
    }
    Ok(parts)
}

// A list whose terms are named: the numbers by their places, and those of the terms of its triples, in order.
struct NamedList {
    named: NamedTerms,
    numbers: Vec<u32>,
    parts: Sequence<u32>,
}

// Written by hand, so that what owns one calls it in place of having it written out.
impl Drop for NamedList {
    fn drop(self) {
        let NamedList {
            named: _,
            numbers: _,
            parts: _,
        } = self;
    }
}

impl NamedList {
    // The named terms, the numbers by their places, and those of the terms of the triples.
    fn into_parts(self) -> (NamedTerms, Vec<u32>, Sequence<u32>)
        ensures { result ≡ (self.named, self.numbers, self.parts) }
    {
        let NamedList {
            named,
            numbers,
            parts,
        } = self;
        (named, numbers, parts)
    }
}

// Names terms in another graph, which stand in the order in which the triples have them, and of which no blank node stands in the
// way.
fn name_in_order(
    alloc: Global,
    graph: &ValidatedGraph,
    kind: NameKind,
    given: &Pages<Term>,
    terms: &[Term],
    triples: &[Ids],
) -> Result<NamedList, NameFault>
    requires numbered { AreNumbered terms.now triples.now }
    requires alike { AreNamedAlike terms.now (flat_map terms_of (graph_of terms.now triples.now)) }
    requires known { unknown_by kind given.now terms.now ≡ [] }
    ensures named { IfOk result (λ n. IsListNaming kind graph.now given.now (flat_map terms_of (graph_of terms.now triples.now)) n.named n.parts) }
    ensures cause { IfErr result (λ fault. IsCause fault (names_of graph.now) (flat_map terms_of (graph_of terms.now triples.now))) }
{
    given.recall_ascending();
    let (named, numbers) = name_terms(graph, kind, given, terms)?;
    let parts = numbers_of_parts(alloc, &numbers, triples)?;
    Ok(NamedList {
        named,
        numbers,
        parts,
    })
}

// Names the terms of the list in another graph, each once. None where they stand in another order than that of naming, where a
// blank node stands in the way, or where they are too many.
fn name_once(
    alloc: Global,
    graph: &ValidatedGraph,
    kind: NameKind,
    given: &Pages<Term>,
    list: &TripleList,
) -> Result<Option<NamedList>, AllocError>
    ensures { IfOk result (λ named. IfSome named (λ n. IsListNaming kind graph.now given.now (flat_map terms_of list.now) n.named n.parts)) }
{
    let (terms, triples) = list.parts();
    if !are_met_in_order(terms, triples) {
        return Ok(None);
    }
    let None = unknown_node(alloc, kind, given, terms)? else {
        return Ok(None);
    };
    match name_in_order(alloc, graph, kind, given, terms, triples) {
        Ok(named) => Ok(Some(named)),
        Err(NameFault::Full { count: _ }) => Ok(None),
        Err(NameFault::Memory) => Err(AllocError),
    }
}

/// Names the terms of a list of triples in another graph, where no blank node was given yet, and gives the numbers of the terms of
/// its triples, in order. A term of the list is looked up once, however many triples have it.
pub(crate) fn name_fresh(
    alloc: Global,
    graph: &ValidatedGraph,
    list: &TripleList,
) -> Result<(NamedTerms, Sequence<u32>), NameFault>
    ensures named { IfOk result (λ named. IsListNaming NameKind.Fresh graph.now [] (flat_map terms_of list.now) named.0 named.1) }
    ensures cause { IfErr result (λ fault. IsCause fault (names_of graph.now) (flat_map terms_of list.now)) }
{
    let given = Pages::new(alloc);
    let (terms, triples) = list.parts();
    if are_met_in_order(terms, triples) {
        let named = name_in_order(alloc, graph, NameKind::Fresh, &given, terms, triples)?;
        let (named, _, parts) = named.into_parts();
        return Ok((named, parts));
    }
    let parts = parts_of(alloc, list)?;
    let (named, numbers) = name_terms(graph, NameKind::Fresh, &given, &parts)?;
    Ok((named, Sequence::from_vec(numbers)))
}

impl Core {
    // Names the terms of the list as they stand in its triples, one after the other.
    fn name_parts(
        &mut self,
        session: u32,
        kind: NameKind,
        list: &TripleList,
    ) -> Result<NumberHints, NamingFault>
        requires { IsOpened self.old.state session }
        ensures { MatchResult result
            (λ _. TakesStep self.old self.new (record { session = session; action = Action.Name kind (flat_map terms_of list.now); reply = Reply.Named }))
            (λ fault. NamesNone fault self.old self.new session kind (flat_map terms_of list.now)) }
    {
        let parts = parts_of(self.alloc, list)?;
        match self.name(session, kind, &parts) {
            Ok(_) => Ok(NumberHints::new(self.alloc)),
            Err(fault) => Err(fault),
        }
    }

    /// Names the terms of a block as `name` does: those of the triples of the list, subject, predicate and object of each in
    /// order. A term of the list is looked up once, however many triples have it. The answer has the numbers by the places of
    /// the terms in the list.
    pub fn name_list(
        &mut self,
        session: u32,
        kind: NameKind,
        list: &TripleList,
    ) -> Result<NumberHints, NamingFault>
        requires { IsOpened self.old.state session }
        ensures { MatchResult result
            (λ _. TakesStep self.old self.new (record { session = session; action = Action.Name kind (flat_map terms_of list.now); reply = Reply.Named }))
            (λ fault. NamesNone fault self.old self.new session kind (flat_map terms_of list.now)) }
    {
        let Some(once) = name_once(self.alloc, &self.graph, kind, &self.given, list)? else {
            return self.name_parts(session, kind, list);
        };
        let slip = slip(self.alloc)?;
        let (named, numbers, parts) = once.into_parts();
        let block = NamedBlock {
            session,
            kind,
            numbers: parts,
        };
        self.put_named(slip, block, named);
        Ok(NumberHints::from_numbers(numbers))
    }
}
