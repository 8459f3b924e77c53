//! Triples that are sorted by the ranks of their subjects and predicates, then by their objects.
ghost use Rattle.std.specs.Prelude.{◌≡◌, ◌<◌, IfOk, length, map};
ghost use Rattle.std.specs.List.{AllByRecursion, Contains};
ghost use Rattle.collections.specs.Listings.{IsListing};
ghost use Rattle.rdf_model.specs.Numbers.{AreNumbered, IsNumbering, graph_of, triple_at};
ghost use Rattle.rdf_model.specs.Terms.{triple_cmp};
ghost use Rattle.triple_table.specs.Ranks.{AreMarks, AreRanks, AreWithin, HaveBytes, IsBelow, IsRanking, placed_at, placed_marked, ranked, unranked};

use crate::keys::{beginning_of, key_of};
use crate::narrowed::narrowed;
use crate::placed::PlacedTerm;
use crate::ranked::RankedTriple;
use collections::{Sequence, sorted_once};
use rdf_model::{Ids, Term, Triple};
use std::alloc::{AllocError, Global};

// The terms that are a subject or a predicate in their order, and the rank of each of their numbers.
#[derive(Drop)]
struct Ranking<'a> {
    sorted: Vec<PlacedTerm<'a>>,
    ranks: Vec<u32>,
}

// The marks of the numbers of subjects and predicates.
fn marks_of(alloc: Global, terms: &[Term], triples: &[Ids]) -> Result<Vec<bool>, AllocError>
    requires { AreNumbered terms.now triples.now }
    ensures long { IfOk result (λ marks. length marks.items ≡ length terms.now) }
    ensures marks { IfOk result (λ marks. AreMarks marks.items triples.now) }
{
    let mut marks = vec![in alloc; false; terms.len()]?;
    for triple in triples {
        marks[triple.subject as usize] = true;
        marks[triple.predicate as usize] = true;
    }
    Ok(marks)
}

// The terms whose numbers are marked, with their keys and numbers.
fn placed_of<'a>(
    alloc: Global,
    beginning: &[u8],
    terms: &'a [Term],
    marks: &[bool],
) -> Result<Vec<PlacedTerm<'a>>, AllocError>
    requires { length marks.now ≡ length terms.now }
    ensures placed { IfOk result (λ placed. placed.items ≡ placed_marked beginning.now marks.now terms.now) }
    ensures bytes { IfOk result (λ placed. HaveBytes placed.items) }
{
    let mut placed = Vec::new(alloc);
    for (place, term) in terms.iter().enumerate() {
        if marks[place] {
            let place = narrowed(place)?;
            let key = key_of(beginning, term);
            placed.push(PlacedTerm { key, term, place })?;
        }
    }
    Ok(placed)
}

// The rank of each place.
fn ranks_of(alloc: Global, sorted: &[PlacedTerm], count: usize) -> Result<Vec<u32>, AllocError>
    requires { AreWithin count sorted.now }
    ensures long { IfOk result (λ ranks. length ranks.items ≡ count) }
    ensures ranks { IfOk result (λ ranks. AreRanks sorted.now (length sorted.now) ranks.items) }
{
    let mut ranks = vec![in alloc; 0; count]?;
    for (rank, placed) in sorted.iter().enumerate() {
        ranks[placed.place as usize] = narrowed(rank)?;
    }
    Ok(ranks)
}

// The terms that are a subject or a predicate in their order, and their ranks.
fn ranking_of<'a>(
    alloc: Global,
    terms: &'a [Term],
    triples: &[Ids],
) -> Result<Ranking<'a>, AllocError>
    requires numbering { IsNumbering terms.now }
    requires numbered { AreNumbered terms.now triples.now }
    ensures { IfOk result (λ ranking. IsRanking terms.now ranking.sorted.items ranking.ranks.items triples.now) }
{
    let marks = marks_of(alloc, terms, triples)?;
    let beginning = beginning_of(terms, triples);
    let placed = placed_of(alloc, beginning, terms, &marks)?;
    let sorted = sorted_once(placed)?;
    let ranks = ranks_of(alloc, &sorted, terms.len())?;
    Ok(Ranking { sorted, ranks })
}

// The triples by the ranks of their subjects and predicates.
fn ranked_of<'a>(
    alloc: Global,
    terms: &'a [Term],
    triples: &[Ids],
    ranks: &[u32],
) -> Result<Vec<RankedTriple<'a>>, AllocError>
    requires numbered { AreNumbered terms.now triples.now }
    requires long { length ranks.now ≡ length terms.now }
    ensures { IfOk result (λ found. found.items ≡ map (ranked terms.now ranks.now) triples.now) }
{
    let mut found = Vec::with_capacity(alloc, triples.len())?;
    for triple in triples {
        found.push(RankedTriple {
            subject: ranks[triple.subject as usize],
            predicate: ranks[triple.predicate as usize],
            object: &terms[triple.object as usize],
            number: triple.object,
        })?;
    }
    Ok(found)
}

// The number of the term of a rank.
fn number_of(sorted: &[PlacedTerm], rank: u32) -> u32
    requires { rank < length sorted.now }
    ensures { result ≡ (placed_at sorted.now rank).place }
{
    let placed = &sorted[rank as usize];
    placed.place
}

// The numbers of a triple of ranks.
fn numbers_of(sorted: &[PlacedTerm], triple: &RankedTriple) -> Ids
    requires { IsBelow (length sorted.now) triple.now }
    ensures { result ≡ unranked sorted.now triple.now }
{
    Ids {
        subject: number_of(sorted, triple.subject),
        predicate: number_of(sorted, triple.predicate),
        object: triple.number,
    }
}

// The numbers of triples of ranks.
fn unranked_of(
    alloc: Global,
    sorted: &[PlacedTerm],
    ranked: &[RankedTriple],
) -> Result<Vec<Ids>, AllocError>
    requires { AllByRecursion (IsBelow (length sorted.now)) ranked.now }
    ensures { IfOk result (λ found. found.items ≡ map (unranked sorted.now) ranked.now) }
{
    let mut found = Vec::with_capacity(alloc, ranked.len())?;
    for triple in ranked {
        found.push(numbers_of(sorted, triple))?;
    }
    Ok(found)
}

// The numbers of one triple, or of none, which stand in their order.
fn numbers_of_one(alloc: Global, triples: &[Ids]) -> Result<Vec<Ids>, AllocError>
    ensures { IfOk result (λ copy. copy.items ≡ triples.now) }
{
    let mut copy = Vec::with_capacity(alloc, triples.len())?;
    copy.extend_from_slice(triples)?;
    Ok(copy)
}

// The numbers of the triples of the numbers of terms, each triple once, in the order of the triples.
pub(crate) fn sorted_numbers(
    alloc: Global,
    terms: &[Term],
    triples: &[Ids],
) -> Result<Vec<Ids>, AllocError>
    requires numbering { IsNumbering terms.now }
    requires numbered { AreNumbered terms.now triples.now }
    ensures numbered { IfOk result (λ sorted. AreNumbered terms.now sorted.items) }
    ensures sorted { IfOk result (λ sorted. IsListing triple_cmp (Contains (graph_of terms.now triples.now)) (graph_of terms.now sorted.items)) }
{
    if triples.len() < 2 {
        let one = numbers_of_one(alloc, triples)?;
        return Ok(one);
    }
    let ranking = ranking_of(alloc, terms, triples)?;
    let ranked = sorted_once(ranked_of(alloc, terms, triples, &ranking.ranks)?)?;
    let numbers = unranked_of(alloc, &ranking.sorted, &ranked)?;
    Ok(numbers)
}

// The triple of three numbers, whose terms are copied.
fn triple_of(terms: &[Term], ids: &Ids) -> Result<Triple, AllocError>
    requires { (ids.now.subject < length terms.now) × (ids.now.predicate < length terms.now) × (ids.now.object < length terms.now) }
    ensures { IfOk result (λ triple. triple ≡ triple_at terms.now ids.now) }
{
    Ok(Triple {
        subject: terms[ids.subject as usize].clone()?,
        predicate: terms[ids.predicate as usize].clone()?,
        object: terms[ids.object as usize].clone()?,
    })
}

// The triples of numbers, whose terms are copied.
pub(crate) fn triples_of(
    alloc: Global,
    terms: &[Term],
    triples: &[Ids],
) -> Result<Sequence<Triple>, AllocError>
    requires { AreNumbered terms.now triples.now }
    ensures { IfOk result (λ found. found ≡ graph_of terms.now triples.now) }
{
    let mut found = Vec::with_capacity(alloc, triples.len())?;
    for ids in triples {
        found.push(triple_of(terms, ids)?)?;
    }
    Ok(Sequence::from_vec(found))
}
