// Lists of pairs of nodes.
ghost use Rattle.std.specs.Prelude.{◌≡◌, ◌⊎◌, ◌↔◌, IfOk, IsTrue, OnOk};
ghost use Rattle.std.specs.List.{Contains};
ghost use Rattle.plain_terms.specs.Finds.{Finds, WithSome};
ghost use Rattle.plain_terms.specs.Pairs.{EndOf, FromTriple, Linked, Through, Reversed};

use crate::is_same;
use crate::relation::{Pair, pair_if, pair_of};
use collections::Sequence;
use rdf_model::{Term, Triple};
use std::alloc::{AllocError, Global};

/// The subjects and objects of the triples with the predicate.
pub(crate) fn pairs_of(
    alloc: Global,
    graph: &[Triple],
    predicate: &Term,
) -> Result<Vec<Pair>, AllocError>
    ensures { IfOk result (λ pairs. Finds (WithSome graph.now (FromTriple predicate.now)) pairs.items) }
{
    let mut pairs = Vec::new(alloc);
    for triple in graph {
        let along = is_same(&triple.predicate, predicate);
        let mut more = pair_if(alloc, along, &triple.subject, &triple.object)?;
        pairs.append(&mut more)?;
    }
    Ok(pairs)
}

/// Each pair the other way round.
pub(crate) fn reversed_pairs(alloc: Global, pairs: &[Pair]) -> Result<Vec<Pair>, AllocError>
    ensures { IfOk result (λ reversed. Finds (WithSome pairs.now Reversed) reversed.items) }
{
    let mut reversed = Vec::new(alloc);
    for pair in pairs {
        reversed.push(pair_of(&pair.to, &pair.from)?)?;
    }
    Ok(reversed)
}

// From the start of the pair to the ends of those that begin where it ends.
fn pairs_after(alloc: Global, pair: &Pair, others: &[Pair]) -> Result<Vec<Pair>, AllocError>
    ensures { IfOk result (λ found. Finds (WithSome others.now (Linked pair.now)) found.items) }
{
    let mut found = Vec::new(alloc);
    for other in others {
        let meets = is_same(&pair.to, &other.from);
        let mut more = pair_if(alloc, meets, &pair.from, &other.to)?;
        found.append(&mut more)?;
    }
    Ok(found)
}

/// From the start of a pair to the end of one of the others that begins where it ends.
pub(crate) fn pairs_through(
    alloc: Global,
    pairs: &[Pair],
    others: &[Pair],
) -> Result<Vec<Pair>, AllocError>
    ensures { IfOk result (λ found. Finds (Through pairs.now others.now) found.items) }
{
    let mut found = Vec::new(alloc);
    for pair in pairs {
        let mut more = pairs_after(alloc, pair, others)?;
        found.append(&mut more)?;
    }
    Ok(found)
}

/// From the node to each of the ends.
pub(crate) fn pairs_from(alloc: Global, from: &Term, ends: &[Term]) -> Result<Vec<Pair>, AllocError>
    ensures { IfOk result (λ pairs. Finds (WithSome ends.now (λ to pair. pair ≡ record { from = from.now; to = to })) pairs.items) }
{
    let mut pairs = Vec::new(alloc);
    for to in ends {
        pairs.push(pair_of(from, to)?)?;
    }
    Ok(pairs)
}

// The end of the pair, if it begins at the node.
fn end_if(alloc: Global, pair: &Pair, node: &Term) -> Result<Vec<Term>, AllocError>
    ensures { IfOk result (λ ends. Finds (EndOf node.now pair.now) ends.items) }
{
    let mut ends = Vec::new(alloc);
    if is_same(&pair.from, node) {
        ends.push(pair.to.clone()?)?;
    }
    Ok(ends)
}

/// The ends of the pairs that begin at the node.
pub(crate) fn ends_at(alloc: Global, pairs: &[Pair], node: &Term) -> Result<Vec<Term>, AllocError>
    ensures { IfOk result (λ ends. Finds (WithSome pairs.now (EndOf node.now)) ends.items) }
{
    let mut ends = Vec::new(alloc);
    for pair in pairs {
        let mut more = end_if(alloc, pair, node)?;
        ends.append(&mut more)?;
    }
    Ok(ends)
}

fn is_same_pair(pair: &Pair, other: &Pair) -> bool
    ensures { IsTrue result ↔ (pair.now ≡ other.now) }
{
    is_same(&pair.from, &other.from) && is_same(&pair.to, &other.to)
}

/// Whether the pair is one of the list.
pub(crate) fn has_pair(pairs: &[Pair], pair: &Pair) -> bool
    ensures { IsTrue result ↔ Contains pairs.now pair.now }
{
    for other in pairs {
        if is_same_pair(other, pair) {
            return true;
        }
    }
    false
}

// Adds a pair that isn't there.
fn add_new(pairs: &mut Sequence<Pair>, pair: &Pair) -> Result<(), AllocError>
    ensures { OnOk result ((c : _) → Contains pairs.new c ↔ (Contains pairs.old c ⊎ (pair.now ≡ c))) }
{
    if !has_pair(pairs.as_slice(), pair) {
        pairs.push(pair_of(&pair.from, &pair.to)?)?;
    }
    Ok(())
}

/// The pairs, each once.
pub(crate) fn each_once(alloc: Global, pairs: &[Pair]) -> Result<Sequence<Pair>, AllocError>
    ensures { IfOk result (Finds (Contains pairs.now)) }
{
    let mut found = Sequence::new(alloc);
    for pair in pairs {
        add_new(&mut found, pair)?;
    }
    Ok(found)
}
