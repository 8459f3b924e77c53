// Relations that are made of others.
ghost use Rattle.std.specs.Prelude.{◌≡◌, ◌⊎◌, ◌&&◌, ◌||◌, IfOk, IsTrue};
ghost use Rattle.std.specs.List.{Contains};
ghost use Rattle.rdf_model.specs.declared.term.Term.{Term as TermData};
ghost use Rattle.shape_model.specs.Triples.{Has};
ghost use Rattle.plain_terms.specs.Finds.{Finds};
ghost use Rattle.plain_terms.specs.Relations.{Joins, JoinsInTurn, JoinsOnceOrMore, JoinsSomehow, Follows, Means};

use crate::closure::chained_pairs;
use crate::pairs::{each_once, ends_at, pairs_of, pairs_through, reversed_pairs};
use crate::relation::{Pair, Relation};
use collections::Sequence;
use rdf_model::{Term, Triple};
use std::alloc::{AllocError, Global};

// The relation with the pairs, each once.
fn relation_of(alloc: Global, pairs: &[Pair], is_reflexive: bool) -> Result<Relation, AllocError>
    ensures pairs { IfOk result (λ made. Finds (Contains pairs.now) made.pairs) }
    ensures reflexive { IfOk result (λ made. made.is_reflexive ≡ is_reflexive) }
{
    let pairs = each_once(alloc, pairs)?;
    Ok(Relation {
        pairs,
        is_reflexive,
    })
}

/// The relation of a predicate (SHACL section 2.3.1.1).
pub(crate) fn of_predicate(
    alloc: Global,
    graph: &[Triple],
    predicate: &Term,
) -> Result<Relation, AllocError>
    ensures { IfOk result (Means (λ x y. Has graph.now x predicate.now y)) }
{
    let pairs = pairs_of(alloc, graph, predicate)?;
    let made = relation_of(alloc, &pairs, false)?;
    Ok(made)
}

/// The relation the other way round (section 2.3.1.4).
pub(crate) fn reversed_relation(alloc: Global, relation: &Relation) -> Result<Relation, AllocError>
    ensures { IfOk result (Means (λ x y. Joins relation.now y x)) }
{
    let pairs = reversed_pairs(alloc, relation.pairs.as_slice())?;
    let made = relation_of(alloc, &pairs, relation.is_reflexive)?;
    Ok(made)
}

fn are_both(first: bool, second: bool) -> bool
    ensures { result ≡ (first && second) }
{
    first && second
}

fn is_either(first: bool, second: bool) -> bool
    ensures { result ≡ (first || second) }
{
    first || second
}

// The pairs where the flag is set, else none.
fn pairs_where(alloc: Global, is_so: bool, pairs: &[Pair]) -> Result<Vec<Pair>, AllocError>
    ensures { IfOk result (λ found. Finds (λ c. IsTrue is_so × Contains pairs.now c) found.items) }
{
    if is_so {
        let copy = each_once(alloc, pairs)?;
        return Ok(copy.into_vec());
    }
    Ok(Vec::new(alloc))
}

// The pairs of one relation and then the other.
fn followed_pairs(
    alloc: Global,
    first: &Relation,
    second: &Relation,
) -> Result<Vec<Pair>, AllocError>
    ensures { IfOk result (λ pairs. Finds (Follows first.now second.now) pairs.items) }
{
    let (before, after) = (first.pairs.as_slice(), second.pairs.as_slice());
    let mut pairs = pairs_through(alloc, before, after)?;
    let mut alone = pairs_where(alloc, second.is_reflexive, before)?;
    pairs.append(&mut alone)?;
    let mut others = pairs_where(alloc, first.is_reflexive, after)?;
    pairs.append(&mut others)?;
    Ok(pairs)
}

/// One relation and then the other.
pub(crate) fn followed_by(
    alloc: Global,
    first: &Relation,
    second: &Relation,
) -> Result<Relation, AllocError>
    ensures { IfOk result (Means (λ x y. (z : TermData) × Joins first.now x z × Joins second.now z y)) }
{
    let pairs = followed_pairs(alloc, first, second)?;
    let is_reflexive = are_both(first.is_reflexive, second.is_reflexive);
    let made = relation_of(alloc, &pairs, is_reflexive)?;
    Ok(made)
}

/// One relation or the other.
pub(crate) fn either(
    alloc: Global,
    first: &Relation,
    second: &Relation,
) -> Result<Relation, AllocError>
    ensures { IfOk result (Means (λ x y. Joins first.now x y ⊎ Joins second.now x y)) }
{
    let mut pairs = each_once(alloc, first.pairs.as_slice())?.into_vec();
    let mut more = each_once(alloc, second.pairs.as_slice())?.into_vec();
    pairs.append(&mut more)?;
    let is_reflexive = is_either(first.is_reflexive, second.is_reflexive);
    let made = relation_of(alloc, &pairs, is_reflexive)?;
    Ok(made)
}

/// The relation once or more often (section 2.3.1.6).
pub(crate) fn once_or_more(alloc: Global, relation: &Relation) -> Result<Relation, AllocError>
    ensures { IfOk result (Means (JoinsOnceOrMore relation.now)) }
{
    let pairs = chained_pairs(alloc, relation.pairs.as_slice())?;
    let made = relation_of(alloc, &pairs, relation.is_reflexive)?;
    Ok(made)
}

/// The relation, or no step (section 2.3.1.7).
pub(crate) fn or_none(alloc: Global, relation: &Relation) -> Result<Relation, AllocError>
    ensures { IfOk result (Means (λ x y. (x ≡ y) ⊎ Joins relation.now x y)) }
{
    let made = relation_of(alloc, relation.pairs.as_slice(), true)?;
    Ok(made)
}

/// The relation any number of times (section 2.3.1.5).
pub(crate) fn any_times(alloc: Global, relation: &Relation) -> Result<Relation, AllocError>
    ensures { IfOk result (Means (λ x y. (x ≡ y) ⊎ JoinsOnceOrMore relation.now x y)) }
{
    let chained = once_or_more(alloc, relation)?;
    let made = or_none(alloc, &chained)?;
    Ok(made)
}

/// One of the relations after the other (section 2.3.1.2).
pub(crate) fn in_turn(alloc: Global, relations: &[Relation]) -> Result<Relation, AllocError>
    ensures { IfOk result (Means (JoinsInTurn relations.now)) }
{
    let mut found = Relation {
        pairs: Sequence::new(alloc),
        is_reflexive: true,
    };
    for relation in relations {
        found = followed_by(alloc, &found, relation)?;
    }
    Ok(found)
}

/// Any of the relations (section 2.3.1.3).
pub(crate) fn any_of(alloc: Global, relations: &[Relation]) -> Result<Relation, AllocError>
    ensures { IfOk result (Means (JoinsSomehow relations.now)) }
{
    let mut found = Relation {
        pairs: Sequence::new(alloc),
        is_reflexive: false,
    };
    for relation in relations {
        found = either(alloc, &found, relation)?;
    }
    Ok(found)
}

/// The nodes to which the relation leads from the node.
pub(crate) fn ends_of(
    alloc: Global,
    relation: &Relation,
    node: &Term,
) -> Result<Vec<Term>, AllocError>
    ensures { IfOk result (λ ends. Finds (Joins relation.now node.now) ends.items) }
{
    let mut ends = ends_at(alloc, relation.pairs.as_slice(), node)?;
    if relation.is_reflexive {
        ends.push(node.clone()?)?;
    }
    Ok(ends)
}
