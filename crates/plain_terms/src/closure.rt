// Chains of pairs.
ghost use Rattle.std.specs.Prelude.{◌≡◌, ◌↔◌, IfOk, IsTrue, MatchOption};
ghost use Rattle.std.specs.List.{Contains};
ghost use Rattle.plain_terms.specs.Finds.{Finds, WithSome};
ghost use Rattle.plain_terms.specs.Pairs.{IsReached, LeadsFurther, Reaching};

use crate::pairs::pairs_from;
use crate::relation::Pair;
use crate::{alone, is_among};
use collections::Sequence;
use rdf_model::Term;
use std::alloc::{AllocError, Global};

// Whether the pair leads from one of the nodes to one that isn't among them.
fn leads_further(pair: &Pair, nodes: &[Term]) -> bool
    ensures { IsTrue result ↔ LeadsFurther nodes.now pair.now }
{
    let begins = is_among(nodes, &pair.from);
    let is_known = is_among(nodes, &pair.to);
    begins && !is_known
}

// The end of a pair that does.
fn next_reached<'a>(pairs: &'a [Pair], nodes: &[Term]) -> Option<&'a Term>
    ensures { MatchOption result
        ((a : _) → Contains pairs.now a → LeadsFurther nodes.now a → ⊥)
        (λ node. (a : _) × Contains pairs.now a × LeadsFurther nodes.now a × (a.to ≡ node.now)) }
{
    for pair in pairs {
        if leads_further(pair, nodes) {
            return Some(&pair.to);
        }
    }
    None
}

// The nodes to which a chain of pairs leads from the node, which is one of them.
fn reached(alloc: Global, pairs: &[Pair], node: &Term) -> Result<Sequence<Term>, AllocError>
    ensures { IfOk result (λ found. Finds (IsReached pairs.now node.now) found) }
{
    let mut found = alone(alloc, node)?;
    while let Some(next) = next_reached(pairs, found.as_slice()) {
        found.push(next.clone()?)?;
    }
    Ok(found)
}

// From the start of the pair to all that chains of pairs reach from its end.
fn reached_by(alloc: Global, pairs: &[Pair], first: &Pair) -> Result<Vec<Pair>, AllocError>
    ensures { IfOk result (λ found. Finds (Reaching pairs.now first.now) found.items) }
{
    let ends = reached(alloc, pairs, &first.to)?;
    let found = pairs_from(alloc, &first.from, ends.as_slice())?;
    Ok(found)
}

/// The ends of all chains of one pair or more.
pub(crate) fn chained_pairs(alloc: Global, pairs: &[Pair]) -> Result<Vec<Pair>, AllocError>
    ensures { IfOk result (λ found. Finds (WithSome pairs.now (Reaching pairs.now)) found.items) }
{
    let mut found = Vec::new(alloc);
    for pair in pairs {
        let mut more = reached_by(alloc, pairs, pair)?;
        found.append(&mut more)?;
    }
    Ok(found)
}
