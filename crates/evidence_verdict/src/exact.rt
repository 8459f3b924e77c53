//! Whether a block lists looks and their triples as it should.
ghost use Rattle.std.specs.Prelude.{◌≡◌, ◌↔◌, ◌∷◌, IfOk, IsTrue, true, false};
ghost use Rattle.std.specs.List.{All, Contains};
ghost use Rattle.collections.specs.Ordered.{IsAscending};
ghost use Rattle.rdf_model.specs.Numbers.{AreNumbered, IsNumbering, graph_of};
ghost use Rattle.evidence_blocks.specs.Blocks.{HasTriples, looks_in};
ghost use Rattle.evidence_blocks.specs.LookOrder.{look_cmp};

use crate::lookup::numbered_look;
use evidence_blocks::{ListedLook, ShownLook};
use rdf_model::{Names, Triples};
use result_evidence::triples_under;
use std::alloc::{AllocError, Global};
use std::cmp::Ordering;

// Whether the first look stands before the second.
fn is_before(first: &ListedLook, second: &ListedLook) -> bool
    ensures { IsTrue result ↔ (look_cmp first.now second.now ≡ Ordering.Less) }
{
    match first.cmp(second) {
        Ordering::Less => true,
        _ => false,
    }
}

// Whether the look stands before the first of the others, if there are any.
fn leads(first: &ShownLook, others: &[ShownLook]) -> bool
    ensures yes { result ≡ true → IsAscending look_cmp (looks_in others.now) ↔ IsAscending look_cmp (first.now.look ∷ looks_in others.now) }
    ensures no { result ≡ false → IsAscending look_cmp (first.now.look ∷ looks_in others.now) → ⊥ }
{
    match others {
        [second, ..] => is_before(&first.look, &second.look),
        [] => true,
    }
}

/// Whether each look stands before the one behind it.
pub(crate) fn ascend(looks: &[ShownLook]) -> bool
    ensures { IsTrue result ↔ IsAscending look_cmp (looks_in looks.now) }
{
    let mut rest = looks;
    while let [first, others @ ..] = rest {
        if !leads(first, others) {
            return false;
        }
        rest = others;
    }
    true
}

// Whether under the look stand just its triples of the graph.
fn is_exact<R: Triples, N: Names>(
    alloc: Global,
    graph: &R,
    names: &N,
    shown: &ShownLook,
) -> Result<bool, AllocError>
    requires numbering { IsNumbering (N.terms names.now) }
    requires graph { AreNumbered (N.terms names.now) (R.triples graph.now) }
    ensures { IfOk result (λ answer. IsTrue answer ↔ HasTriples (graph_of (N.terms names.now) (R.triples graph.now)) shown.now) }
{
    match numbered_look(names, &shown.look.look) {
        Some(look) => {
            let triples = triples_under(alloc, graph, names, &look)?;
            Ok(triples.as_slice() == shown.triples.as_slice())
        }
        None => Ok(shown.triples.is_empty()),
    }
}

/// Whether under each of the looks stand just its triples of the graph.
pub(crate) fn are_exact<R: Triples, N: Names>(
    alloc: Global,
    graph: &R,
    names: &N,
    looks: &[ShownLook],
) -> Result<bool, AllocError>
    requires numbering { IsNumbering (N.terms names.now) }
    requires graph { AreNumbered (N.terms names.now) (R.triples graph.now) }
    ensures { IfOk result (λ answer. IsTrue answer ↔ All (HasTriples (graph_of (N.terms names.now) (R.triples graph.now))) looks.now) }
{
    for look in looks {
        if !is_exact(alloc, graph, names, look)? {
            return Ok(false);
        }
    }
    Ok(true)
}

// Whether the look is among those, which ascend.
fn is_listed(looks: &[ShownLook], look: &ListedLook) -> bool
    requires { IsAscending look_cmp (looks_in looks.now) }
    ensures { IsTrue result ↔ Contains (looks_in looks.now) look.now }
{
    let mut rest = looks;
    while !rest.is_empty() {
        let (lower, upper) = rest.split_at(rest.len() / 2);
        match upper[0].look.cmp(look) {
            Ordering::Equal => return true,
            Ordering::Greater => rest = lower,
            Ordering::Less => rest = &upper[1..],
        }
    }
    false
}

/// Whether each of the looks is among those of the block, which ascend.
pub(crate) fn are_listed(listed: &[ShownLook], looks: &[ListedLook]) -> bool
    requires { IsAscending look_cmp (looks_in listed.now) }
    ensures { IsTrue result ↔ All (Contains (looks_in listed.now)) looks.now }
{
    for look in looks {
        if !is_listed(listed, look) {
            return false;
        }
    }
    true
}
