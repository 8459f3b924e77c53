//! Numbers and places of the terms of a block, where they have any.
ghost use Rattle.std.specs.Prelude.{◌≡◌, ◌<◌, ℕ, MatchOption, Some, length, slice_get};
ghost use Rattle.std.specs.List.{Contains};
ghost use Rattle.rdf_model.specs.Numbers.{term_at};
ghost use Rattle.shape_ast.specs.Readings.{ReadShape, named_shapes};
ghost use Rattle.path_eval.specs.Naming.{IsBoundLook, look_of};
ghost use Rattle.result_evidence.specs.Standing.{HasNumbers};

use rdf_model::{Look, Names, Term, Triples};
use shape_eval::Evaluation;

// The numbers of two terms, if both have one.
fn two_numbers<N: Names>(names: &N, first: &Term, second: &Term) -> Option<(u32, u32)>
    ensures { MatchOption result (Contains (N.terms names.now) first.now → Contains (N.terms names.now) second.now → ⊥)
        (λ n. (n.0 < length (N.terms names.now)) × (n.1 < length (N.terms names.now)) × (term_at (N.terms names.now) n.0 ≡ first.now) × (term_at (N.terms names.now) n.1 ≡ second.now)) }
{
    match (names.id(first), names.id(second)) {
        (Some(first), Some(second)) => Some((first, second)),
        _ => None,
    }
}

/// The look by the numbers of its terms, if they have any.
pub(crate) fn numbered_look<N: Names>(names: &N, look: &Look<Term>) -> Option<Look<u32>>
    ensures { MatchOption result (HasNumbers (N.terms names.now) look.now → ⊥) (λ n. IsBoundLook (length (N.terms names.now)) n × (look_of (N.terms names.now) n ≡ look.now)) }
{
    match look {
        Look::Out(subject, predicate) => match two_numbers(names, subject, predicate) {
            Some((x, p)) => Some(Look::Out(x, p)),
            None => None,
        },
        Look::In(predicate, object) => match two_numbers(names, predicate, object) {
            Some((p, x)) => Some(Look::In(p, x)),
            None => None,
        },
        Look::OutAny(subject) => match names.id(subject) {
            Some(x) => Some(Look::OutAny(x)),
            None => None,
        },
    }
}

// The place of the shape whose node has the number.
fn place_with<R: Triples, N: Names>(evaluation: &Evaluation<'_, R, N>, node: u32) -> Option<usize>
    requires node { node < length evaluation.now.terms }
    ensures place { MatchOption result ((j : ℕ) (c : ReadShape) → slice_get (named_shapes evaluation.now.terms evaluation.now.shapes) j ≡ Some c → c.node ≡ term_at evaluation.now.terms node → ⊥)
        (λ place. (place < length evaluation.now.shapes) × ((c : ReadShape) → slice_get (named_shapes evaluation.now.terms evaluation.now.shapes) place ≡ Some c → c.node ≡ term_at evaluation.now.terms node)) }
{
    evaluation.recall();
    let bound = evaluation.bound();
    for (place, shape) in bound.shapes.as_slice().iter().enumerate() {
        if shape.node == node {
            return Some(place);
        }
    }
    None
}

/// The place of the shape that is the node, if there is one.
pub(crate) fn place_of<R: Triples, N: Names>(
    evaluation: &Evaluation<'_, R, N>,
    names: &N,
    node: &Term,
) -> Option<usize>
    requires names { N.terms names.now ≡ evaluation.now.terms }
    ensures { MatchOption result ((j : ℕ) (c : ReadShape) → slice_get (named_shapes evaluation.now.terms evaluation.now.shapes) j ≡ Some c → c.node ≡ node.now → ⊥)
        (λ place. (place < length evaluation.now.shapes) × ((c : ReadShape) → slice_get (named_shapes evaluation.now.terms evaluation.now.shapes) place ≡ Some c → c.node ≡ node.now)) }
{
    evaluation.recall();
    match names.id(node) {
        Some(number) => place_with(evaluation, number),
        None => None,
    }
}
