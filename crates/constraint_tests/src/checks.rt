//! Tests of what the calls ask for, made on the tables' rows.
ghost use Rattle.std.specs.Prelude.{◌≡◌, ◌<◌, ℕ, [], IsTrue, length, map};
ghost use Rattle.std.specs.List.{All, Contains};
ghost use Rattle.rdf_model.specs.declared.ids.Ids.{Ids as IdsData};
ghost use Rattle.std.specs.Ordering.{nat_cmp};
ghost use Rattle.std.proofs.Common.{get_or};
ghost use Rattle.collections.specs.Ordered.{IsAscending};
ghost use Rattle.component_rows.specs.Conformance.{AreTold};
ghost use Rattle.component_rows.specs.Nodes.{AreNodes};
ghost use Rattle.rdf_model.specs.Numbers.{AreNumbered, IsNumbering, term_at};

use rdf_model::{Ids, ListNames, Names, Term};

// Whether no term before the place is the one there.
fn is_new(terms: &[Term], place: usize) -> bool
    requires { place < length terms.now }
    ensures { IsTrue result → (k : ℕ) → k < place → term_at terms.now k ≡ term_at terms.now place → ⊥ }
{
    for other in 0..place {
        if terms[other] == terms[place] {
            return false;
        }
    }
    true
}

// Whether no two of the terms are equal.
pub(crate) fn are_distinct(terms: &[Term]) -> bool
    ensures { IsTrue result → IsNumbering terms.now }
{
    for place in 0..terms.len() {
        if !is_new(terms, place) {
            return false;
        }
    }
    true
}

// Whether each number is a place of one of the terms.
pub(crate) fn are_named(numbers: &[u32], terms: &[Term]) -> bool
    ensures { IsTrue result → (n : _) → Contains numbers.now n → n < length terms.now }
{
    numbers
        .iter()
        .all(|number| (*number as usize) < terms.len())
}

// Whether each number has a name.
pub(crate) fn have_names(numbers: &[u32], names: &ListNames) -> bool
    ensures { IsTrue result → (n : _) → Contains numbers.now n → n < length names.now }
{
    let count = names.count();
    numbers.iter().all(|number| *number < count)
}

// Whether the ascending numbers are nodes.
pub(crate) fn are_nodes(numbers: &[u32], terms: &[Term]) -> bool
    requires { IsAscending nat_cmp numbers.now }
    ensures { IsTrue result → AreNodes terms.now numbers.now }
{
    are_named(numbers, terms)
}

fn are_below(triples: &[Ids], terms: usize) -> bool
    ensures { IsTrue result → All (λ (i : IdsData). (i.subject < terms) × (i.predicate < terms) × (i.object < terms)) triples.now }
{
    triples.iter().all(|i| {
        (i.subject as usize) < terms
            && (i.predicate as usize) < terms
            && (i.object as usize) < terms
    })
}

// Whether each number of the triples is a place of one of the terms.
pub(crate) fn are_numbered(triples: &[Ids], terms: &[Term]) -> bool
    ensures { IsTrue result → AreNumbered terms.now triples.now }
{
    are_below(triples, terms.len())
}

// Whether two places with equal shapes have equal answers.
fn agree(shapes: &[u32], answers: &[Vec<bool>], place: usize, other: usize) -> bool
    requires same { length answers.now ≡ length shapes.now }
    requires place { place < length shapes.now }
    requires other { other < length shapes.now }
    ensures { IsTrue result → get_or shapes.now place 0 ≡ get_or shapes.now other 0
        → get_or (map (λ a. a.items) answers.now) place [] ≡ get_or (map (λ a. a.items) answers.now) other [] }
{
    shapes[place] != shapes[other] || answers[place] == answers[other]
}

fn agrees(shapes: &[u32], answers: &[Vec<bool>], place: usize) -> bool
    requires same { length answers.now ≡ length shapes.now }
    requires place { place < length shapes.now }
    ensures { IsTrue result → (k : ℕ) → k < length shapes.now → get_or shapes.now place 0 ≡ get_or shapes.now k 0
        → get_or (map (λ a. a.items) answers.now) place [] ≡ get_or (map (λ a. a.items) answers.now) k [] }
{
    for other in 0..shapes.len() {
        if !agree(shapes, answers, place, other) {
            return false;
        }
    }
    true
}

// Whether a place has an answer to each of so many value nodes, and agrees with all others.
fn is_told(shapes: &[u32], places: usize, answers: &[Vec<bool>], place: usize) -> bool
    requires same { length answers.now ≡ length shapes.now }
    requires place { place < length shapes.now }
    ensures places { IsTrue result → length (get_or (map (λ a. a.items) answers.now) place []) ≡ places }
    ensures agrees { IsTrue result → (k : ℕ) → k < length shapes.now → get_or shapes.now place 0 ≡ get_or shapes.now k 0
        → get_or (map (λ a. a.items) answers.now) place [] ≡ get_or (map (λ a. a.items) answers.now) k [] }
{
    answers[place].len() == places && agrees(shapes, answers, place)
}

// Whether each shape has an answer to each value node, and equal shapes have equal answers.
pub(crate) fn are_told(shapes: &[u32], values: &[u32], answers: &[Vec<bool>]) -> bool
    ensures { IsTrue result → AreTold shapes.now values.now (map (λ a. a.items) answers.now) }
{
    if answers.len() != shapes.len() {
        return false;
    }
    for place in 0..shapes.len() {
        if !is_told(shapes, values.len(), answers, place) {
            return false;
        }
    }
    true
}
