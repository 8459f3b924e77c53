//! Numbers that terms are likely to have.
ghost use Rattle.std.specs.Prelude.{◌≡◌, ◌<◌, MatchBool, length};
ghost use Rattle.rdf_model.specs.Numbers.{term_at};
ghost use Rattle.data_graph.specs.Numbering.{IsNumberWhereNamed};

use rdf_model::{Names, Term};
use std::alloc::Global;
use std::marker::Model;
use term_dict::Dict;

/// The numbers that the terms of a net are likely to have, by their places: those that naming them gave. Nothing rests on
/// them: a number is taken only where its term is the one that is asked for, and else the term is looked up. So contracts see
/// nothing of them.
#[derive(Drop)]
pub struct NumberHints {
    numbers: Vec<u32>,
}

impl Model for NumberHints {
    ghost Value = { Unit {0} };

    ghost view = { λ _. tt };
}

impl NumberHints {
    /// No hint.
    pub fn new(alloc: Global) -> NumberHints {
        NumberHints {
            numbers: Vec::new(alloc),
        }
    }

    /// The number for the term at each place.
    pub fn from_numbers(numbers: Vec<u32>) -> NumberHints {
        NumberHints { numbers }
    }

    /// Adds those of the terms that come behind the others. Where there is no memory for them, they are left out.
    pub fn append(&mut self, more: NumberHints) {
        let NumberHints { mut numbers } = more;
        let _ = self.numbers.append(&mut numbers);
    }

    // That of the term at a place.
    pub(crate) fn of(&self, place: usize) -> Option<u32> {
        match self.numbers.get(place) {
            Some(number) => Some(*number),
            None => None,
        }
    }
}

// Whether the number is the term's.
fn has_number(names: &Dict, number: u32, term: &Term) -> bool
    ensures { MatchBool result ((number < length names.now.terms) × (term_at names.now.terms number ≡ term.now)) (Unit {0}) }
{
    match names.term(number) {
        Some(named) => *named == *term,
        None => false,
    }
}

/// The number of a term, where it is named; else any. The hint is tried before the term is looked up.
pub(crate) fn number_by_hint(names: &Dict, hint: Option<u32>, term: &Term) -> u32
    ensures { IsNumberWhereNamed names.now.terms term.now result }
{
    if let Some(number) = hint {
        if has_number(names, number, term) {
            return number;
        }
    }
    match names.id(term) {
        Some(number) => number,
        None => 0,
    }
}
