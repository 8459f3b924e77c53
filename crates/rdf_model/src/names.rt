//! Numbers for terms.
ghost use Rattle.std.specs.Prelude.{◌≡◌, ◌<◌, ◌≤◌, ◌^◌, List, MatchOption, length};
ghost use Rattle.std.specs.List.{Contains};
ghost use Rattle.rdf_model.specs.Numbers.{term_at};
ghost use Rattle.rdf_model.specs.declared.term.Term.{Term as TermData};

use crate::Term;
use collections::Sequence;
use std::marker::Model;

/// Numbers for terms: a term's number is its place in a list, which contracts see.
pub trait Names {
    ghost terms: { Self → List TermData };

    /// The term of a number, if one has it. It takes no memory.
    fn term(&self, number: u32) -> Option<&Term>
        ensures { MatchOption result (length (terms self.now) ≤ number) (λ term. (number < length (terms self.now)) × (term.now ≡ term_at (terms self.now) number)) };

    /// How many terms have a number. It takes no memory.
    fn count(&self) -> u32
        ensures { result ≡ length (terms self.now) };

    /// A number of a term, if it has one. It takes no memory.
    fn id(&self, term: &Term) -> Option<u32>
        ensures { MatchOption result (Contains (terms self.now) term.now → ⊥) (λ number. (number < length (terms self.now)) × (term_at (terms self.now) number ≡ term.now)) };
}

/// Names in a vector. Contracts see the list of its terms.
#[derive(Debug, Drop)]
pub struct ListNames {
    terms: Sequence<Term>,
}

impl Model for ListNames {
    ghost use Rattle.std.specs.Prelude.{◌<◌, ◌^◌, List, length};
    ghost use Rattle.rdf_model.specs.declared.term.Term.{Term};

    ghost Value = { List Term };

    ghost view = { λ n. n.terms };

    ghost invariant = { λ n. length n.terms < 2 ^ 32 };
}

impl ListNames {
    /// The names that give each of the terms its place as its number. It takes no memory.
    pub fn from_terms(terms: Sequence<Term>) -> ListNames
        requires { length terms < 2 ^ 32 }
        ensures { result ≡ terms }
    {
        ListNames { terms }
    }
}

// The first place of a term.
fn place_of(terms: &[Term], term: &Term) -> Option<usize>
    ensures { MatchOption result (Contains terms.now term.now → ⊥) (λ place. (place < length terms.now) × (term_at terms.now place ≡ term.now)) }
{
    for (place, other) in terms.iter().enumerate() {
        if other == term {
            return Some(place);
        }
    }
    None
}

impl Names for ListNames {
    ghost terms = { λ names. names };

    fn term(&self, number: u32) -> Option<&Term> {
        self.terms.as_slice().get(number as usize)
    }

    fn count(&self) -> u32 {
        self.terms.len() as u32
    }

    fn id(&self, term: &Term) -> Option<u32> {
        match place_of(self.terms.as_slice(), term) {
            Some(place) => Some(place as u32),
            None => None,
        }
    }
}
