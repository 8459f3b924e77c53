//! The numbers that a pattern asks for.
ghost use Rattle.std.specs.Prelude.{◌≡◌, MatchOption};
ghost use Rattle.triple_index.specs.Patterns.{fits_number, matches_ids};
ghost use Rattle.numbered_patterns.specs.Asked.{AllAskAlike, AsksAlike, AsksForNone, NoneIsAsked};

use rdf_model::{Ids, Names, Pattern, Term};
use term_dict::Dict;

/// The numbers of the terms that a pattern gives; `None` stands for any.
#[derive(Clone, Copy)]
pub struct NumberedPattern {
    pub subject: Option<u32>,
    pub predicate: Option<u32>,
    pub object: Option<u32>,
}

// The number that is asked for, which may be any; `None` where a term is given that has none.
fn asked_number(names: &Dict, given: &Option<Term>) -> Option<Option<u32>>
    ensures { MatchOption result (AsksForNone names.now.terms given.now) (λ asked. AsksAlike names.now.terms given.now asked) }
{
    match given {
        None => Some(None),
        Some(term) => {
            names.recall_numbering();
            match names.id(term) {
                Some(number) => Some(Some(number)),
                None => None,
            }
        }
    }
}

fn fits(asked: Option<u32>, number: u32) -> bool
    ensures { result ≡ fits_number asked number }
{
    match asked {
        Some(wanted) => wanted == number,
        None => true,
    }
}

impl NumberedPattern {
    /// The numbers of a pattern's terms; `None` where a term is given that has none.
    pub fn of(names: &Dict, pattern: &Pattern) -> Option<NumberedPattern>
        ensures { MatchOption result (NoneIsAsked names.now.terms pattern.now) (λ asked. AllAskAlike names.now.terms pattern.now asked.subject asked.predicate asked.object) }
    {
        Some(NumberedPattern {
            subject: asked_number(names, &pattern.subject)?,
            predicate: asked_number(names, &pattern.predicate)?,
            object: asked_number(names, &pattern.object)?,
        })
    }

    /// Whether it asks for the triple of these numbers.
    pub fn matches(&self, triple: Ids) -> bool
        ensures { result ≡ matches_ids self.now.subject self.now.predicate self.now.object triple }
    {
        fits(self.subject, triple.subject)
            && fits(self.predicate, triple.predicate)
            && fits(self.object, triple.object)
    }
}
