//! Terms that were met, each once, by the order of their first appearance.
ghost use Rattle.std.specs.Prelude.{◌≡◌, [], IfOk, OnOk};
ghost use Rattle.std.specs.List.{IsDistinct};
ghost use Rattle.std.specs.Ordering.{eq_by_cmp};
ghost use Rattle.rdf_model.specs.Terms.{term_cmp};
ghost use Rattle.rdf_model.specs.declared.term.Term.{Term as TermData};
ghost use Rattle.term_dict.specs.Hashes.{term_hash};
ghost use Rattle.term_dict.specs.Names.{AreNumbersOf, IsNumberOf, with_term, with_terms};

use indexmap::IndexSet;
use rdf_model::Term;
use std::alloc::{AllocError, Global};
use std::collections::hash_map::DefaultHasher;
use std::hash::{Hash, Hasher};
use std::marker::Model;

// A term among others, found by its hash.
#[derive(Drop)]
pub(crate) struct MetTerm<'a> {
    pub(crate) term: &'a Term,
}

impl<'a> Model for MetTerm<'a> {
    ghost use Rattle.rdf_model.specs.declared.term.Term.{Term as TermData};

    ghost Value = { TermData };

    ghost view = { λ m. m.term.now };
}

impl<'a> PartialEq for MetTerm<'a> {
    ghost use Rattle.std.specs.Cmp.{partial_equiv_from_equiv, eq_by_cmp_equiv};
    ghost use Rattle.rdf_model.specs.Orders.{term_total};

    ghost eq = { eq_by_cmp term_cmp };

    ghost laws = { partial_equiv_from_equiv (eq_by_cmp_equiv term_total) };

    fn eq(&self, other: &MetTerm<'a>) -> bool {
        *self.term == *other.term
    }
}

impl<'a> Eq for MetTerm<'a> {
    ghost use Rattle.std.specs.Cmp.{eq_by_cmp_equiv};
    ghost use Rattle.rdf_model.specs.Orders.{term_total};

    ghost laws = { eq_by_cmp_equiv term_total };
}

impl<'a> Hash for MetTerm<'a> {
    ghost use Rattle.term_dict.specs.Hashes.{term_writes, fed_alike};

    ghost hash_input = { term_writes };

    ghost respects_eq = { fed_alike };

    fn hash<H: Hasher>(&self, state: &mut H) {
        match self.term {
            Term::Blank { session, number } => {
                session.hash(state);
                number.hash(state);
            }
            Term::Iri(iri) => iri.as_str().hash(state),
            Term::Literal {
                lexical,
                datatype,
                language,
            } => {
                lexical.as_str().hash(state);
                datatype.as_str().hash(state);
                if let Some(tag) = language {
                    tag.as_str().hash(state);
                }
            }
        }
    }
}

// The hash of a term.
#[tactic(auto, unfolding(crate::specs::Hashes::term_hash))]
pub(crate) fn hash_of(term: &Term) -> u64
    ensures { result ≡ term_hash term.now }
{
    let mut state = DefaultHasher::new();
    MetTerm { term }.hash(&mut state);
    state.finish()
}

// Terms, each once, by the order of their first appearance.
pub(crate) struct MetTerms<'a> {
    alloc: Global,
    seen: IndexSet<MetTerm<'a>>,
}

// Written by hand, so that what owns such terms calls it in place of having it written out.
impl<'a> Drop for MetTerms<'a> {
    fn drop(self) {
        match self {
            MetTerms { alloc: _, seen: _ } => {}
        }
    }
}

impl<'a> Model for MetTerms<'a> {
    ghost use Rattle.std.specs.Prelude.{List};
    ghost use Rattle.rdf_model.specs.declared.term.Term.{Term as TermData};

    ghost Value = { List TermData };

    ghost view = { λ m. m.seen.keys };
}

impl<'a> MetTerms<'a> {
    pub(crate) fn new(alloc: Global) -> MetTerms<'a>
        ensures { result ≡ [] }
    {
        MetTerms {
            alloc,
            seen: IndexSet::new(alloc),
        }
    }

    // The terms in their order.
    pub(crate) fn terms(&self) -> &[MetTerm<'a>]
        ensures terms { result.now ≡ self.now }
        ensures distinct { IsDistinct (eq_by_cmp term_cmp) self.now }
    {
        self.seen.as_slice()
    }

    // The place of a term, which becomes the last one where it has none.
    pub(crate) fn place(&mut self, term: &'a Term) -> Result<usize, AllocError>
        ensures terms { OnOk result (self.new ≡ with_term self.old term.now) }
        ensures number { IfOk result (λ number. IsNumberOf self.new term.now number) }
    {
        let (number, _) = self.seen.insert_full(MetTerm { term })?;
        Ok(number)
    }

    // The places of terms, in their order.
    pub(crate) fn place_all(&mut self, terms: &'a [Term]) -> Result<Vec<usize>, AllocError>
        ensures terms { OnOk result (self.new ≡ with_terms self.old terms.now) }
        ensures numbers { IfOk result (λ numbers. AreNumbersOf self.new terms.now numbers.items) }
    {
        let mut numbers = Vec::with_capacity(self.alloc, terms.len())?;
        for term in terms {
            numbers.push(self.place(term)?)?;
        }
        Ok(numbers)
    }
}
