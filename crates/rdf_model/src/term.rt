//! The terms of RDF and their order.
ghost use Rattle.std.specs.Prelude.{◌≡◌};

use collections::{ExactClone, ExactOrder};
use rdf_text::Text;
use std::alloc::AllocError;
use std::cmp::Ordering;

/// An RDF term (RDF 1.1 Concepts, section 3.1).
#[derive(Debug)]
pub enum Term {
    /// The blank node with this number in its session, each from 1.
    Blank {
        session: u32,
        number: u32,
    },
    Iri(Text),
    /// A literal; its language tag is in lower case.
    Literal {
        lexical: Text,
        datatype: Text,
        language: Option<Text>,
    },
}

// Written by hand, so that what owns a term calls it in place of having it written out.
impl Drop for Term {
    fn drop(self) {
        match self {
            Term::Blank {
                session: _,
                number: _,
            } => {}
            Term::Iri(_) => {}
            Term::Literal {
                lexical: _,
                datatype: _,
                language: _,
            } => {}
        }
    }
}

impl Ord for Term {
    ghost use Rattle.std.proofs.Common.{refl};
    ghost use Rattle.rdf_model.specs.Terms.{term_cmp};
    ghost use Rattle.rdf_model.specs.Orders.{term_total};

    ghost cmp = { term_cmp };

    ghost total = { term_total };

    ghost matches_partial_cmp = { λ x y. refl };

    ghost matches_eq = { λ x y. refl };

    /// Blank nodes by session and number, then IRIs by bytes, then literals by lexical form,
    /// datatype and language tag, no tag before a tag.
    fn cmp(&self, other: &Term) -> Ordering {
        match (self, other) {
            (
                Term::Blank { session, number },
                Term::Blank {
                    session: other_session,
                    number: other_number,
                },
            ) => session.cmp(other_session).then(number.cmp(other_number)),
            (Term::Blank { .. }, _) => Ordering::Less,
            (Term::Iri(_), Term::Blank { .. }) => Ordering::Greater,
            (Term::Iri(iri), Term::Iri(other_iri)) => iri.cmp(other_iri),
            (Term::Iri(_), Term::Literal { .. }) => Ordering::Less,
            (
                Term::Literal {
                    lexical,
                    datatype,
                    language,
                },
                Term::Literal {
                    lexical: other_lexical,
                    datatype: other_datatype,
                    language: other_language,
                },
            ) => lexical
                .cmp(other_lexical)
                .then_with(|| datatype.cmp(other_datatype))
                .then_with(|| language.cmp(other_language)),
            (Term::Literal { .. }, _) => Ordering::Greater,
        }
    }
}

impl PartialOrd for Term {
    ghost use Rattle.std.specs.Ordering.{as_partial_cmp};
    ghost use Rattle.std.specs.Cmp.{partial_order_from_total};
    ghost use Rattle.rdf_model.specs.Terms.{term_cmp};
    ghost use Rattle.rdf_model.specs.Orders.{term_total};

    ghost partial_cmp = { as_partial_cmp term_cmp };

    ghost laws = { partial_order_from_total term_total };

    fn partial_cmp(&self, other: &Term) -> Option<Ordering> {
        Some(self.cmp(other))
    }
}

impl PartialEq for Term {
    ghost use Rattle.std.specs.Ordering.{eq_by_cmp};
    ghost use Rattle.std.specs.Cmp.{partial_equiv_from_equiv, eq_by_cmp_equiv};
    ghost use Rattle.rdf_model.specs.Terms.{term_cmp};
    ghost use Rattle.rdf_model.specs.Orders.{term_total};

    ghost eq = { eq_by_cmp term_cmp };

    ghost laws = { partial_equiv_from_equiv (eq_by_cmp_equiv term_total) };

    fn eq(&self, other: &Term) -> bool {
        self.cmp(other) == Ordering::Equal
    }
}

impl Eq for Term {
    ghost use Rattle.std.specs.Cmp.{eq_by_cmp_equiv};
    ghost use Rattle.rdf_model.specs.Orders.{term_total};

    ghost laws = { eq_by_cmp_equiv term_total };
}

impl Clone for Term {
    ghost is_clone = { λ source copy. copy ≡ source };

    fn clone(&self) -> Result<Term, AllocError> {
        Ok(match self {
            Term::Blank { session, number } => Term::Blank {
                session: *session,
                number: *number,
            },
            Term::Iri(iri) => Term::Iri(iri.clone()?),
            Term::Literal {
                lexical,
                datatype,
                language: None,
            } => Term::Literal {
                lexical: lexical.clone()?,
                datatype: datatype.clone()?,
                language: None,
            },
            Term::Literal {
                lexical,
                datatype,
                language: Some(tag),
            } => Term::Literal {
                lexical: lexical.clone()?,
                datatype: datatype.clone()?,
                language: Some(tag.clone()?),
            },
        })
    }
}

impl ExactClone for Term {
    ghost clone_is_equal = { λ source copy is_copy. is_copy };
}

impl ExactOrder for Term {
    ghost use Rattle.rdf_model.specs.Orders.{term_exact};

    ghost tied_is_equal = { term_exact };
}
