//! The component node-kind (SHACL section 4.1.3).
ghost use Rattle.std.specs.Prelude.{◌≡◌, ◌⊎◌, ◌↔◌, IfOk, IsTrue, codes};
ghost use Rattle.rdf_model.specs.declared.term.Term.TheVariants as data_terms;
ghost use Rattle.shape_model.specs.TermTests.{IsOfKind};
ghost use Rattle.shape_model.specs.Vocabulary.{sh};
ghost use Rattle.shape_model.specs.declared.component.Component.TheVariants as components;
ghost use Rattle.component_rows.specs.Listed.{untold};
ghost use Rattle.component_rows.specs.Sites.{ListsAt, at_values};

use component_rows::{Site, ValueTest, failing};
use rdf_model::{Names, Term};
use shape_model::{Component, ResultRow};
use std::alloc::AllocError;
use vocabulary::{
    SH_BLANK_NODE, SH_BLANK_NODE_OR_IRI, SH_BLANK_NODE_OR_LITERAL, SH_IRI, SH_IRI_OR_LITERAL,
    SH_LITERAL,
};

// Whether the term is the IRI.
fn is_named(term: &Term, iri: &str) -> bool
    ensures { IsTrue result ↔ (term.now ≡ data_terms.Iri iri.now) }
{
    match term {
        Term::Iri(text) => text.as_str() == iri,
        _ => false,
    }
}

// Whether a node kind takes blank nodes.
#[tactic(auto, unfolding(shape_model::specs::Vocabulary::sh))]
fn takes_blank(kind: &Term) -> bool
    ensures { IsTrue result ↔ ((kind.now ≡ sh (codes "BlankNode")) ⊎ (kind.now ≡ sh (codes "BlankNodeOrIRI")) ⊎ (kind.now ≡ sh (codes "BlankNodeOrLiteral"))) }
{
    is_named(kind, SH_BLANK_NODE)
        || is_named(kind, SH_BLANK_NODE_OR_IRI)
        || is_named(kind, SH_BLANK_NODE_OR_LITERAL)
}

// Whether a node kind takes IRIs.
#[tactic(auto, unfolding(shape_model::specs::Vocabulary::sh))]
fn takes_iri(kind: &Term) -> bool
    ensures { IsTrue result ↔ ((kind.now ≡ sh (codes "IRI")) ⊎ (kind.now ≡ sh (codes "BlankNodeOrIRI")) ⊎ (kind.now ≡ sh (codes "IRIOrLiteral"))) }
{
    is_named(kind, SH_IRI)
        || is_named(kind, SH_BLANK_NODE_OR_IRI)
        || is_named(kind, SH_IRI_OR_LITERAL)
}

// Whether a node kind takes literals.
#[tactic(auto, unfolding(shape_model::specs::Vocabulary::sh))]
fn takes_literal(kind: &Term) -> bool
    ensures { IsTrue result ↔ ((kind.now ≡ sh (codes "Literal")) ⊎ (kind.now ≡ sh (codes "BlankNodeOrLiteral")) ⊎ (kind.now ≡ sh (codes "IRIOrLiteral"))) }
{
    is_named(kind, SH_LITERAL)
        || is_named(kind, SH_BLANK_NODE_OR_LITERAL)
        || is_named(kind, SH_IRI_OR_LITERAL)
}

// Whether the value is of the node kind that a term names.
fn is_of_kind(kind: &Term, value: &Term) -> bool
    ensures { IsTrue result ↔ IsOfKind kind.now value.now }
{
    match value {
        Term::Blank { .. } => takes_blank(kind),
        Term::Iri(_) => takes_iri(kind),
        Term::Literal { .. } => takes_literal(kind),
    }
}

// A value of the kind.
#[derive(Drop)]
struct OfKind<'a> {
    kind: &'a Term,
}

impl ValueTest for OfKind<'_> {
    ghost use Rattle.shape_model.specs.TermTests.{IsOfKind};

    ghost accepts = { λ t v. IsOfKind t.kind.now v };

    fn passes(&self, value: &Term) -> bool {
        is_of_kind(self.kind, value)
    }
}

/// The results of sh:nodeKind (SHACL section 4.1.3): one about each value node that isn't of the kind.
pub fn node_kind<N: Names>(site: &Site<'_, N>) -> Result<Vec<ResultRow>, AllocError>
    ensures { IfOk result (λ rows. ListsAt components.NodeKind (at_values site.now) untold site.now rows.items) }
{
    let kind = site.parameter_term();
    let test = OfKind { kind };
    failing(site, Component::NodeKind, &test)
}
