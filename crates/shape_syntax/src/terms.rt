//! What kind a term is (RDF 1.1 Concepts, section 3.1).
ghost use Rattle.std.specs.Prelude.{◌≡◌, ◌↔◌, IsTrue};
ghost use Rattle.rdf_model.specs.declared.term.Term.TheVariants as data_terms;
ghost use Rattle.shape_model.specs.Triples.{IsBlank, IsIri, IsLiteral};

use rdf_model::Term;

/// Whether the terms are one (RDF 1.1 Concepts, sections 3.3 and 3.4).
pub fn is_same(term: &Term, other: &Term) -> bool
    ensures { IsTrue result ↔ (term.now ≡ other.now) }
{
    term == other
}

/// Whether the term is a blank node (section 3.4).
pub fn is_blank(term: &Term) -> bool
    ensures { IsTrue result ↔ IsBlank term.now }
{
    matches!(term, Term::Blank { .. })
}

/// Whether the term is an IRI (section 3.2).
pub fn is_iri(term: &Term) -> bool
    ensures { IsTrue result ↔ IsIri term.now }
{
    matches!(term, Term::Iri(_))
}

/// Whether the term is a literal (section 3.3).
pub fn is_literal(term: &Term) -> bool
    ensures { IsTrue result ↔ IsLiteral term.now }
{
    matches!(term, Term::Literal { .. })
}

/// Whether the term is the IRI.
pub fn is_named(term: &Term, iri: &str) -> bool
    ensures { IsTrue result ↔ (term.now ≡ data_terms.Iri iri.now) }
{
    match term {
        Term::Iri(text) => text.as_str() == iri,
        _ => false,
    }
}
