// The words of SHACL.
ghost use Rattle.std.specs.Prelude.{◌≡◌, ◌↔◌, IfOk, IsTrue};
ghost use Rattle.shape_model.specs.Vocabulary.{sh, rdf_first, rdf_nil, rdf_rest, rdf_type, rdfs_class, sub_class_of};

use rdf_model::{Term, Text};
use std::alloc::{AllocError, Global};
use vocabulary::{RDF_FIRST, RDF_NIL, RDF_REST, RDF_TYPE, RDFS_CLASS, RDFS_SUB_CLASS_OF};

const SHACL: &str = "http://www.w3.org/ns/shacl#";

/// sh: and a local name (SHACL section 1.2).
#[tactic(auto, unfolding(shape_model::specs::Vocabulary::sh))]
pub fn word(alloc: Global, name: &str) -> Result<Term, AllocError>
    ensures { IfOk result (λ term. term ≡ sh name.now) }
{
    let mut iri = String::from_str(alloc, SHACL)?;
    iri.push_str(name)?;
    Ok(Term::Iri(Text::from_string(iri)?))
}

/// Whether two terms are one.
pub fn is_same(term: &Term, other: &Term) -> bool
    ensures { IsTrue result ↔ (term.now ≡ other.now) }
{
    term == other
}

/// Whether the term is this word.
pub fn is_word(alloc: Global, term: &Term, name: &str) -> Result<bool, AllocError>
    ensures { IfOk result (λ is. IsTrue is ↔ (term.now ≡ sh name.now)) }
{
    let named = word(alloc, name)?;
    Ok(is_same(term, &named))
}

#[tactic(auto, unfolding(shape_model::specs::Vocabulary::rdf, shape_model::specs::Vocabulary::rdf_first))]
pub(crate) fn first_word(alloc: Global) -> Result<Term, AllocError>
    ensures { IfOk result (λ term. term ≡ rdf_first) }
{
    Ok(Term::Iri(Text::new(alloc, RDF_FIRST)?))
}

#[tactic(auto, unfolding(shape_model::specs::Vocabulary::rdf, shape_model::specs::Vocabulary::rdf_rest))]
pub(crate) fn rest_word(alloc: Global) -> Result<Term, AllocError>
    ensures { IfOk result (λ term. term ≡ rdf_rest) }
{
    Ok(Term::Iri(Text::new(alloc, RDF_REST)?))
}

#[tactic(auto, unfolding(shape_model::specs::Vocabulary::rdf, shape_model::specs::Vocabulary::rdf_nil))]
pub(crate) fn nil_word(alloc: Global) -> Result<Term, AllocError>
    ensures { IfOk result (λ term. term ≡ rdf_nil) }
{
    Ok(Term::Iri(Text::new(alloc, RDF_NIL)?))
}

#[tactic(auto, unfolding(shape_model::specs::Vocabulary::rdf, shape_model::specs::Vocabulary::rdf_type))]
pub(crate) fn type_word(alloc: Global) -> Result<Term, AllocError>
    ensures { IfOk result (λ term. term ≡ rdf_type) }
{
    Ok(Term::Iri(Text::new(alloc, RDF_TYPE)?))
}

#[tactic(auto, unfolding(shape_model::specs::Vocabulary::sub_class_of))]
pub(crate) fn super_word(alloc: Global) -> Result<Term, AllocError>
    ensures { IfOk result (λ term. term ≡ sub_class_of) }
{
    Ok(Term::Iri(Text::new(alloc, RDFS_SUB_CLASS_OF)?))
}

/// rdfs:Class (RDFS section 2.2).
#[tactic(auto, unfolding(shape_model::specs::Vocabulary::rdfs_class))]
pub fn class_word(alloc: Global) -> Result<Term, AllocError>
    ensures { IfOk result (λ term. term ≡ rdfs_class) }
{
    Ok(Term::Iri(Text::new(alloc, RDFS_CLASS)?))
}
