//! What the rules ask of a term alone.
ghost use Rattle.std.specs.Prelude.{◌≡◌, ◌⊎◌, ◌↔◌, IsTrue, None, codes, length};
ghost use Rattle.std.specs.List.{list_all};
ghost use Rattle.rdf_model.specs.declared.term.Term.TheVariants as data_terms;
ghost use Rattle.shape_model.specs.Triples.{IsMember};
ghost use Rattle.shape_properties.specs.Tests.{IsNodeKind};
ghost use Rattle.shape_properties.specs.Tests;
ghost use Rattle.shape_properties.specs.Tests.{xsd_boolean, xsd_integer, xsd_string};

use literal_order::Lexical;
use rdf_model::Term;
use shape_syntax::terms::is_named;
use vocabulary::{
    SH_BLANK_NODE, SH_BLANK_NODE_OR_IRI, SH_BLANK_NODE_OR_LITERAL, SH_IRI, SH_IRI_OR_LITERAL,
    SH_LITERAL, XSD_BOOLEAN, XSD_INTEGER, XSD_STRING,
};

/// Whether the term is one of the six node kinds (SHACL section 4.1.3).
#[tactic(auto, unfolding(shape_model::specs::Vocabulary::sh))]
pub fn is_node_kind(term: &Term) -> bool
    ensures { IsTrue result ↔ IsNodeKind term.now }
{
    is_named(term, SH_BLANK_NODE)
        || is_named(term, SH_IRI)
        || is_named(term, SH_LITERAL)
        || is_named(term, SH_BLANK_NODE_OR_IRI)
        || is_named(term, SH_BLANK_NODE_OR_LITERAL)
        || is_named(term, SH_IRI_OR_LITERAL)
}

fn has_datatype(term: &Term, iri: &str) -> bool
    ensures { result ≡ Tests.has_datatype iri.now term.now }
{
    match term {
        Term::Literal {
            datatype,
            language: None,
            ..
        } => datatype.as_str() == iri,
        _ => false,
    }
}

fn is_well_typed(term: &Term) -> bool
    ensures { result ≡ Tests.is_well_typed term.now }
{
    match literal_order::value(term) {
        Lexical::Value(_) => true,
        Lexical::NotTyped | Lexical::IllTyped => false,
    }
}

/// Whether the term is a well-typed xsd:integer.
#[tactic(auto, unfolding(crate::specs::Tests::xsd_integer))]
pub fn is_integer(term: &Term) -> bool
    ensures { IsTrue result ↔ (IsTrue (Tests.has_datatype xsd_integer term.now) × IsTrue (Tests.is_well_typed term.now)) }
{
    has_datatype(term, XSD_INTEGER) && is_well_typed(term)
}

/// Whether the term is a well-typed xsd:boolean.
#[tactic(auto, unfolding(crate::specs::Tests::xsd_boolean))]
pub fn is_boolean(term: &Term) -> bool
    ensures { IsTrue result ↔ (IsTrue (Tests.has_datatype xsd_boolean term.now) × IsTrue (Tests.is_well_typed term.now)) }
{
    has_datatype(term, XSD_BOOLEAN) && is_well_typed(term)
}

/// Whether the term is an xsd:string.
#[tactic(auto, unfolding(crate::specs::Tests::xsd_string))]
pub fn is_text(term: &Term) -> bool
    ensures { result ≡ Tests.has_datatype xsd_string term.now }
{
    has_datatype(term, XSD_STRING)
}

// The lexical form of a literal, and nothing of any other term.
fn text_of(term: &Term) -> &str
    ensures { result.now ≡ Tests.text_of term.now }
{
    match term {
        Term::Blank { .. } => "",
        Term::Iri(_) => "",
        Term::Literal { lexical, .. } => lexical.as_str(),
    }
}

/// The bytes of the lexical form of a literal, and none of any other term.
pub fn text_len(term: &Term) -> usize
    ensures { result ≡ length (Tests.text_of term.now) }
{
    text_of(term).len()
}

fn is_flag(byte: u8) -> bool
    ensures { result ≡ Tests.is_flag byte }
{
    byte == b'i' || byte == b's' || byte == b'm' || byte == b'x'
}

fn has_only_flags(text: &str) -> bool
    ensures { result ≡ list_all Tests.is_flag text.now }
{
    text.as_bytes().iter().all(|byte| is_flag(*byte))
}

/// Whether the term is an xsd:string of letters i, s, m, x.
pub fn is_flags(term: &Term) -> bool
    ensures { result ≡ Tests.is_flags term.now }
{
    is_text(term) && has_only_flags(text_of(term))
}

fn is_tagged(term: &Term) -> bool
    ensures { result ≡ Tests.is_tagged term.now }
{
    matches!(
        term,
        Term::Literal {
            language: Some(_),
            ..
        }
    )
}

/// Whether the term is an xsd:string, or a literal with a language tag.
pub fn is_message(term: &Term) -> bool
    ensures { IsTrue result ↔ (IsTrue (Tests.has_datatype xsd_string term.now) ⊎ IsTrue (Tests.is_tagged term.now)) }
{
    is_text(term) || is_tagged(term)
}

#[tactic(auto, unfolding(crate::specs::Tests::xsd_boolean))]
fn is_boolean_term(term: &Term, form: &str) -> bool
    ensures { IsTrue result ↔ (term.now ≡ data_terms.Literal form.now xsd_boolean None) }
{
    match term {
        Term::Literal {
            lexical,
            datatype,
            language: None,
        } => { lexical.as_str() == form && datatype.as_str() == XSD_BOOLEAN }
        _ => false,
    }
}

/// Whether the term is `true` or `false` as xsd:boolean.
pub fn is_true_or_false(term: &Term) -> bool
    ensures { IsTrue result ↔ ((term.now ≡ data_terms.Literal (codes "true") xsd_boolean None) ⊎ (term.now ≡ data_terms.Literal (codes "false") xsd_boolean None)) }
{
    is_boolean_term(term, "true") || is_boolean_term(term, "false")
}

/// Whether the class with this IRI is in the list.
pub fn has_class(classes: &[Term], iri: &str) -> bool
    ensures { IsTrue result ↔ IsMember classes.now (data_terms.Iri iri.now) }
{
    for class in classes {
        if is_named(class, iri) {
            return true;
        }
    }
    false
}
