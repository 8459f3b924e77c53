//! The tests that the rules make of terms, some of them in the graph.
ghost use Rattle.std.specs.Prelude.{◌≢◌, ◌<◌, ◌↔◌, IsTrue, IfOk, List};
ghost use Rattle.collections.specs.Ordered.{IsAscending};
ghost use Rattle.rdf_model.specs.declared.term.Term.{Term as TermData};
ghost use Rattle.rdf_model.specs.Terms.{triple_cmp};
ghost use Rattle.shape_model.specs.Triples.{IsIri, IsMember, IsLiteral};
ghost use Rattle.shape_model.specs.ShapeSyntax.{ListOf};
ghost use Rattle.shape_properties.specs.Syntax.{HasPath, HasProperty};
ghost use Rattle.shape_rules.specs.Broken.{AreIris, IsLong, Passes};

use crate::surveyed::SurveyedGraph;
use rdf_model::{Term, Triple};
use shape_properties::terms::{
    is_boolean, is_flags, is_integer, is_message, is_node_kind, is_text, is_true_or_false, text_len,
};
use shape_properties::values::{has_path, property_values_of};
use shape_properties::{ShapeProperty, Test};
use shape_syntax::IndexedGraph;
use shape_syntax::list::list_members;
use shape_syntax::paths::is_path;
use shape_syntax::terms::{is_blank, is_iri, is_literal, is_same};
use std::alloc::{AllocError, Global};

/// Whether the node has a value of the property other than this one.
pub(crate) fn has_another(
    graph: &IndexedGraph,
    node: &Term,
    property: ShapeProperty,
    value: &Term,
) -> bool
    requires { IsAscending triple_cmp graph.now }
    ensures { IsTrue result ↔ ((w : TermData) × HasProperty graph.now node.now property w × (w ≢ value.now)) }
{
    for other in property_values_of(graph, node, property) {
        if !is_same(&other.object, value) {
            return true;
        }
    }
    false
}

/// Whether the pattern and its flags have more than 4,096 bytes together.
pub(crate) fn is_long(graph: &IndexedGraph, node: &Term, pattern: &Term) -> bool
    requires { IsAscending triple_cmp graph.now }
    ensures { IsTrue result ↔ IsLong graph.now node.now pattern.now }
{
    let len = text_len(pattern);
    if 4096 < len {
        return true;
    }
    for flags in property_values_of(graph, node, ShapeProperty::Flags) {
        if 4096 - len < text_len(&flags.object) {
            return true;
        }
    }
    false
}

fn is_list(alloc: Global, graph: &IndexedGraph, head: &Term) -> Result<bool, AllocError>
    requires { IsAscending triple_cmp graph.now }
    ensures { IfOk result (λ found. IsTrue found ↔ ((members : List TermData) × ListOf graph.now head.now members)) }
{
    match list_members(alloc, graph, head)? {
        Some(_) => Ok(true),
        None => Ok(false),
    }
}

fn are_all_iris(terms: &[Term]) -> bool
    ensures { IsTrue result ↔ ((m : TermData) → IsMember terms.now m → IsIri m) }
{
    for term in terms {
        if !is_iri(term) {
            return false;
        }
    }
    true
}

fn are_iris(alloc: Global, graph: &IndexedGraph, head: &Term) -> Result<bool, AllocError>
    requires { IsAscending triple_cmp graph.now }
    ensures { IfOk result (λ found. IsTrue found ↔ AreIris graph.now head.now) }
{
    match list_members(alloc, graph, head)? {
        Some(members) => Ok(are_all_iris(members.as_slice())),
        None => Ok(false),
    }
}

fn is_property_shape(graph: &IndexedGraph, node: &Term) -> bool
    requires { IsAscending triple_cmp graph.now }
    ensures { IsTrue result ↔ ((IsLiteral node.now → ⊥) × HasPath graph.now node.now) }
{
    !is_literal(node) && has_path(graph, node)
}

/// Whether the term passes the test.
pub(crate) fn passes(graph: &SurveyedGraph, test: Test, term: &Term) -> Result<bool, AllocError>
    ensures { IfOk result (λ passed. IsTrue passed ↔ Passes graph.now test term.now) }
{
    let indexed = graph.indexed();
    match test {
        Test::Anything => Ok(true),
        Test::Iri => Ok(is_iri(term)),
        Test::NoBlank => Ok(!is_blank(term)),
        Test::NoLiteral => Ok(!is_literal(term)),
        Test::Literal => Ok(is_literal(term)),
        Test::Integer => Ok(is_integer(term)),
        Test::Boolean => Ok(is_boolean(term)),
        Test::Text => Ok(is_text(term)),
        Test::Flags => Ok(is_flags(term)),
        Test::Message => Ok(is_message(term)),
        Test::TrueOrFalse => Ok(is_true_or_false(term)),
        Test::NodeKind => Ok(is_node_kind(term)),
        Test::Path => Ok(is_path(indexed, &graph.survey().paths, term)),
        Test::PropertyShape => Ok(is_property_shape(indexed, term)),
        Test::List => is_list(graph.alloc(), indexed, term),
        Test::ListOfIris => are_iris(graph.alloc(), indexed, term),
    }
}
