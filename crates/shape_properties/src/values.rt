//! The values of properties at nodes.
ghost use Rattle.std.specs.Prelude.{◌↔◌, IsTrue};
ghost use Rattle.std.specs.List.{Contains};
ghost use Rattle.collections.specs.Ordered.{IsAscending};
ghost use Rattle.rdf_model.specs.declared.term.Term.{Term as TermData};
ghost use Rattle.rdf_model.specs.declared.triple.Triple.{Triple as TripleData};
ghost use Rattle.rdf_model.specs.Terms.{triple_cmp};
ghost use Rattle.shape_properties.specs.Properties.{property_iri};
ghost use Rattle.shape_properties.specs.Syntax.{HasPath, HasProperty};

use crate::ShapeProperty;
use rdf_model::{Term, Triple};
use shape_syntax::IndexedGraph;
use shape_syntax::lookup::{values, values_of};

/// Those of the triples with a value of the property at the node.
pub fn property_values<'a>(
    graph: &'a [Triple],
    node: &Term,
    property: ShapeProperty,
) -> &'a [Triple]
    requires { IsAscending triple_cmp graph.now }
    ensures each { (t : TripleData) → Contains result.now t → HasProperty graph.now node.now property t.object }
    ensures all { (v : TermData) → HasProperty graph.now node.now property v
        → Contains result.now (record { subject = node.now; predicate = property_iri property; object = v }) }
{
    values(graph, node, property.iri())
}

/// The triples of the graph with a value of the property at the node.
pub fn property_values_of<'a>(
    graph: &IndexedGraph<'a>,
    node: &Term,
    property: ShapeProperty,
) -> &'a [Triple]
    requires { IsAscending triple_cmp graph.now }
    ensures each { (t : TripleData) → Contains result.now t → HasProperty graph.now node.now property t.object }
    ensures all { (v : TermData) → HasProperty graph.now node.now property v
        → Contains result.now (record { subject = node.now; predicate = property_iri property; object = v }) }
{
    values_of(graph, node, property.iri())
}

/// Whether the node has a sh:path.
pub fn has_path(graph: &IndexedGraph, node: &Term) -> bool
    requires { IsAscending triple_cmp graph.now }
    ensures { IsTrue result ↔ HasPath graph.now node.now }
{
    let paths = property_values_of(graph, node, ShapeProperty::Path);
    !paths.is_empty()
}
