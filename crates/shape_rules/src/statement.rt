//! A value of a property of SHACL at a node of a shapes graph.
ghost use Rattle.std.specs.Prelude.{◌≡◌};
ghost use Rattle.shape_properties.specs.Properties.{property_iri};
ghost use Rattle.shape_rules.specs.Surveyed.{stated};

use crate::surveyed::SurveyedGraph;
use rdf_model::{Term, Triple};
use shape_properties::ShapeProperty;
use std::marker::Model;

/// What a triple says, whose predicate is a property of SHACL.
#[derive(Drop)]
pub(crate) struct Statement<'a> {
    graph: &'a SurveyedGraph<'a>,
    property: ShapeProperty,
    triple: &'a Triple,
}

impl<'a> Model for Statement<'a> {
    ghost use Rattle.std.specs.Prelude.{◌≡◌};
    ghost use Rattle.shape_properties.specs.Properties.{property_iri};
    ghost use Rattle.shape_rules.specs.Surveyed.{Stated, stated};

    ghost Value = { Stated };

    ghost view = { λ s. stated s.graph.now s.property s.triple.now };

    ghost invariant = { λ s. s.triple.now.predicate ≡ property_iri s.property };
}

impl<'a> Statement<'a> {
    /// What the triple says, whose predicate is the property.
    pub(crate) fn new(
        graph: &'a SurveyedGraph<'a>,
        property: ShapeProperty,
        triple: &'a Triple,
    ) -> Statement<'a>
        requires { triple.now.predicate ≡ property_iri property }
        ensures { result ≡ stated graph.entry.now property triple.entry.now }
    {
        Statement {
            graph,
            property,
            triple,
        }
    }

    /// The graph.
    pub(crate) fn graph(&self) -> &'a SurveyedGraph<'a>
        ensures { result.now ≡ self.now.graph }
    {
        self.graph
    }

    /// The property.
    pub(crate) fn property(&self) -> ShapeProperty
        ensures { result ≡ self.now.property }
    {
        self.property
    }

    /// The property's IRI.
    pub(crate) fn predicate(&self) -> &'a Term
        ensures { result.now ≡ property_iri self.now.property }
    {
        &self.triple.predicate
    }

    /// The node.
    pub(crate) fn node(&self) -> &'a Term
        ensures { result.now ≡ self.now.node }
    {
        &self.triple.subject
    }

    /// The value.
    pub(crate) fn value(&self) -> &'a Term
        ensures { result.now ≡ self.now.value }
    {
        &self.triple.object
    }
}
