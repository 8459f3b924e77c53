//! A node that is a shape, with what its parts are read from.
ghost use Rattle.std.specs.Prelude.{◌≡◌, ◌↔◌, IfOk, List, MatchOption};
ghost use Rattle.std.specs.List.{Contains};
ghost use Rattle.collections.specs.Listings.{IsListing};
ghost use Rattle.collections.specs.Ordered.{IsAscending};
ghost use Rattle.rdf_model.specs.declared.term.Term.{Term as TermData};
ghost use Rattle.rdf_model.specs.declared.triple.Triple.{Triple as TripleData};
ghost use Rattle.rdf_model.specs.Terms.{triple_cmp};
ghost use Rattle.shape_model.specs.ShapeSyntax.{ListOf};
ghost use Rattle.shape_properties.specs.Syntax.{IsShape};
ghost use Rattle.shape_references.specs.Siblings.{IsReversed};
ghost use Rattle.shape_rules.specs.Broken.{IsWellFormed};
ghost use Rattle.shape_sizes.specs.Surveys.{IsSurvey};
ghost use Rattle.shape_syntax.specs.PathNodes.{ArePathNodes};
ghost use Rattle.shape_reader.specs.Declarations.{IsDeclaration, declaration};

use collections::Sequence;
use rdf_model::{Term, Triple};
use shape_sizes::Survey;
use shape_syntax::IndexedGraph;
use shape_syntax::list::list_members;
use shape_syntax::lookup::triples_of;
use std::alloc::{AllocError, Global};
use std::collections::BTreeSet;
use std::marker::Model;

/// A node of a well-formed shapes graph that is a shape, with what its parts are read from: the graph's survey, and the
/// node's own triples, so that they are looked up once.
#[derive(Drop)]
pub(crate) struct ShapeNode<'a> {
    alloc: Global,
    graph: &'a IndexedGraph<'a>,
    survey: &'a Survey,
    own: &'a [Triple],
    node: &'a Term,
}

impl<'a> Model for ShapeNode<'a> {
    ghost use Rattle.shape_reader.specs.Declarations.{Declaration, IsSurveyed, declaration};

    ghost Value = { Declaration };

    ghost view = { λ s. declaration s.graph.now s.survey.now.shapes.items s.node.now };

    ghost invariant = { λ s. IsSurveyed s.graph.now s.survey.now s.own.now s.node.now };
}

impl<'a> ShapeNode<'a> {
    /// The node, with its triples. It takes no memory.
    pub(crate) fn new(
        alloc: Global,
        graph: &'a IndexedGraph<'a>,
        survey: &'a Survey,
        node: &'a Term,
    ) -> ShapeNode<'a>
        requires graph { IsAscending triple_cmp graph.now }
        requires well_formed { IsWellFormed graph.now }
        requires survey { IsSurvey graph.now survey.now }
        requires shape { IsShape graph.now node.now }
        ensures { result ≡ declaration graph.entry.now survey.entry.now.shapes.items node.entry.now }
    {
        let own = triples_of(graph, node);
        ShapeNode {
            alloc,
            graph,
            survey,
            own,
            node,
        }
    }

    /// What is known of each such node: the call only recalls it.
    pub(crate) fn recall(&self)
        ensures { IsDeclaration self.now }
    {
        let _node = self.node;
    }

    /// The allocator of what is made for the shape.
    pub(crate) fn alloc(&self) -> Global {
        self.alloc
    }

    /// The shapes graph.
    pub(crate) fn graph(&self) -> &'a IndexedGraph<'a>
        ensures value { result.now ≡ self.now.graph }
        ensures ascending { IsAscending triple_cmp result.now }
    {
        self.graph
    }

    /// The nodes that are shapes, in order.
    pub(crate) fn nodes(&self) -> &'a [Term]
        ensures { result.now ≡ self.now.nodes }
    {
        self.survey.shapes.as_slice()
    }

    /// The node.
    pub(crate) fn node(&self) -> &'a Term
        ensures { result.now ≡ self.now.node }
    {
        self.node
    }

    /// The triples of which the node is the subject.
    pub(crate) fn own(&self) -> &'a [Triple]
        ensures ascending { IsAscending triple_cmp result.now }
        ensures members { (t : TripleData) → Contains result.now t ↔ (Contains self.now.graph t × (t.subject ≡ self.now.node)) }
    {
        self.own
    }

    /// The blank nodes of the graph that stand for paths.
    pub(crate) fn paths(&self) -> &'a BTreeSet<Term>
        ensures { ArePathNodes self.now.graph result.now.keys }
    {
        &self.survey.paths
    }

    /// The graph's triples with sh:property, reversed.
    pub(crate) fn reversed(&self) -> &'a [Triple]
        ensures { IsListing triple_cmp (IsReversed self.now.graph) result.now }
    {
        self.survey.reversed.as_slice()
    }

    /// The members of the list at the head, if it is the head of one.
    pub(crate) fn members(&self, head: &Term) -> Result<Option<Sequence<Term>>, AllocError>
        ensures { IfOk result (λ found. MatchOption found
            ((members : List TermData) → ListOf self.now.graph head.now members → ⊥)
            (λ members. ListOf self.now.graph head.now members)) }
    {
        list_members(self.alloc, self.graph, head)
    }
}
