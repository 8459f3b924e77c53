//! What an evaluation of shapes reads, with what is known of it.
ghost use Rattle.std.specs.Prelude.{false, ◌≡◌, ◌<◌, ◌↔◌, IfOk, IsTrue, OnOk, Some, length, slice_get};
ghost use Rattle.rdf_model.specs.Numbers.{AreNumbered, IsNumbering, graph_of, term_at};
ghost use Rattle.shape_model.specs.Instances.{Instance};
ghost use Rattle.collections.specs.Listings.{Keeps};
ghost use Rattle.component_rows.specs.Nodes.{AreNodes};
ghost use Rattle.component_rows.specs.Sites.{spot};
ghost use Rattle.path_eval.specs.Instances.{AreClassWords, ClassReads};
ghost use Rattle.shape_ast.specs.Readings.{AreBound, HoldsOfShape};
ghost use Rattle.shape_ast.specs.Standing.{AreBuilt, IsBuilt};
ghost use Rattle.shape_eval.specs.Settings.{IsSetting, setting};

use component_rows::{Site, named};
use path_eval::{ClassWords, is_instance};
use rdf_model::{Footprint, Names, Term, Triples};
use shape_ast::{Bound, Shape};
use std::alloc::{AllocError, Global};
use std::marker::Model;

/// What an evaluation of shapes reads: a graph and compiled shapes over the numbers of terms, the names of the terms and the
/// words of classes. Each number has a term, and the patterns of the shapes are built from their terms.
#[derive(Drop)]
pub struct Evaluation<'a, R: Triples, N: Names> {
    alloc: Global,
    graph: &'a R,
    names: &'a N,
    words: ClassWords,
    bound: &'a Bound,
}

impl<'a, R: Triples, N: Names> Model for Evaluation<'a, R, N> {
    ghost use Rattle.shape_eval.specs.Settings.{IsSetting, Setting, setting};

    ghost Value = { Setting };

    ghost use Rattle.std.specs.Borrow.{u32 as word};
    ghost use Rattle.std.specs.Coded.{codes};
    ghost use Rattle.std.specs.contracts.prelude.U32Ord.TheImpl as word_order;
    ghost use Rattle.std.specs.contracts.prelude.U32PartialEq.TheImpl as word_equality;
    ghost use Rattle.std.specs.contracts.prelude.U32PartialOrd.TheImpl as word_comparison;
    ghost use Rattle.shape_ast.specs.contracts.shape.Shape as shape_rows;

    ghost coded = { Prim.hlevel (codes, (shape_rows.the_row word word_order.ghosts word_equality.ghosts word_comparison.ghosts).coded) };

    ghost view = { λ e. setting (N.terms e.names.now) (R.triples e.graph.now) e.words e.bound.now.shapes };

    ghost invariant = { λ e. IsSetting (setting (N.terms e.names.now) (R.triples e.graph.now) e.words e.bound.now.shapes) };
}

impl<'a, R: Triples, N: Names> Evaluation<'a, R, N> {
    /// An evaluation of the bound shapes over the graph. It takes no memory.
    pub fn new(
        alloc: Global,
        graph: &'a R,
        names: &'a N,
        words: ClassWords,
        bound: &'a Bound,
    ) -> Evaluation<'a, R, N>
        requires numbering { IsNumbering (N.terms names.now) }
        requires graph { AreNumbered (N.terms names.now) (R.triples graph.now) }
        requires words { AreClassWords (N.terms names.now) words }
        requires bound { AreBound (N.terms names.now) bound.now.shapes }
        requires built { AreBuilt (term_at (N.terms names.now)) bound.now.shapes }
        ensures { result ≡ setting (N.terms names.entry.now) (R.triples graph.entry.now) words bound.entry.now.shapes }
    {
        Evaluation {
            alloc,
            graph,
            names,
            words,
            bound,
        }
    }

    /// What is known of each evaluation: the call only recalls it.
    pub fn recall(&self)
        ensures { IsSetting self.now }
    {
        let _words = self.words;
    }

    /// The allocator of what is made for the evaluation.
    pub fn alloc(&self) -> Global {
        self.alloc
    }

    /// The graph.
    pub fn graph(&self) -> &'a R
        ensures { R.triples result.now ≡ self.now.ids }
    {
        self.graph
    }

    /// The words of classes.
    pub fn words(&self) -> ClassWords
        ensures { result ≡ self.now.words }
    {
        self.words
    }

    /// The shapes.
    pub fn bound(&self) -> &'a Bound
        ensures { result.now.shapes ≡ self.now.shapes }
    {
        self.bound
    }

    // The shapes, by their places.
    pub(crate) fn shapes(&self) -> &'a [Shape<u32>]
        ensures { result.now ≡ self.now.shapes }
    {
        self.bound.shapes.as_slice()
    }

    // The shape at the place.
    pub(crate) fn shape(&self, place: usize) -> &'a Shape<u32>
        requires { place < length self.now.shapes }
        ensures is { slice_get self.now.shapes place ≡ Some result.now }
        ensures bound { HoldsOfShape (λ n. n < length self.now.terms) (length self.now.shapes) result.now }
        ensures built { IsBuilt (term_at self.now.terms) result.now }
    {
        self.recall();
        let shapes = self.shapes();
        match shapes.get(place) {
            Some(shape) => shape,
            None => unreachable!(),
        }
    }

    // Whether a node is an instance of a class. The looks of the class path are added to the footprint.
    pub(crate) fn is_instance(
        &self,
        node: u32,
        class: u32,
        footprint: &mut Footprint,
    ) -> Result<bool, AllocError>
        requires node { node < length self.now.terms }
        requires class { class < length self.now.terms }
        ensures answer { IfOk result (λ answer. IsTrue answer ↔ Instance (graph_of self.now.terms self.now.ids) (term_at self.now.terms node) (term_at self.now.terms class)) }
        ensures looks { OnOk result (ClassReads self.now.terms self.now.ids false node footprint.old footprint.new) }
        ensures kept { Keeps footprint.old footprint.new }
    {
        is_instance(self.alloc, self.graph, self.words, node, class, footprint)
    }

    // The term that has the number.
    pub(crate) fn named(&self, number: u32) -> &'a Term
        requires { number < length self.now.terms }
        ensures { result.now ≡ term_at self.now.terms number }
    {
        named(self.names, number)
    }

    // Where a component of the shape that is a node is asked.
    pub(crate) fn site(
        &self,
        source: u32,
        parameter: u32,
        focus: u32,
        values: &'a [u32],
    ) -> Site<'a, N>
        requires source { source < length self.now.terms }
        requires parameter { parameter < length self.now.terms }
        requires focus { focus < length self.now.terms }
        requires nodes { AreNodes self.now.terms values.now }
        ensures { result ≡ spot self.now.terms (term_at self.now.terms source) parameter focus values.entry.now }
    {
        Site::new(
            self.alloc,
            self.names,
            named(self.names, source),
            parameter,
            focus,
            values,
        )
    }
}
