//! The data graph that is validated, with what is known of it.
ghost use Rattle.std.specs.Prelude.{◌≡◌};
ghost use Rattle.rdf_model.specs.Numbers.{AreNumbered, IsNumbering, term_at};
ghost use Rattle.path_eval.specs.Instances.{AreClassWords};
ghost use Rattle.shape_ast.specs.Readings.{AreBound};
ghost use Rattle.shape_ast.specs.Standing.{AreBuilt};
ghost use Rattle.shape_eval.specs.Settings.{setting};
ghost use Rattle.result_evidence.specs.Data.{IsDataByNumbers, data_by_numbers};

use path_eval::ClassWords;
use rdf_model::{Names, Triples};
use shape_ast::Bound;
use shape_eval::Evaluation;
use std::alloc::Global;
use std::marker::Model;

/// The data graph that is validated: its triples by the numbers of their terms, the names of the terms and the words of
/// classes. No two numbers have one term, and each number has one.
#[derive(Drop)]
pub struct NumberedData<'a, R: Triples, N: Names> {
    alloc: Global,
    graph: &'a R,
    names: &'a N,
    words: ClassWords,
}

impl<'a, R: Triples, N: Names> Model for NumberedData<'a, R, N> {
    ghost use Rattle.result_evidence.specs.Data.{IsDataByNumbers, DataByNumbers, data_by_numbers};

    ghost Value = { DataByNumbers };

    ghost view = { λ d. data_by_numbers (N.terms d.names.now) (R.triples d.graph.now) d.words };

    ghost invariant = { λ d. IsDataByNumbers (data_by_numbers (N.terms d.names.now) (R.triples d.graph.now) d.words) };
}

impl<'a, R: Triples, N: Names> NumberedData<'a, R, N> {
    /// The graph with its names. It takes no memory.
    pub fn new(
        alloc: Global,
        graph: &'a R,
        names: &'a N,
        words: ClassWords,
    ) -> NumberedData<'a, R, N>
        requires numbering { IsNumbering (N.terms names.now) }
        requires graph { AreNumbered (N.terms names.now) (R.triples graph.now) }
        requires words { AreClassWords (N.terms names.now) words }
        ensures { result ≡ data_by_numbers (N.terms names.entry.now) (R.triples graph.entry.now) words }
    {
        NumberedData {
            alloc,
            graph,
            names,
            words,
        }
    }

    /// What is known of each such graph: the call only recalls it.
    pub fn recall(&self)
        ensures { IsDataByNumbers self.now }
    {
        let _words = self.words;
    }

    /// The allocator of what is made for the graph.
    pub fn alloc(&self) -> Global {
        self.alloc
    }

    /// The triples.
    pub fn graph(&self) -> &'a R
        ensures { R.triples result.now ≡ self.now.ids }
    {
        self.graph
    }

    /// The names of the terms.
    pub fn names(&self) -> &'a N
        ensures { N.terms result.now ≡ self.now.terms }
    {
        self.names
    }

    /// An evaluation of the bound shapes over the graph. It takes no memory.
    pub fn evaluation(&self, bound: &'a Bound) -> Evaluation<'a, R, N>
        requires bound { AreBound self.now.terms bound.now.shapes }
        requires built { AreBuilt (term_at self.now.terms) bound.now.shapes }
        ensures { result ≡ setting self.now.terms self.now.ids self.now.words bound.entry.now.shapes }
    {
        Evaluation::new(self.alloc, self.graph, self.names, self.words, bound)
    }
}
