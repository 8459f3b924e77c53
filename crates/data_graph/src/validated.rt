//! A data graph with the results of validating it.
ghost use Rattle.std.specs.Prelude.{◌≡◌, ◌+◌, ◌<◌, ◌≤◌, ◌^◌, [], IfErr, IfOk, OnErr, OnOk, length};
ghost use Rattle.bgp_query.specs.Selected.{AreSelected, IsJoinFault};
ghost use Rattle.rdf_model.specs.Graphs.{after};
ghost use Rattle.shape_model.specs.Validation.{Listing};
ghost use Rattle.parallel_validate.specs.Counting.{GrowsByCount, IsTargetPair};
ghost use Rattle.term_dict.specs.Faults.{IsCause};
ghost use Rattle.term_dict.specs.Names.{AreNumbersOf, first_terms, with_terms};
ghost use Rattle.data_graph.specs.DataGraphs.{names_of, with_names};
ghost use Rattle.data_graph.specs.Pairs.{HasListing, IsAfterCheck};

use crate::graph::DataGraph;
use bgp_query::{JoinFault, JoinPattern};
use collections::{Sequence, both};
use kept_rows::{KeptRows, PairRows};
use numbered_lists::Net;
use rdf_model::Term;
use shape_eval::Steps;
use shape_model::ResultRow;
use shapes_graph::ShapesGraph;
use std::alloc::{AllocError, Global};
use std::marker::Model;
use std::sync::ledger::Ledger;
use std::thread::Threads;
use term_dict::{Dict, NameFault};

/// A data graph with the results of validating it by its shapes graph, each with the pair of a shape and a focus node that gives
/// it. Contracts see the graph; the type keeps that they are just its results.
pub struct ValidatedGraph {
    graph: DataGraph,
    rows: KeptRows,
}

impl Model for ValidatedGraph {
    ghost use Rattle.kept_rows.specs.Laws.{KeepsResults};
    ghost use Rattle.data_graph.specs.DataGraphs.{NamedGraph};

    ghost Value = { NamedGraph };

    ghost view = { λ v. v.graph };

    ghost invariant = { λ v. KeepsResults v.graph.terms v.graph.triples v.graph.shapes v.rows };
}

// Written by hand, so that what owns one calls it in place of having it written out.
impl Drop for ValidatedGraph {
    fn drop(self) {
        let ValidatedGraph { graph: _, rows: _ } = self;
    }
}

impl ValidatedGraph {
    /// A graph with no triple and no shape, as `DataGraph::new` makes it. It has no result.
    pub fn new(alloc: Global, limit: usize) -> Result<ValidatedGraph, AllocError>
        requires { limit + 2 < 2 ^ 32 }
        ensures { IfOk result (λ graph. graph ≡ record { triples = []; shapes = []; terms = first_terms; limit = limit }) }
    {
        let graph = DataGraph::new(alloc, limit)?;
        Ok(ValidatedGraph {
            graph,
            rows: KeptRows::new(alloc),
        })
    }

    /// The graph with its results by an evaluation of each pair of a shape and its target, counted in `steps`. Threads share them
    /// out among each other. After an error the count is what it was, or more.
    pub fn whole<L: Ledger, T: Threads + Sync>(
        rt: &T,
        graph: DataGraph,
        steps: &mut Steps<L>,
    ) -> Result<ValidatedGraph, AllocError>
        ensures graph { IfOk result (λ validated. validated ≡ graph) }
        ensures steps { OnOk result (GrowsByCount (IsTargetPair graph.triples graph.shapes) steps.old steps.new) }
        ensures counted { steps.old ≤ steps.new }
    {
        let rows = graph.kept_results(rt, steps)?;
        Ok(ValidatedGraph { graph, rows })
    }

    /// Another graph that is the same. It copies no triple, no term and no result, and neither sees a later change of the other.
    /// It fails only where the owners of one page can't be counted.
    pub fn share(&self) -> Result<ValidatedGraph, AllocError>
        ensures { IfOk result (λ share. share ≡ self.now) }
    {
        let (graph, rows) = both(self.graph.share(), self.rows.share())?;
        Ok(ValidatedGraph { graph, rows })
    }

    /// The graph alone.
    pub fn graph(&self) -> &DataGraph
        ensures { result.now ≡ self.now }
    {
        &self.graph
    }

    /// How many triples there are. It takes no memory.
    pub fn len(&self) -> usize
        ensures { result ≡ length self.now.triples }
    {
        self.graph.len()
    }

    /// The shapes graph.
    pub fn shapes(&self) -> &ShapesGraph
        ensures { result.now ≡ self.now.shapes }
    {
        self.graph.shapes()
    }

    /// The names of terms.
    pub fn names(&self) -> &Dict
        ensures { result.now ≡ names_of self.now }
    {
        self.graph.names()
    }

    /// Names terms, as `DataGraph::name_all` does. After an error the graph is as it was.
    pub fn name_all(&mut self, terms: &[Term]) -> Result<Vec<u32>, NameFault>
        ensures ok { OnOk result (self.new ≡ with_names self.old terms.now) }
        ensures numbers { IfOk result (λ numbers. AreNumbersOf self.new.terms terms.now numbers.items) }
        ensures fits { OnOk result (length (with_terms self.old.terms terms.now) ≤ self.old.limit + 2) }
        ensures err { OnErr result (self.new ≡ self.old) }
        ensures cause { IfErr result (λ fault. IsCause fault (names_of self.old) terms.now) }
    {
        let numbers = self.graph.name_all(terms)?;
        Ok(numbers)
    }

    /// The bindings of the patterns in the graph with these changes, as by `DataGraph::select`.
    pub fn select(
        &self,
        net: &Net,
        patterns: &[JoinPattern<Term>],
    ) -> Result<Vec<Sequence<Term>>, JoinFault>
        ensures rows { IfOk result (λ rows. AreSelected (after self.now.triples net.now) patterns.now rows.items) }
        ensures fault { IfErr result (λ fault. IsJoinFault fault (after self.now.triples net.now) patterns.now) }
    {
        self.graph.select(net, patterns)
    }

    /// The results of validating the graph by its shapes graph (SHACL section 3.6), each once, in the order of results. Nothing is
    /// evaluated: its cost is theirs.
    pub fn listing(&self) -> Result<Vec<ResultRow>, AllocError>
        ensures { IfOk result (λ rows. Listing self.now.triples self.now.shapes rows.items) }
    {
        self.rows.listing()
    }

    /// There is a listing of the graph. It does nothing: its contract is what the type keeps.
    pub fn recall_listing(&self)
        ensures { HasListing self.now.triples self.now.shapes }
    {
        let _ = &self.graph;
    }

    /// The graph that changes make of this one, with its results: those of the pairs that the changes touch are told, and all
    /// others are kept. It looks at no other pair's, and shares what they leave.
    pub fn with_pairs(
        &self,
        next: DataGraph,
        pairs: &[PairRows],
    ) -> Result<ValidatedGraph, AllocError>
        requires { IsAfterCheck self.now next pairs.now }
        ensures { IfOk result (λ validated. validated ≡ next) }
    {
        self.graph.names().recall_numbering();
        let mut rows = self.rows.share()?;
        rows.merge(pairs)?;
        Ok(ValidatedGraph { graph: next, rows })
    }
}
