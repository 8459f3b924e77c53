//! The store as it was at one version.
ghost use Rattle.std.specs.Prelude.{◌≡◌, ◌≤◌, IfErr, IfOk, OnOk};
ghost use Rattle.std.specs.List.{AllByRecursion};
ghost use Rattle.rdf_model.specs.Graphs.{after};
ghost use Rattle.bgp_query.specs.Selected.{AreSelected, IsJoinFault};
ghost use Rattle.store_model.specs.Finds.{found};
ghost use Rattle.store_model.specs.Store.{AreNamed, NetNamed, looked_at};
ghost use Rattle.parallel_validate.specs.Counting.{GrowsByCount};
ghost use Rattle.parallel_validate.specs.Verdicts.{IsEvaluated};
ghost use Rattle.shape_model.specs.Validation.{Listing};
ghost use Rattle.data_graph.specs.DataGraphs.{triples_at};
ghost use Rattle.commit_core.specs.Consistent.{IsSound};
ghost use Rattle.commit_core.specs.Verdicts.{IsPairedCheck};

use crate::checked::CheckedNet;
use bgp_query::{JoinFault, JoinPattern};
use collections::Sequence;
use data_graph::{NumberHints, ValidatedGraph};
use numbered_lists::Net;
use rdf_model::{Pattern, Term, Triple};
use shape_eval::Steps;
use shape_model::ResultRow;
use shapes_graph::ShapesGraph;
use std::alloc::{AllocError, Global};
use std::marker::Model;
use std::sync::ledger::Ledger;
use std::thread::Threads;
use store_model::{BlockMode, Verdict};
use term_dict::Dict;
use triple_index::Index;

/// The store as it was at one version: its number, its mode, and its data graph, ascending, which keeps its shapes graph, its
/// names and its results. Contracts see the first five; the graph has no result under the shapes that blocks in the mode.
pub struct Snap {
    number: u64,
    mode: BlockMode,
    graph: ValidatedGraph,
}

impl Model for Snap {
    ghost use Rattle.store_model.specs.Snapshots.{Snapshot};
    ghost use Rattle.commit_core.specs.Consistent.{IsSound};

    ghost Value = { Snapshot };

    ghost view = { λ s. record { mode = s.mode; number = s.number; graph = s.graph.triples; shapes = s.graph.shapes; named = s.graph.terms } };

    ghost invariant = { λ s. IsSound (record { mode = s.mode; number = s.number; graph = s.graph.triples; shapes = s.graph.shapes; named = s.graph.terms }) };
}

// Written by hand, so that what owns one calls it in place of having it written out.
impl Drop for Snap {
    fn drop(self) {
        let Snap {
            number: _,
            mode: _,
            graph: _,
        } = self;
    }
}

impl Snap {
    // The snapshot of the graph, which it shares.
    pub(crate) fn sharing(
        number: u64,
        mode: BlockMode,
        graph: &ValidatedGraph,
    ) -> Result<Snap, AllocError>
        requires { IsSound (record { mode = mode; number = number; graph = graph.now.triples; shapes = graph.now.shapes; named = graph.now.terms }) }
        ensures { IfOk result (λ snap. snap ≡ record { mode = mode; number = number; graph = graph.now.triples; shapes = graph.now.shapes; named = graph.now.terms }) }
    {
        Ok(Snap {
            number,
            mode,
            graph: graph.share()?,
        })
    }

    /// The version.
    pub fn number(&self) -> u64
        ensures { result ≡ self.now.number }
    {
        self.number
    }

    /// The names of terms.
    pub fn names(&self) -> &Dict
        ensures { result.now.terms ≡ self.now.named }
    {
        self.graph.names()
    }

    /// The triples by the numbers of their terms.
    pub fn numbers(&self) -> &Index
        ensures { triples_at self.now.named result.now ≡ self.now.graph }
    {
        self.graph.graph().index()
    }

    /// The shapes graph.
    pub fn shapes(&self) -> &ShapesGraph
        ensures { result.now ≡ self.now.shapes }
    {
        self.graph.shapes()
    }

    /// The triples that the pattern asks for in the graph with these changes, in their order. It asks
    /// an index of the graph, as `DataGraph::find` says.
    pub fn find(
        &self,
        alloc: Global,
        net: &Net,
        pattern: &Pattern,
    ) -> Result<Vec<Triple>, AllocError>
        ensures { IfOk result (λ v. v.items ≡ found (after self.now.graph net.now) pattern.now) }
    {
        self.graph.graph().find(alloc, net, pattern)
    }

    /// The bindings of the patterns in the graph with these changes: the terms of the variables, from the first on, under which
    /// each pattern stands there (SPARQL 1.1 Query, section 18.3), each once, ascending. `TooMany` comes exactly where there
    /// are more than 100,000.
    pub fn select(
        &self,
        net: &Net,
        patterns: &[JoinPattern<Term>],
    ) -> Result<Vec<Sequence<Term>>, JoinFault>
        ensures rows { IfOk result (λ rows. AreSelected (after self.now.graph net.now) patterns.now rows.items) }
        ensures fault { IfErr result (λ fault. IsJoinFault fault (after self.now.graph net.now) patterns.now) }
    {
        self.graph.select(net, patterns)
    }

    /// Checks the changes at this version, beside the store: the verdict has this version as its head and all looks that were
    /// made, and the pairs are those that the changes touch, each with its results after them. All terms of the changes are named, and
    /// so are those of the looks. The evaluations are counted in `steps`: there are as many as there are pairs of a shape and
    /// a node that a changed triple touches and that are targets after the changes, and threads share them out among each other.
    /// After an error the count is what it was, or more.
    pub fn check<L: Ledger, T: Threads + Sync>(
        &self,
        rt: &T,
        net: &Net,
        hints: &NumberHints,
        steps: &mut Steps<L>,
    ) -> Result<CheckedNet, AllocError>
        requires { NetNamed self.now.named net.now }
        ensures head { IfOk result (λ checked. checked.verdict.head ≡ self.now.number) }
        ensures check { IfOk result (λ checked. IsPairedCheck self.now.named self.now.graph self.now.shapes net.now checked.verdict.looks checked.pairs) }
        ensures named { IfOk result (λ checked. AllByRecursion (λ look. AreNamed self.now.named (looked_at look)) checked.verdict.looks) }
        ensures steps { OnOk result (GrowsByCount (IsEvaluated self.now.graph self.now.shapes net.now) steps.old steps.new) }
        ensures counted { steps.old ≤ steps.new }
    {
        let found = self.graph.graph().paired_after(rt, net, hints, steps)?;
        let (pairs, looks) = found.into_parts();
        Ok(CheckedNet {
            verdict: Verdict {
                head: self.number,
                looks,
            },
            pairs,
        })
    }

    /// The results of validating the graph by its shapes graph (SHACL section 3.6), each once, in the order of results. Nothing is
    /// evaluated: its cost is theirs.
    pub fn listing(&self) -> Result<Vec<ResultRow>, AllocError>
        ensures { IfOk result (λ rows. Listing self.now.graph self.now.shapes rows.items) }
    {
        self.graph.listing()
    }

    /// What every snapshot is, for a caller that rests on it. It does nothing.
    pub fn recall_sound(&self)
        ensures { IsSound self.now }
    {
        let _ = &self.number;
    }
}
