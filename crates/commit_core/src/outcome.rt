//! The graph that a commit would make, with its results, and whether one of them blocks.
ghost use Rattle.std.specs.Prelude.{◌≡◌, ◌≤◌, IfOk, OnOk};
ghost use Rattle.parallel_validate.specs.Counting.{GrowsByCount, IsTargetPair};
ghost use Rattle.commit_core.specs.Outcomes.{IsOutcome, TellsBlocking};

use blocking::has_blocking;
use data_graph::{DataGraph, ValidatedGraph};
use shape_eval::Steps;
use std::alloc::AllocError;
use std::sync::ledger::Ledger;
use std::thread::Threads;
use store_model::BlockMode;

/// A graph with its results, and whether one of them blocks.
pub struct Outcome {
    pub graph: ValidatedGraph,
    pub blocks: bool,
}

// Written by hand, so that what owns one calls it in place of having it written out.
impl Drop for Outcome {
    fn drop(self) {
        let Outcome {
            graph: _,
            blocks: _,
        } = self;
    }
}

// Whether a result of the graph blocks, by all of them.
fn is_blocked(mode: BlockMode, graph: &ValidatedGraph) -> Result<bool, AllocError>
    ensures { IfOk result (TellsBlocking mode graph.now.triples graph.now.shapes) }
{
    let rows = graph.listing()?;
    Ok(has_blocking(mode, graph.shapes(), &rows))
}

impl Outcome {
    /// That of the graph, by an evaluation of each pair of a shape and its target, which threads share out among each other.
    pub fn whole<L: Ledger, T: Threads + Sync>(
        rt: &T,
        mode: BlockMode,
        graph: DataGraph,
        steps: &mut Steps<L>,
    ) -> Result<Outcome, AllocError>
        ensures outcome { IfOk result (IsOutcome mode graph) }
        ensures steps { OnOk result (GrowsByCount (IsTargetPair graph.triples graph.shapes) steps.old steps.new) }
        ensures counted { steps.old ≤ steps.new }
    {
        let validated = ValidatedGraph::whole(rt, graph, steps)?;
        let blocks = is_blocked(mode, &validated)?;
        Ok(Outcome {
            graph: validated,
            blocks,
        })
    }

    /// The graph alone.
    pub fn into_graph(self) -> ValidatedGraph
        ensures { result ≡ self.graph }
    {
        let Outcome { graph, blocks: _ } = self;
        graph
    }
}
