//! A shapes graph and its bound shapes, which are shared together.
ghost use Rattle.std.specs.Prelude.{◌≡◌, IfOk};
ghost use Rattle.path_eval.specs.Instances.{AreClassWords};
ghost use Rattle.parallel_validate.specs.Named.{AreNamedTriples};
ghost use Rattle.bound_shapes.specs.Bound.{IsBoundTo};

use graph_plans::plan_graph;
use path_eval::ClassWords;
use rdf_model::Names;
use shape_plans::PlannedShapes;
use shapes_graph::ShapesGraph;
use std::alloc::{AllocError, Global};
use std::marker::Model;
use std::sync::Arc;

/// A well-formed shapes graph with its compiled shapes, by the numbers that their terms have among some names, and their
/// plans. Contracts see its triples and those shapes with their plans.
pub struct BoundShapes {
    graph: ShapesGraph,
    planned: Arc<PlannedShapes>,
}

impl Model for BoundShapes {
    ghost use Rattle.std.specs.Arc.{arc_value};
    ghost use Rattle.bound_shapes.specs.Bound.{BoundGraph};

    ghost Value = { BoundGraph };

    ghost use Rattle.std.specs.Coded.{codes};
    ghost use Rattle.shape_plans.specs.contracts.planned.PlannedShapes as planned_rows;

    ghost coded = { Prim.hlevel (codes, planned_rows.the_row.coded) };

    ghost view = { λ b. record { graph = b.graph; planned = arc_value b.planned } };
}

// Written by hand, so that what owns one calls it in place of having it written out.
impl Drop for BoundShapes {
    fn drop(self) {
        let BoundShapes {
            graph: _,
            planned: _,
        } = self;
    }
}

impl BoundShapes {
    /// The shapes of the graph, bound to the names, among which all terms of the graph are, with their plans.
    pub fn new<N: Names>(
        alloc: Global,
        names: &N,
        words: ClassWords,
        graph: ShapesGraph,
    ) -> Result<BoundShapes, AllocError>
        requires words { AreClassWords (N.terms names.now) words }
        requires named { AreNamedTriples (N.terms names.now) graph }
        ensures graph { IfOk result (λ shapes. shapes.graph ≡ graph) }
        ensures bound { IfOk result (IsBoundTo (N.terms names.now)) }
    {
        let planned = plan_graph(alloc, names, words, &graph)?;
        let planned = Arc::new(alloc, planned)?;
        Ok(BoundShapes { graph, planned })
    }

    /// The shapes graph.
    pub fn graph(&self) -> &ShapesGraph
        ensures { result.now ≡ self.now.graph }
    {
        &self.graph
    }

    /// Its shapes by number, with their plans.
    pub fn planned(&self) -> &PlannedShapes
        ensures { result.now ≡ self.now.planned }
    {
        &self.planned
    }

    /// These bound shapes once more. Nothing is copied.
    pub fn share(&self) -> Result<BoundShapes, AllocError>
        ensures { IfOk result (λ share. share ≡ self.now) }
    {
        let graph = self.graph.share()?;
        Ok(BoundShapes {
            graph,
            planned: Arc::try_clone(&self.planned)?,
        })
    }
}
