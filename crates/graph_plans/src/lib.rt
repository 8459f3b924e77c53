//! The shapes of a well-formed shapes graph by number, with their plans.
//!
//! `plan_graph` makes what `parallel_validate::check` takes of a shapes graph. It is made once, when the graph is staged or
//! read: naming more terms leaves it as it is.
//!
//! Storey: validation.
#![tactic(auto)]

ghost use Rattle.std.specs.Prelude.{IfOk};
ghost use Rattle.path_eval.specs.Instances.{AreClassWords};
ghost use Rattle.shape_ast.specs.Readings.{named_shapes};
ghost use Rattle.shape_ast.specs.Standing.{StandFor};
ghost use Rattle.shape_rules.specs.Broken.{IsWellFormed};
ghost use Rattle.shape_plans.specs.Planned.{ArePlanned};
ghost use Rattle.parallel_validate.specs.Named.{AreNamedTriples};

use path_eval::ClassWords;
use rdf_model::Names;
use shape_plans::{PlannedShapes, plan_shapes};
use shapes_graph::ShapesGraph;
use std::alloc::{AllocError, Global};

/// The shapes of the graph by the numbers of their terms, with the plans of those that declare targets. All terms of the
/// graph, rdf:type and rdfs:subClassOf are among the names. It fails only for want of memory: no shape of a well-formed
/// graph has too many looks for a plan.
pub fn plan_graph<N: Names>(
    alloc: Global,
    names: &N,
    words: ClassWords,
    shapes: &ShapesGraph,
) -> Result<PlannedShapes, AllocError>
    requires words { AreClassWords (N.terms names.now) words }
    requires shapes { AreNamedTriples (N.terms names.now) shapes.now }
    ensures well_formed { IsWellFormed shapes.now }
    ensures planned { IfOk result (ArePlanned (N.terms names.now)) }
    ensures stand { IfOk result (λ planned. StandFor (named_shapes (N.terms names.now) planned.bound.shapes) shapes.now) }
{
    Ok(plan_shapes(alloc, names, words, shapes.shapes())?)
}
