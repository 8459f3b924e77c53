//! Compiled shapes by number, with their plans.
ghost use Rattle.std.specs.Prelude.{◌≡◌, ◌<◌, ◌^◌, IfOk, length};
ghost use Rattle.collections.specs.Ordered.{IsAscending};
ghost use Rattle.path_eval.specs.Instances.{AreClassWords};
ghost use Rattle.shape_ast.specs.Readings.{AreNamed, named_shapes, read_shapes};
ghost use Rattle.shape_ast.specs.Standing.{AreBuilt, shape_cmp};
ghost use Rattle.shape_plans.specs.Planned.{AreFew, ArePlanned};

use crate::plans::number_plans;
use focus_affected::IndexedPlans;
use path_eval::ClassWords;
use rdf_model::Names;
use shape_ast::{Bound, Shapes, bind};
use std::alloc::{AllocError, Global};

/// The shapes of a shapes graph over the numbers of their terms, as validation takes them, with the plans by which changes
/// of a data graph are checked.
#[derive(Debug, Drop)]
pub struct PlannedShapes {
    pub bound: Bound,
    /// The numbers of rdf:type and rdfs:subClassOf.
    pub words: ClassWords,
    /// The plans of the shapes that declare targets, with an index of their rows.
    pub plans: IndexedPlans,
}

// Names have numbers of 32 bits.
fn recall_few_names<N: Names>(names: &N)
    ensures { length (N.terms names.now) < 2 ^ 32 }
{
    let _count = names.count();
}

/// The shapes by the numbers of their terms among the names, with their plans. They ascend by their nodes, their patterns
/// are built, and no shape has more than 4,096 looks. It fails only for want of memory.
pub fn plan_shapes<N: Names>(
    alloc: Global,
    names: &N,
    words: ClassWords,
    shapes: &Shapes,
) -> Result<PlannedShapes, AllocError>
    requires words { AreClassWords (N.terms names.now) words }
    requires named { AreNamed (N.terms names.now) shapes.now.shapes }
    requires built { AreBuilt (λ t. t) shapes.now.shapes }
    requires ascending { IsAscending shape_cmp (read_shapes shapes.now.shapes) }
    requires few { AreFew (read_shapes shapes.now.shapes) }
    ensures planned { IfOk result (ArePlanned (N.terms names.now)) }
    ensures same { IfOk result (λ planned. named_shapes (N.terms names.now) planned.bound.shapes ≡ read_shapes shapes.now.shapes) }
{
    let bound = bind(alloc, shapes, names)?;
    recall_few_names(names);
    let plans = number_plans(alloc, names, shapes)?;
    Ok(PlannedShapes {
        bound,
        words,
        plans: IndexedPlans::new(alloc, plans)?,
    })
}
