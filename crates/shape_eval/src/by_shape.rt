//! The results of components whose parameter is a shape, or a list of shapes.
ghost use Rattle.std.specs.Prelude.{◌≡◌, ◌<◌, IfOk, length};
ghost use Rattle.std.specs.List.{All, Contains};
ghost use Rattle.rdf_model.specs.Numbers.{term_at};
ghost use Rattle.shape_model.specs.Components.{RowsOf};
ghost use Rattle.component_rows.specs.Listed.{Lists, untold, with_list};
ghost use Rattle.component_rows.specs.Sites.{ListsAt, site_row};
ghost use Rattle.shape_ast.specs.Components.{shape_component, shapes_component};
ghost use Rattle.shape_ast.specs.Readings.{AreBound, named_shapes};
ghost use Rattle.shape_ast.specs.Standing.{AreAt, IsAt};
ghost use Rattle.shape_eval.specs.Around.{around};
ghost use Rattle.shape_eval.specs.Told.{HaveAnswers, WhereRight};

use crate::told::{Told, answers_to, answers_to_node, nodes_at};
use component_rows::Site;
use logic_constraints::{and, node, not, or, xone};
use rdf_model::Names;
use shape_ast::{Shape, ShapeComponent, ShapesComponent};
use shape_model::ResultRow;
use std::alloc::AllocError;

/// The results of a component whose parameter is the shape at the place (SHACL sections 4.6.1 and 4.7.1).
pub(crate) fn shape_rows<N: Names>(
    site: &Site<'_, N>,
    shapes: &[Shape<u32>],
    told: &[Told],
    component: ShapeComponent,
    place: usize,
) -> Result<Vec<ResultRow>, AllocError>
    requires told { HaveAnswers shapes.now site.now.values told.now (λ n. place ≡ n) }
    requires place { place < length shapes.now }
    ensures { IfOk result (λ rows. (ids : _) → WhereRight site.now.terms ids shapes.now site.now.values told.now (λ n. place ≡ n)
        (λ s n. IsAt (named_shapes site.now.terms shapes.now) place (term_at site.now.terms site.now.parameter)
        → ListsAt (shape_component component) (around site.now.terms ids s n site.now.values site.now.focus) untold site.now rows.items)) }
{
    site.recall();
    let answers = answers_to_node(site.alloc(), told, shapes[place].node)?;
    match component {
        ShapeComponent::Not => not(site, &answers),
        ShapeComponent::Node => node(site, &answers),
    }
}

/// The results of a component whose parameter is the list of the shapes at the places (SHACL sections 4.6.2 to 4.6.4).
pub(crate) fn shapes_rows<N: Names>(
    site: &Site<'_, N>,
    shapes: &[Shape<u32>],
    told: &[Told],
    component: ShapesComponent,
    places: &[usize],
) -> Result<Vec<ResultRow>, AllocError>
    requires bound { AreBound site.now.terms shapes.now }
    requires told { HaveAnswers shapes.now site.now.values told.now (Contains places.now) }
    requires places { All (λ n. n < length shapes.now) places.now }
    ensures { IfOk result (λ rows. (ids : _) → WhereRight site.now.terms ids shapes.now site.now.values told.now (Contains places.now)
        (λ s n. Lists (λ r. (members : _) × AreAt (named_shapes site.now.terms shapes.now) places.now members
        × RowsOf (shapes_component component) (around site.now.terms ids s n site.now.values site.now.focus) (with_list members) (term_at site.now.terms site.now.parameter)
        (site_row (shapes_component component) site.now) r) rows.items)) }
{
    site.recall();
    let alloc = site.alloc();
    let nodes = nodes_at(alloc, shapes, places)?;
    let answers = answers_to(alloc, told, &nodes)?;
    match component {
        ShapesComponent::And => and(site, &nodes, &answers),
        ShapesComponent::Or => or(site, &nodes, &answers),
        ShapesComponent::Xone => xone(site, &nodes, &answers),
    }
}
