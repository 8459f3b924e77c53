//! The results of the two qualified counts.
ghost use Rattle.std.specs.Prelude.{◌≡◌, ◌<◌, ◌∷◌, ◌⊎◌, IfOk, length, map};
ghost use Rattle.std.specs.List.{Contains};
ghost use Rattle.rdf_model.specs.Numbers.{term_at};
ghost use Rattle.shape_model.specs.declared.component.Component.TheVariants as components;
ghost use Rattle.component_rows.specs.Sites.{ListsAt};
ghost use Rattle.shape_ast.specs.Readings.{AreBound, HoldsOfShape, named_shapes, read_shape};
ghost use Rattle.shape_ast.specs.Standing.{shape_reading};
ghost use Rattle.shape_eval.specs.Around.{around};
ghost use Rattle.shape_eval.specs.Told.{HaveAnswers, WhereRight, answers_of, places_in};

use crate::told::{Told, answers_to, answers_to_node, nodes_at};
use component_rows::Site;
use qualified_shapes::{qualified_max_count, qualified_min_count};
use rdf_model::Names;
use shape_ast::Shape;
use shape_model::ResultRow;
use std::alloc::{AllocError, Global};

// The answers for a node, and for each of the others.
fn answers_beside(
    alloc: Global,
    told: &[Told],
    node: u32,
    others: &[u32],
) -> Result<Vec<Vec<bool>>, AllocError>
    ensures { IfOk result (λ lists. map (λ a. a.items) lists.items ≡ map (answers_of told.now) (node ∷ others.now)) }
{
    let mut lists = answers_to_node(alloc, told, node)?;
    let mut more = answers_to(alloc, told, others)?;
    lists.append(&mut more)?;
    Ok(lists)
}

/// The results of sh:qualifiedMinCount (SHACL section 4.7.3); none without a qualified value shape.
pub(crate) fn qualified_min_rows<N: Names>(
    site: &Site<'_, N>,
    shapes: &[Shape<u32>],
    shape: &Shape<u32>,
    told: &[Told],
) -> Result<Vec<ResultRow>, AllocError>
    requires bound { AreBound site.now.terms shapes.now }
    requires shape { HoldsOfShape (λ n. n < length site.now.terms) (length shapes.now) shape.now }
    requires told { HaveAnswers shapes.now site.now.values told.now (λ n. Contains (places_in shape.now.qualified) n ⊎ Contains shape.now.siblings n) }
    ensures { IfOk result (λ rows. (ids : _) → WhereRight site.now.terms ids shapes.now site.now.values told.now (λ n. Contains (places_in shape.now.qualified) n ⊎ Contains shape.now.siblings n)
        (λ s n. ListsAt components.QualifiedMinCount (around site.now.terms ids s n site.now.values site.now.focus)
        (shape_reading (named_shapes site.now.terms shapes.now) (read_shape (term_at site.now.terms) shape.now)) site.now rows.items)) }
{
    site.recall();
    let alloc = site.alloc();
    let Some(place) = shape.qualified else {
        return Ok(Vec::new(alloc));
    };
    let node = shapes[place].node;
    let siblings = nodes_at(alloc, shapes, shape.siblings.as_slice())?;
    let answers = answers_beside(alloc, told, node, &siblings)?;
    qualified_min_count(site, node, &siblings, &answers)
}

/// The results of sh:qualifiedMaxCount (SHACL section 4.7.3); none without a qualified value shape.
pub(crate) fn qualified_max_rows<N: Names>(
    site: &Site<'_, N>,
    shapes: &[Shape<u32>],
    shape: &Shape<u32>,
    told: &[Told],
) -> Result<Vec<ResultRow>, AllocError>
    requires bound { AreBound site.now.terms shapes.now }
    requires shape { HoldsOfShape (λ n. n < length site.now.terms) (length shapes.now) shape.now }
    requires told { HaveAnswers shapes.now site.now.values told.now (λ n. Contains (places_in shape.now.qualified) n ⊎ Contains shape.now.siblings n) }
    ensures { IfOk result (λ rows. (ids : _) → WhereRight site.now.terms ids shapes.now site.now.values told.now (λ n. Contains (places_in shape.now.qualified) n ⊎ Contains shape.now.siblings n)
        (λ s n. ListsAt components.QualifiedMaxCount (around site.now.terms ids s n site.now.values site.now.focus)
        (shape_reading (named_shapes site.now.terms shapes.now) (read_shape (term_at site.now.terms) shape.now)) site.now rows.items)) }
{
    site.recall();
    let alloc = site.alloc();
    let Some(place) = shape.qualified else {
        return Ok(Vec::new(alloc));
    };
    let node = shapes[place].node;
    let siblings = nodes_at(alloc, shapes, shape.siblings.as_slice())?;
    let answers = answers_beside(alloc, told, node, &siblings)?;
    qualified_max_count(site, node, &siblings, &answers)
}
