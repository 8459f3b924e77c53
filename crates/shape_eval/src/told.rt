//! Whether value nodes conform to shapes, as it was told.
ghost use Rattle.std.specs.Prelude.{◌≡◌, ◌<◌, ◌∷◌, [], IfOk, map, length};
ghost use Rattle.std.specs.List.{All};
ghost use Rattle.shape_eval.specs.Told.{answers_of, node_at};

use collections::Sequence;
use shape_ast::Shape;
use std::alloc::{AllocError, Global};

/// Whether each value node conforms to the shape that is a node.
#[derive(Debug, Drop)]
pub(crate) struct Told {
    pub(crate) node: u32,
    pub(crate) answers: Sequence<bool>,
}

// A copy of the first answers for the node.
fn answers_to_one(alloc: Global, told: &[Told], node: u32) -> Result<Vec<bool>, AllocError>
    ensures { IfOk result (λ answers. answers.items ≡ answers_of told.now node) }
{
    let mut answers = Vec::new(alloc);
    for entry in told {
        if entry.node == node {
            answers.extend_from_slice(entry.answers.as_slice())?;
            return Ok(answers);
        }
    }
    Ok(answers)
}

/// The answers for a node, alone.
pub(crate) fn answers_to_node(
    alloc: Global,
    told: &[Told],
    node: u32,
) -> Result<Vec<Vec<bool>>, AllocError>
    ensures { IfOk result (λ lists. map (λ a. a.items) lists.items ≡ answers_of told.now node ∷ []) }
{
    let mut lists = Vec::new(alloc);
    lists.push(answers_to_one(alloc, told, node)?)?;
    Ok(lists)
}

/// The answers for each of the nodes.
pub(crate) fn answers_to(
    alloc: Global,
    told: &[Told],
    nodes: &[u32],
) -> Result<Vec<Vec<bool>>, AllocError>
    ensures { IfOk result (λ lists. map (λ a. a.items) lists.items ≡ map (answers_of told.now) nodes.now) }
{
    let mut lists = Vec::with_capacity(alloc, nodes.len())?;
    for node in nodes {
        lists.push(answers_to_one(alloc, told, *node)?)?;
    }
    Ok(lists)
}

/// The nodes that are the shapes at the places.
pub(crate) fn nodes_at(
    alloc: Global,
    shapes: &[Shape<u32>],
    places: &[usize],
) -> Result<Vec<u32>, AllocError>
    requires { All (λ n. n < length shapes.now) places.now }
    ensures { IfOk result (λ nodes. nodes.items ≡ map (node_at shapes.now) places.now) }
{
    let mut nodes = Vec::with_capacity(alloc, places.len())?;
    for place in places {
        nodes.push(shapes[*place].node)?;
    }
    Ok(nodes)
}
