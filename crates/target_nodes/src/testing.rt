//! Whether a node is a target of declarations.
ghost use Rattle.std.specs.Prelude.{◌≡◌, ◌↔◌, ◌<◌, ◌⊎◌, [], ◌∷◌, ◌++◌, IfOk, IsTrue, OnOk};
ghost use Rattle.std.specs.List.{Contains};
ghost use Rattle.rdf_model.specs.Numbers.{AsksForOne, IsFound};
ghost use Rattle.collections.specs.Listings.{Keeps};
ghost use Rattle.target_nodes.specs.TargetNumbers.{AddsDeclaredLooks, AtNode, ByOne, Declared, IsDecidedBy, IsDecidedBySome, IsDeclaredAnswer};

use path_eval::{ClassWords, is_instance};
use rdf_model::{Footprint, Look, Triples};
use shape_ast::Target;
use std::alloc::{AllocError, Global};

// Whether there is a number.
fn has_any(numbers: &[u32]) -> bool
    ensures { IsTrue result ↔ ((n : _) × Contains numbers.now n) }
{
    !numbers.is_empty()
}

fn either(first: bool, second: bool) -> bool
    ensures { IsTrue result ↔ (IsTrue first ⊎ IsTrue second) }
{
    first || second
}

// Whether the look finds something.
fn finds<R: Triples>(
    alloc: Global,
    graph: &R,
    look: Look<u32>,
    footprint: &mut Footprint,
) -> Result<bool, AllocError>
    requires { AsksForOne look }
    ensures answer { IfOk result (λ answer. IsTrue answer ↔ ((n : _) × IsFound look (R.triples graph.now) n)) }
    ensures looks { OnOk result (footprint.new ≡ footprint.old ++ look ∷ []) }
    ensures kept { Keeps footprint.old footprint.new }
{
    let mut found = Vec::new(alloc);
    graph.add_found(&look, &mut found)?;
    footprint.add(look)?;
    Ok(has_any(&found))
}

// Whether the node is a target by one declaration.
fn is_target_by<R: Triples>(
    alloc: Global,
    graph: &R,
    words: ClassWords,
    shape: u32,
    target: &Target<u32>,
    node: u32,
    footprint: &mut Footprint,
) -> Result<bool, AllocError>
    ensures decided { IfOk result (λ answer. ByOne (R.triples graph.now) words target.now shape (AtNode node (λ terms. IsDecidedBy terms (R.triples graph.now) target.now shape node answer footprint.old footprint.new))) }
    ensures kept { Keeps footprint.old footprint.new }
{
    match target {
        Target::Node(other) => Ok(*other == node),
        Target::Class(class) => Ok(is_instance(alloc, graph, words, node, *class, footprint)?),
        Target::ImplicitClass => Ok(is_instance(alloc, graph, words, node, shape, footprint)?),
        Target::SubjectsOf(predicate) => Ok(finds(
            alloc,
            graph,
            Look::Out(node, *predicate),
            footprint,
        )?),
        Target::ObjectsOf(predicate) => Ok(finds(
            alloc,
            graph,
            Look::In(*predicate, node),
            footprint,
        )?),
    }
}

// Whether the node is a target by any of the declarations. All are asked, so that the looks of each are made.
fn is_target_by_some<R: Triples>(
    alloc: Global,
    graph: &R,
    words: ClassWords,
    shape: u32,
    declared: &[Target<u32>],
    node: u32,
    footprint: &mut Footprint,
) -> Result<bool, AllocError>
    ensures decided { IfOk result (λ answer. Declared (R.triples graph.now) words declared.now shape (AtNode node (λ terms. IsDecidedBySome terms (R.triples graph.now) declared.now shape node answer footprint.old footprint.new))) }
    ensures kept { Keeps footprint.old footprint.new }
{
    let mut answer = false;
    for target in declared {
        let more = is_target_by(alloc, graph, words, shape, target, node, footprint)?;
        answer = either(answer, more);
    }
    Ok(answer)
}

/// Whether a node is a target of the shape with these declarations (SHACL section 2.1.3). `shape` is
/// the number of the shape's own node. The looks that decide it are added to the footprint, which keeps what it had
/// after an error too.
pub(crate) fn is_declared_target<R: Triples>(
    alloc: Global,
    graph: &R,
    words: ClassWords,
    shape: u32,
    declared: &[Target<u32>],
    node: u32,
    footprint: &mut Footprint,
) -> Result<bool, AllocError>
    ensures answer { IfOk result (λ answer. Declared (R.triples graph.now) words declared.now shape (AtNode node (λ terms. IsDeclaredAnswer terms (R.triples graph.now) declared.now shape node answer))) }
    ensures looks { OnOk result (Declared (R.triples graph.now) words declared.now shape (AtNode node (λ terms. AddsDeclaredLooks terms (R.triples graph.now) declared.now node footprint.old footprint.new))) }
    ensures kept { Keeps footprint.old footprint.new }
{
    Ok(is_target_by_some(alloc, graph, words, shape, declared, node, footprint)?)
}
