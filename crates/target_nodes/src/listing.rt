//! The targets of declarations.
ghost use Rattle.std.specs.Prelude.{◌≡◌, ◌↔◌, ◌<◌, IfOk, map};
ghost use Rattle.std.specs.List.{Contains};
ghost use Rattle.rdf_model.specs.Numbers.{graph_of, term_at};
ghost use Rattle.path_eval.specs.Instances.{AreInstances, Classed};
ghost use Rattle.target_nodes.specs.Declarations.{IsTargetBy, IsTargetBySome};
ghost use Rattle.target_nodes.specs.TargetNumbers.{AreMembers, AreDeclaredTargets, ByOne, Declared};

use collections::sorted_once;
use path_eval::{ClassWords, class_instances};
use rdf_model::{Footprint, Triples};
use shape_ast::Target;
use std::alloc::{AllocError, Global};

// The first number of each pair.
fn firsts(alloc: Global, pairs: &[(u32, u32)]) -> Result<Vec<u32>, AllocError>
    ensures { IfOk result (λ numbers. numbers.items ≡ map (λ e. e.0) pairs.now) }
{
    pairs.iter().map(|pair| pair.0).collect(alloc)
}

// The second number of each pair.
fn seconds(alloc: Global, pairs: &[(u32, u32)]) -> Result<Vec<u32>, AllocError>
    ensures { IfOk result (λ numbers. numbers.items ≡ map (λ e. e.1) pairs.now) }
{
    pairs.iter().map(|pair| pair.1).collect(alloc)
}

/// The subjects of the triples with a predicate, in any order, each once or more.
pub fn subjects_of<R: Triples>(
    alloc: Global,
    graph: &R,
    predicate: u32,
) -> Result<Vec<u32>, AllocError>
    ensures { IfOk result (λ found. (n : _) → Contains found.items n ↔ ((o : _) × Contains (R.triples graph.now) (record { subject = n; predicate = predicate; object = o }))) }
{
    let pairs = graph.with_predicate(alloc, predicate)?;
    Ok(firsts(alloc, &pairs)?)
}

// The objects of the triples with a predicate.
fn objects_of<R: Triples>(alloc: Global, graph: &R, predicate: u32) -> Result<Vec<u32>, AllocError>
    ensures { IfOk result (λ found. (n : _) → Contains found.items n ↔ ((x : _) × Contains (R.triples graph.now) (record { subject = x; predicate = predicate; object = n }))) }
{
    let pairs = graph.with_predicate(alloc, predicate)?;
    Ok(seconds(alloc, &pairs)?)
}

// The instances of a class. How they were found is not kept.
fn instances_of<R: Triples>(
    alloc: Global,
    graph: &R,
    words: ClassWords,
    class: u32,
) -> Result<Vec<u32>, AllocError>
    ensures { IfOk result (λ found. Classed (R.triples graph.now) words class (λ terms. AreInstances terms (R.triples graph.now) class found.items)) }
{
    let mut looks = Footprint::new(alloc);
    Ok(class_instances(alloc, graph, words, class, &mut looks)?)
}

// The targets that one declaration gives.
fn targets_by<R: Triples>(
    alloc: Global,
    graph: &R,
    words: ClassWords,
    shape: u32,
    target: &Target<u32>,
) -> Result<Vec<u32>, AllocError>
    ensures { IfOk result (λ found. ByOne (R.triples graph.now) words target.now shape (λ terms. AreMembers terms (IsTargetBy terms (graph_of terms (R.triples graph.now)) (term_at terms shape) target.now) found.items)) }
{
    match target {
        Target::Node(node) => {
            let mut found = Vec::new(alloc);
            found.push(*node)?;
            Ok(found)
        }
        Target::Class(class) => Ok(instances_of(alloc, graph, words, *class)?),
        Target::ImplicitClass => Ok(instances_of(alloc, graph, words, shape)?),
        Target::SubjectsOf(predicate) => Ok(subjects_of(alloc, graph, *predicate)?),
        Target::ObjectsOf(predicate) => Ok(objects_of(alloc, graph, *predicate)?),
    }
}

// The targets that the declarations give.
fn all_targets<R: Triples>(
    alloc: Global,
    graph: &R,
    words: ClassWords,
    shape: u32,
    declared: &[Target<u32>],
) -> Result<Vec<u32>, AllocError>
    ensures { IfOk result (λ found. Declared (R.triples graph.now) words declared.now shape (λ terms. AreMembers terms (IsTargetBySome terms (graph_of terms (R.triples graph.now)) (term_at terms shape) declared.now) found.items)) }
{
    let mut found = Vec::new(alloc);
    for target in declared {
        let mut more = targets_by(alloc, graph, words, shape, target)?;
        found.append(&mut more)?;
    }
    Ok(found)
}

/// The targets of a shape with these declarations, each once, ascending by number (SHACL section
/// 2.1.3). `shape` is the number of the shape's own node.
pub(crate) fn declared_targets<R: Triples>(
    alloc: Global,
    graph: &R,
    words: ClassWords,
    shape: u32,
    declared: &[Target<u32>],
) -> Result<Vec<u32>, AllocError>
    ensures { IfOk result (λ found. Declared (R.triples graph.now) words declared.now shape (λ terms. AreDeclaredTargets terms (R.triples graph.now) declared.now shape found.items)) }
{
    let found = all_targets(alloc, graph, words, shape, declared)?;
    Ok(sorted_once(found)?)
}
