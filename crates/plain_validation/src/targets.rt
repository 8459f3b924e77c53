// The results of all shapes at their targets.
ghost use Rattle.std.specs.Prelude.{◌≡◌, ◌∷◌, [], IfOk, length};
ghost use Rattle.shape_model.specs.Validation.{At, IsResult};
ghost use Rattle.plain_values.specs.Built.{ArePatternsOf};
ghost use Rattle.plain_terms.specs.Finds.{Finds, WithSome};
ghost use Rattle.plain_validation.specs.Targets.{ClassRow, DeclaredResult, DeclaredRow, Declares, ImplicitResult, IsValue};

use crate::evaluation::rows_at;
use collections::Sequence;
use plain_terms::{alone, class_word, instances_of, is_word, objects_of_each, subjects};
use plain_values::BuiltPattern;
use rdf_model::{Term, Triple};
use shape_model::ResultRow;
use std::alloc::{AllocError, Global};

// The results of a shape at a focus node.
fn rows_of_shape(
    alloc: Global,
    graph: &[Triple],
    shapes: &[Triple],
    patterns: &[BuiltPattern],
    shape: &Term,
    focus: &Term,
) -> Result<Vec<ResultRow>, AllocError>
    requires { ArePatternsOf shapes.now patterns.now }
    ensures { IfOk result (λ rows. Finds (At graph.now shapes.now shape.now focus.now) rows.items) }
{
    let rows = rows_at(
        alloc,
        graph,
        shapes,
        patterns,
        shapes.len() + 1,
        shape,
        focus,
    )?;
    Ok(rows)
}

// The results of a shape at some focus nodes.
fn rows_at_all(
    alloc: Global,
    graph: &[Triple],
    shapes: &[Triple],
    patterns: &[BuiltPattern],
    shape: &Term,
    targets: &[Term],
) -> Result<Vec<ResultRow>, AllocError>
    requires { ArePatternsOf shapes.now patterns.now }
    ensures { IfOk result (λ rows. Finds (WithSome targets.now (At graph.now shapes.now shape.now)) rows.items) }
{
    let mut rows = Vec::new(alloc);
    for target in targets {
        let mut more = rows_of_shape(alloc, graph, shapes, patterns, shape, target)?;
        rows.append(&mut more)?;
    }
    Ok(rows)
}

// The nodes that are some node's value of the predicate.
fn values_of(
    alloc: Global,
    graph: &[Triple],
    predicate: &Term,
) -> Result<Sequence<Term>, AllocError>
    ensures { IfOk result (λ found. Finds (IsValue graph.now predicate.now) found) }
{
    let nodes = subjects(alloc, graph, predicate)?;
    let found = objects_of_each(alloc, graph, nodes.as_slice(), predicate)?;
    Ok(Sequence::from_vec(found))
}

// The targets that a triple of the shapes graph declares (SHACL section 2.1.3).
fn declared_targets(
    alloc: Global,
    graph: &[Triple],
    triple: &Triple,
) -> Result<Sequence<Term>, AllocError>
    ensures { IfOk result (λ targets. Finds (Declares graph.now triple.now) targets) }
{
    if is_word(alloc, &triple.predicate, "targetNode")? {
        return Ok(alone(alloc, &triple.object)?);
    }
    if is_word(alloc, &triple.predicate, "targetClass")? {
        return Ok(instances_of(alloc, graph, &triple.object)?);
    }
    if is_word(alloc, &triple.predicate, "targetSubjectsOf")? {
        return Ok(subjects(alloc, graph, &triple.object)?);
    }
    if is_word(alloc, &triple.predicate, "targetObjectsOf")? {
        return Ok(values_of(alloc, graph, &triple.object)?);
    }
    Ok(Sequence::new(alloc))
}

// The results at the targets that a triple of the shapes graph declares.
fn rows_of_triple(
    alloc: Global,
    graph: &[Triple],
    shapes: &[Triple],
    patterns: &[BuiltPattern],
    triple: &Triple,
) -> Result<Vec<ResultRow>, AllocError>
    requires { ArePatternsOf shapes.now patterns.now }
    ensures { IfOk result (λ rows. Finds (DeclaredRow graph.now shapes.now triple.now) rows.items) }
{
    let targets = declared_targets(alloc, graph, triple)?;
    let rows = rows_at_all(
        alloc,
        graph,
        shapes,
        patterns,
        &triple.subject,
        targets.as_slice(),
    )?;
    Ok(rows)
}

// The results at all targets that triples of the shapes graph declare.
fn declared_rows(
    alloc: Global,
    graph: &[Triple],
    shapes: &[Triple],
    patterns: &[BuiltPattern],
) -> Result<Vec<ResultRow>, AllocError>
    requires { ArePatternsOf shapes.now patterns.now }
    ensures { IfOk result (λ rows. Finds (DeclaredResult graph.now shapes.now) rows.items) }
{
    let mut rows = Vec::new(alloc);
    for triple in shapes {
        let mut more = rows_of_triple(alloc, graph, shapes, patterns, triple)?;
        rows.append(&mut more)?;
    }
    Ok(rows)
}

// The results of a class at its instances.
fn rows_of_class(
    alloc: Global,
    graph: &[Triple],
    shapes: &[Triple],
    patterns: &[BuiltPattern],
    class: &Term,
) -> Result<Vec<ResultRow>, AllocError>
    requires { ArePatternsOf shapes.now patterns.now }
    ensures { IfOk result (λ rows. Finds (ClassRow graph.now shapes.now class.now) rows.items) }
{
    let targets = instances_of(alloc, graph, class)?;
    let rows = rows_at_all(alloc, graph, shapes, patterns, class, targets.as_slice())?;
    Ok(rows)
}

// Those of some classes.
fn rows_of_classes(
    alloc: Global,
    graph: &[Triple],
    shapes: &[Triple],
    patterns: &[BuiltPattern],
    classes: &[Term],
) -> Result<Vec<ResultRow>, AllocError>
    requires { ArePatternsOf shapes.now patterns.now }
    ensures { IfOk result (λ rows. Finds (WithSome classes.now (ClassRow graph.now shapes.now)) rows.items) }
{
    let mut rows = Vec::new(alloc);
    for class in classes {
        let mut more = rows_of_class(alloc, graph, shapes, patterns, class)?;
        rows.append(&mut more)?;
    }
    Ok(rows)
}

// The results of all classes of the shapes graph (SHACL section 2.1.3.3). Those that are no shapes have none.
fn class_rows(
    alloc: Global,
    graph: &[Triple],
    shapes: &[Triple],
    patterns: &[BuiltPattern],
) -> Result<Vec<ResultRow>, AllocError>
    requires { ArePatternsOf shapes.now patterns.now }
    ensures { IfOk result (λ rows. Finds (ImplicitResult graph.now shapes.now) rows.items) }
{
    let kind = class_word(alloc)?;
    let classes = instances_of(alloc, shapes, &kind)?;
    let rows = rows_of_classes(alloc, graph, shapes, patterns, classes.as_slice())?;
    Ok(rows)
}

/// The results of all shapes at their targets, maybe several times.
pub(crate) fn all_rows(
    alloc: Global,
    graph: &[Triple],
    shapes: &[Triple],
    patterns: &[BuiltPattern],
) -> Result<Vec<ResultRow>, AllocError>
    requires { ArePatternsOf shapes.now patterns.now }
    ensures { IfOk result (λ rows. Finds (IsResult graph.now shapes.now) rows.items) }
{
    let mut rows = declared_rows(alloc, graph, shapes, patterns)?;
    let mut more = class_rows(alloc, graph, shapes, patterns)?;
    rows.append(&mut more)?;
    Ok(rows)
}
