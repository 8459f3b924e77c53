//! Values, subjects and predicates by going through all triples.
ghost use Rattle.std.specs.Prelude.{◌≡◌, IfOk};
ghost use Rattle.std.specs.List.{filter_map};
ghost use Rattle.rdf_model.specs.declared.term.Term.{Term as TermData};
ghost use Rattle.shape_model.specs.Triples.{Has};
ghost use Rattle.shape_model.specs.Vocabulary.{sh};
ghost use Rattle.plain_terms.specs.Finds.{Finds, HasSome, WithSome, object_in, subject_in, subject_with};

use crate::words::word;
use collections::Sequence;
use rdf_model::{Term, Triple};
use std::alloc::{AllocError, Global};

// The objects of the triples with a subject and a predicate.
#[tactic(auto, using(std::proofs::lemmas::Grind::common_steps, rdf_model::proofs::Finding::filter_map_append))]
fn objects_found(
    alloc: Global,
    graph: &[Triple],
    subject: &Term,
    predicate: &Term,
) -> Result<Sequence<Term>, AllocError>
    ensures { IfOk result (λ found. found ≡ filter_map (object_in subject.now predicate.now) graph.now) }
{
    let mut found = Sequence::new(alloc);
    for triple in graph {
        if triple.subject == *subject && triple.predicate == *predicate {
            found.push(triple.object.clone()?)?;
        }
    }
    Ok(found)
}

// The subjects of the triples with a predicate.
#[tactic(auto, using(std::proofs::lemmas::Grind::common_steps, rdf_model::proofs::Finding::filter_map_append))]
fn subjects_found(
    alloc: Global,
    graph: &[Triple],
    predicate: &Term,
) -> Result<Sequence<Term>, AllocError>
    ensures { IfOk result (λ found. found ≡ filter_map (subject_in predicate.now) graph.now) }
{
    let mut found = Sequence::new(alloc);
    for triple in graph {
        if triple.predicate == *predicate {
            found.push(triple.subject.clone()?)?;
        }
    }
    Ok(found)
}

// The subjects of the triples with a predicate and an object.
#[tactic(auto, using(std::proofs::lemmas::Grind::common_steps, rdf_model::proofs::Finding::filter_map_append))]
fn owners_found(
    alloc: Global,
    graph: &[Triple],
    predicate: &Term,
    object: &Term,
) -> Result<Sequence<Term>, AllocError>
    ensures { IfOk result (λ found. found ≡ filter_map (subject_with predicate.now object.now) graph.now) }
{
    let mut found = Sequence::new(alloc);
    for triple in graph {
        if triple.predicate == *predicate && triple.object == *object {
            found.push(triple.subject.clone()?)?;
        }
    }
    Ok(found)
}

/// The values of a predicate at a node, maybe several times.
pub fn objects(
    alloc: Global,
    graph: &[Triple],
    subject: &Term,
    predicate: &Term,
) -> Result<Sequence<Term>, AllocError>
    ensures { IfOk result (λ found. Finds (Has graph.now subject.now predicate.now) found) }
{
    let found = objects_found(alloc, graph, subject, predicate)?;
    Ok(found)
}

/// The nodes that have some value of a predicate, maybe several times.
pub fn subjects(
    alloc: Global,
    graph: &[Triple],
    predicate: &Term,
) -> Result<Sequence<Term>, AllocError>
    ensures { IfOk result (λ found. Finds (HasSome graph.now predicate.now) found) }
{
    let found = subjects_found(alloc, graph, predicate)?;
    Ok(found)
}

/// The nodes that have this value of a predicate, maybe several times.
pub fn subjects_with(
    alloc: Global,
    graph: &[Triple],
    predicate: &Term,
    object: &Term,
) -> Result<Sequence<Term>, AllocError>
    ensures { IfOk result (λ found. Finds (λ (node : TermData). Has graph.now node predicate.now object.now) found) }
{
    let found = owners_found(alloc, graph, predicate, object)?;
    Ok(found)
}

/// The values of a property of SHACL at a node of the shapes graph, maybe several times.
pub fn parameters(
    alloc: Global,
    shapes: &[Triple],
    shape: &Term,
    name: &str,
) -> Result<Sequence<Term>, AllocError>
    ensures { IfOk result (λ found. Finds (Has shapes.now shape.now (sh name.now)) found) }
{
    let property = word(alloc, name)?;
    let found = objects(alloc, shapes, shape, &property)?;
    Ok(found)
}

/// The values of a predicate at each of the nodes, maybe several times.
pub fn objects_of_each(
    alloc: Global,
    graph: &[Triple],
    nodes: &[Term],
    predicate: &Term,
) -> Result<Vec<Term>, AllocError>
    ensures { IfOk result (λ found. Finds (WithSome nodes.now (λ (node object : TermData). Has graph.now node predicate.now object)) found.items) }
{
    let mut found = Vec::new(alloc);
    for node in nodes {
        let mut more = objects(alloc, graph, node, predicate)?.into_vec();
        found.append(&mut more)?;
    }
    Ok(found)
}

/// The values of a property of SHACL at each of the nodes.
pub fn parameters_of_each(
    alloc: Global,
    shapes: &[Triple],
    nodes: &[Term],
    name: &str,
) -> Result<Vec<Term>, AllocError>
    ensures { IfOk result (λ found. Finds (WithSome nodes.now (λ (node value : TermData). Has shapes.now node (sh name.now) value)) found.items) }
{
    let property = word(alloc, name)?;
    let found = objects_of_each(alloc, shapes, nodes, &property)?;
    Ok(found)
}

/// The nodes that have this value of a property of SHACL.
pub fn owners(
    alloc: Global,
    shapes: &[Triple],
    name: &str,
    value: &Term,
) -> Result<Sequence<Term>, AllocError>
    ensures { IfOk result (λ found. Finds (λ (node : TermData). Has shapes.now node (sh name.now) value.now) found) }
{
    let property = word(alloc, name)?;
    let found = subjects_with(alloc, shapes, &property, value)?;
    Ok(found)
}
