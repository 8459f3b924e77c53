//! Instances of classes by going through all triples.
ghost use Rattle.std.specs.Prelude.{◌≡◌, ◌↔◌, [], ◌∷◌, IfOk, IsTrue, MatchOption};
ghost use Rattle.std.specs.List.{Contains};
ghost use Rattle.rdf_model.specs.declared.term.Term.{Term as TermData};
ghost use Rattle.shape_model.specs.Instances.{Instance};
ghost use Rattle.shape_model.specs.Triples.{Has};
ghost use Rattle.plain_terms.specs.Finds.{Finds, IsBelow, LeadsBelow, WithSome};
ghost use Rattle.shape_model.specs.Vocabulary.{rdf_type};

use crate::graph::subjects_with;
use crate::words::{is_same, super_word, type_word};
use collections::Sequence;
use rdf_model::{Term, Triple};
use std::alloc::{AllocError, Global};

/// Whether the term is one of the list.
pub fn is_among(terms: &[Term], term: &Term) -> bool
    ensures { IsTrue result ↔ Contains terms.now term.now }
{
    for other in terms {
        if is_same(other, term) {
            return true;
        }
    }
    false
}

/// A list of one term.
pub fn alone(alloc: Global, term: &Term) -> Result<Sequence<Term>, AllocError>
    ensures { IfOk result (λ terms. terms ≡ term.now ∷ []) }
{
    let mut terms = Sequence::new(alloc);
    terms.push(term.clone()?)?;
    Ok(terms)
}

// Whether the triple has one of the nodes as value of the predicate, at a node that isn't among them.
fn leads_below(triple: &Triple, predicate: &Term, nodes: &[Term]) -> bool
    ensures { IsTrue result ↔ LeadsBelow predicate.now nodes.now triple.now }
{
    let along = is_same(&triple.predicate, predicate);
    let above = is_among(nodes, &triple.object);
    let known = is_among(nodes, &triple.subject);
    along && above && !known
}

// A node that has one of the nodes as value of the predicate, and isn't among them.
fn next_below<'a>(graph: &'a [Triple], predicate: &Term, nodes: &[Term]) -> Option<&'a Term>
    ensures { MatchOption result
        ((t : _) → Contains graph.now t → LeadsBelow predicate.now nodes.now t → ⊥)
        (λ node. (t : _) × Contains graph.now t × LeadsBelow predicate.now nodes.now t × (t.subject ≡ node.now)) }
{
    for triple in graph {
        if leads_below(triple, predicate, nodes) {
            return Some(&triple.subject);
        }
    }
    None
}

// The nodes from which a chain of the predicate leads to the node, which is one of them.
fn all_below(
    alloc: Global,
    graph: &[Triple],
    predicate: &Term,
    node: &Term,
) -> Result<Sequence<Term>, AllocError>
    ensures { IfOk result (λ found. Finds (IsBelow graph.now predicate.now node.now) found) }
{
    let mut found = alone(alloc, node)?;
    while let Some(below) = next_below(graph, predicate, found.as_slice()) {
        found.push(below.clone()?)?;
    }
    Ok(found)
}

// The nodes that have one of the values of the predicate.
fn subjects_with_any(
    alloc: Global,
    graph: &[Triple],
    predicate: &Term,
    objects: &[Term],
) -> Result<Vec<Term>, AllocError>
    ensures { IfOk result (λ found. Finds (WithSome objects.now (λ object (node : TermData). Has graph.now node predicate.now object)) found.items) }
{
    let mut found = Vec::new(alloc);
    for object in objects {
        let mut more = subjects_with(alloc, graph, predicate, object)?.into_vec();
        found.append(&mut more)?;
    }
    Ok(found)
}

/// The instances of the class (SHACL section 1.1, "SHACL Types, SHACL Instances"), maybe several times.
pub fn instances_of(
    alloc: Global,
    graph: &[Triple],
    class: &Term,
) -> Result<Sequence<Term>, AllocError>
    ensures { IfOk result (λ found. Finds (λ (node : TermData). Instance graph.now node class.now) found) }
{
    let above = super_word(alloc)?;
    let typed = type_word(alloc)?;
    let classes = all_below(alloc, graph, &above, class)?;
    let found = subjects_with_any(alloc, graph, &typed, classes.as_slice())?;
    Ok(Sequence::from_vec(found))
}
