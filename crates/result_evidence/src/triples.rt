//! The triples of a graph that match a look, by their terms.
ghost use Rattle.std.specs.Prelude.{◌≡◌, ◌↔◌, ◌<◌, IfOk, length, map};
ghost use Rattle.std.specs.List.{All, Contains};
ghost use Rattle.collections.specs.Listings.{IsListing};
ghost use Rattle.rdf_model.specs.Numbers.{AreNumbered, IsNumbering, graph_of, triple_at};
ghost use Rattle.rdf_model.specs.Terms.{triple_cmp};
ghost use Rattle.shape_model.specs.Looks.{Matches};
ghost use Rattle.path_eval.specs.Naming.{IsBoundLook, look_of};
ghost use Rattle.result_evidence.specs.Standing.{CollectsMatches, IsNumbered, with_edge, with_object, with_subject};

use collections::{Sequence, both, sorted_once};
use component_rows::named;
use rdf_model::{Ids, Look, Names, Triple, Triples};
use std::alloc::{AllocError, Global};

fn with_objects(
    alloc: Global,
    subject: u32,
    predicate: u32,
    objects: &[u32],
) -> Result<Vec<Ids>, AllocError>
    ensures { IfOk result (λ found. found.items ≡ map (with_object subject predicate) objects.now) }
{
    let mut found = Vec::with_capacity(alloc, objects.len())?;
    for object in objects {
        found.push(Ids {
            subject,
            predicate,
            object: *object,
        })?;
    }
    Ok(found)
}

fn with_subjects(
    alloc: Global,
    predicate: u32,
    object: u32,
    subjects: &[u32],
) -> Result<Vec<Ids>, AllocError>
    ensures { IfOk result (λ found. found.items ≡ map (with_subject predicate object) subjects.now) }
{
    let mut found = Vec::with_capacity(alloc, subjects.len())?;
    for subject in subjects {
        found.push(Ids {
            subject: *subject,
            predicate,
            object,
        })?;
    }
    Ok(found)
}

fn with_edges(alloc: Global, subject: u32, edges: &[(u32, u32)]) -> Result<Vec<Ids>, AllocError>
    ensures { IfOk result (λ found. found.items ≡ map (with_edge subject) edges.now) }
{
    let mut found = Vec::with_capacity(alloc, edges.len())?;
    for edge in edges {
        let (predicate, object) = *edge;
        found.push(Ids {
            subject,
            predicate,
            object,
        })?;
    }
    Ok(found)
}

// The triples that the look asks for, by number.
fn ids_under<R: Triples>(alloc: Global, graph: &R, look: &Look<u32>) -> Result<Vec<Ids>, AllocError>
    ensures { IfOk result (λ found. CollectsMatches (R.triples graph.now) look.now found.items) }
{
    match look {
        Look::Out(subject, predicate) => {
            let objects = graph.find(alloc, look)?;
            with_objects(alloc, *subject, *predicate, objects.as_slice())
        }
        Look::In(predicate, object) => {
            let subjects = graph.find(alloc, look)?;
            with_subjects(alloc, *predicate, *object, subjects.as_slice())
        }
        Look::OutAny(subject) => {
            let edges = graph.edges(alloc, *subject)?;
            with_edges(alloc, *subject, edges.as_slice())
        }
    }
}

// A triple by its terms.
fn named_triple<N: Names>(names: &N, ids: Ids) -> Result<Triple, AllocError>
    requires { IsNumbered (N.terms names.now) ids }
    ensures { IfOk result (λ triple. triple ≡ triple_at (N.terms names.now) ids) }
{
    let (subject, predicate) = both(
        named(names, ids.subject).clone(),
        named(names, ids.predicate).clone(),
    )?;
    let object = named(names, ids.object).clone()?;
    Ok(Triple {
        subject,
        predicate,
        object,
    })
}

// Triples by their terms.
fn triples_at<N: Names>(alloc: Global, names: &N, ids: &[Ids]) -> Result<Vec<Triple>, AllocError>
    requires { All (IsNumbered (N.terms names.now)) ids.now }
    ensures { IfOk result (λ triples. triples.items ≡ map (triple_at (N.terms names.now)) ids.now) }
{
    let mut triples = Vec::with_capacity(alloc, ids.len())?;
    for each in ids {
        triples.push(named_triple(names, *each)?)?;
    }
    Ok(triples)
}

/// The triples of the graph that the look asks for, in the order of triples.
pub fn triples_under<R: Triples, N: Names>(
    alloc: Global,
    graph: &R,
    names: &N,
    look: &Look<u32>,
) -> Result<Sequence<Triple>, AllocError>
    requires numbering { IsNumbering (N.terms names.now) }
    requires graph { AreNumbered (N.terms names.now) (R.triples graph.now) }
    requires look { IsBoundLook (length (N.terms names.now)) look.now }
    ensures { IfOk result (IsListing triple_cmp (λ t. Contains (graph_of (N.terms names.now) (R.triples graph.now)) t × Matches (look_of (N.terms names.now) look.now) t)) }
{
    let ids = ids_under(alloc, graph, look)?;
    let triples = triples_at(alloc, names, ids.as_slice())?;
    let sorted = sorted_once(triples)?;
    Ok(Sequence::from_vec(sorted))
}
