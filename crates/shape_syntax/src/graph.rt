//! An ascending graph, with what finds the triples of a node at once.
ghost use Rattle.std.specs.Prelude.{◌≡◌, IfOk, length};

use crate::terms::is_same;
use rdf_model::{Term, Triple};
use std::alloc::{AllocError, Global};
use std::marker::Model;

// A slot without a place.
const NO_PLACE: usize = usize::MAX;

// So many slots in a row are asked for a subject. One that has found no slot among them is searched for.
const TRIES: usize = 8;

// So many bytes of an IRI are hashed: its last ones tell most.
const HASHED: usize = 16;

/// A graph with a table of its subjects. Contracts see the triples. What the table tells is tested where it is used: it
/// saves time and no more.
pub struct IndexedGraph<'a> {
    triples: &'a [Triple],
    // The place of the first triple of each subject, at a slot near the hash of the subject.
    places: Vec<usize>,
}

impl<'a> Drop for IndexedGraph<'a> {
    fn drop(self) {
        let IndexedGraph {
            triples: _,
            places: _,
        } = self;
    }
}

impl<'a> Model for IndexedGraph<'a> {
    ghost use Rattle.std.specs.Prelude.{List};
    ghost use Rattle.rdf_model.specs.declared.triple.Triple.{Triple as TripleData};

    ghost Value = { List TripleData };

    ghost view = { λ g. g.triples.now };
}

fn hash_of_bytes(bytes: &[u8]) -> usize {
    let mut hash = bytes.len();
    for byte in bytes {
        hash = (hash ^ (*byte as usize)).wrapping_mul(0x0100_0193);
    }
    hash
}

// The hash of an IRI or a blank node.
fn hash_of(node: &Term) -> usize {
    match node {
        Term::Blank { session, number } => {
            (*number as usize).wrapping_mul(0x9e37_79b1) ^ (*session as usize)
        }
        Term::Iri(iri) => {
            let bytes = iri.as_str().as_bytes();
            let start = bytes.len().saturating_sub(HASHED);
            hash_of_bytes(&bytes[start..])
        }
        Term::Literal { .. } => 0,
    }
}

// The slot that is asked at this try.
fn slot_at(hash: usize, attempt: usize, count: usize) -> usize {
    if count == 0 {
        return 0;
    }
    hash.wrapping_add(attempt) % count
}

// Puts the place at the first free slot from the hash on, if one is near.
fn put_place(places: &mut [usize], hash: usize, place: usize) {
    for attempt in 0..TRIES {
        let slot = slot_at(hash, attempt, places.len());
        let Some(held) = places.get_mut(slot) else {
            return;
        };
        if *held == NO_PLACE {
            *held = place;
            return;
        }
    }
}

// The places of the first triples of all subjects.
fn places_of(alloc: Global, triples: &[Triple]) -> Result<Vec<usize>, AllocError> {
    let mut places = vec![in alloc; NO_PLACE; triples.len()]?;
    let mut last: Option<&Term> = None;
    for (place, triple) in triples.iter().enumerate() {
        if !is_last(last, &triple.subject) {
            put_place(places.as_mut_slice(), hash_of(&triple.subject), place);
            last = Some(&triple.subject);
        }
    }
    Ok(places)
}

fn is_last(last: Option<&Term>, node: &Term) -> bool {
    match last {
        Some(other) => is_same(other, node),
        None => false,
    }
}

// Whether the triple at the place, if there is one, has the node as its subject.
fn has_subject(triples: &[Triple], place: usize, node: &Term) -> bool {
    match triples.get(place) {
        Some(triple) => is_same(&triple.subject, node),
        None => false,
    }
}

impl<'a> IndexedGraph<'a> {
    /// The graph of the triples.
    pub fn new(alloc: Global, triples: &'a [Triple]) -> Result<IndexedGraph<'a>, AllocError>
        ensures { IfOk result (λ graph. graph ≡ triples.now) }
    {
        let places = places_of(alloc, triples)?;
        Ok(IndexedGraph { triples, places })
    }

    /// The triples of the graph.
    pub fn as_slice(&self) -> &'a [Triple]
        ensures { result.now ≡ self.now }
    {
        self.triples
    }

    /// How many triples the graph has.
    pub fn len(&self) -> usize
        ensures { result ≡ length self.now }
    {
        self.triples.len()
    }

    /// The place of the first triple of the node, where the table has it. That isn't ensured.
    pub(crate) fn guess(&self, node: &Term) -> usize {
        let hash = hash_of(node);
        for attempt in 0..TRIES {
            let slot = slot_at(hash, attempt, self.places.len());
            let Some(place) = self.places.get(slot) else {
                return NO_PLACE;
            };
            if *place == NO_PLACE || has_subject(self.triples, *place, node) {
                return *place;
            }
        }
        NO_PLACE
    }
}
