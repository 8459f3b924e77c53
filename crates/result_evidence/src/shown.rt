//! Looks with the triples that match them.
ghost use Rattle.std.specs.Prelude.{◌≡◌, ◌<◌, IfOk, length};
ghost use Rattle.std.specs.List.{All, Contains};
ghost use Rattle.rdf_model.specs.Numbers.{AreNumbered, IsNumbering, graph_of, term_at};
ghost use Rattle.path_eval.specs.Naming.{IsBoundLook, look_of};
ghost use Rattle.evidence_blocks.specs.Blocks.{HasTriples, looks_in};
ghost use Rattle.result_evidence.specs.Standing.{HasNumbers};

use crate::triples::triples_under;
use collections::{Sequence, both};
use evidence_blocks::{ListedLook, ShownLook};
use rdf_model::{Look, Names, Term, Triples};
use std::alloc::{AllocError, Global};

// The number of a term that has one.
fn number_of<N: Names>(names: &N, term: &Term) -> u32
    requires { Contains (N.terms names.now) term.now }
    ensures bound { result < length (N.terms names.now) }
    ensures term { term_at (N.terms names.now) result ≡ term.now }
{
    names.id(term).unwrap()
}

// The look by numbers.
fn numbered_look<N: Names>(names: &N, look: &Look<Term>) -> Look<u32>
    requires { HasNumbers (N.terms names.now) look.now }
    ensures bound { IsBoundLook (length (N.terms names.now)) result }
    ensures look { look_of (N.terms names.now) result ≡ look.now }
{
    match look {
        Look::Out(subject, predicate) => {
            Look::Out(number_of(names, subject), number_of(names, predicate))
        }
        Look::In(predicate, object) => {
            Look::In(number_of(names, predicate), number_of(names, object))
        }
        Look::OutAny(subject) => Look::OutAny(number_of(names, subject)),
    }
}

// A copy of the look.
fn copied_look(look: &Look<Term>) -> Result<ListedLook, AllocError>
    ensures { IfOk result (λ copy. copy ≡ look.now) }
{
    match look {
        Look::Out(subject, predicate) => {
            let (x, p) = both(subject.clone(), predicate.clone())?;
            Ok(ListedLook {
                look: Look::Out(x, p),
            })
        }
        Look::In(predicate, object) => {
            let (p, x) = both(predicate.clone(), object.clone())?;
            Ok(ListedLook {
                look: Look::In(p, x),
            })
        }
        Look::OutAny(subject) => Ok(ListedLook {
            look: Look::OutAny(subject.clone()?),
        }),
    }
}

// A look with its triples.
fn shown_look<R: Triples, N: Names>(
    alloc: Global,
    graph: &R,
    names: &N,
    listed: &ListedLook,
) -> Result<ShownLook, AllocError>
    requires numbering { IsNumbering (N.terms names.now) }
    requires graph { AreNumbered (N.terms names.now) (R.triples graph.now) }
    requires look { HasNumbers (N.terms names.now) listed.now }
    ensures look { IfOk result (λ shown. shown.look ≡ listed.now) }
    ensures triples { IfOk result (HasTriples (graph_of (N.terms names.now) (R.triples graph.now))) }
{
    let look = numbered_look(names, &listed.look);
    let triples = triples_under(alloc, graph, names, &look)?;
    let look = copied_look(&listed.look)?;
    Ok(ShownLook { look, triples })
}

/// The looks, each with its triples.
pub(crate) fn shown_looks<R: Triples, N: Names>(
    alloc: Global,
    graph: &R,
    names: &N,
    looks: &[ListedLook],
) -> Result<Sequence<ShownLook>, AllocError>
    requires numbering { IsNumbering (N.terms names.now) }
    requires graph { AreNumbered (N.terms names.now) (R.triples graph.now) }
    requires looks { All (HasNumbers (N.terms names.now)) looks.now }
    ensures looks { IfOk result (λ shown. looks_in shown ≡ looks.now) }
    ensures triples { IfOk result (All (HasTriples (graph_of (N.terms names.now) (R.triples graph.now)))) }
{
    let mut shown = Sequence::new(alloc);
    for look in looks {
        shown.push(shown_look(alloc, graph, names, look)?)?;
    }
    Ok(shown)
}
