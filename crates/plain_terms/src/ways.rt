// How a blank node stands for a path (SHACL section 2.3.1).
ghost use Rattle.std.specs.Prelude.{◌≡◌, ◌↔◌, IfOk, IsTrue, MatchOption, codes};
ghost use Rattle.rdf_model.specs.declared.term.Term.{Term as TermData};
ghost use Rattle.shape_model.specs.Triples.{Has};
ghost use Rattle.shape_model.specs.Vocabulary.{sh};
ghost use Rattle.shape_syntax.specs.PathSteps.{IsAlone};
ghost use Rattle.plain_terms.specs.declared.ways.PathModifier.{PathModifier as ModifierData};
ghost use Rattle.plain_terms.specs.Relations.{Means};
ghost use Rattle.plain_terms.specs.Ways.{JoinsBy, JoinsModified, modifier_name};

use crate::is_same;
use crate::joins::{any_of, any_times, in_turn, once_or_more, or_none, reversed_relation};
use crate::relation::Relation;
use rdf_model::{Term, Triple};
use shape_syntax::terms::is_named;
use std::alloc::{AllocError, Global};
use vocabulary::{
    SH_ALTERNATIVE_PATH, SH_INVERSE_PATH, SH_ONE_OR_MORE_PATH, SH_ZERO_OR_MORE_PATH,
    SH_ZERO_OR_ONE_PATH,
};

/// What a property of SHACL makes of the path that is its value.
#[derive(Debug, Clone, Copy)]
pub(crate) enum PathModifier {
    Inverse,
    ZeroOrMore,
    OneOrMore,
    ZeroOrOne,
}

/// How the paths of a list are one.
#[derive(Debug, Clone, Copy)]
pub(crate) enum Join {
    Sequence,
    Alternative,
}

/// What the predicate makes of a path, if it is one of the four.
#[tactic(auto, unfolding(shape_model::specs::Vocabulary::sh))]
pub(crate) fn modifier_of(predicate: &Term) -> Option<PathModifier>
    ensures { MatchOption result ((modifier : ModifierData) → predicate.now ≡ sh (modifier_name modifier) → ⊥)
        (λ modifier. predicate.now ≡ sh (modifier_name modifier)) }
{
    if is_named(predicate, SH_INVERSE_PATH) {
        return Some(PathModifier::Inverse);
    }
    if is_named(predicate, SH_ZERO_OR_MORE_PATH) {
        return Some(PathModifier::ZeroOrMore);
    }
    if is_named(predicate, SH_ONE_OR_MORE_PATH) {
        return Some(PathModifier::OneOrMore);
    }
    if is_named(predicate, SH_ZERO_OR_ONE_PATH) {
        return Some(PathModifier::ZeroOrOne);
    }
    None
}

/// Whether the predicate is sh:alternativePath.
#[tactic(auto, unfolding(shape_model::specs::Vocabulary::sh))]
pub(crate) fn is_alternative(predicate: &Term) -> bool
    ensures { IsTrue result ↔ (predicate.now ≡ sh (codes "alternativePath")) }
{
    is_named(predicate, SH_ALTERNATIVE_PATH)
}

// Whether the triple says the same of its subject as another one, if they have one subject.
fn says_no_more(triple: &Triple, first: &Triple) -> bool
    ensures { IsTrue result ↔ (triple.now.subject ≡ first.now.subject → (triple.now.predicate ≡ first.now.predicate) × (triple.now.object ≡ first.now.object)) }
{
    let is_of_subject = is_same(&triple.subject, &first.subject);
    let is_along = is_same(&triple.predicate, &first.predicate);
    let leads_there = is_same(&triple.object, &first.object);
    !is_of_subject || (is_along && leads_there)
}

// Whether no triple says more of the subject of one of them.
fn says_all(graph: &[Triple], first: &Triple) -> bool
    ensures { IsTrue result ↔ ((p v : TermData) → Has graph.now first.now.subject p v → (p ≡ first.now.predicate) × (v ≡ first.now.object)) }
{
    for triple in graph {
        if !says_no_more(triple, first) {
            return false;
        }
    }
    true
}

fn first_triple<'a>(graph: &'a [Triple], node: &Term) -> Option<&'a Triple>
    ensures { MatchOption result ((p v : TermData) → Has graph.now node.now p v → ⊥)
        (λ t. (t.now.subject ≡ node.now) × Has graph.now node.now t.now.predicate t.now.object) }
{
    for triple in graph {
        if is_same(&triple.subject, node) {
            return Some(triple);
        }
    }
    None
}

/// The triple of which the node is the subject, if there is one alone.
pub(crate) fn only_triple<'a>(graph: &'a [Triple], node: &Term) -> Option<&'a Triple>
    ensures { MatchOption result ((p v : TermData) → IsAlone graph.now node.now p v → ⊥)
        (λ t. IsAlone graph.now node.now t.now.predicate t.now.object) }
{
    match first_triple(graph, node) {
        Some(first) => {
            if says_all(graph, first) {
                Some(first)
            } else {
                None
            }
        }
        None => None,
    }
}

/// What the property makes of the relation of a path.
pub(crate) fn modified_by(
    alloc: Global,
    modifier: PathModifier,
    relation: &Relation,
) -> Result<Relation, AllocError>
    ensures { IfOk result (Means (JoinsModified modifier relation.now)) }
{
    match modifier {
        PathModifier::Inverse => reversed_relation(alloc, relation),
        PathModifier::ZeroOrMore => any_times(alloc, relation),
        PathModifier::OneOrMore => once_or_more(alloc, relation),
        PathModifier::ZeroOrOne => or_none(alloc, relation),
    }
}

/// The relations in turn, or any of them.
pub(crate) fn join_relations(
    alloc: Global,
    join: Join,
    relations: &[Relation],
) -> Result<Relation, AllocError>
    ensures { IfOk result (Means (JoinsBy join relations.now)) }
{
    match join {
        Join::Sequence => in_turn(alloc, relations),
        Join::Alternative => any_of(alloc, relations),
    }
}
