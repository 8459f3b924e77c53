// What the triples of a node show of it, once the paths below it are known (SHACL section 2.3.1).
ghost use Rattle.std.specs.Prelude.{◌≡◌, ◌⊎◌, ◌↔◌, IsTrue, MatchOption, codes};
ghost use Rattle.std.specs.List.{Contains};
ghost use Rattle.collections.specs.Ordered.{IsAscending};
ghost use Rattle.rdf_model.specs.declared.term.Term.{Term as TermData};
ghost use Rattle.rdf_model.specs.declared.triple.Triple.{Triple as TripleData};
ghost use Rattle.rdf_model.specs.Terms.{triple_cmp};
ghost use Rattle.shape_model.specs.Triples.{IsBlank};
ghost use Rattle.shape_model.specs.ShapeSyntax.{IsListEnd};
ghost use Rattle.shape_model.specs.Vocabulary.{sh};
ghost use Rattle.shape_syntax.specs.PathSteps.{IsAlone, IsKnown, IsSeveral, LeadsOn, Shows, ShowsList, ShowsPath, ModifiesPath};

use crate::IndexedGraph;
use crate::claim::Claim;
use crate::known::KnownClaims;
use crate::list::{cell, is_list_end};
use crate::lookup::triples_of;
use crate::terms::{is_blank, is_named, is_same};
use rdf_model::{Term, Triple};
use vocabulary::{
    SH_ALTERNATIVE_PATH, SH_INVERSE_PATH, SH_ONE_OR_MORE_PATH, SH_ZERO_OR_MORE_PATH,
    SH_ZERO_OR_ONE_PATH,
};

fn says_same(triple: &Triple, other: &Triple) -> bool
    ensures { IsTrue result ↔ ((triple.now.predicate ≡ other.now.predicate) × (triple.now.object ≡ other.now.object)) }
{
    is_same(&triple.predicate, &other.predicate) && is_same(&triple.object, &other.object)
}

// Whether one of the triples has another predicate or another object.
fn is_more_said(found: &[Triple], first: &Triple) -> bool
    ensures { IsTrue result ↔ ((t : TripleData) × Contains found.now t
        × ((t.predicate ≡ first.now.predicate) × (t.object ≡ first.now.object) → ⊥)) }
{
    for triple in found {
        if !says_same(triple, first) {
            return true;
        }
    }
    false
}

/// The triple of which the node is the subject, if there is one alone.
pub(crate) fn only_triple<'a>(graph: &IndexedGraph<'a>, node: &Term) -> Option<&'a Triple>
    requires { IsAscending triple_cmp graph.now }
    ensures { MatchOption result ((p v : TermData) → IsAlone graph.now node.now p v → ⊥)
        (λ t. IsAlone graph.now node.now t.now.predicate t.now.object) }
{
    let own = triples_of(graph, node);
    match own.first() {
        Some(first) => {
            if is_more_said(own, first) {
                None
            } else {
                Some(first)
            }
        }
        None => None,
    }
}

/// Whether the property makes another path of its value, a path (SHACL sections 2.3.1.4 to 2.3.1.7).
#[tactic(auto, unfolding(shape_model::specs::Vocabulary::sh))]
pub fn modifies_path(predicate: &Term) -> bool
    ensures { IsTrue result ↔ ModifiesPath predicate.now }
{
    is_named(predicate, SH_INVERSE_PATH)
        || is_named(predicate, SH_ZERO_OR_MORE_PATH)
        || is_named(predicate, SH_ONE_OR_MORE_PATH)
        || is_named(predicate, SH_ZERO_OR_ONE_PATH)
}

#[tactic(auto, unfolding(shape_model::specs::Vocabulary::sh))]
fn is_alternative(predicate: &Term) -> bool
    ensures { IsTrue result ↔ (predicate.now ≡ sh (codes "alternativePath")) }
{
    is_named(predicate, SH_ALTERNATIVE_PATH)
}

fn shows_several(graph: &IndexedGraph, known: &KnownClaims, node: &Term) -> bool
    requires { IsAscending triple_cmp graph.now }
    ensures { IsTrue result ↔ IsSeveral graph.now known.now.paths.keys known.now.lists.keys node.now }
{
    match cell(graph, node) {
        Some((first, rest)) => known.has_both(first, rest),
        None => false,
    }
}

fn ends_or_goes_on(graph: &IndexedGraph, known: &KnownClaims, rest: &Term) -> bool
    requires { IsAscending triple_cmp graph.now }
    ensures { IsTrue result ↔ (IsListEnd graph.now rest.now ⊎ Contains known.now.lists.keys rest.now) }
{
    is_list_end(graph, rest) || known.has_list(rest)
}

fn is_path_list(graph: &IndexedGraph, known: &KnownClaims, first: &Term, rest: &Term) -> bool
    requires { IsAscending triple_cmp graph.now }
    ensures { IsTrue result ↔ (IsKnown known.now.paths.keys first.now × (IsListEnd graph.now rest.now ⊎ Contains known.now.lists.keys rest.now)) }
{
    known.has_path(first) && ends_or_goes_on(graph, known, rest)
}

fn shows_list(graph: &IndexedGraph, known: &KnownClaims, node: &Term) -> bool
    requires { IsAscending triple_cmp graph.now }
    ensures { IsTrue result ↔ ShowsList graph.now known.now.paths.keys known.now.lists.keys node.now }
{
    match cell(graph, node) {
        Some((first, rest)) => is_path_list(graph, known, first, rest),
        None => false,
    }
}

fn modifies_known(known: &KnownClaims, triple: &Triple) -> bool
    ensures { IsTrue result ↔ (ModifiesPath triple.now.predicate × IsKnown known.now.paths.keys triple.now.object) }
{
    modifies_path(&triple.predicate) && known.has_path(&triple.object)
}

fn offers_several(graph: &IndexedGraph, known: &KnownClaims, triple: &Triple) -> bool
    requires { IsAscending triple_cmp graph.now }
    ensures { IsTrue result ↔ ((triple.now.predicate ≡ sh (codes "alternativePath"))
        × IsSeveral graph.now known.now.paths.keys known.now.lists.keys triple.now.object) }
{
    is_alternative(&triple.predicate) && shows_several(graph, known, &triple.object)
}

fn leads_on(graph: &IndexedGraph, known: &KnownClaims, triple: &Triple) -> bool
    requires { IsAscending triple_cmp graph.now }
    ensures { IsTrue result ↔ LeadsOn graph.now known.now.paths.keys known.now.lists.keys triple.now.predicate triple.now.object }
{
    modifies_known(known, triple) || offers_several(graph, known, triple)
}

fn alone_leads_on(graph: &IndexedGraph, known: &KnownClaims, node: &Term) -> bool
    requires { IsAscending triple_cmp graph.now }
    ensures { IsTrue result ↔ ((p : TermData) × (m : TermData) × IsAlone graph.now node.now p m
        × LeadsOn graph.now known.now.paths.keys known.now.lists.keys p m) }
{
    match only_triple(graph, node) {
        Some(triple) => leads_on(graph, known, triple),
        None => false,
    }
}

fn shows_path(graph: &IndexedGraph, known: &KnownClaims, node: &Term) -> bool
    requires { IsAscending triple_cmp graph.now }
    ensures { IsTrue result ↔ ShowsPath graph.now known.now.paths.keys known.now.lists.keys node.now }
{
    shows_several(graph, known, node) || alone_leads_on(graph, known, node)
}

fn shows_blank_path(graph: &IndexedGraph, known: &KnownClaims, node: &Term) -> bool
    requires { IsAscending triple_cmp graph.now }
    ensures { IsTrue result ↔ (IsBlank node.now × ShowsPath graph.now known.now.paths.keys known.now.lists.keys node.now) }
{
    is_blank(node) && shows_path(graph, known, node)
}

/// Whether what is known shows what is asked of the node.
pub(crate) fn is_shown(graph: &IndexedGraph, known: &KnownClaims, claim: &Claim) -> bool
    requires { IsAscending triple_cmp graph.now }
    ensures { IsTrue result ↔ Shows graph.now known.now.paths.keys known.now.lists.keys claim.now }
{
    match claim {
        Claim::Path(node) => shows_blank_path(graph, known, node),
        Claim::List(node) => shows_list(graph, known, node),
    }
}
