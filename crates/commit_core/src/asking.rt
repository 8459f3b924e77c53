//! Whether a transaction that is handed in may be committed.
ghost use Rattle.std.specs.Prelude.{◌≡◌};
ghost use Rattle.std.specs.List.{list_all};
ghost use Rattle.collections.specs.Ordered.{has_item};
ghost use Rattle.rdf_model.specs.Numbers.{triple_at};
ghost use Rattle.rdf_model.specs.Terms.{term_cmp};
ghost use Rattle.triple_index.specs.Changes.{IsNumbered, IsNumberedChange, change_at};
ghost use Rattle.commit_core.specs.Conditions;
ghost use Rattle.commit_core.specs.Conditions.{change_named, has_change, look_named, staged_named, triple_named, triples_named, verdict_fits};

use numbered_lists::Net;
use rdf_model::{Ids, Look, Names, Term, Triple};
use shapes_graph::ShapesGraph;
use store_model::{Transaction, Verdict};
use term_dict::Dict;
use triple_index::NumberedChange;

fn has_name(named: &Dict, term: &Term) -> bool
    ensures { result ≡ has_item term_cmp term.now named.now.terms }
{
    named.id(term).is_some()
}

fn is_triple_named(named: &Dict, triple: &Triple) -> bool
    ensures { result ≡ triple_named named.now.terms triple.now }
{
    has_name(named, &triple.subject)
        && has_name(named, &triple.predicate)
        && has_name(named, &triple.object)
}

fn are_triples_named(named: &Dict, triples: &[Triple]) -> bool
    ensures { result ≡ triples_named named.now.terms triples.now }
{
    triples.iter().all(|triple| is_triple_named(named, triple))
}

// Whether the triple of these places in the terms is named.
fn is_place_named(named: &Dict, terms: &[Term], ids: &Ids) -> bool
    requires { IsNumbered terms.now ids.now }
    ensures { result ≡ triple_named named.now.terms (triple_at terms.now ids.now) }
{
    has_name(named, &terms[ids.subject as usize])
        && has_name(named, &terms[ids.predicate as usize])
        && has_name(named, &terms[ids.object as usize])
}

fn is_change_named(named: &Dict, terms: &[Term], change: &NumberedChange) -> bool
    requires { IsNumberedChange terms.now change.now }
    ensures { result ≡ change_named named.now.terms (change_at terms.now change.now) }
{
    match change {
        NumberedChange::Add(ids) => is_place_named(named, terms, ids),
        NumberedChange::Remove(ids) => is_place_named(named, terms, ids),
    }
}

fn are_shapes_named(named: &Dict, staged: &Option<ShapesGraph>) -> bool
    ensures { result ≡ staged_named named.now.terms staged.now }
{
    match staged {
        Some(shapes) => are_triples_named(named, shapes.triples()),
        None => true,
    }
}

fn is_look_named(named: &Dict, look: &Look<Term>) -> bool
    ensures { result ≡ look_named named.now.terms look.now }
{
    match look {
        Look::Out(subject, predicate) => { has_name(named, subject) && has_name(named, predicate) }
        Look::In(predicate, object) => { has_name(named, predicate) && has_name(named, object) }
        Look::OutAny(subject) => has_name(named, subject),
    }
}

fn are_looks_named(named: &Dict, looks: &[Look<Term>]) -> bool
    ensures { result ≡ list_all (look_named named.now.terms) looks.now }
{
    looks.iter().all(|look| is_look_named(named, look))
}

// Whether the verdict, if there is one, has a head up to this version and names in its looks.
fn does_verdict_fit(version: u64, named: &Dict, verdict: &Option<Verdict>) -> bool
    ensures { result ≡ verdict_fits version named.now.terms verdict.now }
{
    match verdict {
        Some(verdict) => {
            verdict.head <= version && are_looks_named(named, verdict.looks.as_slice())
        }
        None => true,
    }
}

// Whether there is a change or a staged shapes graph.
fn changes_something(net: &Net, staged: &Option<ShapesGraph>) -> bool
    ensures { result ≡ has_change net.now staged.now }
{
    match staged {
        Some(_) => true,
        None => !net.is_empty(),
    }
}

fn are_changes_named(named: &Dict, net: &Net) -> bool
    ensures { result ≡ list_all (change_named named.now.terms) net.now }
{
    let (terms, changes) = net.parts();
    for change in changes {
        if !is_change_named(named, terms, change) {
            return false;
        }
    }
    true
}

/// Whether the transaction may be committed at this version, where these terms are named.
pub fn may_commit(version: u64, named: &Dict, transaction: &Transaction) -> bool
    ensures { result ≡ Conditions.may_commit version named.now.terms transaction.now }
{
    let net = &transaction.net;
    transaction.base <= version
        && changes_something(net, &transaction.staged)
        && are_changes_named(named, net)
        && are_shapes_named(named, &transaction.staged)
        && does_verdict_fit(version, named, &transaction.verdict)
}
