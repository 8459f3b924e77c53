//! The changes that a pattern asks for, laid over the triples that it finds.
ghost use Rattle.std.specs.Prelude.{◌≡◌, ◌∷◌, ◌++◌, [], IfOk, List, OnOk};
ghost use Rattle.rdf_model.specs.declared.change.Change.{Change as ChangeData};
ghost use Rattle.rdf_model.specs.Graphs.{after, with_each};
ghost use Rattle.rdf_model.specs.Matching.{matches};
ghost use Rattle.rdf_model.specs.Numbers.{triple_at};
ghost use Rattle.store_model.specs.Store.{changed_triple};
ghost use Rattle.triple_index.specs.Changes.{IsNumbered, IsNumberedChange, change_at};
ghost use Rattle.data_graph.specs.Finding.{AreLast, changes_asked};

use crate::last_changes::LastChanges;
use collections::sorted_once;
use numbered_lists::{Net, copied_change};
use rdf_model::{Ids, Pattern, Term, Triple};
use std::alloc::{AllocError, Global};
use triple_index::NumberedChange;

// Whether the pattern asks for the triple of these places in the terms.
fn asks_for_triple(terms: &[Term], ids: &Ids, pattern: &Pattern) -> bool
    requires { IsNumbered terms.now ids.now }
    ensures { result ≡ matches pattern.now (triple_at terms.now ids.now) }
{
    pattern.matches_terms(
        &terms[ids.subject as usize],
        &terms[ids.predicate as usize],
        &terms[ids.object as usize],
    )
}

// Whether the pattern asks for the triple of a change.
fn asks_for(terms: &[Term], change: &NumberedChange, pattern: &Pattern) -> bool
    requires { IsNumberedChange terms.now change.now }
    ensures { result ≡ matches pattern.now (changed_triple (change_at terms.now change.now)) }
{
    match change {
        NumberedChange::Add(ids) => asks_for_triple(terms, ids, pattern),
        NumberedChange::Remove(ids) => asks_for_triple(terms, ids, pattern),
    }
}

// Takes a change too, where the pattern asks for its triple. No other is copied.
fn push_asked(
    last: &mut LastChanges,
    terms: &[Term],
    change: &NumberedChange,
    pattern: &Pattern,
) -> Result<(), AllocError>
    requires { IsNumberedChange terms.now change.now }
    ensures { OnOk result ((net : List ChangeData) → AreLast net last.old.added.keys last.old.removed.keys →
        AreLast (net ++ changes_asked pattern.now (change_at terms.now change.now ∷ [])) last.new.added.keys last.new.removed.keys) }
{
    if asks_for(terms, change, pattern) {
        last.push(copied_change(terms, *change)?)?;
    }
    Ok(())
}

// What the changes leave of the triples that the pattern asks for.
fn last_asked(alloc: Global, net: &Net, pattern: &Pattern) -> Result<LastChanges, AllocError>
    ensures { IfOk result (λ last. AreLast (changes_asked pattern.now net.now) last.added.keys last.removed.keys) }
{
    let (terms, changes) = net.parts();
    let mut last = LastChanges::new(alloc);
    for change in changes {
        push_asked(&mut last, terms, change, pattern)?;
    }
    Ok(last)
}

/// The triples after the changes of those that the pattern asks for, in their order.
pub(crate) fn sorted_after_asked(
    alloc: Global,
    triples: Vec<Triple>,
    net: &Net,
    pattern: &Pattern,
) -> Result<Vec<Triple>, AllocError>
    ensures { IfOk result (λ v. v.items ≡ after (with_each [] triples.items) (changes_asked pattern.now net.now)) }
{
    let last = last_asked(alloc, net, pattern)?;
    let laid = last.laid_over(triples)?;
    Ok(sorted_once(laid)?)
}
