//! The triples that changes of a graph put in or take out, by number.
ghost use Rattle.std.specs.Prelude.{◌≡◌, IfOk};
ghost use Rattle.std.specs.List.{AllByRecursion};
ghost use Rattle.collections.specs.Ordered.{has_item};
ghost use Rattle.rdf_model.specs.Graphs.{differing};
ghost use Rattle.rdf_model.specs.Numbers.{AreNumbered};
ghost use Rattle.triple_index.specs.Changes.{IsNumberedChange, after_ids};
ghost use Rattle.triple_index.specs.Keys.{ids_cmp};
ghost use Rattle.data_graph.specs.DataGraphs.{triples_at};
ghost use Rattle.data_graph.specs.Nets.{ids_changed, in_one_set, is_in_one_set};

use rdf_model::{Ids, Triples};
use std::alloc::{AllocError, Global};
use term_dict::Dict;
use triple_index::{Index, NumberedChange};

/// The numbers of the triple that a change adds or removes.
pub(crate) fn numbers_of(change: &NumberedChange) -> Ids
    ensures { result ≡ ids_changed change.now }
{
    match change {
        NumberedChange::Add(triple) => *triple,
        NumberedChange::Remove(triple) => *triple,
    }
}

// Whether a triple is in a set.
fn is_in(set: &Index, triple: Ids) -> bool
    ensures { result ≡ has_item ids_cmp triple set.now }
{
    set.contains(triple)
}

// Whether a triple is in exactly one of two sets.
fn is_in_one_of(set: &Index, other: &Index, triple: Ids) -> bool
    ensures { result ≡ is_in_one_set set.now other.now triple }
{
    let before = is_in(set, triple);
    let after = is_in(other, triple);
    (before && !after) || (after && !before)
}

// The triples of the changes that are in exactly one of two sets.
fn changed_in(
    alloc: Global,
    set: &Index,
    other: &Index,
    changes: &[NumberedChange],
) -> Result<Vec<Ids>, AllocError>
    ensures { IfOk result (λ ids. ids.items ≡ in_one_set set.now other.now changes.now) }
{
    let mut found = Vec::with_capacity(alloc, changes.len())?;
    for change in changes {
        let triple = numbers_of(change);
        if is_in_one_of(set, other, triple) {
            found.push(triple)?;
        }
    }
    Ok(found)
}

/// The numbers of the triples that are in exactly one of two graphs, where the second is the first after the changes: in any
/// order, and some maybe more than once. It looks at no triple but theirs, and reads no term.
pub(crate) fn ids_differing(
    alloc: Global,
    names: &Dict,
    index: &Index,
    later: &Index,
    changes: &[NumberedChange],
) -> Result<Vec<Ids>, AllocError>
    requires index { AreNumbered names.now.terms index.now }
    requires changes { AllByRecursion (IsNumberedChange names.now.terms) changes.now }
    requires later { later.now ≡ after_ids index.now changes.now }
    ensures differing { IfOk result (λ ids. triples_at names.now.terms ids.items ≡ differing (triples_at names.now.terms index.now) (triples_at names.now.terms later.now)) }
    ensures numbered { IfOk result (λ ids. AreNumbered names.now.terms ids.items) }
{
    names.recall_numbering();
    index.recall_ascending();
    let found = changed_in(alloc, index, later, changes)?;
    Ok(found)
}
