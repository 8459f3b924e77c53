//! A set of triples by numbers in three orders.
ghost use Rattle.std.specs.Prelude.{◌≡◌, [], IfOk, OnOk, OnErr, length};
ghost use Rattle.collections.specs.Ordered.{IsAscending, with_item, without_item};
ghost use Rattle.triple_index.specs.Keys.{ids_cmp};
ghost use Rattle.triple_index.specs.Changes.{after_ids, changed_ids};

use crate::change::NumberedChange;
use crate::key::Key;
use page_index::Pages;
use rdf_model::Ids;
use std::alloc::{AllocError, Global};
use std::marker::Model;

/// A set of triples of term numbers, in three orders.
///
/// Contracts see it as the list of its triples, which ascends strictly by subject, predicate, object.
#[derive(Drop)]
pub struct Index {
    pub(crate) alloc: Global,
    pub(crate) subjects: Pages<Key>,
    pub(crate) predicates: Pages<Key>,
    pub(crate) objects: Pages<Key>,
}

impl Model for Index {
    ghost use Rattle.std.specs.Prelude.{List};
    ghost use Rattle.rdf_model.specs.declared.ids.Ids.{Ids};
    ghost use Rattle.triple_index.specs.Keys.{ids_of};
    ghost use Rattle.triple_index.specs.Sets.{AreOne};

    ghost Value = { List Ids };

    ghost view = { λ x. ids_of x.subjects };

    ghost invariant = { λ x. AreOne x.subjects x.predicates x.objects };
}

impl Index {
    /// A set with no triple. It takes no memory.
    pub fn new(alloc: Global) -> Index
        ensures { result ≡ [] }
    {
        Index {
            alloc,
            subjects: Pages::new(alloc),
            predicates: Pages::new(alloc),
            objects: Pages::new(alloc),
        }
    }

    /// How many triples there are. It takes no memory.
    pub fn len(&self) -> usize
        ensures { result ≡ length self.now }
    {
        self.subjects.len()
    }

    /// The triples ascend strictly. It does nothing: its contract is what the type keeps.
    pub fn recall_ascending(&self)
        ensures { IsAscending ids_cmp self.now }
    {
        let _ = &self.alloc;
    }

    /// Another set with the same triples. It copies none, and neither set sees a later change of the
    /// other. It fails only where the owners of one page can't be counted.
    pub fn share(&self) -> Result<Index, AllocError>
        ensures { IfOk result (λ share. share ≡ self.now) }
    {
        Ok(Index {
            alloc: self.alloc,
            subjects: self.subjects.share()?,
            predicates: self.predicates.share()?,
            objects: self.objects.share()?,
        })
    }

    /// Makes the changes in turn. After an error the set is as it was.
    pub fn apply(&mut self, net: &[NumberedChange]) -> Result<(), AllocError>
        ensures ok { OnOk result (self.new ≡ after_ids self.old net.now) }
        ensures err { OnErr result (self.new ≡ self.old) }
    {
        let next = after_all(self.share()?, net)?;
        *self = next;
        Ok(())
    }

    // The set with a triple.
    fn with_triple(self, triple: Ids) -> Result<Index, AllocError>
        ensures { IfOk result (λ next. next ≡ with_item ids_cmp triple self) }
    {
        let Index {
            alloc,
            mut subjects,
            mut predicates,
            mut objects,
        } = self;
        let _ = subjects.insert(Key::by_subject(triple))?;
        let _ = predicates.insert(Key::by_predicate(triple))?;
        let _ = objects.insert(Key::by_object(triple))?;
        Ok(Index {
            alloc,
            subjects,
            predicates,
            objects,
        })
    }

    // The set without a triple.
    fn without_triple(self, triple: Ids) -> Result<Index, AllocError>
        ensures { IfOk result (λ next. next ≡ without_item ids_cmp triple self) }
    {
        let Index {
            alloc,
            mut subjects,
            mut predicates,
            mut objects,
        } = self;
        let _ = subjects.remove(&Key::by_subject(triple))?;
        let _ = predicates.remove(&Key::by_predicate(triple))?;
        let _ = objects.remove(&Key::by_object(triple))?;
        Ok(Index {
            alloc,
            subjects,
            predicates,
            objects,
        })
    }

    fn with_change(self, change: NumberedChange) -> Result<Index, AllocError>
        ensures { IfOk result (λ next. next ≡ changed_ids self change) }
    {
        match change {
            NumberedChange::Add(triple) => Ok(self.with_triple(triple)?),
            NumberedChange::Remove(triple) => Ok(self.without_triple(triple)?),
        }
    }
}

// The set after the changes in turn.
fn after_all(index: Index, net: &[NumberedChange]) -> Result<Index, AllocError>
    ensures { IfOk result (λ next. next ≡ after_ids index net.now) }
{
    let mut next = index;
    for change in net {
        next = next.with_change(*change)?;
    }
    Ok(next)
}
