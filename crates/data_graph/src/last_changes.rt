//! What changes leave of the triples that they touch.
ghost use Rattle.std.specs.Prelude.{◌≡◌, ◌∷◌, ◌++◌, ◌↔◌, [], IfOk, List, OnOk};
ghost use Rattle.std.specs.List.{Contains};
ghost use Rattle.rdf_model.specs.declared.change.Change.{Change as ChangeData};
ghost use Rattle.rdf_model.specs.declared.triple.Triple.{Triple as TripleData};
ghost use Rattle.data_graph.specs.Finding.{AreLast, IsLaid};

use rdf_model::{Change, Triple};
use std::alloc::{AllocError, Global};
use std::collections::BTreeSet;

/// The triples that changes add and those that they remove, where the last change to each decides.
pub(crate) struct LastChanges {
    pub(crate) added: BTreeSet<Triple>,
    pub(crate) removed: BTreeSet<Triple>,
}

// Written by hand, so that what owns one calls it in place of having it written out.
impl Drop for LastChanges {
    fn drop(self) {
        let LastChanges {
            added: _,
            removed: _,
        } = self;
    }
}

impl LastChanges {
    /// Those of no change. It takes no memory.
    pub(crate) fn new(alloc: Global) -> LastChanges
        ensures { AreLast [] result.added.keys result.removed.keys }
    {
        LastChanges {
            added: BTreeSet::new(alloc),
            removed: BTreeSet::new(alloc),
        }
    }

    /// Takes one change more.
    pub(crate) fn push(&mut self, change: Change) -> Result<(), AllocError>
        ensures { OnOk result ((net : List ChangeData) → AreLast net self.old.added.keys self.old.removed.keys → AreLast (net ++ change ∷ []) self.new.added.keys self.new.removed.keys) }
    {
        match change {
            Change::Add(triple) => {
                let _ = self.removed.remove(&triple);
                let _ = self.added.insert(triple)?;
            }
            Change::Remove(triple) => {
                let _ = self.added.remove(&triple);
                let _ = self.removed.insert(triple)?;
            }
        }
        Ok(())
    }

    /// The triples without those that are removed, and those that are added behind them.
    pub(crate) fn laid_over(self, triples: Vec<Triple>) -> Result<Vec<Triple>, AllocError>
        ensures { IfOk result (λ laid. (t : TripleData) → Contains laid.items t ↔ IsLaid triples.items self.added.keys self.removed.keys t) }
    {
        let LastChanges { added, removed } = self;
        let mut laid = triples;
        laid.retain(|triple| !removed.contains(triple));
        laid.extend(added)?;
        Ok(laid)
    }
}
