//! The labels of a text, numbered in order of first appearance.
ghost use Rattle.std.specs.Prelude.{◌≡◌, ◌+◌, ◌<◌, ◌≤◌, ◌^◌, [], length, IfOk, OnOk, nat_eq, bytes_eq};
ghost use Rattle.std.specs.List.{position_or_len};
ghost use Rattle.std.specs.Cmp.{partial_equiv_from_equiv};
ghost use Rattle.std.specs.Cmp.Lexicographic.{nat_list_eq_equiv};
ghost use Rattle.std.specs.Cmp.Rules.{hashing};
ghost use Rattle.std.specs.Hash as fed;
ghost use Rattle.std.proofs.Common.{rules};
ghost use lib.Pointwise.{pointwise};
ghost use Rattle.indexmap.specs.IndexSet.{insert_key};

use indexmap::IndexSet;
use rdf_text::Text;
use std::alloc::{AllocError, Global};
use std::hash::{Hash, Hasher};
use std::marker::Model;

// A label of a blank node, without its `_:`.
#[derive(Debug, Drop)]
struct Label {
    text: Text,
}

impl Model for Label {
    ghost use Rattle.std.specs.Prelude.{List, ℕ};

    ghost Value = { List ℕ };

    ghost view = { λ l. l.text };
}

impl PartialEq for Label {
    ghost eq = { λ a b. pointwise nat_eq a b };

    ghost laws = { partial_equiv_from_equiv nat_list_eq_equiv };

    fn eq(&self, other: &Label) -> bool {
        self.text == other.text
    }
}

impl Eq for Label {
    ghost laws = { nat_list_eq_equiv };
}

impl Hash for Label {
    ghost hash_input = { λ l. fed.str l };

    ghost respects_eq = { Prim.search (hashing, rules) };

    fn hash<H: Hasher>(&self, state: &mut H) {
        self.text.as_str().hash(state);
    }
}

/// The labels of a text, each once, in the order of their first appearance.
#[derive(Debug, Drop)]
pub struct Labels {
    seen: IndexSet<Label>,
}

impl Model for Labels {
    ghost use Rattle.std.specs.Prelude.{List, ℕ};

    ghost Value = { List (List ℕ) };

    ghost view = { λ l. l.seen.keys };
}

impl Labels {
    pub fn new(alloc: Global) -> Labels
        ensures { result ≡ [] }
    {
        Labels {
            seen: IndexSet::new(alloc),
        }
    }

    pub fn len(&self) -> usize
        ensures { result ≡ length self.now }
    {
        self.seen.len()
    }

    /// The place of a label, which becomes the last one where it has none.
    pub fn place(&mut self, label: Text) -> Result<usize, AllocError>
        ensures place { IfOk result (λ place. place ≡ position_or_len (bytes_eq label) self.old) }
        ensures within { IfOk result (λ place. place ≤ length self.old) }
        ensures labels { OnOk result (self.new ≡ insert_key bytes_eq self.old label) }
    {
        let (place, _) = self.seen.insert_full(Label { text: label })?;
        Ok(place)
    }
}
