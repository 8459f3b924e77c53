//! What the names of a text stand for.
ghost use Rattle.std.specs.Prelude.{◌≡◌, [], nat_eq, bytes_eq, option_copied, IfOk, OnOk};
ghost use Rattle.std.specs.Cmp.{partial_equiv_from_equiv};
ghost use Rattle.std.specs.Cmp.Lexicographic.{bytes_decides, nat_list_eq_equiv};
ghost use Rattle.std.specs.Cmp.Rules.{hashing};
ghost use Rattle.std.specs.Hash as fed;
ghost use Rattle.std.specs.Map.{lookup};
ghost use Rattle.std.proofs.Common.{ap, rules};
ghost use lib.Pointwise.{pointwise};
ghost use Rattle.indexmap.specs.IndexMap.{insert_entry};

use indexmap::{Equivalent, IndexMap};
use rdf_text::Text;
use std::alloc::{AllocError, Global};
use std::hash::{Hash, Hasher};
use std::marker::Model;

/// A name in a text: a prefix without its colon, or the label of a blank node without its `_:`.
#[derive(Debug, Drop)]
pub struct Name {
    text: Text,
}

impl Name {
    /// The name of this text.
    pub fn new(alloc: Global, text: &str) -> Result<Name, AllocError>
        ensures { IfOk result (λ name. name ≡ text.now) }
    {
        Ok(Name {
            text: Text::new(alloc, text)?,
        })
    }
}

impl Model for Name {
    ghost use Rattle.std.specs.Prelude.{List, ℕ};

    ghost Value = { List ℕ };

    ghost view = { λ n. n.text };
}

impl PartialEq for Name {
    ghost eq = { λ a b. pointwise nat_eq a b };

    ghost laws = { partial_equiv_from_equiv nat_list_eq_equiv };

    fn eq(&self, other: &Name) -> bool {
        self.text == other.text
    }
}

impl Eq for Name {
    ghost laws = { nat_list_eq_equiv };
}

impl Hash for Name {
    ghost hash_input = { λ n. fed.str n };

    ghost respects_eq = { Prim.search (hashing, rules) };

    fn hash<H: Hasher>(&self, state: &mut H) {
        self.text.as_str().hash(state);
    }
}

// A name is looked up by its text, which needn't be copied for it.
impl<'a> Equivalent<Name> for &'a str {
    ghost equivalent = { λ q k. bytes_eq q.now k };

    ghost respects_hash = { λ q k h. ap fed.str ((bytes_decides q.now k).0 h) };

    ghost respects_eq = { λ q x y. nat_list_eq_equiv.congr q.now x y };

    fn equivalent(&self, key: &Name) -> bool {
        *self == key.text.as_str()
    }
}

/// What names stand for, in the order in which they were first met.
#[derive(Debug, Drop)]
pub struct NameTable<V> {
    entries: IndexMap<Name, V>,
}

impl<V> Model for NameTable<V> {
    ghost use Rattle.std.specs.Prelude.{List, ℕ};

    ghost Value = { List (List ℕ × V) };

    ghost view = { λ t. t.entries.entries };
}

impl<V: Drop> NameTable<V> {
    pub fn new(alloc: Global) -> NameTable<V>
        ensures { result ≡ [] }
    {
        NameTable {
            entries: IndexMap::new(alloc),
        }
    }

    /// What the name of this text stands for.
    pub fn get(&self, name: &str) -> Option<&V>
        ensures { option_copied result ≡ lookup (bytes_eq name.now) self.now }
    {
        self.entries.get(name)
    }

    /// Lets a name stand for this, whatever it stood for before.
    pub fn set(&mut self, name: Name, value: V) -> Result<(), AllocError>
        ensures { OnOk result (self.new ≡ insert_entry bytes_eq self.old name value) }
    {
        self.entries.insert(name, value)?;
        Ok(())
    }
}
