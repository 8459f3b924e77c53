//! The looks of a validation.
ghost use Rattle.std.specs.Prelude.{◌≡◌, [], ◌∷◌, ◌++◌, OnErr, OnOk};
ghost use Rattle.rdf_model.specs.Numbers.{is_touched};

use crate::{Ids, Look};
use std::alloc::{AllocError, Global};
use std::marker::Model;

/// The looks of a validation. Contracts see them as a list.
#[derive(Debug, Drop)]
pub struct Footprint {
    looks: Vec<Look<u32>>,
}

impl Model for Footprint {
    ghost use Rattle.std.specs.Prelude.{List, ℕ};
    ghost use Rattle.rdf_model.specs.declared.look.Look.{Look};

    ghost Value = { List (Look ℕ) };

    ghost view = { λ f. f.looks.items };
}

impl Footprint {
    /// No look. It takes no memory.
    pub fn new(alloc: Global) -> Footprint
        ensures { result ≡ [] }
    {
        Footprint {
            looks: Vec::new(alloc),
        }
    }

    /// Adds the look, and no other.
    pub fn add(&mut self, look: Look<u32>) -> Result<(), AllocError>
        ensures ok { OnOk result (self.new ≡ self.old ++ look ∷ []) }
        ensures err { OnErr result (self.new ≡ self.old) }
    {
        self.looks.push(look)?;
        Ok(())
    }

    pub fn looks(&self) -> &[Look<u32>]
        ensures { result.now ≡ self.now }
    {
        self.looks.as_slice()
    }

    /// Whether one of the looks reads the triple.
    pub fn touched_by(&self, triple: Ids) -> bool
        ensures { result ≡ is_touched self.now triple }
    {
        self.looks.iter().any(|look| look.reads_ids(triple))
    }
}
