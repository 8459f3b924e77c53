//! Changes of triples.
ghost use Rattle.std.specs.Prelude.{◌≡◌};

use crate::Triple;
use collections::ExactClone;
use std::alloc::AllocError;

/// A change of one triple.
#[derive(Debug, Drop)]
pub enum Change {
    Add(Triple),
    Remove(Triple),
}

impl Clone for Change {
    ghost is_clone = { λ source copy. copy ≡ source };

    fn clone(&self) -> Result<Change, AllocError> {
        Ok(match self {
            Change::Add(triple) => Change::Add(triple.clone()?),
            Change::Remove(triple) => Change::Remove(triple.clone()?),
        })
    }
}

impl ExactClone for Change {
    ghost clone_is_equal = { λ source copy is_copy. is_copy };
}
