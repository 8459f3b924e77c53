//! The members of a list.
ghost use Rattle.std.specs.Prelude.{◌≡◌, IfOk, IfSome};
ghost use Rattle.std.specs.List.{Contains};
ghost use Rattle.collections.specs.Listings.{IsListing};

use collections::{Sequence, sorted_once};
use std::alloc::{AllocError, Global};
use std::marker::Model;

/// The members of a list, in its order. Contracts see just them; they may be kept in their own order beside, in which
/// one is looked up.
#[derive(Debug, Drop)]
pub struct Members<T: Ord> {
    listed: Sequence<T>,
    ascending: Option<Vec<T>>,
}

impl<T: Ord> Model for Members<T> {
    ghost use Rattle.std.specs.Prelude.{List, MatchOption};
    ghost use Rattle.std.specs.List.{Contains};
    ghost use Rattle.collections.specs.Listings.{IsListing};

    ghost Value = { List T };

    ghost view = { λ m. m.listed };

    ghost invariant = { λ m. MatchOption m.ascending (Unit {0}) (λ sorted. IsListing T.cmp (Contains m.listed) sorted.items) };
}

impl<T: Ord> Members<T> {
    /// The members in the order of the list alone. It takes no memory.
    pub fn listed(members: Sequence<T>) -> Members<T>
        ensures { result ≡ members }
    {
        Members {
            listed: members,
            ascending: None,
        }
    }

    /// The members in the order of the list.
    pub fn as_slice(&self) -> &[T]
        ensures { result.now ≡ self.now }
    {
        self.listed.as_slice()
    }

    /// The members in their own order, each once, where they are kept so.
    pub fn ascending(&self) -> Option<&[T]>
        ensures { IfSome result (λ sorted. IsListing T.cmp (Contains self.now) sorted.now) }
    {
        match &self.ascending {
            Some(sorted) => Some(sorted.as_slice()),
            None => None,
        }
    }
}

impl Members<u32> {
    /// The members in the order of the list, and in their own beside.
    pub fn sorted(alloc: Global, members: Sequence<u32>) -> Result<Members<u32>, AllocError>
        ensures { IfOk result (λ sorted. sorted ≡ members) }
    {
        let mut copy = Vec::new(alloc);
        copy.extend_from_slice(members.as_slice())?;
        let ascending = sorted_once(copy)?;
        Ok(Members {
            listed: members,
            ascending: Some(ascending),
        })
    }
}
