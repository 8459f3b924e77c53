//! What an index answers as a graph by numbers.
ghost use Rattle.std.specs.Prelude.{◌≡◌, IfOk, map};
ghost use Rattle.std.specs.List.{Contains};
ghost use Rattle.std.specs.Ordering.{nat_cmp};
ghost use Rattle.collections.specs.Listings.{IsListing};
ghost use Rattle.collections.specs.Ordered.{IsAscending};
ghost use Rattle.collections.specs.Pairs.{pair_cmp};
ghost use Rattle.triple_index.specs.Keys.{key_cmp, key_of};

use crate::index::Index;
use crate::key::Key;
use crate::prefix::Prefix;
use crate::run::keys_with;
use page_index::Pages;
use rdf_model::{Ids, Look, Triples};
use std::alloc::{AllocError, Global};

// The last number of each key.
fn thirds(alloc: Global, keys: &[Key]) -> Result<Vec<u32>, AllocError>
    ensures { IfOk result (λ thirds. thirds.items ≡ map (λ k. k.third) keys.now) }
{
    keys.iter().map(|key| key.third).collect(alloc)
}

// The last two numbers of each key.
fn pairs(alloc: Global, keys: &[Key]) -> Result<Vec<(u32, u32)>, AllocError>
    ensures { IfOk result (λ pairs. pairs.items ≡ map (λ k. (k.second, k.third)) keys.now) }
{
    keys.iter()
        .map(|key| (key.second, key.third))
        .collect(alloc)
}

// The last numbers of the keys that begin with two numbers, ascending.
fn thirds_with(
    alloc: Global,
    pages: &Pages<Key>,
    first: u32,
    second: u32,
) -> Result<Vec<u32>, AllocError>
    requires { IsAscending key_cmp pages.now }
    ensures { IfOk result (λ thirds. IsListing nat_cmp (λ n. Contains pages.now (key_of first second n)) thirds.items) }
{
    let keys = keys_with(alloc, pages, Prefix::Two(first, second))?;
    Ok(thirds(alloc, &keys)?)
}

// The last two numbers of the keys that begin with one number, ascending.
fn pairs_with(alloc: Global, pages: &Pages<Key>, first: u32) -> Result<Vec<(u32, u32)>, AllocError>
    requires { IsAscending key_cmp pages.now }
    ensures { IfOk result (λ pairs. IsListing pair_cmp (λ e. Contains pages.now (key_of first e.0 e.1)) pairs.items) }
{
    let keys = keys_with(alloc, pages, Prefix::One(first))?;
    Ok(pairs(alloc, &keys)?)
}

impl Triples for Index {
    ghost triples = { λ index. index };

    fn find(&self, alloc: Global, look: &Look<u32>) -> Result<Vec<u32>, AllocError> {
        match look {
            Look::Out(subject, predicate) => Ok(thirds_with(
                alloc,
                &self.subjects,
                *subject,
                *predicate,
            )?),
            Look::In(predicate, object) => Ok(thirds_with(
                alloc,
                &self.objects,
                *object,
                *predicate,
            )?),
            Look::OutAny(_) => unreachable!(),
        }
    }

    fn add_found(&self, look: &Look<u32>, found: &mut Vec<u32>) -> Result<(), AllocError> {
        let more = self.find(self.alloc, look)?;
        found.extend_from_slice(&more)?;
        Ok(())
    }

    fn edges(&self, alloc: Global, subject: u32) -> Result<Vec<(u32, u32)>, AllocError> {
        Ok(pairs_with(alloc, &self.subjects, subject)?)
    }

    fn with_predicate(&self, alloc: Global, predicate: u32) -> Result<Vec<(u32, u32)>, AllocError> {
        Ok(pairs_with(alloc, &self.predicates, predicate)?)
    }

    fn contains(&self, triple: Ids) -> bool {
        self.subjects.contains(&Key::by_subject(triple))
    }
}
