//! The accepted commits of a store.
ghost use Rattle.std.specs.Prelude.{◌≡◌, ◌<◌, ◌≤◌, ◌^◌, [], ◌∷◌, ◌++◌, IfOk, None, OnOk, length};
ghost use Rattle.rdf_model.specs.Numbers.{AreNumbered};
ghost use Rattle.store_model.specs.Store.{again, overtaker};
ghost use Rattle.event_history.specs.Named.{IsBeginning};
ghost use Rattle.snapshot_store.specs.Named.{IsAtHead, commit_of};

use crate::kept::KeptCommit;
use crate::overtaking::overtaker_among;
use crate::reasons::again_among;
use collections::Sequence;
use rdf_model::{Ids, Pattern};
use std::alloc::{AllocError, Global};
use std::marker::Model;
use store_model::{Again, Overtaker, Transaction, Verdict};
use term_dict::Dict;

/// The accepted commits of a store, the first one first, with the names by whose numbers they keep what they changed. Contracts
/// see them with their terms, the names, and for how many commits there is room.
pub struct Commits {
    alloc: Global,
    names: Dict,
    kept: Vec<KeptCommit>,
}

impl Model for Commits {
    ghost use Rattle.std.specs.Prelude.{map};
    ghost use Rattle.std.specs.List.{AllByRecursion};
    ghost use Rattle.std.specs.Vec.{vec_capacity};
    ghost use Rattle.snapshot_store.specs.Kept.{HasTerms, told};
    ghost use Rattle.snapshot_store.specs.Named.{NamedCommits};

    ghost Value = { NamedCommits };

    ghost view = { λ c. record { commits = map (told c.names.terms) c.kept.items; names = c.names.terms; room = vec_capacity c.kept } };

    ghost invariant = { λ c. AllByRecursion (HasTerms c.names.terms) c.kept.items };
}

// Written by hand, so that what owns one calls it in place of having it written out.
impl Drop for Commits {
    fn drop(self) {
        let Commits {
            alloc: _,
            names: _,
            kept: _,
        } = self;
    }
}

impl Commits {
    /// No commit, in a store with these names.
    pub fn new(alloc: Global, names: Dict) -> Commits
        ensures { (result.commits ≡ []) × (result.names ≡ names.terms) }
    {
        Commits {
            alloc,
            names,
            kept: Vec::new(alloc),
        }
    }

    /// How many there are: the version of the store.
    pub fn version(&self) -> u64
        ensures count { result ≡ length self.now.commits }
        ensures small { result < 2 ^ 63 }
    {
        self.kept.len() as u64
    }

    /// Makes room for one commit.
    pub fn make_room(&mut self) -> Result<(), AllocError>
        ensures same { (self.new.commits ≡ self.old.commits) × (self.new.names ≡ self.old.names) }
        ensures room { OnOk result (length self.new.commits < self.new.room) }
    {
        self.kept.reserve(1)?;
        Ok(())
    }

    /// Adds the commit that changed the triples of these numbers, which may come in any order and more than once, in the room that
    /// was made for it. The names are those of the store at the commit: the names before it, and maybe more.
    pub fn push_reserved(&mut self, names: Dict, changed: Vec<Ids>, staged: bool)
        requires more { IsBeginning self.old.names names.terms }
        requires numbered { AreNumbered names.terms changed.items }
        requires room { length self.old.commits < self.old.room }
        ensures { self.new ≡ record { commits = self.old.commits ++ commit_of names.terms changed.items staged ∷ []; names = names.terms; room = self.old.room } }
    {
        self.names = names;
        self.kept.push_reserved(KeptCommit {
            changed: Sequence::from_vec(changed),
            staged,
        });
    }

    /// The first commit after the base that changed what a pattern asks for, with the first such triple of it.
    pub fn overtaker(
        &self,
        base: u64,
        patterns: &[Pattern],
    ) -> Result<Option<Overtaker>, AllocError>
        requires { base ≤ length self.now.commits }
        ensures { IfOk result (λ found. found ≡ overtaker self.now.commits base patterns.now) }
    {
        let later = &self.kept[base as usize..];
        let found = overtaker_among(self.alloc, &self.names, base + 1, patterns, later)?;
        Ok(found)
    }

    // Why a transaction that stages no shapes is evaluated in its own step.
    fn again_by(&self, verdict: &Option<Verdict>) -> Result<Again, AllocError>
        requires { IsAtHead (length self.now.commits) verdict.now }
        ensures { IfOk result (λ why. why ≡ again self.now.commits None verdict.now) }
    {
        match verdict {
            Some(verdict) => {
                let later = &self.kept[verdict.head as usize..];
                let looks = verdict.looks.as_slice();
                let why = again_among(self.alloc, &self.names, verdict.head + 1, looks, later)?;
                Ok(why)
            }
            None => Ok(Again::NoVerdict),
        }
    }

    /// Why the transaction is evaluated in its own step, after these commits.
    pub fn again(&self, transaction: &Transaction) -> Result<Again, AllocError>
        requires { IsAtHead (length self.now.commits) transaction.now.verdict }
        ensures { IfOk result (λ why. why ≡ again self.now.commits transaction.now.staged transaction.now.verdict) }
    {
        match &transaction.staged {
            Some(_) => Ok(Again::OwnShapes),
            None => {
                let why = self.again_by(&transaction.verdict)?;
                Ok(why)
            }
        }
    }
}
