// The follower.
ghost use Rattle.std.specs.Prelude.{◌≡◌, ◌≢◌, ◌+◌, ◌<◌, ◌≤◌, ◌^◌, IfOk, MatchOption, MatchResult, OnErr, OnOk, take};
ghost use Rattle.record_text.specs.declared.record.Record.{Record as RecordData};
ghost use Rattle.follower.specs.Followed.{Feeds, IsApplied, IsKept, IsNew, IsOutside, IsServed, IsTaken, IsThere, IsUnserved, count_with, most_terms, unfed, version_of, with_kept};
ghost use Rattle.follower.specs.Records.{data_of, shapes_of};
ghost use Rattle.follower.specs.Versions.{AreNamesWith, CanAdvance, IsFull, IsVersion, StandsAs};

use crate::fed::Fed;
use crate::kept::{applied_under, kept_under, move_run, put};
use crate::run::{AppliedRecords, run_on};
use crate::same::are_same;
use crate::served::{AtFault, Served};
use crate::terms::terms_of;
use crate::version::{Outcome, Version, version_after};
use record_text::Record;
use std::alloc::{AllocError, Global};
use std::marker::Model;
use term_dict::{Dict, NameFault};

// How many terms may be named beside rdf:type and rdfs:subClassOf: the numbers of all are below 2^32 - 1.
const MOST_TERMS: usize = 4_294_967_293;

// How far a record that is kept may be ahead of the version.
const MOST_AHEAD: u64 = 1024;

/// A follower of a leader's records.
///
/// Contracts see the records that it applied, those that it keeps, and the terms that it named.
pub struct Follower {
    alloc: Global,
    applied: Vec<Record>,
    kept: Vec<Record>,
    versions: Vec<Version>,
    names: Dict,
}

// Written by hand, so that what owns one calls it in place of having it written out.
impl Drop for Follower {
    fn drop(self) {
        let Follower {
            alloc: _,
            applied: _,
            kept: _,
            versions: _,
            names: _,
        } = self;
    }
}

impl Model for Follower {
    ghost use Rattle.follower.specs.Followed.{Followed};
    ghost use Rattle.follower.specs.Versions.{IsFollower};

    ghost Value = { Followed };

    ghost view = { λ f. record { applied = f.applied.items; kept = f.kept.items; terms = f.names.terms } };

    ghost invariant = { λ f. IsFollower f.applied.items f.kept.items f.versions.items f.names };
}

// How a record stands to those that are there.
enum Standing {
    Differs,
    Known,
    Outside,
    New,
}

impl Follower {
    /// A follower that was fed no record.
    pub fn new(alloc: Global) -> Result<Follower, AllocError>
        ensures { IfOk result (λ follower. follower ≡ unfed) }
    {
        Ok(Follower {
            alloc,
            applied: Vec::new(alloc),
            kept: Vec::new(alloc),
            versions: Vec::new(alloc),
            names: Dict::new(alloc, MOST_TERMS)?,
        })
    }

    /// How many records were applied.
    pub fn version(&self) -> u64
        ensures number { result ≡ version_of self.now }
        ensures bound { result < 2 ^ 63 }
    {
        self.applied.len() as u64
    }

    // The record under a number.
    fn under(&self, number: u64) -> Option<&Record>
        ensures { MatchOption result ((other : RecordData) → IsThere self.now other → other.number ≢ number)
            (λ found. IsThere self.now found.now × (found.now.number ≡ number)) }
    {
        match applied_under(&self.applied, number) {
            Some(found) => Some(found),
            None => kept_under(&self.kept, number),
        }
    }

    // How a record stands to those that are there.
    fn standing(&self, next: &Record) -> Standing
        ensures { StandsAs self.now next.now result }
    {
        match self.under(next.number) {
            Some(found) => {
                if are_same(found, next) {
                    Standing::Known
                } else {
                    Standing::Differs
                }
            }
            None => {
                if next.number == 0 || next.number - 1 >= self.version() + MOST_AHEAD {
                    Standing::Outside
                } else {
                    Standing::New
                }
            }
        }
    }

    // The names with those of a record.
    fn names_with(&self, next: &Record) -> Result<Dict, NameFault>
        ensures { MatchResult result
            (λ names. AreNamesWith self.now next.now names × (count_with self.now next.now ≤ most_terms))
            (λ fault. IsFull self.now next.now fault) }
    {
        let mut names = self.names.share()?;
        let terms = terms_of(self.alloc, next)?;
        let _ = names.name_all(&terms)?;
        Ok(names)
    }

    // The graphs of a version that is there.
    fn version_at(&self, version: u64) -> Result<Version, AllocError>
        requires { version ≤ version_of self.now }
        ensures { IfOk result (IsVersion self.now.terms (data_of (take version self.now.applied)) (shapes_of (take version self.now.applied))) }
    {
        if version == 0 {
            return Ok(Version::first(self.alloc));
        }
        let found = self.versions[(version - 1) as usize].share()?;
        Ok(found)
    }

    // Keeps a record that is ahead.
    fn keep(&mut self, names: Dict, next: Record) -> Result<(), AllocError>
        requires taken { IsTaken self.old next }
        requires ahead { version_of self.old + 1 < next.number }
        requires names { AreNamesWith self.old next names }
        ensures ok { OnOk result (self.new ≡ with_kept self.old next) }
        ensures err { OnErr result (self.new ≡ self.old) }
    {
        put(&mut self.kept, next)?;
        self.names = names;
        Ok(())
    }

    // Applies a record with the kept ones that follow it, whose versions were made.
    fn advance(
        &mut self,
        names: Dict,
        next: Record,
        run: AppliedRecords,
    ) -> Result<Option<u64>, AllocError>
        requires { CanAdvance self.old next names run.versions run.dropped }
        ensures ok { IfOk result (λ dropped. IsApplied self.old next dropped self.new) }
        ensures err { OnErr result (self.new ≡ self.old) }
    {
        let (mut more, dropped) = run.into_parts();
        let moved = more.len() - 1;
        self.applied.reserve(more.len())?;
        self.versions.append(&mut more)?;
        move_run(&mut self.kept, &mut self.applied, next, moved, &dropped);
        self.names = names;
        Ok(dropped)
    }

    // Answers a record that follows the newest version.
    fn apply(&mut self, names: Dict, next: Record) -> Result<Fed, AllocError>
        requires taken { IsTaken self.old next }
        requires follows { next.number ≡ version_of self.old + 1 }
        requires names { AreNamesWith self.old next names }
        ensures ok { IfOk result (λ fed. Feeds self.old next fed self.new) }
        ensures err { OnErr result (self.new ≡ self.old) }
    {
        let number = next.number;
        let newest = self.version_at(self.version())?;
        match version_after(self.alloc, &names, &newest, &next)? {
            Outcome::Misfit(triple) => Ok(Fed::Misfit { number, triple }),
            Outcome::Next(first) => {
                let run = run_on(self.alloc, &names, number, &first, &self.kept)?;
                let dropped = self.advance(names, next, run)?;
                let version = self.version();
                Ok(Fed::Applied { version, dropped })
            }
        }
    }

    // Answers a record that is new and within the window.
    fn accept(&mut self, next: Record) -> Result<Fed, AllocError>
        requires new { IsNew self.old next }
        requires inside { IsOutside self.old next → ⊥ }
        ensures ok { IfOk result (λ fed. Feeds self.old next fed self.new) }
        ensures err { OnErr result (self.new ≡ self.old) }
    {
        self.recall_kept();
        let version = self.version();
        let names = match self.names_with(&next) {
            Ok(names) => names,
            Err(NameFault::Full { count }) => return Ok(Fed::Full { count }),
            Err(NameFault::Memory) => return Err(AllocError),
        };
        if next.number - 1 > version {
            self.keep(names, next)?;
            return Ok(Fed::Waiting { version });
        }
        self.apply(names, next)
    }

    /// Feeds the follower a record, and gives its answer. Want of memory leaves all as it was.
    pub fn feed(&mut self, next: Record) -> Result<Fed, AllocError>
        ensures ok { IfOk result (λ fed. Feeds self.old next fed self.new) }
        ensures err { OnErr result (self.new ≡ self.old) }
    {
        match self.standing(&next) {
            Standing::Differs => Ok(Fed::Differs {
                number: next.number,
            }),
            Standing::Known => Ok(Fed::Known {
                version: self.version(),
            }),
            Standing::Outside => Ok(Fed::Window {
                version: self.version(),
            }),
            Standing::New => self.accept(next),
        }
    }

    /// What the leader had after its first commits, so many, where they were all applied. It copies no
    /// triple, and what is served stays as it is.
    ///
    /// `Unserved` comes exactly where the version is over the newest one.
    pub fn at(&self, version: u64) -> Result<Served, AtFault>
        ensures { MatchResult result (λ served. IsServed self.now version served) (λ fault. IsUnserved self.now version fault) }
    {
        let newest = self.version();
        if version > newest {
            return Err(AtFault::Unserved { version: newest });
        }
        let (graph, shapes) = self.version_at(version)?.into_parts();
        Ok(Served {
            version,
            graph,
            names: self.names.share()?,
            shapes,
        })
    }

    /// What a follower keeps. It does nothing: its contract is what the type keeps.
    pub fn recall_kept(&self)
        ensures { IsKept self.now }
    {
        let _ = &self.alloc;
    }
}
