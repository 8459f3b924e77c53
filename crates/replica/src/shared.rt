// What the lock of a replica passes on.
ghost use Rattle.std.specs.Prelude.{◌≡◌, [], IfOk, MatchResult, OnErr};
ghost use Rattle.follower.specs.Followed.{Feeds, IsServed, unfed, version_of};
ghost use Rattle.replica.specs.declared.entry.Entry.{Entry as EntryData};
ghost use Rattle.replica.specs.Entries.{Adds, Leads};

use crate::copying::copy_of_answer;
use crate::entry::Entry;
use crate::history::{History, Slip};
use follower::{Fed, Follower, Served};
use record_text::Record;
use std::alloc::{AllocError, Global};
use std::marker::Model;
use turn_lock::Entries;

/// The follower that turns pass on, with the entries that led to it.
pub struct Shared {
    follower: Follower,
    history: History,
}

// Written by hand, so that what owns one calls it in place of having it written out.
impl Drop for Shared {
    fn drop(self) {
        let Shared {
            follower: _,
            history: _,
        } = self;
    }
}

impl Model for Shared {
    ghost use Rattle.follower.specs.Followed.{unfed};
    ghost use Rattle.replica.specs.Entries.{Leads, Replicated};

    ghost Value = { Replicated };

    ghost view = { λ s. record { state = s.follower; entries = s.history } };

    ghost invariant = { λ s. Leads unfed s.history s.follower };
}

impl Entries for Shared {
    ghost use Rattle.std.specs.Prelude.{true};
    ghost use Rattle.replica.specs.Entries.{number_of};

    type Entry = Entry;

    type Plain = ();

    ghost entries = { λ s. s.entries };

    ghost number = { number_of };

    ghost is_zero_shared = { true };

    ghost plain = { λ _. tt };

    ghost comes = { λ _ _. Unit {0} };

    ghost comes_from_itself = { λ _ _. tt };
}

// The answer to a record, twice. Want of memory leaves the follower as it was.
fn answer(follower: &mut Follower, next: Record) -> Result<(Fed, Fed), AllocError>
    ensures ok { IfOk result (λ pair. Feeds follower.old next pair.0 follower.new × (pair.1 ≡ pair.0)) }
    ensures err { OnErr result (follower.new ≡ follower.old) }
{
    let fed = follower.feed(next)?;
    let told = copy_of_answer(&fed)?;
    Ok((fed, told))
}

impl Shared {
    /// A follower that was fed no record.
    pub(crate) fn new(alloc: Global) -> Result<Shared, AllocError>
        ensures { IfOk result (λ s. s ≡ record { state = unfed; entries = [] }) }
    {
        Ok(Shared {
            follower: Follower::new(alloc)?,
            history: History::new(),
        })
    }

    /// Feeds the follower a record, of which the entry has a copy.
    pub(crate) fn feed(&mut self, slip: Slip, next: Record, copy: Record) -> Result<Fed, AllocError>
        requires { copy ≡ next }
        ensures answer { MatchResult result (λ fed. Adds self.old (Entry.Feed next fed) self.new) (λ _. Adds self.old Entry.Void self.new) }
        ensures one { (e : EntryData) × Adds self.old e self.new }
        ensures led { Leads unfed self.old.entries self.old.state }
    {
        match answer(&mut self.follower, next) {
            Ok((fed, told)) => {
                self.history.push(slip, Entry::Feed(copy, told));
                Ok(fed)
            }
            Err(_) => {
                self.history.push(slip, Entry::Void);
                Err(AllocError)
            }
        }
    }

    /// Serves the newest version, whatever the follower is fed later.
    pub(crate) fn read(&mut self, slip: Slip) -> Result<Served, AllocError>
        ensures answer { MatchResult result
            (λ served. Adds self.old (Entry.Read served.version) self.new × IsServed self.old.state served.version served)
            (λ _. Adds self.old Entry.Void self.new) }
        ensures one { (e : EntryData) × Adds self.old e self.new }
        ensures led { Leads unfed self.old.entries self.old.state }
    {
        let version = self.follower.version();
        match self.follower.at(version) {
            Ok(served) => {
                self.history.push(slip, Entry::Read(version));
                Ok(served)
            }
            // The newest version is always there: memory ran out.
            Err(_) => {
                self.history.push(slip, Entry::Void);
                Err(AllocError)
            }
        }
    }

    /// The follower and the entries that led to it.
    pub(crate) fn into_parts(self) -> (Follower, History)
        ensures follower { result.0 ≡ self.state }
        ensures history { result.1 ≡ self.entries }
        ensures leads { Leads unfed result.1 result.0 }
    {
        let Shared { follower, history } = self;
        (follower, history)
    }
}
