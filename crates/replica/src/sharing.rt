// The replica.
ghost use Rattle.std.specs.Prelude.{◌≡◌, ◌+◌, ◌-◌, ◌<◌, true, [], Some, IfOk, MatchResult};
ghost use Rattle.turn_lock.specs.Callers.{kept_caller, met_caller, new_caller};
ghost use Rattle.turn_lock.specs.History.{OthersAdded};
ghost use Rattle.follower.specs.Followed.{unfed};
ghost use Rattle.replica.specs.Entries.{Leads, number_of};
ghost use Rattle.replica.specs.Turns.{Fails, Reads, Turn};

use crate::copying::copy_of_record;
use crate::entry::Entry;
use crate::history::{History, Slip};
use crate::shared::Shared;
use follower::{Fed, Follower, Served};
use record_text::Record;
use std::alloc::{AllocError, Global};
use std::marker::Model;
use std::sync::Wait;
use turn_lock::{NoSeat, Pass, Turns};

/// A follower of a leader's records that its callers enter in turns. Contracts see which lock it has, and how many callers it
/// has at most.
#[derive(Drop)]
pub struct Replica {
    turns: Turns<Shared>,
    alloc: Global,
}

impl Model for Replica {
    ghost use Rattle.turn_lock.specs.Callers.{Lock};

    ghost Value = { Lock };

    ghost view = { λ r. r.turns };
}

impl Replica {
    /// A follower that was fed no record, for so many callers at a time, and the first caller's pass, which may split off all
    /// others.
    pub fn new(alloc: Global, seats: u32) -> Result<(Replica, Pass<Shared>), AllocError>
        requires { 0 < seats }
        ensures seats { IfOk result (λ r. r.0.seats ≡ seats) }
        ensures pass { IfOk result (λ r. r.1 ≡ record { lock = r.0.id; known = record { front = []; numbers = []; first = true }; spare = seats - 1; opening = Some tt; own = [] }) }
    {
        let shared = Shared::new(alloc)?;
        let (turns, pass) = Turns::new(alloc, shared, seats)?;
        Ok((Replica { turns, alloc }, pass))
    }

    /// Splits another caller off from the first one. The new pass, the second, has seen as much, and has made no entry.
    pub fn split(
        &self,
        pass: Pass<Shared>,
    ) -> Result<(Pass<Shared>, Pass<Shared>), (Pass<Shared>, NoSeat)>
        requires lock { pass.lock ≡ self.now.id }
        requires first { pass.known.first ≡ true }
        ensures { MatchResult result (λ r. (0 < pass.spare) × (r.0 ≡ kept_caller 0 pass) × (r.1 ≡ new_caller 0 pass)) (λ e. (pass.spare ≡ 0) × (e.0 ≡ pass)) }
    {
        self.turns.split(pass, 0)
    }

    /// Waits for the caller's turn, feeds the follower a record, and gives its answer. Where memory runs out before the turn
    /// there is none; in the turn its entry is a void one.
    pub fn feed<R: Wait>(
        &self,
        rt: &R,
        pass: Pass<Shared>,
        next: Record,
    ) -> (Pass<Shared>, Result<Fed, AllocError>)
        requires { pass.lock ≡ self.now.id }
        ensures answer { MatchResult result.1 (λ fed. Turn pass result.0 (Entry.Feed next fed)) (λ _. Fails pass result.0) }
        ensures lock { result.0.lock ≡ pass.lock }
    {
        let Ok(slip) = Slip::new(self.alloc) else {
            return (pass, Err(AllocError));
        };
        let Ok(copy) = copy_of_record(&next) else {
            return (pass, Err(AllocError));
        };
        let (held, mut shared) = self.turns.enter(rt, pass);
        let answer = shared.feed(slip, next, copy);
        (self.turns.leave(held, shared), answer)
    }

    /// Waits for the caller's turn, and serves the newest version, which isn't below any that the caller had seen. It stays as
    /// it is whatever the follower is fed later. Want of memory is as in `feed`.
    pub fn read<R: Wait>(
        &self,
        rt: &R,
        pass: Pass<Shared>,
    ) -> (Pass<Shared>, Result<Served, AllocError>)
        requires { pass.lock ≡ self.now.id }
        ensures answer { MatchResult result.1 (λ served. Reads pass result.0 served) (λ _. Fails pass result.0) }
        ensures lock { result.0.lock ≡ pass.lock }
    {
        let Ok(slip) = Slip::new(self.alloc) else {
            return (pass, Err(AllocError));
        };
        let (held, mut shared) = self.turns.enter(rt, pass);
        let served = shared.read(slip);
        (self.turns.leave(held, shared), served)
    }

    /// The first caller takes in what another has seen, which ends: the longer front, and the entries that it made, behind its
    /// own. Another can be split off in its place.
    pub fn meet(&self, pass: Pass<Shared>, other: Pass<Shared>) -> Pass<Shared>
        requires lock { pass.lock ≡ self.now.id }
        requires first { pass.known.first ≡ true }
        requires other { other.lock ≡ self.now.id }
        ensures met { result ≡ met_caller pass other }
        ensures this { OthersAdded number_of true pass.known result.known.front }
        ensures that { OthersAdded number_of true other.known result.known.front }
    {
        self.turns.meet(pass, other)
    }

    /// Ends the replica once all other callers were met, and gives the follower and all its entries.
    pub fn close(self, pass: Pass<Shared>) -> (Follower, History)
        requires lock { pass.lock ≡ self.id }
        requires all { pass.spare + 1 ≡ self.seats }
        ensures entries { result.1 ≡ pass.known.front }
        ensures leads { Leads unfed result.1 result.0 }
    {
        let Replica { turns, alloc: _ } = self;
        turns.close(pass).into_parts()
    }
}
