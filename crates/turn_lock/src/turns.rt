//! The lock, the passes of those who wait for nothing, and the turns.
ghost use Rattle.std.specs.Prelude.{◌≡◌, ◌+◌, ◌-◌, ◌<◌, ◌++◌, ◌∷◌, [], Some, true, IfErr, IfOk, MatchBool, MatchResult};
ghost use Rattle.turn_lock.specs.History.{known_after, MayAdd, OthersAdded};
ghost use Rattle.turn_lock.specs.Meaning.{ComesFrom};
ghost use Rattle.turn_lock.specs.Callers.{kept_caller, new_caller, met_caller};
ghost use Rattle.turn_lock.specs.Steps.{HasTicket};
ghost use Rattle.turn_lock.specs.declared.view.Stage.TheVariants.{Idle};

use crate::entries::Entries;
use crate::rule::{Board, Terms, TurnPlace};
use crate::steps::{Compare, Draw, DrawThis, End, Giving, Meet, Note, SeeServed, SplitOff};
use atomic_table::Table;
use std::alloc::{AllocError, Global};
use std::hint::spin_loop;
use std::marker::{Brand, Model};
use std::snapshot::Snapshot;
use std::sync::Wait;
use std::thread;
use std::time::Duration;

// How often a caller looks before it sleeps where others sleep already, and where none does. A look takes some ten nanoseconds.
const LOOKS_BESIDE_SLEEPERS: u32 = 1_000;

const LOOKS_BEFORE_SLEEP: u32 = 100_000;

// How often it looks in all before it draws a ticket that isn't served yet.
const LOOKS_BEFORE_TICKET: u32 = 1_000_000;

// The longest sleep. The end of a turn wakes a sleeper long before.
const MILLISECONDS_OF_SLEEP: u64 = 100;

/// A lock that its callers enter in turns. A clause sees which lock it is, and how many callers it has at most.
#[derive(Drop)]
pub struct Turns<S: Entries> {
    board: Board<S>,
}

impl<S: Entries> Model for Turns<S> {
    ghost use Rattle.std.specs.Prelude.{◌≡◌, ◌^◌, ◌<◌};
    ghost use Rattle.turn_lock.specs.Callers.{Lock};

    ghost Value = { Lock };

    ghost view = { λ t. record { id = t.board.shared.table_id; seats = t.board.shared.key.seats } };

    ghost invariant = { λ t. (t.board.shared.table_id.words ≡ 3) × (t.board.shared.table_id.slots ≡ 1) × (t.board.shared.key.seats < 2 ^ 32) };
}

/// A caller that has no turn. It can't be copied, and it isn't to be dropped where `close` is to follow.
#[derive(Drop)]
pub struct Pass<S: Entries> {
    place: TurnPlace<S>,
    spare: u32,
}

impl<S: Entries> Model for Pass<S> {
    ghost use Rattle.std.specs.Prelude.{◌≡◌, []};
    ghost use Rattle.turn_lock.specs.declared.view.Stage.TheVariants.{Idle};
    ghost use Rattle.turn_lock.specs.Callers.{Caller};

    ghost Value = { Caller S.Entry S.Plain };

    ghost view = { λ p. record { lock = p.place.table_id; known = p.place.me.0.known; spare = p.place.me.0.spare; opening = p.place.me.0.opening; own = p.place.me.0.own } };

    ghost invariant = { λ p. (p.place.me.0.stage ≡ Idle) × (p.place.me.1 ≡ []) × (p.place.me.0.olds ≡ []) × (p.place.me.0.spare ≡ p.spare) };
}

/// A caller whose turn it is.
pub struct Held<S: Entries> {
    place: TurnPlace<S>,
    spare: u32,
}

impl<S: Entries> Model for Held<S> {
    ghost use Rattle.std.specs.Prelude.{◌≡◌, [], ◌∷◌, None, true};
    ghost use Rattle.turn_lock.specs.Steps.{is_served};
    ghost use Rattle.turn_lock.specs.Callers.{Caller};

    ghost Value = { Caller S.Entry S.Plain };

    ghost view = { λ h. record { lock = h.place.table_id; known = h.place.me.0.known; spare = h.place.me.0.spare; opening = h.place.me.0.opening; own = h.place.me.0.own } };

    ghost invariant = { λ h. (is_served h.place.me.0.stage ≡ true) × (h.place.me.1 ≡ (0, None) ∷ []) × (h.place.me.0.olds ≡ []) × (h.place.me.0.spare ≡ h.spare) };
}

/// The pass can split no other off.
#[derive(Debug, Drop)]
pub struct NoSeat;

impl<S: Entries> Turns<S> {
    /// A lock for so many callers at a time, and the first caller's pass, which may split off all others.
    pub fn new(alloc: Global, state: S, seats: u32) -> Result<(Turns<S>, Pass<S>), AllocError>
    where
        S: Drop,
        requires some { 0 < seats }
        requires fresh { S.entries state ≡ [] }
        ensures seats { IfOk result (λ r. r.0.seats ≡ seats) }
        ensures pass { IfOk result (λ r. r.1 ≡ record { lock = r.0.id; known = record { front = []; numbers = []; first = true }; spare = seats - 1; opening = Some (S.plain state); own = [] }) }
    {
        match Turns::over(alloc, state, seats) {
            Ok(lock) => Ok(lock),
            Err(_) => Err(AllocError),
        }
    }

    /// A lock for so many callers at a time, and the first caller's pass, which may split off all others. Where memory runs out the
    /// state is given back.
    pub fn over(alloc: Global, state: S, seats: u32) -> Result<(Turns<S>, Pass<S>), S>
    where
        S: Drop,
        requires some { 0 < seats }
        requires fresh { S.entries state ≡ [] }
        ensures seats { IfOk result (λ r. r.0.seats ≡ seats) }
        ensures pass { IfOk result (λ r. r.1 ≡ record { lock = r.0.id; known = record { front = []; numbers = []; first = true }; spare = seats - 1; opening = Some (S.plain state); own = [] }) }
        ensures back { IfErr result (λ back. back ≡ state) }
    {
        let Ok(mut slots) = Vec::with_capacity(alloc, 1) else {
            return Err(state);
        };
        let terms = Terms {
            seats: u64::from(seats),
            start: Snapshot::of(&state),
        };
        slots.push_reserved(Some(state));
        match Table::new(alloc, &[0, 0, 0], slots, &terms) {
            Ok((board, place)) => Ok((
                Turns { board },
                Pass {
                    place,
                    spare: seats - 1,
                },
            )),
            Err(refused) => {
                let mut slots = refused.slots;
                let Some(Some(state)) = slots.pop() else {
                    unreachable!()
                };
                Err(state)
            }
        }
    }

    fn split_giving<G: Giving>(
        &self,
        pass: Pass<S>,
        give: u32,
    ) -> Result<(Pass<S>, Pass<S>), (Pass<S>, NoSeat)>
        requires lock { pass.lock ≡ self.now.id }
        requires first { pass.known.first ≡ true }
        requires number { give ≡ G.number }
        ensures { MatchResult result (λ r. (0 < pass.spare) × (r.0 ≡ kept_caller give pass) × (r.1 ≡ new_caller give pass)) (λ e. (pass.spare ≡ 0) × (e.0 ≡ pass)) }
    {
        let _ = give;
        let Pass { mut place, spare } = pass;
        if spare == 0 {
            return Err((Pass { place, spare }, NoSeat));
        }
        let new = self.board.shared.split_seat::<SplitOff<G>>(&mut place);
        Ok((
            Pass {
                place,
                spare: spare - 1,
            },
            Pass {
                place: new,
                spare: 0,
            },
        ))
    }

    /// Splits another caller off from the first one. The new pass, the second, has seen as much, has made no entry, and
    /// takes the number that is given, where the first pass has it.
    pub fn split(&self, pass: Pass<S>, give: u32) -> Result<(Pass<S>, Pass<S>), (Pass<S>, NoSeat)>
        requires lock { pass.lock ≡ self.now.id }
        requires first { pass.known.first ≡ true }
        ensures { MatchResult result (λ r. (0 < pass.spare) × (r.0 ≡ kept_caller give pass) × (r.1 ≡ new_caller give pass)) (λ e. (pass.spare ≡ 0) × (e.0 ≡ pass)) }
    {
        self.split_giving::<Brand>(pass, give)
    }

    // Draws the ticket that is served, if nobody has it.
    fn draw_served(&self, place: &mut TurnPlace<S>, serving: u64) -> bool
        requires lock { place.old.table_id ≡ self.now.id }
        requires idle { (place.old.me.0.stage ≡ Idle) × (place.old.me.1 ≡ []) }
        ensures table { place.new.table_id ≡ place.old.table_id }
        ensures ticket { MatchBool result (HasTicket place.old.me serving place.new.me) (place.new.me ≡ place.old.me) }
    {
        let shared = &self.board.shared;
        let next = serving.wrapping_add(1);
        shared.peek(1) == serving
            && shared.compare_exchange::<DrawThis>(place, 1, serving, next) == serving
    }

    // Sleeps while this ticket is served, until the end of a turn wakes the caller. Word 2 says so before. It says so again
    // behind, for others that may be asleep, since the turn that woke the caller has set it back.
    fn sleep<R: Wait>(&self, rt: &R, place: &mut TurnPlace<S>, serving: u64)
        requires { place.old.table_id ≡ self.now.id }
        ensures { (place.new.table_id ≡ place.old.table_id) × (place.new.me ≡ place.old.me) }
    {
        let shared = &self.board.shared;
        let low = (serving % (1 << 32)) as u32;
        shared.store::<Note>(place, 2, 1);
        shared.park_timeout(rt, 0, low, Duration::from_millis(MILLISECONDS_OF_SLEEP));
        shared.store::<Note>(place, 2, 1);
    }

    // Whether a caller that has looked so often in vain sleeps now. To fall asleep and to be woken takes longer than most turns,
    // so that none does before long; but where others sleep there are more callers than processors, and it makes room for them.
    fn is_tired(&self, look: u32) -> bool {
        look % LOOKS_BESIDE_SLEEPERS == 0
            && (look % LOOKS_BEFORE_SLEEP == 0 || self.board.shared.peek(2) != 0)
    }

    // Draws a ticket: where nobody has a turn the one that is served, so that a caller that is awake needn't wait for one that
    // sleeps. A caller that looked very often in vain draws the next one, and then no other comes before it.
    fn draw<R: Wait>(&self, rt: &R, place: &mut TurnPlace<S>) -> u64
        requires lock { place.old.table_id ≡ self.now.id }
        requires idle { (place.old.me.0.stage ≡ Idle) × (place.old.me.1 ≡ []) }
        ensures table { place.new.table_id ≡ place.old.table_id }
        ensures ticket { HasTicket place.old.me result place.new.me }
    {
        for look in 1..=LOOKS_BEFORE_TICKET {
            let serving = self.board.shared.peek(0);
            if self.draw_served(place, serving) {
                return serving;
            }
            if self.is_tired(look) {
                self.sleep(rt, place, serving);
            } else {
                spin_loop();
            }
        }
        self.board.shared.fetch_add::<Draw>(place, 1, 1)
    }

    /// Waits for the caller's turn, and takes the state. The caller has then seen the whole history.
    ///
    /// The turn is the next one where nobody has a turn; else the caller looks again, for about a millisecond where no other
    /// sleeps, and then sleeps until the end of a turn wakes it. Callers don't come in the order in which they called.
    pub fn enter<R: Wait>(&self, rt: &R, pass: Pass<S>) -> (Held<S>, S)
        requires { pass.lock ≡ self.now.id }
        ensures held { result.0 ≡ record pass { known = record pass.known { front = S.entries result.1 } } }
        ensures added { OthersAdded S.number S.is_zero_shared pass.known (S.entries result.1) }
        ensures comes { ComesFrom S.comes pass.opening (S.plain result.1) }
    {
        let Pass { mut place, spare } = pass;
        let ticket = self.draw(rt, &mut place);
        let shared = &self.board.shared;
        for _ in rt.forever() {
            let serving = shared.load::<SeeServed>(&mut place, 0);
            if serving == ticket {
                let state = shared.exchange(&mut place, 0, None).unwrap();
                return (Held { place, spare }, state);
            }
            thread::yield_now();
        }
        unreachable!()
    }

    /// Ends a turn: gives the state back, which stands for one entry more. The entry stands under a number of the
    /// caller's, or under 0 where that is everybody's; the first caller's may also stand under a new number, which is
    /// its own from here, or under 0. The list of the entries that the caller made grows by it.
    pub fn leave(&self, held: Held<S>, state: S) -> Pass<S>
        requires lock { held.lock ≡ self.now.id }
        requires entry { (e : S.Entry) × (S.entries state ≡ held.known.front ++ e ∷ []) × MayAdd S.number S.is_zero_shared held.known e }
        requires comes { ComesFrom S.comes held.opening (S.plain state) }
        ensures { (e : S.Entry) → S.entries state ≡ held.known.front ++ e ∷ [] → result ≡ record held { known = known_after S.number e (S.entries state) held.known; own = held.own ++ e ∷ [] } }
    {
        let Held { mut place, spare } = held;
        let shared = &self.board.shared;
        // Word 2 is set back before the turn ends: behind it a caller may note there that it waits for the next one.
        let asleep = shared.swap::<Note>(&mut place, 2, 0) != 0;
        let was = shared.exchange(&mut place, 0, Some(state));
        let None = was else { unreachable!() };
        shared.fetch_add::<End>(&mut place, 0, 1);
        if asleep || shared.peek(2) != 0 {
            shared.wake_one(0);
        }
        Pass { place, spare }
    }

    /// The first caller takes in what another has seen, which ends: its numbers, the longer front, and the entries that it
    /// made, behind its own. Another can be split off in its place.
    pub fn meet(&self, pass: Pass<S>, other: Pass<S>) -> Pass<S>
        requires lock { pass.lock ≡ self.now.id }
        requires first { pass.known.first ≡ true }
        requires other { other.lock ≡ self.now.id }
        ensures met { result ≡ met_caller pass other }
        ensures this { OthersAdded S.number S.is_zero_shared pass.known result.known.front }
        ensures that { OthersAdded S.number S.is_zero_shared other.known result.known.front }
    {
        let Pass { mut place, spare } = pass;
        let Pass {
            place: gone,
            spare: _,
        } = other;
        let shared = &self.board.shared;
        shared.join_seat::<Meet>(&mut place, gone);
        shared.load::<Compare>(&mut place, 0);
        Pass {
            place,
            spare: spare + 1,
        }
    }

    /// Ends the lock once all other callers were met, and gives the state back, which stands for the whole history.
    pub fn close(self, pass: Pass<S>) -> S
        requires lock { pass.lock ≡ self.id }
        requires all { pass.spare + 1 ≡ self.seats }
        ensures entries { S.entries result ≡ pass.known.front }
        ensures comes { ComesFrom S.comes pass.opening (S.plain result) }
    {
        let Turns { board } = self;
        let Pass { place, spare: _ } = pass;
        let mut closed = board.close_with(place);
        let state = closed.take(0).unwrap();
        closed.free();
        state
    }
}
