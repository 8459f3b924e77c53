//! What each kind of step tells the caller that makes it.
ghost use Rattle.std.specs.Prelude.{ℕ};

use crate::entries::Entries;
use crate::view::View;
use atomic_table::{Join, Play, Split};
use std::marker::{Brand, PhantomData};

/// A ticket is drawn.
pub struct Draw;

impl<S: Entries> Play<Option<S>, View<S::Entry, S::Plain>> for Draw {
    ghost use Rattle.turn_lock.specs.Steps.{Draws};

    ghost then = { Draws };
}

/// A ticket is drawn if it is the one that is looked for.
pub struct DrawThis;

impl<S: Entries> Play<Option<S>, View<S::Entry, S::Plain>> for DrawThis {
    ghost use Rattle.turn_lock.specs.Steps.{DrawsThis};

    ghost then = { DrawsThis };
}

/// It is noted whether a caller may be asleep.
pub struct Note;

impl<S: Entries> Play<Option<S>, View<S::Entry, S::Plain>> for Note {
    ghost use Rattle.turn_lock.specs.Steps.{Notes};

    ghost then = { Notes };
}

/// A look at the ticket that is served. Where it is the caller's own, the caller takes the state.
pub struct SeeServed;

impl<S: Entries> Play<Option<S>, View<S::Entry, S::Plain>> for SeeServed {
    ghost use Rattle.turn_lock.specs.Meaning.{meaning};
    ghost use Rattle.turn_lock.specs.Steps.{SeesServed};

    ghost then = { SeesServed (meaning S.entries S.number S.is_zero_shared S.plain S.comes) };
}

/// The turn ends, and the state is given back.
pub struct End;

impl<S: Entries> Play<Option<S>, View<S::Entry, S::Plain>> for End {
    ghost use Rattle.turn_lock.specs.Meaning.{meaning};
    ghost use Rattle.turn_lock.specs.Steps.{Ends};

    ghost then = { Ends (meaning S.entries S.number S.is_zero_shared S.plain S.comes) };
}

/// A caller that has met another learns what its front has.
pub struct Compare;

impl<S: Entries> Play<Option<S>, View<S::Entry, S::Plain>> for Compare {
    ghost use Rattle.turn_lock.specs.Meaning.{meaning};
    ghost use Rattle.turn_lock.specs.Steps.{Compares};

    ghost then = { Compares (meaning S.entries S.number S.is_zero_shared S.plain S.comes) };
}

/// The number that goes to a new caller. Each call picks it.
pub trait Giving {
    ghost number: { ℕ };
}

impl Giving for Brand {
    ghost number = { 0 };
}

/// A caller is split off, and takes the number.
pub struct SplitOff<G> {
    of: PhantomData<G>,
}

impl<E, D, G: Giving> Split<View<E, D>> for SplitOff<G> {
    ghost use Rattle.turn_lock.specs.Steps.{kept_view, new_view};

    ghost left = { λ view. kept_view G.number view };

    ghost right = { λ view. new_view G.number view };
}

/// A caller is met.
pub struct Meet;

impl<E, D> Join<View<E, D>> for Meet {
    ghost use Rattle.turn_lock.specs.Steps.{met_view, spent_view};

    ghost both = { met_view };

    ghost spent = { spent_view };
}
