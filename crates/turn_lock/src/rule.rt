//! The lock's rule over its table.
use crate::entries::Entries;
use crate::view::View;
use atomic_table::{Seat, Table, TableRule};
use std::alloc::Global;
use std::marker::PhantomData;
use std::snapshot::Snapshot;

/// What is fixed when the lock is made.
#[derive(Drop)]
pub struct Terms<S> {
    pub seats: u64,
    /// The state at the start.
    pub start: Snapshot<S>,
}

/// Words 0 and 1 are the ticket served next and the ticket given next. Word 2 isn't 0 where a caller noted that it sleeps; the
/// rule doesn't speak of it. The slot holds the state.
pub struct TurnRule<S> {
    of: PhantomData<S>,
}

impl<S: Entries> TableRule<Option<S>, View<S::Entry, S::Plain>, Terms<S>> for TurnRule<S> {
    ghost use Rattle.std.specs.Prelude.{Some};
    ghost use Rattle.turn_lock.specs.Meaning.{meaning};
    ghost use Rattle.turn_lock.specs.Rule.{Kept, first_view};

    ghost holds = { λ terms s. Kept (meaning S.entries S.number S.is_zero_shared S.plain S.comes) (Some (S.plain terms.start.value)) terms.seats s };

    ghost first = { λ terms. first_view (Some (S.plain terms.start.value)) terms.seats };
}

pub type Board<S> = Table<
    Option<S>,
    View<<S as Entries>::Entry, <S as Entries>::Plain>,
    Terms<S>,
    TurnRule<S>,
    Global,
>;

pub type TurnPlace<S> = Seat<Option<S>, View<<S as Entries>::Entry, <S as Entries>::Plain>>;
