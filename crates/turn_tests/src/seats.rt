//! Seats that are given and taken back.
use std::test::*;
use turn_lock::{Entries, NoSeat, Turns};

/// A state that stands for no entry.
#[derive(Drop)]
struct Blank;

impl Entries for Blank {
    ghost use Rattle.std.specs.Prelude.{[], true};

    type Entry = ();

    type Plain = ();

    ghost entries = { λ _. [] };

    ghost number = { λ _. 0 };

    ghost is_zero_shared = { true };

    ghost plain = { λ _. tt };

    ghost comes = { λ _ _. Unit {0} };

    ghost comes_from_itself = { λ _ _. tt };
}

#[test]
fn two_seats(rt: HostRuntime) -> Result<(), Fail> {
    let (turns, first) = Turns::new(rt.alloc(), Blank, 2)?;
    let Ok((first, second)) = turns.split(first, 1) else {
        return Err(Fail::new("a seat is left"));
    };
    let Err((first, NoSeat)) = turns.split(first, 2) else {
        return Err(Fail::new("no seat is left"));
    };
    let first = turns.meet(first, second);
    let Ok((first, third)) = turns.split(first, 3) else {
        return Err(Fail::new("a seat is left again"));
    };
    let first = turns.meet(first, third);
    let Blank = turns.close(first);
    Ok(())
}
