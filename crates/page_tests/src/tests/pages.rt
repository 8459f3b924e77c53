//! Sets of keys against vectors.
ghost use Rattle.std.specs.Prelude.{◌≡◌, IfOk};

use crate::tests::rows::{same, same_lists};
use collections::ExactClone;
use page_index::Pages;
use std::alloc::{AllocError, Global};
use std::process::Abort;
use std::test::Fail;

// One number as a key.
#[derive(Clone, Copy, Debug, PartialEq, Eq, PartialOrd, Ord)]
pub(crate) struct Number(pub(crate) u32);

impl ExactClone for Number {
    ghost use Rattle.std.proofs.Common.{rules};

    ghost clone_is_equal = { Prim.search rules };
}

fn numbers(alloc: Global, keys: &[u32]) -> Result<Pages<Number>, AllocError> {
    let mut pages = Pages::new(alloc);
    for key in keys {
        let _ = pages.insert(Number(*key))?;
    }
    Ok(pages)
}

fn is_list(rt: &impl Abort, pages: &Pages<Number>, want: &[u32]) -> Result<(), AllocError> {
    let keys = pages.keys()?;
    same(rt, "keys", keys.len(), want.len());
    same(rt, "length", pages.len(), want.len());
    for (key, number) in keys.iter().zip(want.iter()) {
        same(rt, "a key", key.0, *number);
    }
    Ok(())
}

// Two keys are inserted one after another.
fn inserted(
    pages: &mut Pages<Number>,
    first: u32,
    second: u32,
) -> Result<(bool, bool), AllocError> {
    let is_new = pages.insert(Number(first))?;
    Ok((is_new, pages.insert(Number(second))?))
}

// Two keys are removed one after another.
fn removed(pages: &mut Pages<Number>, first: u32, second: u32) -> Result<(bool, bool), AllocError> {
    let was_there = pages.remove(&Number(first))?;
    Ok((was_there, pages.remove(&Number(second))?))
}

// Keys come and go in a set, and a share of it stays as it was.
#[test]
fn a_share_stays(rt: HostRuntime) -> Result<(), Fail> {
    let mut pages = numbers(rt.alloc(), &[5, 2, 9, 7])?;
    let share = pages.share()?;
    same(&rt, "inserted", inserted(&mut pages, 5, 1)?, (false, true));
    same(&rt, "removed", removed(&mut pages, 7, 7)?, (true, false));
    is_list(&rt, &pages, &[1, 2, 5, 9])?;
    is_list(&rt, &share, &[2, 5, 7, 9])?;
    let part = share.range(&Number(3), &Number(9))?;
    same(&rt, "a range", part.len(), 2);
    Ok(())
}

// The keys that a loop over them meets.
fn met(alloc: Global, pages: &Pages<Number>) -> Result<Vec<Number>, AllocError>
    ensures { IfOk result (λ met. met.items ≡ pages.now) }
{
    let mut met = Vec::new(alloc);
    for key in pages.iter() {
        met.push(*key)?;
    }
    Ok(met)
}

// Both sets have the same keys.
fn is_list_of(rt: &impl Abort, whole: &Pages<Number>, pages: &Pages<Number>) -> Result<(), Fail> {
    Ok(same_lists(rt, "keys", whole.keys(), pages.keys())?)
}

#[test]
fn a_loop_meets_each_key(rt: HostRuntime) -> Result<(), Fail> {
    let mut pages = Pages::new(rt.alloc());
    for number in 0..400u32 {
        let _ = pages.insert(Number(number * 7 % 400))?;
    }
    let met = met(rt.alloc(), &pages)?;
    same(&rt, "length", met.len(), 400);
    for (key, number) in met.iter().zip(0..400u32) {
        same(&rt, "a key", key.0, number);
    }
    Ok(())
}

// The numbers below 5,000, inserted in no order.
fn mixed(alloc: Global) -> Result<Pages<Number>, AllocError> {
    let mut pages = Pages::new(alloc);
    for number in 0..5000u32 {
        let _ = pages.insert(Number(number * 7 % 5000))?;
    }
    Ok(pages)
}

// A set with the same keys, built at once.
fn built_at_once(alloc: Global, pages: &Pages<Number>) -> Result<Pages<Number>, AllocError> {
    let keys = pages.keys()?;
    Pages::from_sorted(alloc, &keys)
}

// Takes one number out of a set, and puts another in.
fn change(pages: &mut Pages<Number>, number: u32) -> Result<(bool, bool), AllocError> {
    let removed = pages.remove(&Number(number))?;
    let added = pages.insert(Number(number.wrapping_mul(3)))?;
    Ok((removed, added))
}

// The change has the same answers in both.
fn same_change(
    rt: &impl Abort,
    whole: &mut Pages<Number>,
    pages: &mut Pages<Number>,
    number: u32,
) -> Result<(), AllocError> {
    let found = change(whole, number)?;
    same(rt, "a change", found, change(pages, number)?);
    Ok(())
}

// A set that is built at once goes on as one that grew by insertions.
#[test]
fn a_set_at_once_goes_on(rt: HostRuntime) -> Result<(), Fail> {
    let mut pages = mixed(rt.alloc())?;
    let mut whole = built_at_once(rt.alloc(), &pages)?;
    for number in 0..4000u32 {
        same_change(&rt, &mut whole, &mut pages, number)?;
    }
    same(&rt, "length", whole.len(), pages.len());
    is_list_of(&rt, &whole, &pages)
}
