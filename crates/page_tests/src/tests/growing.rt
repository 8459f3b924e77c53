//! Growing lists against vectors.
use crate::tests::pages::Number;
use crate::tests::rows::same;
use growing_list::GrowingList;
use std::alloc::AllocError;
use std::process::Abort;
use std::test::Fail;

// Adds a number to a list and to a plain vector.
fn grow(
    list: &mut GrowingList<Number>,
    plain: &mut Vec<Number>,
    number: u32,
) -> Result<(), AllocError> {
    list.push(Number(number))?;
    plain.push(Number(number))?;
    Ok(())
}

// Both hold the same items at the same places.
fn same_items(rt: &impl Abort, list: &GrowingList<Number>, plain: &[Number]) {
    same(rt, "length", list.len(), plain.len());
    for (at, number) in plain.iter().enumerate() {
        same(rt, "an item", list.get(at), Some(number));
    }
    same(rt, "behind the last", list.get(plain.len()), None);
}

// A list and a share of it, which is taken anew at times, grow apart as plain vectors do.
#[test]
fn plain_vectors_agree(rt: HostRuntime) -> Result<(), Fail> {
    let mut list = GrowingList::new(rt.alloc());
    let mut plain = Vec::new(rt.alloc());
    let mut share = list.share()?;
    let mut kept = plain.clone()?;
    let mut seed = 1u32;
    for _ in 0..6000u32 {
        seed = seed.wrapping_mul(1_664_525).wrapping_add(1_013_904_223);
        if (seed >> 8) % 3 == 0 {
            grow(&mut share, &mut kept, seed)?;
        } else {
            grow(&mut list, &mut plain, seed)?;
        }
        if (seed >> 10) % 500 == 0 {
            same_items(&rt, &share, &kept);
            share = list.share()?;
            kept = plain.clone()?;
        }
    }
    same_items(&rt, &share, &kept);
    same_items(&rt, &list, &plain);
    Ok(())
}

// A list has numbers at places, and ends behind the last.
fn has_numbers(rt: &impl Abort, list: &GrowingList<Number>, numbers: &[(usize, u32)], len: usize) {
    for (at, number) in numbers {
        same(rt, "an item", list.get(*at), Some(&Number(*number)));
    }
    same(rt, "length", list.len(), len);
    same(rt, "behind the last", list.get(len), None);
}

// Shares that are taken before a block is full, where it is, and where there is a second, grow apart.
#[test]
fn blocks_grow_apart(rt: HostRuntime) -> Result<(), Fail> {
    let mut list = GrowingList::new(rt.alloc());
    for number in 0..262_143u32 {
        list.push(Number(number))?;
    }
    let mut before = list.share()?;
    list.push(Number(1))?;
    let mut full = list.share()?;
    list.push(Number(2))?;
    let mut behind = list.share()?;
    list.push(Number(3))?;
    before.push(Number(4))?;
    before.push(Number(5))?;
    full.push(Number(6))?;
    behind.push(Number(7))?;
    has_numbers(
        &rt,
        &list,
        &[(262_142, 262_142), (262_143, 1), (262_144, 2), (262_145, 3)],
        262_146,
    );
    has_numbers(
        &rt,
        &before,
        &[(262_142, 262_142), (262_143, 4), (262_144, 5)],
        262_145,
    );
    has_numbers(
        &rt,
        &full,
        &[(262_142, 262_142), (262_143, 1), (262_144, 6)],
        262_145,
    );
    has_numbers(
        &rt,
        &behind,
        &[(262_142, 262_142), (262_143, 1), (262_144, 2), (262_145, 7)],
        262_146,
    );
    Ok(())
}
