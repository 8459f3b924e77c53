//! A list of more items than a store has terms at its usual limit.

use crate::tests::pages::Number;
use crate::tests::rows::same;
use growing_list::GrowingList;
use std::test::Fail;

const MANY: u32 = 1_000_100;

// A share that is taken of a million items grows on, and the list is as it was.
#[test]
fn a_million_items_are_held(rt: HostRuntime) -> Result<(), Fail> {
    let mut list = GrowingList::new(rt.alloc());
    for number in 0..MANY {
        list.push(Number(number))?;
    }
    same(&rt, "length", list.len(), 1_000_100);
    let mut share = list.share()?;
    share.push(Number(7))?;
    same(&rt, "length of the share", share.len(), 1_000_101);
    same(&rt, "its last", share.get(1_000_100), Some(&Number(7)));
    same(&rt, "behind the last", list.get(1_000_100), None);
    for number in 0..MANY {
        same(
            &rt,
            "an item",
            list.get(number as usize),
            Some(&Number(number)),
        );
    }
    Ok(())
}
