//! Joins over an overlay and over an index, against tables and against all assignments in turn.
use crate::tests::patterns::patterns_of;
use crate::tests::rows::same;
use bgp_query::{JoinFault, Matcher, select};
use overlay_view::Overlay;
use rdf_model::{Ids, Triples};
use std::alloc::{AllocError, Global};
use std::process::Abort;
use std::test::Fail;
use triple_index::{Index, NumberedChange};

fn triple(subject: u32, predicate: u32, object: u32) -> Ids {
    Ids {
        subject,
        predicate,
        object,
    }
}

// The rows are these, in this order.
fn expect_rows<R: Matcher>(
    rt: &impl Abort,
    alloc: Global,
    set: &R,
    codes: &[(u32, u32, u32)],
    rows: &[&[u32]],
) -> Result<(), AllocError> {
    match select(alloc, set, &patterns_of(alloc, codes)?) {
        Ok(found) => {
            same(rt, "rows", found.len(), rows.len());
            for (row, wanted) in found.iter().zip(rows.iter()) {
                same(rt, "a row", row.as_slice(), *wanted);
            }
            Ok(())
        }
        Err(_) => panic!(rt; "no bindings"),
    }
}

// Edges 10: 1 to 2, 2 to 3, 2 to 4, 3 to 1, 5 to 5. Edges 11: 1 to 2, 4 to 4. The net adds that from 5 to 5, and
// removes one from 6 to 1.
const BENEATH: [(u32, u32, u32); 7] = [
    (3, 10, 1),
    (2, 10, 4),
    (1, 11, 2),
    (6, 10, 1),
    (2, 10, 3),
    (4, 11, 4),
    (1, 10, 2),
];

fn net() -> [NumberedChange; 2] {
    [
        NumberedChange::Add(triple(5, 10, 5)),
        NumberedChange::Remove(triple(6, 10, 1)),
    ]
}

fn index_of(alloc: Global, edges: &[(u32, u32, u32)]) -> Result<Index, AllocError> {
    let mut triples = Vec::new(alloc);
    for (subject, predicate, object) in edges {
        triples.push(triple(*subject, *predicate, *object))?;
    }
    Index::from_triples(alloc, &triples)
}

// Patterns, and the rows of their bindings.
type Bindings = (&'static [(u32, u32, u32)], &'static [&'static [u32]]);

const TABLE: [Bindings; 13] = [
    // chains
    (
        &[(0, 110, 1), (1, 110, 2)],
        &[&[1, 2, 3], &[1, 2, 4], &[2, 3, 1], &[3, 1, 2], &[5, 5, 5]],
    ),
    (&[(101, 110, 0), (0, 110, 1), (1, 111, 2)], &[&[2, 4, 4]]),
    // triangles
    (
        &[(0, 110, 1), (1, 110, 2), (2, 110, 0)],
        &[&[1, 2, 3], &[2, 3, 1], &[3, 1, 2], &[5, 5, 5]],
    ),
    // a variable twice in a pattern
    (&[(0, 110, 0)], &[&[5]]),
    (&[(0, 1, 0)], &[&[4, 11], &[5, 10]]),
    (&[(0, 110, 1), (1, 111, 1)], &[&[2, 4]]),
    // predicates
    (&[(101, 0, 102)], &[&[10], &[11]]),
    // no variables
    (&[(101, 110, 102)], &[&[]]),
    (&[(106, 110, 101)], &[]),
    (&[], &[&[]]),
    // a later pattern cuts a product
    (&[(0, 110, 1), (2, 111, 3), (3, 110, 0)], &[&[3, 1, 1, 2]]),
    // a pattern twice
    (&[(0, 111, 1), (0, 111, 1)], &[&[1, 2], &[4, 4]]),
    // variable 0 is missing
    (&[(1, 110, 2)], &[]),
];

fn expect_table<R: Matcher>(rt: &impl Abort, alloc: Global, set: &R) -> Result<(), AllocError> {
    for (codes, rows) in TABLE {
        expect_rows(rt, alloc, set, codes, rows)?;
    }
    Ok(())
}

#[test]
fn bindings_are_those_of_the_table(rt: HostRuntime) -> Result<(), Fail> {
    let alloc = rt.alloc();
    let index = index_of(alloc, &BENEATH)?;
    let overlay = Overlay::new(alloc, &index, &net())?;
    expect_table(&rt, alloc, &overlay)?;
    let mut after = index.share()?;
    after.apply(&net())?;
    expect_table(&rt, alloc, &after)?;
    Ok(())
}

// The edges 10 from n nodes.
fn index_of_pairs(alloc: Global, count: u32) -> Result<Index, AllocError> {
    let mut triples = Vec::new(alloc);
    for node in 0..count {
        triples.push(triple(node, 10, 2000))?;
    }
    Index::from_triples(alloc, &triples)
}

// How many bindings there are over so many edges, or why there are none.
fn count_of(
    alloc: Global,
    count: u32,
    codes: &[(u32, u32, u32)],
) -> Result<Result<usize, JoinFault>, AllocError> {
    let index = index_of_pairs(alloc, count)?;
    match select(alloc, &index, &patterns_of(alloc, codes)?) {
        Ok(rows) => Ok(Ok(rows.len())),
        Err(fault) => Ok(Err(fault)),
    }
}

// Edges, patterns, and how many bindings there are, or why there are none.
fn expect_count(
    rt: &impl Abort,
    alloc: Global,
    count: u32,
    codes: &[(u32, u32, u32)],
    wanted: Result<usize, JoinFault>,
) -> Result<(), AllocError> {
    same(rt, "bindings", count_of(alloc, count, codes)?, wanted);
    Ok(())
}

#[test]
fn more_than_100000_are_too_many(rt: HostRuntime) -> Result<(), Fail> {
    let pairs = [(0, 110, 1), (2, 110, 3)];
    expect_count(&rt, rt.alloc(), 316, &pairs, Ok(99_856))?;
    expect_count(&rt, rt.alloc(), 317, &pairs, Err(JoinFault::TooMany))?;
    Ok(())
}

#[test]
fn the_limit_is_100000(rt: HostRuntime) -> Result<(), Fail> {
    let edges = [(0, 110, 1)];
    expect_count(&rt, rt.alloc(), 100_000, &edges, Ok(100_000))?;
    expect_count(&rt, rt.alloc(), 100_001, &edges, Err(JoinFault::TooMany))?;
    Ok(())
}

// The next number of a sequence without order.
fn next(seed: u32) -> u32 {
    seed.wrapping_mul(1_664_525).wrapping_add(1_013_904_223)
}

// The number of a part, where the digits of a number are those of three variables.
fn number_under(digits: u32, code: u32) -> u32 {
    match code {
        0 => digits / 25 % 5,
        1 => digits / 5 % 5,
        2 => digits % 5,
        _ => code.wrapping_sub(100),
    }
}

// All assignments of 0 to 4 to three variables under which the patterns stand.
fn rows_by_trial(
    alloc: Global,
    index: &Index,
    codes: &[(u32, u32, u32)],
) -> Result<Vec<(u32, u32, u32)>, AllocError> {
    let mut rows = Vec::new(alloc);
    for digits in 0..125u32 {
        let stand = codes.iter().all(|(subject, predicate, object)| {
            index.contains(triple(
                number_under(digits, *subject),
                number_under(digits, *predicate),
                number_under(digits, *object),
            ))
        });
        if stand {
            rows.push((digits / 25, digits / 5 % 5, digits % 5))?;
        }
    }
    Ok(rows)
}

fn same_as_by_trial(
    rt: &impl Abort,
    alloc: Global,
    index: &Index,
    codes: &[(u32, u32, u32)],
) -> Result<(), AllocError> {
    let rows = rows_by_trial(alloc, index, codes)?;
    match select(alloc, index, &patterns_of(alloc, codes)?) {
        Ok(found) => {
            same(rt, "rows", found.len(), rows.len());
            for (row, wanted) in found.iter().zip(rows.iter()) {
                let wanted = [wanted.0, wanted.1, wanted.2];
                same(rt, "a row", row.as_slice(), wanted.as_slice());
            }
            Ok(())
        }
        Err(_) => panic!(rt; "no bindings"),
    }
}

// A variable mostly, else a constant.
fn code_of(seed: u32) -> u32 {
    match (seed >> 16) % 8 {
        0..=2 => 0,
        3 | 4 => 1,
        5 | 6 => 2,
        _ => 100 + (seed >> 20) % 5,
    }
}

#[test]
fn bindings_are_those_found_by_trial(rt: HostRuntime) -> Result<(), Fail> {
    let alloc = rt.alloc();
    let mut index = Index::new(alloc);
    let mut seed = 1;
    for _ in 0..300u32 {
        let second = next(seed);
        let third = next(second);
        let fourth = next(third);
        seed = next(fourth);
        let edge = triple((second >> 16) % 5, (third >> 16) % 5, (fourth >> 16) % 5);
        index.apply(&[NumberedChange::Add(edge)])?;
        same_as_by_trial(
            &rt,
            alloc,
            &index,
            &[
                (0, 1, 2),
                (code_of(second), code_of(third), code_of(fourth)),
                (code_of(fourth), code_of(seed), code_of(second)),
            ],
        )?;
    }
    Ok(())
}
