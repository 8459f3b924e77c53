//! Indexes against lists of triples.
ghost use Rattle.std.specs.Prelude.{◌<◌, IfSome, length};
ghost use Rattle.rdf_model.specs.Numbers.{AsksForOne};

use crate::tests::rows::{same, same_lists};
use collections::Sequence;
use overlay_view::Overlay;
use rdf_model::{Ids, ListGraph, Look, Triples};
use std::alloc::{AllocError, Global};
use std::process::Abort;
use std::test::Fail;
use triple_index::{Index, NumberedChange};

// The next number of a sequence without order.
fn next(seed: u32) -> u32 {
    seed.wrapping_mul(1_664_525).wrapping_add(1_013_904_223)
}

fn triple_of(seed: u32) -> Ids {
    Ids {
        subject: (seed >> 16) % 13,
        predicate: (seed >> 8) % 5,
        object: (seed >> 20) % 29,
    }
}

fn change_of(seed: u32, adds: u32) -> NumberedChange {
    if (seed >> 4) % 8 < adds {
        NumberedChange::Add(triple_of(seed))
    } else {
        NumberedChange::Remove(triple_of(seed))
    }
}

// Where a triple stands in a plain vector.
fn place_of(plain: &[Ids], triple: Ids) -> Option<usize>
    ensures { IfSome result (λ place. place < length plain.now) }
{
    for (place, other) in plain.iter().enumerate() {
        if *other == triple {
            return Some(place);
        }
    }
    None
}

// Makes the change in a plain vector.
fn change_plain(plain: &mut Vec<Ids>, change: NumberedChange) -> Result<(), AllocError> {
    match change {
        NumberedChange::Add(triple) => {
            if place_of(plain, triple).is_none() {
                plain.push(triple)?;
            }
        }
        NumberedChange::Remove(triple) => {
            if let Some(place) = place_of(plain, triple) {
                let _ = plain.remove(place);
            }
        }
    }
    Ok(())
}

// Both find the same.
fn same_found<R: Triples>(
    rt: &impl Abort,
    alloc: Global,
    graph: &R,
    list: &ListGraph,
    look: &Look<u32>,
) -> Result<(), AllocError>
    requires { AsksForOne look.now }
{
    same_lists(
        rt,
        "a look",
        graph.find(alloc, look),
        list.find(alloc, look),
    )
}

// All reads round a triple answer as those of a list do.
fn same_as_list<R: Triples>(
    rt: &impl Abort,
    alloc: Global,
    graph: &R,
    list: &ListGraph,
    triple: Ids,
) -> Result<(), AllocError> {
    let Ids {
        subject,
        predicate,
        object,
    } = triple;
    same_found(rt, alloc, graph, list, &Look::Out(subject, predicate))?;
    same_found(rt, alloc, graph, list, &Look::In(predicate, object))?;
    let found = graph.edges(alloc, subject);
    same_lists(rt, "edges", found, list.edges(alloc, subject))?;
    let found = graph.with_predicate(alloc, predicate);
    let wanted = list.with_predicate(alloc, predicate);
    same_lists(rt, "with a predicate", found, wanted)?;
    let found = graph.contains(triple);
    same(rt, "a triple", found, list.contains(triple));
    Ok(())
}

// All reads round a triple answer as a plain list does.
fn same_reads<R: Triples>(
    rt: &impl Abort,
    alloc: Global,
    graph: &R,
    plain: &Vec<Ids>,
    triple: Ids,
) -> Result<(), AllocError> {
    let list = ListGraph::from_triples(Sequence::from_vec(plain.clone()?));
    same_as_list(rt, alloc, graph, &list, triple)
}

fn fits(wanted: Option<u32>, number: u32) -> bool {
    match wanted {
        Some(other) => other == number,
        None => true,
    }
}

// How many triples of the list a pattern asks for.
fn count_of(
    plain: &[Ids],
    subject: Option<u32>,
    predicate: Option<u32>,
    object: Option<u32>,
) -> u32 {
    let mut count = 0u32;
    for triple in plain {
        if fits(subject, triple.subject)
            && fits(predicate, triple.predicate)
            && fits(object, triple.object)
        {
            count = count.wrapping_add(1);
        }
    }
    count
}

fn given(is_given: bool, number: u32) -> Option<u32> {
    if is_given { Some(number) } else { None }
}

// The eight patterns round a triple find as many as there are.
fn same_patterns(
    rt: &impl Abort,
    index: &Index,
    plain: &Vec<Ids>,
    triple: Ids,
) -> Result<(), AllocError> {
    for bits in 0..8u32 {
        let subject = given(bits % 2 == 1, triple.subject);
        let predicate = given(bits / 2 % 2 == 1, triple.predicate);
        let object = given(bits / 4 == 1, triple.object);
        let found = index.find_pattern(subject, predicate, object)?;
        let wanted = u64::from(count_of(plain, subject, predicate, object));
        same(rt, "a pattern", found.len() as u64, wanted);
    }
    Ok(())
}

// All reads and patterns round a triple answer as a plain list does.
fn same_index(
    rt: &impl Abort,
    alloc: Global,
    index: &Index,
    plain: &Vec<Ids>,
    triple: Ids,
) -> Result<(), AllocError> {
    same_reads(rt, alloc, index, plain, triple)?;
    same_patterns(rt, index, plain, triple)
}

// An index that is built at once, of each triple twice, answers as a plain list does.
fn same_at_once(
    rt: &impl Abort,
    alloc: Global,
    plain: &Vec<Ids>,
    triple: Ids,
) -> Result<(), AllocError> {
    let mut twice = plain.clone()?;
    twice.extend_from_slice(plain)?;
    let index = Index::from_triples(alloc, &twice)?;
    same(rt, "length at once", index.len(), plain.len());
    same_reads(rt, alloc, &index, plain, triple)
}

// A plain vector after two changes.
fn after(plain: &Vec<Ids>, net: [NumberedChange; 2]) -> Result<Vec<Ids>, AllocError> {
    let mut after = plain.clone()?;
    change_plain(&mut after, net[0])?;
    change_plain(&mut after, net[1])?;
    Ok(after)
}

// A net of two changes over the index answers as a plain list after them.
fn same_overlay(
    rt: &impl Abort,
    alloc: Global,
    index: &Index,
    plain: &Vec<Ids>,
    net: [NumberedChange; 2],
    triple: Ids,
) -> Result<(), AllocError> {
    let after = after(plain, net)?;
    let overlay = Overlay::new(alloc, index, &net)?;
    same_reads(rt, alloc, &overlay, &after, triple)
}

// Makes the change in both, which then are as long.
fn change_both(
    rt: &impl Abort,
    index: &mut Index,
    plain: &mut Vec<Ids>,
    change: NumberedChange,
) -> Result<(), AllocError> {
    index.apply(&[change])?;
    change_plain(plain, change)?;
    same(rt, "length", index.len(), plain.len());
    Ok(())
}

// All that is asked round a triple before a change, which is a part of the net.
fn same_round(
    rt: &impl Abort,
    alloc: Global,
    index: &Index,
    plain: &Vec<Ids>,
    seed: u32,
    change: NumberedChange,
) -> Result<(), AllocError> {
    let net = [change, change_of(next(seed), 4)];
    same_index(rt, alloc, index, plain, triple_of(seed))?;
    same_at_once(rt, alloc, plain, triple_of(seed))?;
    same_overlay(rt, alloc, index, plain, net, triple_of(seed))
}

// A plain list answers as the index does, while it grows and while it shrinks, and as a net over it does.
#[test]
fn a_plain_list_agrees(rt: HostRuntime) -> Result<(), Fail> {
    let mut index = Index::new(rt.alloc());
    let mut plain = Vec::new(rt.alloc());
    let mut seed = 1;
    for round in 0..3000u32 {
        seed = next(seed);
        let change = change_of(seed, if round < 1500 { 6 } else { 2 });
        if round % 100 == 0 {
            same_round(&rt, rt.alloc(), &index, &plain, seed, change)?;
        }
        change_both(&rt, &mut index, &mut plain, change)?;
    }
    Ok(())
}
