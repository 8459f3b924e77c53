//! Random paths against a reading of them as sets of pairs.
ghost use Rattle.std.specs.Prelude.{◌<◌};

use crate::tests::digits::told;
use crate::tests::walks::{add_part, top};
use collections::Sequence;
use path_ast::Path;
use path_eval::{back, values};
use rdf_model::{Footprint, Ids, ListGraph};
use std::alloc::{AllocError, Global};
use std::process::Abort;
use std::test::Fail;

// The nodes are 1 to 5, of which 5 is a literal: no triple has it as subject.
const LAST: u32 = 5;

// A linear congruence, so that each run sees the same graphs and paths.
#[derive(Drop)]
struct Random {
    state: u32,
}

impl Random {
    fn below(&mut self, bound: u32) -> u32
        requires { 0 < bound }
        ensures { result < bound }
    {
        let next = self.state.wrapping_mul(1_664_525);
        self.state = next.wrapping_add(1_013_904_223);
        (self.state >> 16) % bound
    }

    fn predicate(&mut self) -> u8 {
        match self.below(3) {
            0 => b'p',
            1 => b'q',
            _ => b'r',
        }
    }

    fn repetition(&mut self) -> u8 {
        match self.below(4) {
            0 => b'+',
            1 => b'?',
            _ => b'*',
        }
    }
}

fn random_triples(alloc: Global, random: &mut Random) -> Result<Vec<Ids>, AllocError> {
    let mut triples = Vec::new(alloc);
    let count = random.below(10);
    for _ in 0..count {
        triples.push(Ids {
            subject: 1 + random.below(4),
            predicate: random.predicate() as u32,
            object: 1 + random.below(LAST),
        })?;
    }
    Ok(triples)
}

// What is put behind a path, so that there is one path again.
fn add_random_part(text: &mut Vec<u8>, random: &mut Random) -> Result<(), AllocError> {
    match random.below(7) {
        0 => text.push(b'^')?,
        1 => text.push(random.repetition())?,
        2 => text.push(b'*')?,
        3 => {
            text.push(random.predicate())?;
            text.push(b'|')?;
        }
        4 => {
            text.push(random.predicate())?;
            text.push(random.predicate())?;
            text.push(b',')?;
        }
        5 => {
            text.push(random.predicate())?;
            text.push(b'^')?;
            text.push(b'/')?;
        }
        _ => {
            text.push(random.predicate())?;
            text.push(random.repetition())?;
            text.push(b'/')?;
        }
    }
    Ok(())
}

// A path with its parts before it, nested up to four deep.
fn random_text(alloc: Global, random: &mut Random) -> Result<Vec<u8>, AllocError> {
    let mut text = Vec::new(alloc);
    text.push(random.predicate())?;
    let count = random.below(5);
    for _ in 0..count {
        add_random_part(&mut text, random)?;
    }
    Ok(text)
}

// Pairs of nodes that a path joins, by the plain definition. Each stands there once.
#[derive(Drop)]
struct Pairs {
    all: Vec<(u32, u32)>,
}

impl Pairs {
    fn none(alloc: Global) -> Pairs {
        Pairs {
            all: Vec::new(alloc),
        }
    }

    fn has(&self, from: u32, to: u32) -> bool {
        self.all.contains(&(from, to))
    }

    fn add(&mut self, from: u32, to: u32) -> Result<(), AllocError> {
        if !self.has(from, to) {
            self.all.push((from, to))?;
        }
        Ok(())
    }

    fn add_all(&mut self, more: &Pairs) -> Result<(), AllocError> {
        for pair in &more.all {
            self.add(pair.0, pair.1)?;
        }
        Ok(())
    }
}

fn edges(alloc: Global, triples: &[Ids], predicate: u8) -> Result<Pairs, AllocError> {
    let mut pairs = Pairs::none(alloc);
    for triple in triples {
        if triple.predicate == predicate as u32 {
            pairs.add(triple.subject, triple.object)?;
        }
    }
    Ok(pairs)
}

fn itself(alloc: Global) -> Result<Pairs, AllocError> {
    let mut pairs = Pairs::none(alloc);
    for node in 0..LAST {
        pairs.add(node + 1, node + 1)?;
    }
    Ok(pairs)
}

fn reversed(alloc: Global, pairs: &Pairs) -> Result<Pairs, AllocError> {
    let mut all = Pairs::none(alloc);
    for pair in &pairs.all {
        all.add(pair.1, pair.0)?;
    }
    Ok(all)
}

fn add_joined(all: &mut Pairs, from: u32, middle: u32, second: &Pairs) -> Result<(), AllocError> {
    for pair in &second.all {
        if pair.0 == middle {
            all.add(from, pair.1)?;
        }
    }
    Ok(())
}

fn one_after_another(alloc: Global, first: &Pairs, second: &Pairs) -> Result<Pairs, AllocError> {
    let mut all = Pairs::none(alloc);
    for pair in &first.all {
        add_joined(&mut all, pair.0, pair.1, second)?;
    }
    Ok(all)
}

// Between five nodes no walk has to be longer than five steps.
fn any_number(alloc: Global, pairs: &Pairs) -> Result<Pairs, AllocError> {
    let mut all = itself(alloc)?;
    for _ in 0..LAST {
        let longer = one_after_another(alloc, &all, pairs)?;
        all.add_all(&longer)?;
    }
    Ok(all)
}

fn last_pairs(alloc: Global, stack: &mut Vec<Pairs>) -> Pairs {
    match stack.pop() {
        Some(pairs) => pairs,
        None => Pairs::none(alloc),
    }
}

// What is made of the last part.
fn made_of_one(alloc: Global, byte: u8, part: &Pairs) -> Result<Pairs, AllocError> {
    match byte {
        b'^' => reversed(alloc, part),
        b'*' => any_number(alloc, part),
        b'+' => one_after_another(alloc, part, &any_number(alloc, part)?),
        _ => {
            let mut all = itself(alloc)?;
            all.add_all(part)?;
            Ok(all)
        }
    }
}

fn add_pairs(
    alloc: Global,
    triples: &[Ids],
    stack: &mut Vec<Pairs>,
    byte: u8,
) -> Result<(), AllocError> {
    let pairs = match byte {
        b'^' | b'*' | b'+' | b'?' => made_of_one(alloc, byte, &last_pairs(alloc, stack))?,
        b'/' => {
            let last = last_pairs(alloc, stack);
            one_after_another(alloc, &last_pairs(alloc, stack), &last)?
        }
        b',' => {
            let last = last_pairs(alloc, stack);
            let next = one_after_another(alloc, &last_pairs(alloc, stack), &last)?;
            one_after_another(alloc, &last_pairs(alloc, stack), &next)?
        }
        b'|' => {
            let mut either = last_pairs(alloc, stack);
            either.add_all(&last_pairs(alloc, stack))?;
            either
        }
        predicate => edges(alloc, triples, predicate)?,
    };
    stack.push(pairs)?;
    Ok(())
}

fn joined(alloc: Global, triples: &[Ids], text: &[u8]) -> Result<Pairs, AllocError> {
    let mut stack = Vec::new(alloc);
    for byte in text {
        add_pairs(alloc, triples, &mut stack, *byte)?;
    }
    Ok(last_pairs(alloc, &mut stack))
}

fn path_of(alloc: Global, text: &[u8]) -> Result<Box<Path<u32>>, AllocError> {
    let mut stack = Vec::new(alloc);
    for byte in text {
        add_part(alloc, &mut stack, *byte)?;
    }
    top(alloc, &mut stack)
}

// The nodes to which the pairs join the node, or from which, ascending, in digits.
fn ends_of(pairs: &Pairs, node: u32, reversed: bool) -> u64 {
    let mut all: u64 = 0;
    for end in 0..LAST {
        let end = end + 1;
        if (reversed && pairs.has(end, node)) || (!reversed && pairs.has(node, end)) {
            all = all.wrapping_mul(10).wrapping_add(end as u64);
        }
    }
    all
}

fn graph_of(alloc: Global, triples: &[Ids]) -> Result<ListGraph, AllocError> {
    let mut all = Sequence::new(alloc);
    for triple in triples {
        all.push(*triple)?;
    }
    Ok(ListGraph::from_triples(all))
}

// The path's walks from each node and back to it are those of the plain definition.
fn hold_each(
    rt: &impl Abort,
    alloc: Global,
    triples: &[Ids],
    text: &[u8],
    round: u32,
) -> Result<(), AllocError> {
    let graph = graph_of(alloc, triples)?;
    let path = path_of(alloc, text)?;
    let pairs = joined(alloc, triples, text)?;
    let mut footprint = Footprint::new(alloc);
    for node in 0..LAST {
        let node = node + 1;
        let ends = values(alloc, &graph, &path, node, &mut footprint)?;
        assert_eq!(rt;
            told(&ends),
            ends_of(&pairs, node, false),
            "from {node}, round {round}"
        );
        let starts = back(alloc, &graph, &path, node, &mut footprint)?;
        assert_eq!(rt;
            told(&starts),
            ends_of(&pairs, node, true),
            "to {node}, round {round}"
        );
    }
    Ok(())
}

fn hold_rounds(rt: &impl Abort, alloc: Global, rounds: u32) -> Result<(), AllocError> {
    let mut random = Random { state: 20_231_128 };
    for round in 0..rounds {
        let triples = random_triples(alloc, &mut random)?;
        let text = random_text(alloc, &mut random)?;
        hold_each(rt, alloc, &triples, &text, round)?;
    }
    Ok(())
}

#[test]
fn random_graphs_and_paths(rt: HostRuntime) -> Result<(), Fail> {
    hold_rounds(&rt, rt.alloc(), 300)?;
    Ok(())
}
