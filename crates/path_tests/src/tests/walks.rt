//! Walks along paths, and the nodes that walk to a node.
use crate::tests::digits::{number, told};
use collections::Sequence;
use path_ast::Path;
use path_eval::{ClassWords, back, is_instance, values};
use rdf_model::{Footprint, Ids, ListGraph};
use std::alloc::{AllocError, Global};
use std::process::Abort;
use std::test::Fail;

// A path with its parts before it, a node, the values at it, and the nodes that walk to it.
const ROWS: &str = "\
p 1 2 3\n\
p 3 14 2\n\
p 4 4 34\n\
p 6 0 0\n\
n 1 0 0\n\
p^ 1 3 2\n\
p^ 4 34 4\n\
q^ 7 2 0\n\
pq/ 3 5 0\n\
pq/ 1 7 0\n\
ppq, 2 5 0\n\
ppq,^ 5 234 0\n\
pq/^ 5 34 0\n\
pq/^^ 3 5 0\n\
pq| 4 45 34\n\
qp|^ 4 34 45\n\
p* 1 1234 123\n\
p* 6 6 6\n\
p*^ 4 1234 4\n\
p+ 1 1234 123\n\
p+ 4 4 1234\n\
p+ 6 0 0\n\
p? 1 12 13\n\
p? 4 4 34\n\
p?^ 4 34 4\n\
rr/ 1 6 0\n\
r* 1 1689 1\n\
r+^ 6 189 0\n\
p*q/ 1 57 0\n\
p+* 2 1234 123\n\
pq*/* 1 123457 123\n\
pr|+ 1 1234689 123\n\
p^r/ 2 89 0\n\
pq|*^ 5 12345 5\n\
n* 3 3 3\n\
nq| 4 5 0";

// A graph whose triples are three letters each, a path, a node, and the values at it.
const LETTER_ROWS: &str = "\
- p* x x\n\
- p+ x \n\
ftx,mpf,mqn,nqm,nqg p^q*/ f gmn\n\
ftx,mpf,mqn,nqm,nqg q* m gmn";

const WORDS: ClassWords = ClassWords {
    rdf_type: b'q' as u32,
    sub_class_of: b'p' as u32,
};

fn triple(subject: u32, predicate: u8, object: u32) -> Ids {
    Ids {
        subject,
        predicate: predicate as u32,
        object,
    }
}

// A cycle and a node that leads to itself by p, a literal as 7 by q, and a diamond by r.
fn graph(alloc: Global) -> Result<ListGraph, AllocError> {
    let mut triples = Sequence::new(alloc);
    for (subject, predicate, object) in [
        (1, b'p', 2),
        (2, b'p', 3),
        (3, b'p', 1),
        (3, b'p', 4),
        (4, b'p', 4),
        (4, b'q', 5),
        (2, b'q', 7),
        (1, b'r', 8),
        (1, b'r', 9),
        (8, b'r', 6),
        (9, b'r', 6),
    ] {
        triples.push(triple(subject, predicate, object))?;
    }
    Ok(ListGraph::from_triples(triples))
}

pub(crate) fn top(alloc: Global, stack: &mut Vec<Path<u32>>) -> Result<Box<Path<u32>>, AllocError> {
    match stack.pop() {
        Some(path) => Ok(Box::new(alloc, path)?),
        None => Ok(Box::new(alloc, Path::Predicate(0))?),
    }
}

// The last so many paths of the stack, in their order.
fn last(
    alloc: Global,
    stack: &mut Vec<Path<u32>>,
    count: usize,
) -> Result<Vec<Path<u32>>, AllocError> {
    let mut paths = Vec::new(alloc);
    for _ in 0..count {
        if let Some(path) = stack.pop() {
            paths.push(path)?;
        }
    }
    paths.reverse();
    Ok(paths)
}

// A path's next part behind its parts: a predicate, or what is made of the parts before it.
pub(crate) fn add_part(
    alloc: Global,
    stack: &mut Vec<Path<u32>>,
    byte: u8,
) -> Result<(), AllocError> {
    let path = match byte {
        b'^' => Path::Inverse(top(alloc, stack)?),
        b'*' => Path::ZeroOrMore(top(alloc, stack)?),
        b'+' => Path::OneOrMore(top(alloc, stack)?),
        b'?' => Path::ZeroOrOne(top(alloc, stack)?),
        b'/' => {
            let others = last(alloc, stack, 1)?;
            Path::Sequence(top(alloc, stack)?, others)
        }
        b',' => {
            let others = last(alloc, stack, 2)?;
            Path::Sequence(top(alloc, stack)?, others)
        }
        b'|' => {
            let others = last(alloc, stack, 1)?;
            Path::Alternative(top(alloc, stack)?, others)
        }
        predicate => Path::Predicate(predicate as u32),
    };
    stack.push(path)?;
    Ok(())
}

fn path(alloc: Global, text: &str) -> Result<Box<Path<u32>>, AllocError> {
    let mut stack = Vec::new(alloc);
    for byte in text.as_bytes() {
        add_part(alloc, &mut stack, *byte)?;
    }
    top(alloc, &mut stack)
}

// What a walk from the node and one back to it find, and how many looks they make.
fn found(
    alloc: Global,
    graph: &ListGraph,
    path: &Path<u32>,
    node: u32,
) -> Result<(u64, u64, usize), AllocError> {
    let mut footprint = Footprint::new(alloc);
    let ends = values(alloc, graph, path, node, &mut footprint)?;
    let starts = back(alloc, graph, path, node, &mut footprint)?;
    Ok((told(&ends), told(&starts), footprint.looks().len()))
}

// The nodes that walk to the node, as they are read from the end of the path.
fn walkers(
    alloc: Global,
    graph: &ListGraph,
    text: &str,
    node: u32,
) -> Result<(u64, usize), AllocError> {
    let path = path(alloc, text)?;
    let mut footprint = Footprint::new(alloc);
    let starts = reverse_walk::back(alloc, graph, &path, node, &mut footprint)?;
    Ok((told(&starts), footprint.looks().len()))
}

fn found_by_text(
    alloc: Global,
    graph: &ListGraph,
    text: &str,
    node: u32,
) -> Result<(u64, u64, usize), AllocError> {
    let path = path(alloc, text)?;
    found(alloc, graph, &path, node)
}

// What a row wants, and what is found, read from the end too.
fn wanted_and_found(
    alloc: Global,
    graph: &ListGraph,
    row: &str,
) -> Result<((u64, u64, u64), (u64, u64, u64)), AllocError> {
    let mut words = row.split(' ');
    let text = words.next().unwrap_or("");
    let node = number(words.next());
    let ends = number(words.next()) as u64;
    let starts = number(words.next()) as u64;
    let (found_ends, found_starts, _looks) = found_by_text(alloc, graph, text, node)?;
    let (read_starts, _looks) = walkers(alloc, graph, text, node)?;
    Ok((
        (ends, starts, starts),
        (found_ends, found_starts, read_starts),
    ))
}

fn all_rows(rt: &impl Abort, alloc: Global) -> Result<(), AllocError> {
    let graph = graph(alloc)?;
    for row in ROWS.lines() {
        let (want, found) = wanted_and_found(alloc, &graph, row)?;
        assert_eq!(rt; found, want, "{row}");
    }
    Ok(())
}

#[test]
fn each_kind_of_path(rt: HostRuntime) -> Result<(), Fail> {
    all_rows(&rt, rt.alloc())?;
    Ok(())
}

fn letter_graph(alloc: Global, text: &str) -> Result<ListGraph, AllocError> {
    let mut triples = Sequence::new(alloc);
    for part in text.split(',') {
        if let [subject, predicate, object] = part.as_bytes() {
            triples.push(triple(*subject as u32, *predicate, *object as u32))?;
        }
    }
    Ok(ListGraph::from_triples(triples))
}

// The number of a node that is a letter.
fn letter(word: Option<&str>) -> u32 {
    match word.unwrap_or("").as_bytes() {
        [letter] => *letter as u32,
        _ => 0,
    }
}

// Whether the nodes are just the letters, in their order.
fn are_letters(nodes: &[u32], letters: &[u8]) -> bool {
    nodes.len() == letters.len()
        && nodes
            .iter()
            .zip(letters)
            .all(|(node, letter)| *node == *letter as u32)
}

// Whether the values that a row wants are found.
fn finds_letters(alloc: Global, row: &str) -> Result<bool, AllocError> {
    let mut words = row.split(' ');
    let graph = letter_graph(alloc, words.next().unwrap_or(""))?;
    let path = path(alloc, words.next().unwrap_or(""))?;
    let node = letter(words.next());
    let mut footprint = Footprint::new(alloc);
    let ends = values(alloc, &graph, &path, node, &mut footprint)?;
    Ok(are_letters(&ends, words.next().unwrap_or("").as_bytes()))
}

fn all_letter_rows(rt: &impl Abort, alloc: Global) -> Result<(), AllocError> {
    for row in LETTER_ROWS.lines() {
        assert!(rt; finds_letters(alloc, row)?, "{row}");
    }
    Ok(())
}

#[test]
fn a_literal_alone_and_an_inverse_before_a_repetition(rt: HostRuntime) -> Result<(), Fail> {
    all_letter_rows(&rt, rt.alloc())?;
    Ok(())
}

// So many parts one after another.
fn long_sequence(alloc: Global, count: u32) -> Result<Path<u32>, AllocError> {
    let mut others = Vec::new(alloc);
    for _ in 0..count {
        others.push(Path::Predicate(b'p' as u32))?;
    }
    Ok(Path::Sequence(path(alloc, "p")?, others))
}

fn class_answers(alloc: Global) -> Result<(bool, bool), AllocError> {
    let graph = graph(alloc)?;
    let mut footprint = Footprint::new(alloc);
    let own = is_instance(alloc, &graph, WORDS, 4, 5, &mut footprint)?;
    let other = is_instance(alloc, &graph, WORDS, 1, 2, &mut footprint)?;
    Ok((own, other))
}

// p any number of times from 1 looks for values at 1, 2, 3 and 4, and back for subjects at 1, 2 and 3.
fn looks_and_ends(alloc: Global) -> Result<(usize, u64), AllocError> {
    let graph = graph(alloc)?;
    let (_ends, _starts, looks) = found_by_text(alloc, &graph, "p*", 1)?;
    let path = long_sequence(alloc, 20_000)?;
    let (ends, _starts, _looks) = found(alloc, &graph, &path, 4)?;
    Ok((looks, ends))
}

// From the end of the path: subjects at 1, 2 and 3.
fn looks_of_walkers(alloc: Global) -> Result<usize, AllocError> {
    let graph = graph(alloc)?;
    let (_starts, looks) = walkers(alloc, &graph, "p*", 1)?;
    Ok(looks)
}

#[test]
fn looks_long_sequences_and_classes(rt: HostRuntime) -> Result<(), Fail> {
    assert_eq!(rt; looks_and_ends(rt.alloc())?, (7, 4));
    assert_eq!(rt; looks_of_walkers(rt.alloc())?, 3);
    assert_eq!(rt; class_answers(rt.alloc())?, (true, false));
    Ok(())
}
