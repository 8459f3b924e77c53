//! The paths of shapes graphs.
use crate::short_forms::term;
use collections::sorted_once;
use rdf_model::{Term, Triple};
use shape_syntax::paths::path_nodes;
use shape_syntax::{IndexedGraph, PathFault, read_path};
use std::alloc::{AllocError, Global};
use std::process::Abort;
use std::test::Fail;

// A node of a chain: so many blank nodes, and what stands at its end.
fn link(alloc: Global, number: u32, length: u32, end: &str) -> Result<Term, AllocError> {
    if number > length {
        return term(alloc, end);
    }
    Ok(Term::Blank { session: 1, number })
}

// Blank nodes, each of them the inverse of the next.
fn chain(alloc: Global, length: u32, end: &str) -> Result<Vec<Triple>, AllocError> {
    let mut graph = Vec::new(alloc);
    for number in 1..=length {
        graph.push(Triple {
            subject: link(alloc, number, length, end)?,
            predicate: term(alloc, "sh:inversePath")?,
            object: link(alloc, number.saturating_add(1), length, end)?,
        })?;
    }
    Ok(graph)
}

// What is read at the first node of a graph.
fn outcome(alloc: Global, graph: Vec<Triple>) -> Result<&'static str, AllocError> {
    let sorted = sorted_once(graph)?;
    let indexed = IndexedGraph::new(alloc, sorted.as_slice())?;
    let nodes = path_nodes(alloc, &indexed)?;
    let first = Term::Blank {
        session: 1,
        number: 1,
    };
    match read_path(alloc, &indexed, &nodes, &first) {
        Ok(_) => Ok("read"),
        Err(PathFault::NotPath) => Ok("no path"),
        Err(PathFault::TooDeep) => Ok("too deep"),
        Err(PathFault::Memory) => Ok("memory"),
    }
}

fn assert_chain(
    rt: &impl Abort,
    alloc: Global,
    length: u32,
    end: &str,
    expected: &str,
) -> Result<(), AllocError> {
    let found = outcome(alloc, chain(alloc, length, end)?)?;
    assert_eq!(rt; found, expected, "{length} {end}");
    Ok(())
}

#[test]
fn chains_of_paths(rt: HostRuntime) -> Result<(), Fail> {
    for (length, end, expected) in [
        (1, "e:p", "read"),
        (256, "e:p", "read"),
        (257, "e:p", "too deep"),
        (3, "_2", "no path"),
        (2, "\"p", "no path"),
    ] {
        assert_chain(&rt, rt.alloc(), length, end, expected)?;
    }
    Ok(())
}
