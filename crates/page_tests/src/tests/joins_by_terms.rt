//! Joins by terms, against tables. Nodes are numbered against their order.
ghost use Rattle.std.specs.Prelude.{IfOk, OnOk};
ghost use Rattle.rdf_model.specs.Numbers.{AreNumbered};

use crate::tests::patterns::{Constant, patterns_of};
use crate::tests::rows::same;
use bgp_query::JoinFault;
use rdf_model::{Ids, Names, Term};
use std::alloc::{AllocError, Global};
use std::process::Abort;
use std::test::Fail;
use term_dict::{Dict, NameFault};
use term_joins::select_terms;
use triple_index::{Index, NumberedChange};

fn nodes(alloc: Global, numbers: &[u32]) -> Result<Vec<Term>, AllocError> {
    let mut terms = Vec::new(alloc);
    for number in numbers {
        terms.push(Term::numbered(*number))?;
    }
    Ok(terms)
}

fn nodes_below(alloc: Global, count: u32) -> Result<Vec<Term>, AllocError> {
    let mut terms = Vec::new(alloc);
    for number in 0..count {
        terms.push(Term::numbered(number))?;
    }
    Ok(terms)
}

// Names for the nodes below a number, from the last on.
fn names_below(alloc: Global, count: u32) -> Result<Dict, NameFault> {
    let mut names = Dict::new(alloc, 100_000)?;
    let mut terms = nodes_below(alloc, count)?;
    terms.reverse();
    let _ = names.name_all(&terms)?;
    Ok(names)
}

// Adds the triple of three nodes, where each has a name.
fn add_triple(index: &mut Index, names: &Dict, edge: (u32, u32, u32)) -> Result<(), AllocError>
    requires { AreNumbered names.now.terms index.old }
    ensures { OnOk result (AreNumbered names.now.terms index.new) }
{
    let Some(subject) = names.id(&Term::numbered(edge.0)) else {
        return Ok(());
    };
    let Some(predicate) = names.id(&Term::numbered(edge.1)) else {
        return Ok(());
    };
    let Some(object) = names.id(&Term::numbered(edge.2)) else {
        return Ok(());
    };
    index.apply(&[NumberedChange::Add(Ids {
        subject,
        predicate,
        object,
    })])?;
    Ok(())
}

fn index_of(alloc: Global, names: &Dict, edges: &[(u32, u32, u32)]) -> Result<Index, AllocError>
    ensures { IfOk result (AreNumbered names.now.terms) }
{
    let mut index = Index::new(alloc);
    for edge in edges {
        add_triple(&mut index, names, *edge)?;
    }
    Ok(index)
}

// The rows are these nodes, in this order.
fn expect_rows(
    rt: &impl Abort,
    alloc: Global,
    names: &Dict,
    index: &Index,
    codes: &[(u32, u32, u32)],
    rows: &[&[u32]],
) -> Result<(), AllocError>
    requires { AreNumbered names.now.terms index.now }
{
    names.recall_numbering();
    match select_terms(alloc, names, index, &patterns_of(alloc, codes)?) {
        Ok(found) => {
            same(rt, "rows", found.len(), rows.len());
            for (row, wanted) in found.iter().zip(rows.iter()) {
                let terms = nodes(alloc, wanted)?;
                same(rt, "a row", row.as_slice(), terms.as_slice());
            }
            Ok(())
        }
        Err(_) => panic!(rt; "no bindings"),
    }
}

#[test]
fn bindings_of_terms_are_those_of_the_table(rt: HostRuntime) -> Result<(), Fail> {
    let alloc = rt.alloc();
    let names = names_below(alloc, 20)?;
    // Edges 10: 1 to 2, 2 to 3, 2 to 4, 5 to 5. Edge 11: 4 to 2.
    let index = index_of(
        alloc,
        &names,
        &[(2, 10, 4), (1, 10, 2), (5, 10, 5), (4, 11, 2), (2, 10, 3)],
    )?;
    let table: [(&[(u32, u32, u32)], &[&[u32]]); 9] = [
        // a chain, and the same asked from its end
        (
            &[(0, 110, 1), (1, 110, 2)],
            &[&[1, 2, 3], &[1, 2, 4], &[5, 5, 5]],
        ),
        (
            &[(1, 110, 2), (0, 110, 1)],
            &[&[1, 2, 3], &[1, 2, 4], &[5, 5, 5]],
        ),
        // a variable twice in a pattern
        (&[(0, 110, 0)], &[&[5]]),
        // rows ascend by their nodes, not by the numbers of these
        (
            &[(0, 1, 2)],
            &[
                &[1, 10, 2],
                &[2, 10, 3],
                &[2, 10, 4],
                &[4, 11, 2],
                &[5, 10, 5],
            ],
        ),
        // no variables
        (&[(101, 110, 102)], &[&[]]),
        (&[(101, 110, 103)], &[]),
        // a node without a name
        (&[(0, 110, 130)], &[]),
        (&[(0, 110, 1), (130, 111, 1)], &[]),
        // variable 0 is missing
        (&[(1, 110, 2)], &[]),
    ];
    for (codes, rows) in table {
        expect_rows(&rt, alloc, &names, &index, codes, rows)?;
    }
    Ok(())
}

// So many edges to the node 1.
fn edges_of(alloc: Global, count: u32) -> Result<Vec<(u32, u32, u32)>, AllocError> {
    let mut edges = Vec::new(alloc);
    for number in 0..count {
        edges.push((number, 0, 1))?;
    }
    Ok(edges)
}

// How many pairs of edges there are, where there are so many edges to the node 1, and 0 where there are too many.
fn pairs_of_edges(rt: &impl Abort, alloc: Global, count: u32) -> Result<usize, NameFault> {
    let names = names_below(alloc, 500)?;
    let index = index_of(alloc, &names, &edges_of(alloc, count)?)?;
    names.recall_numbering();
    match select_terms(
        alloc,
        &names,
        &index,
        &patterns_of(alloc, &[(0, 100, 1), (2, 100, 3)])?,
    ) {
        Ok(rows) => Ok(rows.len()),
        Err(JoinFault::TooMany) => Ok(0),
        Err(JoinFault::Memory) => panic!(rt; "no memory"),
    }
}

#[test]
fn more_than_100000_rows_of_terms_are_too_many(rt: HostRuntime) -> Result<(), Fail> {
    let alloc = rt.alloc();
    same(&rt, "316 edges", pairs_of_edges(&rt, alloc, 316)?, 99_856);
    same(&rt, "317 edges", pairs_of_edges(&rt, alloc, 317)?, 0);
    Ok(())
}
