//! The results of sh:property.
ghost use Rattle.std.specs.Prelude.{◌≡◌, length};

use crate::case::{Case, assert_same, read_case};
use crate::short_terms::{term, text_of_row};
use collections::both;
use logic_constraints::property;
use rdf_model::{Names, Term};
use shape_model::{Component, ResultRow};
use std::alloc::{AllocError, Global};
use std::process::Abort;

// For each value node a word of the results that the property shape gives there, a letter each, or a dash where there are none.
const PROPERTIES: &str = "\
Property; e:P; e:v e:w _1 1^integer; ; _1|e:b|- _1|e:c|- e:v|e:a|- 1^integer|e:a|-; a - bc a
Property; e:P; five^integer x@EN; ; x@en|e:a|-; - a
Property; e:P; e:v e:w; ; ; - -
Property; e:P; e:v; ; e:v|e:a|- e:v|e:b|-; aab
Property; e:P; ; ; ;";

fn node_at(alloc: Global, case: &Case<'_>, node: u32) -> Result<Term, AllocError> {
    match case.names().term(node) {
        Some(term) => term.clone(),
        None => term(alloc, "e:missing"),
    }
}

fn term_of_letter(alloc: Global, letter: char) -> Result<Term, AllocError> {
    let short = format!(in alloc; "e:{letter}")?;
    term(alloc, short.as_str())
}

// A result of the property shape at the node, told apart by its value.
fn row_at(
    alloc: Global,
    case: &Case<'_>,
    node: u32,
    letter: char,
) -> Result<ResultRow, AllocError> {
    let (focus_node, about) = both(node_at(alloc, case, node), node_at(alloc, case, node))?;
    let (source_shape, value) = both(term(alloc, "e:P"), term_of_letter(alloc, letter))?;
    Ok(ResultRow {
        source_shape,
        about: Some(about),
        focus_node,
        component: Component::Class,
        parameter: None,
        value: Some(value),
        other: None,
    })
}

fn rows_at(
    alloc: Global,
    case: &Case<'_>,
    node: u32,
    word: &str,
) -> Result<Vec<ResultRow>, AllocError> {
    let mut rows = Vec::new(alloc);
    for letter in word.chars() {
        if letter != '-' {
            rows.push(row_at(alloc, case, node, letter)?)?;
        }
    }
    Ok(rows)
}

// The lists of the last part of a row.
fn lists_of(alloc: Global, case: &Case<'_>, line: &str) -> Result<Vec<Vec<ResultRow>>, AllocError> {
    let mut lists = Vec::new(alloc);
    let words = line.split(';').nth(5).unwrap_or("");
    for (node, word) in case.values().iter().zip(words.split_ascii_whitespace()) {
        lists.push(rows_at(alloc, case, *node, word)?)?;
    }
    Ok(lists)
}

fn text_of(alloc: Global, rows: &[ResultRow]) -> Result<String, AllocError> {
    let mut text = String::new(alloc);
    for row in rows {
        write!(text, "{} ", text_of_row(alloc, row)?)?;
    }
    Ok(text)
}

fn found(alloc: Global, case: &Case<'_>, lists: Vec<Vec<ResultRow>>) -> Result<String, AllocError>
    requires { length lists.items ≡ length case.now.values }
{
    let rows = property(alloc, case.values(), lists)?;
    text_of(alloc, &rows)
}

fn assert_property(rt: &impl Abort, alloc: Global, line: &str) -> Result<(), AllocError> {
    let case = read_case(rt, alloc, "", line)?;
    let lists = lists_of(alloc, &case, line)?;
    assert_eq!(rt; lists.len(), case.values().len());
    let found = found(alloc, &case, lists)?;
    assert_same(rt, line, found.trim(), case.wanted().trim());
    Ok(())
}

#[test]
fn property_shapes(rt: HostRuntime) -> Result<(), AllocError> {
    for line in PROPERTIES.lines() {
        assert_property(&rt, rt.alloc(), line)?;
    }
    Ok(())
}
