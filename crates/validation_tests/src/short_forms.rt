// Terms, triples and results in short forms, for tables.

use rdf_model::{Term, Text, Triple};
use shape_model::ResultRow;
use std::alloc::{AllocError, Global};

const SHACL: &str = "http://www.w3.org/ns/shacl#";

const RDF: &str = "http://www.w3.org/1999/02/22-rdf-syntax-ns#";

const RDFS: &str = "http://www.w3.org/2000/01/rdf-schema#";

const XSD: &str = "http://www.w3.org/2001/XMLSchema#";

fn joined(alloc: Global, first: &str, last: &str) -> Result<Text, AllocError> {
    let text = format!(in alloc; "{first}{last}")?;
    Text::from_string(text)
}

fn literal(alloc: Global, lexical: &str, datatype: &str) -> Result<Term, AllocError> {
    Ok(Term::Literal {
        lexical: Text::new(alloc, lexical)?,
        datatype: joined(alloc, XSD, datatype)?,
        language: None,
    })
}

// An IRI, with the prefixes sh, rdf and rdfs.
fn iri(alloc: Global, short: &str) -> Result<Term, AllocError> {
    let text = match short.split_once(':') {
        Some(("sh", name)) => joined(alloc, SHACL, name)?,
        Some(("rdf", name)) => joined(alloc, RDF, name)?,
        Some(("rdfs", name)) => joined(alloc, RDFS, name)?,
        _ => Text::new(alloc, short)?,
    };
    Ok(Term::Iri(text))
}

// A term by its short form: `_1` to `_5` are blank nodes, `'5` is an integer, `%true` a boolean,
// `"x` a string, and all else is an IRI.
pub(crate) fn term(alloc: Global, short: &str) -> Result<Term, AllocError> {
    for (name, number) in [("_1", 1), ("_2", 2), ("_3", 3), ("_4", 4), ("_5", 5)] {
        if short == name {
            return Ok(Term::Blank { session: 1, number });
        }
    }
    if let Some(lexical) = short.strip_prefix('\'') {
        return literal(alloc, lexical, "integer");
    }
    if let Some(lexical) = short.strip_prefix('%') {
        return literal(alloc, lexical, "boolean");
    }
    match short.strip_prefix('"') {
        Some(lexical) => literal(alloc, lexical, "string"),
        None => iri(alloc, short),
    }
}

// The term of a short form, where an empty text stands for none.
pub(crate) fn optional_term(alloc: Global, short: &str) -> Result<Option<Term>, AllocError> {
    if short.is_empty() {
        return Ok(None);
    }
    Ok(Some(term(alloc, short)?))
}

fn part(alloc: Global, short: Option<&str>) -> Result<Term, AllocError> {
    match short {
        Some(short) => term(alloc, short),
        None => iri(alloc, "e:missing"),
    }
}

// Subject, predicate and object, with blanks between them.
fn triple(alloc: Global, line: &str) -> Result<Triple, AllocError> {
    let mut parts = line.trim().split(' ');
    Ok(Triple {
        subject: part(alloc, parts.next())?,
        predicate: part(alloc, parts.next())?,
        object: part(alloc, parts.next())?,
    })
}

// The triples of a line, with semicolons between them.
pub(crate) fn graph_of_line(alloc: Global, line: &str) -> Result<Vec<Triple>, AllocError> {
    let mut triples = Vec::new(alloc);
    if line.is_empty() {
        return Ok(triples);
    }
    for short in line.split(';') {
        triples.push(triple(alloc, short)?)?;
    }
    Ok(triples)
}

// Node, rule and value of a broken rule in one line.
pub(crate) fn text_of_rule(
    alloc: Global,
    node: &Term,
    rule: u8,
    value: &Option<Term>,
) -> Result<String, AllocError> {
    let mut text = format!(in alloc; "{node} {rule}")?;
    push_optional(&mut text, value)?;
    Ok(text)
}

// Node, rule and value of a broken rule, given by short forms; nothing, where there are none.
fn rule_of(alloc: Global, shorts: &str) -> Result<String, AllocError> {
    let mut text = String::new(alloc);
    let mut parts = shorts.trim().split(' ');
    let node = parts.next().unwrap_or("");
    if node.is_empty() {
        return Ok(text);
    }
    write!(text, "{}", term(alloc, node)?)?;
    write!(text, " {}", parts.next().unwrap_or(""))?;
    push_optional(
        &mut text,
        &optional_term(alloc, parts.next().unwrap_or(""))?,
    )?;
    Ok(text)
}

// A line of a table: a shapes graph, `=>`, and the broken rule that is reported, if one is.
pub(crate) fn graph_and_rule(
    alloc: Global,
    line: &str,
) -> Result<(Vec<Triple>, String), AllocError> {
    match line.split_once(" =>") {
        Some((graph, rule)) => Ok((graph_of_line(alloc, graph)?, rule_of(alloc, rule)?)),
        None => Ok((graph_of_line(alloc, line)?, String::new(alloc))),
    }
}

pub(crate) fn push_optional(text: &mut String, term: &Option<Term>) -> Result<(), AllocError> {
    match term {
        Some(term) => write!(text, " {term}"),
        None => text.push_str(" -"),
    }
}

// A line of a result: the source shape, the focus node, the component, its parameter, the value node that
// it is about, the value, and what else tells results apart.
fn push_row(text: &mut String, row: &ResultRow) -> Result<(), AllocError> {
    let source_shape = &row.source_shape;
    let focus_node = &row.focus_node;
    let component = row.component;
    write!(text, "{source_shape} {focus_node} {component:?}")?;
    for part in [&row.parameter, &row.about, &row.value, &row.other] {
        push_optional(text, part)?;
    }
    text.push_str("\n")
}

pub(crate) fn text_of_rows(alloc: Global, rows: &[ResultRow]) -> Result<String, AllocError> {
    let mut text = String::new(alloc);
    for row in rows {
        push_row(&mut text, row)?;
    }
    Ok(text)
}
