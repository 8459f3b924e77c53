//! The rows of the tables: read, and their results compared.
ghost use Rattle.std.specs.Prelude.{◌≡◌, ◌<◌, IfOk, IsTrue, length};
ghost use Rattle.std.specs.List.{Contains};
ghost use Rattle.std.specs.Ordering.{nat_cmp};
ghost use Rattle.collections.specs.Ordered.{IsAscending};
ghost use Rattle.rdf_model.specs.Numbers.{AreNumbered, IsNumbering};
ghost use Rattle.component_rows.specs.Nodes.{AreNodes};
ghost use Rattle.component_rows.specs.Sites.{spot};
ghost use Rattle.constraint_tests.specs.Rows.{IsRow};

use crate::checks::{are_distinct, are_named, are_nodes, are_numbered};
use crate::short_terms::{term, text_of_row};
use collections::{Sequence, sorted_once};
use component_rows::Site;
use rdf_model::{Ids, ListGraph, ListNames, Names, Term};
use shape_model::ResultRow;
use std::alloc::{AllocError, Global};
use std::marker::Model;
use std::process::Abort;

// A row of a table: a component, the value of its parameter, the value nodes, other terms, and the results.
// The focus node is e:f, which has the other terms as values of the parameter. The members are those terms, each
// once.
pub(crate) struct Case<'a> {
    component: &'a str,
    names: ListNames,
    graph: ListGraph,
    source: Term,
    focus: u32,
    parameter: u32,
    values: Vec<u32>,
    others: Vec<u32>,
    members: Vec<u32>,
    wanted: &'a str,
}

impl<'a> Model for Case<'a> {
    ghost use Rattle.constraint_tests.specs.Rows.{IsRow, Row};

    ghost Value = { Row };

    ghost view = { λ c. record { names = c.names; graph = c.graph; source = c.source; focus = c.focus; parameter = c.parameter; values = c.values.items; others = c.others.items; members = c.members.items } };

    ghost invariant = { λ c. IsRow c.names c.graph c.focus c.parameter c.values.items c.others.items c.members.items };
}

// Written by hand, so that what owns a row calls it in place of having it written out.
impl<'a> Drop for Case<'a> {
    fn drop(self) {
        let Case {
            component: _,
            names: _,
            graph: _,
            source: _,
            focus: _,
            parameter: _,
            values: _,
            others: _,
            members: _,
            wanted: _,
        } = self;
    }
}

impl<'a> Case<'a> {
    // The component's name.
    pub(crate) fn component(&self) -> &'a str {
        self.component
    }

    // The results that are wanted.
    pub(crate) fn wanted(&self) -> &'a str {
        self.wanted
    }

    pub(crate) fn names(&self) -> &ListNames
        ensures value { result.now ≡ self.now.names }
        ensures numbering { IsNumbering result.now }
    {
        &self.names
    }

    pub(crate) fn graph(&self) -> &ListGraph
        ensures { AreNumbered self.now.names result.now }
    {
        &self.graph
    }

    pub(crate) fn focus(&self) -> u32
        ensures { result < length self.now.names }
    {
        self.focus
    }

    pub(crate) fn parameter(&self) -> u32
        ensures value { result ≡ self.now.parameter }
        ensures named { result < length self.now.names }
    {
        self.parameter
    }

    pub(crate) fn values(&self) -> &[u32]
        ensures { result.now ≡ self.now.values }
    {
        &self.values
    }

    pub(crate) fn others(&self) -> &[u32]
        ensures value { result.now ≡ self.now.others }
        ensures named { (n : _) → Contains result.now n → n < length self.now.names }
    {
        &self.others
    }

    pub(crate) fn members(&self) -> &[u32]
        ensures { AreNodes self.now.names result.now }
    {
        &self.members
    }
}

// The place as a number; no table has a thousand terms.
fn small(place: usize) -> u32 {
    if place < 1000 { place as u32 } else { 1000 }
}

// The number of a term, which is added where it is new.
fn number_of(alloc: Global, terms: &mut Sequence<Term>, short: &str) -> Result<u32, AllocError> {
    let new = term(alloc, short)?;
    for (place, other) in terms.as_slice().iter().enumerate() {
        if *other == new {
            return Ok(small(place));
        }
    }
    let place = terms.len();
    terms.push(new)?;
    Ok(small(place))
}

// The numbers of terms with blanks between them.
fn numbers_of(
    alloc: Global,
    terms: &mut Sequence<Term>,
    shorts: &str,
) -> Result<Vec<u32>, AllocError> {
    let mut numbers = Vec::new(alloc);
    for short in shorts.split_ascii_whitespace() {
        numbers.push(number_of(alloc, terms, short)?)?;
    }
    Ok(numbers)
}

fn at(numbers: &[u32], place: usize) -> u32 {
    match numbers.get(place) {
        Some(number) => *number,
        None => 0,
    }
}

// The triples of a text, one a line.
fn triples_of(
    alloc: Global,
    terms: &mut Sequence<Term>,
    lines: &str,
) -> Result<Sequence<Ids>, AllocError> {
    let mut triples = Sequence::new(alloc);
    for line in lines.lines() {
        let numbers = numbers_of(alloc, terms, line)?;
        triples.push(Ids {
            subject: at(&numbers, 0),
            predicate: at(&numbers, 1),
            object: at(&numbers, 2),
        })?;
    }
    Ok(triples)
}

// The triples of a node with some values, each twice, in falling order, among triples of another subject and of another
// predicate.
fn values_at(
    alloc: Global,
    terms: &mut Sequence<Term>,
    subject: u32,
    predicate: u32,
    objects: &[u32],
) -> Result<Sequence<Ids>, AllocError> {
    let other = number_of(alloc, terms, "e:other")?;
    let mut triples = Sequence::new(alloc);
    for (subject, predicate) in [(other, predicate), (subject, other)] {
        triples.push(Ids {
            subject,
            predicate,
            object: other,
        })?;
    }
    for _ in 0..2 {
        for object in objects {
            triples.push(Ids {
                subject,
                predicate,
                object: *object,
            })?;
        }
    }
    Ok(triples)
}

// The numbers of a row's terms.
#[derive(Drop)]
struct Numbers {
    focus: u32,
    parameter: u32,
    values: Vec<u32>,
    others: Vec<u32>,
    members: Vec<u32>,
}

// What a row tells, before it is tested.
#[derive(Drop)]
struct Draft {
    terms: Sequence<Term>,
    triples: Sequence<Ids>,
    numbers: Numbers,
}

// The parts of a row.
#[derive(Drop)]
struct Parts<'a> {
    component: &'a str,
    parameter: &'a str,
    values: &'a str,
    others: &'a str,
    wanted: &'a str,
}

fn part<'a>(text: Option<&'a str>) -> &'a str {
    text.unwrap_or("").trim()
}

// The parts have semicolons between them.
fn parts_of<'a>(line: &'a str) -> Parts<'a> {
    let mut parts = line.split(';');
    Parts {
        component: part(parts.next()),
        parameter: part(parts.next()),
        values: part(parts.next()),
        others: part(parts.next()),
        wanted: part(parts.next()),
    }
}

fn read_numbers(
    alloc: Global,
    terms: &mut Sequence<Term>,
    parts: &Parts<'_>,
) -> Result<Numbers, AllocError>
    ensures values { IfOk result (λ n. IsAscending nat_cmp n.values.items) }
    ensures members { IfOk result (λ n. IsAscending nat_cmp n.members.items) }
{
    let focus = number_of(alloc, terms, "e:f")?;
    let parameter = number_of(alloc, terms, parts.parameter)?;
    let values = sorted_once(numbers_of(alloc, terms, parts.values)?)?;
    let others = numbers_of(alloc, terms, parts.others)?;
    let members = sorted_once(others.clone()?)?;
    Ok(Numbers {
        focus,
        parameter,
        values,
        others,
        members,
    })
}

// Those of the text or, where it is empty, those of the focus node.
fn row_triples(
    alloc: Global,
    terms: &mut Sequence<Term>,
    graph: &str,
    numbers: &Numbers,
) -> Result<Sequence<Ids>, AllocError> {
    if graph.is_empty() {
        values_at(
            alloc,
            terms,
            numbers.focus,
            numbers.parameter,
            &numbers.others,
        )
    } else {
        triples_of(alloc, terms, graph)
    }
}

fn read_draft(alloc: Global, graph: &str, parts: &Parts<'_>) -> Result<Draft, AllocError>
    ensures values { IfOk result (λ d. IsAscending nat_cmp d.numbers.values.items) }
    ensures members { IfOk result (λ d. IsAscending nat_cmp d.numbers.members.items) }
{
    let mut terms = Sequence::new(alloc);
    let numbers = read_numbers(alloc, &mut terms, parts)?;
    let triples = row_triples(alloc, &mut terms, graph, &numbers)?;
    Ok(Draft {
        terms,
        triples,
        numbers,
    })
}

fn have_terms(numbers: &Numbers, terms: &[Term]) -> bool
    ensures focus { IsTrue result → numbers.now.focus < length terms.now }
    ensures parameter { IsTrue result → numbers.now.parameter < length terms.now }
    ensures others { IsTrue result → (n : _) → Contains numbers.now.others.items n → n < length terms.now }
{
    if numbers.focus as usize >= terms.len() {
        return false;
    }
    if numbers.parameter as usize >= terms.len() {
        return false;
    }
    are_named(&numbers.others, terms)
}

fn is_sound(terms: &[Term], triples: &[Ids], numbers: &Numbers) -> bool
    requires values { IsAscending nat_cmp numbers.now.values.items }
    requires members { IsAscending nat_cmp numbers.now.members.items }
    ensures { IsTrue result → IsRow terms.now triples.now numbers.now.focus numbers.now.parameter numbers.now.values.items numbers.now.others.items numbers.now.members.items }
{
    if !have_terms(numbers, terms) {
        return false;
    }
    if !are_distinct(terms) {
        return false;
    }
    if !are_numbered(triples, terms) {
        return false;
    }
    if !are_nodes(&numbers.values, terms) {
        return false;
    }
    are_nodes(&numbers.members, terms)
}

// Whether a row can be made of it.
fn is_complete(draft: &Draft) -> bool
    requires values { IsAscending nat_cmp draft.now.numbers.values.items }
    requires members { IsAscending nat_cmp draft.now.numbers.members.items }
    ensures few { IsTrue result → length draft.now.terms < 1000 }
    ensures row { IsTrue result → IsRow draft.now.terms draft.now.triples draft.now.numbers.focus draft.now.numbers.parameter draft.now.numbers.values.items draft.now.numbers.others.items draft.now.numbers.members.items }
{
    if draft.terms.len() >= 1000 {
        return false;
    }
    is_sound(
        draft.terms.as_slice(),
        draft.triples.as_slice(),
        &draft.numbers,
    )
}

fn case_of<'a>(source: Term, draft: Draft, parts: &Parts<'a>) -> Case<'a>
    requires few { length draft.terms < 1000 }
    requires row { IsRow draft.terms draft.triples draft.numbers.focus draft.numbers.parameter draft.numbers.values.items draft.numbers.others.items draft.numbers.members.items }
{
    let Draft {
        terms,
        triples,
        numbers,
    } = draft;
    let Numbers {
        focus,
        parameter,
        values,
        others,
        members,
    } = numbers;
    Case {
        component: parts.component,
        names: ListNames::from_terms(terms),
        graph: ListGraph::from_triples(triples),
        source,
        focus,
        parameter,
        values,
        others,
        members,
        wanted: parts.wanted,
    }
}

// A row of a table.
pub(crate) fn read_case<'a>(
    rt: &impl Abort,
    alloc: Global,
    graph: &str,
    line: &'a str,
) -> Result<Case<'a>, AllocError> {
    let parts = parts_of(line);
    let source = term(alloc, "e:S")?;
    let draft = read_draft(alloc, graph, &parts)?;
    assert!(rt; is_complete(&draft));
    Ok(case_of(source, draft, &parts))
}

// Where the row asks its component.
pub(crate) fn site_of<'a>(alloc: Global, case: &'a Case<'_>) -> Site<'a, ListNames>
    ensures { result ≡ spot case.entry.now.names case.entry.now.source case.entry.now.parameter case.entry.now.focus case.entry.now.values }
{
    let (names, source) = (&case.names, &case.source);
    let values = case.values.as_slice();
    Site::new(alloc, names, source, case.parameter, case.focus, values)
}

fn is_named(names: &ListNames, number: u32, term: &Term) -> bool {
    names.term(number) == Some(term)
}

// Whether the result is one of the row's component, source shape, focus node and parameter.
fn is_of(alloc: Global, case: &Case<'_>, row: &ResultRow) -> Result<bool, AllocError> {
    let component = row.component;
    let name = format!(in alloc; "{component:?}")?;
    let is_of_parameter = match &row.parameter {
        Some(parameter) => is_named(&case.names, case.parameter, parameter),
        None => false,
    };
    Ok(
        name.as_str() == case.component
            && row.source_shape == case.source
            && is_named(&case.names, case.focus, &row.focus_node)
            && is_of_parameter,
    )
}

// The texts as they stand, with blanks between them.
fn joined(alloc: Global, texts: Vec<String>) -> Result<String, AllocError> {
    let mut all = String::new(alloc);
    for text in &texts {
        write!(all, "{text} ")?;
    }
    Ok(all)
}

fn found(alloc: Global, case: &Case<'_>, rows: &[ResultRow]) -> Result<String, AllocError> {
    let mut texts = Vec::new(alloc);
    for row in rows {
        if is_of(alloc, case, row)? {
            texts.push(text_of_row(alloc, row)?)?;
        } else {
            texts.push(String::from_str(alloc, "of-another")?)?;
        }
    }
    joined(alloc, texts)
}

// A word without bars is a value node that its result is about and names as its value, or no node.
fn wanted(alloc: Global, words: &str) -> Result<String, AllocError> {
    let mut texts = Vec::new(alloc);
    for word in words.split_ascii_whitespace() {
        if word.contains('|') {
            texts.push(String::from_str(alloc, word)?)?;
        } else {
            texts.push(format!(in alloc; "{word}|{word}|-")?)?;
        }
    }
    joined(alloc, texts)
}

// Ends the test where a row finds anything but what it wants.
pub(crate) fn assert_same(rt: &impl Abort, line: &str, found: &str, wanted: &str) {
    assert_eq!(rt; found, wanted, "{line}");
}

// The results are those that the row wants, each once, in their order.
pub(crate) fn assert_found(
    rt: &impl Abort,
    alloc: Global,
    case: &Case<'_>,
    rows: &[ResultRow],
    line: &str,
) -> Result<(), AllocError> {
    let found = found(alloc, case, rows)?;
    let wanted = wanted(alloc, case.wanted)?;
    assert_same(rt, line, found.as_str(), wanted.as_str());
    Ok(())
}
