// Small graphs that are drawn at random, each validated in both ways.

use outside::RegexMaker;
use plain_validation::{BothListings, both_listings};
use shape_model::{Component, ResultRow};
use std::alloc::{AllocError, Global};
use std::process::Abort;
use std::test::Fail;

// A row of numbers by a linear congruence, the same in each run.
#[derive(Drop)]
pub(crate) struct Draws {
    pub(crate) state: u64,
}

impl Draws {
    // A number below the count, or 0.
    pub(crate) fn below(&mut self, count: usize) -> usize {
        self.state = self
            .state
            .wrapping_mul(6364136223846793005)
            .wrapping_add(1442695040888963407);
        if count == 0 {
            return 0;
        }
        (self.state >> 33) as usize % count
    }
}

fn pick<'a>(draws: &mut Draws, items: &[&'a str]) -> &'a str {
    match items.get(draws.below(items.len())) {
        Some(item) => *item,
        None => "",
    }
}

// One of the ways of a line, which have bars between them.
fn pick_way<'a>(draws: &mut Draws, ways: &'a str) -> &'a str {
    let at = draws.below(ways.split('|').count());
    ways.split('|').nth(at).unwrap_or("")
}

// The name spaces that prefixes are short for.
const SPACES: [(&str, &str); 4] = [
    ("<sh:", "<http://www.w3.org/ns/shacl#"),
    ("<rdf:", "<http://www.w3.org/1999/02/22-rdf-syntax-ns#"),
    ("<rdfs:", "<http://www.w3.org/2000/01/rdf-schema#"),
    ("<xsd:", "<http://www.w3.org/2001/XMLSchema#"),
];

// The text with each IRI in full.
pub(crate) fn expanded(alloc: Global, text: &str) -> Result<String, AllocError> {
    let mut full = String::from_str(alloc, text)?;
    for (short, long) in SPACES {
        full = full.as_str().replace(alloc, short, long)?;
    }
    Ok(full)
}

const NODES: &[&str] = &["<e:a>", "<e:a>", "<e:b>", "<e:c>", "_:x", "<e:C>"];

const PREDICATES: &[&str] = &[
    "<e:p>",
    "<e:p>",
    "<e:p>",
    "<e:q>",
    "<e:q>",
    "<rdf:type>",
    "<rdfs:subClassOf>",
];

const CLASSES: &[&str] = &["<e:C>", "<e:D>", "<e:S>"];

const VALUES: &[&str] = &[
    "<e:a>",
    "<e:b>",
    "<e:c>",
    "_:x",
    "_:y",
    "\"1\"^^<xsd:integer>",
    "\"01\"^^<xsd:integer>",
    "\"2\"^^<xsd:integer>",
    "\"1.5\"^^<xsd:decimal>",
    "\"one\"^^<xsd:integer>",
    "\"ab\"",
    "\"AB\"",
    "\"a\\nb\"",
    "\"a.b\"@en",
    "\"a\"@en",
    "\"b\"@EN",
    "\"c\"@en",
    "\"d\"@EN",
    "\"b\"@de-AT",
    "\"2020-01-01T00:00:00Z\"^^<xsd:dateTime>",
    "\"2020-01-01T00:00:00\"^^<xsd:dateTime>",
];

pub(crate) fn graph_text(alloc: Global, draws: &mut Draws) -> Result<String, AllocError> {
    let mut text = String::new(alloc);
    let triples = draws.below(7).saturating_add(6);
    for _ in 0..triples {
        let subject = pick(draws, NODES);
        let predicate = pick(draws, PREDICATES);
        let values = if predicate.starts_with("<rdf") {
            CLASSES
        } else {
            VALUES
        };
        let value = pick(draws, values);
        write!(text, "{subject} {predicate} {value} .\n")?;
    }
    Ok(text)
}

const TARGETS: &[&str] = &[
    "<e:S> <sh:targetNode> <e:a> .\n",
    "<e:S> <sh:targetNode> <e:b> .\n<e:S> <sh:targetNode> \"ab\" .\n",
    "<e:S> <sh:targetClass> <e:C> .\n",
    "<e:S> <sh:targetSubjectsOf> <e:p> .\n",
    "<e:S> <sh:targetObjectsOf> <e:p> .\n",
    "<e:S> <rdf:type> <rdfs:Class> .\n",
];

const PATHS: &[&str] = &[
    "<e:S> <sh:path> <e:p> .\n",
    "<e:S> <sh:path> <e:p> .\n",
    "<e:S> <sh:path> _:r .\n_:r <sh:inversePath> <e:p> .\n",
    "<e:S> <sh:path> _:r .\n_:r <sh:zeroOrMorePath> <e:p> .\n",
    "<e:S> <sh:path> _:r .\n_:r <sh:oneOrMorePath> <e:p> .\n",
    "<e:S> <sh:path> _:r .\n_:r <sh:zeroOrOnePath> <e:q> .\n",
    "<e:S> <sh:path> _:k .\n_:k <rdf:first> <e:p> .\n_:k <rdf:rest> _:l .\n_:l <rdf:first> <e:q> .\n_:l <rdf:rest> <rdf:nil> .\n",
    "<e:S> <sh:path> _:r .\n_:r <sh:alternativePath> _:k .\n_:k <rdf:first> <e:p> .\n_:k <rdf:rest> _:l .\n_:l <rdf:first> <e:q> .\n_:l <rdf:rest> <rdf:nil> .\n",
    "<e:S> <sh:path> _:s .\n_:s <sh:oneOrMorePath> _:r .\n_:r <sh:alternativePath> _:k .\n_:k <rdf:first> <e:p> .\n_:k <rdf:rest> _:l .\n_:l <rdf:first> _:i .\n_:i <sh:inversePath> <e:q> .\n_:l <rdf:rest> <rdf:nil> .\n",
    "<e:S> <sh:path> _:s .\n_:s <sh:inversePath> _:k .\n_:k <rdf:first> _:r .\n_:r <sh:zeroOrOnePath> <e:p> .\n_:k <rdf:rest> _:l .\n_:l <rdf:first> <e:p> .\n_:l <rdf:rest> <rdf:nil> .\n",
];

// The constraints that any shape may have: the ways of each have bars between them.
const CONSTRAINTS: &[&str] = &[
    "<e:S> <sh:class> <e:C> .\n|<e:S> <sh:class> <e:D> .\n",
    "<e:S> <sh:datatype> <xsd:integer> .\n|<e:S> <sh:datatype> <rdf:langString> .\n",
    "<e:S> <sh:nodeKind> <sh:IRI> .\n|<e:S> <sh:nodeKind> <sh:BlankNodeOrLiteral> .\n",
    "<e:S> <sh:minExclusive> \"1\"^^<xsd:integer> .\n",
    "<e:S> <sh:minInclusive> \"1.5\"^^<xsd:decimal> .\n|<e:S> <sh:minInclusive> \"2020-01-01T00:00:00Z\"^^<xsd:dateTime> .\n",
    "<e:S> <sh:maxExclusive> \"2\"^^<xsd:integer> .\n",
    "<e:S> <sh:maxInclusive> \"1\"^^<xsd:integer> .\n",
    "<e:S> <sh:minLength> \"2\"^^<xsd:integer> .\n",
    "<e:S> <sh:maxLength> \"1\"^^<xsd:integer> .\n",
    "<e:S> <sh:pattern> \"B\" .\n|<e:S> <sh:pattern> \"^a.b$\" .\n|<e:S> <sh:pattern> \"^A\" .\n<e:S> <sh:flags> \"i\" .\n|<e:S> <sh:pattern> \"^a.b$\" .\n<e:S> <sh:flags> \"s\" .\n|<e:S> <sh:pattern> \"^b$\" .\n<e:S> <sh:flags> \"m\" .\n|<e:S> <sh:pattern> \"a b$\" .\n<e:S> <sh:flags> \"x\" .\n|<e:S> <sh:pattern> \"A .b\" .\n<e:S> <sh:flags> \"ixs\" .\n",
    "<e:S> <sh:node> <e:V> .\n<e:V> <sh:pattern> \"b\" .\n|<e:S> <sh:node> <e:V> .\n<e:V> <sh:pattern> \"b\" .\n<e:V> <sh:flags> \"i\" .\n|<e:S> <sh:not> <e:V> .\n<e:V> <sh:pattern> \"^a.b\" .\n<e:V> <sh:flags> \"s\" .\n",
    "<e:S> <sh:languageIn> _:t .\n_:t <rdf:first> \"en\" .\n_:t <rdf:rest> <rdf:nil> .\n|<e:S> <sh:languageIn> _:t .\n_:t <rdf:first> \"de\" .\n_:t <rdf:rest> <rdf:nil> .\n",
    "<e:S> <sh:equals> <e:q> .\n",
    "<e:S> <sh:disjoint> <e:q> .\n",
    "<e:S> <sh:not> <e:T> .\n",
    "<e:S> <sh:and> _:and1 .\n_:and1 <rdf:first> <e:T> .\n_:and1 <rdf:rest> _:and2 .\n_:and2 <rdf:first> <e:U> .\n_:and2 <rdf:rest> <rdf:nil> .\n",
    "<e:S> <sh:or> _:or1 .\n_:or1 <rdf:first> <e:T> .\n_:or1 <rdf:rest> _:or2 .\n_:or2 <rdf:first> <e:U> .\n_:or2 <rdf:rest> <rdf:nil> .\n",
    "<e:S> <sh:xone> _:xone1 .\n_:xone1 <rdf:first> <e:T> .\n_:xone1 <rdf:rest> _:xone2 .\n_:xone2 <rdf:first> <e:U> .\n_:xone2 <rdf:rest> <rdf:nil> .\n|<e:S> <sh:xone> _:xone1 .\n_:xone1 <rdf:first> <e:T> .\n_:xone1 <rdf:rest> _:xone2 .\n_:xone2 <rdf:first> <e:T> .\n_:xone2 <rdf:rest> <rdf:nil> .\n",
    "<e:S> <sh:node> <e:U> .\n|<e:S> <sh:node> <e:T> .\n",
    "<e:S> <sh:property> <e:P> .\n<e:P> <sh:path> <e:q> .\n<e:P> <sh:maxCount> \"0\"^^<xsd:integer> .\n|<e:S> <sh:property> <e:P> .\n<e:P> <sh:path> <e:q> .\n<e:P> <sh:minCount> \"1\"^^<xsd:integer> .\n",
    "<e:S> <sh:closed> \"true\"^^<xsd:boolean> .\n|<e:S> <sh:closed> \"true\"^^<xsd:boolean> .\n<e:S> <sh:ignoredProperties> _:o .\n_:o <rdf:first> <e:p> .\n_:o <rdf:rest> <rdf:nil> .\n",
    "<e:S> <sh:hasValue> <e:b> .\n|<e:S> <sh:hasValue> \"1\"^^<xsd:integer> .\n",
    "<e:S> <sh:in> _:j .\n_:j <rdf:first> <e:a> .\n_:j <rdf:rest> <rdf:nil> .\n|<e:S> <sh:in> <rdf:nil> .\n",
];

// Those that property shapes alone may have.
const COUNTS: &[&str] = &[
    "<e:S> <sh:minCount> \"1\"^^<xsd:integer> .\n|<e:S> <sh:minCount> \"2\"^^<xsd:integer> .\n",
    "<e:S> <sh:maxCount> \"0\"^^<xsd:integer> .\n|<e:S> <sh:maxCount> \"1\"^^<xsd:integer> .\n",
    "<e:S> <sh:uniqueLang> \"true\"^^<xsd:boolean> .\n",
    "<e:S> <sh:lessThan> <e:q> .\n",
    "<e:S> <sh:lessThanOrEquals> <e:q> .\n",
    "<e:S> <sh:qualifiedValueShape> <e:T> .\n<e:S> <sh:qualifiedMinCount> \"1\"^^<xsd:integer> .\n",
    "<e:S> <sh:qualifiedValueShape> <e:T> .\n<e:S> <sh:qualifiedMaxCount> \"0\"^^<xsd:integer> .\n",
    "<e:R> <sh:property> <e:S> .\n<e:R> <sh:property> <e:Q> .\n<e:Q> <sh:path> <e:q> .\n<e:Q> <sh:qualifiedValueShape> <e:U> .\n<e:S> <sh:qualifiedValueShapesDisjoint> \"true\"^^<xsd:boolean> .\n<e:S> <sh:qualifiedValueShape> <e:T> .\n<e:S> <sh:qualifiedMaxCount> \"0\"^^<xsd:integer> .\n",
];

// The shapes that others refer to.
const REFERRED: &str = "<e:T> <sh:nodeKind> <sh:IRI> .\n<e:U> <sh:class> <e:D> .\n";

// The constraint at the place, and another.
fn push_constraints(text: &mut String, draws: &mut Draws, first: usize) -> Result<(), AllocError> {
    let second = draws.below(CONSTRAINTS.len());
    for (at, ways) in CONSTRAINTS.iter().enumerate() {
        if at == first || at == second {
            text.push_str(pick_way(draws, ways))?;
        }
    }
    Ok(())
}

// A shape, which has a path in three of four graphs, and what it refers to. Each constraint has its turn.
pub(crate) fn shapes_text(
    alloc: Global,
    draws: &mut Draws,
    turn: usize,
) -> Result<String, AllocError> {
    let mut text = String::from_str(alloc, REFERRED)?;
    text.push_str(pick(draws, TARGETS))?;
    push_constraints(&mut text, draws, turn % CONSTRAINTS.len())?;
    if draws.below(4) > 0 {
        text.push_str(pick(draws, PATHS))?;
        let ways = match COUNTS.get(turn % COUNTS.len()) {
            Some(ways) => *ways,
            None => "",
        };
        text.push_str(pick_way(draws, ways))?;
    }
    Ok(text)
}

// What the graphs had so far.
#[derive(Drop)]
pub(crate) struct Tally {
    with_results: u32,
    components: Vec<Component>,
}

impl Tally {
    pub(crate) fn new(alloc: Global) -> Tally {
        Tally {
            with_results: 0,
            components: Vec::new(alloc),
        }
    }
}

pub(crate) fn note(tally: &mut Tally, rows: &[ResultRow]) -> Result<(), AllocError> {
    if !rows.is_empty() {
        tally.with_results = tally.with_results.saturating_add(1);
    }
    for row in rows {
        if !tally.components.contains(&row.component) {
            tally.components.push(row.component)?;
        }
    }
    Ok(())
}

pub(crate) fn assert_same(
    rt: &impl Abort,
    plain: &[ResultRow],
    compiled: &[ResultRow],
    shapes: &str,
) -> Result<(), Fail> {
    assert_eq!(rt; plain.len(), compiled.len(), "{shapes}");
    for (one, other) in plain.iter().zip(compiled.iter()) {
        assert!(rt; one == other, "{shapes}");
    }
    Ok(())
}

// Both listings of one pair of graphs.
fn try_one(
    rt: &impl Abort,
    alloc: Global,
    draws: &mut Draws,
    turn: usize,
    tally: &mut Tally,
) -> Result<(), Fail> {
    let graph = expanded(alloc, graph_text(alloc, draws)?.as_str())?;
    let shapes = expanded(alloc, shapes_text(alloc, draws, turn)?.as_str())?;
    assert!(rt; graph.len() < 4000 && shapes.len() < 4000);
    let mut maker = RegexMaker::new(alloc);
    match both_listings(alloc, &mut maker, graph.as_bytes(), shapes.as_bytes()) {
        Ok(BothListings { plain, compiled }) => {
            note(tally, compiled.as_slice())?;
            assert_same(rt, plain.as_slice(), compiled.as_slice(), shapes.as_str())
        }
        Err(fault) => {
            assert!(rt; false, "{fault:?} {shapes}");
            Ok(())
        }
    }
}

// More than half of so many listings had results, some had none, and each component had one.
pub(crate) fn assert_all_occur(rt: &impl Abort, tally: &Tally, listings: usize) {
    let with_results = tally.with_results as usize;
    assert!(rt;
        with_results > listings / 2 && with_results < listings,
        "{with_results}"
    );
    assert!(rt; tally.components.len() == 28, "{:?}", tally.components);
}

const GRAPHS: usize = 240;

#[test]
fn both_ways_agree_on_graphs_at_random(rt: HostRuntime) -> Result<(), Fail> {
    let alloc = rt.alloc();
    let mut draws = Draws { state: 1 };
    let mut tally = Tally::new(alloc);
    for turn in 0..GRAPHS {
        try_one(&rt, alloc, &mut draws, turn, &mut tally)?;
    }
    assert_all_occur(&rt, &tally, GRAPHS);
    Ok(())
}
