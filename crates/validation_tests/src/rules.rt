//! The rules of shapes graphs.
use crate::short_forms::{graph_and_rule, term, text_of_rule};
use collections::sorted_once;
use rdf_model::{Term, Text, Triple};
use shape_rules::{RuleRow, least_broken};
use std::alloc::{AllocError, Global};
use std::process::Abort;
use std::test::Fail;

// Shapes graphs, each with the node, the rule and the value of the broken rule that is reported, if one is.
const CASES: &str = "e:S sh:datatype e:a; e:S sh:datatype e:b => e:S 1 sh:datatype
e:S sh:class e:a; e:S sh:class e:b =>
e:S sh:targetNode _1 => e:S 2 _1
e:S sh:targetClass \"x => e:S 3 \"x
_1 sh:closed %true; _1 rdf:type rdfs:Class => _1 4
e:S sh:targetSubjectsOf '1 => e:S 5 '1
e:S sh:targetObjectsOf _1 => e:S 6 _1
e:S sh:targetNode e:a; e:S sh:severity \"x => e:S 7 \"x
e:S sh:severity \"x =>
e:S sh:targetNode e:a; e:S sh:message e:m => e:S 8 e:m
e:S sh:targetNode e:a; e:S sh:deactivated %1 => e:S 9 %1
e:S sh:path e:p; e:S rdf:type sh:NodeShape => e:S 10
e:S rdf:type e:c; e:c rdfs:subClassOf sh:PropertyShape => e:S 11
e:S sh:path \"p; e:S sh:targetNode e:a => e:S 12 \"p
e:S sh:targetNode e:a; e:S sh:path _1; _1 sh:inversePath e:p =>
e:S sh:targetNode e:a; e:S sh:path _1; _1 sh:zeroOrMorePath e:p =>
e:S sh:targetNode e:a; e:S sh:path _1; _1 sh:oneOrMorePath e:p =>
e:S sh:targetNode e:a; e:S sh:path _1; _1 sh:zeroOrOnePath e:p =>
e:S sh:targetNode e:a; e:S sh:path _1; _1 sh:alternativePath _2; _2 rdf:first e:p; _2 rdf:rest _3; _3 rdf:first e:q; _3 rdf:rest rdf:nil =>
e:S sh:targetNode e:a; e:S sh:path _1; _1 rdf:first e:p; _1 rdf:rest _2; _2 rdf:first e:q; _2 rdf:rest rdf:nil =>
e:S sh:targetNode e:a; e:S sh:path _1; _1 sh:inversePath _2; _2 sh:zeroOrMorePath _3; _3 rdf:first e:p; _3 rdf:rest _4; _4 rdf:first _5; _4 rdf:rest rdf:nil; _5 sh:inversePath e:q =>
e:S sh:targetNode e:a; e:S sh:path _1; _1 rdf:first _3; _1 rdf:rest _2; _2 rdf:first _3; _2 rdf:rest rdf:nil; _3 sh:inversePath e:p =>
e:S sh:targetNode e:a; e:S sh:path _1; _1 rdf:first e:p; _1 rdf:rest e:k; e:k rdf:first e:q; e:k rdf:rest rdf:nil; _1 e:x e:y =>
e:S sh:targetNode e:a; e:S sh:path rdf:nil =>
e:S sh:targetNode e:a; e:S sh:path _1 => e:S 12 _1
e:S sh:targetNode e:a; e:S sh:path _1; _1 sh:inversePath \"p => e:S 12 _1
e:S sh:targetNode e:a; e:S sh:path _1; _1 sh:inversePath _1 => e:S 12 _1
e:S sh:targetNode e:a; e:S sh:path _1; _1 sh:inversePath _2; _2 sh:zeroOrMorePath _1 => e:S 12 _1
e:S sh:targetNode e:a; e:S sh:path _1; _1 rdf:first _1; _1 rdf:rest _2; _2 rdf:first e:p; _2 rdf:rest rdf:nil => e:S 12 _1
e:S sh:targetNode e:a; e:S sh:path _1; _1 rdf:first e:p; _1 rdf:rest _1 => e:S 12 _1
e:S sh:targetNode e:a; e:S sh:path _1; _1 rdf:first e:p; _1 rdf:rest rdf:nil => e:S 12 _1
e:S sh:targetNode e:a; e:S sh:path _1; _1 sh:alternativePath _2; _2 rdf:first e:p; _2 rdf:rest rdf:nil => e:S 12 _1
e:S sh:targetNode e:a; e:S sh:path _1; _1 sh:alternativePath e:p => e:S 12 _1
e:S sh:targetNode e:a; e:S sh:path _1; _1 sh:inversePath e:p; _1 sh:zeroOrMorePath e:p => e:S 12 _1
e:S sh:targetNode e:a; e:S sh:path _1; _1 sh:inversePath e:p; _1 sh:inversePath e:q => e:S 12 _1
e:S sh:targetNode e:a; e:S sh:path _1; _1 sh:inversePath e:p; _1 rdf:type e:c => e:S 12 _1
e:S sh:targetNode e:a; e:S sh:path _1; _1 rdf:first e:p; _1 rdf:rest _2; _1 rdf:rest _3; _2 rdf:first e:q; _2 rdf:rest rdf:nil; _3 rdf:first e:q; _3 rdf:rest rdf:nil => e:S 12 _1
e:S sh:targetNode e:a; e:S sh:path _1; _1 rdf:first e:p; _1 rdf:rest _2; _2 rdf:first _3; _2 rdf:rest rdf:nil => e:S 12 _1
e:S sh:targetNode e:a; e:S sh:path _1; _1 sh:path e:p => e:S 12 _1
e:S sh:class \"x => e:S 13 \"x
e:S sh:datatype _1 => e:S 14 _1
e:S sh:nodeKind sh:Iri => e:S 15 sh:Iri
e:S sh:path e:p; e:S sh:maxCount \"1 => e:S 16 \"1
e:S sh:path e:p; e:S sh:minCount '+01 =>
e:S sh:minCount '1 => e:S 17 sh:minCount
e:S sh:minInclusive e:x => e:S 18 e:x
e:S sh:minLength 'x => e:S 19 'x
e:S sh:pattern e:x => e:S 20 e:x
e:S sh:flags \"ig => e:S 21 \"ig
e:S sh:in e:x => e:S 23 e:x
e:S sh:languageIn _1; _1 rdf:first e:x; _1 rdf:rest rdf:nil => e:S 24 e:x
e:S sh:path e:p; e:S sh:uniqueLang \"true => e:S 25 \"true
e:S sh:path e:p; e:S sh:uniqueLang %1 =>
e:S sh:disjoint \"x => e:S 26 \"x
e:S sh:path e:p; e:S sh:lessThan \"x => e:S 27 \"x
e:S sh:not \"x => e:S 28 \"x
e:S sh:and _1; _1 rdf:first e:x; _1 rdf:rest _1 => e:S 29 _1
e:S sh:or _1; _1 rdf:first \"x; _1 rdf:rest rdf:nil => e:S 30 \"x
e:S sh:node \"x => e:S 31 \"x
e:S sh:property e:Q => e:S 32 e:Q
e:S sh:path e:p; e:S sh:qualifiedValueShape \"x => e:S 33 \"x
e:S sh:path e:p; e:S sh:qualifiedMinCount \"1 => e:S 34 \"1
e:S sh:qualifiedValueShapesDisjoint \"x => e:S 35 \"x
e:S sh:closed %yes => e:S 36 %yes
e:S sh:ignoredProperties _1; _1 rdf:first \"x; _1 rdf:rest rdf:nil => e:S 37 _1
e:S sh:targetNode e:a; e:S sh:or _1; _1 rdf:first e:T; _1 rdf:rest _2; _2 rdf:first e:U; _2 rdf:rest rdf:nil; e:T sh:node e:S => e:S 38
e:S sh:node e:S => e:S 38
e:S sh:path e:p; e:S sh:property e:S => e:S 38
e:S sh:path e:p; e:S sh:qualifiedValueShape e:S => e:S 38
e:S sh:and _1; _1 rdf:first e:T; _1 rdf:rest _2; _2 rdf:first e:S; _2 rdf:rest rdf:nil => e:S 38
e:S sh:xone _1; _1 rdf:first e:T; _1 rdf:rest rdf:nil; e:T sh:node e:U; e:U sh:node e:S => e:S 38
e:T sh:not e:S; e:S sh:or _1; _1 rdf:first e:T; _1 rdf:rest rdf:nil => e:S 38
e:S sh:property e:P; e:S sh:property e:P2; e:P sh:path e:p; e:P sh:qualifiedValueShape e:Q; e:P sh:qualifiedMinCount '1; e:P sh:qualifiedValueShapesDisjoint %true; e:P2 sh:path e:p; e:P2 sh:qualifiedValueShape e:T; e:T sh:property e:P => e:P 38
e:S sh:deactivated %true; e:S sh:node e:S => e:S 38
e:A sh:node e:T; e:T sh:node e:U; e:U sh:node e:T; e:V sh:node e:V => e:T 38
_1 sh:node _2; _2 sh:node _1 => _1 38
e:S sh:node e:S; e:S sh:not \"x => e:S 28 \"x
e:S sh:node e:S; e:S sh:sparql e:q => e:S 38
e:A sh:sparql e:q; e:S sh:node e:S => e:A 39 sh:sparql
e:S sh:node e:S; e:T sh:class \"x => e:S 38
e:A sh:node e:B; e:A sh:node e:C; e:B sh:node e:D; e:C sh:node e:D =>
e:S sh:and _1; _1 rdf:first e:T; _1 rdf:rest _2; _2 rdf:first e:T; _2 rdf:rest rdf:nil; e:S sh:node e:T =>
e:S sh:targetNode e:S; e:S sh:class e:S; e:S sh:hasValue e:S; e:S sh:equals e:S; e:S sh:in _1; _1 rdf:first e:S; _1 rdf:rest rdf:nil =>
e:S e:node e:S =>
e:S sh:property e:P; e:S sh:property e:P2; e:P sh:path e:p; e:P sh:qualifiedValueShape e:Q; e:P sh:qualifiedMinCount '1; e:P sh:qualifiedValueShapesDisjoint %false; e:P2 sh:path e:p; e:P2 sh:qualifiedValueShape e:T; e:T sh:property e:P =>
e:S sh:property e:P; e:S sh:property e:P2; e:P sh:path e:p; e:P sh:qualifiedValueShape e:Q; e:P sh:qualifiedMinCount '1; e:P sh:qualifiedValueShapesDisjoint %1; e:P2 sh:path e:p; e:P2 sh:qualifiedValueShape e:T; e:T sh:property e:P =>
e:S sh:property e:P; e:S sh:property e:P2; e:P sh:path e:p; e:P sh:qualifiedValueShape e:Q; e:P sh:qualifiedValueShapesDisjoint %true; e:P2 sh:path e:p; e:P2 sh:qualifiedValueShape e:Q; e:P2 sh:qualifiedValueShapesDisjoint %true =>
e:n sh:sparql e:q => e:n 39 sh:sparql
e:n rdf:type sh:ConstraintComponent => e:n 39 sh:ConstraintComponent";

// The row in one line.
fn text_of(alloc: Global, row: &Option<RuleRow>) -> Result<String, AllocError> {
    match row {
        Some(RuleRow { node, rule, value }) => text_of_rule(alloc, node, *rule, value),
        None => Ok(String::new(alloc)),
    }
}

fn least(alloc: Global, graph: Vec<Triple>) -> Result<Option<RuleRow>, AllocError> {
    let sorted = sorted_once(graph)?;
    least_broken(alloc, sorted.as_slice())
}

fn assert_rule(rt: &impl Abort, alloc: Global, line: &str) -> Result<(), AllocError> {
    let (graph, expected) = graph_and_rule(alloc, line)?;
    let found = text_of(alloc, &least(alloc, graph)?)?;
    assert_eq!(rt; found.as_str(), expected.as_str(), "{line}");
    Ok(())
}

#[test]
fn rules_by_number(rt: HostRuntime) -> Result<(), Fail> {
    for line in CASES.lines() {
        assert_rule(&rt, rt.alloc(), line)?;
    }
    Ok(())
}

// A pattern of so many letters.
fn long_pattern(alloc: Global, letters: usize) -> Result<Vec<Triple>, AllocError> {
    let mut pattern = String::new(alloc);
    for _ in 0..letters {
        pattern.push('a')?;
    }
    let mut graph = Vec::new(alloc);
    graph.push(Triple {
        subject: term(alloc, "e:S")?,
        predicate: term(alloc, "sh:pattern")?,
        object: Term::Literal {
            lexical: Text::from_string(pattern)?,
            datatype: Text::new(alloc, "http://www.w3.org/2001/XMLSchema#string")?,
            language: None,
        },
    })?;
    Ok(graph)
}

#[test]
fn long_patterns(rt: HostRuntime) -> Result<(), Fail> {
    let alloc = rt.alloc();
    for (letters, is_broken) in [(4096, false), (4097, true)] {
        let found = least(alloc, long_pattern(alloc, letters)?)?;
        assert_eq!(rt; found.is_some(), is_broken, "{letters}");
    }
    Ok(())
}

fn numbered(alloc: Global, number: usize) -> Result<Term, AllocError> {
    let iri = format!(in alloc; "e:n{number}")?;
    Ok(Term::Iri(Text::from_string(iri)?))
}

fn refers(alloc: Global, from: usize, to: usize) -> Result<Triple, AllocError> {
    Ok(Triple {
        subject: numbered(alloc, from)?,
        predicate: term(alloc, "sh:node")?,
        object: numbered(alloc, to)?,
    })
}

// So many references, each shape to the next, and one from the last to this shape.
fn chain_to(alloc: Global, last: u16, back: usize) -> Result<Vec<Triple>, AllocError> {
    let last = last as usize;
    let mut graph = Vec::new(alloc);
    for number in 0..last {
        graph.push(refers(alloc, number, number + 1)?)?;
    }
    graph.push(refers(alloc, last, back)?)?;
    Ok(graph)
}

// Chains of 256 and of 257 references, and longer ones that lead to themselves as a whole, or to the end of themselves; the
// nodes in the order of their texts.
#[test]
fn long_chains(rt: HostRuntime) -> Result<(), Fail> {
    let alloc = rt.alloc();
    for (last, back, expected) in [
        (255, 256, ""),
        (256, 257, "<e:n0> 41 -"),
        (300, 0, "<e:n0> 38 -"),
        (300, 250, "<e:n250> 38 -"),
        (300, 300, "<e:n300> 38 -"),
    ] {
        let found = text_of(alloc, &least(alloc, chain_to(alloc, last, back)?)?)?;
        assert_eq!(rt; found.as_str(), expected, "{last} {back}");
    }
    Ok(())
}

fn blank(number: u32) -> Term {
    Term::Blank { session: 1, number }
}

// The path of a number: a blank node, and behind so many levels the IRI at the end.
fn nested(alloc: Global, number: u32, levels: u32) -> Result<Term, AllocError> {
    if number > levels {
        return term(alloc, "e:p");
    }
    Ok(blank(number))
}

// A cell of a list: its member and the next cell.
fn push_cell(
    alloc: Global,
    cell: u32,
    member: Term,
    rest: Term,
    graph: &mut Vec<Triple>,
) -> Result<(), AllocError> {
    graph.push(Triple {
        subject: blank(cell),
        predicate: term(alloc, "rdf:first")?,
        object: member,
    })?;
    graph.push(Triple {
        subject: blank(cell),
        predicate: term(alloc, "rdf:rest")?,
        object: rest,
    })?;
    Ok(())
}

// A node that is a sequence of twice the next.
fn push_doubled(
    alloc: Global,
    number: u32,
    next: &Term,
    graph: &mut Vec<Triple>,
) -> Result<(), AllocError> {
    let second = number.saturating_add(1000);
    push_cell(alloc, number, next.clone()?, blank(second), graph)?;
    push_cell(alloc, second, next.clone()?, term(alloc, "rdf:nil")?, graph)
}

fn push_inverse(
    alloc: Global,
    number: u32,
    next: Term,
    graph: &mut Vec<Triple>,
) -> Result<(), AllocError> {
    graph.push(Triple {
        subject: blank(number),
        predicate: term(alloc, "sh:inversePath")?,
        object: next,
    })?;
    Ok(())
}

// A shape with a path of so many levels: the first of them sequences of twice the next, the others inverses of the next.
fn doubled(
    alloc: Global,
    doublings: u32,
    levels: u32,
    shape: &str,
) -> Result<Vec<Triple>, AllocError> {
    let (mut graph, _) = graph_and_rule(alloc, shape)?;
    for number in 1..=levels {
        let next = nested(alloc, number.saturating_add(1), levels)?;
        if number <= doublings {
            push_doubled(alloc, number, &next, &mut graph)?;
        } else {
            push_inverse(alloc, number, next, &mut graph)?;
        }
    }
    Ok(graph)
}

fn assert_doubled(
    rt: &impl Abort,
    alloc: Global,
    doublings: u32,
    levels: u32,
    deactivated: &str,
    expected: &str,
) -> Result<(), AllocError> {
    let line = format!(in alloc;
        "e:S sh:targetNode e:a; e:S sh:path _1; e:S sh:deactivated {deactivated} =>"
    )?;
    let graph = doubled(alloc, doublings, levels, line.as_str())?;
    let found = text_of(alloc, &least(alloc, graph)?)?;
    assert_eq!(rt;
        found.as_str(),
        expected,
        "{doublings} {levels} {deactivated}"
    );
    Ok(())
}

// A path that is doubled so often has two to that power looks.
#[test]
fn doubled_paths(rt: HostRuntime) -> Result<(), Fail> {
    for (doublings, expected) in [(12, ""), (13, "<e:S> 40 -"), (40, "<e:S> 40 -")] {
        assert_doubled(&rt, rt.alloc(), doublings, doublings, "%false", expected)?;
    }
    Ok(())
}

// A deactivated shape has none.
#[test]
fn deep_doubled_paths(rt: HostRuntime) -> Result<(), Fail> {
    for (levels, expected) in [(256, ""), (257, "<e:S> 41 -")] {
        assert_doubled(&rt, rt.alloc(), 40, levels, "%true", expected)?;
    }
    Ok(())
}
