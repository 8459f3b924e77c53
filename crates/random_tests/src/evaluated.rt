// How many pairs of a shape and a node are evaluated after changes: those that the changes touch and that are targets then.
ghost use Rattle.std.specs.Prelude.{◌≡◌, ◌+◌, ◌*◌, ◌<◌, ◌^◌, IfOk, length};
ghost use Rattle.path_eval.specs.Instances.{AreClassWords};
ghost use Rattle.rdf_model.specs.Numbers.{AreNumbered, IsNumbering};
ghost use Rattle.parallel_validate.specs.Named.{AreNamedTriples};

use crate::changes::{Changed, both_graphs, push_if};
use collections::Sequence;
use graph_plans::plan_graph;
use outside::RegexMaker;
use parallel_validate::{CheckedRows, check, number_triple};
use path_eval::ClassWords;
use plain_validation::{class_words, names_of};
use rdf_model::{Footprint, ListGraph, ListNames, Term, Triple};
use shape_eval::Steps;
use shape_plans::PlannedShapes;
use shapes_graph::ShapesGraph;
use std::alloc::{AllocError, Global};
use std::marker::Brand;
use std::process::Abort;
use std::sync::ledger::{Blank, Ledger};
use std::test::Fail;
use target_nodes::{is_target, targets};

const SHAPES: &str = "\
<e:S> <http://www.w3.org/ns/shacl#targetClass> <e:C> .
<e:S> <http://www.w3.org/ns/shacl#property> <e:P> .
<e:P> <http://www.w3.org/ns/shacl#path> <e:p> .
<e:P> <http://www.w3.org/ns/shacl#minCount> \"1\"^^<http://www.w3.org/2001/XMLSchema#integer> .
";

// The triple that is added, and how many pairs are evaluated then.
const ADDED: [(&str, usize); 3] = [
    ("<e:x7> <e:p> <e:z> .", 1),
    ("<e:y> <e:p> <e:z> .", 0),
    (
        "<e:C> <http://www.w3.org/2000/01/rdf-schema#subClassOf> <e:D> .",
        100,
    ),
];

// A hundred instances of e:C with one value of e:p each, and the line.
fn graph_with(alloc: Global, line: &str) -> Result<String, AllocError> {
    let mut text = String::new(alloc);
    for number in 0..100 {
        let node = "<e:x";
        let class = "> <http://www.w3.org/1999/02/22-rdf-syntax-ns#type> <e:C> .";
        write!(
            text,
            "{node}{number}{class}\n{node}{number}> <e:p> <e:v> .\n"
        )?;
    }
    write!(text, "{line}\n")?;
    Ok(text)
}

// Whether the triple is the one that is added: no other has one of these objects.
fn is_added(triple: &Triple) -> bool {
    match &triple.object {
        Term::Iri(text) => text.as_str() == "e:z" || text.as_str() == "e:D",
        _ => false,
    }
}

// All triples are there afterwards, and all but the added one before.
fn added_last(alloc: Global, names: &ListNames, all: &[Triple]) -> Result<Changed, AllocError>
    requires { AreNamedTriples names.now all.now }
    ensures before { IfOk result (λ added. AreNumbered names.now added.before) }
    ensures later { IfOk result (λ added. AreNumbered names.now added.later) }
    ensures changed { IfOk result (λ added. AreNumbered names.now added.changed) }
{
    let mut before = Sequence::new(alloc);
    let mut later = Sequence::new(alloc);
    let mut changed = Sequence::new(alloc);
    for triple in all {
        let ids = number_triple(names, triple);
        let is_new = is_added(triple);
        push_if(&mut before, ids, !is_new)?;
        push_if(&mut later, ids, true)?;
        push_if(&mut changed, ids, is_new)?;
    }
    Ok(Changed {
        before,
        later,
        changed,
    })
}

// Whether the pair's node is a target of its shape in the graph.
fn is_of_target(
    rt: &impl Abort,
    alloc: Global,
    graph: &ListGraph,
    planned: &PlannedShapes,
    pair: &CheckedRows,
) -> Result<bool, Fail> {
    let place = pair.shape as usize;
    let bound = &planned.bound;
    assert!(rt; place < bound.shapes.len());
    let mut looks = Footprint::new(alloc);
    let aim = is_target(
        alloc,
        graph,
        planned.words,
        bound,
        place,
        pair.focus,
        &mut looks,
    )?;
    Ok(aim)
}

// How many of the pairs are of targets in the graph.
fn targets_among(
    rt: &impl Abort,
    alloc: Global,
    graph: &ListGraph,
    planned: &PlannedShapes,
    pairs: &[CheckedRows],
) -> Result<usize, Fail> {
    let mut count: usize = 0;
    for pair in pairs {
        if is_of_target(rt, alloc, graph, planned, pair)? {
            count = count.saturating_add(1);
        }
    }
    Ok(count)
}

// How many targets all shapes have in the graph.
fn all_targets(
    alloc: Global,
    graph: &ListGraph,
    planned: &PlannedShapes,
) -> Result<usize, AllocError> {
    let mut count: usize = 0;
    for shape in 0..planned.bound.shapes.len() {
        let nodes = targets(alloc, graph, planned.words, &planned.bound, shape)?;
        count = count.saturating_add(nodes.len());
    }
    Ok(count)
}

// How many pairs are evaluated by a check of the changes, and how many by a validation of the whole graph after them.
fn counts_in<L: Ledger>(
    rt: &impl Abort,
    alloc: Global,
    names: &ListNames,
    words: ClassWords,
    added: Changed,
    shapes: &ShapesGraph,
    blank: Blank,
) -> Result<(usize, usize), Fail>
    requires numbering { IsNumbering names.now }
    requires words { AreClassWords names.now words }
    requires shapes { AreNamedTriples names.now shapes.now }
    requires before { AreNumbered names.now added.before }
    requires later { AreNumbered names.now added.later }
    requires changed { AreNumbered names.now added.changed }
    requires name { blank.name ≡ L.name }
    requires parts { blank.parts ≡ L.parts }
    requires some { 0 < L.parts }
{
    let mut steps = Steps::<L>::begin(blank);
    let Changed {
        before,
        later,
        changed,
    } = added;
    let before = ListGraph::from_triples(before);
    let later = ListGraph::from_triples(later);
    let planned = plan_graph(alloc, names, words, shapes)?;
    let changed = changed.as_slice();
    let found = check(alloc, &before, &later, names, &planned, changed, &mut steps)?;
    let evaluated = targets_among(rt, alloc, &later, &planned, found.pairs.as_slice())?;
    let whole = all_targets(alloc, &later, &planned)?;
    Ok((evaluated, whole))
}

fn counts_of(
    rt: &impl Abort,
    alloc: Global,
    all: &[Triple],
    shapes: &ShapesGraph,
) -> Result<(usize, usize), Fail>
    requires { 3 * (length all.now + length shapes.now) + 2 < 2 ^ 32 }
{
    let names = names_of(alloc, all, shapes.triples())?;
    let names = ListNames::from_terms(Sequence::from_vec(names));
    let words = class_words(alloc, &names)?;
    let added = added_last(alloc, &names, all)?;
    counts_in::<Brand>(rt, alloc, &names, words, added, shapes, Blank::new(1))
}

// As many pairs are evaluated as are told, and all hundred targets where the whole graph is validated.
fn assert_counts(rt: &impl Abort, alloc: Global, line: &str, wanted: usize) -> Result<(), Fail> {
    let graph = graph_with(alloc, line)?;
    assert!(rt; graph.len() < 20000);
    let mut maker = RegexMaker::new(alloc);
    match both_graphs(alloc, &mut maker, graph.as_bytes(), SHAPES.as_bytes()) {
        Ok((all, shapes)) => {
            assert!(rt; all.len() < 20000);
            assert!(rt; shapes.triples().len() < 8000);
            let (evaluated, whole) = counts_of(rt, alloc, all.as_slice(), &shapes)?;
            assert_eq!(rt; evaluated, wanted, "{line}");
            assert_eq!(rt; whole, 100, "{line}");
            Ok(())
        }
        Err(fault) => {
            assert!(rt; false, "{fault:?} {line}");
            Ok(())
        }
    }
}

#[test]
fn just_what_is_touched_is_evaluated(rt: HostRuntime) -> Result<(), Fail> {
    for (line, wanted) in ADDED {
        assert_counts(&rt, rt.alloc(), line, wanted)?;
    }
    Ok(())
}
