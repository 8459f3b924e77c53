// Changes of small graphs that are drawn at random: the listing that is had of checking them alone, and the one of the graph
// after them from scratch.
ghost use Rattle.std.specs.Prelude.{◌≡◌, ◌+◌, ◌*◌, ◌<◌, ◌^◌, IfOk, List, OnOk, length};
ghost use Rattle.std.specs.List.{All};
ghost use Rattle.path_eval.specs.Instances.{AreClassWords};
ghost use Rattle.rdf_model.specs.Numbers.{AreNumbered, IsNumbering};
ghost use Rattle.rdf_model.specs.declared.term.Term.{Term as TermData};
ghost use Rattle.shape_plans.specs.Planned.{ArePlanned};
ghost use Rattle.parallel_validate.specs.Named.{AreNamedTriples, IsNumbered};

use crate::listings::{
    Draws, Tally, assert_all_occur, assert_same, expanded, graph_text, note, shapes_text,
};
use collections::{Sequence, both, sorted_once};
use graph_plans::plan_graph;
use outside::RegexMaker;
use parallel_validate::{CheckedRows, check, listing_over, number_triple, whole};
use path_eval::ClassWords;
use plain_validation::{RowsFault, class_words, names_of, shapes_of, triples_of};
use rdf_model::{Footprint, Ids, ListGraph, ListNames, Triple};
use shape_eval::{Evaluation, Matchers, Steps, eval, permit};
use shape_model::ResultRow;
use shape_plans::PlannedShapes;
use shapes_graph::ShapesGraph;
use std::alloc::{AllocError, Global};
use std::marker::Brand;
use std::process::Abort;
use std::sync::ledger::{Blank, Ledger};
use std::test::Fail;
use target_nodes::targets;

// The triples before changes and after them, and those that are added or removed, by number.
#[derive(Drop)]
pub(crate) struct Changed {
    pub(crate) before: Sequence<Ids>,
    pub(crate) later: Sequence<Ids>,
    pub(crate) changed: Sequence<Ids>,
}

pub(crate) fn push_if(list: &mut Sequence<Ids>, ids: Ids, wanted: bool) -> Result<(), AllocError>
    ensures { OnOk result ((terms : List TermData) → IsNumbered terms ids → AreNumbered terms list.old → AreNumbered terms list.new) }
{
    if wanted {
        list.push(ids)?;
    }
    Ok(())
}

// Each triple is added, removed, added though it is there, removed though it isn't, or stays.
fn drawn_changes(
    alloc: Global,
    draws: &mut Draws,
    names: &ListNames,
    all: &[Triple],
) -> Result<Changed, AllocError>
    requires { AreNamedTriples names.now all.now }
    ensures before { IfOk result (λ drawn. AreNumbered names.now drawn.before) }
    ensures later { IfOk result (λ drawn. AreNumbered names.now drawn.later) }
    ensures changed { IfOk result (λ drawn. AreNumbered names.now drawn.changed) }
{
    let mut before = Sequence::new(alloc);
    let mut later = Sequence::new(alloc);
    let mut changed = Sequence::new(alloc);
    for triple in all {
        let ids = number_triple(names, triple);
        let fate = draws.below(8);
        push_if(&mut before, ids, fate != 0 && fate != 3)?;
        push_if(&mut later, ids, fate != 1 && fate != 3)?;
        push_if(&mut changed, ids, fate <= 3)?;
    }
    Ok(Changed {
        before,
        later,
        changed,
    })
}

// The results of a shape at some nodes.
fn rows_at<L: Ledger>(
    evaluation: &Evaluation<'_, ListGraph, ListNames>,
    place: u32,
    nodes: &[u32],
    steps: &mut Steps<L>,
) -> Result<Vec<CheckedRows>, AllocError>
    requires place { place < length evaluation.now.shapes }
    requires nodes { All (λ n. n < length evaluation.now.terms) nodes.now }
{
    let alloc = evaluation.alloc();
    let mut kept = Vec::new(alloc);
    let mut matchers = Matchers::new(alloc);
    for node in nodes {
        let mut looks = Footprint::new(alloc);
        let allowed = permit(steps);
        let rows = eval(
            evaluation,
            place as usize,
            *node,
            &mut looks,
            &mut matchers,
            allowed,
        )?;
        kept.push(CheckedRows {
            shape: place,
            focus: *node,
            rows: Sequence::from_vec(rows),
        })?;
    }
    Ok(kept)
}

// The results of a shape at each of its targets.
fn rows_of_shape<L: Ledger>(
    alloc: Global,
    graph: &ListGraph,
    names: &ListNames,
    planned: &PlannedShapes,
    place: u32,
    steps: &mut Steps<L>,
) -> Result<Vec<CheckedRows>, AllocError>
    requires numbering { IsNumbering names.now }
    requires graph { AreNumbered names.now graph.now }
    requires planned { ArePlanned names.now planned.now }
    requires place { place < length planned.now.bound.shapes }
{
    let nodes = targets(alloc, graph, planned.words, &planned.bound, place as usize)?;
    let evaluation = Evaluation::new(alloc, graph, names, planned.words, &planned.bound);
    rows_at(&evaluation, place, &nodes, steps)
}

// The results of all shapes at their targets.
fn kept_rows<L: Ledger>(
    alloc: Global,
    graph: &ListGraph,
    names: &ListNames,
    planned: &PlannedShapes,
    steps: &mut Steps<L>,
) -> Result<Vec<CheckedRows>, AllocError>
    requires numbering { IsNumbering names.now }
    requires graph { AreNumbered names.now graph.now }
    requires planned { ArePlanned names.now planned.now }
{
    let mut kept = Vec::new(alloc);
    let count = planned.bound.shapes.len();
    for place in 0..u32::MAX {
        if place as usize >= count {
            return Ok(kept);
        }
        let mut more = rows_of_shape(alloc, graph, names, planned, place, steps)?;
        kept.append(&mut more)?;
    }
    Ok(kept)
}

fn push_rows(rows: &mut Vec<ResultRow>, more: &[ResultRow]) -> Result<(), AllocError> {
    for row in more {
        rows.push(row.clone()?)?;
    }
    Ok(())
}

fn is_checked(checked: &[CheckedRows], pair: &CheckedRows) -> bool {
    checked.iter().any(|other| other.shape == pair.shape && other.focus == pair.focus)
}

// The rows of the pairs that weren't checked, and those of the pairs that were, in their order.
fn merged(
    alloc: Global,
    kept: &[CheckedRows],
    checked: &[CheckedRows],
) -> Result<Vec<ResultRow>, AllocError> {
    let mut rows = Vec::new(alloc);
    for pair in kept {
        if !is_checked(checked, pair) {
            push_rows(&mut rows, pair.rows.as_slice())?;
        }
    }
    for pair in checked {
        push_rows(&mut rows, pair.rows.as_slice())?;
    }
    sorted_once(rows)
}

// The listing that is had of checking changes alone, and how many pairs were kept and checked.
#[derive(Drop)]
struct Incremental {
    rows: Vec<ResultRow>,
    kept: usize,
    pairs: usize,
}

fn checked_listing<L: Ledger>(
    alloc: Global,
    before: &ListGraph,
    later: &ListGraph,
    names: &ListNames,
    planned: &PlannedShapes,
    changed: &[Ids],
    steps: &mut Steps<L>,
) -> Result<Incremental, AllocError>
    requires numbering { IsNumbering names.now }
    requires before { AreNumbered names.now before.now }
    requires later { AreNumbered names.now later.now }
    requires changed { AreNumbered names.now changed.now }
    requires planned { ArePlanned names.now planned.now }
{
    let kept = kept_rows(alloc, before, names, planned, steps)?;
    let found = check(alloc, before, later, names, planned, changed, steps)?;
    let rows = merged(alloc, &kept, found.pairs.as_slice())?;
    Ok(Incremental {
        rows,
        kept: kept.len(),
        pairs: found.pairs.len(),
    })
}

// The results of the whole graph by shapes that are bound already.
fn whole_of<L: Ledger>(
    alloc: Global,
    graph: &ListGraph,
    names: &ListNames,
    planned: &PlannedShapes,
    steps: &mut Steps<L>,
) -> Result<Vec<ResultRow>, AllocError>
    requires numbering { IsNumbering names.now }
    requires graph { AreNumbered names.now graph.now }
    requires planned { ArePlanned names.now planned.now }
{
    whole(alloc, graph, names, planned.words, &planned.bound, steps)
}

// The listing after the changes: by checking them alone, and from scratch by the shapes graph and by shapes that are bound already.
#[derive(Drop)]
struct Outcome {
    checked: Incremental,
    whole: Vec<ResultRow>,
    bound: Vec<ResultRow>,
}

fn listings_in<L: Ledger>(
    alloc: Global,
    names: &ListNames,
    words: ClassWords,
    drawn: Changed,
    shapes: &ShapesGraph,
    blank: Blank,
) -> Result<Outcome, AllocError>
    requires numbering { IsNumbering names.now }
    requires words { AreClassWords names.now words }
    requires shapes { AreNamedTriples names.now shapes.now }
    requires before { AreNumbered names.now drawn.before }
    requires later { AreNumbered names.now drawn.later }
    requires changed { AreNumbered names.now drawn.changed }
    requires name { blank.name ≡ L.name }
    requires parts { blank.parts ≡ L.parts }
    requires some { 0 < L.parts }
{
    let mut steps = Steps::<L>::begin(blank);
    let Changed {
        before,
        later,
        changed,
    } = drawn;
    let before = ListGraph::from_triples(before);
    let later = ListGraph::from_triples(later);
    let planned = plan_graph(alloc, names, words, shapes)?;
    let bound = whole_of(alloc, &later, names, &planned, &mut steps)?;
    let changed = changed.as_slice();
    let checked = checked_listing(alloc, &before, &later, names, &planned, changed, &mut steps);
    let whole = listing_over(alloc, &later, names, words, shapes, &mut steps);
    let (checked, whole) = both(checked, whole)?;
    Ok(Outcome {
        checked,
        whole,
        bound,
    })
}

fn listings(
    alloc: Global,
    draws: &mut Draws,
    all: &[Triple],
    shapes: &ShapesGraph,
) -> Result<Outcome, AllocError>
    requires few { 3 * (length all.now + length shapes.now) + 2 < 2 ^ 32 }
{
    let names = names_of(alloc, all, shapes.triples())?;
    let names = ListNames::from_terms(Sequence::from_vec(names));
    let words = class_words(alloc, &names)?;
    let drawn = drawn_changes(alloc, draws, &names, all)?;
    listings_in::<Brand>(alloc, &names, words, drawn, shapes, Blank::new(1))
}

// The triples of a data graph and of a shapes graph.
pub(crate) fn both_graphs(
    alloc: Global,
    maker: &mut RegexMaker,
    data_text: &[u8],
    shapes_text: &[u8],
) -> Result<(Sequence<Triple>, ShapesGraph), RowsFault>
    requires { length data_text.now + length shapes_text.now < 2 ^ 30 }
{
    let graph = match triples_of(alloc, 1, data_text) {
        Ok(triples) => triples,
        Err(_) => return Err(RowsFault::Memory),
    };
    let triples = match triples_of(alloc, 2, shapes_text) {
        Ok(triples) => triples,
        Err(_) => return Err(RowsFault::Memory),
    };
    let shapes = shapes_of(alloc, maker, triples)?;
    Ok((graph, shapes))
}

// The texts of a data graph and of a shapes graph, with each IRI in full.
fn drawn_texts(
    alloc: Global,
    draws: &mut Draws,
    turn: usize,
) -> Result<(String, String), AllocError> {
    let mut graph = graph_text(alloc, draws)?;
    graph.push_str(graph_text(alloc, draws)?.as_str())?;
    let shapes = shapes_text(alloc, draws, turn)?;
    both(
        expanded(alloc, graph.as_str()),
        expanded(alloc, shapes.as_str()),
    )
}

fn assert_listings(
    rt: &impl Abort,
    alloc: Global,
    draws: &mut Draws,
    all: &[Triple],
    shapes_graph: &ShapesGraph,
    counts: &mut Counts,
    shapes: &str,
) -> Result<(), Fail> {
    assert!(rt; all.len() < 8000);
    assert!(rt; shapes_graph.triples().len() < 8000);
    let found = listings(alloc, draws, all, shapes_graph)?;
    count(counts, &found)?;
    assert_same(rt, &found.whole, &found.bound, shapes)?;
    assert_same(rt, &found.whole, &found.checked.rows, shapes)
}

// Both listings of one graph after changes.
fn try_changes(
    rt: &impl Abort,
    alloc: Global,
    draws: &mut Draws,
    turn: usize,
    counts: &mut Counts,
) -> Result<(), Fail> {
    let (graph, shapes) = drawn_texts(alloc, draws, turn)?;
    assert!(rt; graph.len() < 8000 && shapes.len() < 4000);
    let mut maker = RegexMaker::new(alloc);
    match both_graphs(alloc, &mut maker, graph.as_bytes(), shapes.as_bytes()) {
        Ok((all, shapes_graph)) => {
            let all = all.as_slice();
            assert_listings(
                rt,
                alloc,
                draws,
                all,
                &shapes_graph,
                counts,
                shapes.as_str(),
            )
        }
        Err(fault) => {
            assert!(rt; false, "{fault:?} {shapes}");
            Ok(())
        }
    }
}

// What the changes had so far.
#[derive(Drop)]
struct Counts {
    after: Tally,
    checked: u32,
    unchecked: u32,
}

fn count(counts: &mut Counts, found: &Outcome) -> Result<(), AllocError> {
    if found.checked.pairs > 0 {
        counts.checked = counts.checked.saturating_add(1);
    }
    if found.checked.kept > found.checked.pairs {
        counts.unchecked = counts.unchecked.saturating_add(1);
    }
    note(&mut counts.after, &found.whole)
}

const CHANGES: usize = 1000;

#[test]
fn checked_changes_give_the_listing_from_scratch(rt: HostRuntime) -> Result<(), Fail> {
    let alloc = rt.alloc();
    let mut draws = Draws { state: 2 };
    let mut counts = Counts {
        after: Tally::new(alloc),
        checked: 0,
        unchecked: 0,
    };
    for turn in 0..CHANGES {
        try_changes(&rt, alloc, &mut draws, turn, &mut counts)?;
    }
    let Counts {
        after,
        checked,
        unchecked,
    } = counts;
    assert!(rt; checked > 800 && unchecked > 80, "{checked} {unchecked}");
    assert_all_occur(&rt, &after, CHANGES);
    Ok(())
}
