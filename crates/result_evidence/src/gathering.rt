//! All results of a graph, with the shapes and the focus nodes that give them.
ghost use Rattle.std.specs.Prelude.{◌≡◌, ◌<◌, IfOk, length, map};
ghost use Rattle.std.specs.List.{All};
ghost use Rattle.rdf_model.specs.Numbers.{term_at};
ghost use Rattle.shape_ast.specs.Readings.{AreBound};
ghost use Rattle.shape_ast.specs.Standing.{AreBuilt};
ghost use Rattle.result_evidence.specs.AimedRows.{AreAimedRows, AreAimsBelow, AreAimsOf, FindsAt, FindsAtSome, aimed_at};
ghost use Rattle.result_evidence.specs.Standing.{ForEach, ForShape};

use crate::aims::targets_of;
use crate::{AimedRow, NumberedData};
use collections::{both, sorted_once};
use component_rows::named;
use rdf_model::{Footprint, Names, Term, Triples};
use shape_ast::Bound;
use shape_eval::{Evaluation, Matchers, Steps, eval, permit};
use shape_model::ResultRow;
use std::alloc::{AllocError, Global};
use std::sync::ledger::Ledger;

// The row, aimed at the shape at the place and at a focus node.
fn aimed_row(
    row: &ResultRow,
    place: usize,
    focus: &Term,
    number: u32,
) -> Result<AimedRow, AllocError>
    ensures { IfOk result (λ aimed. aimed ≡ aimed_at place focus.now number row.now) }
{
    let (row, focus) = both(row.clone(), focus.clone())?;
    Ok(AimedRow {
        row,
        place,
        focus,
        number,
    })
}

// Each of the rows, aimed so.
fn aimed_each(
    alloc: Global,
    rows: &[ResultRow],
    place: usize,
    focus: &Term,
    number: u32,
) -> Result<Vec<AimedRow>, AllocError>
    ensures { IfOk result (λ found. found.items ≡ map (aimed_at place focus.now number) rows.now) }
{
    let mut found = Vec::with_capacity(alloc, rows.len())?;
    for row in rows {
        found.push(aimed_row(row, place, focus, number)?)?;
    }
    Ok(found)
}

// The results of the shape at the place at a focus node, aimed so.
fn aimed_at_node<'a, R: Triples, N: Names, L: Ledger>(
    evaluation: &Evaluation<'a, R, N>,
    names: &N,
    place: usize,
    node: u32,
    matchers: &mut Matchers<'a>,
    steps: &mut Steps<L>,
) -> Result<Vec<AimedRow>, AllocError>
    requires names { N.terms names.now ≡ evaluation.now.terms }
    requires place { place < length evaluation.now.shapes }
    requires node { node < length evaluation.now.terms }
    ensures { IfOk result (λ found. ForShape evaluation.now.terms evaluation.now.shapes place
        (λ s shape. FindsAt evaluation.now.terms evaluation.now.ids s shape place node found.items)) }
{
    let mut looks = Footprint::new(evaluation.alloc());
    let allowed = permit(steps);
    let rows = eval(evaluation, place, node, &mut looks, matchers, allowed)?;
    aimed_each(
        evaluation.alloc(),
        rows.as_slice(),
        place,
        named(names, node),
        node,
    )
}

// The results of the shape at the place at some nodes, each aimed at the shape and its focus node.
fn aimed_at_nodes<R: Triples, N: Names, L: Ledger>(
    evaluation: &Evaluation<'_, R, N>,
    names: &N,
    place: usize,
    nodes: &[u32],
    steps: &mut Steps<L>,
) -> Result<Vec<AimedRow>, AllocError>
    requires names { N.terms names.now ≡ evaluation.now.terms }
    requires place { place < length evaluation.now.shapes }
    requires nodes { All (λ n. n < length evaluation.now.terms) nodes.now }
    ensures { IfOk result (λ found. ForShape evaluation.now.terms evaluation.now.shapes place
        (λ s shape. FindsAtSome evaluation.now.terms evaluation.now.ids s shape place nodes.now found.items)) }
{
    let mut found = Vec::new(evaluation.alloc());
    let mut matchers = Matchers::new(evaluation.alloc());
    for node in nodes {
        let mut more = aimed_at_node(evaluation, names, place, *node, &mut matchers, steps)?;
        found.append(&mut more)?;
    }
    Ok(found)
}

// The results of the shape at the place at its targets.
fn aimed_of_shape<R: Triples, N: Names, L: Ledger>(
    evaluation: &Evaluation<'_, R, N>,
    names: &N,
    place: usize,
    steps: &mut Steps<L>,
) -> Result<Vec<AimedRow>, AllocError>
    requires names { N.terms names.now ≡ evaluation.now.terms }
    requires place { place < length evaluation.now.shapes }
    ensures { IfOk result (λ found. ForShape evaluation.now.terms evaluation.now.shapes place
        (λ s shape. AreAimsOf evaluation.now.terms evaluation.now.ids s shape place found.items)) }
{
    let nodes = targets_of(evaluation, place)?;
    aimed_at_nodes(evaluation, names, place, nodes.as_slice(), steps)
}

// The results of all shapes at their targets.
fn aimed_of_all<R: Triples, N: Names, L: Ledger>(
    evaluation: &Evaluation<'_, R, N>,
    names: &N,
    steps: &mut Steps<L>,
) -> Result<Vec<AimedRow>, AllocError>
    requires names { N.terms names.now ≡ evaluation.now.terms }
    ensures { IfOk result (λ all. ForEach evaluation.now.terms evaluation.now.shapes
        (λ s. AreAimsBelow evaluation.now.terms evaluation.now.ids evaluation.now.shapes (length evaluation.now.shapes) s all.items)) }
{
    let bound = evaluation.bound();
    let mut all = Vec::new(evaluation.alloc());
    for place in 0..bound.shapes.len() {
        let mut more = aimed_of_shape(evaluation, names, place, steps)?;
        all.append(&mut more)?;
    }
    Ok(all)
}

/// The results of validating the graph (SHACL section 3.6), each with every shape that gives it and every focus node at which
/// that shape does, in order. Each shape is evaluated once at each of its targets, which is counted in `steps`. They are those
/// under each shapes graph that the shapes stand for, in which no shape refers to itself and no chain of references is longer
/// than 256. It fails only for want of memory.
pub fn aimed_rows<R: Triples, N: Names, L: Ledger>(
    data: &NumberedData<'_, R, N>,
    bound: &Bound,
    steps: &mut Steps<L>,
) -> Result<Vec<AimedRow>, AllocError>
    requires bound { AreBound data.now.terms bound.now.shapes }
    requires built { AreBuilt (term_at data.now.terms) bound.now.shapes }
    ensures { IfOk result (λ rows. AreAimedRows data.now.terms data.now.ids bound.now.shapes rows.items) }
{
    let evaluation = data.evaluation(bound);
    let rows = aimed_of_all(&evaluation, data.names(), steps)?;
    sorted_once(rows)
}
