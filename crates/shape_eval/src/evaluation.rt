//! The results of a shape at a focus node, and of the shapes that it refers to.
ghost use Rattle.std.specs.Prelude.{◌≡◌, ◌<◌, IfOk, OnOk, length};
ghost use Rattle.std.specs.List.{All, Contains};
ghost use Rattle.rdf_model.specs.Numbers.{graph_of};
ghost use Rattle.component_rows.specs.Answers.{AreAnswersTo};
ghost use Rattle.component_rows.specs.Listed.{Collects};
ghost use Rattle.component_rows.specs.Nodes.{AreNodes};
ghost use Rattle.collections.specs.Listings.{Keeps};
ghost use Rattle.shape_ast.specs.Readings.{named_shapes};
ghost use Rattle.shape_ast.specs.Standing.{StandFor};
ghost use Rattle.shape_eval.specs.Around.{around};
ghost use Rattle.shape_eval.specs.Looks.{AddsAt, AddsAtEach, AddsAtPlaces, AddsShapeLooks};
ghost use Rattle.shape_model.specs.Limits.{levels_limit};
ghost use Rattle.shape_eval.specs.Results.{AtPlace, CollectsAt, CollectsAtEach, ListsResults};
ghost use Rattle.shape_eval.specs.ShapeRows.{FromSome, PropertyAt};
ghost use Rattle.shape_eval.specs.Told.{AreRight, ConformsAt, HaveAnswers};

use crate::asked::asked_places;
use crate::context::Evaluation;
use crate::own_rows::own_rows;
use crate::rights::Permit;
use crate::told::Told;
use crate::value_nodes::value_nodes;
use collections::{Sequence, sorted_once};
use logic_constraints::property;
use rdf_model::{Footprint, Names, Triples};
use shape_model::ResultRow;
use std::alloc::AllocError;
use string_constraints::Matchers;

// Whether each value node conforms to the shape at the place, through chains of fewer references than the levels.
#[cycle(evaluation)]
fn answers_at<'a, R: Triples, N: Names>(
    evaluation: &Evaluation<'a, R, N>,
    levels: usize,
    place: usize,
    values: &[u32],
    footprint: &mut Footprint,
    matchers: &mut Matchers<'a>,
) -> Result<Vec<bool>, AllocError>
    requires place { place < length evaluation.now.shapes }
    requires nodes { AreNodes evaluation.now.terms values.now }
    ensures as_many { IfOk result (λ answers. length answers.items ≡ length values.now) }
    ensures told { IfOk result (λ answers. AtPlace evaluation.now.terms evaluation.now.shapes place
        (λ s c. AreAnswersTo (ConformsAt (graph_of evaluation.now.terms evaluation.now.ids) s levels c.node) evaluation.now.terms values.now answers.items)) }
    ensures looks { OnOk result (AddsAtEach evaluation.now.terms evaluation.now.ids evaluation.now.shapes levels place values.now footprint.old footprint.new) }
    ensures kept { Keeps footprint.old footprint.new }
{
    let mut answers = Vec::with_capacity(evaluation.alloc(), values.len())?;
    for value in values {
        let rows = rows_at(evaluation, levels, place, *value, footprint, matchers)?;
        answers.push(rows.is_empty())?;
    }
    Ok(answers)
}

// Of each of the shapes at the places, whether each value node conforms to it.
#[cycle(evaluation)]
fn told_of_each<'a, R: Triples, N: Names>(
    evaluation: &Evaluation<'a, R, N>,
    levels: usize,
    places: &[usize],
    values: &[u32],
    footprint: &mut Footprint,
    matchers: &mut Matchers<'a>,
) -> Result<Vec<Told>, AllocError>
    requires places { All (λ n. n < length evaluation.now.shapes) places.now }
    requires nodes { AreNodes evaluation.now.terms values.now }
    ensures as_many { IfOk result (λ told. HaveAnswers evaluation.now.shapes values.now told.items (Contains places.now)) }
    ensures right { IfOk result (λ told. (s : _) → StandFor (named_shapes evaluation.now.terms evaluation.now.shapes) s
        → AreRight evaluation.now.terms evaluation.now.ids s levels evaluation.now.shapes values.now told.items (Contains places.now)) }
    ensures looks { OnOk result (AddsAtPlaces evaluation.now.terms evaluation.now.ids evaluation.now.shapes levels places.now values.now footprint.old footprint.new) }
    ensures kept { Keeps footprint.old footprint.new }
{
    let mut told = Vec::with_capacity(evaluation.alloc(), places.len())?;
    for place in places {
        let answers = answers_at(evaluation, levels, *place, values, footprint, matchers)?;
        told.push(Told {
            node: evaluation.shape(*place).node,
            answers: Sequence::from_vec(answers),
        })?;
    }
    Ok(told)
}

// The results of the shape at the place at each value node.
#[cycle(evaluation)]
fn rows_at_each<'a, R: Triples, N: Names>(
    evaluation: &Evaluation<'a, R, N>,
    levels: usize,
    place: usize,
    values: &[u32],
    footprint: &mut Footprint,
    matchers: &mut Matchers<'a>,
) -> Result<Vec<ResultRow>, AllocError>
    requires place { place < length evaluation.now.shapes }
    requires nodes { AreNodes evaluation.now.terms values.now }
    ensures rows { IfOk result (λ rows. CollectsAtEach evaluation.now.terms evaluation.now.ids evaluation.now.shapes levels place values.now rows.items) }
    ensures looks { OnOk result (AddsAtEach evaluation.now.terms evaluation.now.ids evaluation.now.shapes levels place values.now footprint.old footprint.new) }
    ensures kept { Keeps footprint.old footprint.new }
{
    let mut rows = Vec::with_capacity(evaluation.alloc(), values.len())?;
    for value in values {
        let more = rows_at(evaluation, levels, place, *value, footprint, matchers)?;
        rows.push(more)?;
    }
    property(evaluation.alloc(), values, rows)
}

// The results of the property shapes at the places, at each value node (SHACL section 4.7.2).
#[cycle(evaluation)]
fn property_rows<'a, R: Triples, N: Names>(
    evaluation: &Evaluation<'a, R, N>,
    levels: usize,
    places: &[usize],
    values: &[u32],
    footprint: &mut Footprint,
    matchers: &mut Matchers<'a>,
) -> Result<Vec<ResultRow>, AllocError>
    requires places { All (λ n. n < length evaluation.now.shapes) places.now }
    requires nodes { AreNodes evaluation.now.terms values.now }
    ensures rows { IfOk result (λ rows. (s : _) (f : _) → StandFor (named_shapes evaluation.now.terms evaluation.now.shapes) s
        → Collects (FromSome places.now (PropertyAt (around evaluation.now.terms evaluation.now.ids s levels values.now f) (named_shapes evaluation.now.terms evaluation.now.shapes))) rows.items) }
    ensures looks { OnOk result (AddsAtPlaces evaluation.now.terms evaluation.now.ids evaluation.now.shapes levels places.now values.now footprint.old footprint.new) }
    ensures kept { Keeps footprint.old footprint.new }
{
    let mut rows = Vec::new(evaluation.alloc());
    for place in places {
        let mut more = rows_at_each(evaluation, levels, *place, values, footprint, matchers)?;
        rows.append(&mut more)?;
    }
    Ok(rows)
}

// The results of the shape at the place, through chains of fewer references than the levels.
#[cycle(evaluation)]
fn rows_at<'a, R: Triples, N: Names>(
    evaluation: &Evaluation<'a, R, N>,
    levels: usize,
    place: usize,
    focus: u32,
    footprint: &mut Footprint,
    matchers: &mut Matchers<'a>,
) -> Result<Vec<ResultRow>, AllocError>
    requires place { place < length evaluation.now.shapes }
    requires focus { focus < length evaluation.now.terms }
    ensures rows { IfOk result (λ rows. CollectsAt evaluation.now.terms evaluation.now.ids evaluation.now.shapes levels place focus rows.items) }
    ensures looks { OnOk result (AddsAt evaluation.now.terms evaluation.now.ids evaluation.now.shapes levels place focus footprint.old footprint.new) }
    ensures kept { Keeps footprint.old footprint.new }
{
    evaluation.recall();
    let alloc = evaluation.alloc();
    let shape = evaluation.shape(place);
    if levels == 0 || shape.is_deactivated {
        return Ok(Vec::new(alloc));
    }
    let below = levels - 1;
    let graph = evaluation.graph();
    let values = value_nodes(alloc, graph, &shape.path, focus, footprint)?;
    let asked = asked_places(alloc, shape, shape.constraints.as_slice())?;
    let told = told_of_each(evaluation, below, &asked, &values, footprint, matchers)?;
    let mut rows = own_rows(
        evaluation, shape, &told, focus, &values, footprint, matchers,
    )?;
    let properties = shape.properties.as_slice();
    let mut more = property_rows(evaluation, below, properties, &values, footprint, matchers)?;
    rows.append(&mut more)?;
    Ok(rows)
}

// One more than the most references that a chain may have.
#[tactic(auto, unfolding(shape_model::specs::Limits::levels_limit))]
fn most_levels() -> usize
    ensures { result ≡ levels_limit }
{
    257
}

/// The results of a shape, by its place among the compiled shapes, at a focus node (SHACL section 3.4): each once, in the
/// order of results. They are those of each shapes graph that the shapes stand for, where no shape refers to itself and
/// no chain of references is longer than 256. The footprint takes exactly the looks of the shape at the focus node, without
/// those of its targets, likewise; it keeps what it had, also where memory runs out. Which patterns the matchers searched for
/// before makes no difference. The permit is used up.
pub fn eval<'a, R: Triples, N: Names>(
    evaluation: &Evaluation<'a, R, N>,
    shape: usize,
    focus: u32,
    footprint: &mut Footprint,
    matchers: &mut Matchers<'a>,
    allowed: Permit,
) -> Result<Vec<ResultRow>, AllocError>
    requires shape { shape < length evaluation.now.shapes }
    requires focus { focus < length evaluation.now.terms }
    ensures rows { IfOk result (λ rows. ListsResults evaluation.now.terms evaluation.now.ids evaluation.now.shapes shape focus rows.items) }
    ensures looks { OnOk result (AddsShapeLooks evaluation.now.terms evaluation.now.ids evaluation.now.shapes shape focus footprint.old footprint.new) }
    ensures kept { Keeps footprint.old footprint.new }
{
    allowed.spend();
    let rows = rows_at(evaluation, most_levels(), shape, focus, footprint, matchers)?;
    sorted_once(rows)
}
