//! Whether a block shows its result.
ghost use Rattle.std.specs.Prelude.{◌≡◌, ◌↔◌, ◌<◌, IfOk, IsTrue, OnOk, length};
ghost use Rattle.std.specs.List.{All, list_any};
ghost use Rattle.std.specs.Ordering.{eq_by_cmp};
ghost use Rattle.collections.specs.Ordered.{IsAscending};
ghost use Rattle.rdf_model.specs.Numbers.{graph_of, term_at};
ghost use Rattle.shape_model.specs.NodeLooks.{IsLook};
ghost use Rattle.shape_model.specs.Rows.{result_row_cmp};
ghost use Rattle.shape_model.specs.ShapeLooks.{Looks};
ghost use Rattle.path_eval.specs.Naming.{AddsLooks};
ghost use Rattle.evidence_blocks.specs.Blocks.{Gives, HasTriples, looks_in};
ghost use Rattle.evidence_blocks.specs.LookOrder.{look_cmp};
ghost use Rattle.evidence_blocks.specs.Shown.{IsShown};
ghost use Rattle.result_evidence.specs.Standing.{ForEach, ForShape, HaveGraph};
ghost use Rattle.evidence_verdict.specs.Judging.{HoldsIn, ShowsByItself};

use crate::exact::{are_exact, are_listed, ascend};
use crate::listed::listed_graph;
use crate::lookup::place_of;
use evidence_blocks::Block;
use rdf_model::{Footprint, Names, Triples};
use result_evidence::listed_looks;
use shape_eval::{Evaluation, Matchers, Steps, eval, permit};
use shape_model::ResultRow;
use std::alloc::AllocError;
use std::sync::ledger::Ledger;
use target_nodes::is_target;

// Whether the row is among the rows.
fn has_row(rows: &[ResultRow], row: &ResultRow) -> bool
    ensures { result ≡ list_any (eq_by_cmp result_row_cmp row.now) rows.now }
{
    rows.iter().any(|other| *row == *other)
}

// Whether the shape at the place gives the result at the focus node, its target. The looks that decide it are added.
fn gives<R: Triples, N: Names, L: Ledger>(
    evaluation: &Evaluation<'_, R, N>,
    place: usize,
    focus: u32,
    row: &ResultRow,
    looks: &mut Footprint,
    steps: &mut Steps<L>,
) -> Result<bool, AllocError>
    requires place { place < length evaluation.now.shapes }
    requires focus { focus < length evaluation.now.terms }
    ensures gives { IfOk result (λ answer. ForShape evaluation.now.terms evaluation.now.shapes place
        (λ s shape. IsTrue answer ↔ Gives (graph_of evaluation.now.terms evaluation.now.ids) s row.now shape (term_at evaluation.now.terms focus))) }
    ensures looks { OnOk result (ForShape evaluation.now.terms evaluation.now.shapes place
        (λ s shape. AddsLooks evaluation.now.terms (IsLook (graph_of evaluation.now.terms evaluation.now.ids) (Looks s shape) (term_at evaluation.now.terms focus)) looks.old looks.new)) }
{
    evaluation.recall();
    let (graph, words, bound) = (evaluation.graph(), evaluation.words(), evaluation.bound());
    let is_target = is_target(evaluation.alloc(), graph, words, bound, place, focus, looks)?;
    let allowed = permit(steps);
    let mut matchers = Matchers::new(evaluation.alloc());
    let rows = eval(evaluation, place, focus, looks, &mut matchers, allowed)?;
    let is_row = has_row(rows.as_slice(), row);
    Ok(is_target && is_row)
}

// Whether the shape at the place gives the block's result at the focus node, its target, by looks of the block alone.
fn holds_at<R: Triples, N: Names, L: Ledger>(
    evaluation: &Evaluation<'_, R, N>,
    names: &N,
    place: usize,
    focus: u32,
    block: &Block,
    steps: &mut Steps<L>,
) -> Result<bool, AllocError>
    requires names { N.terms names.now ≡ evaluation.now.terms }
    requires shapes { HaveGraph evaluation.now.terms evaluation.now.shapes }
    requires place { place < length evaluation.now.shapes }
    requires focus { focus < length evaluation.now.terms }
    requires looks { IsAscending look_cmp (looks_in block.now.looks) }
    ensures { IfOk result (λ answer. ForShape evaluation.now.terms evaluation.now.shapes place
        (λ s shape. IsTrue answer ↔ HoldsIn (graph_of evaluation.now.terms evaluation.now.ids) s shape (term_at evaluation.now.terms focus) block.now)) }
{
    let mut looks = Footprint::new(evaluation.alloc());
    let is_given = gives(evaluation, place, focus, &block.row, &mut looks, steps)?;
    let listed = listed_looks(evaluation.alloc(), names, looks.looks())?;
    let all_listed = are_listed(block.looks.as_slice(), listed.as_slice());
    Ok(is_given && all_listed)
}

// Whether by the triples that a block lists alone its shape gives its result at its focus node, a target, by its looks alone.
fn shows_by_itself<R: Triples, N: Names, L: Ledger>(
    evaluation: &Evaluation<'_, R, N>,
    names: &N,
    block: &Block,
    steps: &mut Steps<L>,
) -> Result<bool, AllocError>
    requires names { N.terms names.now ≡ evaluation.now.terms }
    requires shapes { HaveGraph evaluation.now.terms evaluation.now.shapes }
    requires looks { IsAscending look_cmp (looks_in block.now.looks) }
    requires triples { All (HasTriples (graph_of evaluation.now.terms evaluation.now.ids)) block.now.looks }
    ensures { IfOk result (λ answer. ForEach evaluation.now.terms evaluation.now.shapes (λ s. IsTrue answer ↔ ShowsByItself s block.now)) }
{
    evaluation.recall();
    let Some(place) = place_of(evaluation, names, &block.shape) else {
        return Ok(false);
    };
    let Some(focus) = names.id(&block.focus) else {
        return Ok(false);
    };
    let alloc = evaluation.alloc();
    let listed = listed_graph(alloc, names, block.looks.as_slice())?;
    let (words, bound) = (evaluation.words(), evaluation.bound());
    let own = Evaluation::new(alloc, &listed, names, words, bound);
    holds_at(&own, names, place, focus, block, steps)
}

/// Whether a block shows its result: its looks ascend, under each stand just its triples of the graph, and by these triples alone
/// its shape gives the result at its focus node, a target, looking at listed looks alone.
pub(crate) fn shows<R: Triples, N: Names, L: Ledger>(
    evaluation: &Evaluation<'_, R, N>,
    names: &N,
    block: &Block,
    steps: &mut Steps<L>,
) -> Result<bool, AllocError>
    requires names { N.terms names.now ≡ evaluation.now.terms }
    requires shapes { HaveGraph evaluation.now.terms evaluation.now.shapes }
    ensures { IfOk result (λ answer. ForEach evaluation.now.terms evaluation.now.shapes
        (λ s. IsTrue answer ↔ IsShown (graph_of evaluation.now.terms evaluation.now.ids) s block.now)) }
{
    evaluation.recall();
    let looks = block.looks.as_slice();
    if !ascend(looks) {
        return Ok(false);
    }
    let exact = are_exact(evaluation.alloc(), evaluation.graph(), names, looks)?;
    if !exact {
        return Ok(false);
    }
    shows_by_itself(evaluation, names, block, steps)
}
