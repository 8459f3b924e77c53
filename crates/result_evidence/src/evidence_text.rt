//! The evidence of a result.
ghost use Rattle.std.specs.Prelude.{◌≡◌, ◌<◌, IfOk, Some, length, slice_get, string_bytes};
ghost use Rattle.rdf_model.specs.Numbers.{graph_of, term_at};
ghost use Rattle.shape_ast.specs.Readings.{AreBound, ReadShape, named_shapes};
ghost use Rattle.shape_ast.specs.Standing.{AreBuilt};
ghost use Rattle.result_evidence.specs.AimedRows.{IsLeastAimed};
ghost use Rattle.evidence_blocks.specs.BlockText.{block_text};
ghost use Rattle.evidence_blocks.specs.Blocks.{IsLeastAim};
ghost use Rattle.result_evidence.specs.Standing.{ForShape, HaveGraph, IsEvidenceOf, IsSomeResult};

use crate::aims::{Aim, aim_of};
use crate::looks::looks_of;
use crate::shown::shown_looks;
use crate::{AimedRow, NumberedData};
use collections::both;
use component_rows::named;
use evidence_blocks::{Block, write_block};
use rdf_model::{Names, Term, Triples};
use shape_ast::Bound;
use shape_eval::{Evaluation, Steps};
use shape_model::ResultRow;
use std::alloc::AllocError;
use std::sync::ledger::Ledger;

// The node that is the shape at the place.
fn node_at<'a, R: Triples, N: Names>(
    evaluation: &Evaluation<'_, R, N>,
    names: &'a N,
    place: usize,
) -> &'a Term
    requires names { N.terms names.now ≡ evaluation.now.terms }
    requires place { place < length evaluation.now.shapes }
    ensures { (c : ReadShape) → slice_get (named_shapes evaluation.now.terms evaluation.now.shapes) place ≡ Some c → result.now ≡ c.node }
{
    evaluation.recall();
    let bound = evaluation.bound();
    named(names, bound.shapes.as_slice()[place].node)
}

// The terms of a shape and of a focus node.
fn aim_terms<R: Triples, N: Names>(
    evaluation: &Evaluation<'_, R, N>,
    names: &N,
    aim: Aim,
) -> Result<(Term, Term), AllocError>
    requires names { N.terms names.now ≡ evaluation.now.terms }
    requires place { aim.place < length evaluation.now.shapes }
    requires focus { aim.focus < length evaluation.now.terms }
    ensures shape { IfOk result (λ both. (c : ReadShape) → slice_get (named_shapes evaluation.now.terms evaluation.now.shapes) aim.place ≡ Some c → both.0 ≡ c.node) }
    ensures focus { IfOk result (λ both. both.1 ≡ term_at evaluation.now.terms aim.focus) }
{
    let node = node_at(evaluation, names, aim.place);
    Ok(both(node.clone(), named(names, aim.focus).clone())?)
}

// The evidence of a result at the shape and the focus node that give it.
fn block_of<R: Triples, N: Names, L: Ledger>(
    evaluation: &Evaluation<'_, R, N>,
    names: &N,
    row: &ResultRow,
    aim: Aim,
    steps: &mut Steps<L>,
) -> Result<Block, AllocError>
    requires names { N.terms names.now ≡ evaluation.now.terms }
    requires graph { HaveGraph evaluation.now.terms evaluation.now.shapes }
    requires place { aim.place < length evaluation.now.shapes }
    requires focus { aim.focus < length evaluation.now.terms }
    requires least { ForShape evaluation.now.terms evaluation.now.shapes aim.place
        (λ s shape. IsLeastAim (graph_of evaluation.now.terms evaluation.now.ids) s row.now shape (term_at evaluation.now.terms aim.focus)) }
    ensures { IfOk result (IsEvidenceOf evaluation.now.terms evaluation.now.ids evaluation.now.shapes row.now) }
{
    evaluation.recall();
    let looks = looks_of(evaluation, names, aim.place, aim.focus, steps)?;
    let shown = shown_looks(
        evaluation.alloc(),
        evaluation.graph(),
        names,
        looks.as_slice(),
    )?;
    let (shape, focus) = aim_terms(evaluation, names, aim)?;
    Ok(Block {
        shape,
        focus,
        row: row.clone()?,
        looks: shown,
    })
}

/// The text of a result's evidence (SHACL section 3.6), line by line: the least shape and focus node that give the result,
/// its parts, the looks of that shape at that node in their order, each followed by the triples of the graph that match it,
/// and `end`. It is that of each shapes graph that the shapes stand for, in which no shape refers to itself and no chain of
/// references is longer than 256. It fails only for want of memory.
pub fn evidence<R: Triples, N: Names, L: Ledger>(
    data: &NumberedData<'_, R, N>,
    bound: &Bound,
    row: &ResultRow,
    steps: &mut Steps<L>,
) -> Result<String, AllocError>
    requires bound { AreBound data.now.terms bound.now.shapes }
    requires built { AreBuilt (term_at data.now.terms) bound.now.shapes }
    requires row { IsSomeResult data.now.terms data.now.ids bound.now.shapes row.now }
    ensures { IfOk result (λ text. (block : _) × IsEvidenceOf data.now.terms data.now.ids bound.now.shapes row.now block × (string_bytes text ≡ block_text block)) }
{
    let evaluation = data.evaluation(bound);
    let names = data.names();
    let aim = aim_of(&evaluation, names, row, steps)?;
    let block = block_of(&evaluation, names, row, aim, steps)?;
    write_block(data.alloc(), &block)
}

/// The text of a result's block, where the least shape and focus node that give the result are known.
pub fn evidence_at<R: Triples, N: Names, L: Ledger>(
    data: &NumberedData<'_, R, N>,
    bound: &Bound,
    aimed: &AimedRow,
    steps: &mut Steps<L>,
) -> Result<String, AllocError>
    requires bound { AreBound data.now.terms bound.now.shapes }
    requires built { AreBuilt (term_at data.now.terms) bound.now.shapes }
    requires shapes { HaveGraph data.now.terms bound.now.shapes }
    requires aimed { IsLeastAimed data.now.terms data.now.ids bound.now.shapes aimed.now }
    ensures { IfOk result (λ text. (block : _) × IsEvidenceOf data.now.terms data.now.ids bound.now.shapes aimed.now.row block × (string_bytes text ≡ block_text block)) }
{
    let evaluation = data.evaluation(bound);
    let aim = Aim {
        place: aimed.place,
        focus: aimed.number,
    };
    let block = block_of(&evaluation, data.names(), &aimed.row, aim, steps)?;
    write_block(data.alloc(), &block)
}
