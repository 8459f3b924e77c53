//! The verdict on a text.
ghost use Rattle.std.specs.Prelude.{◌≡◌, ◌+◌, ◌<◌, ◌≤◌, ◌^◌, IfOk, IfSome, MatchResult, length};
ghost use Rattle.rdf_model.specs.Numbers.{graph_of, term_at};
ghost use Rattle.shape_ast.specs.Readings.{AreBound};
ghost use Rattle.shape_ast.specs.Standing.{AreBuilt};
ghost use Rattle.parallel_validate.specs.Named.{AreNamedTriples};
ghost use Rattle.evidence_blocks.specs.Verdicts.{IsVerified};
ghost use Rattle.result_evidence.specs.Standing.{ForEach, HaveGraph};
ghost use Rattle.evidence_verdict.specs.Causes.{IsCause};
ghost use Rattle.evidence_verdict.specs.Judging.{IsNextShown};

use crate::VerdictFault;
use crate::judging::shows;
use evidence_reader::read_block;
use rdf_model::{Names, Triples};
use result_evidence::NumberedData;
use shape_ast::{Bound, bind};
use shape_eval::{Evaluation, Steps};
use shapes_graph::ShapesGraph;
use std::alloc::AllocError;
use std::sync::ledger::Ledger;

// What follows the block with this number, if the text begins with it and it shows its result.
fn next_shown<'a, R: Triples, N: Names, L: Ledger>(
    evaluation: &Evaluation<'_, R, N>,
    names: &N,
    number: u32,
    text: &'a [u8],
    steps: &mut Steps<L>,
) -> Result<Option<&'a [u8]>, AllocError>
    requires names { N.terms names.now ≡ evaluation.now.terms }
    requires shapes { HaveGraph evaluation.now.terms evaluation.now.shapes }
    ensures block { IfOk result (λ found. ForEach evaluation.now.terms evaluation.now.shapes
        (λ s. IsNextShown (graph_of evaluation.now.terms evaluation.now.ids) s number text.now found)) }
    ensures shorter { IfOk result (λ found. IfSome found (λ rest. length rest.now < length text.now)) }
{
    let Some((block, rest)) = read_block(evaluation.alloc(), u64::from(number), text)? else {
        return Ok(None);
    };
    let is_shown = shows(evaluation, names, &block, steps)?;
    if is_shown { Ok(Some(rest)) } else { Ok(None) }
}

// How many blocks the text has, which all show their results.
fn count_of<R: Triples, N: Names, L: Ledger>(
    evaluation: &Evaluation<'_, R, N>,
    names: &N,
    text: &[u8],
    steps: &mut Steps<L>,
) -> Result<u32, VerdictFault>
    requires names { N.terms names.now ≡ evaluation.now.terms }
    requires shapes { HaveGraph evaluation.now.terms evaluation.now.shapes }
    requires text { length text.now < 2 ^ 32 }
    ensures { ForEach evaluation.now.terms evaluation.now.shapes
        (λ s. MatchResult result (IsVerified (graph_of evaluation.now.terms evaluation.now.ids) s text.now) (IsCause (graph_of evaluation.now.terms evaluation.now.ids) s text.now)) }
{
    let mut count = 0;
    let mut rest = text;
    while !rest.is_empty() {
        let number = count + 1;
        let found = next_shown(evaluation, names, number, rest, steps)?;
        match found {
            Some(behind) => rest = behind,
            None => return Err(VerdictFault::Block { number }),
        }
        count = number;
    }
    Ok(count)
}

/// How many blocks of evidence a text has, where all of it is spelled as blocks are, numbered from 1, and each shows its result
/// (SHACL section 3.6): under its looks, which ascend, stand just the triples of the graph that match them, and by these triples
/// alone its shape gives the result at its focus node, a target, looking at listed looks alone. It is so under each shapes graph
/// that the shapes stand for, in which no shape refers to itself and no chain of references is longer than 256.
///
/// Else the first block, from 1, that isn't so, or memory. Each block is evaluated once, over its own triples, which is counted
/// in `steps`.
pub fn verify<R: Triples, N: Names, L: Ledger>(
    data: &NumberedData<'_, R, N>,
    bound: &Bound,
    text: &[u8],
    steps: &mut Steps<L>,
) -> Result<u32, VerdictFault>
    requires bound { AreBound data.now.terms bound.now.shapes }
    requires built { AreBuilt (term_at data.now.terms) bound.now.shapes }
    requires shapes { HaveGraph data.now.terms bound.now.shapes }
    requires text { length text.now < 2 ^ 32 }
    ensures { ForEach data.now.terms bound.now.shapes
        (λ s. MatchResult result (IsVerified (graph_of data.now.terms data.now.ids) s text.now) (IsCause (graph_of data.now.terms data.now.ids) s text.now)) }
{
    let evaluation = data.evaluation(bound);
    count_of(&evaluation, data.names(), text, steps)
}

/// How many blocks of evidence a text has under a shapes graph, each of which shows its result, or the first that doesn't. All terms
/// of the shapes are among the names of the data.
pub fn verdict_over<R: Triples, N: Names, L: Ledger>(
    data: &NumberedData<'_, R, N>,
    shapes: &ShapesGraph,
    text: &[u8],
    steps: &mut Steps<L>,
) -> Result<u32, VerdictFault>
    requires shapes { AreNamedTriples data.now.terms shapes.now }
    requires text { length text.now < 2 ^ 32 }
    ensures { MatchResult result (IsVerified (graph_of data.now.terms data.now.ids) shapes.now text.now) (IsCause (graph_of data.now.terms data.now.ids) shapes.now text.now) }
{
    let bound = bind(data.alloc(), shapes.shapes(), data.names())?;
    verify(data, &bound, text, steps)
}
