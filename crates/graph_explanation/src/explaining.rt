//! The text that explains a validation.
ghost use Rattle.std.specs.Prelude.{◌≡◌, ◌++◌, ℕ, IfOk, OnOk, codes, string_bytes};
ghost use Rattle.std.specs.Fmt.{decimal};
ghost use Rattle.rdf_model.specs.Numbers.{graph_of, term_at};
ghost use Rattle.shape_ast.specs.Readings.{AreBound};
ghost use Rattle.shape_ast.specs.Standing.{AreBuilt};
ghost use Rattle.parallel_validate.specs.Named.{AreNamedTriples};
ghost use Rattle.result_evidence.specs.AimedRows.{AreAimedRows};
ghost use Rattle.result_evidence.specs.Standing.{HaveGraph};
ghost use Rattle.graph_explanation.specs.Explanations.{IsExplanation};
ghost use Rattle.graph_explanation.specs.Firsts.{IsTextOfEach};

use crate::firsts::is_first;
use rdf_model::{Names, Triples};
use result_evidence::{AimedRow, NumberedData, aimed_rows, evidence_at};
use shape_ast::{Bound, bind};
use shape_eval::Steps;
use shapes_graph::ShapesGraph;
use std::alloc::AllocError;
use std::sync::ledger::Ledger;

// Adds a block behind its number.
fn push_block(out: &mut String, number: u64, block: &str) -> Result<(), AllocError>
    ensures { OnOk result (string_bytes out.new ≡ string_bytes out.old ++ codes "result " ++ decimal number ++ codes "\n" ++ block.now) }
{
    write!(out, "result {number}\n{block}")
}

// The evidence of the rows, of each at the least shape and focus node that give it, behind its number.
fn blocks_of<R: Triples, N: Names, L: Ledger>(
    data: &NumberedData<'_, R, N>,
    bound: &Bound,
    aimed: &[AimedRow],
    steps: &mut Steps<L>,
) -> Result<String, AllocError>
    requires bound { AreBound data.now.terms bound.now.shapes }
    requires built { AreBuilt (term_at data.now.terms) bound.now.shapes }
    requires shapes { HaveGraph data.now.terms bound.now.shapes }
    requires aimed { AreAimedRows data.now.terms data.now.ids bound.now.shapes aimed.now }
    ensures { IfOk result (λ text. (n : ℕ) × IsTextOfEach data.now.terms data.now.ids bound.now.shapes aimed.now n (string_bytes text)) }
{
    let mut out = String::new(data.alloc());
    let mut number = 0;
    for (place, row) in aimed.iter().enumerate() {
        if is_first(aimed, place) {
            number += 1;
            let block = evidence_at(data, bound, row, steps)?;
            push_block(&mut out, number, block.as_str())?;
        }
    }
    Ok(out)
}

/// The text that explains the validation of the data graph by the shapes graph (SHACL section 3.6): for each result, in
/// their order, a line of its number, from 1, and its evidence, which are the looks that decide it with their triples. Where the
/// graph conforms the text is empty. All terms of the shapes are among the names of the data. Each shape is evaluated once at
/// each of its targets, and once more for each block; evaluations are counted in `steps`. It fails only for want of memory.
pub fn explanation_over<R: Triples, N: Names, L: Ledger>(
    data: &NumberedData<'_, R, N>,
    shapes: &ShapesGraph,
    steps: &mut Steps<L>,
) -> Result<String, AllocError>
    requires { AreNamedTriples data.now.terms shapes.now }
    ensures { IfOk result (λ text. IsExplanation (graph_of data.now.terms data.now.ids) shapes.now (string_bytes text)) }
{
    let bound = bind(data.alloc(), shapes.shapes(), data.names())?;
    let aimed = aimed_rows(data, &bound, steps)?;
    blocks_of(data, &bound, aimed.as_slice(), steps)
}
