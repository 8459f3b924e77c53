//! The shapes of a shapes graph, if it is well-formed.
ghost use Rattle.std.specs.Prelude.{◌≡◌, IfOk, MatchResult};
ghost use Rattle.collections.specs.Ordered.{IsAscending};
ghost use Rattle.rdf_model.specs.Terms.{triple_cmp};
ghost use Rattle.shape_ast.specs.Standing.{AreCompiled};
ghost use Rattle.shape_rules.specs.Broken.{IsWellFormed};
ghost use Rattle.shape_sizes.specs.Surveys.{IsSurvey};
ghost use Rattle.shape_reader.specs.Asked.{AsksAll, AsksBeforeFault};
ghost use Rattle.shape_reader.specs.Faults.{IsCause};
ghost use Rattle.shape_reader.specs.Parts.{AreRead};
ghost use Rattle.shape_ast.specs.Once.{AreOnce};

use crate::ShapeFault;
use crate::shapes::compile_of;
use outside::Maker;
use rdf_model::Triple;
use shape_ast::Shapes;
use shape_rules::least_broken_of;
use shape_sizes::{Survey, survey_of};
use shape_syntax::IndexedGraph;
use std::alloc::Global;

// The shapes, by the graph's survey.
fn read_of<M: Maker>(
    alloc: Global,
    maker: &mut M,
    graph: &IndexedGraph,
    survey: &Survey,
) -> Result<Shapes, ShapeFault>
    requires ascending { IsAscending triple_cmp graph.now }
    requires survey { IsSurvey graph.now survey.now }
    ensures answer { MatchResult result
        (λ shapes. IsWellFormed graph.now × (AreRead graph.now shapes.shapes × (M.refused maker.new ≡ M.refused maker.old)))
        (λ fault. IsCause graph.now fault (M.refused maker.old) (M.refused maker.new)) }
    ensures asked { MatchResult result (λ _. AsksAll graph.now (M.asked maker.old) (M.asked maker.new))
        (λ fault. AsksBeforeFault graph.now fault (M.asked maker.old) (M.asked maker.new)) }
{
    let broken = least_broken_of(alloc, graph, survey)?;
    match broken {
        Some(row) => Err(ShapeFault::Rule(row)),
        None => {
            let shapes = compile_of(alloc, maker, graph, survey)?;
            Ok(shapes)
        }
    }
}

/// The shapes of a shapes graph, compiled, if it is well-formed (SHACL sections 2 and 3.4.2), with each of their parts
/// once. The maker builds the patterns, shape by shape in the order of nodes.
///
/// Errors: `Rule` where the graph isn't well-formed, with the least row of its broken rules; `Pattern` where it is, and
/// the maker refused the pattern of a shape under its flags, after which no more are built.
pub fn read_shapes<M: Maker>(
    alloc: Global,
    maker: &mut M,
    graph: &[Triple],
) -> Result<Shapes, ShapeFault>
    requires { IsAscending triple_cmp graph.now }
    ensures answer { MatchResult result (λ shapes. IsWellFormed graph.now × AreCompiled shapes.shapes graph.now)
        (λ fault. IsCause graph.now fault (M.refused maker.old) (M.refused maker.new)) }
    ensures once { IfOk result (λ shapes. AreOnce shapes.shapes) }
    ensures refused { IfOk result (λ _. M.refused maker.new ≡ M.refused maker.old) }
    ensures asked { MatchResult result (λ _. AsksAll graph.now (M.asked maker.old) (M.asked maker.new))
        (λ fault. AsksBeforeFault graph.now fault (M.asked maker.old) (M.asked maker.new)) }
{
    let indexed = IndexedGraph::new(alloc, graph)?;
    let survey = survey_of(alloc, &indexed)?;
    let shapes = read_of(alloc, maker, &indexed, &survey)?;
    Ok(shapes)
}
