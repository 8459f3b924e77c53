//! The shapes of a well-formed shapes graph, compiled one after another.
ghost use Rattle.std.specs.Prelude.{◌≡◌, IfOk, MatchResult};
ghost use Rattle.collections.specs.Ordered.{IsAscending};
ghost use Rattle.rdf_model.specs.Terms.{triple_cmp};
ghost use Rattle.shape_rules.specs.Broken.{IsWellFormed};
ghost use Rattle.shape_sizes.specs.Surveys.{IsSurvey};
ghost use Rattle.shape_ast.specs.Standing.{AreCompiled};
ghost use Rattle.shape_reader.specs.Asked.{AsksAll, AsksBefore};
ghost use Rattle.shape_reader.specs.Faults.{IsCompileCause};
ghost use Rattle.shape_ast.specs.Once.{AreOnce};
ghost use Rattle.shape_reader.specs.Parts.{AreRead};

use crate::CompileFault;
use crate::shape::compile_shape;
use crate::shape_node::ShapeNode;
use collections::Sequence;
use outside::Maker;
use rdf_model::Triple;
use shape_ast::Shapes;
use shape_sizes::{Survey, survey_of};
use shape_syntax::IndexedGraph;
use std::alloc::Global;

/// The shapes of the graph, as `compile` has them, by the graph's survey.
pub(crate) fn compile_of<'a, M: Maker>(
    alloc: Global,
    maker: &mut M,
    graph: &'a IndexedGraph<'a>,
    survey: &'a Survey,
) -> Result<Shapes, CompileFault>
    requires ascending { IsAscending triple_cmp graph.now }
    requires well_formed { IsWellFormed graph.now }
    requires survey { IsSurvey graph.now survey.now }
    ensures answer { MatchResult result
        (λ shapes. AreRead graph.now shapes.shapes × (M.refused maker.new ≡ M.refused maker.old))
        (λ fault. IsCompileCause graph.now fault (M.refused maker.old) (M.refused maker.new)) }
    ensures asked { MatchResult result (λ _. AsksAll graph.now (M.asked maker.old) (M.asked maker.new))
        (λ fault. AsksBefore graph.now fault (M.asked maker.old) (M.asked maker.new)) }
{
    let nodes = survey.shapes.as_slice();
    let mut shapes = Sequence::new(alloc);
    for node in nodes {
        let shape = ShapeNode::new(alloc, graph, survey, node);
        let compiled = compile_shape(maker, &shape)?;
        shapes.push(compiled)?;
    }
    Ok(Shapes { shapes })
}

/// The shapes of a well-formed shapes graph, compiled (SHACL section 2), with each of their parts once. The maker builds the patterns, shape by shape
/// in the order of nodes.
///
/// Errors: `Pattern` where the maker refused the pattern of a shape under its flags, after which no more are built.
pub fn compile<M: Maker>(
    alloc: Global,
    maker: &mut M,
    graph: &[Triple],
) -> Result<Shapes, CompileFault>
    requires ascending { IsAscending triple_cmp graph.now }
    requires well_formed { IsWellFormed graph.now }
    ensures answer { MatchResult result
        (λ shapes. AreCompiled shapes.shapes graph.now)
        (λ fault. IsCompileCause graph.now fault (M.refused maker.old) (M.refused maker.new)) }
    ensures once { IfOk result (λ shapes. AreOnce shapes.shapes) }
    ensures refused { IfOk result (λ _. M.refused maker.new ≡ M.refused maker.old) }
    ensures asked { MatchResult result (λ _. AsksAll graph.now (M.asked maker.old) (M.asked maker.new))
        (λ fault. AsksBefore graph.now fault (M.asked maker.old) (M.asked maker.new)) }
{
    let indexed = IndexedGraph::new(alloc, graph)?;
    let survey = survey_of(alloc, &indexed)?;
    let shapes = compile_of(alloc, maker, &indexed, &survey)?;
    Ok(shapes)
}
