//! Whether results of a severity block.
ghost use Rattle.std.specs.Prelude.{◌≡◌, ◌↔◌, ◌⊎◌, IsTrue, codes};
ghost use Rattle.std.specs.Option.{unwrap_or};
ghost use Rattle.shape_model.specs.Declarations.{severity_of};
ghost use Rattle.shape_model.specs.ShapeSyntax.{IsShape};
ghost use Rattle.shape_model.specs.Vocabulary.{sh};
ghost use Rattle.store_model.specs.declared.event.BlockMode.TheVariants as modes;
ghost use Rattle.store_model.specs.Blocking.{row_blocks, severity_blocks};

use rdf_model::Term;
use shape_model::ResultRow;
use shape_syntax::terms::is_named;
use shapes_graph::ShapesGraph;
use store_model::BlockMode;

// Whether the severity is sh:Warning or sh:Info.
#[tactic(auto, unfolding(shape_model::specs::Vocabulary::sh))]
fn is_weak(severity: &Term) -> bool
    ensures { IsTrue result ↔ ((severity.now ≡ sh (codes "Warning")) ⊎ (severity.now ≡ sh (codes "Info"))) }
{
    is_named(severity, "http://www.w3.org/ns/shacl#Warning")
        || is_named(severity, "http://www.w3.org/ns/shacl#Info")
}

// Whether results of a shape that declares this severity block, where not all do.
fn declared_blocks(declared: &Option<Term>) -> bool
    ensures { result ≡ severity_blocks modes.Violation (unwrap_or declared.now (sh (codes "Violation"))) }
{
    match declared {
        None => true,
        Some(severity) => !is_weak(severity),
    }
}

// Whether the result blocks, where not all do.
fn violates(graph: &ShapesGraph, row: &ResultRow) -> bool
    requires { IsShape graph.now row.now.source_shape }
    ensures { result ≡ severity_blocks modes.Violation (severity_of graph.now row.now.source_shape) }
{
    let shapes = graph.shapes();
    for shape in shapes.shapes.as_slice() {
        if shape.node == row.source_shape {
            return declared_blocks(&shape.severity);
        }
    }
    true
}

/// Whether the result blocks: always, or by the severity of its source shape, which is one of the graph's.
pub(crate) fn does_block(mode: BlockMode, graph: &ShapesGraph, row: &ResultRow) -> bool
    requires { IsShape graph.now row.now.source_shape }
    ensures { result ≡ row_blocks mode graph.now row.now }
{
    match mode {
        BlockMode::All => true,
        BlockMode::Violation => violates(graph, row),
    }
}
