//! A well-formed shapes graph with its compiled shapes.
ghost use Rattle.std.specs.Prelude.{◌≡◌, [], IfOk};
ghost use Rattle.shape_ast.specs.Once.{AreOnce};
ghost use Rattle.shape_ast.specs.Standing.{AreCompiled};
ghost use Rattle.shape_rules.specs.Broken.{IsWellFormed};

use collections::Sequence;
use rdf_model::Triple;
use shape_ast::Shapes;
use std::alloc::{AllocError, Global};
use std::marker::Model;
use std::sync::Arc;

#[derive(Debug, Drop)]
struct Content {
    triples: Sequence<Triple>,
    shapes: Shapes,
}

/// A well-formed shapes graph with its compiled shapes. Contracts see its triples.
#[derive(Debug, Drop)]
pub struct ShapesGraph {
    content: Arc<Content>,
}

impl Model for ShapesGraph {
    ghost use Rattle.std.specs.Prelude.{List};
    ghost use Rattle.std.specs.Arc.{arc_value};
    ghost use Rattle.rdf_model.specs.declared.triple.Triple.{Triple};
    ghost use Rattle.shape_ast.specs.Once.{AreOnce};
    ghost use Rattle.shape_ast.specs.Standing.{AreCompiled};
    ghost use Rattle.shape_rules.specs.Broken.{IsWellFormed};
    ghost use Rattle.shapes_graph.specs.declared.graph.Content.{Content};

    ghost Value = { List Triple };

    ghost view = { λ g. (arc_value g.content).triples };

    ghost invariant = { λ g. IsWellFormed (arc_value g.content).triples × AreCompiled (arc_value g.content).shapes.shapes (arc_value g.content).triples × AreOnce (arc_value g.content).shapes.shapes };
}

impl ShapesGraph {
    /// The graph of these triples, of which the shapes were compiled, each of their parts once.
    pub fn new(
        alloc: Global,
        triples: Sequence<Triple>,
        shapes: Shapes,
    ) -> Result<ShapesGraph, AllocError>
        requires well_formed { IsWellFormed triples }
        requires shapes { AreCompiled shapes.shapes triples }
        requires once { AreOnce shapes.shapes }
        ensures { IfOk result (λ graph. graph ≡ triples) }
    {
        Ok(ShapesGraph {
            content: Arc::new(alloc, Content { triples, shapes })?,
        })
    }

    /// The shapes graph without triples, which has no shapes.
    pub fn empty(alloc: Global) -> Result<ShapesGraph, AllocError>
        ensures { IfOk result (λ graph. graph ≡ []) }
    {
        ShapesGraph::new(
            alloc,
            Sequence::new(alloc),
            Shapes {
                shapes: Sequence::new(alloc),
            },
        )
    }

    /// The triples, in their order.
    pub fn triples(&self) -> &[Triple]
        ensures { result.now ≡ self.now }
    {
        self.content.triples.as_slice()
    }

    /// The shapes that were compiled of the triples. Each of their parts stands there once.
    pub fn shapes(&self) -> &Shapes
        ensures well_formed { IsWellFormed self.now }
        ensures shapes { AreCompiled result.now.shapes self.now }
        ensures once { AreOnce result.now.shapes }
    {
        &self.content.shapes
    }

    /// This shapes graph once more. Nothing is copied.
    pub fn share(&self) -> Result<ShapesGraph, AllocError>
        ensures { IfOk result (λ graph. graph ≡ self.now) }
    {
        Ok(ShapesGraph {
            content: Arc::try_clone(&self.content)?,
        })
    }
}
