//! One shape, compiled (SHACL section 2).
ghost use Rattle.std.specs.Prelude.{◌≡◌, ◌↔◌, ℕ, IfOk, IsTrue, MatchResult};
ghost use Rattle.std.specs.List.{Contains};
ghost use Rattle.collections.specs.Listings.{IsListing};
ghost use Rattle.rdf_model.specs.declared.term.Term.{Term as TermData};
ghost use Rattle.rdf_model.specs.Terms.{term_cmp};
ghost use Rattle.shape_properties.specs.declared.property.ShapeProperty.TheVariants as properties;
ghost use Rattle.shape_properties.specs.Syntax.{HasProperty};
ghost use Rattle.shape_ast.specs.Readings.{read_optional_path};
ghost use Rattle.shape_reader.specs.Asked.{AsksAt, AsksIfAny};
ghost use Rattle.shape_reader.specs.Faults.{IsCompileCause};
ghost use Rattle.shape_reader.specs.Parts.{AreConstraints, ArePartsOf, AreProperties, AreTargetsOf, HasSibling, IsIgnored, IsKeptPath, IsOff, IsOptionalPattern, IsPatternFault, IsShapeOf, IsValue};

use crate::CompileFault;
use crate::constraint::constraints_of;
use crate::path::kept_path;
use crate::pattern::pattern_of;
use crate::shape_node::ShapeNode;
use crate::target::targets_of;
use crate::values::{
    copied_value, ignored_of, is_deactivated, properties_of, qualified_of, siblings_of, values_once,
};
use collections::{Sequence, both};
use outside::{MakeFault, Maker};
use path_ast::Path;
use rdf_model::Term;
use shape_ast::{CompiledPattern, Constraint, Shape, Target};
use shape_properties::ShapeProperty;
use std::alloc::AllocError;

// The targets and the constraints; the property shapes and the siblings.
type Lists = (
    (Sequence<Target<Term>>, Sequence<Constraint<Term>>),
    (Sequence<usize>, Sequence<usize>),
);

// The severity and the flags; the messages and the ignored terms.
type Words = (
    (Option<Term>, Option<Term>),
    (Sequence<Term>, Sequence<Term>),
);

fn lists_of(shape: &ShapeNode) -> Result<Lists, AllocError>
    ensures targets { IfOk result (λ lists. AreTargetsOf shape.now.graph shape.now.nodes shape.now.node lists.0.0) }
    ensures constraints { IfOk result (λ lists. AreConstraints shape.now.graph shape.now.nodes shape.now.node lists.0.1) }
    ensures properties { IfOk result (λ lists. AreProperties shape.now.graph shape.now.nodes shape.now.node lists.1.0) }
    ensures siblings { IfOk result (λ lists. (k : ℕ) → Contains lists.1.1 k ↔ HasSibling shape.now.graph shape.now.nodes shape.now.node k) }
{
    let parts = both(targets_of(shape), constraints_of(shape));
    let places = both(properties_of(shape), siblings_of(shape));
    both(parts, places)
}

fn words_of(shape: &ShapeNode) -> Result<Words, AllocError>
    ensures severity { IfOk result (λ words. IsValue shape.now.graph shape.now.node properties.Severity words.0.0) }
    ensures flags { IfOk result (λ words. IsValue shape.now.graph shape.now.node properties.Flags words.0.1) }
    ensures messages { IfOk result (λ words. IsListing term_cmp (HasProperty shape.now.graph shape.now.node properties.Message) words.1.0) }
    ensures ignored { IfOk result (λ words. (t : TermData) → Contains words.1.1 t ↔ IsIgnored shape.now.graph shape.now.node t) }
{
    let singles = both(
        copied_value(shape, ShapeProperty::Severity),
        copied_value(shape, ShapeProperty::Flags),
    );
    let lists = both(
        values_once(shape, ShapeProperty::Message),
        ignored_of(shape),
    );
    both(singles, lists)
}

// The fault of the shape at the node whose pattern was not built.
fn pattern_fault(node: Term, fault: MakeFault) -> CompileFault
    ensures { IsPatternFault node fault result }
{
    match fault {
        MakeFault::Refused => CompileFault::Pattern { node },
        MakeFault::Memory => CompileFault::Memory,
    }
}

// The node of the fault is made first, so that a refusal is always told.
fn pattern_at<M: Maker>(
    maker: &mut M,
    shape: &ShapeNode,
) -> Result<Option<CompiledPattern<Term>>, CompileFault>
    ensures answer { MatchResult result (λ found. IsOptionalPattern shape.now.graph shape.now.node found × (M.refused maker.new ≡ M.refused maker.old))
        (λ fault. IsCompileCause shape.now.graph fault (M.refused maker.old) (M.refused maker.new)) }
    ensures asked { MatchResult result (λ _. AsksIfAny shape.now.graph shape.now.node (M.asked maker.old) (M.asked maker.new))
        (λ fault. AsksAt shape.now.graph shape.now.node fault (M.asked maker.old) (M.asked maker.new)) }
{
    let copy = shape.node().clone()?;
    match pattern_of(maker, shape) {
        Ok(found) => Ok(found),
        Err(fault) => Err(pattern_fault(copy, fault)),
    }
}

// What is kept of the path, and the pattern.
fn made_of<M: Maker>(
    maker: &mut M,
    shape: &ShapeNode,
    is_deactivated: bool,
) -> Result<(Option<Path<Term>>, Option<CompiledPattern<Term>>), CompileFault>
    requires { IsTrue is_deactivated ↔ IsOff shape.now.graph shape.now.node }
    ensures answer { MatchResult result
        (λ made. IsKeptPath shape.now.graph shape.now.node (read_optional_path (λ t. t) made.0) × (IsOptionalPattern shape.now.graph shape.now.node made.1 × (M.refused maker.new ≡ M.refused maker.old)))
        (λ fault. IsCompileCause shape.now.graph fault (M.refused maker.old) (M.refused maker.new)) }
    ensures asked { MatchResult result (λ _. AsksIfAny shape.now.graph shape.now.node (M.asked maker.old) (M.asked maker.new))
        (λ fault. AsksAt shape.now.graph shape.now.node fault (M.asked maker.old) (M.asked maker.new)) }
{
    let path = kept_path(shape, is_deactivated)?;
    let pattern = pattern_at(maker, shape)?;
    Ok((path, pattern))
}

// What is made of the node's triples but for the path and the pattern, with a copy of the node.
type Parts = ((Term, Lists), Words);

fn parts_at(shape: &ShapeNode) -> Result<Parts, AllocError>
    ensures { IfOk result (λ parts. ArePartsOf shape.now.graph shape.now.nodes shape.now.node parts.0.0 parts.0.1.0.0 parts.0.1.0.1
        parts.0.1.1.0 parts.0.1.1.1 parts.1.0.0 parts.1.0.1 parts.1.1.0 parts.1.1.1) }
{
    let lists = lists_of(shape);
    let words = words_of(shape);
    both(both(shape.node().clone(), lists), words)
}

// The shape of its parts.
fn assembled(
    shape: &ShapeNode,
    is_deactivated: bool,
    path: Option<Path<Term>>,
    pattern: Option<CompiledPattern<Term>>,
    parts: Parts,
) -> Shape<Term>
    requires off { IsTrue is_deactivated ↔ IsOff shape.now.graph shape.now.node }
    requires path { IsKeptPath shape.now.graph shape.now.node (read_optional_path (λ t. t) path) }
    requires pattern { IsOptionalPattern shape.now.graph shape.now.node pattern }
    requires parts { ArePartsOf shape.now.graph shape.now.nodes shape.now.node parts.0.0 parts.0.1.0.0 parts.0.1.0.1
        parts.0.1.1.0 parts.0.1.1.1 parts.1.0.0 parts.1.0.1 parts.1.1.0 parts.1.1.1 }
    ensures { IsShapeOf shape.now.graph shape.now.nodes shape.now.node result }
{
    shape.recall();
    let ((node, lists), words) = parts;
    let ((targets, constraints), (properties, siblings)) = lists;
    let ((severity, flags), (messages, ignored)) = words;
    Shape {
        node,
        path,
        is_deactivated,
        severity,
        messages,
        targets,
        constraints,
        pattern,
        flags,
        properties,
        qualified: qualified_of(shape),
        siblings,
        ignored,
    }
}

/// The shape at the node.
pub(crate) fn compile_shape<M: Maker>(
    maker: &mut M,
    shape: &ShapeNode,
) -> Result<Shape<Term>, CompileFault>
    ensures answer { MatchResult result
        (λ compiled. IsShapeOf shape.now.graph shape.now.nodes shape.now.node compiled × (M.refused maker.new ≡ M.refused maker.old))
        (λ fault. IsCompileCause shape.now.graph fault (M.refused maker.old) (M.refused maker.new)) }
    ensures asked { MatchResult result (λ _. AsksIfAny shape.now.graph shape.now.node (M.asked maker.old) (M.asked maker.new))
        (λ fault. AsksAt shape.now.graph shape.now.node fault (M.asked maker.old) (M.asked maker.new)) }
{
    let off = is_deactivated(shape);
    let (path, pattern) = made_of(maker, shape, off)?;
    let parts = parts_at(shape)?;
    Ok(assembled(shape, off, path, pattern, parts))
}
