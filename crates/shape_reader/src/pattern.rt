//! The pattern of a shape (SHACL section 4.4.3).
ghost use Rattle.std.specs.Prelude.{◌≡◌, None, Some, IfOk, MatchResult};
ghost use Rattle.std.specs.Arc.{arc_value};
ghost use Rattle.literal_order.specs.Texts.{string_value};
ghost use Rattle.shape_reader.specs.Asked.{AsksIfAny, AsksInVain};
ghost use Rattle.shape_reader.specs.Parts.{IsFlagsText, IsMakeFault, IsOptionalPattern};

use crate::shape_node::ShapeNode;
use crate::values::value_of;
use outside::{MakeFault, Maker};
use rdf_model::Term;
use regex::Regex;
use shape_ast::CompiledPattern;
use shape_properties::ShapeProperty;
use std::alloc::{AllocError, Global};
use std::sync::Arc;

// The text of a term that has one.
fn text_of(term: &Term) -> &str
    requires { string_value term.now ≡ None → ⊥ }
    ensures { string_value term.now ≡ Some result.now }
{
    match literal_order::str(term) {
        Some(text) => text,
        None => "",
    }
}

fn flags_text<'a>(shape: &ShapeNode<'a>) -> &'a str
    ensures { IsFlagsText shape.now.graph shape.now.node result.now }
{
    shape.recall();
    match value_of(shape, ShapeProperty::Flags) {
        Some(value) => text_of(value),
        None => "",
    }
}

fn shared(alloc: Global, regex: Regex) -> Result<Arc<Regex>, AllocError>
    ensures { IfOk result (λ made. arc_value made ≡ regex) }
{
    Ok(Arc::new(alloc, regex)?)
}

/// The pattern of the shape at the node, if it has one, built by the maker under the shape's flags.
pub(crate) fn pattern_of<M: Maker>(
    maker: &mut M,
    shape: &ShapeNode,
) -> Result<Option<CompiledPattern<Term>>, MakeFault>
    ensures answer { MatchResult result (λ found. IsOptionalPattern shape.now.graph shape.now.node found × (M.refused maker.new ≡ M.refused maker.old))
        (λ fault. IsMakeFault shape.now.graph shape.now.node fault (M.refused maker.old) (M.refused maker.new)) }
    ensures asked { MatchResult result (λ _. AsksIfAny shape.now.graph shape.now.node (M.asked maker.old) (M.asked maker.new))
        (λ fault. AsksInVain shape.now.graph shape.now.node fault (M.asked maker.old) (M.asked maker.new)) }
{
    shape.recall();
    let Some(value) = value_of(shape, ShapeProperty::Pattern) else {
        return Ok(None);
    };
    let regex = maker.build(shape.alloc(), text_of(value), flags_text(shape))?;
    Ok(Some(CompiledPattern {
        parameter: value.clone()?,
        regex: shared(shape.alloc(), regex)?,
    }))
}
