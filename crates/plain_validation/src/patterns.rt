// The patterns of a shapes graph, as its compiled shapes have them.
ghost use Rattle.std.specs.Prelude.{◌≡◌, ℕ, List, IfOk, OnOk, Some};
ghost use Rattle.literal_order.specs.Texts.{string_value};
ghost use Rattle.plain_values.specs.Built.{ArePatternsOf};
ghost use Rattle.shape_ast.specs.Standing.{HasFlagsText};
ghost use Rattle.plain_validation.specs.Patterns.{Adds, AreTaken, IsTakenOf};

use plain_values::BuiltPattern;
use rdf_model::{Term, Text};
use shape_ast::{CompiledPattern, Shape};
use shapes_graph::ShapesGraph;
use std::alloc::{AllocError, Global};
use std::sync::Arc;

// The text of the term, if it has one.
fn text_of(term: &Term) -> &str
    ensures { (text : List ℕ) → string_value term.now ≡ Some text → result.now ≡ text }
{
    match literal_order::str(term) {
        Some(text) => text,
        None => "",
    }
}

// The text of a shape's flags.
fn flags_text(flags: &Option<Term>) -> &str
    ensures { (text : List ℕ) → HasFlagsText flags.now text → result.now ≡ text }
{
    match flags {
        Some(term) => text_of(term),
        None => "",
    }
}

// The pattern with the flags under which it was built.
fn built_pattern(
    alloc: Global,
    pattern: &CompiledPattern<Term>,
    flags: &Option<Term>,
) -> Result<BuiltPattern, AllocError>
    ensures { IfOk result (IsTakenOf pattern.now flags.now) }
{
    Ok(BuiltPattern {
        parameter: pattern.parameter.clone()?,
        flags: Text::new(alloc, flags_text(flags))?,
        regex: Arc::try_clone(&pattern.regex)?,
    })
}

// Adds the pattern of the shape, if it has one.
fn push_pattern(
    alloc: Global,
    shape: &Shape<Term>,
    found: &mut Vec<BuiltPattern>,
) -> Result<(), AllocError>
    ensures { OnOk result (Adds shape.now found.old.items found.new.items) }
{
    match &shape.pattern {
        Some(pattern) => {
            found.push(built_pattern(alloc, pattern, &shape.flags)?)?;
            Ok(())
        }
        None => Ok(()),
    }
}

// Those of some compiled shapes.
fn patterns_of(alloc: Global, shapes: &[Shape<Term>]) -> Result<Vec<BuiltPattern>, AllocError>
    ensures { IfOk result (λ found. AreTaken shapes.now shapes.now found.items) }
{
    let mut found = Vec::new(alloc);
    for shape in shapes {
        push_pattern(alloc, shape, &mut found)?;
    }
    Ok(found)
}

/// The patterns of the shapes graph, built under the flags of its shapes. The regexes are shared.
pub fn built_patterns(alloc: Global, shapes: &ShapesGraph) -> Result<Vec<BuiltPattern>, AllocError>
    ensures { IfOk result (λ patterns. ArePatternsOf shapes.now patterns.items) }
{
    let compiled = shapes.shapes();
    let patterns = patterns_of(alloc, compiled.shapes.as_slice())?;
    Ok(patterns)
}
