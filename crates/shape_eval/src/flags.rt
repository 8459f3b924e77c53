//! The flags of a shape.
ghost use Rattle.std.specs.Prelude.{◌≡◌, ◌<◌, ℕ, List, Some, length};
ghost use Rattle.rdf_model.specs.Numbers.{term_at};
ghost use Rattle.literal_order.specs.Texts.{string_value};
ghost use Rattle.shape_ast.specs.Readings.{HoldsOfShape, read_optional};
ghost use Rattle.shape_ast.specs.Standing.{HasFlagsText};

use crate::context::Evaluation;
use rdf_model::{Names, Term, Triples};
use shape_ast::Shape;

// The text of a term that has one.
fn text_of(term: &Term) -> &str
    ensures { (text : List ℕ) → string_value term.now ≡ Some text → result.now ≡ text }
{
    match literal_order::str(term) {
        Some(text) => text,
        None => "",
    }
}

/// The text of the flags of a shape that has a pattern: it is empty where the shape has no flags.
pub(crate) fn flags_text<'a, R: Triples, N: Names>(
    evaluation: &Evaluation<'a, R, N>,
    shape: &Shape<u32>,
) -> &'a str
    requires shape { HoldsOfShape (λ n. n < length evaluation.now.terms) (length evaluation.now.shapes) shape.now }
    ensures { (text : List ℕ) → HasFlagsText (read_optional (term_at evaluation.now.terms) shape.now.flags) text → result.now ≡ text }
{
    match shape.flags {
        None => "",
        Some(number) => text_of(evaluation.named(number)),
    }
}
