//! The literal `true`.
ghost use Rattle.std.specs.Prelude.{◌≡◌, ◌↔◌, IsTrue};
ghost use Rattle.shape_model.specs.Vocabulary.{true_literal};

use rdf_model::Term;
use vocabulary::XSD_BOOLEAN;

/// Whether the term is the literal `true`. Another literal of that value, as `"1"^^xsd:boolean`, isn't. It takes no memory.
#[tactic(auto, unfolding(crate::specs::Vocabulary::true_literal))]
pub fn is_true(term: &Term) -> bool
    ensures { IsTrue result ↔ (term.now ≡ true_literal) }
{
    match term {
        Term::Literal {
            lexical,
            datatype,
            language: None,
        } => lexical.as_str() == "true" && datatype.as_str() == XSD_BOOLEAN,
        _ => false,
    }
}
