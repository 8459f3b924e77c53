//! Texts of terms, language ranges, lengths.
ghost use Rattle.std.specs.Prelude.{◌≡◌, length, option_map};
ghost use Rattle.std.specs.Str.{chars};
ghost use Rattle.literal_order.specs.Texts;

use rdf_model::Term;

/// How many characters a text has.
pub fn char_len(text: &str) -> usize
    ensures { result ≡ length (chars text.now) }
{
    text.chars().count()
}

/// The text of an IRI, or the lexical form of a literal (STR of SPARQL 1.1, section 17.4.2.5).
/// A blank node has none.
pub fn str(term: &Term) -> Option<&str>
    ensures { option_map (λ text. text.now) result ≡ Texts.string_value term.now }
{
    match term {
        Term::Blank { .. } => None,
        Term::Iri(iri) => Some(iri.as_str()),
        Term::Literal { lexical, .. } => Some(lexical.as_str()),
    }
}

/// Whether a rest of a tag lies past a whole subtag.
fn ends_subtag(rest: &[u8]) -> bool
    ensures { result ≡ Texts.ends_subtag rest.now }
{
    match rest {
        [] => true,
        [next, ..] => *next == b'-',
    }
}

/// Whether a language tag matches a language range by basic filtering (RFC 4647, section 3.3.1).
#[tactic(auto, using(crate::proofs::TextLemmas::tag_lemmas), unfolding(crate::specs::Texts::lang_matches))]
pub fn lang_matches(tag: &str, range: &str) -> bool
    ensures { result ≡ Texts.lang_matches tag.now range.now }
{
    if range == "*" {
        return !tag.is_empty();
    }
    match tag.as_bytes().split_at_checked(range.len()) {
        Some((front, rest)) => front.eq_ignore_ascii_case(range.as_bytes()) && ends_subtag(rest),
        None => false,
    }
}
