//! IRIs and strings, by the characters after what opens them.
ghost use Rattle.std.specs.Prelude.{◌≡◌, ◌<◌, ◌≤◌, suc, IfOk, length};
ghost use Rattle.turtle_lex.specs.Enclosed as spec;

use crate::token::TokenKind;
use rdf_lexical::{CharSlice, Enclosed, Quotes, RefusalKind, enclosed_length, leading_marks};

/// The IRIREF by the characters after its `<`.
pub fn iri_ref(characters: &CharSlice<'_>) -> Result<(TokenKind, usize), RefusalKind>
    ensures value { result ≡ spec.iri_ref characters.now }
    ensures bound { IfOk result (λ token. (0 < token.1) × (token.1 ≤ suc (length characters.now))) }
{
    let length = enclosed_length(Enclosed::Iri, characters)?;
    Ok((TokenKind::IriRef, 1 + length))
}

// The quotes of a string that begins with this one, by the characters after it.
fn quotes_at(quote: char, characters: &CharSlice<'_>) -> Quotes
    ensures value { result ≡ spec.quotes_at quote characters.now }
    ensures bound { spec.more_quotes result ≤ length characters.now }
{
    let is_long = leading_marks(quote, 2, characters) == 2;
    match (quote, is_long) {
        ('"', false) => Quotes::Double,
        ('"', true) => Quotes::LongDouble,
        (_, false) => Quotes::Single,
        (_, true) => Quotes::LongSingle,
    }
}

fn more_quotes(quotes: Quotes) -> usize
    ensures { result ≡ spec.more_quotes quotes }
{
    match quotes {
        Quotes::Double | Quotes::Single => 0,
        Quotes::LongDouble | Quotes::LongSingle => 2,
    }
}

/// The string that begins with a quote, by the characters after it.
pub fn string_literal(
    quote: char,
    characters: &CharSlice<'_>,
) -> Result<(TokenKind, usize), RefusalKind>
    ensures value { result ≡ spec.string_literal quote characters.now }
    ensures bound { IfOk result (λ token. (0 < token.1) × (token.1 ≤ suc (length characters.now))) }
{
    let quotes = quotes_at(quote, characters);
    let more = more_quotes(quotes);
    let length = enclosed_length(Enclosed::Text(quotes), &characters.after(more))?;
    Ok((TokenKind::StringLiteral(quotes), 1 + more + length))
}
