//! The tokens of a line.
ghost use Rattle.std.specs.Prelude.{◌≡◌, ◌≤◌, length, IfOk};
ghost use Rattle.ntriples_text.specs.Faults.{Gives};
ghost use Rattle.ntriples_text.specs.Tokens;
ghost use Rattle.ntriples_text.specs.Progress.{TakesOne};

use crate::lexeme::{TokenKind, lexeme};
use crate::line_fault::LineFault;
use rdf_lexical::{CharSlice, Quotes, iri_text, is_line_end, lower_text, plain_text, string_value};
use rdf_text::Text;
use std::alloc::{AllocError, Global};

/// A token (N-Triples section 7). A label is without its `_:`, a language tag without its `@` and
/// in lower case.
#[derive(Debug, Drop)]
pub enum Token {
    IriRef(Text),
    Quoted(Text),
    Label(Text),
    LanguageTag(Text),
    Carets,
    Dot,
    LineEnd,
    TextEnd,
}

// The characters from the line's end on.
fn skip_comment<'a>(characters: &CharSlice<'a>) -> CharSlice<'a>
    ensures rest { result ≡ Tokens.from_line_end characters.now }
    ensures shorter { length result ≤ length characters.now }
{
    let mut rest = characters.whole();
    while let Some((character, after)) = rest.split_first() {
        if is_line_end(character) {
            return rest;
        }
        rest = after;
    }
    rest
}

// The characters after blanks and a comment.
fn skip_blanks<'a>(characters: &CharSlice<'a>) -> CharSlice<'a>
    ensures rest { result ≡ Tokens.skipped characters.now }
    ensures shorter { length result ≤ length characters.now }
{
    let mut rest = characters.whole();
    while let Some((character, after)) = rest.split_first() {
        match character {
            ' ' | '\t' => rest = after,
            '#' => return skip_comment(&after),
            _ => return rest,
        }
    }
    rest
}

// The token that characters of this kind stand for.
fn make_token(
    alloc: Global,
    kind: TokenKind,
    characters: &CharSlice<'_>,
) -> Result<Token, AllocError>
    ensures { IfOk result (λ token. token ≡ Tokens.token_of kind characters.now) }
{
    match kind {
        TokenKind::IriRef => Ok(Token::IriRef(iri_text(alloc, characters)?)),
        TokenKind::StringLiteral => {
            Ok(Token::Quoted(string_value(alloc, Quotes::Double, characters)?))
        }
        TokenKind::BlankNodeLabel => Ok(Token::Label(plain_text(alloc, &characters.behind(2))?)),
        TokenKind::LanguageTag => Ok(Token::LanguageTag(lower_text(alloc, &characters.behind(1))?)),
        TokenKind::Carets => Ok(Token::Carets),
        TokenKind::Dot => Ok(Token::Dot),
        TokenKind::LineEnd => Ok(Token::LineEnd),
    }
}

// The token that begins with the first of the characters.
fn token_at<'a>(
    alloc: Global,
    characters: &CharSlice<'a>,
) -> Result<(Token, CharSlice<'a>), LineFault>
    ensures token { Gives (λ r. (r.0, r.1)) result (Tokens.token_at characters.now) }
    ensures shorter { IfOk result (λ r. TakesOne r.0 (length r.1) (length characters.now)) }
{
    if characters.is_empty() {
        return Ok((Token::TextEnd, characters.whole()));
    }
    match lexeme(characters) {
        Ok((kind, length)) => {
            let (text, rest) = characters.split_at(length);
            Ok((make_token(alloc, kind, &text)?, rest))
        }
        Err(fault) => Err(LineFault::Refused(fault)),
    }
}

/// The next token, and the characters after it.
#[tactic(auto, unfolding(crate::specs::Tokens::token))]
pub fn next_token<'a>(
    alloc: Global,
    characters: &CharSlice<'a>,
) -> Result<(Token, CharSlice<'a>), LineFault>
    ensures token { Gives (λ r. (r.0, r.1)) result (Tokens.token characters.now) }
    ensures shorter { IfOk result (λ r. TakesOne r.0 (length r.1) (length characters.now)) }
{
    token_at(alloc, &skip_blanks(characters))
}
