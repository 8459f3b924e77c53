//! The next token at a place.
ghost use Rattle.std.specs.Prelude.{◌≡◌, ◌↔◌, ◌+◌, ◌<◌, ◌≤◌, ◌^◌, [], Ok, None, IfOk, IfSome, OnErr, length};
ghost use Rattle.std.specs.Result.{ForOk};
ghost use Rattle.turtle_lex.specs.Tokens;
ghost use Rattle.turtle_lex.specs.Tokens.{behind_blanks};
ghost use Rattle.turtle_lex.specs.Productions.{IsNextToken, HasNoToken};
ghost use Rattle.turtle_lex.specs.Places.{IsPlace, HasSpan};

use crate::blanks::blank_length;
use crate::enclosed::{iri_ref, string_literal};
use crate::names::{local_length, prefix_length};
use crate::numbers::number;
use crate::places::place_after;
use crate::token::{LexFault, TextPlace, Token, TokenKind};
use crate::words::{at_word, word};
use rdf_lexical::{CharSlice, Class, RefusalKind, begins_with, name_length};

// The label by the characters after its `_`.
fn label_after_colon(characters: &CharSlice<'_>) -> Result<(TokenKind, usize), RefusalKind>
    ensures value { result ≡ Tokens.label_after_colon characters.now }
    ensures bound { IfOk result (λ token. (0 < token.1) × (token.1 ≤ 2 + length characters.now)) }
{
    if characters.is_empty() {
        Err(RefusalKind::UnexpectedEnd)
    } else if begins_with(Class::NameUnderscoreOrDigit, characters) {
        Ok((
            TokenKind::BlankNodeLabel,
            2 + name_length(Class::Name, characters),
        ))
    } else {
        Err(RefusalKind::NoToken)
    }
}

fn label(characters: &CharSlice<'_>) -> Result<(TokenKind, usize), RefusalKind>
    ensures value { result ≡ Tokens.label characters.now }
    ensures bound { IfOk result (λ token. (0 < token.1) × (token.1 ≤ 1 + length characters.now)) }
{
    match characters.split_first() {
        None => Err(RefusalKind::UnexpectedEnd),
        Some((':', rest)) => label_after_colon(&rest),
        Some(_) => Err(RefusalKind::NoToken),
    }
}

fn carets(characters: &CharSlice<'_>) -> Result<(TokenKind, usize), RefusalKind>
    ensures value { result ≡ Tokens.carets characters.now }
    ensures bound { IfOk result (λ token. (0 < token.1) × (token.1 ≤ 1 + length characters.now)) }
{
    match characters.split_first() {
        None => Err(RefusalKind::UnexpectedEnd),
        Some(('^', _)) => Ok((TokenKind::Carets, 2)),
        Some(_) => Err(RefusalKind::NoToken),
    }
}

// The name by its prefix's length and the characters after its colon.
fn prefixed(prefix: usize, characters: &CharSlice<'_>) -> (TokenKind, usize)
    requires { prefix + length characters.now < 2 ^ 63 }
    ensures value { result ≡ Tokens.prefixed prefix characters.now }
    ensures bound { result.1 ≤ prefix + 1 + length characters.now }
{
    let local = local_length(characters);
    let kind = if local == 0 {
        TokenKind::PrefixName
    } else {
        TokenKind::PrefixedName
    };
    (kind, prefix + 1 + local)
}

// A prefixed name, or a word without a colon.
fn name_or_word(characters: &CharSlice<'_>) -> Result<(TokenKind, usize), RefusalKind>
    ensures value { result ≡ Tokens.name_or_word characters.now }
    ensures bound { IfOk result (λ token. (0 < token.1) × (token.1 ≤ length characters.now)) }
{
    let prefix = prefix_length(characters);
    match characters.after(prefix).split_first() {
        Some((':', rest)) => Ok(prefixed(prefix, &rest)),
        _ => word(characters),
    }
}

// Whether a number may go on behind the text's end, by the characters after its sign.
fn is_cut_number(characters: &CharSlice<'_>) -> bool
    ensures { result ≡ Tokens.is_cut_number characters.now }
{
    match characters.split_first() {
        None => true,
        Some((character, rest)) => character == '.' && rest.is_empty(),
    }
}

// What begins with a sign or a dot and is no number.
fn no_number(characters: &CharSlice<'_>) -> Result<(TokenKind, usize), RefusalKind>
    ensures value { result ≡ Tokens.no_number characters.now }
    ensures bound { IfOk result (λ token. (0 < token.1) × (token.1 ≤ length characters.now)) }
{
    match characters.split_first() {
        Some(('.', _)) => Ok((TokenKind::Dot, 1)),
        Some((_, rest)) => {
            if is_cut_number(&rest) {
                Err(RefusalKind::UnexpectedEnd)
            } else {
                Err(RefusalKind::NoToken)
            }
        }
        None => Err(RefusalKind::NoToken),
    }
}

fn number_or_dot(characters: &CharSlice<'_>) -> Result<(TokenKind, usize), RefusalKind>
    ensures value { result ≡ Tokens.number_or_dot characters.now }
    ensures bound { IfOk result (λ token. (0 < token.1) × (token.1 ≤ length characters.now)) }
{
    match number(characters) {
        Some(token) => Ok(token),
        None => no_number(characters),
    }
}

fn punctuation(character: char) -> Option<TokenKind>
    ensures { result ≡ Tokens.punctuation character }
{
    match character {
        ';' => Some(TokenKind::Semicolon),
        ',' => Some(TokenKind::Comma),
        '[' => Some(TokenKind::OpenBracket),
        ']' => Some(TokenKind::CloseBracket),
        '(' => Some(TokenKind::OpenParenthesis),
        ')' => Some(TokenKind::CloseParenthesis),
        _ => None,
    }
}

fn may_begin_number(character: char) -> bool
    ensures { result ≡ Tokens.may_begin_number character }
{
    character == '.' || Class::Sign.holds(character) || Class::Digit.holds(character)
}

fn may_begin_name(character: char) -> bool
    ensures { result ≡ Tokens.may_begin_name character }
{
    character == ':' || Class::NameStart.holds(character)
}

// A token of one character, a number, a name or a word.
fn plain_token(first: char, characters: &CharSlice<'_>) -> Result<(TokenKind, usize), RefusalKind>
    requires { 0 < length characters.now }
    ensures value { result ≡ Tokens.plain_token first characters.now }
    ensures bound { IfOk result (λ token. (0 < token.1) × (token.1 ≤ length characters.now)) }
{
    if let Some(kind) = punctuation(first) {
        return Ok((kind, 1));
    }
    if may_begin_number(first) {
        return number_or_dot(characters);
    }
    if may_begin_name(first) {
        return name_or_word(characters);
    }
    Err(RefusalKind::NoToken)
}

// The token that begins with the first character.
fn token_at(
    after_string: bool,
    characters: &CharSlice<'_>,
) -> Result<(TokenKind, usize), RefusalKind>
    requires { 0 < length characters.now }
    ensures value { result ≡ Tokens.token_at after_string characters.now }
    ensures bound { IfOk result (λ token. (0 < token.1) × (token.1 ≤ length characters.now)) }
{
    match characters.split_first() {
        Some((first, rest)) => match first {
            '<' => iri_ref(&rest),
            '"' | '\'' => string_literal(first, &rest),
            '@' => at_word(after_string, &rest),
            '_' => label(&rest),
            '^' => carets(&rest),
            _ => plain_token(first, characters),
        },
        None => Err(RefusalKind::UnexpectedEnd),
    }
}

// The token or the fault by what was found at its start.
fn placed(
    characters: &CharSlice<'_>,
    start: TextPlace,
    found: Result<(TokenKind, usize), RefusalKind>,
) -> Result<Token, LexFault>
    requires start { IsPlace characters.now start }
    requires bound { ForOk found (λ token. (0 < token.1) × (start.at + token.1 ≤ length characters.now)) }
    ensures value { result ≡ Tokens.placed characters.now start.at found }
    ensures span { IfOk result (HasSpan characters.now) }
{
    match found {
        Ok((kind, length)) => Ok(Token {
            kind,
            start,
            end: place_after(characters, start, length),
        }),
        Err(RefusalKind::UnexpectedEnd) => {
            let end = place_after(characters, start, characters.len() - start.at);
            Err(LexFault {
                line: end.line,
                kind: RefusalKind::UnexpectedEnd,
            })
        }
        Err(kind) => Err(LexFault {
            line: start.line,
            kind,
        }),
    }
}

// The next token, behind white space and comments.
fn find_token(
    characters: &CharSlice<'_>,
    place: TextPlace,
    after_string: bool,
) -> Result<Option<Token>, LexFault>
    requires { IsPlace characters.now place }
    ensures value { result ≡ Tokens.next_token characters.now place.at after_string }
    ensures span { IfOk result (λ found. IfSome found (HasSpan characters.now)) }
{
    let (_, rest) = characters.split_at_byte(place.at, place.byte);
    let blanks = blank_length(&rest);
    let rest = rest.after(blanks);
    if rest.is_empty() {
        return Ok(None);
    }
    let start = place_after(characters, place, blanks);
    Ok(Some(placed(characters, start, token_at(after_string, &rest))?))
}

/// The next token behind white space and comments at a place of a text (Turtle sections 6.2 to
/// 6.5), or None where nothing else is left. After a string an `@` begins a language tag, elsewhere
/// `@prefix` or `@base`.
///
/// The token is the longest that stands there, where a word goes as far as its characters do. A
/// fault has the line of the token's start, or of the text's end where that came within a token.
pub fn next_token(
    characters: &CharSlice<'_>,
    place: TextPlace,
    after_string: bool,
) -> Result<Option<Token>, LexFault>
    requires { IsPlace characters.now place }
    ensures value { result ≡ Tokens.next_token characters.now place.at after_string }
    ensures span { IfOk result (λ found. IfSome found (HasSpan characters.now)) }

    // By the productions alone: which token it is, when there is none, and that a fault misses none.
    ensures token { IfOk result (λ found. IfSome found (IsNextToken after_string characters.now)) }
    ensures none { result ≡ Ok None ↔ (behind_blanks characters.now place.at ≡ []) }
    ensures fault { OnErr result (HasNoToken after_string (behind_blanks characters.now place.at)) }
{
    find_token(characters, place, after_string)
}
