//! The kind and the length of the token that begins a text.
ghost use Rattle.std.specs.Prelude.{◌≡◌, ◌+◌, ◌<◌, ◌≤◌, suc, IfOk, length};
ghost use Rattle.rdf_lexical.specs.Enclosed as Lexical;
ghost use Rattle.ntriples_text.specs.Tokens;

use rdf_lexical::{
    CharSlice, Class, Enclosed, Quotes, RefusalKind, begins_with, enclosed_length, is_line_end,
    name_length, tag_length,
};

/// The kinds of tokens: the productions for terminals (N-Triples section 7), and the characters of
/// the grammar.
#[derive(Clone, Copy, Debug, PartialEq, Eq)]
pub enum TokenKind {
    IriRef,
    /// STRING_LITERAL_QUOTE.
    StringLiteral,
    BlankNodeLabel,
    /// LANGTAG.
    LanguageTag,
    /// `^^`.
    Carets,
    Dot,
    /// LF or CR.
    LineEnd,
}

// The label by the characters after its `_:`.
fn label_after_colon(characters: &CharSlice<'_>) -> Result<(TokenKind, usize), RefusalKind>
    ensures value { result ≡ Tokens.label_after_colon characters.now }
    ensures bound { IfOk result (λ token. (0 < token.1) × (token.1 ≤ 2 + length characters.now)) }
{
    if characters.is_empty() {
        Err(RefusalKind::UnexpectedEnd)
    } else if begins_with(Class::NameUnderscoreColonOrDigit, characters) {
        Ok((
            TokenKind::BlankNodeLabel,
            2 + name_length(Class::NameOrColon, characters),
        ))
    } else {
        Err(RefusalKind::NoToken)
    }
}

// The label by the characters after its `_`.
fn label(characters: &CharSlice<'_>) -> Result<(TokenKind, usize), RefusalKind>
    ensures value { result ≡ Tokens.label characters.now }
    ensures bound { IfOk result (λ token. (0 < token.1) × (token.1 ≤ suc (length characters.now))) }
{
    match characters.split_first() {
        None => Err(RefusalKind::UnexpectedEnd),
        Some((':', rest)) => label_after_colon(&rest),
        Some(_) => Err(RefusalKind::NoToken),
    }
}

// The language tag by the characters after its `@`.
fn language_tag(characters: &CharSlice<'_>) -> Result<(TokenKind, usize), RefusalKind>
    ensures value { result ≡ Tokens.language_tag characters.now }
    ensures bound { IfOk result (λ token. (0 < token.1) × (token.1 ≤ suc (length characters.now))) }
{
    let length = tag_length(characters);
    if length > 0 {
        Ok((TokenKind::LanguageTag, 1 + length))
    } else if characters.is_empty() {
        Err(RefusalKind::UnexpectedEnd)
    } else {
        Err(RefusalKind::NoToken)
    }
}

// `^^` by the characters after its first.
fn carets(characters: &CharSlice<'_>) -> Result<(TokenKind, usize), RefusalKind>
    ensures value { result ≡ Tokens.carets characters.now }
    ensures bound { IfOk result (λ token. (0 < token.1) × (token.1 ≤ suc (length characters.now))) }
{
    match characters.split_first() {
        None => Err(RefusalKind::UnexpectedEnd),
        Some(('^', _)) => Ok((TokenKind::Carets, 2)),
        Some(_) => Err(RefusalKind::NoToken),
    }
}

// The token of one or two characters, by its first and what follows it.
fn mark(first: char, characters: &CharSlice<'_>) -> Result<(TokenKind, usize), RefusalKind>
    ensures value { result ≡ Tokens.mark first characters.now }
    ensures bound { IfOk result (λ token. (0 < token.1) × (token.1 ≤ suc (length characters.now))) }
{
    if first == '^' {
        carets(characters)
    } else if first == '.' {
        Ok((TokenKind::Dot, 1))
    } else if is_line_end(first) {
        Ok((TokenKind::LineEnd, 1))
    } else {
        Err(RefusalKind::NoToken)
    }
}

// The token that ends where what closes it comes, by the characters after its first.
fn enclosed(
    kind: TokenKind,
    enclosed: Enclosed,
    characters: &CharSlice<'_>,
) -> Result<(TokenKind, usize), RefusalKind>
    ensures value { result ≡ Tokens.of_kind kind (Lexical.enclosed_length enclosed 0 characters.now) }
    ensures bound { IfOk result (λ token. (0 < token.1) × (token.1 ≤ suc (length characters.now))) }
{
    let length = enclosed_length(enclosed, characters)?;
    Ok((kind, 1 + length))
}

/// The kind of the token that begins with the first of the characters, and how many it has; or the
/// kind of the refusal.
pub fn lexeme(characters: &CharSlice<'_>) -> Result<(TokenKind, usize), RefusalKind>
    ensures value { result ≡ Tokens.lexeme characters.now }
    ensures bound { IfOk result (λ token. (0 < token.1) × (token.1 ≤ length characters.now)) }
{
    match characters.split_first() {
        None => Err(RefusalKind::UnexpectedEnd),
        Some(('<', rest)) => enclosed(TokenKind::IriRef, Enclosed::Iri, &rest),
        Some(('"', rest)) => enclosed(
            TokenKind::StringLiteral,
            Enclosed::Text(Quotes::Double),
            &rest,
        ),
        Some(('_', rest)) => label(&rest),
        Some(('@', rest)) => language_tag(&rest),
        Some((first, rest)) => mark(first, &rest),
    }
}
