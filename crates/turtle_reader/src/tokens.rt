//! The token that comes next.
ghost use Rattle.std.specs.Prelude.{◌≡◌, ◌+◌, ◌<◌, ◌≤◌, ◌^◌, Ok, Some, IfOk, OnOk};
ghost use Rattle.turtle_reader.specs.Progress.{Gives, IsReady, IsTokenOf, Moved, need, weight};
ghost use Rattle.turtle_reader.specs.Tokens;

use crate::source::{Reading, Source};
use crate::state::State;
use rdf_lexical::{ReadFault, RefusalKind};
use turtle_lex::{Token, TokenKind, line_feeds, next_token};

fn is_string(kind: TokenKind) -> bool
    ensures { result ≡ Tokens.is_string kind }
{
    matches!(kind, TokenKind::StringLiteral(_))
}

/// The refusal of a token that the grammar doesn't allow here.
pub fn unexpected(token: Token) -> ReadFault
    ensures { result ≡ ReadFault.Refusal token.start.line RefusalKind.UnexpectedToken }
{
    ReadFault::Refusal {
        line: token.start.line,
        kind: RefusalKind::UnexpectedToken,
    }
}

// Goes past the token ahead.
#[tactic(auto, unfolding(crate::specs::Tokens::next))]
fn pass(text: &Source<'_>, state: &mut State, token: Token)
    requires ahead { state.old.ahead ≡ Ok (Some token) }
    requires token { IsTokenOf text.now token }
    requires ready { IsReady text.now state.old }
    ensures reads { Tokens.next text.now state.old ≡ Ok (token, state.new) }
    ensures moved { Moved text.now 1 (weight token.kind) 0 state.old state.new }
{
    state.ahead = next_token(text.characters(), token.end, is_string(token.kind));
}

/// The token that comes next, where there must be one; the reading goes past it.
#[tactic(auto, unfolding(crate::specs::Tokens::next))]
pub fn next(text: &Source<'_>, state: &mut State) -> Reading<Token>
    requires { IsReady text.now state.old }
    ensures reads { Gives result state.new (Tokens.next text.now state.old) }
    ensures token { IfOk result (IsTokenOf text.now) }
    ensures moved { OnOk result (Moved text.now 1 1 0 state.old state.new) }
    ensures weight { IfOk result (λ token. need text.now state.new + weight token.kind ≤ need text.now state.old) }
{
    match state.ahead {
        Ok(Some(token)) => {
            pass(text, state, token);
            Ok(token)
        }
        Ok(None) => Err(ReadFault::Refusal {
            line: 1 + line_feeds(text.characters()),
            kind: RefusalKind::UnexpectedEnd,
        }),
        Err(fault) => Err(ReadFault::Refusal {
            line: fault.line,
            kind: fault.kind,
        }),
    }
}

/// Whether a comma comes next.
#[tactic(auto, unfolding(crate::specs::Tokens::is_next))]
pub fn is_comma_next(state: &State) -> bool
    ensures { result ≡ Tokens.is_next Tokens.is_comma state.now }
{
    match state.ahead {
        Ok(Some(token)) => matches!(token.kind, TokenKind::Comma),
        _ => false,
    }
}

/// Whether a semicolon comes next.
#[tactic(auto, unfolding(crate::specs::Tokens::is_next))]
pub fn is_semicolon_next(state: &State) -> bool
    ensures { result ≡ Tokens.is_next Tokens.is_semicolon state.now }
{
    match state.ahead {
        Ok(Some(token)) => matches!(token.kind, TokenKind::Semicolon),
        _ => false,
    }
}

/// Whether the dot comes next.
#[tactic(auto, unfolding(crate::specs::Tokens::is_next))]
pub fn is_dot_next(state: &State) -> bool
    ensures { result ≡ Tokens.is_next Tokens.is_dot state.now }
{
    match state.ahead {
        Ok(Some(token)) => matches!(token.kind, TokenKind::Dot),
        _ => false,
    }
}

/// Whether `]` comes next.
#[tactic(auto, unfolding(crate::specs::Tokens::is_next))]
pub fn is_close_bracket_next(state: &State) -> bool
    ensures { result ≡ Tokens.is_next Tokens.is_close_bracket state.now }
{
    match state.ahead {
        Ok(Some(token)) => matches!(token.kind, TokenKind::CloseBracket),
        _ => false,
    }
}

/// Whether `)` comes next.
#[tactic(auto, unfolding(crate::specs::Tokens::is_next))]
pub fn is_close_parenthesis_next(state: &State) -> bool
    ensures { result ≡ Tokens.is_next Tokens.is_close_parenthesis state.now }
{
    match state.ahead {
        Ok(Some(token)) => matches!(token.kind, TokenKind::CloseParenthesis),
        _ => false,
    }
}

/// Whether a LANGTAG comes next.
#[tactic(auto, unfolding(crate::specs::Tokens::is_next))]
pub fn is_language_tag_next(state: &State) -> bool
    ensures { result ≡ Tokens.is_next Tokens.is_language_tag state.now }
{
    match state.ahead {
        Ok(Some(token)) => matches!(token.kind, TokenKind::LanguageTag),
        _ => false,
    }
}

/// Whether `^^` comes next.
#[tactic(auto, unfolding(crate::specs::Tokens::is_next))]
pub fn is_carets_next(state: &State) -> bool
    ensures { result ≡ Tokens.is_next Tokens.is_carets state.now }
{
    match state.ahead {
        Ok(Some(token)) => matches!(token.kind, TokenKind::Carets),
        _ => false,
    }
}

/// Whether a verb may begin here, or a blank node, which is then refused as a predicate.
#[tactic(auto, unfolding(crate::specs::Tokens::is_next))]
pub fn may_verb_begin(state: &State) -> bool
    ensures { result ≡ Tokens.is_next Tokens.may_begin_verb state.now }
{
    match state.ahead {
        Ok(Some(token)) => matches!(
            token.kind,
            TokenKind::A
                | TokenKind::IriRef
                | TokenKind::PrefixName
                | TokenKind::PrefixedName
                | TokenKind::BlankNodeLabel
                | TokenKind::OpenBracket
        ),
        _ => false,
    }
}

/// Whether anything but white space and comments is left of the text.
#[tactic(auto, unfolding(crate::specs::Tokens::is_unfinished))]
pub fn is_unfinished(state: &State) -> bool
    ensures { result ≡ Tokens.is_unfinished state.now }
{
    !matches!(state.ahead, Ok(None))
}

/// The dot, which must come next; the reading goes past it.
#[tactic(auto, unfolding(crate::specs::Tokens::expected))]
pub fn expect_dot(text: &Source<'_>, state: &mut State) -> Reading<Token>
    requires { IsReady text.now state.old }
    ensures reads { Gives result state.new (Tokens.expected text.now Tokens.is_dot state.old) }
    ensures token { IfOk result (IsTokenOf text.now) }
    ensures moved { OnOk result (Moved text.now 1 1 0 state.old state.new) }
{
    let token = next(text, state)?;
    match token.kind {
        TokenKind::Dot => Ok(token),
        _ => Err(unexpected(token)),
    }
}

/// `]`, which must come next; the reading goes past it.
#[tactic(auto, unfolding(crate::specs::Tokens::expected))]
pub fn expect_close_bracket(text: &Source<'_>, state: &mut State) -> Reading<Token>
    requires { IsReady text.now state.old }
    ensures reads { Gives result state.new (Tokens.expected text.now Tokens.is_close_bracket state.old) }
    ensures token { IfOk result (IsTokenOf text.now) }
    ensures moved { OnOk result (Moved text.now 1 1 0 state.old state.new) }
{
    let token = next(text, state)?;
    match token.kind {
        TokenKind::CloseBracket => Ok(token),
        _ => Err(unexpected(token)),
    }
}

/// `)`, which must come next; the reading goes past it.
#[tactic(auto, unfolding(crate::specs::Tokens::expected))]
pub fn expect_close_parenthesis(text: &Source<'_>, state: &mut State) -> Reading<Token>
    requires { IsReady text.now state.old }
    ensures reads { Gives result state.new (Tokens.expected text.now Tokens.is_close_parenthesis state.old) }
    ensures token { IfOk result (IsTokenOf text.now) }
    ensures moved { OnOk result (Moved text.now 1 1 0 state.old state.new) }
{
    let token = next(text, state)?;
    match token.kind {
        TokenKind::CloseParenthesis => Ok(token),
        _ => Err(unexpected(token)),
    }
}

/// PNAME_NS, which must come next; the reading goes past it.
#[tactic(auto, unfolding(crate::specs::Tokens::expected))]
pub fn expect_prefix_name(text: &Source<'_>, state: &mut State) -> Reading<Token>
    requires { IsReady text.now state.old }
    ensures reads { Gives result state.new (Tokens.expected text.now Tokens.is_prefix_name state.old) }
    ensures token { IfOk result (IsTokenOf text.now) }
    ensures moved { OnOk result (Moved text.now 1 1 0 state.old state.new) }
{
    let token = next(text, state)?;
    match token.kind {
        TokenKind::PrefixName => Ok(token),
        _ => Err(unexpected(token)),
    }
}
