//! Objects, collections and property lists, by a stack of brackets.
ghost use Rattle.std.specs.Prelude.{◌≡◌, ℕ, suc, ◌+◌, ◌<◌, ◌≤◌, ◌^◌, [], ◌∷◌, length, Ok, Some, None, IfOk, OnOk};
ghost use Rattle.rdf_model.specs.declared.term.Term.{Term as TermData};
ghost use Rattle.turtle_reader.specs.declared.frame.Frame.TheVariants as frames;
ghost use Rattle.turtle_reader.specs.Grammar;
ghost use Rattle.turtle_reader.specs.Parsers.{left};
ghost use Rattle.turtle_reader.specs.Stack as stack;
ghost use Rattle.turtle_reader.specs.Progress.{CanRead, CanReadFrom, Gives, Goes, IsReady, Moved, need, spare, weight};

use crate::frame::Frame;
use crate::open::Open;
use crate::source::{Reading, Source};
use crate::stack::Stack;
use crate::state::State;
use crate::terms::{found, fresh, rdf_first, rdf_nil, rdf_rest, read_term, read_verb};
use crate::tokens::{
    expect_close_bracket, expect_close_parenthesis, is_close_bracket_next,
    is_close_parenthesis_next, is_comma_next, is_semicolon_next, may_verb_begin, next,
};
use rdf_lexical::{ReadFault, RefusalKind};
use rdf_model::Term;
use std::alloc::AllocError;
use turtle_lex::{Token, TokenKind};

// The refusal of a bracket that is one too many.
fn too_deep(token: Token) -> ReadFault
    ensures { result ≡ ReadFault.Refusal token.start.line RefusalKind.TooDeep }
{
    ReadFault::Refusal {
        line: token.start.line,
        kind: RefusalKind::TooDeep,
    }
}

// What `;` may be followed by: the next verb, or None where the list ends.
fn next_verb(text: &Source<'_>, state: &mut State) -> Reading<Option<Term>>
    requires { IsReady text.now state.old }
    ensures goes { (levels : ℕ) (node : TermData) → Goes result (Grammar.more_verbs text.now (Grammar.object text.now levels) node state.old)
        (λ verb. stack.properties_from text.now (Grammar.object text.now levels) node verb state.new) }
    ensures moved { IfOk result (λ verb. Moved text.now 0 0 0 state.old state.new) }
{
    while is_semicolon_next(state) {
        next(text, state)?;
        if may_verb_begin(state) {
            return Ok(Some(read_verb(text, state)?));
        }
    }
    Ok(None)
}

/// The predicate of the next object of a list, or None where the list ends.
pub fn next_predicate(
    text: &Source<'_>,
    state: &mut State,
    predicate: Term,
) -> Reading<Option<Term>>
    requires { IsReady text.now state.old }
    ensures goes { (levels : ℕ) (node : TermData) → Goes result (stack.more_properties text.now (Grammar.object text.now levels) node predicate state.old)
        (λ verb. stack.properties_from text.now (Grammar.object text.now levels) node verb state.new) }
    ensures moved { IfOk result (λ verb. Moved text.now 0 0 0 state.old state.new) }
{
    if is_comma_next(state) {
        next(text, state)?;
        return Ok(Some(predicate));
    }
    next_verb(text, state)
}

// An open `[`, with an object that was read in it; its node where it is closed.
fn after_value(
    text: &Source<'_>,
    state: &mut State,
    brackets: &mut Open,
    node: Term,
    predicate: Term,
    term: Term,
) -> Reading<Option<Term>>
    requires ready { IsReady text.now state.old }
    requires levels { 0 < brackets.old.levels }
    ensures goes { (levels : ℕ) → brackets.old.levels ≡ suc levels →
        Goes result (stack.all_closed text.now levels ((frames.Properties node predicate) ∷ brackets.old.frames) term state.old)
        (λ read. stack.remaining text.now brackets.new.levels brackets.new.frames read state.new) }
    ensures moved { IfOk result (λ read. Moved text.now (spare read) (spare read) 0 state.old state.new) }
    ensures brackets { OnOk result (brackets.new.levels + length brackets.new.frames ≡ brackets.old.levels + length brackets.old.frames) }
{
    found(state, &node, &predicate, term)?;
    match next_predicate(text, state, predicate)? {
        Some(predicate) => {
            brackets.push(Frame::Properties { node, predicate })?;
            Ok(None)
        }
        None => {
            expect_close_bracket(text, state)?;
            Ok(Some(node))
        }
    }
}

// The `)` of a list, whose last node this is.
fn close_list(text: &Source<'_>, state: &mut State, last: Term) -> Reading<()>
    requires { IsReady text.now state.old }
    ensures reads { Gives result state.new (stack.list_closed text.now last state.old) }
    ensures moved { OnOk result (Moved text.now 1 1 0 state.old state.new) }
{
    expect_close_parenthesis(text, state)?;
    let alloc = text.alloc();
    found(state, &last, &rdf_rest(alloc)?, rdf_nil(alloc)?)?;
    Ok(())
}

// One more list node, after this one.
fn next_node(text: &Source<'_>, state: &mut State, last: Term) -> Result<Term, AllocError>
    requires { CanRead text.now 1 state.old }
    ensures reads { IfOk result (λ node. stack.node_after last state.old ≡ Ok (node, state.new)) }
    ensures moved { OnOk result (Moved text.now 0 0 1 state.old state.new) }
{
    let node = fresh(state);
    found(state, &last, &rdf_rest(text.alloc())?, node.clone()?)?;
    Ok(node)
}

// An open `(`, with a member that was read in it; its first node where it is closed.
fn after_member(
    text: &Source<'_>,
    state: &mut State,
    brackets: &mut Open,
    first: Term,
    last: Term,
    term: Term,
) -> Reading<Option<Term>>
    requires ready { CanRead text.now 1 state.old }
    requires levels { 0 < brackets.old.levels }
    ensures goes { (levels : ℕ) → brackets.old.levels ≡ suc levels →
        Goes result (stack.all_closed text.now levels ((frames.Members first last) ∷ brackets.old.frames) term state.old)
        (λ read. stack.remaining text.now brackets.new.levels brackets.new.frames read state.new) }
    ensures moved { IfOk result (λ read. Moved text.now (spare read) (spare read) 1 state.old state.new) }
    ensures brackets { OnOk result (brackets.new.levels + length brackets.new.frames ≡ brackets.old.levels + length brackets.old.frames) }
{
    found(state, &last, &rdf_first(text.alloc())?, term)?;
    if is_close_parenthesis_next(state) {
        close_list(text, state, last)?;
        return Ok(Some(first));
    }
    let node = next_node(text, state, last)?;
    brackets.push(Frame::Members { first, last: node })?;
    Ok(None)
}

// An object was read: the node of a bracket that is closed with it, or None where another object
// comes next.
fn after_object(
    text: &Source<'_>,
    state: &mut State,
    brackets: &mut Open,
    frame: Frame,
    term: Term,
) -> Reading<Option<Term>>
    requires ready { CanRead text.now 1 state.old }
    requires levels { 0 < brackets.old.levels }
    ensures goes { (levels : ℕ) → brackets.old.levels ≡ suc levels →
        Goes result (stack.all_closed text.now levels (frame ∷ brackets.old.frames) term state.old)
        (λ read. stack.remaining text.now brackets.new.levels brackets.new.frames read state.new) }
    ensures moved { IfOk result (λ read. Moved text.now (spare read) (spare read) 1 state.old state.new) }
    ensures brackets { OnOk result (brackets.new.levels + length brackets.new.frames ≡ brackets.old.levels + length brackets.old.frames) }
{
    match frame {
        Frame::Properties { node, predicate } => {
            after_value(text, state, brackets, node, predicate, term)
        }
        Frame::Members { first, last } => { after_member(text, state, brackets, first, last, term) }
    }
}

// What `[` begins: its node where it is closed at once, or None where an object of its first
// predicate comes next.
fn open_square(text: &Source<'_>, state: &mut State, brackets: &mut Open) -> Reading<Option<Term>>
    requires ready { CanRead text.now 1 state.old }
    requires levels { 0 < brackets.old.levels }
    ensures goes { (levels : ℕ) → brackets.old.levels ≡ suc levels →
        Goes result ((stack.square_first text.now levels brackets.old.frames) state.old)
        (λ read. stack.remaining text.now brackets.new.levels brackets.new.frames read state.new) }
    ensures moved { IfOk result (λ read. Moved text.now 0 1 1 state.old state.new) }
    ensures brackets { OnOk result (brackets.new.levels + length brackets.new.frames ≡ brackets.old.levels + length brackets.old.frames) }
{
    let node = fresh(state);
    if is_close_bracket_next(state) {
        next(text, state)?;
        return Ok(Some(node));
    }
    let predicate = read_verb(text, state)?;
    brackets.push(Frame::Properties { node, predicate })?;
    Ok(None)
}

// What `(` begins: rdf:nil where it is closed at once, or None where its first member comes next.
fn open_round(text: &Source<'_>, state: &mut State, brackets: &mut Open) -> Reading<Option<Term>>
    requires ready { CanRead text.now 1 state.old }
    requires levels { 0 < brackets.old.levels }
    ensures goes { (levels : ℕ) → brackets.old.levels ≡ suc levels →
        Goes result ((stack.round_first text.now levels brackets.old.frames) state.old)
        (λ read. stack.remaining text.now brackets.new.levels brackets.new.frames read state.new) }
    ensures moved { IfOk result (λ read. Moved text.now 0 (spare read) 1 state.old state.new) }
    ensures brackets { OnOk result (brackets.new.levels + length brackets.new.frames ≡ brackets.old.levels + length brackets.old.frames) }
{
    if is_close_parenthesis_next(state) {
        next(text, state)?;
        return Ok(Some(rdf_nil(text.alloc())?));
    }
    let node = fresh(state);
    let last = node.clone()?;
    brackets.push(Frame::Members { first: node, last })?;
    Ok(None)
}

// Opens the bracket of a token, which may be one too many.
fn open_bracket(
    text: &Source<'_>,
    state: &mut State,
    brackets: &mut Open,
    token: Token,
) -> Reading<Option<Term>>
    requires { CanRead text.now 1 state.old }
    ensures goes { Goes result (stack.bracket_open text.now brackets.old.levels token.kind token brackets.old.frames state.old)
        (λ read. stack.remaining text.now brackets.new.levels brackets.new.frames read state.new) }
    ensures moved { IfOk result (λ read. Moved text.now 0 (spare read) 1 state.old state.new) }
    ensures brackets { OnOk result (brackets.new.levels + length brackets.new.frames ≡ brackets.old.levels + length brackets.old.frames) }
{
    if brackets.levels == 0 {
        return Err(too_deep(token));
    }
    match token.kind {
        TokenKind::OpenBracket => open_square(text, state, brackets),
        _ => open_round(text, state, brackets),
    }
}

// The object that begins with a token: its term, or None where a bracket was opened.
fn after_token(
    text: &Source<'_>,
    state: &mut State,
    brackets: &mut Open,
    token: Token,
) -> Reading<Option<Term>>
    requires { CanReadFrom text.now token state.old }
    ensures goes { Goes result (stack.token_object text.now brackets.old.levels brackets.old.frames token.kind token state.old)
        (λ read. stack.remaining text.now brackets.new.levels brackets.new.frames read state.new) }
    ensures moved { IfOk result (λ read. Moved text.now 0 (spare read) (weight token.kind) state.old state.new) }
    ensures brackets { OnOk result (brackets.new.levels + length brackets.new.frames ≡ brackets.old.levels + length brackets.old.frames) }
{
    match token.kind {
        TokenKind::OpenBracket | TokenKind::OpenParenthesis => {
            open_bracket(text, state, brackets, token)
        }
        _ => Ok(Some(read_term(text, state, token)?)),
    }
}

// The next object: its term, or None where a bracket was opened.
fn next_object(text: &Source<'_>, state: &mut State, brackets: &mut Open) -> Reading<Option<Term>>
    requires { CanRead text.now 0 state.old }
    ensures goes { Goes result (stack.remaining text.now brackets.old.levels brackets.old.frames None state.old)
        (λ read. stack.remaining text.now brackets.new.levels brackets.new.frames read state.new) }
    ensures moved { IfOk result (λ read. Moved text.now 1 (spare read) 0 state.old state.new) }
    ensures brackets { OnOk result (brackets.new.levels + length brackets.new.frames ≡ brackets.old.levels + length brackets.old.frames) }
{
    let token = next(text, state)?;
    after_token(text, state, brackets, token)
}

// What is left to be read within open brackets.
fn read_within(
    text: &Source<'_>,
    state: &mut State,
    within: Open,
    first: Option<Term>,
) -> Reading<Term>
    requires ready { CanRead text.now (spare first) state.old }
    requires levels { within.levels + length within.frames < 2 ^ 32 }
    ensures reads { Gives result state.new (stack.remaining text.now within.levels within.frames first state.old) }
    ensures ready { OnOk result (IsReady text.now state.new) }
    ensures left { OnOk result (left text.now state.new + 1 ≤ left text.now state.old + spare first) }
    ensures need { OnOk result (need text.now state.new + 1 ≤ need text.now state.old + spare first) }
{
    let mut brackets = within;
    let mut read = first;
    loop {
        match read {
            None => read = next_object(text, state, &mut brackets)?,
            Some(term) => match brackets.pop() {
                None => return Ok(term),
                Some(frame) => {
                    read = after_object(text, state, &mut brackets, frame, term)?;
                }
            },
        }
    }
}

/// An object (Turtle section 6.5), within which so many brackets may be open at once.
pub fn read_object(text: &Source<'_>, state: &mut State, levels: usize) -> Reading<Term>
    requires ready { CanRead text.now 0 state.old }
    requires levels { levels < 2 ^ 32 }
    ensures reads { Gives result state.new (Grammar.object text.now levels state.old) }
    ensures moved { OnOk result (Moved text.now 1 1 0 state.old state.new) }
{
    let brackets = Open {
        levels,
        frames: Stack::new(text.alloc()),
    };
    read_within(text, state, brackets, None)
}

/// A collection, after its bracket (Turtle section 6.5).
pub fn read_collection(text: &Source<'_>, state: &mut State, levels: usize) -> Reading<Term>
    requires ready { CanRead text.now 1 state.old }
    requires levels { levels + 1 < 2 ^ 32 }
    ensures reads { Gives result state.new (Grammar.collection text.now (Grammar.object text.now levels) state.old) }
    ensures moved { OnOk result (Moved text.now 0 0 1 state.old state.new) }
{
    let mut brackets = Open {
        levels: levels + 1,
        frames: Stack::new(text.alloc()),
    };
    let read = open_round(text, state, &mut brackets)?;
    read_within(text, state, brackets, read)
}
