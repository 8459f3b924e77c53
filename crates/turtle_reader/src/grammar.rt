//! The statements of a text.
ghost use Rattle.std.specs.Prelude.{◌≡◌, suc, ◌+◌, ◌<◌, ◌≤◌, ◌^◌, [], Ok, Some, None, IfOk, OnOk};
ghost use Rattle.turtle_reader.specs.Grammar;
ghost use Rattle.turtle_reader.specs.Parsers.{left};
ghost use Rattle.turtle_reader.specs.Stack as stack;
ghost use Rattle.turtle_reader.specs.Progress.{CanRead, CanReadFrom, Gives, Goes, Moved, weight};

use crate::objects::{next_predicate, read_collection, read_object};
use crate::source::{Reading, Source};
use crate::state::State;
use crate::terms::{base_declared, found, fresh, prefix_declared, read_term, read_verb};
use crate::tokens::{
    expect_close_bracket, expect_dot, is_close_bracket_next, is_dot_next, is_unfinished, next,
    unexpected,
};
use rdf_model::Term;
use turtle_lex::{Token, TokenKind};

// The triple of one object, and the predicate of the next one, or None where the list ends.
fn next_triple(
    text: &Source<'_>,
    state: &mut State,
    node: &Term,
    predicate: Term,
    levels: usize,
) -> Reading<Option<Term>>
    requires ready { CanRead text.now 0 state.old }
    requires levels { levels < 2 ^ 32 }
    ensures goes { Goes result (stack.properties_from text.now (Grammar.object text.now levels) node.now (Some predicate) state.old)
        (λ verb. stack.properties_from text.now (Grammar.object text.now levels) node.now verb state.new) }
    ensures moved { IfOk result (λ verb. Moved text.now 1 1 0 state.old state.new) }
{
    let object = read_object(text, state, levels)?;
    found(state, node, &predicate, object)?;
    next_predicate(text, state, predicate)
}

// predicateObjectList: the triples of a node.
fn read_predicates(text: &Source<'_>, state: &mut State, node: &Term, levels: usize) -> Reading<()>
    requires ready { CanRead text.now 0 state.old }
    requires levels { levels < 2 ^ 32 }
    ensures reads { Gives result state.new (Grammar.predicate_object_list text.now (Grammar.object text.now levels) node.now state.old) }
    ensures moved { OnOk result (Moved text.now 1 1 0 state.old state.new) }
{
    let mut predicate = Some(read_verb(text, state)?);
    while let Some(verb) = predicate {
        predicate = next_triple(text, state, node, verb, levels)?;
    }
    Ok(())
}

// subject, by its first token.
fn read_subject(text: &Source<'_>, state: &mut State, token: Token, levels: usize) -> Reading<Term>
    requires ready { CanReadFrom text.now token state.old }
    requires levels { levels + 1 < 2 ^ 32 }
    ensures reads { Gives result state.new (Grammar.subject_of token.kind text.now (Grammar.collection text.now (Grammar.object text.now levels)) token state.old) }
    ensures moved { OnOk result (Moved text.now 0 0 (weight token.kind) state.old state.new) }
{
    match token.kind {
        TokenKind::IriRef
        | TokenKind::PrefixName
        | TokenKind::PrefixedName
        | TokenKind::BlankNodeLabel => read_term(text, state, token),
        TokenKind::OpenParenthesis => read_collection(text, state, levels),
        _ => Err(unexpected(token)),
    }
}

// triples with a subject, by its first token.
fn read_triples(text: &Source<'_>, state: &mut State, token: Token, levels: usize) -> Reading<()>
    requires ready { CanReadFrom text.now token state.old }
    requires levels { levels + 1 < 2 ^ 32 }
    ensures reads { Gives result state.new (Grammar.subject_triples text.now levels token state.old) }
    ensures moved { OnOk result (Moved text.now 0 0 (weight token.kind) state.old state.new) }
{
    let node = read_subject(text, state, token, levels)?;
    read_predicates(text, state, &node, levels + 1)
}

// blankNodePropertyList, after its bracket, of this node.
fn read_property_list(
    text: &Source<'_>,
    state: &mut State,
    node: &Term,
    levels: usize,
) -> Reading<()>
    requires ready { CanRead text.now 0 state.old }
    requires levels { levels < 2 ^ 32 }
    ensures reads { Gives result state.new (stack.properties_closed text.now (Grammar.object text.now levels) node.now state.old) }
    ensures moved { OnOk result (Moved text.now 1 1 0 state.old state.new) }
{
    read_predicates(text, state, node, levels)?;
    expect_close_bracket(text, state)?;
    Ok(())
}

// What may follow a blankNodePropertyList that is a subject.
fn read_more(text: &Source<'_>, state: &mut State, node: &Term, levels: usize) -> Reading<()>
    requires ready { CanRead text.now 0 state.old }
    requires levels { levels < 2 ^ 32 }
    ensures reads { Gives result state.new (Grammar.optional_predicates text.now (Grammar.object text.now levels) node.now state.old) }
    ensures moved { OnOk result (Moved text.now 0 0 0 state.old state.new) }
{
    if is_dot_next(state) {
        return Ok(());
    }
    read_predicates(text, state, node, levels)
}

// triples that begin with a bracket.
fn read_bracket_triples(text: &Source<'_>, state: &mut State, levels: usize) -> Reading<()>
    requires ready { CanRead text.now 1 state.old }
    requires levels { levels + 1 < 2 ^ 32 }
    ensures reads { Gives result state.new (Grammar.bracket_triples text.now levels state.old) }
    ensures moved { OnOk result (Moved text.now 0 0 1 state.old state.new) }
{
    let node = fresh(state);
    if is_close_bracket_next(state) {
        next(text, state)?;
        return read_predicates(text, state, &node, levels + 1);
    }
    read_property_list(text, state, &node, levels)?;
    read_more(text, state, &node, levels + 1)
}

// What begins with a token and ends with a dot: triples, `@prefix` or `@base`.
fn read_dotted(text: &Source<'_>, state: &mut State, token: Token, levels: usize) -> Reading<()>
    requires ready { CanReadFrom text.now token state.old }
    requires levels { levels + 1 < 2 ^ 32 }
    ensures reads { Gives result state.new (Grammar.dotted_of token.kind text.now levels token state.old) }
    ensures moved { OnOk result (Moved text.now 0 0 (weight token.kind) state.old state.new) }
{
    match token.kind {
        TokenKind::AtPrefix => prefix_declared(text, state),
        TokenKind::AtBase => base_declared(text, state),
        TokenKind::OpenBracket => read_bracket_triples(text, state, levels),
        _ => read_triples(text, state, token, levels),
    }
}

fn read_to_dot(text: &Source<'_>, state: &mut State, token: Token, levels: usize) -> Reading<()>
    requires ready { CanReadFrom text.now token state.old }
    requires levels { levels + 1 < 2 ^ 32 }
    ensures reads { Gives result state.new (Grammar.to_dot token.kind text.now levels token state.old) }
    ensures moved { OnOk result (Moved text.now 0 0 (weight token.kind) state.old state.new) }
{
    read_dotted(text, state, token, levels)?;
    expect_dot(text, state)?;
    Ok(())
}

// A statement.
#[tactic(auto, unfolding(crate::specs::Grammar::statement))]
fn read_statement(text: &Source<'_>, state: &mut State, levels: usize) -> Reading<()>
    requires ready { CanRead text.now 0 state.old }
    requires levels { levels + 1 < 2 ^ 32 }
    ensures reads { Gives result state.new (Grammar.statement text.now levels state.old) }
    ensures moved { OnOk result (Moved text.now 1 0 0 state.old state.new) }
{
    let token = next(text, state)?;
    match token.kind {
        TokenKind::Prefix => prefix_declared(text, state),
        TokenKind::Base => base_declared(text, state),
        _ => read_to_dot(text, state, token, levels),
    }
}

/// turtleDoc: the statements of a text (Turtle section 6.5).
pub fn read_statements(text: &Source<'_>, state: &mut State, levels: usize) -> Reading<()>
    requires ready { CanRead text.now 0 state.old }
    requires levels { levels + 1 < 2 ^ 32 }
    ensures reads { Gives result state.new (Grammar.turtle_doc text.now levels state.old) }
    ensures moved { OnOk result (Moved text.now 0 0 0 state.old state.new) }
{
    while is_unfinished(state) {
        read_statement(text, state, levels)?;
    }
    Ok(())
}
