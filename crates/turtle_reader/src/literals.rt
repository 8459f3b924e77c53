//! Literals, by their tokens.
ghost use Rattle.std.specs.Prelude.{◌≡◌, ◌+◌, ◌<◌, ◌≤◌, ◌^◌, IfOk, OnOk, codes};
ghost use Rattle.turtle_reader.specs.declared.state.State.{State as StateData};
ghost use Rattle.turtle_reader.specs.Progress.{Gives, IsReady, IsTokenOf, Moved};
ghost use Rattle.turtle_reader.specs.Terms;

use crate::names::read_iri;
use crate::source::{Reading, Source};
use crate::state::State;
use crate::tokens::{is_carets_next, is_language_tag_next, next};
use literal_order::profile;
use rdf_lexical::{ReadFault, RefusalKind, lower_text};
use rdf_model::Term;
use rdf_text::Text;
use std::alloc::{AllocError, Global};
use turtle_lex::{Quotes, Token, plain_text, string_value};
use vocabulary::{RDF_LANG_STRING, XSD_STRING};

// A literal is complete; its first token stands in this line.
#[tactic(auto, unfolding(crate::specs::Terms::kept))]
fn kept(line: u64, term: Term) -> Reading<Term>
    ensures { (state : StateData) → Gives result state (Terms.kept line term state) }
{
    match profile(&term) {
        None => Ok(term),
        Some(number) => Err(ReadFault::Refusal {
            line,
            kind: RefusalKind::of_literal(number),
        }),
    }
}

/// A number or a boolean, of this datatype.
pub fn plain(text: &Source<'_>, datatype: &str, token: Token) -> Reading<Term>
    requires { IsTokenOf text.now token }
    ensures { (state : StateData) → Gives result state (Terms.plain text.now datatype.now token state) }
{
    let lexical = plain_text(text.alloc(), &text.token_text(token))?;
    let datatype = Text::new(text.alloc(), datatype)?;
    kept(
        token.start.line,
        Term::Literal {
            lexical,
            datatype,
            language: None,
        },
    )
}

// The tag of a LANGTAG, in lower case.
fn tag_of(text: &Source<'_>, token: Token) -> Result<Text, AllocError>
    requires { IsTokenOf text.now token }
    ensures { IfOk result (λ tag. tag ≡ Terms.tag_of text.now token) }
{
    lower_text(text.alloc(), &text.token_text(token).behind(1))
}

#[tactic(auto, unfolding(crate::specs::Terms::rdf))]
fn lang_string(alloc: Global) -> Result<Text, AllocError>
    ensures { IfOk result (λ iri. iri ≡ Terms.rdf (codes "langString")) }
{
    Text::new(alloc, RDF_LANG_STRING)
}

#[tactic(auto, unfolding(crate::specs::Terms::xsd))]
fn xsd_string(alloc: Global) -> Result<Text, AllocError>
    ensures { IfOk result (λ iri. iri ≡ Terms.xsd (codes "string")) }
{
    Text::new(alloc, XSD_STRING)
}

// The literal of a value whose language tag comes next.
#[tactic(auto, unfolding(crate::specs::Terms::tagged))]
fn read_tagged(text: &Source<'_>, state: &mut State, value: Text) -> Reading<Term>
    requires { IsReady text.now state.old }
    ensures reads { Gives result state.new (Terms.tagged text.now value state.old) }
    ensures moved { OnOk result (Moved text.now 0 0 0 state.old state.new) }
{
    let token = next(text, state)?;
    let tag = tag_of(text, token)?;
    let datatype = lang_string(text.alloc())?;
    Ok(Term::Literal {
        lexical: value,
        datatype,
        language: Some(tag),
    })
}

// The literal of a value behind which `^^` and its datatype come.
#[tactic(auto, unfolding(crate::specs::Terms::typed))]
fn read_typed(text: &Source<'_>, state: &mut State, line: u64, value: Text) -> Reading<Term>
    requires { IsReady text.now state.old }
    ensures reads { Gives result state.new (Terms.typed text.now line value state.old) }
    ensures moved { OnOk result (Moved text.now 0 0 0 state.old state.new) }
{
    next(text, state)?;
    let token = next(text, state)?;
    let datatype = read_iri(text, state, token)?;
    kept(
        line,
        Term::Literal {
            lexical: value,
            datatype,
            language: None,
        },
    )
}

// RDFLiteral, behind its String, which stands for this value and begins in this line.
fn read_rdf_literal(text: &Source<'_>, state: &mut State, line: u64, value: Text) -> Reading<Term>
    requires { IsReady text.now state.old }
    ensures reads { Gives result state.new (Terms.rdf_literal text.now line value state.old) }
    ensures moved { OnOk result (Moved text.now 0 0 0 state.old state.new) }
{
    if is_language_tag_next(state) {
        return read_tagged(text, state, value);
    }
    if is_carets_next(state) {
        return read_typed(text, state, line, value);
    }
    let datatype = xsd_string(text.alloc())?;
    Ok(Term::Literal {
        lexical: value,
        datatype,
        language: None,
    })
}

/// RDFLiteral (Turtle section 2.5.1), by its String.
pub fn read_string(
    text: &Source<'_>,
    state: &mut State,
    quotes: Quotes,
    token: Token,
) -> Reading<Term>
    requires token { IsTokenOf text.now token }
    requires ready { IsReady text.now state.old }
    ensures reads { Gives result state.new (Terms.string text.now quotes token state.old) }
    ensures moved { OnOk result (Moved text.now 0 0 0 state.old state.new) }
{
    let value = string_value(text.alloc(), quotes, &text.token_text(token))?;
    read_rdf_literal(text, state, token.start.line, value)
}
