//! Terms, by their first token.
ghost use Rattle.std.specs.Prelude.{◌≡◌, ℕ, ◌+◌, ◌<◌, ◌≤◌, ◌^◌, true, List, Ok, Some, IfOk, OnOk};
ghost use Rattle.iri_ref.specs.Scheme;
ghost use Rattle.turtle_reader.specs.Grammar;
ghost use Rattle.turtle_reader.specs.Progress.{CanReadFrom, Gives, IsReady, IsTokenOf, Moved, weight};
ghost use Rattle.turtle_reader.specs.Terms;

use crate::literals::{plain, read_string};
use crate::names::{labelled, prefix_of, read_iri, refused, resolved_iri};
use crate::source::{Reading, Source};
use crate::state::State;
use crate::table::Name;
use crate::tokens::{expect_prefix_name, next, unexpected};
use rdf_lexical::RefusalKind;
use rdf_model::Term;
use rdf_text::Text;
use std::alloc::{AllocError, Global};
use turtle_lex::{Token, TokenKind};
use vocabulary::{
    RDF_FIRST, RDF_NIL, RDF_REST, RDF_TYPE, XSD_BOOLEAN, XSD_DECIMAL, XSD_DOUBLE, XSD_INTEGER,
};

/// A new blank node.
#[tactic(auto, unfolding(crate::specs::Terms::fresh))]
pub fn fresh(state: &mut State) -> Term
    requires { state.old.next + 1 < 2 ^ 32 }
    ensures reads { Terms.fresh state.old ≡ Ok (result, state.new) }
    ensures moved { (text : List ℕ) → IsReady text state.old → Moved text 0 0 1 state.old state.new }
{
    let number = state.next;
    state.next += 1;
    Term::Blank {
        session: state.session,
        number,
    }
}

/// Adds a triple.
#[tactic(auto, unfolding(crate::specs::Grammar::found))]
pub fn found(
    state: &mut State,
    subject: &Term,
    predicate: &Term,
    object: Term,
) -> Result<(), AllocError>
    ensures reads { OnOk result (Grammar.found subject.now predicate.now object state.old ≡ Ok (tt, state.new)) }
    ensures moved { OnOk result ((text : List ℕ) → IsReady text state.old → Moved text 0 0 0 state.old state.new) }
{
    state.triples.push_terms(subject, predicate, object)?;
    Ok(())
}

// The IRI of a token as a term.
fn iri_term(text: &Source<'_>, state: &State, token: Token) -> Reading<Term>
    requires token { IsTokenOf text.now token }
    requires ready { IsReady text.now state.now }
    ensures { Gives result state.now (Grammar.iri_term text.now token state.now) }
{
    Ok(Term::Iri(read_iri(text, state, token)?))
}

/// An IRI, the blank node of a label, or a literal, by its first token; another token is refused.
#[tactic(auto, unfolding(crate::specs::Terms::xsd))]
pub fn read_term(text: &Source<'_>, state: &mut State, token: Token) -> Reading<Term>
    requires { CanReadFrom text.now token state.old }
    ensures reads { Gives result state.new (Grammar.term_of token.kind text.now token state.old) }
    ensures moved { OnOk result (Moved text.now 0 1 (weight token.kind) state.old state.new) }
{
    match token.kind {
        TokenKind::IriRef | TokenKind::PrefixName | TokenKind::PrefixedName => {
            iri_term(text, state, token)
        }
        TokenKind::BlankNodeLabel => labelled(text, state, token),
        TokenKind::StringLiteral(quotes) => read_string(text, state, quotes, token),
        TokenKind::Integer => plain(text, XSD_INTEGER, token),
        TokenKind::Decimal => plain(text, XSD_DECIMAL, token),
        TokenKind::Double => plain(text, XSD_DOUBLE, token),
        TokenKind::True | TokenKind::False => plain(text, XSD_BOOLEAN, token),
        _ => Err(unexpected(token)),
    }
}

#[tactic(auto, unfolding(crate::specs::Grammar::rdf_type, crate::specs::Terms::rdf))]
fn rdf_type(alloc: Global) -> Result<Term, AllocError>
    ensures { IfOk result (λ term. term ≡ Grammar.rdf_type) }
{
    let iri = Text::new(alloc, RDF_TYPE)?;
    Ok(Term::Iri(iri))
}

// A verb, by its token.
fn verb_of(text: &Source<'_>, state: &State, token: Token) -> Reading<Term>
    requires token { IsTokenOf text.now token }
    requires ready { IsReady text.now state.now }
    ensures { Gives result state.now (Grammar.verb_of token.kind text.now token state.now) }
{
    match token.kind {
        TokenKind::A => Ok(rdf_type(text.alloc())?),
        TokenKind::IriRef | TokenKind::PrefixName | TokenKind::PrefixedName => {
            iri_term(text, state, token)
        }
        TokenKind::BlankNodeLabel | TokenKind::OpenBracket => {
            Err(refused(token, RefusalKind::BlankPredicate))
        }
        _ => Err(unexpected(token)),
    }
}

/// A verb, which must come next: an IRI, or `a` for rdf:type (Turtle section 2.1).
#[tactic(auto, unfolding(crate::specs::Grammar::verb))]
pub fn read_verb(text: &Source<'_>, state: &mut State) -> Reading<Term>
    requires { IsReady text.now state.old }
    ensures reads { Gives result state.new (Grammar.verb text.now state.old) }
    ensures moved { OnOk result (Moved text.now 1 1 0 state.old state.new) }
{
    let token = next(text, state)?;
    verb_of(text, state, token)
}

/// The IRI rdf:first.
#[tactic(auto, unfolding(crate::specs::Grammar::rdf_first, crate::specs::Terms::rdf))]
pub fn rdf_first(alloc: Global) -> Result<Term, AllocError>
    ensures { IfOk result (λ term. term ≡ Grammar.rdf_first) }
{
    let iri = Text::new(alloc, RDF_FIRST)?;
    Ok(Term::Iri(iri))
}

/// The IRI rdf:rest.
#[tactic(auto, unfolding(crate::specs::Grammar::rdf_rest, crate::specs::Terms::rdf))]
pub fn rdf_rest(alloc: Global) -> Result<Term, AllocError>
    ensures { IfOk result (λ term. term ≡ Grammar.rdf_rest) }
{
    let iri = Text::new(alloc, RDF_REST)?;
    Ok(Term::Iri(iri))
}

/// The IRI rdf:nil.
#[tactic(auto, unfolding(crate::specs::Grammar::rdf_nil, crate::specs::Terms::rdf))]
pub fn rdf_nil(alloc: Global) -> Result<Term, AllocError>
    ensures { IfOk result (λ term. term ≡ Grammar.rdf_nil) }
{
    let iri = Text::new(alloc, RDF_NIL)?;
    Ok(Term::Iri(iri))
}

// The IRI of an IRIREF, which comes next.
#[tactic(auto, unfolding(crate::specs::Terms::iri))]
fn iri_reference(text: &Source<'_>, state: &mut State) -> Reading<Text>
    requires { IsReady text.now state.old }
    ensures reads { Gives result state.new (Grammar.iri_reference text.now state.old) }
    ensures moved { OnOk result (Moved text.now 1 1 0 state.old state.new) }
    ensures scheme { IfOk result (λ iri. Scheme.has_scheme iri ≡ true) }
{
    let token = next(text, state)?;
    match token.kind {
        TokenKind::IriRef => resolved_iri(text, state, token),
        _ => Err(unexpected(token)),
    }
}

/// What a prefix stands for, after `@prefix` or `PREFIX`.
#[tactic(auto, unfolding(crate::specs::Grammar::prefix_declared))]
pub fn prefix_declared(text: &Source<'_>, state: &mut State) -> Reading<()>
    requires { IsReady text.now state.old }
    ensures reads { Gives result state.new (Grammar.prefix_declared text.now state.old) }
    ensures moved { OnOk result (Moved text.now 0 0 0 state.old state.new) }
{
    let token = expect_prefix_name(text, state)?;
    let iri = iri_reference(text, state)?;
    let prefix = Name::new(text.alloc(), prefix_of(text, token))?;
    state.prefixes.set(prefix, iri)?;
    Ok(())
}

/// The base, after `@base` or `BASE`.
#[tactic(auto, unfolding(crate::specs::Grammar::base_declared))]
pub fn base_declared(text: &Source<'_>, state: &mut State) -> Reading<()>
    requires { IsReady text.now state.old }
    ensures reads { Gives result state.new (Grammar.base_declared text.now state.old) }
    ensures moved { OnOk result (Moved text.now 0 0 0 state.old state.new) }
{
    let iri = iri_reference(text, state)?;
    state.base = Some(iri);
    Ok(())
}
