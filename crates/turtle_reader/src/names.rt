//! IRIs, by their tokens and the prefixes.
ghost use Rattle.std.specs.Prelude.{◌≡◌, ◌+◌, ◌<◌, ◌≤◌, true, ◌++◌, length, Ok, Some, None, IfOk, IfSome, OnOk};
ghost use Rattle.iri_ref.specs.Resolution;
ghost use Rattle.iri_ref.specs.Scheme;
ghost use Rattle.turtle_reader.specs.Progress.{CanRead, Gives, IsReady, IsTokenOf, Moved};
ghost use Rattle.turtle_reader.specs.Terms;

use crate::source::{Reading, Source};
use crate::state::State;
use crate::table::Name;
use crate::tokens::unexpected;
use iri_ref::{has_scheme, resolve};
use rdf_lexical::{ReadFault, RefusalKind};
use rdf_model::Term;
use rdf_text::Text;
use std::alloc::{AllocError, Global};
use turtle_lex::{Token, TokenKind, iri_text, push_local_name, split_name};

/// The refusal of a token, of this kind.
pub fn refused(token: Token, kind: RefusalKind) -> ReadFault
    ensures { result ≡ ReadFault.Refusal token.start.line kind }
{
    ReadFault::Refusal {
        line: token.start.line,
        kind,
    }
}

// A reference resolved against a base.
fn resolved(alloc: Global, base: &Text, reference: &Text) -> Result<Text, AllocError>
    requires { Scheme.has_scheme base.now ≡ true }
    ensures iri { IfOk result (λ iri. iri ≡ Resolution.resolved base.now reference.now) }
    ensures scheme { IfOk result (λ iri. Scheme.has_scheme iri ≡ true) }
{
    resolve(alloc, base.as_str(), reference.as_str())
}

// The IRI of a reference, or None where it has no scheme and there is no base.
fn in_base(alloc: Global, base: &Option<Text>, reference: Text) -> Result<Option<Text>, AllocError>
    requires { IfSome base.now (λ b. Scheme.has_scheme b ≡ true) }
    ensures iri { IfOk result (λ iri. iri ≡ Terms.in_base base.now reference) }
    ensures scheme { IfOk result (λ iri. IfSome iri (λ a. Scheme.has_scheme a ≡ true)) }
{
    match base {
        Some(base) => Ok(Some(resolved(alloc, base, &reference)?)),
        None => {
            if has_scheme(reference.as_str()) {
                Ok(Some(reference))
            } else {
                Ok(None)
            }
        }
    }
}

/// The IRI of an IRIREF, which has a scheme.
pub fn resolved_iri(text: &Source<'_>, state: &State, token: Token) -> Reading<Text>
    requires token { IsTokenOf text.now token }
    requires ready { IsReady text.now state.now }
    ensures reads { Gives result state.now (Terms.resolved_iri text.now token state.now) }
    ensures scheme { IfOk result (λ iri. Scheme.has_scheme iri ≡ true) }
{
    let reference = iri_text(text.alloc(), &text.token_text(token))?;
    match in_base(text.alloc(), &state.base, reference)? {
        Some(iri) => Ok(iri),
        None => Err(refused(token, RefusalKind::RelativeIri)),
    }
}

/// The prefix of a PNAME_NS or PNAME_LN.
pub fn prefix_of<'a>(text: &Source<'a>, token: Token) -> &'a str
    requires { IsTokenOf text.now token }
    ensures { result.now ≡ Terms.prefix_of text.now token }
{
    let (prefix, _) = split_name(&text.token_text(token));
    prefix.as_text()
}

// The IRI of a name whose prefix stands for this one: the local name of a PNAME_LN behind it, of a PNAME_NS nothing.
fn named_iri(text: &Source<'_>, iri: &Text, token: Token) -> Result<Text, AllocError>
    requires { IsTokenOf text.now token }
    ensures { IfOk result (λ named. named ≡ iri.now ++ Terms.local_of text.now token) }
{
    let (_, local) = split_name(&text.token_text(token));
    let room = iri.as_str().len().saturating_add(local.len());
    let mut named = String::with_capacity(text.alloc(), room)?;
    named.push_str(iri.as_str())?;
    push_local_name(&mut named, &local)?;
    Text::from_string(named)
}

// The IRI of a PNAME_NS or PNAME_LN.
fn prefixed_iri(text: &Source<'_>, state: &State, token: Token) -> Reading<Text>
    requires { IsTokenOf text.now token }
    ensures { Gives result state.now (Terms.prefixed_iri text.now token state.now) }
{
    match state.prefixes.get(prefix_of(text, token)) {
        Some(iri) => Ok(named_iri(text, iri, token)?),
        None => Err(refused(token, RefusalKind::UndeclaredPrefix)),
    }
}

/// The IRI of an IRIREF, PNAME_NS or PNAME_LN (Turtle section 2.4); another token is refused.
#[tactic(auto, unfolding(crate::specs::Terms::iri))]
pub fn read_iri(text: &Source<'_>, state: &State, token: Token) -> Reading<Text>
    requires token { IsTokenOf text.now token }
    requires ready { IsReady text.now state.now }
    ensures { Gives result state.now (Terms.iri text.now token state.now) }
{
    match token.kind {
        TokenKind::IriRef => resolved_iri(text, state, token),
        TokenKind::PrefixName | TokenKind::PrefixedName => prefixed_iri(text, state, token),
        _ => Err(unexpected(token)),
    }
}

// The label of a BLANK_NODE_LABEL.
fn label_of<'a>(text: &Source<'a>, token: Token) -> &'a str
    requires { IsTokenOf text.now token }
    ensures { result.now ≡ Terms.label_of text.now token }
{
    text.token_text(token).behind(2).as_text()
}

/// The blank node of a label (Turtle section 2.6): a new one at its first use.
#[tactic(auto, unfolding(crate::specs::Terms::labelled))]
pub fn labelled(text: &Source<'_>, state: &mut State, token: Token) -> Reading<Term>
    requires token { IsTokenOf text.now token }
    requires ready { CanRead text.now 1 state.old }
    ensures reads { Gives result state.new (Terms.labelled text.now token state.old) }
    ensures moved { OnOk result (Moved text.now 0 0 1 state.old state.new) }
{
    let label = label_of(text, token);
    match state.labels.get(label) {
        Some(number) => Ok(Term::Blank {
            session: state.session,
            number: *number,
        }),
        None => {
            let number = state.next;
            let label = Name::new(text.alloc(), label)?;
            state.labels.set(label, number)?;
            state.next += 1;
            Ok(Term::Blank {
                session: state.session,
                number,
            })
        }
    }
}
