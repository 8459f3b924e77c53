//! The triple of a line, and a term that stands alone.
ghost use Rattle.std.specs.Prelude.{◌≡◌, ◌≤◌, ◌<◌, Ok, Some, None, length, IfOk, IsSome};
ghost use Rattle.rdf_model.specs.declared.term.Term.TheVariants as terms;
ghost use Rattle.rdf_model.specs.NTriples.{xsd_string};
ghost use Rattle.ntriples_text.specs.Faults.{Gives};
ghost use Rattle.ntriples_text.specs.Grammar;

use crate::line_fault::LineFault;
use crate::statement::{LabelKind, Node, Statement};
use crate::store_labels::stored_node;
use crate::token::{Token, next_token};
use iri_ref::has_scheme;
use literal_order::profile;
use rdf_lexical::{CharSlice, RefusalKind};
use rdf_model::Term;
use rdf_text::Text;
use std::alloc::{AllocError, Global};
use vocabulary::{RDF_LANG_STRING, XSD_STRING};

fn unexpected(token: &Token) -> LineFault
    ensures { result ≡ LineFault.Refused (Grammar.unexpected token.now) }
{
    match token {
        Token::TextEnd => LineFault::Refused(RefusalKind::UnexpectedEnd),
        _ => LineFault::Refused(RefusalKind::UnexpectedToken),
    }
}

#[tactic(auto, unfolding(crate::specs::Grammar::iri))]
fn read_iri<'a>(
    alloc: Global,
    characters: &CharSlice<'a>,
) -> Result<(Text, CharSlice<'a>), LineFault>
    ensures iri { Gives (λ r. (r.0, r.1)) result (Grammar.iri characters.now) }
    ensures shorter { IfOk result (λ r. length r.1 ≤ length characters.now) }
{
    let (token, rest) = next_token(alloc, characters)?;
    Ok((token.into_iri()?, rest))
}

#[tactic(auto, unfolding(crate::specs::Grammar::predicate))]
fn read_predicate<'a>(
    alloc: Global,
    characters: &CharSlice<'a>,
) -> Result<(Text, CharSlice<'a>), LineFault>
    ensures predicate { Gives (λ r. (r.0, r.1)) result (Grammar.predicate characters.now) }
    ensures shorter { IfOk result (λ r. length r.1 ≤ length characters.now) }
{
    let (token, rest) = next_token(alloc, characters)?;
    Ok((token.into_predicate()?, rest))
}

// What the label of a blank node gives.
fn labelled(labels: LabelKind, label: Text) -> Result<Node, LineFault>
    ensures { Gives (λ node. node) result (Grammar.labelled labels label) }
{
    match labels {
        LabelKind::OfText => Ok(Node::Labelled(label)),
        LabelKind::OfStore => match stored_node(label.as_str()) {
            Some(node) => Ok(Node::Plain(node)),
            None => Err(LineFault::Refused(RefusalKind::NoStoreLabel)),
        },
    }
}

fn make_literal(lexical: Text, datatype: Text) -> Result<Term, LineFault>
    ensures { Gives (λ term. term) result (Grammar.literal lexical datatype) }
{
    let term = Term::Literal {
        lexical,
        datatype,
        language: None,
    };
    match profile(&term) {
        None => Ok(term),
        Some(number) => Err(LineFault::Refused(RefusalKind::of_literal(number))),
    }
}

fn tagged(alloc: Global, lexical: Text, tag: Text) -> Result<Term, LineFault>
    ensures { Gives (λ term. term) result (Ok (terms.Literal lexical Grammar.rdf_lang_string (Some tag))) }
{
    let datatype = Text::new(alloc, RDF_LANG_STRING)?;
    Ok(Term::Literal {
        lexical,
        datatype,
        language: Some(tag),
    })
}

fn plain(alloc: Global, lexical: Text) -> Result<Term, LineFault>
    ensures { Gives (λ term. term) result (Ok (terms.Literal lexical xsd_string None)) }
{
    let datatype = Text::new(alloc, XSD_STRING)?;
    Ok(Term::Literal {
        lexical,
        datatype,
        language: None,
    })
}

// The literal of a string whose datatype's IRI comes next.
fn read_typed<'a>(
    alloc: Global,
    lexical: Text,
    characters: &CharSlice<'a>,
) -> Result<(Term, CharSlice<'a>), LineFault>
    ensures literal { Gives (λ r. (r.0, r.1)) result (Grammar.typed_from lexical characters.now) }
    ensures shorter { IfOk result (λ r. length r.1 ≤ length characters.now) }
{
    let (datatype, rest) = read_iri(alloc, characters)?;
    Ok((make_literal(lexical, datatype)?, rest))
}

impl Token {
    fn into_iri(self) -> Result<Text, LineFault>
        ensures { Gives (λ iri. iri) result (Grammar.iri_of self) }
    {
        match self {
            Token::IriRef(iri) => {
                if has_scheme(iri.as_str()) {
                    Ok(iri)
                } else {
                    Err(LineFault::Refused(RefusalKind::RelativeIri))
                }
            }
            other => Err(unexpected(&other)),
        }
    }

    fn into_node(self, labels: LabelKind) -> Result<Node, LineFault>
        ensures { Gives (λ node. node) result (Grammar.node_of labels self) }
    {
        match self {
            Token::Label(label) => labelled(labels, label),
            other => Ok(Node::Plain(Term::Iri(other.into_iri()?))),
        }
    }

    fn into_predicate(self) -> Result<Text, LineFault>
        ensures { Gives (λ iri. iri) result (Grammar.predicate_of self) }
    {
        match self {
            Token::Label(_) => Err(LineFault::Refused(RefusalKind::BlankPredicate)),
            other => other.into_iri(),
        }
    }

    // The literal of a string before this token, which may be a part of it. The characters before the token, and
    // after it, are given.
    fn end_literal<'a>(
        self,
        alloc: Global,
        lexical: Text,
        before: &CharSlice<'a>,
        after: &CharSlice<'a>,
    ) -> Result<(Term, CharSlice<'a>), LineFault>
        requires { length after.now ≤ length before.now }
        ensures literal { Gives (λ r. (r.0, r.1)) result (Grammar.literal_at lexical before.now (self, after.now)) }
        ensures shorter { IfOk result (λ r. length r.1 ≤ length before.now) }
    {
        match self {
            Token::Carets => read_typed(alloc, lexical, after),
            Token::LanguageTag(tag) => Ok((tagged(alloc, lexical, tag)?, after.whole())),
            _ => Ok((plain(alloc, lexical)?, before.whole())),
        }
    }

    // The object that begins with this token, and the characters after it.
    fn begin_object<'a>(
        self,
        alloc: Global,
        labels: LabelKind,
        after: &CharSlice<'a>,
    ) -> Result<(Node, CharSlice<'a>), LineFault>
        ensures object { Gives (λ r. (r.0, r.1)) result (Grammar.object_at labels (self, after.now)) }
        ensures shorter { IfOk result (λ r. length r.1 ≤ length after.now) }
    {
        match self {
            Token::Quoted(lexical) => {
                let (literal, rest) = read_literal(alloc, lexical, after)?;
                Ok((Node::Plain(literal), rest))
            }
            other => Ok((other.into_node(labels)?, after.whole())),
        }
    }
}

// The literal of a string, and of what follows it.
#[tactic(auto, unfolding(crate::specs::Grammar::literal_from))]
fn read_literal<'a>(
    alloc: Global,
    lexical: Text,
    characters: &CharSlice<'a>,
) -> Result<(Term, CharSlice<'a>), LineFault>
    ensures literal { Gives (λ r. (r.0, r.1)) result (Grammar.literal_from lexical characters.now) }
    ensures shorter { IfOk result (λ r. length r.1 ≤ length characters.now) }
{
    let (token, rest) = next_token(alloc, characters)?;
    token.end_literal(alloc, lexical, characters, &rest)
}

#[tactic(auto, unfolding(crate::specs::Grammar::object))]
fn read_object<'a>(
    alloc: Global,
    labels: LabelKind,
    characters: &CharSlice<'a>,
) -> Result<(Node, CharSlice<'a>), LineFault>
    ensures object { Gives (λ r. (r.0, r.1)) result (Grammar.object labels characters.now) }
    ensures shorter { IfOk result (λ r. length r.1 ≤ length characters.now) }
{
    let (token, rest) = next_token(alloc, characters)?;
    token.begin_object(alloc, labels, &rest)
}

// The dot, and the characters after it.
#[tactic(auto, unfolding(crate::specs::Grammar::dot))]
fn skip_dot<'a>(alloc: Global, characters: &CharSlice<'a>) -> Result<CharSlice<'a>, LineFault>
    ensures dot { Gives (λ rest. rest) result (Grammar.dot characters.now) }
    ensures shorter { IfOk result (λ rest. length rest < length characters.now) }
{
    let (token, rest) = next_token(alloc, characters)?;
    match token {
        Token::Dot => Ok(rest),
        other => Err(unexpected(&other)),
    }
}

fn is_end(token: &Token) -> bool
    ensures { result ≡ Grammar.is_end token.now }
{
    matches!(token, Token::LineEnd | Token::TextEnd)
}

// Nothing but the end of the line or of the text.
#[tactic(auto, unfolding(crate::specs::Grammar::end))]
fn expect_end(alloc: Global, characters: &CharSlice<'_>) -> Result<(), LineFault>
    ensures { Gives (λ _. tt) result (Grammar.end characters.now) }
{
    let (token, _) = next_token(alloc, characters)?;
    if is_end(&token) {
        Ok(())
    } else {
        Err(LineFault::Refused(RefusalKind::UnexpectedToken))
    }
}

// The triple whose first token has been read.
#[tactic(auto, unfolding(crate::specs::Grammar::statement_from))]
fn read_statement(
    alloc: Global,
    labels: LabelKind,
    first: Token,
    characters: &CharSlice<'_>,
) -> Result<Statement, LineFault>
    ensures statement { Gives (λ s. s) result (Grammar.statement_from labels (first, characters.now)) }
    ensures longer { IfOk result (λ _. 1 ≤ length characters.now) }
{
    let subject = first.into_node(labels)?;
    let (predicate, rest) = read_predicate(alloc, characters)?;
    let (object, rest) = read_object(alloc, labels, &rest)?;
    let rest = skip_dot(alloc, &rest)?;
    expect_end(alloc, &rest)?;
    Ok(Statement {
        subject,
        predicate,
        object,
    })
}

/// The triple of a line, if it has one. The characters are those of the line and of its end.
#[tactic(auto, unfolding(crate::specs::Grammar::line))]
pub fn read_line(
    alloc: Global,
    labels: LabelKind,
    characters: &CharSlice<'_>,
) -> Result<Option<Statement>, LineFault>
    ensures statement { Gives (λ s. s) result (Grammar.line labels characters.now) }
    ensures longer { IfOk result (λ s. IsSome s → 2 ≤ length characters.now) }
{
    let (first, rest) = next_token(alloc, characters)?;
    if is_end(&first) {
        return Ok(None);
    }
    Ok(Some(read_statement(alloc, labels, first, &rest)?))
}

/// The term that the characters give alone, with nothing behind it; its labels are those of the
/// store.
pub fn read_alone(alloc: Global, characters: &CharSlice<'_>) -> Result<Option<Term>, AllocError>
    ensures { IfOk result (λ term. term ≡ Grammar.alone characters.now) }
{
    match read_object(alloc, LabelKind::OfStore, characters) {
        Ok((node, rest)) => {
            if rest.is_empty() {
                Ok(node.into_term())
            } else {
                Ok(None)
            }
        }
        Err(LineFault::Refused(_)) => Ok(None),
        Err(LineFault::Memory) => Err(AllocError),
    }
}
