// Terms and results in short forms, for tables.

use rdf_model::{Term, Text};
use shape_model::ResultRow;
use std::alloc::{AllocError, Global};

const XSD: &str = "http://www.w3.org/2001/XMLSchema#";

const LANG_STRING: &str = "http://www.w3.org/1999/02/22-rdf-syntax-ns#langString";

fn typed(alloc: Global, lexical: &str, name: &str) -> Result<Term, AllocError> {
    Ok(Term::Literal {
        lexical: Text::new(alloc, lexical)?,
        datatype: Text::from_string(format!(in alloc; "{XSD}{name}")?)?,
        language: None,
    })
}

// A tag as readers keep it, in lower case.
fn lower(alloc: Global, tag: &str) -> Result<Text, AllocError> {
    let mut text = String::new(alloc);
    for letter in tag.chars() {
        text.push(letter.to_ascii_lowercase())?;
    }
    Text::from_string(text)
}

fn tagged(alloc: Global, lexical: &str, tag: &str) -> Result<Term, AllocError> {
    Ok(Term::Literal {
        lexical: Text::new(alloc, lexical)?,
        datatype: Text::new(alloc, LANG_STRING)?,
        language: Some(lower(alloc, tag)?),
    })
}

// A term by its short form: `5^integer` is a literal with a datatype of XML Schema, `x@en` one with a
// language tag, `_1` and `_2` are blank nodes, and all else is an IRI.
pub(crate) fn term(alloc: Global, short: &str) -> Result<Term, AllocError> {
    if let Some((lexical, name)) = short.rsplit_once('^') {
        return typed(alloc, lexical, name);
    }
    if let Some((lexical, tag)) = short.split_once('@') {
        return tagged(alloc, lexical, tag);
    }
    for (name, number) in [("_1", 1), ("_2", 2)] {
        if short == name {
            return Ok(Term::Blank { session: 1, number });
        }
    }
    Ok(Term::Iri(Text::new(alloc, short)?))
}

fn push_literal(
    text: &mut String,
    lexical: &str,
    datatype: &str,
    language: &Option<Text>,
) -> Result<(), AllocError> {
    text.push_str(lexical)?;
    if let Some(tag) = language {
        return write!(text, "@{tag}");
    }
    match datatype.strip_prefix(XSD) {
        Some(name) => write!(text, "^{name}"),
        None => write!(text, "^^{datatype}"),
    }
}

fn push_term(text: &mut String, term: &Term) -> Result<(), AllocError> {
    match term {
        Term::Blank { session: _, number } => write!(text, "_{number}"),
        Term::Iri(iri) => text.push_str(iri.as_str()),
        Term::Literal {
            lexical,
            datatype,
            language,
        } => push_literal(text, lexical.as_str(), datatype.as_str(), language),
    }
}

// A term by its short form.
pub(crate) fn text_of(alloc: Global, term: &Term) -> Result<String, AllocError> {
    let mut text = String::new(alloc);
    push_term(&mut text, term)?;
    Ok(text)
}

fn push_optional(text: &mut String, term: &Option<Term>) -> Result<(), AllocError> {
    match term {
        Some(term) => push_term(text, term),
        None => text.push_str("-"),
    }
}

fn push_row(text: &mut String, row: &ResultRow) -> Result<(), AllocError> {
    push_optional(text, &row.about)?;
    text.push_str("|")?;
    push_optional(text, &row.value)?;
    text.push_str("|")?;
    push_optional(text, &row.other)
}

// A result by what differs among those of one call: the value node that it is about, the value, and what else
// tells it apart, with bars between them.
pub(crate) fn text_of_row(alloc: Global, row: &ResultRow) -> Result<String, AllocError> {
    let mut text = String::new(alloc);
    push_row(&mut text, row)?;
    Ok(text)
}
