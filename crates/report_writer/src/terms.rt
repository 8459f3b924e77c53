//! The text of a term.
ghost use Rattle.std.specs.Prelude.{◌≡◌, ◌++◌, OnOk, string_bytes};
ghost use Rattle.std.specs.List.{flat_map};
ghost use Rattle.std.specs.Option.{option_copied};
ghost use Rattle.std.specs.Str.{chars};
ghost use Rattle.rdf_model.specs.NTriples.{escaped, literal_suffix, term_text};
ghost use Rattle.report_writer.specs.EscapedBytes.{escape};

use rdf_model::Term;
use rdf_text::Text;
use std::alloc::AllocError;
use vocabulary::XSD_STRING;

/// Adds three texts, one after the other.
pub fn push_three(
    out: &mut String,
    first: &str,
    second: &str,
    third: &str,
) -> Result<(), AllocError>
    ensures { OnOk result (string_bytes out.new ≡ string_bytes out.old ++ first.now ++ second.now ++ third.now) }
{
    out.push_str(first)?;
    out.push_str(second)?;
    out.push_str(third)
}

// How a byte within quotes is escaped, if it is.
fn escape_of(byte: u8) -> Option<&'static str>
    ensures { option_copied result ≡ escape byte }
{
    match byte {
        b'"' => Some("\\\""),
        b'\\' => Some("\\\\"),
        b'\n' => Some("\\n"),
        b'\r' => Some("\\r"),
        _ => None,
    }
}

// Adds a lexical form as it stands within quotes: stretches that need no escape are added whole.
fn push_escaped(out: &mut String, lexical: &str) -> Result<(), AllocError>
    ensures { OnOk result (string_bytes out.new ≡ string_bytes out.old ++ flat_map escaped (chars lexical.now)) }
{
    let mut written = 0;
    for (i, byte) in lexical.as_bytes().iter().enumerate() {
        if let Some(escape) = escape_of(*byte) {
            out.push_str(&lexical[written..i])?;
            out.push_str(escape)?;
            written = i + 1;
        }
    }
    out.push_str(&lexical[written..])
}

// Adds what follows the quotes of a literal.
fn push_suffix(out: &mut String, datatype: &Text, language: &Option<Text>) -> Result<(), AllocError>
    ensures { OnOk result (string_bytes out.new ≡ string_bytes out.old ++ literal_suffix datatype.now language.now) }
{
    let datatype = datatype.as_str();
    match language {
        Some(tag) => push_three(out, "@", tag.as_str(), ""),
        None if datatype == XSD_STRING => Ok(()),
        None => push_three(out, "^^<", datatype, ">"),
    }
}

/// Adds the text of a term, as N-Triples writes it.
pub fn push_term(out: &mut String, term: &Term) -> Result<(), AllocError>
    ensures { OnOk result (string_bytes out.new ≡ string_bytes out.old ++ term_text term.now) }
{
    match term {
        Term::Blank { .. } => write!(out, "{term}"),
        Term::Iri(iri) => push_three(out, "<", iri.as_str(), ">"),
        Term::Literal {
            lexical,
            datatype,
            language,
        } => {
            out.push_str("\"")?;
            push_escaped(out, lexical.as_str())?;
            out.push_str("\"")?;
            push_suffix(out, datatype, language)
        }
    }
}
