// Terms and triples as N-Triples 1.1 writes them.
ghost use Rattle.std.specs.Prelude.{Some};

use crate::{Term, Triple};
use rdf_text::Text;
use std::fmt;
use vocabulary::XSD_STRING;

// A character within the quotes of a literal.
#[derive(Clone, Copy)]
struct Escaped {
    character: char,
}

impl fmt::Display for Escaped {
    ghost use Rattle.std.specs.Prelude.{Some};
    ghost use Rattle.rdf_model.specs.NTriples.{escaped};

    ghost output = { λ text. Some (escaped text.character) };

    fn fmt<W: fmt::Write>(&self, f: &mut fmt::Formatter<W>) -> fmt::Result {
        match self.character {
            '"' => f.write_str("\\\""),
            '\\' => f.write_str("\\\\"),
            '\n' => f.write_str("\\n"),
            '\r' => f.write_str("\\r"),
            other => f.write_char(other),
        }
    }
}

// A lexical form within its quotes.
#[derive(Clone, Copy)]
struct Quoted<'a> {
    lexical: &'a Text,
}

impl<'a> fmt::Display for Quoted<'a> {
    ghost use Rattle.std.specs.Prelude.{Some};
    ghost use Rattle.std.specs.List.{flat_map};
    ghost use Rattle.std.specs.Str.{chars};
    ghost use Rattle.rdf_model.specs.NTriples.{escaped};

    ghost output = { λ text. Some (flat_map escaped (chars text.lexical.now)) };

    fn fmt<W: fmt::Write>(&self, f: &mut fmt::Formatter<W>) -> fmt::Result {
        let lexical = self.lexical;
        for character in lexical.as_str().chars() {
            let escaped = Escaped { character };
            write!(f, "{escaped}")?;
        }
        Ok(())
    }
}

// What follows the quotes of a literal.
#[derive(Clone, Copy)]
struct Suffix<'a> {
    datatype: &'a Text,
    language: &'a Option<Text>,
}

impl<'a> fmt::Display for Suffix<'a> {
    ghost use Rattle.std.specs.Prelude.{Some};
    ghost use Rattle.rdf_model.specs.NTriples.{literal_suffix};

    ghost output = { λ suffix. Some (literal_suffix suffix.datatype.now suffix.language.now) };

    fn fmt<W: fmt::Write>(&self, f: &mut fmt::Formatter<W>) -> fmt::Result {
        let datatype = self.datatype;
        match self.language {
            Some(tag) => write!(f, "@{tag}"),
            None if datatype.as_str() == XSD_STRING => Ok(()),
            None => write!(f, "^^<{datatype}>"),
        }
    }
}

impl fmt::Display for Term {
    ghost use Rattle.std.specs.Prelude.{Some};
    ghost use Rattle.rdf_model.specs.NTriples.{term_text};

    ghost output = { λ term. Some (term_text term) };

    /// The term as N-Triples writes it (N-Triples section 2).
    fn fmt<W: fmt::Write>(&self, f: &mut fmt::Formatter<W>) -> fmt::Result {
        match self {
            Term::Blank { session, number } => write!(f, "_:s{session}x{number}"),
            Term::Iri(iri) => write!(f, "<{iri}>"),
            Term::Literal {
                lexical,
                datatype,
                language,
            } => {
                let quoted = Quoted { lexical };
                let suffix = Suffix { datatype, language };
                write!(f, "\"{quoted}\"{suffix}")
            }
        }
    }
}

impl fmt::Display for Triple {
    ghost use Rattle.std.specs.Prelude.{Some};
    ghost use Rattle.rdf_model.specs.NTriples.{triple_text};

    ghost output = { λ triple. Some (triple_text triple) };

    /// The triple as a line of N-Triples, without the line's end.
    fn fmt<W: fmt::Write>(&self, f: &mut fmt::Formatter<W>) -> fmt::Result {
        let Triple {
            subject,
            predicate,
            object,
        } = self;
        write!(f, "{subject} {predicate} {object} .")
    }
}
