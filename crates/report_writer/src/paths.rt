//! The text of a path.
ghost use Rattle.std.specs.Prelude.{◌≡◌, ◌++◌, OnOk, map, string_bytes};
ghost use Rattle.path_ast.specs.PathReadings.{defined_path, members};
ghost use Rattle.report_writer.specs.PathTexts.{list_text, members_text, node_text, path_text};

use crate::terms::push_term;
use rdf_model::Term;
use shape_ast::Path;
use std::alloc::AllocError;

/// Adds the text of a path (SHACL section 2.3.1).
#[cycle(texts)]
pub fn push_path(out: &mut String, path: &Path<Term>) -> Result<(), AllocError>
    ensures { OnOk result (string_bytes out.new ≡ string_bytes out.old ++ path_text (defined_path path.now)) }
{
    match path {
        Path::Predicate(predicate) => push_term(out, predicate),
        Path::Inverse(inner) => push_node(out, "sh:inversePath", inner),
        Path::Sequence(first, others) => push_list(out, first, others),
        Path::Alternative(first, others) => {
            write!(out, "[ sh:alternativePath ")?;
            push_list(out, first, others)?;
            write!(out, " ]")
        }
        Path::ZeroOrMore(inner) => push_node(out, "sh:zeroOrMorePath", inner),
        Path::OneOrMore(inner) => push_node(out, "sh:oneOrMorePath", inner),
        Path::ZeroOrOne(inner) => push_node(out, "sh:zeroOrOnePath", inner),
    }
}

// A blank node that stands for a path by this property.
#[cycle(texts)]
fn push_node(out: &mut String, property: &str, inner: &Path<Term>) -> Result<(), AllocError>
    ensures { OnOk result (string_bytes out.new ≡ string_bytes out.old ++ node_text property.now (path_text (defined_path inner.now))) }
{
    write!(out, "[ {property} ")?;
    push_path(out, inner)?;
    write!(out, " ]")
}

// The list of the paths.
#[cycle(texts)]
fn push_list(out: &mut String, first: &Path<Term>, others: &[Path<Term>]) -> Result<(), AllocError>
    ensures { OnOk result (string_bytes out.new ≡ string_bytes out.old ++ list_text (members_text (members (defined_path first.now) (map defined_path others.now)))) }
{
    write!(out, "( ")?;
    push_path(out, first)?;
    for path in others {
        write!(out, " ")?;
        push_path(out, path)?;
    }
    write!(out, " )")
}
