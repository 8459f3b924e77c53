//! The lines of one result.
ghost use Rattle.std.specs.Prelude.{◌≡◌, ◌++◌, codes, string_bytes, OnOk};
ghost use Rattle.std.specs.Option.{option_copied, unwrap_or};
ghost use Rattle.rdf_model.specs.NTriples.{term_text};
ghost use Rattle.shape_model.specs.Vocabulary.{sh};
ghost use Rattle.path_ast.specs.PathReadings.{defined_path, optional_path};
ghost use Rattle.shape_ast.specs.Readings.{read_shape};
ghost use Rattle.report_writer.specs.PathTexts.{optional_text, path_text};
ghost use Rattle.report_writer.specs.Report.{component_name, listed, statement, statements, term_statements};
ghost use Rattle.report_writer.specs.CompiledReport.{result_path, shape_lines};

use crate::component::name_of;
use crate::paths::push_path;
use crate::terms::{push_term, push_three};
use rdf_model::Term;
use shape_ast::{Component, Path, ResultRow, Shape};
use std::alloc::AllocError;

// The severity of a shape that declares none (SHACL section 2.1.4), as its line ends.
const VIOLATION: &str = "<http://www.w3.org/ns/shacl#Violation> .\n";

// The line of a term.
fn push_term_line(
    out: &mut String,
    label: &str,
    property: &str,
    term: &Term,
) -> Result<(), AllocError>
    ensures { OnOk result (string_bytes out.new ≡ string_bytes out.old ++ statement label.now property.now (term_text term.now)) }
{
    push_three(out, label, " ", property)?;
    out.push_str(" ")?;
    push_term(out, term)?;
    out.push_str(" .\n")
}

// The lines that begin each result.
fn push_head(out: &mut String, label: &str, focus_node: &Term) -> Result<(), AllocError>
    ensures { OnOk result (string_bytes out.new ≡ string_bytes out.old
        ++ statement (codes "_:r") (codes "sh:result") label.now
        ++ statement label.now (codes "a") (codes "sh:ValidationResult")
        ++ statement label.now (codes "sh:focusNode") (term_text focus_node.now)) }
{
    push_three(out, "_:r sh:result ", label, " .\n")?;
    push_three(out, label, " a sh:ValidationResult", " .\n")?;
    push_term_line(out, label, "sh:focusNode", focus_node)
}

// A line for the term, if there is one.
fn push_optional(
    out: &mut String,
    label: &str,
    property: &str,
    term: Option<&Term>,
) -> Result<(), AllocError>
    ensures { OnOk result (string_bytes out.new ≡ string_bytes out.old ++ term_statements label.now property.now (listed (option_copied term.entry))) }
{
    match term {
        Some(term) => push_term_line(out, label, property, term),
        None => Ok(()),
    }
}

// The line on the severity of a shape that declares this one, or none.
#[tactic(auto, unfolding(shape_model::specs::Vocabulary::sh))]
fn push_severity(out: &mut String, label: &str, declared: &Option<Term>) -> Result<(), AllocError>
    ensures { OnOk result (string_bytes out.new ≡ string_bytes out.old ++ statement label.now (codes "sh:resultSeverity") (term_text (unwrap_or declared.now (sh (codes "Violation"))))) }
{
    match declared {
        Some(severity) => push_term_line(out, label, "sh:resultSeverity", severity),
        None => push_three(out, label, " sh:resultSeverity ", VIOLATION),
    }
}

// A line for each message.
fn push_messages(out: &mut String, label: &str, messages: &[Term]) -> Result<(), AllocError>
    ensures { OnOk result (string_bytes out.new ≡ string_bytes out.old ++ term_statements label.now (codes "sh:resultMessage") messages.now) }
{
    for message in messages {
        push_term_line(out, label, "sh:resultMessage", message)?;
    }
    Ok(())
}

// The line on the component.
fn push_component(out: &mut String, label: &str, component: Component) -> Result<(), AllocError>
    ensures { OnOk result (string_bytes out.new ≡ string_bytes out.old
        ++ statement label.now (codes "sh:sourceConstraintComponent") (codes "sh:" ++ component_name component ++ codes "ConstraintComponent")) }
{
    let name = name_of(component);
    push_three(out, label, " sh:sourceConstraintComponent sh:", name)?;
    out.push_str("ConstraintComponent .\n")
}

// The line on the path of a result.
fn push_path_line(out: &mut String, label: &str, path: &Path<Term>) -> Result<(), AllocError>
    ensures { OnOk result (string_bytes out.new ≡ string_bytes out.old ++ statement label.now (codes "sh:resultPath") (path_text (defined_path path.now))) }
{
    push_three(out, label, " sh:resultPath", " ")?;
    push_path(out, path)?;
    out.push_str(" .\n")
}

// The line on the path of a result, where there is a path.
fn push_own_path(out: &mut String, label: &str, path: &Option<Path<Term>>) -> Result<(), AllocError>
    ensures { OnOk result (string_bytes out.new ≡ string_bytes out.old ++ statements label.now (codes "sh:resultPath") (optional_text (optional_path path.now))) }
{
    match path {
        Some(path) => push_path_line(out, label, path),
        None => Ok(()),
    }
}

// The line on the path of a result of a shape with this path (SHACL section 3.6.2.2).
fn push_result_path(
    out: &mut String,
    label: &str,
    row: &ResultRow,
    path: &Option<Path<Term>>,
) -> Result<(), AllocError>
    ensures { OnOk result (string_bytes out.new ≡ string_bytes out.old ++ statements label.now (codes "sh:resultPath") (result_path (optional_path path.now) row.now)) }
{
    match row.component {
        Component::Closed => push_optional(out, label, "sh:resultPath", row.other.as_ref()),
        _ => push_own_path(out, label, path),
    }
}

/// The lines of one result (SHACL section 3.6.2) of the shape: with its path, its severity and its
/// messages.
pub fn push_result(
    out: &mut String,
    label: &str,
    row: &ResultRow,
    shape: &Shape<Term>,
) -> Result<(), AllocError>
    ensures { OnOk result (string_bytes out.new ≡ string_bytes out.old ++ shape_lines label.now row.now (read_shape (λ t. t) shape.now)) }
{
    push_head(out, label, &row.focus_node)?;
    push_result_path(out, label, row, &shape.path)?;
    push_optional(out, label, "sh:value", row.value.as_ref())?;
    push_severity(out, label, &shape.severity)?;
    push_term_line(out, label, "sh:sourceShape", &row.source_shape)?;
    push_component(out, label, row.component)?;
    push_messages(out, label, shape.messages.as_slice())
}
