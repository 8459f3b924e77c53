//! What is wrong with the files of a validation, and its line.
use file_validation::RefusalKind;
use rdf_model::Term;
use shape_rules::RuleRow;
use std::fmt;

/// What is wrong with the files of a validation, as the line of the error tells it.
#[derive(Debug, PartialEq, Eq)]
pub enum BadInput {
    /// The data is no Turtle text: the refusal that counts, with its line, from 1.
    Data { line: u64, kind: RefusalKind },
    /// The data is read, and the shapes are no Turtle text.
    Shapes { line: u64, kind: RefusalKind },
    /// Both are read, and the shapes graph isn't well-formed (SHACL section 3.4.2): the least of its broken rules.
    Rule(RuleRow),
    /// Both are read and the shapes graph is well-formed, and the pattern of this shape was refused.
    Pattern { node: Term },
}

// Written by hand, so that what owns one calls it in place of having it written out.
impl Drop for BadInput {
    fn drop(self) {
        match self {
            BadInput::Data { line: _, kind: _ } => {}
            BadInput::Shapes { line: _, kind: _ } => {}
            BadInput::Rule(_) => {}
            BadInput::Pattern { node: _ } => {}
        }
    }
}

impl fmt::Display for BadInput {
    ghost use Rattle.std.specs.Prelude.{Some};
    ghost use Rattle.validate_command.specs.Lines.{bad_input_text};

    ghost output = { λ b. Some (bad_input_text b) };

    fn fmt<W: fmt::Write>(&self, f: &mut fmt::Formatter<W>) -> fmt::Result {
        match self {
            BadInput::Data { line, kind } => {
                write!(f, "data line {line} kind {}", kind.number())
            }
            BadInput::Shapes { line, kind } => {
                write!(f, "shapes line {line} kind {}", kind.number())
            }
            BadInput::Rule(row) => write!(f, "shapes rule {} {}", row.rule, row.node),
            BadInput::Pattern { node } => write!(f, "shapes pattern {node}"),
        }
    }
}
