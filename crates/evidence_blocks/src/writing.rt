//! The text of a block of evidence.
ghost use Rattle.std.specs.Prelude.{◌≡◌, ◌++◌, IfOk, OnOk, codes, string_bytes};
ghost use Rattle.std.specs.List.{flat_map};
ghost use Rattle.std.specs.Fmt.{decimal};
ghost use Rattle.shape_model.specs.Rows.{component_number};
ghost use Rattle.ntriples_text.specs.Writing.{written};
ghost use Rattle.evidence_blocks.specs.BlockText.{block_text, look_text, optional_line, row_head, row_terms, shown_text, term_line};

use crate::{Block, ShownLook};
use rdf_model::{Look, Term, Triple};
use shape_model::ResultRow;
use std::alloc::{AllocError, Global};

// A line of a word and a term.
fn push_term(out: &mut String, word: &str, term: &Term) -> Result<(), AllocError>
    ensures { OnOk result (string_bytes out.new ≡ string_bytes out.old ++ term_line word.now term.now) }
{
    write!(out, "{word} {term}\n")
}

// The line of a word and a term, where there is a term.
fn push_optional(out: &mut String, word: &str, term: &Option<Term>) -> Result<(), AllocError>
    ensures { OnOk result (string_bytes out.new ≡ string_bytes out.old ++ optional_line word.now term.now) }
{
    match term {
        Some(term) => push_term(out, word, term),
        None => Ok(()),
    }
}

// The line of the component's number.
fn push_component(out: &mut String, row: &ResultRow) -> Result<(), AllocError>
    ensures { OnOk result (string_bytes out.new ≡ string_bytes out.old ++ codes "component " ++ decimal (component_number row.now.component) ++ codes "\n") }
{
    let number = row.component.number();
    write!(out, "component {number}\n")
}

// The lines of a result that each has.
fn push_head(out: &mut String, row: &ResultRow) -> Result<(), AllocError>
    ensures { OnOk result (string_bytes out.new ≡ string_bytes out.old ++ row_head row.now) }
{
    push_term(out, "source", &row.source_shape)?;
    push_term(out, "focus", &row.focus_node)?;
    push_component(out, row)
}

// Those of its other terms.
fn push_terms(out: &mut String, row: &ResultRow) -> Result<(), AllocError>
    ensures { OnOk result (string_bytes out.new ≡ string_bytes out.old ++ row_terms row.now) }
{
    push_optional(out, "parameter", &row.parameter)?;
    push_optional(out, "about", &row.about)?;
    push_optional(out, "value", &row.value)?;
    push_optional(out, "other", &row.other)
}

// The line of a look.
fn push_look(out: &mut String, look: &Look<Term>) -> Result<(), AllocError>
    ensures { OnOk result (string_bytes out.new ≡ string_bytes out.old ++ look_text look.now) }
{
    match look {
        Look::Out(subject, predicate) => write!(out, "out {subject} {predicate}\n"),
        Look::In(predicate, object) => write!(out, "in {predicate} {object}\n"),
        Look::OutAny(subject) => write!(out, "any {subject}\n"),
    }
}

// The lines of triples.
fn push_triples(out: &mut String, triples: &[Triple]) -> Result<(), AllocError>
    ensures { OnOk result (string_bytes out.new ≡ string_bytes out.old ++ written triples.now) }
{
    for triple in triples {
        write!(out, "{triple}\n")?;
    }
    Ok(())
}

// The lines of a look and of its triples.
fn push_shown(out: &mut String, shown: &ShownLook) -> Result<(), AllocError>
    ensures { OnOk result (string_bytes out.new ≡ string_bytes out.old ++ shown_text shown.now) }
{
    push_look(out, &shown.look.look)?;
    push_triples(out, shown.triples.as_slice())
}

// Those of all looks.
fn push_looks(out: &mut String, looks: &[ShownLook]) -> Result<(), AllocError>
    ensures { OnOk result (string_bytes out.new ≡ string_bytes out.old ++ flat_map shown_text looks.now) }
{
    for look in looks {
        push_shown(out, look)?;
    }
    Ok(())
}

/// The text of a block: one line for the shape and for the focus node, those of the result, those of the looks with their
/// triples, and `end`.
pub fn write_block(alloc: Global, block: &Block) -> Result<String, AllocError>
    ensures { IfOk result (λ text. string_bytes text ≡ block_text block.now) }
{
    let mut text = String::new(alloc);
    push_term(&mut text, "shape", &block.shape)?;
    push_term(&mut text, "at", &block.focus)?;
    push_head(&mut text, &block.row)?;
    push_terms(&mut text, &block.row)?;
    push_looks(&mut text, block.looks.as_slice())?;
    write!(text, "end\n")?;
    Ok(text)
}
