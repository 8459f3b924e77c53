//! The report of a listing.
ghost use Rattle.std.specs.Prelude.{◌≡◌, ◌++◌, List, IfOk, OnOk, codes, string_bytes};
ghost use Rattle.std.specs.List.{All};
ghost use Rattle.std.specs.Option.{IsSome};
ghost use Rattle.rdf_model.specs.declared.triple.Triple.{Triple};
ghost use Rattle.shape_ast.specs.Readings.{read_shapes};
ghost use Rattle.shape_ast.specs.Standing.{StandFor};
ghost use Rattle.shape_rules.specs.Broken.{IsWellFormed};
ghost use Rattle.report_writer.specs.Report.{conforms_text, report_text, result_label, results_by, statement};
ghost use Rattle.report_writer.specs.CompiledReport.{compiled_report};
ghost use Rattle.report_writer.specs.Sources.{HaveSources};
ghost use Rattle.report_writer.specs.Tables.{row_lines, shape_at};

use crate::lines::push_result;
use crate::tables::{ShapeTable, first_shapes, shape_of};
use rdf_model::Term;
use shape_ast::{ResultRow, Shape, Shapes};
use std::alloc::{AllocError, Global};

// The label of a result, in place of another.
fn set_label(label: &mut String, number: u64) -> Result<(), AllocError>
    ensures { OnOk result (string_bytes label.new ≡ result_label number) }
{
    label.clear();
    write!(label, "_:r{number}")
}

// The lines of one result, by the shape that gave it.
fn push_row<'a>(
    out: &mut String,
    label: &str,
    row: &'a ResultRow,
    shapes: &ShapeTable<'a>,
) -> Result<(), AllocError>
    requires { IsSome (shape_at shapes.now row.now.source_shape) }
    ensures { OnOk result (string_bytes out.new ≡ string_bytes out.old ++ row_lines shapes.now label.now row.now) }
{
    let shape = shape_of(shapes, &row.source_shape).unwrap();
    push_result(out, label, row, shape)
}

// The lines of the results, each by the shape that gave it.
fn push_rows<'a>(
    out: &mut String,
    label: &mut String,
    rows: &'a [ResultRow],
    shapes: &ShapeTable<'a>,
) -> Result<(), AllocError>
    requires { All (λ r. IsSome (shape_at shapes.now r.source_shape)) rows.now }
    ensures { OnOk result (string_bytes out.new ≡ string_bytes out.old ++ results_by (row_lines shapes.now) 1 rows.now) }
{
    for (i, row) in rows.iter().enumerate() {
        set_label(label, i as u64 + 1)?;
        push_row(out, label.as_str(), row, shapes)?;
    }
    Ok(())
}

// The lines on the whole report.
fn head(alloc: Global, rows: &[ResultRow]) -> Result<String, AllocError>
    ensures { IfOk result (λ text. string_bytes text ≡ codes "@prefix sh: <http://www.w3.org/ns/shacl#> .\n"
        ++ statement (codes "_:r") (codes "a") (codes "sh:ValidationReport")
        ++ statement (codes "_:r") (codes "sh:conforms") (conforms_text rows.now)) }
{
    let conforms = rows.is_empty();
    format!(in alloc;
        "@prefix sh: <http://www.w3.org/ns/shacl#> .\n\
         _:r a sh:ValidationReport .\n\
         _:r sh:conforms {conforms} .\n"
    )
}

// The report, by the shapes.
fn written<'a>(
    alloc: Global,
    rows: &'a [ResultRow],
    shapes: &'a [Shape<Term>],
) -> Result<String, AllocError>
    requires { HaveSources (read_shapes shapes.now) rows.now }
    ensures { IfOk result (λ text. string_bytes text ≡ compiled_report (read_shapes shapes.now) rows.now) }
{
    let table = first_shapes(alloc, shapes)?;
    let mut out = head(alloc, rows)?;
    let mut label = String::new(alloc);
    push_rows(&mut out, &mut label, rows, &table)?;
    Ok(out)
}

/// The report of these results, whose source shapes are among the shapes and aren't deactivated: byte for byte the one by
/// the shapes, and so by each well-formed shapes graph that they stand for. It fails only for want of memory.
pub fn report(alloc: Global, rows: &[ResultRow], shapes: &Shapes) -> Result<String, AllocError>
    requires { HaveSources (read_shapes shapes.now.shapes) rows.now }
    ensures shapes { IfOk result (λ text. string_bytes text ≡ compiled_report (read_shapes shapes.now.shapes) rows.now) }
    ensures graph { IfOk result (λ text. (s : List Triple) → StandFor (read_shapes shapes.now.shapes) s → IsWellFormed s → string_bytes text ≡ report_text s rows.now) }
{
    Ok(written(alloc, rows, shapes.shapes.as_slice())?)
}
