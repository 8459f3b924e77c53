//! The way of every row: it is read, asked of its component, and compared.

use crate::case::{Case, assert_found, read_case};
use crate::graphs::{GRAPH, closed_rows, pair_rows_of};
use crate::shapes::{class_rows, list_rows, qualified_rows, single_rows};
use crate::strings::{pattern_rows, string_rows_of};
use crate::values::value_rows_of;
use shape_model::ResultRow;
use std::alloc::{AllocError, Global};
use std::process::Abort;

// Which calls the rows of a table are for.
#[derive(Clone, Copy)]
pub(crate) enum Calls {
    Values,
    Strings,
    Patterns,
    Pairs,
    Closings,
    Classes,
    Single,
    Lists,
    Qualified,
}

// The triples of the rows' data graph; where there are none, each row tells its own.
fn graph_of(calls: Calls) -> &'static str {
    match calls {
        Calls::Closings => GRAPH,
        _ => "",
    }
}

fn rows_of(
    rt: &impl Abort,
    alloc: Global,
    calls: Calls,
    case: &Case<'_>,
    line: &str,
) -> Result<Vec<ResultRow>, AllocError> {
    match calls {
        Calls::Values => value_rows_of(alloc, case),
        Calls::Strings => string_rows_of(alloc, case),
        Calls::Patterns => pattern_rows(rt, alloc, case, line),
        Calls::Pairs => pair_rows_of(alloc, case),
        Calls::Closings => closed_rows(alloc, case),
        Calls::Classes => class_rows(rt, alloc, case, line),
        Calls::Single => single_rows(rt, alloc, case, line),
        Calls::Lists => list_rows(rt, alloc, case, line),
        Calls::Qualified => qualified_rows(rt, alloc, case, line),
    }
}

fn assert_row(rt: &impl Abort, alloc: Global, calls: Calls, line: &str) -> Result<(), AllocError> {
    let case = read_case(rt, alloc, graph_of(calls), line)?;
    let rows = rows_of(rt, alloc, calls, &case, line)?;
    assert_found(rt, alloc, &case, &rows, line)
}

// Each line is a row.
pub(crate) fn assert_table(
    rt: &impl Abort,
    alloc: Global,
    calls: Calls,
    table: &str,
) -> Result<(), AllocError> {
    for line in table.lines() {
        assert_row(rt, alloc, calls, line)?;
    }
    Ok(())
}
