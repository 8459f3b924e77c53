//! The listing of a data graph.
ghost use Rattle.std.specs.Prelude.{IfOk};
ghost use Rattle.plain_values.specs.Built.{ArePatternsOf};
ghost use Rattle.shape_model.specs.Validation.{Listing};

use crate::targets::all_rows;
use collections::sorted_once;
use plain_values::BuiltPattern;
use rdf_model::Triple;
use shape_model::ResultRow;
use std::alloc::{AllocError, Global};

/// The results of validating the data graph by the shapes graph, each once, in order (SHACL section
/// 3.6). The patterns of the shapes graph are built by the caller, each under the flags of its shape. It takes
/// time with the square of the graphs' sizes and more, and is meant for small ones.
pub fn listing(
    alloc: Global,
    graph: &[Triple],
    shapes: &[Triple],
    patterns: &[BuiltPattern],
) -> Result<Vec<ResultRow>, AllocError>
    requires { ArePatternsOf shapes.now patterns.now }
    ensures { IfOk result (λ rows. Listing graph.now shapes.now rows.items) }
{
    let rows = all_rows(alloc, graph, shapes, patterns)?;
    let listed = sorted_once(rows)?;
    Ok(listed)
}
