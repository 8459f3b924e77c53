//! The value nodes of a shape at a focus node.
ghost use Rattle.std.specs.Prelude.{◌≡◌, IfOk, OnOk};
ghost use Rattle.std.specs.Ordering.{nat_cmp};
ghost use Rattle.collections.specs.Listings.{IsListing, Keeps};
ghost use Rattle.rdf_model.specs.Numbers.{graph_of, term_at};
ghost use Rattle.path_eval.specs.Naming.{AddsLooks};
ghost use Rattle.shape_ast.specs.Readings.{read_optional_path};
ghost use Rattle.shape_eval.specs.Looks.{OptionalReads};
ghost use Rattle.shape_eval.specs.ValueNodes.{AreValueNodes, AtNumbers};

use path_ast::Path;
use path_eval::values;
use rdf_model::{Footprint, Triples};
use std::alloc::{AllocError, Global};

/// The value nodes at a focus node (SHACL section 3.7), ascending by number, for a shape with this
/// path or none. The looks that find them are added to the footprint.
pub(crate) fn value_nodes<R: Triples>(
    alloc: Global,
    graph: &R,
    path: &Option<Path<u32>>,
    focus: u32,
    footprint: &mut Footprint,
) -> Result<Vec<u32>, AllocError>
    ensures values { IfOk result (λ values. AtNumbers (R.triples graph.now) path.now focus (λ terms. AreValueNodes terms (R.triples graph.now) path.now focus values.items)) }
    ensures looks { OnOk result (AtNumbers (R.triples graph.now) path.now focus (λ terms. AddsLooks terms
        (OptionalReads (graph_of terms (R.triples graph.now)) (read_optional_path (term_at terms) path.now) (term_at terms focus)) footprint.old footprint.new)) }
    ensures kept { Keeps footprint.old footprint.new }
{
    match path {
        None => alone(alloc, focus),
        Some(path) => values(alloc, graph, path, focus, footprint),
    }
}

// One number.
fn alone(alloc: Global, number: u32) -> Result<Vec<u32>, AllocError>
    ensures { IfOk result (λ numbers. IsListing nat_cmp (λ n. number ≡ n) numbers.items) }
{
    let mut numbers = Vec::new(alloc);
    numbers.push(number)?;
    Ok(numbers)
}
