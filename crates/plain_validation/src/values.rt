// The value nodes of a shape (SHACL section 3.7).
ghost use Rattle.std.specs.Prelude.{IfOk};
ghost use Rattle.collections.specs.Listings.{IsListing};
ghost use Rattle.rdf_model.specs.Terms.{term_cmp};
ghost use Rattle.rdf_model.specs.declared.term.Term.{Term as TermData};
ghost use Rattle.shape_model.specs.Readings.{ValueNode, reading};
ghost use Rattle.plain_terms.specs.Ways.{LeadsTo};
ghost use Rattle.plain_terms.specs.Finds.{Finds, WithSome};

use collections::Sequence;
use plain_terms::{alone, in_order, parameters, path_values};
use rdf_model::{Term, Triple};
use std::alloc::{AllocError, Global};

// The nodes to which the paths of some nodes lead, maybe several times.
fn values_along(
    alloc: Global,
    graph: &[Triple],
    shapes: &[Triple],
    focus: &Term,
    paths: &[Term],
) -> Result<Vec<Term>, AllocError>
    ensures { IfOk result (λ found. Finds (WithSome paths.now (λ node value. LeadsTo graph.now shapes.now node focus.now value)) found.items) }
{
    let mut found = Vec::new(alloc);
    for path in paths {
        let mut more = path_values(alloc, graph, shapes, path, focus)?;
        found.append(&mut more)?;
    }
    Ok(found)
}

// The value nodes of a shape at a focus node, maybe several times.
fn values_found(
    alloc: Global,
    graph: &[Triple],
    shapes: &[Triple],
    shape: &Term,
    focus: &Term,
) -> Result<Sequence<Term>, AllocError>
    ensures { IfOk result (λ values. Finds (ValueNode graph.now (reading shapes.now shape.now) focus.now) values) }
{
    let paths = parameters(alloc, shapes, shape, "path")?;
    if paths.is_empty() {
        return Ok(alone(alloc, focus)?);
    }
    let found = values_along(alloc, graph, shapes, focus, paths.as_slice())?;
    Ok(Sequence::from_vec(found))
}

/// The value nodes of a shape at a focus node, ascending, each once.
pub(crate) fn value_nodes(
    alloc: Global,
    graph: &[Triple],
    shapes: &[Triple],
    shape: &Term,
    focus: &Term,
) -> Result<Sequence<Term>, AllocError>
    ensures { IfOk result (λ values. IsListing term_cmp (ValueNode graph.now (reading shapes.now shape.now) focus.now) values) }
{
    let found = values_found(alloc, graph, shapes, shape, focus)?;
    let values = in_order(found)?;
    Ok(values)
}
