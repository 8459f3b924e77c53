//! The values of the property at the focus node.
ghost use Rattle.std.specs.Prelude.{IfOk};
ghost use Rattle.std.specs.Ordering.{nat_cmp};
ghost use Rattle.collections.specs.Listings.{IsListing};
ghost use Rattle.rdf_model.specs.declared.look.Look.TheVariants as looks;
ghost use Rattle.rdf_model.specs.Numbers.{IsFound};

use component_rows::Site;
use rdf_model::{Look, Names, Triples};
use std::alloc::AllocError;

// The values of the property at the focus node.
pub(crate) fn found<R: Triples, N: Names>(
    graph: &R,
    site: &Site<'_, N>,
) -> Result<Vec<u32>, AllocError>
    ensures { IfOk result (λ others. IsListing nat_cmp (IsFound (looks.Out site.now.focus site.now.parameter) (R.triples graph.now)) others.items) }
{
    Ok(graph.find(site.alloc(), &Look::Out(site.focus(), site.parameter()))?)
}
