//! The components min-count and max-count (SHACL sections 4.2.1 and 4.2.2).
ghost use Rattle.std.specs.Prelude.{IfOk};
ghost use Rattle.shape_model.specs.declared.component.Component.TheVariants as components;
ghost use Rattle.component_rows.specs.Listed.{untold};
ghost use Rattle.component_rows.specs.Sites.{ListsAt, at_values};

use component_rows::{End, Site, counted};
use rdf_model::Names;
use shape_model::{Component, ResultRow};
use std::alloc::AllocError;

/// The results of sh:minCount (SHACL section 4.2.1): one where there are fewer value nodes than the parameter says.
pub fn min_count<N: Names>(site: &Site<'_, N>) -> Result<Vec<ResultRow>, AllocError>
    ensures { IfOk result (λ rows. ListsAt components.MinCount (at_values site.now) untold site.now rows.items) }
{
    site.recall();
    counted(site, Component::MinCount, End::Least, site.values().len())
}

/// The results of sh:maxCount (SHACL section 4.2.2): one where there are more value nodes than the parameter says.
pub fn max_count<N: Names>(site: &Site<'_, N>) -> Result<Vec<ResultRow>, AllocError>
    ensures { IfOk result (λ rows. ListsAt components.MaxCount (at_values site.now) untold site.now rows.items) }
{
    site.recall();
    counted(site, Component::MaxCount, End::Most, site.values().len())
}
