//! What a pattern finds in an overlay over an index.
ghost use Rattle.std.specs.Prelude.{◌≡◌, ◌&&◌, IfOk, filter};
ghost use Rattle.triple_index.specs.Patterns.{IsMatch, ListsOnce};
ghost use Rattle.overlay_view.specs.Overlays.{is_left, overlaid};

use crate::kept::stays;
use crate::overlay::Overlay;
use rdf_model::Ids;
use std::alloc::{AllocError, Global};
use triple_index::Index;

// The triples that are neither removed nor added.
fn left_triples(
    alloc: Global,
    removed: &Index,
    added: &Index,
    triples: &[Ids],
) -> Result<Vec<Ids>, AllocError>
    ensures { IfOk result (λ left. left.items ≡ filter (λ t. is_left removed.now t && is_left added.now t) triples.now) }
{
    let mut left = Vec::new(alloc);
    for triple in triples {
        if stays(removed, *triple) && stays(added, *triple) {
            left.push(*triple)?;
        }
    }
    Ok(left)
}

impl<'a> Overlay<'a, Index> {
    /// The triples with these numbers at their places, where `None` stands for any number: each once, in
    /// no order that is told.
    pub fn find_pattern(
        &self,
        subject: Option<u32>,
        predicate: Option<u32>,
        object: Option<u32>,
    ) -> Result<Vec<Ids>, AllocError>
        ensures { IfOk result (λ found. ListsOnce (IsMatch subject predicate object (overlaid self.now.base.now self.now.added self.now.removed)) found.items) }
    {
        let beneath = self.base.find_pattern(subject, predicate, object)?;
        let mut found = left_triples(self.alloc, &self.removed, &self.added, &beneath)?;
        let more = self.added.find_pattern(subject, predicate, object)?;
        found.extend_from_slice(&more)?;
        Ok(found)
    }
}
