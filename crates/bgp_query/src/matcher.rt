//! Sets of triples that patterns can be asked of.
ghost use Rattle.std.specs.Prelude.{IfOk};
ghost use Rattle.triple_index.specs.Patterns.{IsMatch, ListsOnce};

use overlay_view::Overlay;
use rdf_model::{Ids, Triples};
use std::alloc::AllocError;
use triple_index::Index;

/// A set of triples that answers patterns.
pub trait Matcher: Triples {
    /// The triples with these numbers at their places, where `None` stands for any number: each once, in
    /// no order that is told.
    fn find_pattern(
        &self,
        subject: Option<u32>,
        predicate: Option<u32>,
        object: Option<u32>,
    ) -> Result<Vec<Ids>, AllocError>
        ensures { IfOk result (λ found. ListsOnce (IsMatch subject predicate object (Self.triples self.now)) found.items) };
}

impl Matcher for Index {
    fn find_pattern(
        &self,
        subject: Option<u32>,
        predicate: Option<u32>,
        object: Option<u32>,
    ) -> Result<Vec<Ids>, AllocError> {
        Ok(Index::find_pattern(self, subject, predicate, object)?)
    }
}

impl<'a> Matcher for Overlay<'a, Index> {
    fn find_pattern(
        &self,
        subject: Option<u32>,
        predicate: Option<u32>,
        object: Option<u32>,
    ) -> Result<Vec<Ids>, AllocError> {
        Ok(Overlay::find_pattern(self, subject, predicate, object)?)
    }
}
