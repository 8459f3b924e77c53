// The graphs of a version, and those after one record more.
ghost use Rattle.std.specs.Prelude.{◌≡◌, [], IfOk, OnOk, List};
ghost use Rattle.collections.specs.Ordered.{IsAscending};
ghost use Rattle.rdf_model.specs.declared.triple.Triple.{Triple as TripleData};
ghost use Rattle.rdf_model.specs.Graphs.{with_each};
ghost use Rattle.rdf_model.specs.Numbers.{AreNumbered};
ghost use Rattle.rdf_model.specs.Terms.{triple_cmp};
ghost use Rattle.follower.specs.Numbered.{IsIndexOf, IsNamedRecord};
ghost use Rattle.follower.specs.Records.{staged_over};
ghost use Rattle.follower.specs.Versions.{Follows, IsNumberedOutcome};

use crate::misfit::least_misfit;
use crate::numbering::index_after;
use collections::Sequence;
use page_index::Pages;
use rdf_model::Triple;
use record_text::Record;
use std::alloc::{AllocError, Global};
use term_dict::Dict;
use triple_index::Index;

/// The graphs of a version: the data graph by the numbers of its terms, and the shapes graph.
pub(crate) struct Version {
    pub(crate) graph: Index,
    pub(crate) shapes: Pages<Triple>,
}

// Written by hand, so that what owns one calls it in place of having it written out.
impl Drop for Version {
    fn drop(self) {
        let Version {
            graph: _,
            shapes: _,
        } = self;
    }
}

/// The version after a record, or the least triple of the record that misfits.
#[derive(Drop)]
pub(crate) enum Outcome {
    Next(Version),
    Misfit(Triple),
}

impl Version {
    /// The version before the first record. It takes no memory.
    pub(crate) fn first(alloc: Global) -> Version
        ensures graph { result.graph ≡ [] }
        ensures shapes { result.shapes ≡ [] }
    {
        Version {
            graph: Index::new(alloc),
            shapes: Pages::new(alloc),
        }
    }

    /// Another version with the same graphs, of which it copies nothing.
    pub(crate) fn share(&self) -> Result<Version, AllocError>
        ensures { IfOk result (λ share. share ≡ self.now) }
    {
        Ok(Version {
            graph: self.graph.share()?,
            shapes: self.shapes.share()?,
        })
    }

    /// The data graph, and the shapes graph.
    pub(crate) fn into_parts(self) -> (Index, Pages<Triple>)
        ensures { result ≡ (self.graph, self.shapes) }
    {
        let Version { graph, shapes } = self;
        (graph, shapes)
    }
}

// The triples in their order, each once.
fn pages_of(alloc: Global, triples: &[Triple]) -> Result<Pages<Triple>, AllocError>
    ensures { IfOk result (λ pages. pages ≡ with_each [] triples.now) }
{
    let mut pages = Pages::new(alloc);
    for triple in triples {
        pages.insert(triple.clone()?)?;
    }
    Ok(pages)
}

// The shapes graph that was staged, or the one before.
fn shapes_after(
    alloc: Global,
    before: &Pages<Triple>,
    staged: &Option<Sequence<Triple>>,
) -> Result<Pages<Triple>, AllocError>
    ensures { IfOk result (λ shapes. shapes ≡ staged_over before.now staged.now) }
{
    match staged {
        Some(triples) => pages_of(alloc, triples.as_slice()),
        None => before.share(),
    }
}

/// What a record makes of a version.
pub(crate) fn version_after(
    alloc: Global,
    names: &Dict,
    version: &Version,
    next: &Record,
) -> Result<Outcome, AllocError>
    requires named { IsNamedRecord names.now.terms next.now }
    requires numbered { AreNumbered names.now.terms version.now.graph }
    ensures outcome { IfOk result (λ outcome. (g : List TripleData) → IsAscending triple_cmp g → IsIndexOf names.now.terms version.now.graph g →
        Follows names.now.terms g version.now.shapes next.now outcome) }
    ensures numbered { IfOk result (IsNumberedOutcome names.now.terms) }
{
    match least_misfit(alloc, names, &version.graph, next)? {
        Some(triple) => Ok(Outcome::Misfit(triple)),
        None => {
            let graph = index_after(alloc, names, &version.graph, next)?;
            let shapes = shapes_after(alloc, &version.shapes, &next.shapes)?;
            Ok(Outcome::Next(Version { graph, shapes }))
        }
    }
}
