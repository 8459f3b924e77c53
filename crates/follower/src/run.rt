// Kept records applied in turn.
ghost use Rattle.std.specs.Prelude.{◌≡◌, ◌+◌, ◌<◌, ◌^◌, IfOk, List, length};
ghost use Rattle.std.specs.List.{AllByRecursion};
ghost use Rattle.collections.specs.Ordered.{IsAscending};
ghost use Rattle.rdf_model.specs.declared.triple.Triple.{Triple as TripleData};
ghost use Rattle.rdf_model.specs.Numbers.{AreNumbered};
ghost use Rattle.rdf_model.specs.Terms.{triple_cmp};
ghost use Rattle.follower.specs.Numbered.{IsIndexOf, IsNamedRecord};
ghost use Rattle.follower.specs.Versions.{IsRun};

use crate::version::{Outcome, Version, version_after};
use collections::Sequence;
use record_text::Record;
use std::alloc::{AllocError, Global};
use term_dict::Dict;

/// The versions after the records that were applied in turn, and the number of the one that was dropped.
pub(crate) struct AppliedRecords {
    pub(crate) versions: Sequence<Version>,
    pub(crate) dropped: Option<u64>,
}

// Written by hand, so that what owns one calls it in place of having it written out.
impl Drop for AppliedRecords {
    fn drop(self) {
        let AppliedRecords {
            versions: _,
            dropped: _,
        } = self;
    }
}

impl AppliedRecords {
    /// The versions, and the number of the record that was dropped.
    pub(crate) fn into_parts(self) -> (Vec<Version>, Option<u64>)
        ensures versions { result.0.items ≡ self.versions }
        ensures dropped { result.1 ≡ self.dropped }
    {
        let AppliedRecords { versions, dropped } = self;
        (versions.into_vec(), dropped)
    }
}

/// A version and those after it, as far as kept records follow without a gap and fit.
pub(crate) fn run_on(
    alloc: Global,
    names: &Dict,
    number: u64,
    first: &Version,
    kept: &[Record],
) -> Result<AppliedRecords, AllocError>
    requires named { AllByRecursion (IsNamedRecord names.now.terms) kept.now }
    requires numbered { AreNumbered names.now.terms first.now.graph }
    requires few { number + length kept.now < 2 ^ 64 }
    ensures { IfOk result (λ run. (g : List TripleData) → IsAscending triple_cmp g → IsIndexOf names.now.terms first.now.graph g →
        IsRun names.now.terms number g first.now kept.now run.versions run.dropped) }
{
    let mut versions = Sequence::new(alloc);
    versions.push(first.share()?)?;
    let mut current = first.share()?;
    let mut newest = number;
    for next in kept {
        if next.number != newest + 1 {
            return Ok(AppliedRecords {
                versions,
                dropped: None,
            });
        }
        match version_after(alloc, names, &current, next)? {
            Outcome::Misfit(_) => {
                return Ok(AppliedRecords {
                    versions,
                    dropped: Some(next.number),
                });
            }
            Outcome::Next(version) => {
                versions.push(version.share()?)?;
                current = version;
            }
        }
        newest += 1;
    }
    Ok(AppliedRecords {
        versions,
        dropped: None,
    })
}
