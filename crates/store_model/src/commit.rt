//! Transactions, their verdicts and accepted commits.
use collections::Sequence;
use numbered_lists::Net;
use rdf_model::{Look, Pattern, Term, Triple};
use shapes_graph::ShapesGraph;
use std::alloc::AllocError;

/// What a validation beside the store found: nothing, at the version of a head, by these looks.
#[derive(Debug)]
pub struct Verdict {
    pub head: u64,
    pub looks: Sequence<Look<Term>>,
}

// Written by hand, so that what owns one calls it in place of having it written out.
impl Drop for Verdict {
    fn drop(self) {
        let Verdict { head: _, looks: _ } = self;
    }
}

/// A transaction, as its commit hands it in.
#[derive(Debug)]
pub struct Transaction {
    /// The version at its begin.
    pub base: u64,
    /// Its changes, in order.
    pub net: Net,
    /// The shapes graph that is to replace the store's.
    pub staged: Option<ShapesGraph>,
    /// What its finds asked for.
    pub finds: Sequence<Pattern>,
    pub verdict: Option<Verdict>,
}

// Written by hand, so that what owns one calls it in place of having it written out.
impl Drop for Transaction {
    fn drop(self) {
        let Transaction {
            base: _,
            net: _,
            staged: _,
            finds: _,
            verdict: _,
        } = self;
    }
}

/// Why a commit evaluated again in its own step, at the commit that made it so.
#[derive(Debug)]
pub enum Again {
    /// It did not: the verdict held.
    No,
    /// The transaction stages shapes.
    OwnShapes,
    /// There was no verdict.
    NoVerdict,
    /// This commit staged shapes after the verdict's head.
    ShapesChanged(u64),
    /// This commit changed this triple, which the verdict read.
    Touched(u64, Triple),
}

// Written by hand, so that what owns one calls it in place of having it written out.
impl Drop for Again {
    fn drop(self) {
        match self {
            Again::No => {}
            Again::OwnShapes => {}
            Again::NoVerdict => {}
            Again::ShapesChanged(_) => {}
            Again::Touched(_, _) => {}
        }
    }
}

impl Clone for Again {
    ghost use Rattle.std.specs.Prelude.{◌≡◌};

    ghost is_clone = { λ source copy. copy ≡ source };

    fn clone(&self) -> Result<Again, AllocError> {
        match self {
            Again::No => Ok(Again::No),
            Again::OwnShapes => Ok(Again::OwnShapes),
            Again::NoVerdict => Ok(Again::NoVerdict),
            Again::ShapesChanged(commit) => Ok(Again::ShapesChanged(*commit)),
            Again::Touched(commit, triple) => Ok(Again::Touched(*commit, triple.clone()?)),
        }
    }
}

/// An accepted commit: the triples that are in exactly one of the graphs before and after it,
/// ascending, and whether it staged shapes.
#[derive(Debug, Drop)]
pub struct Accepted {
    pub changed: Sequence<Triple>,
    pub staged: bool,
}

/// A commit that overtook a transaction, by its number, and the first triple of it that a find of
/// the transaction asked for.
#[derive(Debug, Drop)]
pub struct Overtaker {
    pub commit: u64,
    pub triple: Triple,
}
