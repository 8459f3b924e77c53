//! What checking the changes of a graph finds: the results of what they touch, and the looks.
ghost use Rattle.std.specs.Prelude.{◌≡◌, ◌≤◌, [], IfOk, OnOk, map};
ghost use Rattle.rdf_model.specs.Numbers.{AreNumbered};
ghost use Rattle.path_eval.specs.Naming.{look_of};
ghost use Rattle.parallel_validate.specs.Counting.{GrowsByCount};
ghost use Rattle.parallel_validate.specs.Verdicts.{AreBoundLooks, IsEvaluated};
ghost use Rattle.bound_shapes.specs.Bound.{IsBoundTo};
ghost use Rattle.data_graph.specs.Changes.{IsCheckByNumber, WhereChanged};

use crate::looks::read_looks;
use crate::pairs::numbered_pairs;
use bound_shapes::BoundShapes;
use collections::Sequence;
use kept_rows::PairRows;
use parallel_validate::Checked;
use rdf_model::{Footprint, Ids, Look, Term, Triples};
use shape_eval::Steps;
use std::alloc::{AllocError, Global};
use std::sync::ledger::Ledger;
use std::thread::Threads;
use term_dict::Dict;
use threaded_check::check_by_threads;
use triple_index::Index;

/// What checking changes found, by number: the touched pairs, each with its results after the changes, and all looks.
#[derive(Drop)]
pub(crate) struct NumberedCheck {
    pub(crate) pairs: Sequence<PairRows>,
    pub(crate) looks: Footprint,
}

/// What checking changes found by the pairs that they touch: each of these with the results that it has after them, and all looks
/// that were made.
#[derive(Debug)]
pub struct PairedChanges {
    pub pairs: Sequence<PairRows>,
    pub looks: Sequence<Look<Term>>,
}

// Written by hand, so that what owns one calls it in place of having it written out.
impl Drop for PairedChanges {
    fn drop(self) {
        let PairedChanges { pairs: _, looks: _ } = self;
    }
}

impl PairedChanges {
    // No pair and no look.
    pub(crate) fn empty(alloc: Global) -> PairedChanges
        ensures { result ≡ record { pairs = []; looks = [] } }
    {
        PairedChanges {
            pairs: Sequence::new(alloc),
            looks: Sequence::new(alloc),
        }
    }

    /// The pairs, and the looks.
    pub fn into_parts(self) -> (Sequence<PairRows>, Sequence<Look<Term>>)
        ensures { result ≡ (self.pairs, self.looks) }
    {
        let PairedChanges { pairs, looks } = self;
        (pairs, looks)
    }
}

/// What checking the changes finds, by number: by the triples that they add or remove, and those before and after them. Threads
/// share out the evaluations among each other.
pub(crate) fn check_by_number<S: Triples + Sync, L: Ledger, T: Threads + Sync>(
    rt: &T,
    alloc: Global,
    names: &Dict,
    before: &Index,
    later: &S,
    shapes: &BoundShapes,
    changed: &[Ids],
    steps: &mut Steps<L>,
) -> Result<NumberedCheck, AllocError>
    requires before { AreNumbered names.now.terms before.now }
    requires later { AreNumbered names.now.terms (S.triples later.now) }
    requires shapes { IsBoundTo names.now.terms shapes.now }
    requires changed { AreNumbered names.now.terms changed.now }
    ensures checked { IfOk result (λ checked. WhereChanged names.now.terms changed.now before.now (S.triples later.now) (λ net g. IsCheckByNumber names.now.terms g shapes.now.graph net checked.pairs checked.looks)) }
    ensures steps { OnOk result (WhereChanged names.now.terms changed.now before.now (S.triples later.now) (λ net g. GrowsByCount (IsEvaluated g shapes.now.graph net) steps.old steps.new)) }
    ensures counted { steps.old ≤ steps.new }
{
    names.recall_numbering();
    let planned = shapes.planned();
    let checked = check_by_threads(rt, alloc, before, later, names, planned, changed, steps)?;
    let Checked { pairs, looks } = checked;
    let numbered = numbered_pairs(alloc, planned, pairs)?;
    Ok(NumberedCheck {
        pairs: Sequence::from_vec(numbered),
        looks,
    })
}

/// What was found by pairs, with its looks by terms.
pub(crate) fn paired_changes(
    alloc: Global,
    names: &Dict,
    checked: NumberedCheck,
) -> Result<PairedChanges, AllocError>
    requires { AreBoundLooks names.now.terms checked.looks }
    ensures pairs { IfOk result (λ changes. changes.pairs ≡ checked.pairs) }
    ensures looks { IfOk result (λ changes. changes.looks ≡ map (look_of names.now.terms) checked.looks) }
{
    let NumberedCheck {
        pairs,
        looks: footprint,
    } = checked;
    let named = read_looks(alloc, names, footprint.looks())?;
    Ok(PairedChanges {
        pairs,
        looks: Sequence::from_vec(named),
    })
}
