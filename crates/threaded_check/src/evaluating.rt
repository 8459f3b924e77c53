//! The results of pairs of a shape and a node, which threads share out among each other.
ghost use Rattle.std.specs.Prelude.{[], ◌≡◌, ◌≤◌, ◌∷◌, ◌++◌, IfOk, OnOk};
ghost use Rattle.std.specs.List.{All, AllZip, flat_map};
ghost use Rattle.parallel_validate.specs.PairResults.{ListsPair};
ghost use Rattle.parallel_validate.specs.PairsResults.{AddsLooksOfPairs, ArePlacedPairs, HaveRows, StepsOfPairs};
ghost use Rattle.threaded_check.specs.Findings.{AddsRowLooks, IsFoundOf};
ghost use Rattle.threaded_check.specs.PermittedPairs.{AreAllowed, IsPermitted, pair_in};

use crate::pairs::{Found, PermittedPair, Share};
use crate::permits::shares_of;
use collections::Sequence;
use parallel_validate::CheckedRows;
use rayon::prelude::*;
use rdf_model::{Footprint, Look, Names, Triples};
use shape_eval::{Evaluation, Matchers, Steps, eval};
use shape_model::ResultRow;
use std::alloc::{AllocError, Global};
use std::sync::ledger::Ledger;
use std::thread::Threads;

// The results of the pair where an evaluation is permitted, and none where it isn't. The footprint takes their looks.
fn permitted_rows<'a, R: Triples, N: Names>(
    evaluation: &Evaluation<'a, R, N>,
    pair: PermittedPair,
    footprint: &mut Footprint,
    matchers: &mut Matchers<'a>,
) -> Result<Vec<ResultRow>, AllocError>
    requires { IsPermitted evaluation.now.terms evaluation.now.ids evaluation.now.shapes pair }
    ensures rows { IfOk result (λ rows. ListsPair evaluation.now.terms evaluation.now.ids evaluation.now.shapes pair.shape pair.focus rows.items) }
    ensures looks { OnOk result (AddsRowLooks evaluation.now.terms evaluation.now.ids evaluation.now.shapes (pair_in pair ∷ []) footprint.old footprint.new) }
{
    let PermittedPair {
        shape,
        focus,
        allowed,
    } = pair;
    match allowed {
        Some(allowed) => Ok(eval(
            evaluation,
            shape as usize,
            focus,
            footprint,
            matchers,
            allowed,
        )?),
        None => Ok(Vec::new(evaluation.alloc())),
    }
}

// The pair with its results.
fn checked_pair<'a, R: Triples, N: Names>(
    evaluation: &Evaluation<'a, R, N>,
    pair: PermittedPair,
    footprint: &mut Footprint,
    matchers: &mut Matchers<'a>,
) -> Result<CheckedRows, AllocError>
    requires { IsPermitted evaluation.now.terms evaluation.now.ids evaluation.now.shapes pair }
    ensures rows { IfOk result (λ checked. HaveRows evaluation.now.terms evaluation.now.ids evaluation.now.shapes (pair_in pair ∷ []) (checked ∷ [])) }
    ensures looks { OnOk result (AddsRowLooks evaluation.now.terms evaluation.now.ids evaluation.now.shapes (pair_in pair ∷ []) footprint.old footprint.new) }
{
    let (shape, focus) = (pair.shape, pair.focus);
    let rows = permitted_rows(evaluation, pair, footprint, matchers)?;
    Ok(CheckedRows {
        shape,
        focus,
        rows: Sequence::from_vec(rows),
    })
}

// What is found of the pairs of a share, one after another.
fn found_in<R: Triples, N: Names>(
    evaluation: &Evaluation<'_, R, N>,
    share: Share,
) -> Result<Found, AllocError>
    requires { AreAllowed evaluation.now.terms evaluation.now.ids evaluation.now.shapes share.pairs.items }
    ensures { IfOk result (λ found. IsFoundOf evaluation.now.terms evaluation.now.ids evaluation.now.shapes share found) }
{
    let mut matchers = Matchers::new(evaluation.alloc());
    let mut looks = Footprint::new(evaluation.alloc());
    let mut pairs = Vec::with_capacity(evaluation.alloc(), share.pairs.len())?;
    for pair in share.pairs {
        let checked = checked_pair(evaluation, pair, &mut looks, &mut matchers)?;
        pairs.push(checked)?;
    }
    Ok(Found { pairs, looks })
}

// What is found of each share, in their order, whichever thread found it.
fn found_in_shares<R: Triples + Sync, N: Names + Sync, T: Threads + Sync>(
    rt: &T,
    evaluation: &Evaluation<'_, R, N>,
    shares: Vec<Share>,
) -> Result<Vec<Found>, AllocError>
    requires shares { All (λ share. AreAllowed evaluation.now.terms evaluation.now.ids evaluation.now.shapes share.pairs.items) shares.items }
    ensures { IfOk result (λ found. AllZip (IsFoundOf evaluation.now.terms evaluation.now.ids evaluation.now.shapes) shares.items found.items) }
{
    let found: Result<Vec<Found>, AllocError> = shares
        .into_par_iter()
        .with_min_len(1)
        .map(
            |share: Share| -> Result<Found, AllocError>
                requires { AreAllowed evaluation.now.terms evaluation.now.ids evaluation.now.shapes share.pairs.items }
                ensures { IfOk result (λ found. IsFoundOf evaluation.entry.now.terms evaluation.entry.now.ids evaluation.entry.now.shapes share found) }
            { found_in(evaluation, share) },
        )
        .collect::<Result<Vec<Found>, AllocError>>(rt, evaluation.alloc())?;
    found
}

// The look once more.
fn same_look(look: &Look<u32>) -> Look<u32>
    ensures { result ≡ look.now }
{
    match look {
        Look::Out(subject, predicate) => Look::Out(*subject, *predicate),
        Look::In(predicate, object) => Look::In(*predicate, *object),
        Look::OutAny(subject) => Look::OutAny(*subject),
    }
}

// The footprint takes the looks over.
fn take_over(looks: &[Look<u32>], footprint: &mut Footprint) -> Result<(), AllocError>
    ensures { OnOk result (footprint.new ≡ footprint.old ++ looks.now) }
{
    for look in looks {
        footprint.add(same_look(look))?;
    }
    Ok(())
}

// All pairs that were found, one after another. The footprint takes all their looks over.
fn joined(
    alloc: Global,
    parts: Vec<Found>,
    footprint: &mut Footprint,
) -> Result<Vec<CheckedRows>, AllocError>
    ensures pairs { IfOk result (λ checked. checked.items ≡ flat_map (λ part. part.pairs.items) parts.items) }
    ensures looks { OnOk result (footprint.new ≡ footprint.old ++ flat_map (λ part. part.looks) parts.items) }
{
    let mut checked = Vec::new(alloc);
    for part in parts {
        let Found { pairs, looks } = part;
        let mut pairs = pairs;
        checked.append(&mut pairs)?;
        take_over(looks.looks(), footprint)?;
    }
    Ok(checked)
}

/// The pairs with their results. Each evaluation is counted, and they are shared out among threads.
pub(crate) fn rows_of_pairs<R: Triples + Sync, N: Names + Sync, L: Ledger, T: Threads + Sync>(
    rt: &T,
    evaluation: &Evaluation<'_, R, N>,
    pairs: &[(u32, u32)],
    footprint: &mut Footprint,
    steps: &mut Steps<L>,
) -> Result<Vec<CheckedRows>, AllocError>
    requires placed { ArePlacedPairs evaluation.now.terms evaluation.now.shapes pairs.now }
    ensures rows { IfOk result (λ checked. HaveRows evaluation.now.terms evaluation.now.ids evaluation.now.shapes pairs.now checked.items) }
    ensures looks { OnOk result (AddsLooksOfPairs evaluation.now.terms evaluation.now.ids evaluation.now.shapes pairs.now footprint.old footprint.new) }
    ensures steps { OnOk result (StepsOfPairs evaluation.now.terms evaluation.now.ids evaluation.now.shapes pairs.now steps.old steps.new) }
    ensures counted { steps.old ≤ steps.new }
{
    let shares = shares_of(evaluation, pairs, footprint, steps)?;
    let found = found_in_shares(rt, evaluation, shares)?;
    Ok(joined(evaluation.alloc(), found, footprint)?)
}
