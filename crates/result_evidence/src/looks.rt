//! The looks of a shape at a focus node, by their terms.
ghost use Rattle.std.specs.Prelude.{[], ◌≡◌, ◌<◌, IfOk, OnOk, length, map};
ghost use Rattle.std.specs.List.{All, Contains};
ghost use Rattle.collections.specs.Listings.{IsListing};
ghost use Rattle.rdf_model.specs.Numbers.{graph_of, term_at};
ghost use Rattle.shape_model.specs.NodeLooks.{IsLook};
ghost use Rattle.shape_model.specs.Readings.{reading};
ghost use Rattle.shape_model.specs.ShapeLooks.{Looks, TargetLook};
ghost use Rattle.target_nodes.specs.ShapeTargets.{AtShape};
ghost use Rattle.path_eval.specs.Naming.{AddsLooks, IsBoundLook, look_of};
ghost use Rattle.evidence_blocks.specs.LookOrder.{look_cmp};
ghost use Rattle.result_evidence.specs.Standing.{ForShape, HasNumbers, HaveGraph};

use collections::{both, sorted_once};
use component_rows::named;
use evidence_blocks::ListedLook;
use rdf_model::{Footprint, Look, Names, Triples};
use shape_eval::{Evaluation, Matchers, Steps, eval, permit};
use std::alloc::{AllocError, Global};
use std::sync::ledger::Ledger;
use target_nodes::is_target;

// The looks of the shape's targets at a node.
fn target_looks<R: Triples, N: Names>(
    evaluation: &Evaluation<'_, R, N>,
    place: usize,
    focus: u32,
    looks: &mut Footprint,
) -> Result<(), AllocError>
    requires place { place < length evaluation.now.shapes }
    requires focus { focus < length evaluation.now.terms }
    ensures { OnOk result (AtShape evaluation.now.terms evaluation.now.shapes place
        (λ s own. AddsLooks evaluation.now.terms (IsLook (graph_of evaluation.now.terms evaluation.now.ids) (TargetLook (reading s own)) (term_at evaluation.now.terms focus)) looks.old looks.new)) }
{
    evaluation.recall();
    let (graph, words, bound) = (evaluation.graph(), evaluation.words(), evaluation.bound());
    is_target(evaluation.alloc(), graph, words, bound, place, focus, looks)?;
    Ok(())
}

// The looks of the shape at the place at a focus node, those of its targets among them.
fn looks_at<R: Triples, N: Names, L: Ledger>(
    evaluation: &Evaluation<'_, R, N>,
    place: usize,
    focus: u32,
    steps: &mut Steps<L>,
) -> Result<Footprint, AllocError>
    requires place { place < length evaluation.now.shapes }
    requires focus { focus < length evaluation.now.terms }
    ensures { IfOk result (λ looks. ForShape evaluation.now.terms evaluation.now.shapes place
        (λ s shape. AddsLooks evaluation.now.terms (IsLook (graph_of evaluation.now.terms evaluation.now.ids) (Looks s shape) (term_at evaluation.now.terms focus)) [] looks)) }
{
    let mut looks = Footprint::new(evaluation.alloc());
    target_looks(evaluation, place, focus, &mut looks)?;
    let allowed = permit(steps);
    let mut matchers = Matchers::new(evaluation.alloc());
    eval(evaluation, place, focus, &mut looks, &mut matchers, allowed)?;
    Ok(looks)
}

// A look by its terms.
fn listed_look<N: Names>(names: &N, look: &Look<u32>) -> Result<ListedLook, AllocError>
    requires { IsBoundLook (length (N.terms names.now)) look.now }
    ensures { IfOk result (λ listed. listed ≡ look_of (N.terms names.now) look.now) }
{
    match look {
        Look::Out(subject, predicate) => {
            let (x, p) = both(
                named(names, *subject).clone(),
                named(names, *predicate).clone(),
            )?;
            Ok(ListedLook {
                look: Look::Out(x, p),
            })
        }
        Look::In(predicate, object) => {
            let (p, x) = both(
                named(names, *predicate).clone(),
                named(names, *object).clone(),
            )?;
            Ok(ListedLook {
                look: Look::In(p, x),
            })
        }
        Look::OutAny(subject) => Ok(ListedLook {
            look: Look::OutAny(named(names, *subject).clone()?),
        }),
    }
}

/// Looks by their terms.
pub fn listed_looks<N: Names>(
    alloc: Global,
    names: &N,
    looks: &[Look<u32>],
) -> Result<Vec<ListedLook>, AllocError>
    requires { All (IsBoundLook (length (N.terms names.now))) looks.now }
    ensures { IfOk result (λ listed. listed.items ≡ map (look_of (N.terms names.now)) looks.now) }
{
    let mut listed = Vec::with_capacity(alloc, looks.len())?;
    for look in looks {
        listed.push(listed_look(names, look)?)?;
    }
    Ok(listed)
}

/// The looks of the shape at the place at a focus node, those of its targets among them, each once, in order.
pub(crate) fn looks_of<R: Triples, N: Names, L: Ledger>(
    evaluation: &Evaluation<'_, R, N>,
    names: &N,
    place: usize,
    focus: u32,
    steps: &mut Steps<L>,
) -> Result<Vec<ListedLook>, AllocError>
    requires names { N.terms names.now ≡ evaluation.now.terms }
    requires graph { HaveGraph evaluation.now.terms evaluation.now.shapes }
    requires place { place < length evaluation.now.shapes }
    requires focus { focus < length evaluation.now.terms }
    ensures looks { IfOk result (λ looks. ForShape evaluation.now.terms evaluation.now.shapes place
        (λ s shape. IsListing look_cmp (IsLook (graph_of evaluation.now.terms evaluation.now.ids) (Looks s shape) (term_at evaluation.now.terms focus)) looks.items)) }
    ensures numbers { IfOk result (λ looks. All (HasNumbers evaluation.now.terms) looks.items) }
{
    let looks = looks_at(evaluation, place, focus, steps)?;
    let listed = listed_looks(evaluation.alloc(), names, looks.looks())?;
    sorted_once(listed)
}
