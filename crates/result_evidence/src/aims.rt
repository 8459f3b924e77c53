//! The least shape and focus node that give a result.
ghost use Rattle.std.specs.Prelude.{◌≡◌, ◌↔◌, ◌<◌, IfOk, IsTrue, MatchOption, length};
ghost use Rattle.std.specs.List.{All, list_any};
ghost use Rattle.std.specs.Ordering.{eq_by_cmp};
ghost use Rattle.shape_model.specs.Rows.{result_row_cmp};
ghost use Rattle.std.specs.declared.cmp.Ordering.TheVariants.{Less};
ghost use Rattle.rdf_model.specs.Numbers.{graph_of, term_at};
ghost use Rattle.rdf_model.specs.Terms.{term_cmp};
ghost use Rattle.shape_model.specs.Validation.{At};
ghost use Rattle.target_nodes.specs.ShapeTargets.{AreTargets, AtShape};
ghost use Rattle.evidence_blocks.specs.Blocks.{IsLeastAim};
ghost use Rattle.result_evidence.specs.Standing.{ForEach, ForShape, IsLeastIn, IsLeastWith, IsSomeResult};
ghost use Rattle.result_evidence.specs.Aims.{IsAnyAim, IsLeastTarget};

use component_rows::named;
use rdf_model::{Footprint, Names, Triples};
use shape_eval::{Evaluation, Matchers, Steps, eval, permit};
use shape_model::ResultRow;
use std::alloc::AllocError;
use std::cmp::Ordering;
use std::sync::ledger::Ledger;
use target_nodes::targets;

/// A shape, by its place, and one of its targets.
#[derive(Clone, Copy, Debug)]
pub(crate) struct Aim {
    pub(crate) place: usize,
    pub(crate) focus: u32,
}

// Whether the row is among the rows.
fn has_row(rows: &[ResultRow], row: &ResultRow) -> bool
    ensures { result ≡ list_any (eq_by_cmp result_row_cmp row.now) rows.now }
{
    rows.iter().any(|other| *row == *other)
}

// Whether the shape at the place gives the result at a focus node.
fn gives_row<R: Triples, N: Names, L: Ledger>(
    evaluation: &Evaluation<'_, R, N>,
    place: usize,
    focus: u32,
    row: &ResultRow,
    steps: &mut Steps<L>,
) -> Result<bool, AllocError>
    requires place { place < length evaluation.now.shapes }
    requires focus { focus < length evaluation.now.terms }
    ensures { IfOk result (λ answer. ForShape evaluation.now.terms evaluation.now.shapes place
        (λ s shape. IsTrue answer ↔ At (graph_of evaluation.now.terms evaluation.now.ids) s shape (term_at evaluation.now.terms focus) row.now)) }
{
    let mut looks = Footprint::new(evaluation.alloc());
    let allowed = permit(steps);
    let mut matchers = Matchers::new(evaluation.alloc());
    let rows = eval(evaluation, place, focus, &mut looks, &mut matchers, allowed)?;
    Ok(has_row(rows.as_slice(), row))
}

// Whether a node comes before the least one so far, if there is one.
fn comes_first<N: Names>(names: &N, node: u32, least: Option<u32>) -> bool
    requires node { node < length (N.terms names.now) }
    requires least { MatchOption least (Unit {0}) (λ m. m < length (N.terms names.now)) }
    ensures { MatchOption least (IsTrue result) (λ m. IsTrue result ↔ (term_cmp (term_at (N.terms names.now) node) (term_at (N.terms names.now) m) ≡ Less)) }
{
    match least {
        None => true,
        Some(other) => match named(names, node).cmp(named(names, other)) {
            Ordering::Less => true,
            _ => false,
        },
    }
}

// The least of the nodes so far and this one at which the shape gives the result.
fn least_with<R: Triples, N: Names, L: Ledger>(
    evaluation: &Evaluation<'_, R, N>,
    names: &N,
    place: usize,
    node: u32,
    least: Option<u32>,
    row: &ResultRow,
    steps: &mut Steps<L>,
) -> Result<Option<u32>, AllocError>
    requires names { N.terms names.now ≡ evaluation.now.terms }
    requires place { place < length evaluation.now.shapes }
    requires node { node < length evaluation.now.terms }
    requires least { MatchOption least (Unit {0}) (λ m. m < length evaluation.now.terms) }
    ensures least { IfOk result (λ found. ForShape evaluation.now.terms evaluation.now.shapes place
        (λ s shape. IsLeastWith evaluation.now.terms (λ f. At (graph_of evaluation.now.terms evaluation.now.ids) s shape f row.now) node least found)) }
    ensures number { IfOk result (λ found. MatchOption found (Unit {0}) (λ m. m < length evaluation.now.terms)) }
{
    let first = comes_first(names, node, least);
    if !first {
        return Ok(least);
    }
    let gives = gives_row(evaluation, place, node, row, steps)?;
    if gives {
        return Ok(Some(node));
    }
    Ok(least)
}

// The least of the nodes at which the shape gives the result, in the order of terms.
fn least_focus<R: Triples, N: Names, L: Ledger>(
    evaluation: &Evaluation<'_, R, N>,
    names: &N,
    place: usize,
    nodes: &[u32],
    row: &ResultRow,
    steps: &mut Steps<L>,
) -> Result<Option<u32>, AllocError>
    requires names { N.terms names.now ≡ evaluation.now.terms }
    requires place { place < length evaluation.now.shapes }
    requires nodes { All (λ n. n < length evaluation.now.terms) nodes.now }
    ensures { IfOk result (λ least. ForShape evaluation.now.terms evaluation.now.shapes place
        (λ s shape. IsLeastIn evaluation.now.terms (λ f. At (graph_of evaluation.now.terms evaluation.now.ids) s shape f row.now) nodes.now least)) }
{
    let mut least = None;
    for node in nodes {
        least = least_with(evaluation, names, place, *node, least, row, steps)?;
    }
    Ok(least)
}

/// The targets of the shape at the place.
pub(crate) fn targets_of<R: Triples, N: Names>(
    evaluation: &Evaluation<'_, R, N>,
    place: usize,
) -> Result<Vec<u32>, AllocError>
    requires { place < length evaluation.now.shapes }
    ensures targets { IfOk result (λ found. AtShape evaluation.now.terms evaluation.now.shapes place (λ s own. AreTargets evaluation.now.terms evaluation.now.ids s own found.items)) }
    ensures numbers { IfOk result (λ found. All (λ n. n < length evaluation.now.terms) found.items) }
{
    evaluation.recall();
    let (graph, words, bound) = (evaluation.graph(), evaluation.words(), evaluation.bound());
    targets(evaluation.alloc(), graph, words, bound, place)
}

// The least target of the shape at which it gives the result, in the order of terms.
fn least_target<R: Triples, N: Names, L: Ledger>(
    evaluation: &Evaluation<'_, R, N>,
    names: &N,
    place: usize,
    row: &ResultRow,
    steps: &mut Steps<L>,
) -> Result<Option<u32>, AllocError>
    requires names { N.terms names.now ≡ evaluation.now.terms }
    requires place { place < length evaluation.now.shapes }
    ensures { IfOk result (λ least. ForShape evaluation.now.terms evaluation.now.shapes place
        (λ s shape. IsLeastTarget evaluation.now.terms evaluation.now.ids s row.now shape least)) }
{
    let nodes = targets_of(evaluation, place)?;
    least_focus(evaluation, names, place, nodes.as_slice(), row, steps)
}

// The least shape and target that give the result, if any do.
fn least_aim<R: Triples, N: Names, L: Ledger>(
    evaluation: &Evaluation<'_, R, N>,
    names: &N,
    row: &ResultRow,
    steps: &mut Steps<L>,
) -> Result<Option<Aim>, AllocError>
    requires names { N.terms names.now ≡ evaluation.now.terms }
    ensures { IfOk result (λ found. ForEach evaluation.now.terms evaluation.now.shapes
        (λ s. IsAnyAim evaluation.now.terms evaluation.now.ids evaluation.now.shapes s row.now found)) }
{
    let bound = evaluation.bound();
    for place in 0..bound.shapes.len() {
        let least = least_target(evaluation, names, place, row, steps)?;
        match least {
            Some(focus) => return Ok(Some(Aim { place, focus })),
            None => {}
        }
    }
    Ok(None)
}

/// The least shape and target that give a result.
pub(crate) fn aim_of<R: Triples, N: Names, L: Ledger>(
    evaluation: &Evaluation<'_, R, N>,
    names: &N,
    row: &ResultRow,
    steps: &mut Steps<L>,
) -> Result<Aim, AllocError>
    requires names { N.terms names.now ≡ evaluation.now.terms }
    requires row { IsSomeResult evaluation.now.terms evaluation.now.ids evaluation.now.shapes row.now }
    ensures place { IfOk result (λ aim. (aim.place < length evaluation.now.shapes) × (aim.focus < length evaluation.now.terms)) }
    ensures least { IfOk result (λ aim. ForShape evaluation.now.terms evaluation.now.shapes aim.place
        (λ s shape. IsLeastAim (graph_of evaluation.now.terms evaluation.now.ids) s row.now shape (term_at evaluation.now.terms aim.focus))) }
{
    let found = least_aim(evaluation, names, row, steps)?;
    match found {
        Some(aim) => Ok(aim),
        None => unreachable!(),
    }
}
