//! To how many shapes value nodes have to conform.
ghost use Rattle.std.specs.Prelude.{◌≡◌, ◌<◌, ◌↔◌, IfOk, IsTrue, length, map};
ghost use Rattle.std.specs.List.{Contains};
ghost use Rattle.shape_model.specs.Components.{ForEach};
ghost use Rattle.component_rows.specs.Listed.{Lists};
ghost use Rattle.component_rows.specs.Sites.{at_values, site_row};
ghost use Rattle.logic_constraints.specs.Demands.{AreMet, IsMet, Meets};

use component_rows::{Site, count_yes, refused};
use rdf_model::Names;
use shape_model::{Component, ResultRow};
use std::alloc::{AllocError, Global};

/// To how many of some shapes a value node has to conform.
#[derive(Clone, Copy)]
pub(crate) enum Demand {
    All,
    Any,
    One,
    Neither,
}

// Whether so many of the shapes are enough.
fn is_met(demand: Demand, yes: usize, shapes: usize) -> bool
    ensures { IsTrue result ↔ IsMet demand yes shapes }
{
    match demand {
        Demand::All => yes == shapes,
        Demand::Any => yes > 0,
        Demand::One => yes == 1,
        Demand::Neither => yes == 0,
    }
}

// Whether the demand is met at each place.
fn are_met(
    alloc: Global,
    demand: Demand,
    places: usize,
    answers: &[Vec<bool>],
) -> Result<Vec<bool>, AllocError>
    requires { (a : _) → Contains answers.now a → length a.items ≡ places }
    ensures { IfOk result (λ met. AreMet demand places (map (λ a. a.items) answers.now) met.items) }
{
    let mut met = Vec::with_capacity(alloc, places)?;
    for at in 0..places {
        met.push(is_met(demand, count_yes(answers, at), answers.len()))?;
    }
    Ok(met)
}

/// One result about each value node that doesn't conform to as many of the shapes as it has to.
pub(crate) fn unmet<N: Names>(
    site: &Site<'_, N>,
    component: Component,
    demand: Demand,
    answers: &[Vec<bool>],
) -> Result<Vec<ResultRow>, AllocError>
    requires { (a : _) → Contains answers.now a → length a.items ≡ length site.now.values }
    ensures { IfOk result (λ rows. Lists (ForEach (at_values site.now) (site_row component site.now)
        (λ v. Meets demand site.now.terms site.now.values (map (λ a. a.items) answers.now) v → ⊥)) rows.items) }
{
    site.recall();
    let places = site.values().len();
    let met = are_met(site.alloc(), demand, places, answers)?;
    refused(site, component, &met)
}
