//! The components qualified-min-count and qualified-max-count (SHACL section 4.7.3).
ghost use Rattle.std.specs.Prelude.{◌≡◌, ◌<◌, ◌↔◌, ◌∷◌, IfOk, IsTrue, length, map};
ghost use Rattle.std.specs.List.{Contains};
ghost use Rattle.rdf_model.specs.Numbers.{term_at};
ghost use Rattle.shape_model.specs.declared.component.Component.TheVariants as components;
ghost use Rattle.component_rows.specs.Answers.{Tells};
ghost use Rattle.component_rows.specs.Conformance.{AreTold, told_shapes};
ghost use Rattle.component_rows.specs.Sites.{ListsAt};
ghost use Rattle.qualified_shapes.specs.Qualified.{Qualifies, with_qualified};

use component_rows::{End, Site, count_all, count_yes, counted};
use rdf_model::Names;
use shape_model::{Component, ResultRow};
use std::alloc::{AllocError, Global};

// Whether the node at the place conforms to the first shape and to no other.
fn qualifies(answers: &[Vec<bool>], at: usize) -> bool
    requires some { 0 < length answers.now }
    requires places { (a : _) → Contains answers.now a → at < length a.items }
    ensures { IsTrue result ↔ Qualifies (map (λ a. a.items) answers.now) at }
{
    answers[0][at] && count_yes(answers, at) == 1
}

// Whether the node at each place does.
fn are_qualified(
    alloc: Global,
    places: usize,
    answers: &[Vec<bool>],
) -> Result<Vec<bool>, AllocError>
    requires some { 0 < length answers.now }
    requires places { (a : _) → Contains answers.now a → length a.items ≡ places }
    ensures { IfOk result (λ told. Tells (Qualifies (map (λ a. a.items) answers.now)) places told.items) }
{
    let mut told = Vec::with_capacity(alloc, places)?;
    for at in 0..places {
        told.push(qualifies(answers, at))?;
    }
    Ok(told)
}

/// The results of sh:qualifiedMinCount (SHACL section 4.7.3): one where fewer value nodes than the parameter says
/// conform to the shape and to no sibling. There is a list of answers for the shape, then one for each sibling.
pub fn qualified_min_count<N: Names>(
    site: &Site<'_, N>,
    shape: u32,
    siblings: &[u32],
    answers: &[Vec<bool>],
) -> Result<Vec<ResultRow>, AllocError>
    requires shape { shape < length site.now.terms }
    requires siblings { (n : _) → Contains siblings.now n → n < length site.now.terms }
    requires answers { AreTold (shape ∷ siblings.now) site.now.values (map (λ a. a.items) answers.now) }
    ensures { IfOk result (λ rows. ListsAt components.QualifiedMinCount (told_shapes site.now.terms (shape ∷ siblings.now) site.now.values (map (λ a. a.items) answers.now))
        (with_qualified (term_at site.now.terms shape) (map (term_at site.now.terms) siblings.now)) site.now rows.items) }
{
    site.recall();
    let places = site.values().len();
    let number = count_all(&are_qualified(site.alloc(), places, answers)?);
    counted(site, Component::QualifiedMinCount, End::Least, number)
}

/// The results of sh:qualifiedMaxCount (SHACL section 4.7.3): one where more value nodes than the parameter says
/// conform to the shape and to no sibling. There is a list of answers for the shape, then one for each sibling.
pub fn qualified_max_count<N: Names>(
    site: &Site<'_, N>,
    shape: u32,
    siblings: &[u32],
    answers: &[Vec<bool>],
) -> Result<Vec<ResultRow>, AllocError>
    requires shape { shape < length site.now.terms }
    requires siblings { (n : _) → Contains siblings.now n → n < length site.now.terms }
    requires answers { AreTold (shape ∷ siblings.now) site.now.values (map (λ a. a.items) answers.now) }
    ensures { IfOk result (λ rows. ListsAt components.QualifiedMaxCount (told_shapes site.now.terms (shape ∷ siblings.now) site.now.values (map (λ a. a.items) answers.now))
        (with_qualified (term_at site.now.terms shape) (map (term_at site.now.terms) siblings.now)) site.now rows.items) }
{
    site.recall();
    let places = site.values().len();
    let number = count_all(&are_qualified(site.alloc(), places, answers)?);
    counted(site, Component::QualifiedMaxCount, End::Most, number)
}
