//! The components not, and, or, xone and node (SHACL sections 4.6 and 4.7.1).
ghost use Rattle.std.specs.Prelude.{◌<◌, ◌∷◌, [], IfOk, length, map};
ghost use Rattle.std.specs.List.{Contains};
ghost use Rattle.rdf_model.specs.Numbers.{term_at};
ghost use Rattle.shape_model.specs.declared.component.Component.TheVariants as components;
ghost use Rattle.component_rows.specs.Conformance.{AreTold, told_shapes};
ghost use Rattle.component_rows.specs.Listed.{untold, with_list};
ghost use Rattle.component_rows.specs.Sites.{ListsAt};

use crate::demand::{Demand, unmet};
use component_rows::Site;
use rdf_model::Names;
use shape_model::{Component, ResultRow};
use std::alloc::AllocError;

/// The results of sh:not (SHACL section 4.6.1): one about each value node that conforms to the shape, the
/// parameter, to which there is one list of answers.
pub fn not<N: Names>(
    site: &Site<'_, N>,
    answers: &[Vec<bool>],
) -> Result<Vec<ResultRow>, AllocError>
    requires { AreTold (site.now.parameter ∷ []) site.now.values (map (λ a. a.items) answers.now) }
    ensures { IfOk result (λ rows. ListsAt components.Not (told_shapes site.now.terms (site.now.parameter ∷ []) site.now.values (map (λ a. a.items) answers.now)) untold site.now rows.items) }
{
    site.recall();
    unmet(site, Component::Not, Demand::Neither, answers)
}

/// The results of sh:and (SHACL section 4.6.2): one about each value node, unless it conforms to all members of the
/// list, whose head is the parameter. There is a list of answers for each member.
pub fn and<N: Names>(
    site: &Site<'_, N>,
    members: &[u32],
    answers: &[Vec<bool>],
) -> Result<Vec<ResultRow>, AllocError>
    requires members { (n : _) → Contains members.now n → n < length site.now.terms }
    requires answers { AreTold members.now site.now.values (map (λ a. a.items) answers.now) }
    ensures { IfOk result (λ rows. ListsAt components.And (told_shapes site.now.terms members.now site.now.values (map (λ a. a.items) answers.now))
        (with_list (map (term_at site.now.terms) members.now)) site.now rows.items) }
{
    site.recall();
    unmet(site, Component::And, Demand::All, answers)
}

/// The results of sh:or (SHACL section 4.6.3): one about each value node that conforms to no member of the list,
/// whose head is the parameter. There is a list of answers for each member.
pub fn or<N: Names>(
    site: &Site<'_, N>,
    members: &[u32],
    answers: &[Vec<bool>],
) -> Result<Vec<ResultRow>, AllocError>
    requires members { (n : _) → Contains members.now n → n < length site.now.terms }
    requires answers { AreTold members.now site.now.values (map (λ a. a.items) answers.now) }
    ensures { IfOk result (λ rows. ListsAt components.Or (told_shapes site.now.terms members.now site.now.values (map (λ a. a.items) answers.now))
        (with_list (map (term_at site.now.terms) members.now)) site.now rows.items) }
{
    site.recall();
    unmet(site, Component::Or, Demand::Any, answers)
}

/// The results of sh:xone (SHACL section 4.6.4): one about each value node, unless it conforms to exactly one member
/// of the list, counted with repeats. The parameter is the list's head; there is a list of answers for each member.
pub fn xone<N: Names>(
    site: &Site<'_, N>,
    members: &[u32],
    answers: &[Vec<bool>],
) -> Result<Vec<ResultRow>, AllocError>
    requires members { (n : _) → Contains members.now n → n < length site.now.terms }
    requires answers { AreTold members.now site.now.values (map (λ a. a.items) answers.now) }
    ensures { IfOk result (λ rows. ListsAt components.Xone (told_shapes site.now.terms members.now site.now.values (map (λ a. a.items) answers.now))
        (with_list (map (term_at site.now.terms) members.now)) site.now rows.items) }
{
    site.recall();
    unmet(site, Component::Xone, Demand::One, answers)
}

/// The results of sh:node (SHACL section 4.7.1): one about each value node that doesn't conform to the shape, the
/// parameter, to which there is one list of answers.
pub fn node<N: Names>(
    site: &Site<'_, N>,
    answers: &[Vec<bool>],
) -> Result<Vec<ResultRow>, AllocError>
    requires { AreTold (site.now.parameter ∷ []) site.now.values (map (λ a. a.items) answers.now) }
    ensures { IfOk result (λ rows. ListsAt components.Node (told_shapes site.now.terms (site.now.parameter ∷ []) site.now.values (map (λ a. a.items) answers.now)) untold site.now rows.items) }
{
    site.recall();
    unmet(site, Component::Node, Demand::All, answers)
}
