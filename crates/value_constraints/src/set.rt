//! The components class, has-value and in (SHACL sections 4.1.1, 4.8.2 and 4.8.3).
ghost use Rattle.std.specs.Prelude.{◌≡◌, IfOk, length, map};
ghost use Rattle.std.specs.Ordering.{nat_cmp};
ghost use Rattle.collections.specs.Ordered.{IsAscending};
ghost use Rattle.rdf_model.specs.Numbers.{term_at};
ghost use Rattle.shape_model.specs.declared.component.Component.TheVariants as components;
ghost use Rattle.component_rows.specs.Listed.{untold, with_list};
ghost use Rattle.component_rows.specs.Nodes.{AreNodes};
ghost use Rattle.component_rows.specs.Sites.{ListsAt, at_values};
ghost use Rattle.value_constraints.specs.Answers.{AreAnswers, answered_nodes};

use component_rows::{Site, is_among, refused, row_alone};
use rdf_model::Names;
use shape_model::{Component, ResultRow};
use std::alloc::{AllocError, Global};

/// The results of sh:class (SHACL section 4.1.1): one about each value node that is no instance of the
/// class, by an answer to each value node.
pub fn class<N: Names>(site: &Site<'_, N>, answers: &[bool]) -> Result<Vec<ResultRow>, AllocError>
    requires { length answers.now ≡ length site.now.values }
    ensures { IfOk result (λ rows. ListsAt components.Class (answered_nodes site.now.terms site.now.values answers.now) untold site.now rows.items) }
{
    refused(site, Component::Class, answers)
}

/// The results of sh:hasValue (SHACL section 4.8.2): one where the parameter is no value node.
pub fn has_value<N: Names>(site: &Site<'_, N>) -> Result<Vec<ResultRow>, AllocError>
    ensures { IfOk result (λ rows. ListsAt components.HasValue (at_values site.now) untold site.now rows.items) }
{
    site.recall();
    let mut rows = Vec::new(site.alloc());
    if is_among(site.values(), site.parameter()) {
        return Ok(rows);
    }
    rows.push(row_alone(site, Component::HasValue)?)?;
    Ok(rows)
}

// Whether each number is one of some ascending ones.
fn are_among(alloc: Global, numbers: &[u32], members: &[u32]) -> Result<Vec<bool>, AllocError>
    requires { IsAscending nat_cmp members.now }
    ensures { IfOk result (λ answers. AreAnswers numbers.now members.now answers.items) }
{
    let mut answers = Vec::with_capacity(alloc, numbers.len())?;
    for number in numbers {
        answers.push(is_among(members, *number))?;
    }
    Ok(answers)
}

/// The results of sh:in (SHACL section 4.8.3): one about each value node that is none of the members of the
/// list, which are handed in ascending, each once. The parameter is the head of the list.
pub fn in_list<N: Names>(site: &Site<'_, N>, members: &[u32]) -> Result<Vec<ResultRow>, AllocError>
    requires { AreNodes site.now.terms members.now }
    ensures { IfOk result (λ rows. ListsAt components.In (at_values site.now) (with_list (map (term_at site.now.terms) members.now)) site.now rows.items) }
{
    site.recall();
    let answers = are_among(site.alloc(), site.values(), members)?;
    refused(site, Component::In, &answers)
}
