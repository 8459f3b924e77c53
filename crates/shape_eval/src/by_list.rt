//! The results of components whose parameter is a list.
ghost use Rattle.std.specs.Prelude.{◌<◌, IfOk, length, map};
ghost use Rattle.std.specs.List.{All, Contains};
ghost use Rattle.std.specs.Ordering.{nat_cmp};
ghost use Rattle.collections.specs.Listings.{IsListing};
ghost use Rattle.rdf_model.specs.Numbers.{term_at};
ghost use Rattle.shape_model.specs.declared.component.Component.TheVariants as components;
ghost use Rattle.component_rows.specs.Listed.{with_list};
ghost use Rattle.component_rows.specs.Sites.{ListsAt, at_values};
ghost use Rattle.shape_ast.specs.Components.{list_component};

use collections::sorted_once;
use component_rows::Site;
use rdf_model::Names;
use shape_ast::{ListComponent, Members};
use shape_model::ResultRow;
use std::alloc::AllocError;
use string_constraints::language_in;
use value_constraints::in_list;

// The results of sh:in (SHACL section 4.8.3), whose members are handed in ascending too, each once.
fn in_rows_by<N: Names>(
    site: &Site<'_, N>,
    members: &[u32],
    ascending: &[u32],
) -> Result<Vec<ResultRow>, AllocError>
    requires members { All (λ n. n < length site.now.terms) members.now }
    requires ascending { IsListing nat_cmp (Contains members.now) ascending.now }
    ensures { IfOk result (λ rows. ListsAt components.In (at_values site.now) (with_list (map (term_at site.now.terms) members.now)) site.now rows.items) }
{
    let _ = members;
    in_list(site, ascending)
}

// The results of sh:in (SHACL section 4.8.3). Its members are sorted here where they aren't kept so.
fn in_rows<N: Names>(
    site: &Site<'_, N>,
    members: &Members<u32>,
) -> Result<Vec<ResultRow>, AllocError>
    requires { All (λ n. n < length site.now.terms) members.now }
    ensures { IfOk result (λ rows. ListsAt components.In (at_values site.now) (with_list (map (term_at site.now.terms) members.now)) site.now rows.items) }
{
    if let Some(ascending) = members.ascending() {
        return in_rows_by(site, members.as_slice(), ascending);
    }
    let mut copy = Vec::new(site.alloc());
    copy.extend_from_slice(members.as_slice())?;
    let sorted = sorted_once(copy)?;
    in_rows_by(site, members.as_slice(), &sorted)
}

/// The results of a component for the members of a list, whose head is the parameter (SHACL sections 4.4.4 and 4.8.3).
pub(crate) fn list_rows<N: Names>(
    site: &Site<'_, N>,
    component: ListComponent,
    members: &Members<u32>,
) -> Result<Vec<ResultRow>, AllocError>
    requires { All (λ n. n < length site.now.terms) members.now }
    ensures { IfOk result (λ rows. ListsAt (list_component component) (at_values site.now) (with_list (map (term_at site.now.terms) members.now)) site.now rows.items) }
{
    match component {
        ListComponent::LanguageIn => language_in(site, members.as_slice()),
        ListComponent::In => in_rows(site, members),
    }
}
