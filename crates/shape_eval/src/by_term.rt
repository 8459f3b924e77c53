//! The results of a component at a value of its parameter.
ghost use Rattle.std.specs.Prelude.{◌≡◌, ◌<◌, IfOk, length};
ghost use Rattle.rdf_model.specs.Numbers.{graph_of, term_at};
ghost use Rattle.shape_model.specs.declared.component.Component.TheVariants as components;
ghost use Rattle.component_rows.specs.Sites.{ListsAt};
ghost use Rattle.shape_ast.specs.Components.{term_component};
ghost use Rattle.shape_ast.specs.Readings.{HoldsOfShape, named_shapes, read_shape};
ghost use Rattle.shape_ast.specs.Standing.{shape_reading};
ghost use Rattle.shape_eval.specs.Around.{around};
ghost use Rattle.shape_eval.specs.Looks.{AreInstanceAnswers};
ghost use Rattle.shape_eval.specs.Told.{CountAsks, HaveAnswers, WhereRight};

use crate::closing::allowed_predicates;
use crate::context::Evaluation;
use crate::qualified::{qualified_max_rows, qualified_min_rows};
use crate::told::Told;
use component_rows::Site;
use pair_constraints::{disjoint, equals, less_than, less_than_or_equals};
use rdf_model::{Names, Triples};
use shape_ast::{Shape, TermComponent};
use shape_model::ResultRow;
use std::alloc::AllocError;
use string_constraints::{max_length, min_length, unique_lang};
use value_constraints::{
    class, closed, datatype, has_value, max_count, max_exclusive, max_inclusive, min_count,
    min_exclusive, min_inclusive, node_kind,
};

// The results of sh:closed (SHACL section 4.8.1).
fn closed_rows<R: Triples, N: Names>(
    evaluation: &Evaluation<'_, R, N>,
    site: &Site<'_, N>,
    shape: &Shape<u32>,
) -> Result<Vec<ResultRow>, AllocError>
    requires same { site.now.terms ≡ evaluation.now.terms }
    requires shape { HoldsOfShape (λ n. n < length site.now.terms) (length evaluation.now.shapes) shape.now }
    ensures { IfOk result (λ rows. (s : _) (n : _) → ListsAt components.Closed (around site.now.terms evaluation.now.ids s n site.now.values site.now.focus)
        (shape_reading (named_shapes site.now.terms evaluation.now.shapes) (read_shape (term_at site.now.terms) shape.now)) site.now rows.items) }
{
    evaluation.recall();
    let shapes = evaluation.shapes();
    let (properties, ignored) = (shape.properties.as_slice(), shape.ignored.as_slice());
    let allowed = allowed_predicates(site.alloc(), shapes, properties, ignored)?;
    let graph = evaluation.graph();
    closed(graph, site, &allowed)
}

/// The results of a component at a value of its parameter.
pub(crate) fn term_rows<R: Triples, N: Names>(
    evaluation: &Evaluation<'_, R, N>,
    site: &Site<'_, N>,
    shape: &Shape<u32>,
    told: &[Told],
    instances: &[bool],
    component: TermComponent,
) -> Result<Vec<ResultRow>, AllocError>
    requires same { site.now.terms ≡ evaluation.now.terms }
    requires shape { HoldsOfShape (λ n. n < length site.now.terms) (length evaluation.now.shapes) shape.now }
    requires told { HaveAnswers evaluation.now.shapes site.now.values told.now (CountAsks shape.now component) }
    requires instances { AreInstanceAnswers (graph_of site.now.terms evaluation.now.ids) (term_component component)
        (term_at site.now.terms site.now.parameter) site.now.terms site.now.values instances.now }
    ensures { IfOk result (λ rows. WhereRight site.now.terms evaluation.now.ids evaluation.now.shapes site.now.values told.now (CountAsks shape.now component)
        (λ s n. ListsAt (term_component component) (around site.now.terms evaluation.now.ids s n site.now.values site.now.focus)
        (shape_reading (named_shapes site.now.terms evaluation.now.shapes) (read_shape (term_at site.now.terms) shape.now)) site.now rows.items)) }
{
    evaluation.recall();
    let graph = evaluation.graph();
    let shapes = evaluation.shapes();
    match component {
        TermComponent::Class => class(site, instances),
        TermComponent::Datatype => datatype(site),
        TermComponent::NodeKind => node_kind(site),
        TermComponent::MinCount => min_count(site),
        TermComponent::MaxCount => max_count(site),
        TermComponent::MinExclusive => min_exclusive(site),
        TermComponent::MinInclusive => min_inclusive(site),
        TermComponent::MaxExclusive => max_exclusive(site),
        TermComponent::MaxInclusive => max_inclusive(site),
        TermComponent::MinLength => min_length(site),
        TermComponent::MaxLength => max_length(site),
        TermComponent::UniqueLang => unique_lang(site),
        TermComponent::Equals => equals(graph, site),
        TermComponent::Disjoint => disjoint(graph, site),
        TermComponent::LessThan => less_than(graph, site),
        TermComponent::LessThanOrEquals => less_than_or_equals(graph, site),
        TermComponent::QualifiedMinCount => qualified_min_rows(site, shapes, shape, told),
        TermComponent::QualifiedMaxCount => qualified_max_rows(site, shapes, shape, told),
        TermComponent::Closed => closed_rows(evaluation, site, shape),
        TermComponent::HasValue => has_value(site),
    }
}
