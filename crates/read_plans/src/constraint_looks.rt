//! The rows of looks of a shape without those of the shapes that it refers to, and those of its targets.
ghost use Rattle.std.specs.Prelude.{◌≡◌, ◌∷◌, [], ◌++◌, false, IfOk, map};
ghost use Rattle.std.specs.List.{flat_map};
ghost use Rattle.shape_model.specs.Instances as instances;
ghost use Rattle.shape_model.specs.Paths as defined;
ghost use Rattle.shape_model.specs.Vocabulary.{rdf_type, sub_class_of};
ghost use Rattle.path_ast.specs.PathReadings.{defined_path};
ghost use Rattle.shape_ast.specs.Readings.{read_constraint, read_optional_path, read_shape, read_target};
ghost use Rattle.read_plans.specs.PathRows.{path_rows};
ghost use Rattle.read_plans.specs.Rows.{Adds};
ghost use Rattle.read_plans.specs.ShapeRows.{constraint_rows, own_rows, target_rows, term_rows, value_way};
ghost use Rattle.read_plans.specs.ShapeRows as specified;

use crate::path_looks::push_path;
use crate::rows::{Rows, push_row};
use crate::ways::{copied_way, way_along};
use crate::{LookKind, PlanFault};
use collections::Sequence;
use path_ast::Path;
use rdf_model::Term;
use rdf_text::Text;
use shape_ast::{Constraint, Shape, Target, TermComponent};
use shape_model::is_true;
use std::alloc::{AllocError, Global};
use vocabulary::{RDF_TYPE, RDFS_SUB_CLASS_OF};

#[tactic(auto, unfolding(shape_model::specs::Vocabulary::rdf_type, shape_model::specs::Vocabulary::rdf))]
fn type_word(alloc: Global) -> Result<Term, AllocError>
    ensures { IfOk result (λ term. term ≡ rdf_type) }
{
    Ok(Term::Iri(Text::new(alloc, RDF_TYPE)?))
}

#[tactic(auto, unfolding(shape_model::specs::Vocabulary::sub_class_of))]
fn subclass_word(alloc: Global) -> Result<Term, AllocError>
    ensures { IfOk result (λ term. term ≡ sub_class_of) }
{
    Ok(Term::Iri(Text::new(alloc, RDFS_SUB_CLASS_OF)?))
}

// The path to the superclasses of a class, itself among them.
fn superclasses(alloc: Global) -> Result<Path<Term>, AllocError>
    ensures { IfOk result (λ path. defined_path path ≡ defined.ZeroOrMore (defined.Predicate sub_class_of)) }
{
    let word = subclass_word(alloc)?;
    Ok(Path::ZeroOrMore(Box::new(alloc, Path::Predicate(word))?))
}

// The way, and then rdf:type.
fn way_to_types(alloc: Global, way: &[Path<Term>]) -> Result<Sequence<Path<Term>>, AllocError>
    ensures { IfOk result (λ longer. map defined_path longer ≡ map defined_path way.now ++ defined.Predicate rdf_type ∷ []) }
{
    let types = Path::Predicate(type_word(alloc)?);
    way_along(alloc, way, &types)
}

// Adds the row of types.
fn push_type_row(alloc: Global, way: &[Path<Term>], rows: &mut Rows) -> Result<(), PlanFault>
    ensures { Adds (path_rows false (defined.Predicate rdf_type) (map defined_path way.now)) rows.old rows.new result }
{
    let word = type_word(alloc)?;
    push_row(alloc, way, LookKind::Out(word), rows)
}

// Adds the row of superclasses.
fn push_superclass_row(alloc: Global, way: &[Path<Term>], rows: &mut Rows) -> Result<(), PlanFault>
    ensures { Adds (path_rows false (defined.ZeroOrMore (defined.Predicate sub_class_of)) (map defined_path way.now)) rows.old rows.new result }
{
    let above = superclasses(alloc)?;
    push_path(alloc, &above, false, way, rows)
}

// Adds the rows of instances of a class: those of rdf:type/rdfs:subClassOf*, after the way.
fn push_class_rows(alloc: Global, way: &[Path<Term>], rows: &mut Rows) -> Result<(), PlanFault>
    ensures { Adds (path_rows false instances.class_path (map defined_path way.now)) rows.old rows.new result }
{
    push_type_row(alloc, way, rows)?;
    let classes = way_to_types(alloc, way)?;
    push_superclass_row(alloc, classes.as_slice(), rows)
}

// Adds the row of all triples of the nodes at the end of the way, where sh:closed is true (SHACL section 4.8.1).
fn push_closed_row(
    alloc: Global,
    parameter: &Term,
    way: &[Path<Term>],
    rows: &mut Rows,
) -> Result<(), PlanFault>
    ensures { Adds (specified.closed_rows parameter.now (map defined_path way.now)) rows.old rows.new result }
{
    if !is_true(parameter) {
        return Ok(());
    }
    push_row(alloc, way, LookKind::OutAny, rows)
}

// Adds the rows of a component by itself; the value nodes of the shape are at the end of `values`.
fn push_component_rows(
    alloc: Global,
    component: TermComponent,
    parameter: &Term,
    way: &[Path<Term>],
    values: &[Path<Term>],
    rows: &mut Rows,
) -> Result<(), PlanFault>
    ensures { Adds (term_rows component parameter.now (map defined_path way.now) (map defined_path values.now)) rows.old rows.new result }
{
    match component {
        TermComponent::Class => push_class_rows(alloc, values, rows),
        TermComponent::Equals
        | TermComponent::Disjoint
        | TermComponent::LessThan
        | TermComponent::LessThanOrEquals => {
            push_row(alloc, way, LookKind::Out(parameter.clone()?), rows)
        }
        TermComponent::Closed => push_closed_row(alloc, parameter, values, rows),
        _ => Ok(()),
    }
}

fn push_constraint_rows(
    alloc: Global,
    constraint: &Constraint<Term>,
    way: &[Path<Term>],
    values: &[Path<Term>],
    rows: &mut Rows,
) -> Result<(), PlanFault>
    ensures { Adds (constraint_rows (map defined_path way.now) (map defined_path values.now) (read_constraint (λ t. t) constraint.now)) rows.old rows.new result }
{
    match constraint {
        Constraint::ByTerm {
            component,
            parameter,
        } => push_component_rows(alloc, *component, parameter, way, values, rows),
        Constraint::ByList { .. } => Ok(()),
        Constraint::ByShape { .. } => Ok(()),
        Constraint::ByShapes { .. } => Ok(()),
    }
}

fn push_constraints(
    alloc: Global,
    constraints: &[Constraint<Term>],
    way: &[Path<Term>],
    values: &[Path<Term>],
    rows: &mut Rows,
) -> Result<(), PlanFault>
    ensures { Adds (flat_map (constraint_rows (map defined_path way.now) (map defined_path values.now)) (map (read_constraint (λ t. t)) constraints.now)) rows.old rows.new result }
{
    for constraint in constraints {
        push_constraint_rows(alloc, constraint, way, values, rows)?;
    }
    Ok(())
}

/// The way to the value nodes of a shape whose focus node is at the end of a way.
pub(crate) fn way_to_values(
    alloc: Global,
    path: &Option<Path<Term>>,
    way: &[Path<Term>],
) -> Result<Sequence<Path<Term>>, AllocError>
    ensures { IfOk result (λ values. map defined_path values ≡ value_way (read_optional_path (λ t. t) path.now) (map defined_path way.now)) }
{
    match path {
        None => copied_way(alloc, way),
        Some(path) => way_along(alloc, way, path),
    }
}

fn push_optional_path(
    alloc: Global,
    path: &Option<Path<Term>>,
    way: &[Path<Term>],
    rows: &mut Rows,
) -> Result<(), PlanFault>
    ensures { Adds (specified.optional_rows (read_optional_path (λ t. t) path.now) (map defined_path way.now)) rows.old rows.new result }
{
    match path {
        None => Ok(()),
        Some(path) => push_path(alloc, path, false, way, rows),
    }
}

/// Adds the rows of a shape without those of the shapes that it refers to. Its value nodes are at the end of `values`.
pub(crate) fn push_own_rows(
    alloc: Global,
    shape: &Shape<Term>,
    way: &[Path<Term>],
    values: &[Path<Term>],
    rows: &mut Rows,
) -> Result<(), PlanFault>
    requires { map defined_path values.now ≡ value_way (read_optional_path (λ t. t) shape.now.path) (map defined_path way.now) }
    ensures { Adds (own_rows (read_shape (λ t. t) shape.now) (map defined_path way.now)) rows.old rows.new result }
{
    push_optional_path(alloc, &shape.path, way, rows)?;
    push_constraints(alloc, shape.constraints.as_slice(), way, values, rows)
}

fn push_target_rows(alloc: Global, target: &Target<Term>, rows: &mut Rows) -> Result<(), PlanFault>
    ensures { Adds (target_rows (read_target (λ t. t) target.now)) rows.old rows.new result }
{
    let none = Sequence::new(alloc);
    match target {
        Target::Node(_) => Ok(()),
        Target::Class(_) => push_class_rows(alloc, none.as_slice(), rows),
        Target::ImplicitClass => push_class_rows(alloc, none.as_slice(), rows),
        Target::SubjectsOf(predicate) => {
            push_row(
                alloc,
                none.as_slice(),
                LookKind::Out(predicate.clone()?),
                rows,
            )
        }
        Target::ObjectsOf(predicate) => {
            push_row(
                alloc,
                none.as_slice(),
                LookKind::In(predicate.clone()?),
                rows,
            )
        }
    }
}

/// Adds the rows that decide whether a focus node is a target.
pub(crate) fn push_targets(
    alloc: Global,
    targets: &[Target<Term>],
    rows: &mut Rows,
) -> Result<(), PlanFault>
    ensures { Adds (flat_map target_rows (map (read_target (λ t. t)) targets.now)) rows.old rows.new result }
{
    for target in targets {
        push_target_rows(alloc, target, rows)?;
    }
    Ok(())
}
