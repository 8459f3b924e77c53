//! The parts of a shape by the numbers of their terms.
ghost use Rattle.std.specs.Prelude.{◌≡◌, ◌<◌, IfOk, MatchOption, length, map};
ghost use Rattle.std.specs.List.{All};
ghost use Rattle.rdf_model.specs.Numbers.{term_at};
ghost use Rattle.path_ast.specs.PathReadings.{HasEach, IsNamed};
ghost use Rattle.shape_ast.specs.Readings.{HoldsOfConstraint, HoldsOfTarget, read_constraint, read_optional, read_optional_path, read_target};
ghost use Rattle.shape_ast.specs.Binding.{IsBoundList, IsBoundPattern};

use crate::{CompiledPattern, Constraint, ListComponent, Members, Target};
use collections::Sequence;
use path_ast::{Path, bind_path};
use rdf_model::{Names, Term};
use std::alloc::{AllocError, Global};
use std::sync::Arc;

/// The number of a term that has one.
pub(crate) fn number_of<N: Names>(names: &N, term: &Term) -> u32
    requires { IsNamed (N.terms names.now) term.now }
    ensures bound { result < length (N.terms names.now) }
    ensures term { term_at (N.terms names.now) result ≡ term.now }
{
    names.id(term).unwrap()
}

pub(crate) fn bind_optional<N: Names>(names: &N, term: &Option<Term>) -> Option<u32>
    requires { MatchOption term.now (Unit {0}) (IsNamed (N.terms names.now)) }
    ensures bound { MatchOption result (Unit {0}) (λ n. n < length (N.terms names.now)) }
    ensures term { read_optional (term_at (N.terms names.now)) result ≡ read_optional (λ t. t) term.now }
{
    match term {
        Some(term) => Some(number_of(names, term)),
        None => None,
    }
}

pub(crate) fn bind_terms<N: Names>(
    alloc: Global,
    names: &N,
    terms: &[Term],
) -> Result<Sequence<u32>, AllocError>
    requires { All (IsNamed (N.terms names.now)) terms.now }
    ensures { IfOk result (λ bound. IsBoundList (N.terms names.now) terms.now bound) }
{
    let mut bound = Sequence::new(alloc);
    for term in terms {
        bound.push(number_of(names, term))?;
    }
    Ok(bound)
}

/// The places in a list of their own.
pub(crate) fn copy_places(alloc: Global, places: &[usize]) -> Result<Sequence<usize>, AllocError>
    ensures { IfOk result (λ copy. copy ≡ places.now) }
{
    let mut copy = Sequence::new(alloc);
    for place in places {
        copy.push(*place)?;
    }
    Ok(copy)
}

pub(crate) fn bind_optional_path<N: Names>(
    alloc: Global,
    names: &N,
    path: &Option<Path<Term>>,
) -> Result<Option<Path<u32>>, AllocError>
    requires { MatchOption path.now (Unit {0}) (HasEach (IsNamed (N.terms names.now))) }
    ensures bound { IfOk result (λ bound. MatchOption bound (Unit {0}) (HasEach (λ n. n < length (N.terms names.now)))) }
    ensures path { IfOk result (λ bound. read_optional_path (term_at (N.terms names.now)) bound ≡ read_optional_path (λ t. t) path.now) }
{
    match path {
        Some(path) => Ok(Some(bind_path(alloc, names, path)?)),
        None => Ok(None),
    }
}

/// The pattern by the number of its parameter; its regex is shared.
pub(crate) fn bind_pattern<N: Names>(
    names: &N,
    pattern: &Option<CompiledPattern<Term>>,
) -> Result<Option<CompiledPattern<u32>>, AllocError>
    requires { MatchOption pattern.now (Unit {0}) (λ p. IsNamed (N.terms names.now) p.parameter) }
    ensures { IfOk result (λ bound. IsBoundPattern (N.terms names.now) pattern.now bound) }
{
    match pattern {
        Some(pattern) => Ok(Some(CompiledPattern {
            parameter: number_of(names, &pattern.parameter),
            regex: Arc::try_clone(&pattern.regex)?,
        })),
        None => Ok(None),
    }
}

fn bind_target<N: Names>(names: &N, target: &Target<Term>) -> Target<u32>
    requires { HoldsOfTarget (IsNamed (N.terms names.now)) target.now }
    ensures bound { HoldsOfTarget (λ n. n < length (N.terms names.now)) result }
    ensures target { read_target (term_at (N.terms names.now)) result ≡ read_target (λ t. t) target.now }
{
    match target {
        Target::Node(node) => Target::Node(number_of(names, node)),
        Target::Class(class) => Target::Class(number_of(names, class)),
        Target::ImplicitClass => Target::ImplicitClass,
        Target::SubjectsOf(predicate) => Target::SubjectsOf(number_of(names, predicate)),
        Target::ObjectsOf(predicate) => Target::ObjectsOf(number_of(names, predicate)),
    }
}

pub(crate) fn bind_targets<N: Names>(
    alloc: Global,
    names: &N,
    targets: &[Target<Term>],
) -> Result<Sequence<Target<u32>>, AllocError>
    requires { All (HoldsOfTarget (IsNamed (N.terms names.now))) targets.now }
    ensures { IfOk result (λ bound. All (HoldsOfTarget (λ n. n < length (N.terms names.now))) bound × (map (read_target (term_at (N.terms names.now))) bound ≡ map (read_target (λ t. t)) targets.now)) }
{
    let mut bound = Sequence::new(alloc);
    for target in targets {
        bound.push(bind_target(names, target))?;
    }
    Ok(bound)
}

// In the members of sh:in nodes are looked up, so they are kept in the order of numbers too.
fn bind_members<N: Names>(
    alloc: Global,
    names: &N,
    component: ListComponent,
    members: &[Term],
) -> Result<Members<u32>, AllocError>
    requires { All (IsNamed (N.terms names.now)) members.now }
    ensures { IfOk result (λ bound. IsBoundList (N.terms names.now) members.now bound) }
{
    let bound = bind_terms(alloc, names, members)?;
    match component {
        ListComponent::In => Members::sorted(alloc, bound),
        ListComponent::LanguageIn => Ok(Members::listed(bound)),
    }
}

// The places in the constraint are among so many.
fn bind_constraint<N: Names>(
    alloc: Global,
    names: &N,
    shapes: usize,
    constraint: &Constraint<Term>,
) -> Result<Constraint<u32>, AllocError>
    requires { HoldsOfConstraint (IsNamed (N.terms names.now)) shapes constraint.now }
    ensures bound { IfOk result (λ bound. HoldsOfConstraint (λ n. n < length (N.terms names.now)) shapes bound) }
    ensures constraint { IfOk result (λ bound. read_constraint (term_at (N.terms names.now)) bound ≡ read_constraint (λ t. t) constraint.now) }
{
    let _ = shapes;
    Ok(match constraint {
        Constraint::ByTerm {
            component,
            parameter,
        } => Constraint::ByTerm {
            component: *component,
            parameter: number_of(names, parameter),
        },
        Constraint::ByList {
            component,
            parameter,
            members,
        } => Constraint::ByList {
            component: *component,
            parameter: number_of(names, parameter),
            members: bind_members(alloc, names, *component, members.as_slice())?,
        },
        Constraint::ByShape {
            component,
            parameter,
            shape,
        } => Constraint::ByShape {
            component: *component,
            parameter: number_of(names, parameter),
            shape: *shape,
        },
        Constraint::ByShapes {
            component,
            parameter,
            shapes,
        } => Constraint::ByShapes {
            component: *component,
            parameter: number_of(names, parameter),
            shapes: copy_places(alloc, shapes.as_slice())?,
        },
    })
}

/// The places in the constraints are among so many.
pub(crate) fn bind_constraints<N: Names>(
    alloc: Global,
    names: &N,
    shapes: usize,
    constraints: &[Constraint<Term>],
) -> Result<Sequence<Constraint<u32>>, AllocError>
    requires { All (HoldsOfConstraint (IsNamed (N.terms names.now)) shapes) constraints.now }
    ensures { IfOk result (λ bound. All (HoldsOfConstraint (λ n. n < length (N.terms names.now)) shapes) bound × (map (read_constraint (term_at (N.terms names.now))) bound ≡ map (read_constraint (λ t. t)) constraints.now)) }
{
    let mut bound = Sequence::new(alloc);
    for constraint in constraints {
        bound.push(bind_constraint(alloc, names, shapes, constraint)?)?;
    }
    Ok(bound)
}
