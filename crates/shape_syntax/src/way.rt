//! How a blank node stands for a path.
ghost use Rattle.std.specs.Prelude.{◌≡◌, IfOk, MatchOption, map};
ghost use Rattle.shape_model.specs.Vocabulary.{sh};
ghost use Rattle.path_ast.specs.PathReadings.{defined_path, members};
ghost use Rattle.shape_syntax.specs.declared.way.PathModifier.{PathModifier as ModifierData};
ghost use Rattle.shape_syntax.specs.PathWays.{joined, modifier_name, modified};

use crate::terms::is_named;
use path_ast::Path;
use rdf_model::Term;
use std::alloc::{AllocError, Global};
use vocabulary::{SH_INVERSE_PATH, SH_ONE_OR_MORE_PATH, SH_ZERO_OR_MORE_PATH, SH_ZERO_OR_ONE_PATH};

/// What a property of SHACL makes of the path that is its value.
#[derive(Debug, Clone, Copy)]
pub(crate) enum PathModifier {
    Inverse,
    ZeroOrMore,
    OneOrMore,
    ZeroOrOne,
}

/// How the paths of a list stand for one.
#[derive(Debug, Clone, Copy)]
pub(crate) enum Join {
    Sequence,
    Alternative,
}

/// What the predicate makes of a path, if it is one of the four.
#[tactic(auto, unfolding(shape_model::specs::Vocabulary::sh))]
pub(crate) fn modifier_of(predicate: &Term) -> Option<PathModifier>
    ensures { MatchOption result ((modifier : ModifierData) → predicate.now ≡ sh (modifier_name modifier) → ⊥)
        (λ modifier. predicate.now ≡ sh (modifier_name modifier)) }
{
    if is_named(predicate, SH_INVERSE_PATH) {
        return Some(PathModifier::Inverse);
    }
    if is_named(predicate, SH_ZERO_OR_MORE_PATH) {
        return Some(PathModifier::ZeroOrMore);
    }
    if is_named(predicate, SH_ONE_OR_MORE_PATH) {
        return Some(PathModifier::OneOrMore);
    }
    if is_named(predicate, SH_ZERO_OR_ONE_PATH) {
        return Some(PathModifier::ZeroOrOne);
    }
    None
}

/// The path that it makes.
pub(crate) fn modified_path(
    alloc: Global,
    modifier: PathModifier,
    path: Path<Term>,
) -> Result<Path<Term>, AllocError>
    ensures { IfOk result (λ made. defined_path made ≡ modified modifier (defined_path path)) }
{
    let inner = Box::new(alloc, path)?;
    match modifier {
        PathModifier::Inverse => Ok(Path::Inverse(inner)),
        PathModifier::ZeroOrMore => Ok(Path::ZeroOrMore(inner)),
        PathModifier::OneOrMore => Ok(Path::OneOrMore(inner)),
        PathModifier::ZeroOrOne => Ok(Path::ZeroOrOne(inner)),
    }
}

/// The path of the paths.
pub(crate) fn joined_path(
    alloc: Global,
    join: Join,
    first: Path<Term>,
    others: Vec<Path<Term>>,
) -> Result<Path<Term>, AllocError>
    ensures { IfOk result (λ made. defined_path made
        ≡ joined join (members (defined_path first) (map defined_path others.items))) }
{
    let first = Box::new(alloc, first)?;
    match join {
        Join::Sequence => Ok(Path::Sequence(first, others)),
        Join::Alternative => Ok(Path::Alternative(first, others)),
    }
}
