//! The targets of a shape (SHACL section 2.1.3).
ghost use Rattle.std.specs.Prelude.{◌≡◌, ◌⊎◌, ◌↔◌, IsTrue, IfOk, OnOk};
ghost use Rattle.std.specs.List.{Contains};
ghost use Rattle.rdf_model.specs.declared.term.Term.{Term as TermData};
ghost use Rattle.shape_model.specs.Instances.{Instance};
ghost use Rattle.shape_model.specs.Vocabulary.{rdfs_class};
ghost use Rattle.shape_ast.specs.declared.target.Target.{Target as TargetData};
ghost use Rattle.shape_ast.specs.declared.target.Target.TheVariants.{ImplicitClass};
ghost use Rattle.shape_ast.specs.Once.{AreDistinct, target_triple};
ghost use Rattle.shape_reader.specs.Parts.{AreTargetsOf, SaysTarget, target_of};

use crate::part::{Part, Said, parts_of};
use crate::shape_node::ShapeNode;
use collections::Sequence;
use rdf_model::{Term, Triple};
use shape_ast::Target;
use shape_properties::ShapeProperty;
use shape_syntax::instance::classes_of;
use shape_syntax::terms::is_named;
use std::alloc::AllocError;
use vocabulary::RDFS_CLASS;

// The target that the value declares, if the property declares targets.
fn declared(property: ShapeProperty, value: &Term) -> Said<Target<Term>>
    ensures { IfOk result (λ found. found ≡ target_of property value.now) }
{
    match property {
        ShapeProperty::TargetNode => Ok(Some(Target::Node(value.clone()?))),
        ShapeProperty::TargetClass => Ok(Some(Target::Class(value.clone()?))),
        ShapeProperty::TargetSubjectsOf => Ok(Some(Target::SubjectsOf(value.clone()?))),
        ShapeProperty::TargetObjectsOf => Ok(Some(Target::ObjectsOf(value.clone()?))),
        _ => Ok(None),
    }
}

impl Part for Target<Term> {
    ghost says = { SaysTarget };

    ghost triple = { target_triple };

    fn read(_shape: &ShapeNode, property: ShapeProperty, value: &Term) -> Said<Target<Term>> {
        let found = declared(property, value)?;
        Ok(found)
    }
}

#[tactic(auto, unfolding(shape_model::specs::Vocabulary::rdfs_class))]
fn is_rdfs_class(term: &Term) -> bool
    ensures { IsTrue result ↔ (term.now ≡ rdfs_class) }
{
    is_named(term, RDFS_CLASS)
}

fn has_rdfs_class(classes: &[Term]) -> bool
    ensures { IsTrue result ↔ Contains classes.now rdfs_class }
{
    for class in classes {
        if is_rdfs_class(class) {
            return true;
        }
    }
    false
}

// Whether the node is a class (section 2.1.3.3).
fn is_class(shape: &ShapeNode) -> Result<bool, AllocError>
    ensures { IfOk result (λ found. IsTrue found ↔ Instance shape.now.graph shape.now.node rdfs_class) }
{
    let classes = classes_of(shape.alloc(), shape.graph(), shape.node())?;
    Ok(has_rdfs_class(classes.as_slice()))
}

fn push_implicit(shape: &ShapeNode, targets: &mut Sequence<Target<Term>>) -> Result<(), AllocError>
    ensures said { OnOk result ((x : TargetData TermData) → Contains targets.new x ↔ (Contains targets.old x ⊎ ((ImplicitClass ≡ x) × Instance shape.now.graph shape.now.node rdfs_class))) }
    ensures once { OnOk result ((Contains targets.old ImplicitClass → ⊥) → AreDistinct targets.old → AreDistinct targets.new) }
{
    let class = is_class(shape)?;
    if class {
        targets.push(Target::ImplicitClass)?;
        return Ok(());
    }
    Ok(())
}

/// The targets of the shape at the node, each once.
pub(crate) fn targets_of(shape: &ShapeNode) -> Result<Sequence<Target<Term>>, AllocError>
    ensures { IfOk result (λ targets. AreTargetsOf shape.now.graph shape.now.nodes shape.now.node targets) }
{
    let mut targets = parts_of(shape)?;
    push_implicit(shape, &mut targets)?;
    Ok(targets)
}
