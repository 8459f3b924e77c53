//! The looks of a component at a value of its parameter.
ghost use Rattle.std.specs.Prelude.{false, ◌≡◌, ◌<◌, IfOk, OnOk, length};
ghost use Rattle.rdf_model.specs.declared.look.Look.TheVariants.{OutAny};
ghost use Rattle.rdf_model.specs.Numbers.{IsNumbering, graph_of, term_at};
ghost use Rattle.shape_model.specs.declared.component.Component.TheVariants as components;
ghost use Rattle.shape_model.specs.Instances.{class_path};
ghost use Rattle.shape_model.specs.NodeLooks.{PathReads};
ghost use Rattle.component_rows.specs.Nodes.{AreNodes, HasNode};
ghost use Rattle.path_eval.specs.Naming.{AddsLooks};
ghost use Rattle.collections.specs.Listings.{Keeps};
ghost use Rattle.shape_ast.specs.Components.{term_component};
ghost use Rattle.shape_eval.specs.Looks.{AreInstanceAnswers, ComponentReads, ReadsAtEach};

use crate::context::Evaluation;
use component_rows::Site;
use rdf_model::{Footprint, Look, Names, Triples};
use shape_ast::TermComponent;
use shape_model::is_true;
use std::alloc::AllocError;

// Whether each node is an instance of the class that has the number. The looks of the class path are added to the footprint.
fn instance_answers<R: Triples, N: Names>(
    evaluation: &Evaluation<'_, R, N>,
    class: u32,
    nodes: &[u32],
    footprint: &mut Footprint,
) -> Result<Vec<bool>, AllocError>
    requires class { class < length evaluation.now.terms }
    requires nodes { AreNodes evaluation.now.terms nodes.now }
    ensures told { IfOk result (λ answers. AreInstanceAnswers (graph_of evaluation.now.terms evaluation.now.ids) components.Class
        (term_at evaluation.now.terms class) evaluation.now.terms nodes.now answers.items) }
    ensures looks { OnOk result (AddsLooks evaluation.now.terms (ReadsAtEach evaluation.now.terms nodes.now
        (PathReads (graph_of evaluation.now.terms evaluation.now.ids) false class_path)) footprint.old footprint.new) }
    ensures kept { Keeps footprint.old footprint.new }
{
    let mut answers = Vec::with_capacity(evaluation.alloc(), nodes.len())?;
    for node in nodes {
        answers.push(evaluation.is_instance(*node, class, footprint)?)?;
    }
    Ok(answers)
}

// Adds the look at all triples of each node.
fn add_subjects(nodes: &[u32], footprint: &mut Footprint) -> Result<(), AllocError>
    ensures looks { OnOk result ((terms : _) → IsNumbering terms → AreNodes terms nodes.now → AddsLooks terms (ReadsAtEach terms nodes.now (λ v look. look ≡ OutAny v)) footprint.old footprint.new) }
    ensures kept { Keeps footprint.old footprint.new }
{
    for node in nodes {
        footprint.add(Look::OutAny(*node))?;
    }
    Ok(())
}

// Adds the looks of sh:closed (SHACL section 4.8.1), where its value is true.
fn add_closed<N: Names>(site: &Site<'_, N>, footprint: &mut Footprint) -> Result<(), AllocError>
    ensures looks { OnOk result ((g : _) (f : _) → AddsLooks site.now.terms
        (ComponentReads g (HasNode site.now.terms site.now.values) f components.Closed (term_at site.now.terms site.now.parameter)) footprint.old footprint.new) }
    ensures kept { Keeps footprint.old footprint.new }
{
    site.recall();
    let values = site.values();
    if !is_true(site.parameter_term()) {
        return Ok(());
    }
    add_subjects(values, footprint)?;
    Ok(())
}

/// Adds the looks of a component at a value of its parameter. For sh:class it answers whether each value node is an
/// instance of the class.
pub(crate) fn component_looks<R: Triples, N: Names>(
    evaluation: &Evaluation<'_, R, N>,
    site: &Site<'_, N>,
    component: TermComponent,
    footprint: &mut Footprint,
) -> Result<Vec<bool>, AllocError>
    requires { site.now.terms ≡ evaluation.now.terms }
    ensures looks { OnOk result (AddsLooks site.now.terms (ComponentReads (graph_of site.now.terms evaluation.now.ids) (HasNode site.now.terms site.now.values)
        (term_at site.now.terms site.now.focus) (term_component component) (term_at site.now.terms site.now.parameter)) footprint.old footprint.new) }
    ensures instances { IfOk result (λ answers. AreInstanceAnswers (graph_of site.now.terms evaluation.now.ids) (term_component component)
        (term_at site.now.terms site.now.parameter) site.now.terms site.now.values answers.items) }
    ensures kept { Keeps footprint.old footprint.new }
{
    site.recall();
    let parameter = site.parameter();
    match component {
        TermComponent::Class => instance_answers(evaluation, parameter, site.values(), footprint),
        TermComponent::Equals
        | TermComponent::Disjoint
        | TermComponent::LessThan
        | TermComponent::LessThanOrEquals => {
            footprint.add(Look::Out(site.focus(), parameter))?;
            Ok(Vec::new(site.alloc()))
        }
        TermComponent::Closed => {
            add_closed(site, footprint)?;
            Ok(Vec::new(site.alloc()))
        }
        _ => Ok(Vec::new(site.alloc())),
    }
}
