//! The subjects of a graph (RDF 1.1 Concepts, section 3.1).
ghost use Rattle.std.specs.Prelude.{◌≡◌, ◌⊎◌, ◌↔◌, IsTrue, IfOk, OnOk};
ghost use Rattle.std.specs.List.{Contains};
ghost use Rattle.rdf_model.specs.declared.term.Term.{Term as TermData};
ghost use Rattle.shape_syntax.specs.Subjects.{IsSubject};

use crate::terms::is_same;
use collections::Sequence;
use rdf_model::{Term, Triple};
use std::alloc::{AllocError, Global};

fn is_last(nodes: &[Term], node: &Term) -> bool
    ensures { IsTrue result → Contains nodes.now node.now }
{
    match nodes.last() {
        Some(last) => is_same(last, node),
        None => false,
    }
}

/// Adds the node. It isn't added again where it was added last: that isn't ensured, as it saves time and no more.
pub fn push_unless_last(node: &Term, nodes: &mut Sequence<Term>) -> Result<(), AllocError>
    ensures { OnOk result ((n : TermData) → Contains nodes.new n ↔ (Contains nodes.old n ⊎ (node.now ≡ n))) }
{
    if is_last(nodes.as_slice(), node) {
        return Ok(());
    }
    nodes.push(node.clone()?)?;
    Ok(())
}

/// The subjects of the graph. How often each stands isn't ensured, nor is their order.
pub fn subjects(alloc: Global, graph: &[Triple]) -> Result<Sequence<Term>, AllocError>
    ensures { IfOk result (λ nodes. (n : TermData) → Contains nodes n ↔ IsSubject graph.now n) }
{
    let mut nodes = Sequence::new(alloc);
    for triple in graph {
        push_unless_last(&triple.subject, &mut nodes)?;
    }
    Ok(nodes)
}
