// The nodes that have a sh:property (SHACL section 4.7.2).
ghost use Rattle.std.specs.Prelude.{◌⊎◌, ◌↔◌, IfOk, OnOk};
ghost use Rattle.std.specs.List.{Contains};
ghost use Rattle.rdf_model.specs.declared.term.Term.{Term as TermData};
ghost use Rattle.shape_references.specs.Siblings.{IsParent, IsParentBy};

use crate::siblings::is_property;
use collections::Sequence;
use rdf_model::{Term, Triple};
use shape_syntax::IndexedGraph;
use shape_syntax::subjects::push_unless_last;
use std::alloc::{AllocError, Global};

fn push_parent(triple: &Triple, parents: &mut Sequence<Term>) -> Result<(), AllocError>
    ensures { OnOk result ((n : TermData) → Contains parents.new n ↔ (Contains parents.old n ⊎ IsParentBy triple.now n)) }
{
    if is_property(&triple.predicate) {
        push_unless_last(&triple.subject, parents)?;
        return Ok(());
    }
    Ok(())
}

/// The nodes that have a sh:property. How often each stands isn't ensured, nor is their order.
pub fn parent_nodes(alloc: Global, graph: &IndexedGraph) -> Result<Sequence<Term>, AllocError>
    ensures { IfOk result (λ parents. (n : TermData) → Contains parents n ↔ IsParent graph.now n) }
{
    let mut parents = Sequence::new(alloc);
    for triple in graph.as_slice() {
        push_parent(triple, &mut parents)?;
    }
    Ok(parents)
}
