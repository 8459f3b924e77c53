// Sets of nodes.
ghost use Rattle.std.specs.Prelude.{◌↔◌, IsTrue, OnOk};
ghost use Rattle.std.specs.List.{Contains};
ghost use Rattle.shape_syntax.specs.PathSteps.{Adds};

use rdf_model::Term;
use std::alloc::AllocError;
use std::collections::BTreeSet;

/// Whether the node is in the set.
pub(crate) fn is_in(nodes: &BTreeSet<Term>, node: &Term) -> bool
    ensures { IsTrue result ↔ Contains nodes.now.keys node.now }
{
    nodes.contains(node)
}

/// Puts the node into the set.
pub(crate) fn put(nodes: &mut BTreeSet<Term>, node: &Term) -> Result<(), AllocError>
    ensures { OnOk result (Adds nodes.old.keys node.now nodes.new.keys) }
{
    let _ = nodes.insert(node.clone()?)?;
    Ok(())
}
