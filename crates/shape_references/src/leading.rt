// Whether a chain leads from a node to itself.
ghost use Rattle.std.specs.Prelude.{◌≡◌, ◌⊎◌, ◌↔◌, IsTrue, IfOk, OnOk, length};
ghost use Rattle.std.specs.List.{Contains};
ghost use Rattle.collections.specs.Ordered.{IsAscending};
ghost use Rattle.rdf_model.specs.declared.triple.Triple.{Triple as TripleData};
ghost use Rattle.rdf_model.specs.Terms.{triple_cmp};
ghost use Rattle.shape_references.specs.Chains.{HasLoopAt};
ghost use Rattle.shape_references.specs.Asking.{ArePending, Shows, WasAsked, WereAsked};

use crate::nodes::{is_in, put};
use collections::Sequence;
use rdf_model::{Term, Triple};
use shape_syntax::lookup::triples_in;
use shape_syntax::terms::is_same;
use std::alloc::{AllocError, Global};
use std::collections::BTreeSet;

fn is_goal_or_known(goal: &Term, known: &BTreeSet<Term>, node: &Term) -> bool
    ensures { IsTrue result ↔ ((node.now ≡ goal.now) ⊎ Contains known.now.keys node.now) }
{
    is_same(node, goal) || is_in(known, node)
}

// Whether the object of one of the triples is the goal, or known to lead to it.
fn one_leads(own: &[Triple], goal: &Term, known: &BTreeSet<Term>) -> bool
    ensures { IsTrue result ↔ ((t : TripleData) × Contains own.now t × ((t.object ≡ goal.now) ⊎ Contains known.now.keys t.object)) }
{
    for triple in own {
        if is_goal_or_known(goal, known, &triple.object) {
            return true;
        }
    }
    false
}

fn is_shown(graph: &[Triple], goal: &Term, known: &BTreeSet<Term>, node: &Term) -> bool
    requires { IsAscending triple_cmp graph.now }
    ensures { IsTrue result ↔ Shows graph.now goal.now known.now.keys node.now }
{
    one_leads(triples_in(graph, node), goal, known)
}

// Notes the node where a chain is shown to lead from it to the goal, and else leaves it.
fn ask(
    graph: &[Triple],
    goal: &Term,
    node: &Term,
    known: &mut BTreeSet<Term>,
    left: &mut Sequence<Term>,
) -> Result<(), AllocError>
    requires { IsAscending triple_cmp graph.now }
    ensures { OnOk result (WasAsked graph.now goal.now node.now known.old.keys known.new.keys left.old left.new) }
{
    if is_shown(graph, goal, known, node) {
        put(known, node)?;
        return Ok(());
    }
    left.push(node.clone()?)?;
    Ok(())
}

// Asks each of the nodes, and gives those that are left.
fn ask_each(
    alloc: Global,
    graph: &[Triple],
    goal: &Term,
    waiting: &[Term],
    known: &mut BTreeSet<Term>,
) -> Result<Sequence<Term>, AllocError>
    requires { IsAscending triple_cmp graph.now }
    ensures { IfOk result (λ left. WereAsked graph.now goal.now (length waiting.now) waiting.now known.old.keys known.new.keys left) }
{
    let mut left = Sequence::new(alloc);
    for node in waiting {
        ask(graph, goal, node, known, &mut left)?;
    }
    Ok(left)
}

// Asks the nodes again until no more are shown to lead to the goal.
fn ask_all(
    alloc: Global,
    graph: &[Triple],
    goal: &Term,
    nodes: Sequence<Term>,
) -> Result<bool, AllocError>
    requires graph { IsAscending triple_cmp graph.now }
    requires nodes { ArePending graph.now nodes }
    ensures { IfOk result (λ leads. IsTrue leads ↔ HasLoopAt graph.now goal.now) }
{
    let mut known = BTreeSet::new(alloc);
    let mut waiting = nodes;
    loop {
        let left = ask_each(alloc, graph, goal, waiting.as_slice(), &mut known)?;
        if left.len() == waiting.len() {
            return Ok(is_in(&known, goal));
        }
        waiting = left;
    }
}

/// Whether a chain leads from the node to itself.
pub(crate) fn leads_back(
    alloc: Global,
    graph: &[Triple],
    pending: &[Term],
    goal: &Term,
) -> Result<bool, AllocError>
    requires graph { IsAscending triple_cmp graph.now }
    requires pending { ArePending graph.now pending.now }
    ensures { IfOk result (λ leads. IsTrue leads ↔ HasLoopAt graph.now goal.now) }
{
    let nodes = Sequence::copied_from(alloc, pending)?;
    ask_all(alloc, graph, goal, nodes)
}
