//! A block whose terms are named: the blank nodes that it gives out, the one for which it is refused, and what naming makes.
ghost use Rattle.std.specs.Prelude.{◌≡◌, ◌≤◌, ◌+◌, [], ◌∷◌, IfErr, IfOk, OnOk, length, not};
ghost use Rattle.std.specs.List.{filter};
ghost use Rattle.collections.specs.Ordered.{has_item};
ghost use Rattle.rdf_model.specs.Terms.{term_cmp};
ghost use Rattle.store_model.specs.Nodes;
ghost use Rattle.store_model.specs.Nodes.{given_by, given_with, unknown_by};
ghost use Rattle.term_dict.specs.Faults.{IsCause};
ghost use Rattle.term_dict.specs.Names.{AreNumbersOf, with_terms};
ghost use Rattle.data_graph.specs.DataGraphs.{names_of, with_names};
ghost use Rattle.commit_core.specs.Naming.{IsNaming, first_of};

use data_graph::ValidatedGraph;
use page_index::Pages;
use rdf_model::Term;
use std::alloc::{AllocError, Global};
use store_model::NameKind;
use term_dict::{Dict, NameFault};

/// Why terms were not named.
#[derive(Debug, Drop)]
pub enum NamingFault {
    /// The least blank node of the terms that wasn't given out, where all had to be.
    Unknown { node: Term },
    /// So many terms would be named, more than the limit.
    Full { count: usize },
    Memory,
}

impl From<AllocError> for NamingFault {
    ghost use Rattle.commit_core.specs.declared.naming.NamingFault.TheVariants as faults;
    ghost use Rattle.std.specs.Prelude.{◌≡◌};

    ghost from_gives = { λ _ e. e ≡ faults.Memory };

    fn from(_error: AllocError) -> Self {
        NamingFault::Memory
    }
}

fn is_blank(term: &Term) -> bool
    ensures { result ≡ Nodes.is_blank term.now }
{
    match term {
        Term::Blank { .. } => true,
        _ => false,
    }
}

// Puts a term into the set, if it is a blank node.
fn give(given: &mut Pages<Term>, term: &Term) -> Result<(), AllocError>
    ensures { OnOk result (given.new ≡ given_with given.old (term.now ∷ [])) }
{
    if is_blank(term) {
        given.insert(term.clone()?)?;
    }
    Ok(())
}

/// Puts the blank nodes of the terms into the set.
pub(crate) fn give_all(given: &mut Pages<Term>, terms: &[Term]) -> Result<(), AllocError>
    ensures { OnOk result (given.new ≡ given_with given.old terms.now) }
{
    for term in terms {
        give(given, term)?;
    }
    Ok(())
}

// The nodes with the blank nodes of the terms.
fn given_too(given: &Pages<Term>, terms: &[Term]) -> Result<Pages<Term>, AllocError>
    ensures { IfOk result (λ more. more ≡ given_with given.now terms.now) }
{
    let mut more = given.share()?;
    give_all(&mut more, terms)?;
    Ok(more)
}

/// The nodes that are given out once the terms of a block of this kind are named.
pub(crate) fn given_after(
    kind: NameKind,
    given: &Pages<Term>,
    terms: &[Term],
) -> Result<Pages<Term>, AllocError>
    ensures { IfOk result (λ more. more ≡ given_by kind given.now terms.now) }
{
    match kind {
        NameKind::Fresh => given_too(given, terms),
        NameKind::Known | NameKind::Attach => given.share(),
    }
}

// The least of the nodes that wasn't given.
fn first_not_given(given: &Pages<Term>, nodes: &Pages<Term>) -> Result<Option<Term>, AllocError>
    ensures { IfOk result (λ node. node ≡ first_of (filter (λ t. not (has_item term_cmp t given.now)) nodes.now)) }
{
    for node in nodes.iter() {
        if !given.contains(node) {
            return Ok(Some(node.clone()?));
        }
    }
    Ok(None)
}

/// The node for which a block of this kind is refused: the least of its blank nodes that wasn't given, where
/// it is to be attached.
pub(crate) fn unknown_node(
    alloc: Global,
    kind: NameKind,
    given: &Pages<Term>,
    terms: &[Term],
) -> Result<Option<Term>, AllocError>
    ensures { IfOk result (λ node. node ≡ first_of (unknown_by kind given.now terms.now)) }
{
    match kind {
        NameKind::Fresh | NameKind::Known => Ok(None),
        NameKind::Attach => first_not_given(given, &given_too(&Pages::new(alloc), terms)?),
    }
}

/// The terms of a block as they are named: the graph with their names, the nodes that are given out then, and a share of the
/// names.
pub(crate) struct NamedTerms {
    pub(crate) graph: ValidatedGraph,
    pub(crate) given: Pages<Term>,
    pub(crate) names: Dict,
}

// Written by hand, so that what owns one calls it in place of having it written out.
impl Drop for NamedTerms {
    fn drop(self) {
        let NamedTerms {
            graph: _,
            given: _,
            names: _,
        } = self;
    }
}

impl NamedTerms {
    // The graph, the nodes, and the names.
    pub(crate) fn into_parts(self) -> (ValidatedGraph, Pages<Term>, Dict)
        ensures { result ≡ (self.graph, self.given, self.names) }
    {
        let NamedTerms {
            graph,
            given,
            names,
        } = self;
        (graph, given, names)
    }
}

// The graph with names for the terms, and their numbers.
fn with_numbers(
    graph: &ValidatedGraph,
    terms: &[Term],
) -> Result<(ValidatedGraph, Vec<u32>), NameFault>
    ensures graph { IfOk result (λ named. named.0 ≡ with_names graph.now terms.now) }
    ensures fits { IfOk result (λ named. length (with_terms graph.now.terms terms.now) ≤ graph.now.limit + 2) }
    ensures numbers { IfOk result (λ named. AreNumbersOf named.0.terms terms.now named.1.items) }
    ensures cause { IfErr result (λ fault. IsCause fault (names_of graph.now) terms.now) }
{
    let mut named = graph.share()?;
    let numbers = named.name_all(terms)?;
    Ok((named, numbers))
}

/// Names the terms of a block of this kind in another graph, and gives their numbers.
pub(crate) fn name_terms(
    graph: &ValidatedGraph,
    kind: NameKind,
    given: &Pages<Term>,
    terms: &[Term],
) -> Result<(NamedTerms, Vec<u32>), NameFault>
    ensures named { IfOk result (λ named. IsNaming kind graph.now given.now terms.now named.0) }
    ensures numbers { IfOk result (λ named. AreNumbersOf named.0.graph.terms terms.now named.1.items) }
    ensures cause { IfErr result (λ fault. IsCause fault (names_of graph.now) terms.now) }
{
    let given = given_after(kind, given, terms)?;
    let (graph, numbers) = with_numbers(graph, terms)?;
    let names = graph.names().share()?;
    let named = NamedTerms {
        graph,
        given,
        names,
    };
    Ok((named, numbers))
}
