//! The graph of the triples that a block lists.
ghost use Rattle.std.specs.Prelude.{◌≡◌, ◌↔◌, ◌++◌, IfOk, OnOk};
ghost use Rattle.std.specs.List.{All, Contains};
ghost use Rattle.rdf_model.specs.Numbers.{AreNumbered, graph_of};
ghost use Rattle.parallel_validate.specs.Named.{AreNamedTriples};
ghost use Rattle.evidence_blocks.specs.Shown.{triples_in};

use evidence_blocks::ShownLook;
use parallel_validate::number_triple;
use rdf_model::{Ids, Names, Triple};
use std::alloc::{AllocError, Global};
use triple_index::Index;

// Adds the triples by the numbers of their terms.
fn push_triples<N: Names>(
    ids: &mut Vec<Ids>,
    names: &N,
    triples: &[Triple],
) -> Result<(), AllocError>
    requires named { AreNamedTriples (N.terms names.now) triples.now }
    requires numbered { AreNumbered (N.terms names.now) ids.old.items }
    ensures triples { OnOk result (graph_of (N.terms names.now) ids.new.items ≡ graph_of (N.terms names.now) ids.old.items ++ triples.now) }
    ensures numbered { OnOk result (AreNumbered (N.terms names.now) ids.new.items) }
{
    for triple in triples {
        ids.push(number_triple(names, triple))?;
    }
    Ok(())
}

/// The graph of the triples under all looks, by the numbers of their terms.
pub(crate) fn listed_graph<N: Names>(
    alloc: Global,
    names: &N,
    looks: &[ShownLook],
) -> Result<Index, AllocError>
    requires { AreNamedTriples (N.terms names.now) (triples_in looks.now) }
    ensures members { IfOk result (λ index. (t : _) → Contains (graph_of (N.terms names.now) index) t ↔ Contains (triples_in looks.now) t) }
    ensures numbered { IfOk result (λ index. AreNumbered (N.terms names.now) index) }
{
    let mut ids = Vec::new(alloc);
    for look in looks {
        push_triples(&mut ids, names, look.triples.as_slice())?;
    }
    let index = Index::from_triples(alloc, &ids)?;
    Ok(index)
}
