//! Triples by the numbers of their terms.
ghost use Rattle.std.specs.Prelude.{◌≡◌, ◌<◌, IfOk, length};
ghost use Rattle.rdf_model.specs.Numbers.{AreNumbered, graph_of, term_at, triple_at};
ghost use Rattle.path_ast.specs.PathReadings.{IsNamed};
ghost use Rattle.parallel_validate.specs.Named.{AreNamedTriples, IsNamedTriple, IsNumbered};

use collections::Sequence;
use rdf_model::{Ids, Names, Term, Triple};
use std::alloc::{AllocError, Global};

// The number of a term that has one.
fn number_of<N: Names>(names: &N, term: &Term) -> u32
    requires { IsNamed (N.terms names.now) term.now }
    ensures bound { result < length (N.terms names.now) }
    ensures term { term_at (N.terms names.now) result ≡ term.now }
{
    names.id(term).unwrap()
}

/// The numbers of a triple's terms.
pub fn number_triple<N: Names>(names: &N, triple: &Triple) -> Ids
    requires { IsNamedTriple (N.terms names.now) triple.now }
    ensures bound { IsNumbered (N.terms names.now) result }
    ensures triple { triple_at (N.terms names.now) result ≡ triple.now }
{
    Ids {
        subject: number_of(names, &triple.subject),
        predicate: number_of(names, &triple.predicate),
        object: number_of(names, &triple.object),
    }
}

/// The triples by the numbers of their terms, in their order.
pub fn number_triples<N: Names>(
    alloc: Global,
    names: &N,
    graph: &[Triple],
) -> Result<Sequence<Ids>, AllocError>
    requires { AreNamedTriples (N.terms names.now) graph.now }
    ensures { IfOk result (λ ids. AreNumbered (N.terms names.now) ids × (graph_of (N.terms names.now) ids ≡ graph.now)) }
{
    let mut ids = Sequence::new(alloc);
    for triple in graph {
        ids.push(number_triple(names, triple))?;
    }
    Ok(ids)
}
