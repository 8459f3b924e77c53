//! The bindings of patterns in a graph after changes, by number.
ghost use Rattle.std.specs.Prelude.{◌≡◌, IfErr, IfOk, List};
ghost use Rattle.bgp_query.specs.Selected.{AreSelected, IsJoinFault};
ghost use Rattle.collections.specs.Ordered.{IsAscending};
ghost use Rattle.rdf_model.specs.declared.term.Term.{Term as TermData};
ghost use Rattle.rdf_model.specs.declared.triple.Triple.{Triple as TripleData};
ghost use Rattle.rdf_model.specs.Graphs.{after};
ghost use Rattle.rdf_model.specs.Terms.{triple_cmp};
ghost use Rattle.term_dict.specs.Names.{with_terms};
ghost use Rattle.data_graph.specs.DataGraphs.{AreNamedChanges, IsIndexOf};

use crate::hints::NumberHints;
use crate::numbering::index_after;
use bgp_query::{JoinFault, JoinPattern};
use collections::Sequence;
use numbered_lists::Net;
use rdf_model::Term;
use std::alloc::{AllocError, Global};
use term_dict::{Dict, NameFault};
use term_joins::select_terms;
use triple_index::Index;

// The names with numbers for the terms of the changes too.
fn names_with(names: &Dict, net: &Net) -> Result<Dict, NameFault>
    ensures grown { IfOk result (λ more. (ts : List TermData) × (more.terms ≡ with_terms names.now.terms ts)) }
    ensures named { IfOk result (λ more. AreNamedChanges more.terms net.now) }
{
    let (terms, _) = net.parts();
    let mut more = names.share()?;
    let _ = more.name_all(terms)?;
    Ok(more)
}

/// The bindings of the patterns in the graph that an index stands for, after the changes. Where a term of the changes has no
/// number left the answer is that there is no memory for it.
pub(crate) fn select_after(
    alloc: Global,
    names: &Dict,
    index: &Index,
    net: &Net,
    patterns: &[JoinPattern<Term>],
) -> Result<Vec<Sequence<Term>>, JoinFault>
    requires { (g : List TripleData) × IsAscending triple_cmp g × IsIndexOf names.now.terms index.now g }
    ensures rows { IfOk result (λ rows. (g : List TripleData) → IsAscending triple_cmp g → IsIndexOf names.now.terms index.now g → AreSelected (after g net.now) patterns.now rows.items) }
    ensures fault { IfErr result (λ fault. (g : List TripleData) → IsAscending triple_cmp g → IsIndexOf names.now.terms index.now g → IsJoinFault fault (after g net.now) patterns.now) }
{
    let Ok(more) = names_with(names, net) else {
        return Err(JoinFault::Memory);
    };
    more.recall_numbering();
    let later = index_after(alloc, &more, index, net, &NumberHints::new(alloc))?;
    select_terms(alloc, &more, &later, patterns)
}
