//! The bindings of patterns of terms.
ghost use Rattle.std.specs.Prelude.{IfErr, IfOk, List};
ghost use Rattle.bgp_query.specs.declared.pattern.JoinPattern.{JoinPattern as PatternData};
ghost use Rattle.bgp_query.specs.Selected.{AreSelected, IsJoinFault};
ghost use Rattle.rdf_model.specs.declared.term.Term.{Term as TermData};
ghost use Rattle.rdf_model.specs.Numbers.{AreNumbered, IsNumbering, graph_of};
ghost use Rattle.term_joins.specs.Numbered.{ArePatternsAt};

use crate::numbered::numbered_patterns;
use crate::row::{TermRow, read_rows, terms_of};
use bgp_query::{JoinFault, JoinPattern, Matcher, select};
use collections::{Sequence, sorted_once};
use rdf_model::{Names, Term};
use std::alloc::Global;

// The bindings, as rows of terms, of patterns by number.
fn selected_rows<N: Names, R: Matcher>(
    alloc: Global,
    names: &N,
    set: &R,
    numbered: &[JoinPattern<u32>],
) -> Result<Vec<TermRow>, JoinFault>
    requires numbering { IsNumbering (N.terms names.now) }
    requires numbered { AreNumbered (N.terms names.now) (R.triples set.now) }
    ensures rows { IfOk result (λ rows. (ps : List (PatternData TermData)) → ArePatternsAt (N.terms names.now) ps numbered.now → AreSelected (graph_of (N.terms names.now) (R.triples set.now)) ps rows.items) }
    ensures fault { IfErr result (λ fault. (ps : List (PatternData TermData)) → ArePatternsAt (N.terms names.now) ps numbered.now → IsJoinFault fault (graph_of (N.terms names.now) (R.triples set.now)) ps) }
{
    let rows = select(alloc, set, numbered)?;
    let named = read_rows(alloc, names, &rows)?;
    Ok(sorted_once(named)?)
}

/// The bindings of the patterns in the graph for which the set stands: the terms of the variables, from the first on,
/// under which each pattern stands there (SPARQL 1.1 Query, section 18.3), each once, ascending. No term has two
/// numbers, and each number of the set has a term. `TooMany` comes exactly where there are more than 100,000.
pub fn select_terms<N: Names, R: Matcher>(
    alloc: Global,
    names: &N,
    set: &R,
    patterns: &[JoinPattern<Term>],
) -> Result<Vec<Sequence<Term>>, JoinFault>
    requires numbering { IsNumbering (N.terms names.now) }
    requires numbered { AreNumbered (N.terms names.now) (R.triples set.now) }
    ensures rows { IfOk result (λ rows. AreSelected (graph_of (N.terms names.now) (R.triples set.now)) patterns.now rows.items) }
    ensures fault { IfErr result (λ fault. IsJoinFault fault (graph_of (N.terms names.now) (R.triples set.now)) patterns.now) }
{
    match numbered_patterns(alloc, names, patterns)? {
        None => Ok(Vec::new(alloc)),
        Some(numbered) => {
            let rows = selected_rows(alloc, names, set, &numbered)?;
            Ok(terms_of(alloc, rows)?)
        }
    }
}
