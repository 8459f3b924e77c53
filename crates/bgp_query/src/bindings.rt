//! The bindings of patterns.
ghost use Rattle.std.specs.Prelude.{◌≡◌, ◌<◌, ◌≤◌, IfErr, IfOk, [], length, map, ℕ};
ghost use Rattle.bgp_query.specs.declared.fault.JoinFault.TheVariants as faults;
ghost use Rattle.triple_index.specs.Patterns.{ListsOnce};
ghost use Rattle.bgp_query.specs.AllBindings.{AreBindings};
ghost use Rattle.bgp_query.specs.Bindings.{HasMore, IsBinding, IsIn, Occurs, most_bindings};
ghost use Rattle.bgp_query.specs.Trails.{Covers, IsReach, IsRow, PatternsBelow};

use crate::fault::JoinFault;
use crate::join::{Search, join_from};
use crate::matcher::Matcher;
use crate::pattern::JoinPattern;
use crate::plan::planned;
use crate::row::{Row, vectors_of};
use crate::variables::{all_occur, variable_count};
use collections::sorted_once;
use std::alloc::Global;

// All rows of the patterns.
fn all_rows<R: Matcher>(
    search: &Search<R>,
    patterns: &[JoinPattern<u32>],
) -> Result<Vec<Row>, JoinFault>
    requires below { PatternsBelow search.now.variables patterns.now }
    requires covered { Covers search.now.variables [] patterns.now }
    ensures rows { IfOk result (λ rows. ListsOnce (IsRow (R.triples search.now.set.now) search.now.variables [] patterns.now) rows.items) }
    ensures few { IfOk result (λ rows. length rows.items ≤ most_bindings) }
    ensures many { IfErr result (λ e. e ≡ faults.TooMany → HasMore most_bindings (IsRow (R.triples search.now.set.now) search.now.variables [] patterns.now)) }
{
    let mut trail = Vec::new(search.alloc);
    let mut rows = Vec::new(search.alloc);
    join_from(search, patterns, &mut trail, &mut rows)?;
    Ok(rows)
}

// The bindings of the patterns, in order.
fn ordered_rows<R: Matcher>(
    search: &Search<R>,
    patterns: &[JoinPattern<u32>],
) -> Result<Vec<Row>, JoinFault>
    requires reach { IsReach (Occurs patterns.now) search.now.variables }
    requires all { (v : ℕ) → v < search.now.variables → Occurs patterns.now v }
    ensures bindings { IfOk result (λ rows. AreBindings (R.triples search.now.set.now) patterns.now rows.items) }
    ensures many { IfErr result (λ e. e ≡ faults.TooMany → HasMore most_bindings (IsBinding (IsIn (R.triples search.now.set.now)) patterns.now)) }
{
    let plan = planned(search.alloc, patterns)?;
    let rows = sorted_once(all_rows(search, &plan)?)?;
    Ok(rows)
}

/// The bindings of the patterns in the set: all assignments of numbers to just their variables under which each
/// pattern stands in the set (SPARQL 1.1 Query, section 18.3), each once, ascending from the first variable on.
///
/// There are none where the variables aren't numbered from 0 on without a gap. `TooMany` comes exactly where
/// there are more than 100,000.
pub fn select<R: Matcher>(
    alloc: Global,
    set: &R,
    patterns: &[JoinPattern<u32>],
) -> Result<Vec<Vec<u32>>, JoinFault>
    ensures bindings { IfOk result (λ rows. AreBindings (R.triples set.now) patterns.now (map (λ v. v.items) rows.items)) }
    ensures many { IfErr result (λ e. e ≡ faults.TooMany → HasMore most_bindings (IsBinding (IsIn (R.triples set.now)) patterns.now)) }
{
    let variables = variable_count(patterns);
    if !all_occur(patterns, variables) {
        return Ok(Vec::new(alloc));
    }
    let search = Search {
        alloc,
        set,
        variables,
    };
    let rows = ordered_rows(&search, patterns)?;
    Ok(vectors_of(alloc, &rows)?)
}
