// The totals in a table by the nodes.
ghost use Rattle.std.specs.Prelude.{◌≡◌, OnOk, IfOk, MatchOption};
ghost use Rattle.reference_totals.specs.Numbers.{Notes};
ghost use Rattle.reference_totals.specs.Rounds.{Tells};

use crate::sums::total_at;
use rdf_model::Term;
use std::alloc::{AllocError, Global};
use std::collections::BTreeMap;

// Notes the total of the node, if there is one.
fn note(table: &mut BTreeMap<Term, u64>, node: Term, total: Option<u64>) -> Result<(), AllocError>
    ensures { OnOk result (MatchOption total (table.new ≡ table.old) (λ v. Notes table.old node v table.new)) }
{
    if let Some(total) = total {
        let _ = table.insert(node, total)?;
    }
    Ok(())
}

/// The totals that are known, by the nodes with the numbers.
pub(crate) fn table_of(
    alloc: Global,
    numbers: BTreeMap<Term, usize>,
    known: &[Option<u64>],
) -> Result<BTreeMap<Term, u64>, AllocError>
    ensures { IfOk result (λ table. Tells numbers known.now table) }
{
    let mut table = BTreeMap::new(alloc);
    for (node, number) in numbers {
        note(&mut table, node, total_at(known, Some(number)))?;
    }
    Ok(table)
}
