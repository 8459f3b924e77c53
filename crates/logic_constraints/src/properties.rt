//! The results of sh:property (SHACL section 4.7.2).
ghost use Rattle.std.specs.Prelude.{◌≡◌, IfOk, length, map};
ghost use Rattle.shape_model.specs.Components.{PropertyRow};
ghost use Rattle.component_rows.specs.Listed.{Lists};
ghost use Rattle.logic_constraints.specs.Properties.{told_rows, with_property};

use collections::sorted_once;
use shape_model::ResultRow;
use std::alloc::{AllocError, Global};

/// The results of sh:property (SHACL section 4.7.2) for one property shape: those that the property shape gives at each
/// value node, each once, in order. There is a list of them for each value node, and they move.
pub fn property(
    alloc: Global,
    values: &[u32],
    rows: Vec<Vec<ResultRow>>,
) -> Result<Vec<ResultRow>, AllocError>
    requires { length rows.items ≡ length values.now }
    ensures { IfOk result (λ all. (terms : _) (shape : _)
        → Lists (PropertyRow (told_rows terms values.now (map (λ l. l.items) rows.items)) (with_property shape)) all.items) }
{
    let mut all = Vec::new(alloc);
    for list in rows {
        let mut list = list;
        all.append(&mut list)?;
    }
    Ok(sorted_once(all)?)
}
