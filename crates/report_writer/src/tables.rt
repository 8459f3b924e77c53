//! The shapes by their nodes.
ghost use Rattle.std.specs.Prelude.{◌≡◌, IfOk, OnOk, Some, None, if◌then◌else◌};
ghost use Rattle.std.specs.Option.{option_copied, option_or};
ghost use Rattle.rdf_model.specs.Matching.{same_term};
ghost use Rattle.rdf_model.specs.declared.term.Term.{Term as TermData};
ghost use Rattle.report_writer.specs.Tables.{HasFirsts, shape_at};

use rdf_model::Term;
use shape_ast::Shape;
use std::alloc::{AllocError, Global};
use std::collections::BTreeMap;

/// Shapes by their nodes.
pub type ShapeTable<'a> = BTreeMap<&'a Term, &'a Shape<Term>>;

// Adds a shape, unless there is one with its node.
fn add_shape<'a>(table: &mut ShapeTable<'a>, shape: &'a Shape<Term>) -> Result<(), AllocError>
    ensures { OnOk result ((n : TermData) → shape_at table.new n ≡ option_or (shape_at table.old n) (if same_term shape.now.node n then Some shape.now else None)) }
{
    if !table.contains_key(&&shape.node) {
        table.insert(&shape.node, shape)?;
    }
    Ok(())
}

/// The first shape of each node.
pub fn first_shapes<'a>(
    alloc: Global,
    shapes: &'a [Shape<Term>],
) -> Result<ShapeTable<'a>, AllocError>
    ensures { IfOk result (λ table. HasFirsts shapes.now table) }
{
    let mut table = BTreeMap::new(alloc);
    for shape in shapes {
        add_shape(&mut table, shape)?;
    }
    Ok(table)
}

/// The shape with the node, if there is one.
pub fn shape_of<'a>(table: &ShapeTable<'a>, node: &'a Term) -> Option<&'a Shape<Term>>
    ensures { option_copied result ≡ shape_at table.now node.now }
{
    table.get(&node).copied()
}
