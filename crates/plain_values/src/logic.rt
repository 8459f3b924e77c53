// Whether value nodes conform to shapes, as is told (SHACL sections 3.5, 4.6 and 4.7).
ghost use Rattle.std.specs.Prelude.{◌≡◌, ◌↔◌, IsTrue};
ghost use Rattle.plain_values.specs.Tests.{Conforming, IsUnmet, Tallied};

use crate::site::ToldRow;
use plain_terms::is_same;
use rdf_model::Term;

/// To how many of some shapes a value node has to conform.
#[derive(Clone, Copy)]
pub enum Demand {
    All,
    Any,
    One,
}

// Whether a result of the shape is told at the node.
fn is_about(entry: &ToldRow, shape: &Term, node: &Term) -> bool
    ensures { IsTrue result ↔ ((entry.now.shape ≡ shape.now) × (entry.now.node ≡ node.now)) }
{
    let of_shape = is_same(&entry.shape, shape);
    let at_node = is_same(&entry.node, node);
    of_shape && at_node
}

/// Whether the node conforms to the shape.
pub fn conforms(told: &[ToldRow], shape: &Term, node: &Term) -> bool
    ensures { IsTrue result ↔ Conforming told.now shape.now node.now }
{
    for entry in told {
        if is_about(entry, shape, node) {
            return false;
        }
    }
    true
}

// To how many of the shapes it does, counted with repeats.
fn how_many(told: &[ToldRow], shapes: &[Term], node: &Term) -> usize
    ensures { Tallied (λ m. Conforming told.now m node.now) shapes.now result }
{
    let mut yes = 0;
    for shape in shapes {
        if conforms(told, shape, node) {
            yes += 1;
        }
    }
    yes
}

/// Whether the node doesn't conform to as many of the shapes as it has to.
pub fn is_unmet(demand: Demand, told: &[ToldRow], shapes: &[Term], node: &Term) -> bool
    ensures { IsTrue result ↔ IsUnmet demand told.now shapes.now node.now }
{
    let yes = how_many(told, shapes, node);
    match demand {
        Demand::All => yes != shapes.len(),
        Demand::Any => yes == 0,
        Demand::One => yes != 1,
    }
}
