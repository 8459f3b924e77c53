//! The index of the data, whose three orders threads sort beside each other, and beside the shapes, which the caller reads.
ghost use Rattle.std.specs.Prelude.{◌≡◌, IfOk, MatchResult};
ghost use Rattle.std.specs.List.{Contains};
ghost use Rattle.std.specs.Thread.{IsSync};
ghost use Rattle.collections.specs.Listings.{IsListing};
ghost use Rattle.collections.specs.Ordered.{IsAscending};
ghost use Rattle.rdf_model.specs.Terms.{triple_cmp};
ghost use Rattle.shape_ast.specs.Once.{AreOnce};
ghost use Rattle.shape_ast.specs.Standing.{AreCompiled};
ghost use Rattle.shape_rules.specs.Broken.{IsWellFormed};
ghost use Rattle.shape_reader.specs.Asked.{AsksAll, AsksBeforeFault};
ghost use Rattle.shape_reader.specs.Faults as reader;
ghost use Rattle.triple_index.specs.declared.order.Order.TheVariants.{Subjects, Predicates, Objects};
ghost use Rattle.triple_index.specs.Keys.{ids_cmp};
ghost use Rattle.triple_index.specs.Rotations.{AreKeysIn};

use outside::Maker;
use rdf_model::{Ids, Triple};
use shape_ast::Shapes;
use shape_reader::{ShapeFault, read_shapes};
use std::alloc::{AllocError, Global};
use std::thread::{Threads, join, join_mut};
use triple_index::{Index, Order, OrderedTriples};

// The triples by predicate and by object, sorted beside each other.
fn other_orders<R: Threads>(
    rt: &R,
    alloc: Global,
    triples: &[Ids],
) -> (
    Result<OrderedTriples, AllocError>,
    Result<OrderedTriples, AllocError>,
)
    ensures predicates { IfOk result.0 (AreKeysIn Predicates triples.now) }
    ensures objects { IfOk result.1 (AreKeysIn Objects triples.now) }
{
    join(
        rt,
        || -> Result<OrderedTriples, AllocError>
            ensures { IfOk result (AreKeysIn Predicates triples.entry.now) }
        { OrderedTriples::sorted(alloc, Order::Predicates, triples) },
        || -> Result<OrderedTriples, AllocError>
            ensures { IfOk result (AreKeysIn Objects triples.entry.now) }
        { OrderedTriples::sorted(alloc, Order::Objects, triples) },
    )
}

// The set of the triples of a list, as `Index::from_triples` makes it: a thread sorts each of its three orders. Where none can be
// started, the caller sorts them.
fn index_by_threads<R: Threads + Sync>(
    rt: &R,
    alloc: Global,
    triples: &[Ids],
) -> Result<Index, AllocError>
    ensures { IfOk result (λ index. IsListing ids_cmp (Contains triples.now) index) }
{
    let (subjects, (predicates, objects)) = join(
        rt,
        || -> Result<OrderedTriples, AllocError>
            ensures { IfOk result (AreKeysIn Subjects triples.entry.now) }
        { OrderedTriples::sorted(alloc, Order::Subjects, triples) },
        || -> (
            Result<OrderedTriples, AllocError>,
            Result<OrderedTriples, AllocError>,
        )
            requires { IsSync R.row }
            ensures { IfOk result.0 (AreKeysIn Predicates triples.entry.now) × IfOk result.1 (AreKeysIn Objects triples.entry.now) }
        { other_orders(rt, alloc, triples) },
    );
    let subjects = subjects?;
    let predicates = predicates?;
    let objects = objects?;
    Ok(Index::from_orders(alloc, subjects, predicates, objects))
}

/// The index of the data, and the shapes of a shapes graph as `read_shapes` gives them, beside each other: threads sort the orders of
/// the index, and the caller reads the shapes.
pub(crate) fn index_beside_shapes<M: Maker, R: Threads + Sync>(
    rt: &R,
    alloc: Global,
    maker: &mut M,
    triples: &[Ids],
    shapes_graph: &[Triple],
) -> (Result<Index, AllocError>, Result<Shapes, ShapeFault>)
    requires { IsAscending triple_cmp shapes_graph.now }
    ensures index { IfOk result.0 (λ index. IsListing ids_cmp (Contains triples.now) index) }
    ensures answer { MatchResult result.1 (λ shapes. IsWellFormed shapes_graph.now × AreCompiled shapes.shapes shapes_graph.now)
        (λ fault. reader.IsCause shapes_graph.now fault (M.refused maker.old) (M.refused maker.new)) }
    ensures once { IfOk result.1 (λ shapes. AreOnce shapes.shapes) }
    ensures refused { IfOk result.1 (λ _. M.refused maker.new ≡ M.refused maker.old) }
    ensures asked { MatchResult result.1 (λ _. AsksAll shapes_graph.now (M.asked maker.old) (M.asked maker.new))
        (λ fault. AsksBeforeFault shapes_graph.now fault (M.asked maker.old) (M.asked maker.new)) }
{
    join_mut(
        rt,
        &mut || index_by_threads(rt, alloc, triples),
        &mut || read_shapes(alloc, maker, shapes_graph),
    )
}
