//! Targets by declarations of all kinds.
ghost use Rattle.std.specs.Prelude.{◌<◌, length};

use crate::tests::digits::{number, told};
use bare_shapes::bare_shape;
use collections::Sequence;
use path_eval::{ClassWords, class_instances};
use rdf_model::{Footprint, Ids, ListGraph};
use shape_ast::{Bound, Shape, Target};
use std::alloc::{AllocError, Global};
use std::process::Abort;
use std::test::Fail;
use target_nodes::{is_target, targets};

const TYPE: u32 = 0;

const ABOVE: u32 = 10;

const KNOWS: u32 = 6;

const WORDS: ClassWords = ClassWords {
    rdf_type: TYPE,
    sub_class_of: ABOVE,
};

// Declarations, each a letter and a digit, and the targets that they give of the shape whose node is 8. The
// predicate of knowing is 6.
const ROWS: &str = "\
n6 6\n\
c7 12\n\
c9 12\n\
c4 0\n\
i0 12\n\
s6 13\n\
o6 45\n\
o0n7 78\n\
s6n6c8 1236";

// Classes, and their instances.
const CLASS_ROWS: &str = "\
7 12\n\
8 12\n\
9 12\n\
4 0\n\
1 0";

// Nodes 1 and 2 have types among the classes 7, 8 and 9, which lie above one another in a circle; 1 and 3
// know others.
fn graph(alloc: Global) -> Result<ListGraph, AllocError> {
    let mut triples = Sequence::new(alloc);
    for (subject, predicate, object) in [
        (1, TYPE, 7),
        (2, TYPE, 8),
        (8, ABOVE, 7),
        (7, ABOVE, 9),
        (9, ABOVE, 8),
        (3, KNOWS, 4),
        (3, KNOWS, 5),
        (1, KNOWS, 4),
    ] {
        triples.push(Ids {
            subject,
            predicate,
            object,
        })?;
    }
    Ok(ListGraph::from_triples(triples))
}

fn target(letter: u8, number: u32) -> Target<u32> {
    match letter {
        b'n' => Target::Node(number),
        b'c' => Target::Class(number),
        b's' => Target::SubjectsOf(number),
        b'o' => Target::ObjectsOf(number),
        _ => Target::ImplicitClass,
    }
}

fn declarations(alloc: Global, text: &[u8]) -> Result<Sequence<Target<u32>>, AllocError> {
    let mut declared = Sequence::new(alloc);
    for pair in text.chunks_exact(2) {
        declared.push(target(pair[0], pair[1].wrapping_sub(b'0') as u32))?;
    }
    Ok(declared)
}

fn shape(alloc: Global, node: u32, targets: Sequence<Target<u32>>) -> Shape<u32> {
    let mut shape = bare_shape(alloc, node);
    shape.targets = targets;
    shape
}

// Two shapes: 7 without a target, and 8 with these.
fn two_shapes(alloc: Global, text: &str) -> Result<Bound, AllocError> {
    let declared = declarations(alloc, text.as_bytes())?;
    let mut shapes = Sequence::new(alloc);
    shapes.push(shape(alloc, 7, Sequence::new(alloc)))?;
    shapes.push(shape(alloc, 8, declared))?;
    Ok(Bound { shapes })
}

// The nodes among the first nine that are targets of the second shape one by one, and the looks of asking for the last.
fn tested(alloc: Global, graph: &ListGraph, bound: &Bound) -> Result<(u64, usize), AllocError>
    requires { 1 < length bound.now.shapes }
{
    let mut all: u64 = 0;
    let mut looks = 0;
    for node in 1..10 {
        let mut footprint = Footprint::new(alloc);
        if is_target(alloc, graph, WORDS, bound, 1, node, &mut footprint)? {
            all = all.wrapping_mul(10).wrapping_add(node as u64);
        }
        looks = footprint.looks().len();
    }
    Ok((all, looks))
}

fn listed(alloc: Global, graph: &ListGraph, bound: &Bound) -> Result<u64, AllocError>
    requires { 1 < length bound.now.shapes }
{
    let nodes = targets(alloc, graph, WORDS, bound, 1)?;
    Ok(told(&nodes))
}

// What is found of the second of the shapes; nothing, where there are not so many.
fn found_of(
    alloc: Global,
    graph: &ListGraph,
    bound: &Bound,
) -> Result<(u64, u64, usize), AllocError> {
    if bound.shapes.len() < 2 {
        return Ok((0, 0, 0));
    }
    let nodes = listed(alloc, graph, bound)?;
    let (all, looks) = tested(alloc, graph, bound)?;
    Ok((nodes, all, looks))
}

fn found(alloc: Global, graph: &ListGraph, text: &str) -> Result<(u64, u64, usize), AllocError> {
    let bound = two_shapes(alloc, text)?;
    found_of(alloc, graph, &bound)
}

fn all_rows(rt: &impl Abort, alloc: Global) -> Result<(), AllocError> {
    let graph = graph(alloc)?;
    for row in ROWS.lines() {
        let mut words = row.split(' ');
        let (nodes, all, _looks) = found(alloc, &graph, words.next().unwrap_or(""))?;
        let want = number(words.next()) as u64;
        assert_eq!(rt; (nodes, all), (want, want), "{row}");
    }
    Ok(())
}

#[test]
fn each_kind_of_target(rt: HostRuntime) -> Result<(), Fail> {
    all_rows(&rt, rt.alloc())?;
    Ok(())
}

fn instances(alloc: Global, graph: &ListGraph, class: u32) -> Result<u64, AllocError> {
    let mut footprint = Footprint::new(alloc);
    let nodes = class_instances(alloc, graph, WORDS, class, &mut footprint)?;
    Ok(told(&nodes))
}

fn all_class_rows(rt: &impl Abort, alloc: Global) -> Result<(), AllocError> {
    let graph = graph(alloc)?;
    for row in CLASS_ROWS.lines() {
        let mut words = row.split(' ');
        let class = number(words.next());
        let want = number(words.next()) as u64;
        let found = instances(alloc, &graph, class)?;
        assert_eq!(rt; found, want, "{row}");
    }
    Ok(())
}

#[test]
fn instances_of_classes_in_a_circle(rt: HostRuntime) -> Result<(), Fail> {
    all_class_rows(&rt, rt.alloc())?;
    Ok(())
}

// At 9 the path of a class asks for types alone, and a predicate for values.
fn looks_of_two(alloc: Global) -> Result<usize, AllocError> {
    let graph = graph(alloc)?;
    let (_nodes, _all, looks) = found(alloc, &graph, "c8s6n1")?;
    Ok(looks)
}

#[test]
fn looks_of_a_test(rt: HostRuntime) -> Result<(), Fail> {
    assert_eq!(rt; looks_of_two(rt.alloc())?, 2);
    Ok(())
}
