//! Plans of shapes that were compiled of a shapes graph's text.
use ntriples_text::read;
use outside::RegexMaker;
use rdf_model::Term;
use read_plans::plan;
use shape_ast::Shapes;
use shape_reader::read_shapes;
use std::alloc::{AllocError, Global};
use std::test::Fail;

// One triple, written twice: two rows of sh:class.
const TWICE: &str = "<e:S> <http://www.w3.org/ns/shacl#class> <e:A> .
<e:S> <http://www.w3.org/ns/shacl#class> <e:A> .
";

// Two values of sh:class: two rows of each.
const TWO_CLASSES: &str = "<e:S> <http://www.w3.org/ns/shacl#class> <e:A> .
<e:S> <http://www.w3.org/ns/shacl#class> <e:B> .
<e:S> <http://www.w3.org/ns/shacl#class> <e:A> .
";

// Two of the target class, one of the property.
const TARGETS: &str = "<e:S> <http://www.w3.org/ns/shacl#targetClass> <e:A> .
<e:S> <http://www.w3.org/ns/shacl#targetSubjectsOf> <e:p> .
<e:S> <http://www.w3.org/ns/shacl#targetClass> <e:A> .
<e:S> <http://www.w3.org/ns/shacl#targetNode> <e:a> .
";

// One of the path and two of the class of e:P, which is named once.
const PROPERTY: &str = "<e:S> <http://www.w3.org/ns/shacl#property> <e:P> .
<e:P> <http://www.w3.org/ns/shacl#path> <e:p> .
<e:P> <http://www.w3.org/ns/shacl#class> <e:A> .
<e:S> <http://www.w3.org/ns/shacl#property> <e:P> .
";

// One of sh:equals of e:T, by sh:not and by sh:node.
const NAMED_TWICE: &str = "<e:S> <http://www.w3.org/ns/shacl#not> <e:T> .
<e:S> <http://www.w3.org/ns/shacl#node> <e:T> .
<e:T> <http://www.w3.org/ns/shacl#equals> <e:p> .
";

// One of e:T, which is closed, each time that it stands in the list.
const MEMBERS: &str = "<e:S> <http://www.w3.org/ns/shacl#or> _:a .
_:a <http://www.w3.org/1999/02/22-rdf-syntax-ns#first> <e:T> .
_:a <http://www.w3.org/1999/02/22-rdf-syntax-ns#rest> _:b .
_:b <http://www.w3.org/1999/02/22-rdf-syntax-ns#first> <e:T> .
_:b <http://www.w3.org/1999/02/22-rdf-syntax-ns#rest> <http://www.w3.org/1999/02/22-rdf-syntax-ns#nil> .
<e:T> <http://www.w3.org/ns/shacl#closed> \"true\"^^<http://www.w3.org/2001/XMLSchema#boolean> .
";

// One of the path of e:P, one of its qualified value shape e:T, two of its sibling e:U; one of the path of e:Q, whose
// qualified value shape isn't counted.
const SIBLINGS: &str = "<e:S> <http://www.w3.org/ns/shacl#property> <e:P> .
<e:S> <http://www.w3.org/ns/shacl#property> <e:Q> .
<e:P> <http://www.w3.org/ns/shacl#path> <e:p> .
<e:P> <http://www.w3.org/ns/shacl#qualifiedValueShape> <e:T> .
<e:P> <http://www.w3.org/ns/shacl#qualifiedMinCount> \"1\"^^<http://www.w3.org/2001/XMLSchema#integer> .
<e:P> <http://www.w3.org/ns/shacl#qualifiedValueShapesDisjoint> \"true\"^^<http://www.w3.org/2001/XMLSchema#boolean> .
<e:Q> <http://www.w3.org/ns/shacl#path> <e:q> .
<e:Q> <http://www.w3.org/ns/shacl#qualifiedValueShape> <e:U> .
<e:T> <http://www.w3.org/ns/shacl#equals> <e:p> .
<e:U> <http://www.w3.org/ns/shacl#class> <e:A> .
";

// A deactivated shape has the rows of its targets alone.
const DEACTIVATED: &str = "<e:S> <http://www.w3.org/ns/shacl#class> <e:A> .
<e:S> <http://www.w3.org/ns/shacl#targetObjectsOf> <e:p> .
<e:S> <http://www.w3.org/ns/shacl#deactivated> \"true\"^^<http://www.w3.org/2001/XMLSchema#boolean> .
";

const COUNTS: [(&str, usize); 8] = [
    (TWICE, 2),
    (TWO_CLASSES, 4),
    (TARGETS, 3),
    (PROPERTY, 3),
    (NAMED_TWICE, 2),
    (MEMBERS, 2),
    (SIBLINGS, 5),
    (DEACTIVATED, 1),
];

fn shapes_of(alloc: Global, text: &str) -> Result<Shapes, AllocError> {
    let bytes = text.as_bytes();
    if bytes.len() >= 1_000_000 {
        return Err(AllocError);
    }
    let mut next = 1;
    let Ok(triples) = read(alloc, 1, &mut next, bytes) else {
        return Err(AllocError);
    };
    let mut maker = RegexMaker::new(alloc);
    match read_shapes(alloc, &mut maker, triples.as_slice()) {
        Ok(shapes) => Ok(shapes),
        Err(_) => Err(AllocError),
    }
}

fn is_named(node: &Term, iri: &str) -> bool {
    match node {
        Term::Iri(text) => text.as_str() == iri,
        _ => false,
    }
}

// The place of the shape e:S.
fn place_of(shapes: &Shapes) -> Option<usize> {
    shapes
        .shapes
        .as_slice()
        .iter()
        .position(|shape| is_named(&shape.node, "e:S"))
}

// The number of rows of e:S.
fn count(alloc: Global, text: &str) -> Result<usize, AllocError> {
    let shapes = shapes_of(alloc, text)?;
    let Some(place) = place_of(&shapes) else {
        return Err(AllocError);
    };
    if place >= shapes.shapes.len() {
        return Err(AllocError);
    }
    match plan(alloc, &shapes, place) {
        Ok(rows) => Ok(rows.len()),
        Err(_) => Err(AllocError),
    }
}

#[test]
fn rows_of_compiled_shapes(rt: HostRuntime) -> Result<(), Fail> {
    for (text, rows) in COUNTS {
        assert_eq!(rt; count(rt.alloc(), text)?, rows, "{text}");
    }
    Ok(())
}
