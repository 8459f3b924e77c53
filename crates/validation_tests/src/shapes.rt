// One node of a shapes graph: whether it is a shape, and its parameters (SHACL section 2.1).
ghost use Rattle.collections.specs.Ordered.{IsAscending};
ghost use Rattle.rdf_model.specs.Terms.{triple_cmp};

use crate::short_forms::{graph_of_line, term};
use collections::sorted_once;
use rdf_model::{Term, Triple};
use shape_properties::{is_shape, params};
use shape_syntax::IndexedGraph;
use std::alloc::{AllocError, Global};
use std::test::Fail;

// Shapes of each kind: by a target, by a parameter, as a value of one, as a member of a list of shapes, and as an instance. A list
// of values makes no shape of its members, and sh:deactivated none of its subject.
const GRAPH: &str =
    "e:T sh:targetNode e:a; e:S sh:minCount '1; e:S sh:deactivated %true; e:S sh:not e:N; e:S sh:or _1; \
    _1 rdf:first e:M; _1 rdf:rest rdf:nil; e:S sh:in _2; _2 rdf:first e:V; _2 rdf:rest rdf:nil; e:I rdf:type sh:NodeShape; \
    e:D sh:deactivated %true";

// Each node, whether it is a shape, and its parameters with their values, in the order of their triples.
const NODES: &str = "e:S => shape sh:in _2 sh:minCount '1 sh:not e:N sh:or _1
e:T => shape
e:N => shape
e:M => shape
e:I => shape
e:V => none
e:D => none
e:a => none
_1 => none";

// Whether the node is a shape, and its parameters.
fn told(alloc: Global, triples: &[Triple], node: &Term) -> Result<String, AllocError>
    requires { IsAscending triple_cmp triples.now }
{
    let graph = IndexedGraph::new(alloc, triples)?;
    let kind = if is_shape(alloc, &graph, node)? {
        "shape"
    } else {
        "none"
    };
    let mut text = String::from_str(alloc, kind)?;
    let found = params(alloc, &graph, node)?;
    for param in &found {
        write!(text, " {} {}", param.0, param.1)?;
    }
    Ok(text)
}

// The same of a row.
fn wanted(alloc: Global, parts: &str) -> Result<String, AllocError> {
    let mut words = parts.split(' ');
    let mut text = String::from_str(alloc, words.next().unwrap_or(""))?;
    for word in words {
        write!(text, " {}", term(alloc, word)?)?;
    }
    Ok(text)
}

#[test]
fn shapes_and_parameters(rt: HostRuntime) -> Result<(), Fail> {
    let alloc = rt.alloc();
    let graph = sorted_once(graph_of_line(alloc, GRAPH)?)?;
    let triples = graph.as_slice();
    for row in NODES.lines() {
        if let Some((node, parts)) = row.split_once(" => ") {
            let found = told(alloc, triples, &term(alloc, node)?)?;
            let due = wanted(alloc, parts)?;
            assert_eq!(rt; found.as_str(), due.as_str(), "{node}");
        }
    }
    Ok(())
}
