//! Counts, lists and classes of graphs.
ghost use Rattle.collections.specs.Ordered.{IsAscending};
ghost use Rattle.rdf_model.specs.Terms.{triple_cmp};

use crate::short_forms::{graph_of_line, term};
use collections::sorted_once;
use rdf_model::Triple;
use shape_model::count_of;
use shape_syntax::IndexedGraph;
use shape_syntax::instance::classes_of;
use shape_syntax::list::list_members;
use std::alloc::{AllocError, Global};
use std::test::Fail;

// Terms, each with the count that it says as a literal of xsd:integer, if it does.
const COUNTS: &str = "'0 => 0
'01 => 1
'999999999999999999 => 999999999999999999
'000000000000000001 => 1
'99999999999999999999 => 99999999999999999999
'+1 => 1
'-1 => -1
'1.0 => -
' 1 => -
' => -
\"1 => -
e:1 => -";

fn text_of_count(alloc: Global, short: &str) -> Result<String, AllocError> {
    match count_of(&term(alloc, short)?) {
        Some(count) => format!(in alloc; "{count}"),
        None => String::from_str(alloc, "-"),
    }
}

#[test]
fn counts(rt: HostRuntime) -> Result<(), Fail> {
    for line in COUNTS.lines() {
        if let Some((short, count)) = line.split_once(" => ") {
            let text = text_of_count(rt.alloc(), short)?;
            assert_eq!(rt; text.as_str(), count, "{short}");
        }
    }
    Ok(())
}

// A list of two, and a node of a class below another.
const LIST_AND_CLASS: &str =
    "_1 rdf:first e:a; _1 rdf:rest _2; _2 rdf:first e:a; _2 rdf:rest rdf:nil; \
    e:x rdf:type e:c; e:c rdfs:subClassOf e:d";

// How many members the list has that begins at the node, if one does.
fn length_at(alloc: Global, triples: &[Triple], short: &str) -> Result<Option<usize>, AllocError>
    requires { IsAscending triple_cmp triples.now }
{
    let head = term(alloc, short)?;
    let graph = IndexedGraph::new(alloc, triples)?;
    match list_members(alloc, &graph, &head)? {
        Some(members) => Ok(Some(members.len())),
        None => Ok(None),
    }
}

fn is_of_class(alloc: Global, triples: &[Triple], short: &str) -> Result<bool, AllocError>
    requires { IsAscending triple_cmp triples.now }
{
    let graph = IndexedGraph::new(alloc, triples)?;
    let classes = classes_of(alloc, &graph, &term(alloc, "e:x")?)?;
    let class = term(alloc, short)?;
    Ok(classes.as_slice().iter().any(|found| *found == class))
}

#[test]
fn lists_and_instances(rt: HostRuntime) -> Result<(), Fail> {
    let alloc = rt.alloc();
    let graph = sorted_once(graph_of_line(alloc, LIST_AND_CLASS)?)?;
    let triples = graph.as_slice();
    assert_eq!(rt; length_at(alloc, triples, "_1")?, Some(2));
    assert_eq!(rt; length_at(alloc, triples, "_2")?, Some(1));
    assert_eq!(rt; length_at(alloc, triples, "rdf:nil")?, Some(0));
    assert_eq!(rt; length_at(alloc, triples, "e:x")?, None);
    assert!(rt; is_of_class(alloc, triples, "e:c")?);
    assert!(rt; is_of_class(alloc, triples, "e:d")?);
    assert!(rt; !is_of_class(alloc, triples, "e:x")?);
    Ok(())
}
