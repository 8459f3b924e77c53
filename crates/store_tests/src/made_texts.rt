// The texts that calls below the program make: a session file of a load, and a report.
use load_maker::workload;
use report_writer::report;
use shapes_graph::ShapesGraph;
use std::alloc::Global;
use std::test::Fail;

const SHAPES: &str = "\
begin
shapes turtle
@prefix sh: <http://www.w3.org/ns/shacl#> .
<e:S> sh:targetClass <e:C> ; sh:property <e:P> .
<e:P> sh:path <e:p> ; sh:minCount 1 ; sh:maxCount 2 .
%%
commit
";

// Of one transaction; and of ten those of the second session, the last of which adds no value.
const LOADS: [(u32, u32, &str); 3] = [
    (
        1,
        1,
        "\
begin
add ntriples
<e:n1> <http://www.w3.org/1999/02/22-rdf-syntax-ns#type> <e:C> .
<e:n1> <e:p> <e:n1> .
%%
commit
",
    ),
    (1, 4, ""),
    (
        10,
        2,
        "\
begin
add ntriples
<e:n2> <http://www.w3.org/1999/02/22-rdf-syntax-ns#type> <e:C> .
<e:n2> <e:p> <e:n5> .
%%
commit
begin
add ntriples
<e:n6> <http://www.w3.org/1999/02/22-rdf-syntax-ns#type> <e:C> .
<e:n6> <e:p> <e:n7> .
%%
commit
begin
add ntriples
<e:n10> <http://www.w3.org/1999/02/22-rdf-syntax-ns#type> <e:C> .
%%
commit
",
    ),
];

const CONFORMS: &str = "\
@prefix sh: <http://www.w3.org/ns/shacl#> .
_:r a sh:ValidationReport .
_:r sh:conforms true .
";

// The load of a size and a session that are in range.
fn load_of(alloc: Global, size: u32, session: u32) -> Result<Vec<u8>, Fail> {
    if size == 0 || size > 100000 || session == 0 || session > 4 {
        return Err(Fail::new("the size and the session are in range"));
    }
    Ok(workload(alloc, size, session)?)
}

#[test]
fn loads_are_made(rt: HostRuntime) -> Result<(), Fail> {
    let alloc = rt.alloc();
    for (size, session, transactions) in LOADS {
        let text = load_of(alloc, size, session)?;
        let mut due = String::from_str(alloc, SHAPES)?;
        due.push_str(transactions)?;
        assert_eq!(rt; text.as_slice(), due.as_bytes(), "{size}, {session}");
    }
    Ok(())
}

#[test]
fn a_report_without_results_conforms(rt: HostRuntime) -> Result<(), Fail> {
    let alloc = rt.alloc();
    let shapes = ShapesGraph::empty(alloc)?;
    let text = report(alloc, &[], shapes.shapes())?;
    assert_eq!(rt; text.as_str(), CONFORMS);
    Ok(())
}
