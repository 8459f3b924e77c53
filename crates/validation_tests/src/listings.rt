//! The listings of texts, by both validators.
use crate::short_forms::{push_optional, text_of_rows};
use outside::RegexMaker;
use plain_validation::{BothListings, RowsFault, both_listings};
use std::alloc::{AllocError, Global};
use std::process::Abort;
use std::test::Fail;

// Texts of a data graph and a shapes graph with the rows that validation gives, a line for each: the source
// shape, the focus node, the component and its parameter, the value node that it is about, the value and
// what else tells results apart. Or the fault that there is. `sh` and `xsd` are short for their namespaces.
struct Case {
    name: &'static str,
    graph: &'static str,
    shapes: &'static str,
    answer: &'static str,
}

const AT_LEAST_ONE: &str = "<e:S> <sh:targetNode> <e:a> .
<e:S> <sh:property> <e:P> .
<e:P> <sh:path> <e:p> .
<e:P> <sh:minCount> \"1\"^^<xsd:integer> .
";

const AT_MOST_ONE: &str = "<e:P> <sh:targetNode> <e:a> .
<e:P> <sh:path> <e:p> .
<e:P> <sh:maxCount> \"1\"^^<xsd:integer> .
";

const NONE_OR_ONE: &str = "<e:P> <sh:targetNode> <e:a> .
<e:P> <sh:path> <e:p> .
<e:P> <sh:minCount> \"0\"^^<xsd:integer> .
<e:P> <sh:maxCount> \"000000000000000001\"^^<xsd:integer> .
";

const CASES: &[Case] = &[
    Case {
        name: "no value where one is asked for (SHACL 2.1.3.1, 4.2.1)",
        graph: "",
        shapes: AT_LEAST_ONE,
        answer: "<e:P> <e:a> MinCount \"1\"^^<xsd:integer> - - -\n",
    },
    Case {
        name: "the value that is asked for",
        graph: "<e:a> <e:p> <e:b> .\n",
        shapes: AT_LEAST_ONE,
        answer: "",
    },
    Case {
        name: "two values where one is allowed (4.2.2)",
        graph: "<e:a> <e:p> <e:b> .\n<e:a> <e:p> \"x\" .\n",
        shapes: AT_MOST_ONE,
        answer: "<e:P> <e:a> MaxCount \"1\"^^<xsd:integer> - - -\n",
    },
    Case {
        name: "one value, written twice",
        graph: "<e:a> <e:p> \"x\" .\n<e:a> <e:p> \"x\" .\n",
        shapes: AT_MOST_ONE,
        answer: "",
    },
    Case {
        name: "a value where none is allowed",
        graph: "<e:a> <e:p> <e:b> .\n<e:b> <e:p> <e:a> .\n",
        shapes: "<e:P> <sh:targetNode> <e:a> .
<e:P> <sh:path> <e:p> .
<e:P> <sh:maxCount> \"0\"^^<xsd:integer> .
",
        answer: "<e:P> <e:a> MaxCount \"0\"^^<xsd:integer> - - -\n",
    },
    Case {
        name: "a literal and a blank node that are no IRI (4.1.3), in the order of terms",
        graph: "<e:a> <e:p> \"x\" .\n<e:a> <e:p> <e:b> .\n<e:a> <e:p> _:b .\n",
        shapes: "<e:P> <sh:targetNode> <e:a> .
<e:P> <sh:path> <e:p> .
<e:P> <sh:nodeKind> <sh:IRI> .
",
        answer: "<e:P> <e:a> NodeKind <sh:IRI> _:s1x1 _:s1x1 -
<e:P> <e:a> NodeKind <sh:IRI> \"x\" \"x\" -
",
    },
    Case {
        name: "a node shape, whose value node is the focus node (2.2)",
        graph: "<e:a> <e:p> \"x\" .\n",
        shapes: "<e:S> <sh:targetNode> <e:a> .\n<e:S> <sh:nodeKind> <sh:Literal> .\n",
        answer: "<e:S> <e:a> NodeKind <sh:Literal> <e:a> <e:a> -\n",
    },
    Case {
        name: "a literal as the focus node (2.1.3.1)",
        graph: "",
        shapes: "<e:S> <sh:targetNode> \"x\" .\n<e:S> <sh:nodeKind> <sh:IRI> .\n",
        answer: "<e:S> \"x\" NodeKind <sh:IRI> \"x\" \"x\" -\n",
    },
    Case {
        name: "two subjects of a predicate (2.1.3.4), one of which is a target twice",
        graph: "<e:b> <e:q> <e:c> .
<e:a> <e:q> <e:b> .
<e:a> <e:q> <e:c> .
<e:c> <e:p> <e:a> .
",
        shapes: "<e:P> <sh:targetSubjectsOf> <e:q> .
<e:P> <sh:targetNode> <e:b> .
<e:P> <sh:path> <e:p> .
<e:P> <sh:minCount> \"1\"^^<xsd:integer> .
",
        answer: "<e:P> <e:a> MinCount \"1\"^^<xsd:integer> - - -
<e:P> <e:b> MinCount \"1\"^^<xsd:integer> - - -
",
    },
    Case {
        name: "the property shapes of one shape (2.3.1), in the order of terms, a blank node first",
        graph: "<e:a> <e:q> <e:b> .\n<e:a> <e:r> <e:b> .\n",
        shapes: "<e:S> <sh:targetNode> <e:a> .
<e:S> <sh:property> <e:Q> .
<e:S> <sh:property> <e:P> .
<e:S> <sh:property> _:r .
<e:P> <sh:path> <e:p> .
<e:P> <sh:minCount> \"1\"^^<xsd:integer> .
<e:Q> <sh:path> <e:q> .
<e:Q> <sh:maxCount> \"0\"^^<xsd:integer> .
_:r <sh:path> <e:r> .
_:r <sh:nodeKind> <sh:BlankNodeOrLiteral> .
",
        answer: "_:s2x1 <e:a> NodeKind <sh:BlankNodeOrLiteral> <e:b> <e:b> -
<e:P> <e:a> MinCount \"1\"^^<xsd:integer> - - -
<e:Q> <e:a> MaxCount \"0\"^^<xsd:integer> - - -
",
    },
    Case {
        name: "a property shape with targets of its own",
        graph: "<e:b> <e:p> \"x\" .\n",
        shapes: "<e:S> <sh:targetNode> <e:a> .
<e:S> <sh:property> <e:P> .
<e:P> <sh:targetNode> <e:b> .
<e:P> <sh:path> <e:p> .
<e:P> <sh:nodeKind> <sh:IRI> .
<e:P> <sh:minCount> \"2\"^^<xsd:integer> .
",
        answer: "<e:P> <e:a> MinCount \"2\"^^<xsd:integer> - - -
<e:P> <e:b> NodeKind <sh:IRI> \"x\" \"x\" -
<e:P> <e:b> MinCount \"2\"^^<xsd:integer> - - -
",
    },
    Case {
        name: "a value of another node",
        graph: "<e:b> <e:p> <e:c> .\n",
        shapes: AT_LEAST_ONE,
        answer: "<e:P> <e:a> MinCount \"1\"^^<xsd:integer> - - -\n",
    },
    Case {
        name: "no value where none is asked for",
        graph: "",
        shapes: NONE_OR_ONE,
        answer: "",
    },
    Case {
        name: "one value where one is allowed, by a literal of eighteen digits",
        graph: "<e:a> <e:p> \"x\" .\n<e:a> <e:p> \"x\" .\n",
        shapes: NONE_OR_ONE,
        answer: "",
    },
    Case {
        name: "two values where one is allowed, by a literal of eighteen digits",
        graph: "<e:a> <e:p> \"x\" .\n<e:a> <e:p> \"y\" .\n",
        shapes: NONE_OR_ONE,
        answer: "<e:P> <e:a> MaxCount \"000000000000000001\"^^<xsd:integer> - - -\n",
    },
    Case {
        name: "the subjects of a predicate, with an IRI among the values",
        graph: "<e:c> <e:p> \"y\" .
<e:a> <e:p> \"x\" .
<e:b> <e:q> \"x\" .
<e:c> <e:p> <e:a> .
<e:c> <e:p> \"x\" .
",
        shapes: "<e:P> <sh:targetSubjectsOf> <e:p> .
<e:P> <sh:path> <e:p> .
<e:P> <sh:nodeKind> <sh:IRI> .
",
        answer: "<e:P> <e:a> NodeKind <sh:IRI> \"x\" \"x\" -
<e:P> <e:c> NodeKind <sh:IRI> \"x\" \"x\" -
<e:P> <e:c> NodeKind <sh:IRI> \"y\" \"y\" -
",
    },
    Case {
        name: "a node with two shapes",
        graph: "",
        shapes: "<e:T> <sh:targetNode> <e:a> .
<e:T> <sh:nodeKind> <sh:Literal> .
<e:S> <sh:targetNode> <e:a> .
<e:S> <sh:nodeKind> <sh:BlankNode> .
",
        answer: "<e:S> <e:a> NodeKind <sh:BlankNode> <e:a> <e:a> -
<e:T> <e:a> NodeKind <sh:Literal> <e:a> <e:a> -
",
    },
    Case {
        name: "two shapes with one property shape",
        graph: "<e:a> <e:q> <e:b> .\n",
        shapes: "<e:T> <sh:targetNode> <e:a> .
<e:T> <sh:property> <e:P> .
<e:T> <sh:targetSubjectsOf> <e:q> .
<e:S> <sh:targetNode> <e:a> .
<e:S> <sh:property> <e:P> .
<e:P> <sh:path> <e:p> .
<e:P> <sh:minCount> \"1\"^^<xsd:integer> .
",
        answer: "<e:P> <e:a> MinCount \"1\"^^<xsd:integer> - - -\n",
    },
    Case {
        name: "without data and without shapes",
        graph: "",
        shapes: "",
        answer: "",
    },
    Case {
        name: "values that are no BlankNode (4.1.3)",
        graph: "<e:a> <e:p> \"x\" .\n<e:a> <e:p> <e:b> .\n<e:a> <e:p> _:b .\n",
        shapes: "<e:P> <sh:targetNode> <e:a> .
<e:P> <sh:path> <e:p> .
<e:P> <sh:nodeKind> <sh:BlankNode> .
",
        answer: "<e:P> <e:a> NodeKind <sh:BlankNode> <e:b> <e:b> -
<e:P> <e:a> NodeKind <sh:BlankNode> \"x\" \"x\" -
",
    },
    Case {
        name: "values that are no Literal (4.1.3)",
        graph: "<e:a> <e:p> \"x\" .\n<e:a> <e:p> <e:b> .\n<e:a> <e:p> _:b .\n",
        shapes: "<e:P> <sh:targetNode> <e:a> .
<e:P> <sh:path> <e:p> .
<e:P> <sh:nodeKind> <sh:Literal> .
",
        answer: "<e:P> <e:a> NodeKind <sh:Literal> _:s1x1 _:s1x1 -
<e:P> <e:a> NodeKind <sh:Literal> <e:b> <e:b> -
",
    },
    Case {
        name: "values that are no BlankNodeOrIRI (4.1.3)",
        graph: "<e:a> <e:p> \"x\" .\n<e:a> <e:p> <e:b> .\n<e:a> <e:p> _:b .\n",
        shapes: "<e:P> <sh:targetNode> <e:a> .
<e:P> <sh:path> <e:p> .
<e:P> <sh:nodeKind> <sh:BlankNodeOrIRI> .
",
        answer: "<e:P> <e:a> NodeKind <sh:BlankNodeOrIRI> \"x\" \"x\" -
",
    },
    Case {
        name: "values that are no IRIOrLiteral (4.1.3)",
        graph: "<e:a> <e:p> \"x\" .\n<e:a> <e:p> <e:b> .\n<e:a> <e:p> _:b .\n",
        shapes: "<e:P> <sh:targetNode> <e:a> .
<e:P> <sh:path> <e:p> .
<e:P> <sh:nodeKind> <sh:IRIOrLiteral> .
",
        answer: "<e:P> <e:a> NodeKind <sh:IRIOrLiteral> _:s1x1 _:s1x1 -
",
    },
    Case {
        name: "no shapes",
        graph: "<e:a> <e:p> <e:b> .\n",
        shapes: "",
        answer: "",
    },
    Case {
        name: "a value of a class by a subclass, and one of none (4.1.1)",
        graph: "<e:a> <e:p> <e:b> .
<e:a> <e:p> \"x\" .
<e:b> <http://www.w3.org/1999/02/22-rdf-syntax-ns#type> <e:C> .
<e:C> <http://www.w3.org/2000/01/rdf-schema#subClassOf> <e:D> .
",
        shapes: "<e:P> <sh:targetNode> <e:a> .\n<e:P> <sh:path> <e:p> .\n<e:P> <sh:class> <e:D> .\n",
        answer: "<e:P> <e:a> Class <e:D> \"x\" \"x\" -\n",
    },
    Case {
        name: "a value of neither of two classes (4.1.1)",
        graph: "<e:a> <e:p> <e:v> .\n",
        shapes: "<e:P> <sh:targetNode> <e:a> .
<e:P> <sh:path> <e:p> .
<e:P> <sh:class> <e:D> .
<e:P> <sh:class> <e:C> .
",
        answer: "<e:P> <e:a> Class <e:C> <e:v> <e:v> -
<e:P> <e:a> Class <e:D> <e:v> <e:v> -
",
    },
    Case {
        name: "a pattern that is refused",
        graph: "",
        shapes: "<e:P> <sh:targetNode> <e:a> .\n<e:P> <sh:pattern> \"(\" .\n",
        answer: "pattern <e:P>\n",
    },
    Case {
        name: "data that is refused, before shapes that are",
        graph: "<e:a> <e:p> <e:b> .\n<e:a> <e:p> <b> .\n",
        shapes: "<a>\n",
        answer: "data 2 RelativeIri\n",
    },
    Case {
        name: "shapes that are refused",
        graph: "<e:a> <e:p> <e:b> .\n",
        shapes: "# A predicate is an IRI.\n\n<e:S> _:p <e:a> .\n",
        answer: "shapes 3 BlankPredicate\n",
    },
    Case {
        name: "a broken rule",
        graph: "",
        shapes: "<e:P> <sh:path> <e:p> .\n<e:P> <sh:maxLength> \"x\"^^<xsd:integer> .\n",
        answer: "rule 19 <e:P> \"x\"^^<xsd:integer>\n",
    },
];

// The text with each IRI in full.
fn expanded(alloc: Global, text: &str) -> Result<String, AllocError> {
    let mut full = String::new(alloc);
    for (i, part) in text.split('<').enumerate() {
        if i > 0 {
            full.push('<')?;
        }
        if let Some(name) = part.strip_prefix("sh:") {
            write!(full, "http://www.w3.org/ns/shacl#{name}")?;
        } else if let Some(name) = part.strip_prefix("xsd:") {
            write!(full, "http://www.w3.org/2001/XMLSchema#{name}")?;
        } else {
            full.push_str(part)?;
        }
    }
    Ok(full)
}

fn text_of_fault(alloc: Global, fault: &RowsFault) -> Result<String, AllocError> {
    match fault {
        RowsFault::Data { line, kind } => format!(in alloc; "data {line} {kind:?}\n"),
        RowsFault::Shapes { line, kind } => format!(in alloc; "shapes {line} {kind:?}\n"),
        RowsFault::Rule(broken) => {
            let number = broken.rule;
            let node = &broken.node;
            let mut text = format!(in alloc; "rule {number} {node}")?;
            push_optional(&mut text, &broken.value)?;
            text.push('\n')?;
            Ok(text)
        }
        RowsFault::Pattern { node } => format!(in alloc; "pattern {node}\n"),
        RowsFault::Memory => format!(in alloc; "memory\n"),
    }
}

// What the case's texts give in both ways.
fn answers(rt: &impl Abort, alloc: Global, case: &Case) -> Result<(String, String), Fail> {
    let graph = expanded(alloc, case.graph)?;
    let shapes = expanded(alloc, case.shapes)?;
    assert!(rt; graph.len() < 1000 && shapes.len() < 2000);
    let mut maker = RegexMaker::new(alloc);
    match both_listings(alloc, &mut maker, graph.as_bytes(), shapes.as_bytes()) {
        Ok(BothListings { plain, compiled }) => {
            let plain = text_of_rows(alloc, plain.as_slice())?;
            let compiled = text_of_rows(alloc, compiled.as_slice())?;
            Ok((plain, compiled))
        }
        Err(fault) => Ok((text_of_fault(alloc, &fault)?, text_of_fault(alloc, &fault)?)),
    }
}

#[test]
fn both_ways_give_the_worked_rows(rt: HostRuntime) -> Result<(), Fail> {
    let alloc = rt.alloc();
    for case in CASES {
        let expected = expanded(alloc, case.answer)?;
        let (plain, compiled) = answers(&rt, alloc, case)?;
        assert_eq!(rt; plain.as_str(), expected.as_str(), "plain: {}", case.name);
        assert_eq!(rt;
            compiled.as_str(),
            expected.as_str(),
            "compiled: {}",
            case.name
        );
    }
    Ok(())
}
