//! Components that read the data graph beside the value nodes: pairs and closed shapes.
ghost use Rattle.rdf_model.specs.Numbers.{AreNumbered};

use crate::case::{Case, site_of};
use crate::tables::{Calls, assert_table};
use component_rows::Site;
use pair_constraints::{disjoint, equals, less_than, less_than_or_equals};
use rdf_model::{ListGraph, ListNames};
use shape_model::ResultRow;
use std::alloc::{AllocError, Global};
use value_constraints::closed;

// The value nodes and the values of e:q: equal ones, pairs in order, of equal value, and that don't compare.
const PAIRS: &str = "\
LessThan; e:q; 5^integer; 3^integer 4^integer; 5^integer|5^integer|3^integer 5^integer|5^integer|4^integer
LessThan; e:q; 5^integer; 5^integer 5.0^decimal 6^integer; 5^integer|5^integer|5^integer 5^integer|5^integer|5.0^decimal
LessThanOrEquals; e:q; 5^integer; 5^integer 5.0^decimal 6^integer 4.9^decimal; 5^integer|5^integer|4.9^decimal
LessThan; e:q; 1^integer e:a _1 x@en; 2^integer; _1|_1|2^integer e:a|e:a|2^integer x@en|x@en|2^integer
LessThanOrEquals; e:q; e:a x@en _1; e:a; _1|_1|e:a e:a|e:a|e:a x@en|x@en|e:a
LessThan; e:q; 1^integer; b^string 2^integer two^integer; 1^integer|1^integer|b^string 1^integer|1^integer|two^integer
LessThan; e:q; 2000-01-01^date 2000-01-01Z^date; 2000-01-02Z^date 2000-01-02^date; 2000-01-01^date|2000-01-01^date|2000-01-02Z^date 2000-01-01Z^date|2000-01-01Z^date|2000-01-02^date
LessThanOrEquals; e:q; 2000-01-01T00:00:00Z^dateTime; 2000-01-01T01:00:00+01:00^dateTime 2000-01-01T00:00:00^dateTime; 2000-01-01T00:00:00Z^dateTime|2000-01-01T00:00:00Z^dateTime|2000-01-01T00:00:00^dateTime
LessThanOrEquals; e:q; two^integer; two^integer 1^integer; two^integer|two^integer|1^integer two^integer|two^integer|two^integer
LessThan; e:q; a^string b@en; b^string; b@en|b@en|b^string
LessThanOrEquals; e:q; 1^integer;;
LessThan; e:q; 1^integer;;
LessThan; e:q;; 1^integer;
Equals; e:q; e:a 1^integer; 1^integer e:b; e:a e:b
Equals; e:q; 1^integer; 1.0^decimal; 1^integer 1.0^decimal
Equals; e:q; x@en _1; _1 x@EN;
Equals; e:q; five^integer; five^integer;
Equals; e:q; five^integer; six^integer; five^integer six^integer
Equals; e:q; e:a _1;; _1 e:a
Equals; e:q;; e:a e:a x^string; e:a x^string
Equals; e:q;;;
Disjoint; e:q; e:a 1^integer _1 x@en; x@EN 1^integer _2 e:b; 1^integer x@en
Disjoint; e:q; 1^integer; 1.0^decimal 1^string;
Disjoint; e:q; _1 e:a; _1 e:a; _1 e:a
Disjoint; e:q; five^integer e:a; five^integer; five^integer
Disjoint; e:q;; e:a;
Disjoint; e:q; e:q;;";

// Triples of several subjects, and the predicates that a closed shape allows. Another literal than true has no effect.
pub(crate) const GRAPH: &str = "\
e:a rdf:type e:C
e:a e:p e:b
e:a e:p e:c
e:b e:p 1^integer
e:b e:q e:b
e:b e:p e:q";

const CLOSINGS: &str = "\
Closed; true^boolean; e:a; rdf:type; e:a|e:b|e:p e:a|e:c|e:p
Closed; true^boolean; e:a;; e:a|e:C|rdf:type e:a|e:b|e:p e:a|e:c|e:p
Closed; true^boolean; e:a e:b; e:p rdf:type e:p; e:b|e:b|e:q
Closed; true^boolean; e:b; e:q; e:b|e:q|e:p e:b|1^integer|e:p
Closed; true^boolean; e:a; e:p rdf:type;
Closed; true^boolean; e:b five^integer; e:p e:p; e:b|e:b|e:q
Closed; true^boolean; e:c 1^integer _1;;
Closed; 1^boolean; e:a e:b;;
Closed; false^boolean; e:a e:b; e:p;
Closed; true^boolean;;;";

fn pair_rows(
    component: &str,
    graph: &ListGraph,
    site: &Site<'_, ListNames>,
) -> Result<Vec<ResultRow>, AllocError>
    requires { AreNumbered site.now.terms graph.now }
{
    match component {
        "Equals" => equals(graph, site),
        "Disjoint" => disjoint(graph, site),
        "LessThan" => less_than(graph, site),
        _ => less_than_or_equals(graph, site),
    }
}

pub(crate) fn pair_rows_of(alloc: Global, case: &Case<'_>) -> Result<Vec<ResultRow>, AllocError> {
    pair_rows(case.component(), case.graph(), &site_of(alloc, case))
}

pub(crate) fn closed_rows(alloc: Global, case: &Case<'_>) -> Result<Vec<ResultRow>, AllocError> {
    closed(case.graph(), &site_of(alloc, case), case.members())
}

#[test]
fn pairs_and_closings(rt: HostRuntime) -> Result<(), AllocError> {
    assert_table(&rt, rt.alloc(), Calls::Pairs, PAIRS)?;
    assert_table(&rt, rt.alloc(), Calls::Closings, CLOSINGS)
}
