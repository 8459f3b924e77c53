//! Components of values: ranges, sets, kinds and counts.
ghost use Rattle.component_rows.specs.Nodes.{AreNodes};

use crate::case::{Case, site_of};
use crate::tables::{Calls, assert_table};
use component_rows::Site;
use rdf_model::ListNames;
use shape_model::ResultRow;
use std::alloc::{AllocError, Global};
use value_constraints::{
    datatype, has_value, in_list, max_count, max_exclusive, max_inclusive, min_count,
    min_exclusive, min_inclusive, node_kind,
};

// Bounds equal to the value, values of other types that compare and that don't, ill-typed ones, dates with an
// offset and without.
const RANGES: &str = "\
MinInclusive; 5^integer; 5.^decimal .5^decimal;; .5^decimal
MinInclusive; 5^integer; 4^integer 5^integer 6^integer 05^byte;; 4^integer
MinExclusive; 5^integer; 4^integer 5^integer 6^integer 5.0^decimal 5.01^decimal;; 4^integer 5^integer 5.0^decimal
MaxInclusive; 5^integer; 4^integer 5^integer 6^integer 5.00^decimal;; 6^integer
MaxExclusive; 5^integer; 4^integer 5^integer 6^integer 4.99^decimal;; 5^integer 6^integer
MinInclusive; 0^integer; e:a _1 5^string x@en five^integer 1.5^integer 300^byte true^boolean 1^float 1^integer;; _1 e:a 1^float 1.5^integer 300^byte 5^string five^integer true^boolean x@en
MaxExclusive; 0^integer; e:a _1 -5^string x@en five^integer -200^byte false^boolean -1^integer;; _1 e:a -200^byte -5^string false^boolean five^integer x@en
MinExclusive; five^integer; five^integer 9^integer;; 9^integer five^integer
MaxInclusive; e:a; e:a 1^integer;; e:a 1^integer
MinInclusive; 2000-01-01^date; 2000-01-01^date 1999-12-31^date 2000-01-01Z^date 2000-01-02^date 2000-02-30^date;; 1999-12-31^date 2000-01-01Z^date 2000-02-30^date
MaxInclusive; 2000-01-01Z^date; 2000-01-01Z^date 2000-01-01+01:00^date 2000-01-01-01:00^date 1999-01-01^date;; 1999-01-01^date 2000-01-01-01:00^date
MinExclusive; 2000-01-01T00:00:00Z^dateTime; 2000-01-01T01:00:00+01:00^dateTime 2000-01-01T00:00:00.1Z^dateTime 1999-12-31T24:00:00Z^dateTime 2001-01-01T00:00:00^dateTime 2001-01-01Z^date;; 1999-12-31T24:00:00Z^dateTime 2000-01-01T01:00:00+01:00^dateTime 2001-01-01T00:00:00^dateTime 2001-01-01Z^date
MaxExclusive; true^boolean; false^boolean 0^boolean true^boolean 1^boolean;; 1^boolean true^boolean
MaxExclusive; b^string; a^string b^string ab^string c^string ^string a@en;; a@en b^string c^string
MinInclusive; 2000-01-01T00:00:00^dateTime; 2000-01-01T00:00:00^dateTime 2000-01-02T00:00:00Z^dateTime 2000-01-01T00:00:00Z^dateTime 1999-12-31T23:59:59^dateTime;; 1999-12-31T23:59:59^dateTime 2000-01-01T00:00:00Z^dateTime 2000-01-02T00:00:00Z^dateTime
MaxExclusive; 5^integer; e:a _1 five^integer x@en 4^integer;; _1 e:a five^integer x@en
MinInclusive; 5^integer;;;";

// Terms that are members and value nodes, values alike that are other terms, empty lists, repeated members.
const SETS: &str = "\
In; e:L; 5.^decimal .5^decimal; 5.0^decimal; .5^decimal 5.^decimal
In; e:L; e:a _1 x@en x^string; e:a x@EN e:a; _1 x^string
In; e:L; e:a 1^integer;; e:a 1^integer
In; e:L;; e:a;
In; e:L; five^integer six^integer e:a; five^integer; e:a six^integer
In; e:L; x@en-US x@en; x@EN-us; x@en
In; e:L; e:L; e:a; e:L
In; e:L; _1 _2 x^string; x^string _2 e:a _2; _1
HasValue; e:v; e:a e:v _1;;
HasValue; e:v; e:a _1;; -
HasValue; 1^integer; 01^integer 1^decimal 1^string;; -
HasValue; x@en; x@EN;;
HasValue; x^string; x@en;; -
HasValue; _1; _1;;
HasValue; _1; _2 e:a;; -
HasValue; five^integer; five^integer;;
HasValue; e:v;;; -
Datatype; http://www.w3.org/2001/XMLSchema#integer; 1^integer -1^integer five^integer 1.0^integer ^integer 1^int 1^decimal 1^string e:a _1;; _1 e:a ^integer 1^decimal 1^int 1^string 1.0^integer five^integer
Datatype; http://www.w3.org/2001/XMLSchema#byte; 127^byte 128^byte -128^byte -129^byte +5^byte;; -129^byte 128^byte
Datatype; http://www.w3.org/2001/XMLSchema#date; 2000-02-29^date 1900-02-29^date 2000-02-29Z^date 2000-02-29+14:00^date 2000-02-29+14:01^date 2000-02-29T00:00:00^date 2000-2-29^date;; 1900-02-29^date 2000-02-29+14:01^date 2000-02-29T00:00:00^date 2000-2-29^date
Datatype; http://www.w3.org/2001/XMLSchema#float; 1^float abc^float 1^double;; 1^double
Datatype; http://www.w3.org/2001/XMLSchema#boolean; true^boolean 0^boolean TRUE^boolean 2^boolean;; 2^boolean TRUE^boolean
Datatype; http://www.w3.org/1999/02/22-rdf-syntax-ns#langString; x@en x@EN-us x^string;; x^string
Datatype; http://www.w3.org/2001/XMLSchema#string; x^string ^string x@en http://www.w3.org/2001/XMLSchema#string;; http://www.w3.org/2001/XMLSchema#string x@en";

// The six kinds and a term that is none; counts 0 and 1, below 0, with a sign, and terms that say no number.
const KINDS: &str = "\
NodeKind; http://www.w3.org/ns/shacl#IRI; e:a _1 x^string 1^integer;; _1 1^integer x^string
NodeKind; http://www.w3.org/ns/shacl#BlankNode; e:a _1 x@en;; e:a x@en
NodeKind; http://www.w3.org/ns/shacl#Literal; e:a _1 x^string;; _1 e:a
NodeKind; http://www.w3.org/ns/shacl#BlankNodeOrIRI; e:a _1 x^string;; x^string
NodeKind; http://www.w3.org/ns/shacl#BlankNodeOrLiteral; e:a _1 x@en;; e:a
NodeKind; http://www.w3.org/ns/shacl#IRIOrLiteral; e:a _1 x@en;; _1
NodeKind; http://www.w3.org/ns/shacl#Literal; five^integer x@EN e:a _1;; _1 e:a
NodeKind; http://www.w3.org/ns/shacl#IRI;;;
NodeKind; e:IRI; e:a;; e:a
MinCount; 1^integer; e:a;;
MinCount; 1^integer;;; -
MinCount; 1^integer; five^integer;;
MinCount; 2^integer; e:a;; -
MinCount; 2^integer; e:a e:a;; -
MinCount; 0^integer;;;
MinCount; -1^integer;;;
MinCount; +2^integer; e:a x^string;;
MinCount; x^integer;;;
MaxCount; 0^integer; e:a;; -
MaxCount; 0^integer;;;
MaxCount; 1^integer; e:a _1;; -
MaxCount; 1^integer; e:a e:a;;
MaxCount; 1^integer; x@en x@EN;;
MaxCount; 2^integer; e:a _1;;
MaxCount; -1^integer;;; -
MaxCount; 1^int; e:a _1;;";

fn value_rows(
    component: &str,
    site: &Site<'_, ListNames>,
    members: &[u32],
) -> Result<Vec<ResultRow>, AllocError>
    requires { AreNodes site.now.terms members.now }
{
    match component {
        "MinInclusive" => min_inclusive(site),
        "MinExclusive" => min_exclusive(site),
        "MaxInclusive" => max_inclusive(site),
        "MaxExclusive" => max_exclusive(site),
        "In" => in_list(site, members),
        "HasValue" => has_value(site),
        "Datatype" => datatype(site),
        "MinCount" => min_count(site),
        "MaxCount" => max_count(site),
        _ => node_kind(site),
    }
}

pub(crate) fn value_rows_of(alloc: Global, case: &Case<'_>) -> Result<Vec<ResultRow>, AllocError> {
    value_rows(case.component(), &site_of(alloc, case), case.members())
}

#[test]
fn values(rt: HostRuntime) -> Result<(), AllocError> {
    for table in [RANGES, SETS, KINDS] {
        assert_table(&rt, rt.alloc(), Calls::Values, table)?;
    }
    Ok(())
}
