//! Shapes graphs and data graphs, each with the text that explains its validation.

// Fewer values than sh:minCount: the one look finds nothing (SHACL 4.2.1). With a value the graph conforms.
pub(crate) const MIN_COUNT: &str = "@prefix sh: <http://www.w3.org/ns/shacl#> .
<e:S> sh:targetNode <e:a> ; sh:property <e:P> .
<e:P> sh:path <e:p> ; sh:minCount 1 .
";

pub(crate) const NO_VALUE: &str = "result 1
shape <e:S>
at <e:a>
source <e:P>
focus <e:a>
component 4
parameter \"1\"^^<http://www.w3.org/2001/XMLSchema#integer>
out <e:a> <e:p>
end
";

// The way back along a predicate is looked at with the predicate and the object (2.3.1.4).
pub(crate) const INVERSE: &str = "@prefix sh: <http://www.w3.org/ns/shacl#> .
<e:S> sh:targetNode <e:a> ; sh:property <e:P> .
<e:P> sh:path [ sh:inversePath <e:p> ] ; sh:nodeKind sh:Literal .
";

pub(crate) const TWO_SUBJECTS: &str = "<e:c> <e:p> <e:a> .
<e:b> <e:p> <e:a> .
<e:a> <e:p> <e:d> .
";

pub(crate) const BOTH_SUBJECTS: &str = "result 1
shape <e:S>
at <e:a>
source <e:P>
focus <e:a>
component 3
parameter <http://www.w3.org/ns/shacl#Literal>
about <e:b>
value <e:b>
in <e:p> <e:a>
<e:b> <e:p> <e:a> .
<e:c> <e:p> <e:a> .
end
result 2
shape <e:S>
at <e:a>
source <e:P>
focus <e:a>
component 3
parameter <http://www.w3.org/ns/shacl#Literal>
about <e:c>
value <e:c>
in <e:p> <e:a>
<e:b> <e:p> <e:a> .
<e:c> <e:p> <e:a> .
end
";

// A target by its class is looked at along rdf:type and then any number of rdfs:subClassOf (2.1.3.2). The looks are in the
// order of terms.
pub(crate) const CLASS: &str = "@prefix sh: <http://www.w3.org/ns/shacl#> .
<e:S> sh:targetClass <e:C> ; sh:nodeKind sh:Literal .
";

pub(crate) const SUBCLASS: &str = "@prefix rdfs: <http://www.w3.org/2000/01/rdf-schema#> .
<e:a> a <e:D> ; <e:p> <e:b> .
<e:D> rdfs:subClassOf <e:C> .
<e:B> rdfs:subClassOf <e:C> .
";

pub(crate) const OF_SUBCLASS: &str = "result 1
shape <e:S>
at <e:a>
source <e:S>
focus <e:a>
component 3
parameter <http://www.w3.org/ns/shacl#Literal>
about <e:a>
value <e:a>
out <e:C> <http://www.w3.org/2000/01/rdf-schema#subClassOf>
out <e:D> <http://www.w3.org/2000/01/rdf-schema#subClassOf>
<e:D> <http://www.w3.org/2000/01/rdf-schema#subClassOf> <e:C> .
out <e:a> <http://www.w3.org/1999/02/22-rdf-syntax-ns#type>
<e:a> <http://www.w3.org/1999/02/22-rdf-syntax-ns#type> <e:D> .
end
";

// A closed shape looks at all triples of its value nodes, behind the looks by predicates (4.8.1).
pub(crate) const CLOSED: &str = "@prefix sh: <http://www.w3.org/ns/shacl#> .
<e:S> sh:targetNode <e:a> ; sh:closed true ; sh:property <e:P> .
<e:P> sh:path <e:p> .
";

pub(crate) const ANOTHER_PREDICATE: &str = "<e:a> <e:p> 1 ; <e:q> <e:b> .
<e:b> <e:q> <e:a> .
";

pub(crate) const NOT_ALLOWED: &str = "result 1
shape <e:S>
at <e:a>
source <e:S>
focus <e:a>
component 26
parameter \"true\"^^<http://www.w3.org/2001/XMLSchema#boolean>
about <e:a>
value <e:b>
other <e:q>
out <e:a> <e:p>
<e:a> <e:p> \"1\"^^<http://www.w3.org/2001/XMLSchema#integer> .
any <e:a>
<e:a> <e:p> \"1\"^^<http://www.w3.org/2001/XMLSchema#integer> .
<e:a> <e:q> <e:b> .
end
";

// One result that two shapes give at two of their targets each: the least shape shows it, at its least target.
pub(crate) const SHARED: &str = "@prefix sh: <http://www.w3.org/ns/shacl#> .
<e:T> sh:targetNode <e:a> ; sh:property <e:Q> .
<e:S> sh:targetNode <e:c>, <e:b> ; sh:property <e:Q> .
<e:Q> sh:path <e:q> ; sh:property <e:P> .
<e:P> sh:path <e:p> ; sh:minCount 1 .
";

pub(crate) const SHARED_VALUE: &str = "<e:a> <e:q> <e:x> .
<e:b> <e:q> <e:x> .
<e:c> <e:q> <e:x> .
";

pub(crate) const OF_THE_LEAST: &str = "result 1
shape <e:S>
at <e:b>
source <e:P>
focus <e:x>
component 4
parameter \"1\"^^<http://www.w3.org/2001/XMLSchema#integer>
out <e:b> <e:q>
<e:b> <e:q> <e:x> .
out <e:x> <e:p>
end
";
