//! Texts that are verified or not, over the shapes graphs and data graphs of `rows`.

// The one look that decides the result isn't told.
pub(crate) const WITHOUT_ITS_LOOK: &str = "result 1
shape <e:S>
at <e:a>
source <e:P>
focus <e:a>
component 4
parameter \"1\"^^<http://www.w3.org/2001/XMLSchema#integer>
end
";

// A look that decides nothing may stand there too.
pub(crate) const WITH_A_LOOK_MORE: &str = "result 1
shape <e:S>
at <e:a>
source <e:P>
focus <e:a>
component 4
parameter \"1\"^^<http://www.w3.org/2001/XMLSchema#integer>
out <e:a> <e:p>
out <e:b> <e:p>
end
";

// Looks strictly ascend.
pub(crate) const WITH_ITS_LOOK_TWICE: &str = "result 1
shape <e:S>
at <e:a>
source <e:P>
focus <e:a>
component 4
parameter \"1\"^^<http://www.w3.org/2001/XMLSchema#integer>
out <e:a> <e:p>
out <e:a> <e:p>
end
";

// A triple under a look must be one of the data.
pub(crate) const WITH_A_TRIPLE_OF_NO_DATA: &str = "result 1
shape <e:S>
at <e:a>
source <e:P>
focus <e:a>
component 4
parameter \"1\"^^<http://www.w3.org/2001/XMLSchema#integer>
out <e:a> <e:p>
<e:a> <e:p> <e:b> .
end
";

// The node is no target of the shape.
pub(crate) const AT_NO_TARGET: &str = "result 1
shape <e:S>
at <e:b>
source <e:P>
focus <e:a>
component 4
parameter \"1\"^^<http://www.w3.org/2001/XMLSchema#integer>
out <e:a> <e:p>
end
";

// A line that an absent part of the result has not.
pub(crate) const WITH_A_LINE_MORE: &str = "result 1
shape <e:S>
at <e:a>
source <e:P>
focus <e:a>
component 4
parameter \"1\"^^<http://www.w3.org/2001/XMLSchema#integer>
value <e:a>
out <e:a> <e:p>
end
";

// No other spelling is read.
pub(crate) const WITH_A_SPACE_MORE: &str = "result 1
shape <e:S>
at <e:a>
source <e:P>
focus <e:a>
component 4
parameter \"1\"^^<http://www.w3.org/2001/XMLSchema#integer>
out <e:a>  <e:p>
end
";

// The text ends within its block.
pub(crate) const WITHOUT_ITS_END: &str = "result 1
shape <e:S>
at <e:a>
source <e:P>
focus <e:a>
component 4
parameter \"1\"^^<http://www.w3.org/2001/XMLSchema#integer>
out <e:a> <e:p>
";

// Blocks are numbered from 1.
pub(crate) const FROM_2_ON: &str = "result 2
shape <e:S>
at <e:a>
source <e:P>
focus <e:a>
component 4
parameter \"1\"^^<http://www.w3.org/2001/XMLSchema#integer>
out <e:a> <e:p>
end
";

// The second block lacks a triple that its look finds.
pub(crate) const SECOND_WITHOUT_A_TRIPLE: &str = "result 1
shape <e:S>
at <e:a>
source <e:P>
focus <e:a>
component 3
parameter <http://www.w3.org/ns/shacl#Literal>
about <e:b>
value <e:b>
in <e:p> <e:a>
<e:b> <e:p> <e:a> .
<e:c> <e:p> <e:a> .
end
result 2
shape <e:S>
at <e:a>
source <e:P>
focus <e:a>
component 3
parameter <http://www.w3.org/ns/shacl#Literal>
about <e:c>
value <e:c>
in <e:p> <e:a>
<e:c> <e:p> <e:a> .
end
";

// The triples under a look are in their order.
pub(crate) const SECOND_WITH_TRIPLES_TURNED: &str = "result 1
shape <e:S>
at <e:a>
source <e:P>
focus <e:a>
component 3
parameter <http://www.w3.org/ns/shacl#Literal>
about <e:b>
value <e:b>
in <e:p> <e:a>
<e:b> <e:p> <e:a> .
<e:c> <e:p> <e:a> .
end
result 2
shape <e:S>
at <e:a>
source <e:P>
focus <e:a>
component 3
parameter <http://www.w3.org/ns/shacl#Literal>
about <e:c>
value <e:c>
in <e:p> <e:a>
<e:c> <e:p> <e:a> .
<e:b> <e:p> <e:a> .
end
";

// The rows of two results, mixed.
pub(crate) const SECOND_OF_ANOTHER_RESULT: &str = "result 1
shape <e:S>
at <e:a>
source <e:P>
focus <e:a>
component 3
parameter <http://www.w3.org/ns/shacl#Literal>
about <e:b>
value <e:b>
in <e:p> <e:a>
<e:b> <e:p> <e:a> .
<e:c> <e:p> <e:a> .
end
result 2
shape <e:S>
at <e:a>
source <e:P>
focus <e:a>
component 3
parameter <http://www.w3.org/ns/shacl#Literal>
about <e:c>
value <e:b>
in <e:p> <e:a>
<e:b> <e:p> <e:a> .
<e:c> <e:p> <e:a> .
end
";

// Each number is one more than the one before it.
pub(crate) const SECOND_NUMBERED_3: &str = "result 1
shape <e:S>
at <e:a>
source <e:P>
focus <e:a>
component 3
parameter <http://www.w3.org/ns/shacl#Literal>
about <e:b>
value <e:b>
in <e:p> <e:a>
<e:b> <e:p> <e:a> .
<e:c> <e:p> <e:a> .
end
result 3
shape <e:S>
at <e:a>
source <e:P>
focus <e:a>
component 3
parameter <http://www.w3.org/ns/shacl#Literal>
about <e:c>
value <e:c>
in <e:p> <e:a>
<e:b> <e:p> <e:a> .
<e:c> <e:p> <e:a> .
end
";

// Not every result needs a block, and no order of results is asked for.
pub(crate) const SECOND_RESULT_ALONE: &str = "result 1
shape <e:S>
at <e:a>
source <e:P>
focus <e:a>
component 3
parameter <http://www.w3.org/ns/shacl#Literal>
about <e:c>
value <e:c>
in <e:p> <e:a>
<e:b> <e:p> <e:a> .
<e:c> <e:p> <e:a> .
end
";

// The looks of a class, in another order.
pub(crate) const LOOKS_IN_ANOTHER_ORDER: &str = "result 1
shape <e:S>
at <e:a>
source <e:S>
focus <e:a>
component 3
parameter <http://www.w3.org/ns/shacl#Literal>
about <e:a>
value <e:a>
out <e:D> <http://www.w3.org/2000/01/rdf-schema#subClassOf>
<e:D> <http://www.w3.org/2000/01/rdf-schema#subClassOf> <e:C> .
out <e:C> <http://www.w3.org/2000/01/rdf-schema#subClassOf>
out <e:a> <http://www.w3.org/1999/02/22-rdf-syntax-ns#type>
<e:a> <http://www.w3.org/1999/02/22-rdf-syntax-ns#type> <e:D> .
end
";

// The look at the classes above the class of the target isn't told.
pub(crate) const WITHOUT_THE_LOOK_AT_A_CLASS: &str = "result 1
shape <e:S>
at <e:a>
source <e:S>
focus <e:a>
component 3
parameter <http://www.w3.org/ns/shacl#Literal>
about <e:a>
value <e:a>
out <e:C> <http://www.w3.org/2000/01/rdf-schema#subClassOf>
out <e:a> <http://www.w3.org/1999/02/22-rdf-syntax-ns#type>
<e:a> <http://www.w3.org/1999/02/22-rdf-syntax-ns#type> <e:D> .
end
";

// Nor the one that finds nothing.
pub(crate) const WITHOUT_THE_LOOK_THAT_FINDS_NOTHING: &str = "result 1
shape <e:S>
at <e:a>
source <e:S>
focus <e:a>
component 3
parameter <http://www.w3.org/ns/shacl#Literal>
about <e:a>
value <e:a>
out <e:D> <http://www.w3.org/2000/01/rdf-schema#subClassOf>
<e:D> <http://www.w3.org/2000/01/rdf-schema#subClassOf> <e:C> .
out <e:a> <http://www.w3.org/1999/02/22-rdf-syntax-ns#type>
<e:a> <http://www.w3.org/1999/02/22-rdf-syntax-ns#type> <e:D> .
end
";

// A triple of the data that its look doesn't find.
pub(crate) const WITH_A_CLASS_MORE: &str = "result 1
shape <e:S>
at <e:a>
source <e:S>
focus <e:a>
component 3
parameter <http://www.w3.org/ns/shacl#Literal>
about <e:a>
value <e:a>
out <e:C> <http://www.w3.org/2000/01/rdf-schema#subClassOf>
out <e:D> <http://www.w3.org/2000/01/rdf-schema#subClassOf>
<e:D> <http://www.w3.org/2000/01/rdf-schema#subClassOf> <e:C> .
<e:B> <http://www.w3.org/2000/01/rdf-schema#subClassOf> <e:C> .
out <e:a> <http://www.w3.org/1999/02/22-rdf-syntax-ns#type>
<e:a> <http://www.w3.org/1999/02/22-rdf-syntax-ns#type> <e:D> .
end
";

// The shape and the target need not be the least ones.
pub(crate) const OF_ANOTHER_SHAPE: &str = "result 1
shape <e:T>
at <e:a>
source <e:P>
focus <e:x>
component 4
parameter \"1\"^^<http://www.w3.org/2001/XMLSchema#integer>
out <e:a> <e:q>
<e:a> <e:q> <e:x> .
out <e:x> <e:p>
end
";

// A property shape that has no target.
pub(crate) const OF_NO_SHAPE: &str = "result 1
shape <e:P>
at <e:x>
source <e:P>
focus <e:x>
component 4
parameter \"1\"^^<http://www.w3.org/2001/XMLSchema#integer>
out <e:x> <e:p>
end
";
