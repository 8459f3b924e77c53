//! The IRIs of RDF, RDFS, XSD and SHACL that several crates read or write, each once.
//!
//! The properties of SHACL that shapes may have are the variants of `ShapeProperty` (shape_properties). What the words mean in
//! definitions is said by `specs/Vocabulary.antt` of `shape_model`.
//!
//! Storey: terms.
#![tactic(auto)]

// RDF 1.1 Concepts 1.4 and 3.3, RDFS 3.3 and 5.2.

pub const RDF_TYPE: &str = "http://www.w3.org/1999/02/22-rdf-syntax-ns#type";

pub const RDF_FIRST: &str = "http://www.w3.org/1999/02/22-rdf-syntax-ns#first";

pub const RDF_REST: &str = "http://www.w3.org/1999/02/22-rdf-syntax-ns#rest";

pub const RDF_NIL: &str = "http://www.w3.org/1999/02/22-rdf-syntax-ns#nil";

pub const RDF_LANG_STRING: &str = "http://www.w3.org/1999/02/22-rdf-syntax-ns#langString";

// RDFS 2.2 and 3.4.

pub const RDFS_CLASS: &str = "http://www.w3.org/2000/01/rdf-schema#Class";

pub const RDFS_SUB_CLASS_OF: &str = "http://www.w3.org/2000/01/rdf-schema#subClassOf";

// XSD 1.1 Part 2, 3.3 and 3.4.

pub const XSD_STRING: &str = "http://www.w3.org/2001/XMLSchema#string";

pub const XSD_BOOLEAN: &str = "http://www.w3.org/2001/XMLSchema#boolean";

pub const XSD_INTEGER: &str = "http://www.w3.org/2001/XMLSchema#integer";

pub const XSD_DECIMAL: &str = "http://www.w3.org/2001/XMLSchema#decimal";

pub const XSD_DOUBLE: &str = "http://www.w3.org/2001/XMLSchema#double";

// SHACL 2.1 and 4.1.3.

pub const SH_NODE_SHAPE: &str = "http://www.w3.org/ns/shacl#NodeShape";

pub const SH_PROPERTY_SHAPE: &str = "http://www.w3.org/ns/shacl#PropertyShape";

pub const SH_CONSTRAINT_COMPONENT: &str = "http://www.w3.org/ns/shacl#ConstraintComponent";

pub const SH_BLANK_NODE: &str = "http://www.w3.org/ns/shacl#BlankNode";

pub const SH_IRI: &str = "http://www.w3.org/ns/shacl#IRI";

pub const SH_LITERAL: &str = "http://www.w3.org/ns/shacl#Literal";

pub const SH_BLANK_NODE_OR_IRI: &str = "http://www.w3.org/ns/shacl#BlankNodeOrIRI";

pub const SH_BLANK_NODE_OR_LITERAL: &str = "http://www.w3.org/ns/shacl#BlankNodeOrLiteral";

pub const SH_IRI_OR_LITERAL: &str = "http://www.w3.org/ns/shacl#IRIOrLiteral";

// SHACL 2.3.1.

pub const SH_PATH: &str = "http://www.w3.org/ns/shacl#path";

pub const SH_INVERSE_PATH: &str = "http://www.w3.org/ns/shacl#inversePath";

pub const SH_ALTERNATIVE_PATH: &str = "http://www.w3.org/ns/shacl#alternativePath";

pub const SH_ZERO_OR_MORE_PATH: &str = "http://www.w3.org/ns/shacl#zeroOrMorePath";

pub const SH_ONE_OR_MORE_PATH: &str = "http://www.w3.org/ns/shacl#oneOrMorePath";

pub const SH_ZERO_OR_ONE_PATH: &str = "http://www.w3.org/ns/shacl#zeroOrOnePath";

// SHACL 4.7.

pub const SH_PROPERTY: &str = "http://www.w3.org/ns/shacl#property";

pub const SH_QUALIFIED_VALUE_SHAPE: &str = "http://www.w3.org/ns/shacl#qualifiedValueShape";

pub const SH_QUALIFIED_VALUE_SHAPES_DISJOINT: &str =
    "http://www.w3.org/ns/shacl#qualifiedValueShapesDisjoint";
