//! Laws of properties and shapes, each proved on a function of its own that does nothing.
ghost use Rattle.shape_properties.specs.Laws.{PropertiesAreDefined, ShapesAreDefined};

/// Each property that a validation reads is one of the table, under the same IRI.
pub fn properties_are_those_defined()
    ensures { PropertiesAreDefined }
{}

/// The nodes that are shapes by the table of properties are those that SHACL section 2.1 has.
pub fn shapes_are_those_defined()
    ensures { ShapesAreDefined }
{}
