//! What the text of a path means, as laws. Each stands on a function of its own that does nothing.
ghost use Rattle.report_writer.specs.Laws.{PathTextLaw, ShapePathLaw};

/// By the triples of a shapes graph a node has the text of the path that it stands for (SHACL section 2.3.1), and so has
/// the path of each shape of a well-formed one.
pub fn a_node_has_the_text_of_its_path()
    ensures node { PathTextLaw }
    ensures shape { ShapePathLaw }
{}
