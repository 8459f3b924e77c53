// Each function promises a theorem on the definitions, and does nothing.
ghost use Rattle.shape_model.specs.Laws.{BridgeLaw, ClassPathLaw, CompiledLaw, ConformsLaw, CountLaw, CoverLaw, DepthLaw, FuelLaw, ListingLaw, LookLaw, NoShapesLaw, ReadsLaw, UnfoldLaw, ValuesLaw, WalkLaw};

/// A node walks along the class path to just the classes that it is an instance of.
pub fn class_path_law()
    ensures { ClassPathLaw }
{}

/// A triple matches a look where `Look::reads` answers so.
pub fn look_law()
    ensures { LookLaw }
{}

/// Walks along a path are the same where two graphs agree on its looks.
pub fn walk_law()
    ensures { WalkLaw }
{}

/// Targets and results of a shape are the same where two graphs agree on its looks.
pub fn cover_law()
    ensures { CoverLaw }
{}

/// As many references as the shapes graph has triples, and one more, are deep enough.
pub fn fuel_law()
    ensures { FuelLaw }
{}

/// Fewer references are deep enough where no chain of so many leads from a shape.
pub fn depth_law()
    ensures { DepthLaw }
{}

/// The results of a shape are those by the results of the shapes that it refers to.
pub fn unfold_law()
    ensures { UnfoldLaw }
{}

/// The results of a shape that was compiled are those that its compiled form gives.
pub fn bridge_law()
    ensures { BridgeLaw }
{}

/// The results of a graph are those that the compiled shapes give at their targets.
pub fn compiled_law()
    ensures { CompiledLaw }
{}

/// A graph conforms where its listing is empty.
pub fn conforms_law()
    ensures { ConformsLaw }
{}

/// Under the empty shapes graph each graph has the empty listing, and no other.
pub fn no_shapes_law()
    ensures { NoShapesLaw }
{}

/// A graph has at most one listing.
pub fn listing_law()
    ensures { ListingLaw }
{}

/// A shape has at most one number of value nodes.
pub fn count_law()
    ensures { CountLaw }
{}

/// The looks of a shape from node to node are those of its rows.
pub fn reads_law()
    ensures { ReadsLaw }
{}

/// The values of a property of a node are listed each once, in the order of terms.
pub fn values_law()
    ensures { ValuesLaw }
{}
