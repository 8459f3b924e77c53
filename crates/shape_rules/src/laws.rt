// Each function promises a theorem on the definitions, and does nothing.
ghost use Rattle.shape_rules.specs.Laws.{AcyclicLaw, LeastLaw, ShallowLaw};

/// In a well-formed shapes graph no shape refers to itself: what rule 38 follows has all references on which results rest.
pub fn acyclic_law()
    ensures { AcyclicLaw }
{}

/// In a well-formed shapes graph no chain of references on which results rest is longer than 256, by rule 41.
pub fn shallow_law()
    ensures { ShallowLaw }
{}

/// Rows are told apart by their order: of one shapes graph there is one least row.
pub fn least_law()
    ensures { LeastLaw }
{}
